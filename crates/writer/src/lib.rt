// Sending (document 01, "Sending"): the calls that put frames into the output store and hand them over, carried over from the Rust's
// protocol/mod.rs and protocol/frame/mod.rs.
// Kept: the masks and the output store are two parameters, as a caller has them (document 01).
#![tactic(auto)]

pub mod output;
pub mod send;
