// Reading (document 01, "One read call"): the read call, and the part of a store that an event shows, carried over from the Rust's
// protocol/mod.rs.
// Kept: the message store, the control store and the output store are lent apart, as a caller has them (document 01).
#![tactic(auto)]

mod conclude;
pub mod part;
pub mod read;
