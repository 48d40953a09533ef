// Frame headers and close payloads (RFC 6455, 5.2 and 5.5.1), carried over from the Rust's protocol/frame/frame.rs.
#![tactic(auto)]

pub mod close;
pub mod header;
mod length;
