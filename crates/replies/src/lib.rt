// What every call that puts frames out shares (document 01, "Replies and closing" and "Sending"): a frame put into the output store, and
// the waiting reply, how it is made and how it moves. Carried over from the Rust's protocol/mod.rs and protocol/frame/mod.rs.
#![tactic(auto)]

pub mod frames;
pub mod reply;
