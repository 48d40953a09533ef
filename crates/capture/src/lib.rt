// A capture read again (document 01, "Replay of a capture"): the records of a capture file, and the listing of the session that they
// hold, handed out line by line. Nothing here reads or writes a file.
#![tactic(auto)]

pub mod place;
pub mod record;
pub mod step;
