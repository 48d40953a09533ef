// Bytes taken up to one event (document 01, "One read call", step 4): what a header dooms, where payload goes, and what a frame's end
// is, carried over from the Rust's protocol/message.rs and protocol/mod.rs.
// Kept: the message store and the control store are lent apart. A struct that holds both as `&mut` is no plainer: every function that takes
// it would have to promise that each field is still the same loan.
// Kept: what is asked of the kept header (`header_kept`, `header_is_whole`, `header_legal`, `few_kept`) and of the stores' room stands in each
// contract. As ghost fields of a struct round the session it would have to hold when a function returns too, and a frame's end leaves no
// header.
#![tactic(auto)]

mod doom;
mod finish;
mod payload;
pub mod pump;
