// What the programs that answer lines of text have in common: the words of a line, the values that a script writes, and answers laid as
// text. No function asks anything of its caller: a place behind the end has no byte, and what does not fit is left out.
#![tactic(auto)]

pub mod answers;
pub mod values;
pub mod words;
