// The codes of RFC 6455: the opcodes of frames, and the close codes.
#![tactic(auto)]

pub mod close_code;
pub mod opcode;
