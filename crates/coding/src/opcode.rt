// The opcode of a frame (RFC 6455, 5.2).
ghost use Rattle.std.specs.Prelude.{◌≡◌, ◌%◌};
ghost use Rattle.coding.specs.Opcodes.{opcode_of, opcode_number};

// What a data frame carries.
#[derive(Clone, Copy)]
pub enum Data {
    Continue,
    Text,
    Binary,
}

// What a control frame asks for.
#[derive(Clone, Copy)]
pub enum Control {
    Close,
    Ping,
    Pong,
}

// A reserved opcode keeps its number, so that it can be told and written again.
#[derive(Clone, Copy)]
pub enum OpCode {
    Data(Data),
    Control(Control),
    Reserved(u8),
}

// Takes a header's whole first byte: the flags above the four low bits are not looked at.
impl From<u8> for OpCode {
    ghost from_gives = { λ byte opcode. opcode ≡ opcode_of (byte % 16) };

    #[tactic(auto, unfolding(crate::specs::Opcodes::opcode_of, base::specs::Table::value_at))]
    fn from(byte: u8) -> OpCode {
        match byte & 0x0f {
            0 => OpCode::Data(Data::Continue),
            1 => OpCode::Data(Data::Text),
            2 => OpCode::Data(Data::Binary),
            8 => OpCode::Control(Control::Close),
            9 => OpCode::Control(Control::Ping),
            10 => OpCode::Control(Control::Pong),
            number => OpCode::Reserved(number),
        }
    }
}

impl From<OpCode> for u8 {
    ghost from_gives = { λ opcode number. number ≡ opcode_number opcode };

    fn from(opcode: OpCode) -> u8 {
        match opcode {
            OpCode::Data(Data::Continue) => 0,
            OpCode::Data(Data::Text) => 1,
            OpCode::Data(Data::Binary) => 2,
            OpCode::Control(Control::Close) => 8,
            OpCode::Control(Control::Ping) => 9,
            OpCode::Control(Control::Pong) => 10,
            OpCode::Reserved(number) => number,
        }
    }
}
