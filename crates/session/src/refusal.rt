// What a call refuses by: the rows of document 01, "Numbers". The number itself is said where an answer, a session or another program
// wants one.
ghost use Rattle.std.specs.Prelude.{◌≡◌};
ghost use Rattle.session.specs.Refusals.{number_of};

#[derive(Clone, Copy, PartialEq, Eq, Debug)]
pub enum Refusal {
    // a lent store is below its least size, or the output store below the bytes held
    ShortStore = 1,
    Terminated,
    ReservedOpcode,
    FrameTooLong,
    // a frame to a server has no mask
    Unmasked,
    // a frame comes after a close
    AfterClose,
    ReservedBit,
    // a frame to a client has a mask
    Masked,
    ControlNotFinal,
    ControlTooLong,
    OneByteClose,
    // text or a close's reason that came
    NotUtf8,
    // a continuation with no message begun
    NothingBegun,
    // text or binary inside a fragmented message
    InsideMessage,
    MessageTooLong,
    // the stream ended without a closing handshake
    NoHandshake,
    // a sending call outside of Active
    NotActive,
    // a payload that may not be sent: too long for a control frame, or no text
    BadPayload,
    // the output store has no room for the frame
    NoRoom,
    // a limit or a number of the session is out of range, or more is taken than is held
    OutOfRange,
}

// Kept: a method and no `From`, since its name says what the `u8` is.
impl Refusal {
    pub fn number(self) -> u8
        ensures { result ≡ number_of self }
    {
        self as u8
    }
}
