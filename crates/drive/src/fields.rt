// `set FIELD VALUE`: a session's number set by hand.
use crate::line::{bytes, flag, number};
use session::{Session, Waiting};

// A field and its value.
#[derive(Clone, Copy)]
pub(crate) enum Field {
    Role(u8),
    Frame(usize),
    Message(usize),
    Unmasked(bool),
    State(u8),
    Refusal(u8),
    Header([u8; 14]),
    Kept(usize),
    Counted(usize),
    Begun(bool),
    Text(bool),
    Fragments(usize),
    Progress(u8),
    Waiting(Waiting),
    Length(usize),
    Payload([u8; 125]),
    Held(usize),
}

fn byte(word: &[u8]) -> Option<u8> {
    u8::try_from(number(word)?).ok()
}

fn waiting(word: &[u8]) -> Option<Waiting> {
    match word {
        b"0" => Some(Waiting::Nothing),
        b"1" => Some(Waiting::Pong),
        b"2" => Some(Waiting::Close),
        _ => None,
    }
}

impl Field {
    pub(crate) fn of(name: &[u8], value: &[u8]) -> Option<Field> {
        match name {
            b"role" => Some(Field::Role(byte(value)?)),
            b"frame" => Some(Field::Frame(number(value)?)),
            b"message" => Some(Field::Message(number(value)?)),
            b"unmasked" => Some(Field::Unmasked(flag(value)?)),
            b"state" => Some(Field::State(byte(value)?)),
            b"refusal" => Some(Field::Refusal(byte(value)?)),
            b"header" => Some(Field::Header(bytes(value)?)),
            b"kept" => Some(Field::Kept(number(value)?)),
            b"counted" => Some(Field::Counted(number(value)?)),
            b"begun" => Some(Field::Begun(flag(value)?)),
            b"text" => Some(Field::Text(flag(value)?)),
            b"fragments" => Some(Field::Fragments(number(value)?)),
            b"progress" => Some(Field::Progress(byte(value)?)),
            b"waiting" => Some(Field::Waiting(waiting(value)?)),
            b"length" => Some(Field::Length(number(value)?)),
            b"payload" => Some(Field::Payload(bytes(value)?)),
            b"held" => Some(Field::Held(number(value)?)),
            _ => None,
        }
    }

    pub(crate) fn set(self, session: &mut Session) {
        match self {
            Field::Role(n) => session.settings.role = n,
            Field::Frame(n) => session.settings.frame = n,
            Field::Message(n) => session.settings.message = n,
            Field::Unmasked(on) => session.settings.unmasked = on,
            Field::State(n) => session.state = n,
            Field::Refusal(n) => session.refusal = n,
            Field::Header(bytes) => session.incoming.header = bytes,
            Field::Kept(n) => session.incoming.kept = n,
            Field::Counted(n) => session.incoming.counted = n,
            Field::Begun(on) => session.incoming.begun = on,
            Field::Text(on) => session.incoming.text = on,
            Field::Fragments(n) => session.incoming.fragments = n,
            Field::Progress(n) => session.incoming.progress = n,
            Field::Waiting(waiting) => session.reply.waiting = waiting,
            Field::Length(n) => session.reply.length = n,
            Field::Payload(bytes) => session.reply.payload = bytes,
            Field::Held(n) => session.held = n,
        }
    }
}
