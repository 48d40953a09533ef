// A session (document 01, "The session"), carried over from the Rust's protocol/mod.rs: its types, how one is made, and which are in
// range. What each call does is defined in specs/; the calls themselves are in the crates above.
#![tactic(auto)]

ghost use Rattle.std.specs.Prelude.{◌≡◌};
ghost use Rattle.session.specs.Session.{is_client, is_server, is_peer_closed};

pub mod new;
pub mod range;
pub mod refusal;

use refusal::Refusal;

// Which end a session is. In a session it is a number.
#[derive(Clone, Copy)]
pub enum Role {
    Server,
    Client,
}

pub const SERVER: u8 = 0;

pub const CLIENT: u8 = 1;

// The five states.
pub const ACTIVE: u8 = 0;

pub const CLOSED_BY_US: u8 = 1;

pub const CLOSED_BY_PEER: u8 = 2;

pub const CLOSE_ACKNOWLEDGED: u8 = 3;

pub const TERMINATED: u8 = 4;

// Kept: role, state, progress and refusal are numbers, since number 20 speaks of sessions whose numbers name none (document 01).
// Kept: bytes stand in arrays with a count beside them (`kept` and `header`, `length` and `payload`), since memory is fixed, and number 20
// speaks of counts beyond the arrays. What waits stands beside its payload, whose bytes stay as they were when nothing waits (`no_reply`).
// The wide fields of a struct stand before the narrow ones: what lies between them would be copied with each session.
#[derive(Clone, Copy)]
pub struct Settings {
    // the frame limit and the message limit
    pub frame: usize,
    pub message: usize,
    pub role: u8,
    // frames to a server may come without a mask
    pub unmasked: bool,
}

// What has come of a frame and of a message.
#[derive(Clone, Copy)]
pub struct Incoming {
    // how many bytes of the header are kept
    pub kept: usize,
    // payload bytes counted
    pub counted: usize,
    // the bytes of the fragments so far, where a fragmented message is begun. Kept: beside `begun`, as `text` is, since number 20 looks at it
    // with no message begun too, and a session may hold any of them
    pub fragments: usize,
    // the header's bytes
    pub header: [u8; 14],
    // a fragmented message is begun, and it is text
    pub begun: bool,
    pub text: bool,
    // of the UTF-8 check
    pub progress: u8,
}

#[derive(Clone, Copy)]
pub enum Waiting {
    Nothing,
    Pong,
    Close,
}

// The waiting reply, with its payload.
#[derive(Clone, Copy)]
pub struct Reply {
    pub waiting: Waiting,
    pub length: usize,
    pub payload: [u8; 125],
}

#[derive(Clone, Copy)]
pub struct Session {
    pub settings: Settings,
    pub state: u8,
    // the number from 3 to 15 by which reading was refused, or 0
    pub refusal: u8,
    pub incoming: Incoming,
    pub reply: Reply,
    // bytes held in the output store
    pub held: usize,
}

// A role or a state whose number names none is none of these.
impl Session {
    pub fn is_client(&self) -> bool
        ensures { result ≡ is_client self.now.settings }
    {
        self.settings.role == CLIENT
    }

    pub fn is_server(&self) -> bool
        ensures { result ≡ is_server self.now.settings }
    {
        self.settings.role == SERVER
    }

    // Whether a close of the peer has come.
    pub fn is_peer_closed(&self) -> bool
        ensures { result ≡ is_peer_closed self.now.state }
    {
        matches!(self.state, CLOSED_BY_PEER | CLOSE_ACKNOWLEDGED)
    }
}

// An answer of the reader. Kept: a refusal has its number (document 01, "Where each language form goes").
#[derive(Clone, Copy)]
pub enum Answer {
    More,
    Text(usize),
    Binary(usize),
    Ping(usize),
    Pong(usize),
    Close(usize),
    Closed,
    Refused(u8),
}

// What a read call gives beside the stores.
#[derive(Clone, Copy)]
pub struct Turn {
    pub answer: Answer,
    pub taken: usize,
    pub session: Session,
}

// What a sending call or a take gives beside the output store.
#[derive(Clone, Copy)]
pub struct Handed {
    pub sent: Result<(), Refusal>,
    pub session: Session,
}

// The two masks of a call: its first frame takes the first.
#[derive(Clone, Copy)]
pub struct Masks {
    pub first: [u8; 4],
    pub second: [u8; 4],
}

// Masks of zeros, which leave a payload as it is.
pub const NO_MASKS: Masks = Masks {
    first: [0; 4],
    second: [0; 4],
};
