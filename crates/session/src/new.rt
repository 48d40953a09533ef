// How a session is made.
ghost use Rattle.std.specs.Prelude.{◌≡◌};
ghost use Rattle.session.specs.Calls.{no_incoming, empty_reply, fresh, handed, new_call, role_number};
ghost use Rattle.session.specs.Refusals.{sent_of};

use crate::refusal::Refusal;
use crate::{Handed, Incoming, Reply, Role, Session, Settings, Waiting};

#[tactic(auto, unfolding(crate::specs::Calls::no_incoming))]
fn no_incoming() -> Incoming
    ensures { result ≡ no_incoming }
{
    Incoming {
        header: [0; 14],
        kept: 0,
        counted: 0,
        begun: false,
        text: false,
        fragments: 0,
        progress: utf8::START,
    }
}

#[tactic(auto, unfolding(crate::specs::Calls::empty_reply))]
fn empty_reply() -> Reply
    ensures { result ≡ empty_reply }
{
    Reply {
        waiting: Waiting::Nothing,
        length: 0,
        payload: [0; 125],
    }
}

#[tactic(auto, unfolding(crate::specs::Calls::fresh))]
fn fresh(settings: Settings, state: u8) -> Session
    ensures { result ≡ fresh settings state }
{
    Session {
        settings,
        state,
        refusal: 0,
        incoming: no_incoming(),
        reply: empty_reply(),
        held: 0,
    }
}

// The number that a session has for its role.
impl From<Role> for u8 {
    ghost from_gives = { λ role number. number ≡ role_number role };

    fn from(role: Role) -> u8 {
        match role {
            Role::Server => crate::SERVER,
            Role::Client => crate::CLIENT,
        }
    }
}

// A session with these limits, Active; or a refusal beside one that is Terminated. Kept: `new_call` promises that session too.
#[tactic(auto, unfolding(crate::specs::Calls::new_call))]
pub fn new(role: Role, frame: usize, message: usize, unmasked: bool) -> Handed
    ensures { handed (sent_of result.sent) result.session ≡ new_call role frame message unmasked }
{
    if crate::range::limits_hold(frame, message) {
        let settings = Settings {
            role: u8::from(role),
            frame,
            message,
            unmasked,
        };
        return Handed {
            sent: Ok(()),
            session: fresh(settings, crate::ACTIVE),
        };
    }
    let nothing = Settings {
        role: crate::SERVER,
        frame: 0,
        message: 0,
        unmasked: false,
    };
    Handed {
        sent: Err(Refusal::OutOfRange),
        session: fresh(nothing, crate::TERMINATED),
    }
}
