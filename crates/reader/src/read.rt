// One read call.
ghost use Rattle.std.specs.Prelude.{◌≡◌, ◌≢◌, true, not, List, ◌∷◌, [], ℕ, ◌+◌, ◌-◌, ◌≤◌, leb, length, MatchResult};
ghost use Rattle.base.specs.Tests.{both, ◌when◌, first_of};
ghost use Rattle.frame.specs.Header.{header_size, parsed};
ghost use Rattle.session.specs.Calls.{turn, read, stores_short, read_tests, read_on, read_call};
ghost use Rattle.session.specs.Frames.{kept};
ghost use Rattle.session.specs.Range.{in_range};
ghost use Rattle.session.specs.Replies.{is_close_reply};
ghost use Rattle.session.specs.Session.{is_server, is_client, is_peer_closed};
ghost use Rattle.steady.specs.Shape.{Shaped};

use frame::header::FrameHeader;
use message::pump::Taken;
use session::refusal::Refusal;
use session::{Answer, Incoming, Masks, Reply, Session, Turn};

// Whether a store is below its least size, or the output store below the bytes held.
#[tactic(auto, unfolding(session::specs::Calls::stores_short, session::specs::Calls::output_short))]
fn is_short(session: &Session, message: &[u8], control: &[u8], output: &[u8]) -> bool
    ensures { result ≡ stores_short session.now message.now control.now output.now }
{
    message.len() < session.settings.message
        || control.len() < 125
        || output.len() < 131
        || output.len() < session.held
}

// Whether a server's waiting close does not fit: it is to go out before anything else is read.
fn is_stuck(session: &Session, size: usize) -> bool
    requires { session.now.held ≤ size }
    ensures { result ≡ both (is_server session.now.settings) (both (is_close_reply session.now.reply.waiting) (not (leb (header_size (is_client session.now.settings) session.now.reply.length + session.now.reply.length) (size - session.now.held)))) }
{
    session.is_server()
        && replies::reply::is_close(session.reply.waiting)
        && !replies::reply::reply_fits(session, size)
}

// What a call is refused with before it takes a byte: 20, 1, 2, what the session was refused with, 19. Kept: the number, which is what a
// session has of its refusal (document 01).
#[tactic(auto, unfolding(base::specs::Tests::first_of, session::specs::Calls::read_tests))]
fn readable(
    session: &Session,
    header: Option<FrameHeader>,
    message: &[u8],
    control: &[u8],
    output: &[u8],
) -> Result<(), u8>
    requires shaped { Shaped session.now }
    requires header_kept { header ≡ parsed (kept session.now.incoming) }
    ensures { (mask : List ℕ) → length mask ≡ 4 → MatchResult result (λ u. first_of (read_tests session.now mask message.now control.now output.now) ≡ 0) (λ n. (n ≢ 0) × (n ≡ first_of (read_tests session.now mask message.now control.now output.now))) }
{
    if !session::range::in_range_by(session, header) {
        return Err(Refusal::OutOfRange.number());
    }
    if is_short(session, message, control, output) {
        return Err(Refusal::ShortStore.number());
    }
    if session.state == session::TERMINATED {
        return Err(Refusal::Terminated.number());
    }
    if session.refusal != 0 {
        return Err(session.refusal);
    }
    if is_stuck(session, output.len()) {
        return Err(Refusal::NoRoom.number());
    }
    Ok(())
}

// Whether a server's connection is at its end: its peer has closed.
fn is_over(session: &Session) -> bool
    ensures { result ≡ both (is_server session.now.settings) (is_peer_closed session.now.state) }
{
    session.is_server() && session.is_peer_closed()
}

// What a call does once its reply has moved. A server whose peer has closed is done. Else bytes are taken up to one event, the event leaves
// what it leaves, and then the flag is looked at; most pieces of a long message lie inside a frame, and lead to no event. The output store
// is not touched.
#[tactic(auto, unfolding(session::specs::Calls::read_on))]
fn read_on(
    session: &mut Session,
    header: Option<FrameHeader>,
    piece: &[u8],
    end: bool,
    message: &mut [u8],
    control: &mut [u8],
) -> Taken
    requires shaped { Shaped session.old }
    requires ranged { in_range session.old ≡ true }
    requires header_kept { header ≡ parsed (kept session.old.incoming) }
    requires message_room { session.old.settings.message ≤ length message.old }
    requires control_room { 125 ≤ length control.old }
    ensures { (output : List ℕ) → read (turn result.answer result.at session.new) message.new control.new output ≡ read_on session.old piece.now end message.old control.old output }
{
    if is_over(session) {
        session.state = session::TERMINATED;
        return Taken {
            answer: Answer::Closed,
            at: 0,
        };
    }
    if message::pump::take_within(session, header, piece, end, message, control) {
        return Taken {
            answer: Answer::More,
            at: piece.len(),
        };
    }
    let taken = message::pump::take_bytes(session, piece, message, control);
    let answer = crate::conclude::conclude(session, taken.answer, control);
    Taken {
        answer: crate::conclude::flag(session, end, answer),
        at: taken.at,
    }
}

// The same session, field by field. Copied whole it goes through a call of the C library, and on one processor reads of 16 bytes inside a
// frame, in a loop compiled alone, then took half as long again.
#[inline(always)]
fn by_fields(session: Session) -> Session
    ensures { result ≡ session }
{
    let settings = session.settings;
    let header = session.incoming.header;
    let payload = session.reply.payload;
    Session {
        settings,
        state: session.state,
        refusal: session.refusal,
        incoming: Incoming {
            kept: session.incoming.kept,
            counted: session.incoming.counted,
            fragments: session.incoming.fragments,
            header,
            begun: session.incoming.begun,
            text: session.incoming.text,
            progress: session.incoming.progress,
        },
        reply: Reply {
            waiting: session.reply.waiting,
            length: session.reply.length,
            payload,
        },
        held: session.held,
    }
}

// Reads a piece up to one event.
#[tactic(auto, unfolding(session::specs::Calls::read_call))]
pub fn read(
    session: Session,
    piece: &[u8],
    end: bool,
    masks: Masks,
    message: &mut [u8],
    control: &mut [u8],
    output: &mut [u8],
) -> Turn
    ensures { read result message.new control.new output.new ≡ read_call session piece.now end masks message.old control.old output.old }
{
    let mut session = by_fields(session);
    let header = session::range::kept_header(&session.incoming);
    if let Err(number) = readable(&session, header, message, control, output) {
        return Turn {
            answer: Answer::Refused(number),
            taken: 0,
            session,
        };
    }
    replies::reply::move_reply(&mut session, masks.first, output);
    let taken = read_on(&mut session, header, piece, end, message, control);
    Turn {
        answer: taken.answer,
        taken: taken.at,
        session: by_fields(session),
    }
}
