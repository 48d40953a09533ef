// Bytes of a piece taken up to one event.
ghost use Rattle.std.specs.Prelude.{◌≡◌, true, false, List, ℕ, ◌+◌, ◌-◌, ◌≤◌, ◌<◌, length};
ghost use Rattle.base.specs.Tests.{first_of};
ghost use Rattle.frame.specs.Header.{parsed};
ghost use Rattle.session.specs.declared.Settings.{Settings as Limits};
ghost use Rattle.session.specs.Frames.{kept, header_whole, frame, header_tests};
ghost use Rattle.session.specs.Reading.{world, after, settle, feed, is_more};
ghost use Rattle.session.specs.Session.{with_incoming};
ghost use Rattle.message.specs.Turns.{Turned, place, answered, goes_on, reaches};

use crate::{finish, payload};
use frame::header::FrameHeader;
use session::{Answer, Incoming, Session, Settings};
use std::ops::ControlFlow;

// What some bytes led to: the answer, and how many bytes of the piece are taken by then.
#[derive(Clone, Copy)]
pub struct Taken {
    pub answer: Answer,
    pub at: usize,
}

pub fn is_more(answer: Answer) -> bool
    ensures { result ≡ is_more answer }
{
    matches!(answer, Answer::More)
}

// Kept: a turn takes the piece and the place in it, and not the rest of the piece. The place is how many bytes are taken, which each turn's
// promise counts (`Turned`).

// How many payload bytes are still to come.
fn left_of(header: FrameHeader, incoming: &Incoming) -> usize
    ensures { result ≡ header.length - incoming.now.counted }
{
    header.length.saturating_sub(incoming.counted as u64) as usize
}

// Where a run of at most `most` bytes ends: before the piece does only where it has them all.
fn run_end(at: usize, size: usize, most: usize) -> usize
    requires { at ≤ size }
    ensures { (at ≤ result) × (result ≤ size) × (result - at ≤ most) × (result - at < most → result ≡ size) }
{
    at + most.min(size - at)
}

// A turn in a header: as many bytes as it surely lacks. Each of them but the last leaves it lacking, so there is nothing to look at between.
fn head_turn(incoming: &mut Incoming, piece: &[u8], at: usize) -> ControlFlow<Taken, usize>
    requires at_within { at ≤ length piece.now }
    requires few_kept { incoming.old.kept ≤ 14 }
    requires header_lacks { header_whole incoming.old ≡ false }
    ensures { (g : Limits) (state : ℕ) (m c : List ℕ) → Turned g state piece.now at (place result) (world incoming.old m c Answer.More) (world incoming.new m c (answered result)) (goes_on result) }
{
    if piece.len() <= at {
        return ControlFlow::Break(Taken {
            answer: Answer::More,
            at,
        });
    }
    let lacked = frame::header::missing(&incoming.header[..incoming.kept]);
    let end = run_end(at, piece.len(), lacked);
    payload::keep_run(incoming, &piece[at..end]);
    ControlFlow::Continue(end)
}

// A turn in a frame whose header is whole: as much of its payload as the piece has, and then its end, where it is reached.
fn payload_turn(
    session: &mut Session,
    header: FrameHeader,
    piece: &[u8],
    at: usize,
    message: &mut [u8],
    control: &mut [u8],
) -> ControlFlow<Taken, usize>
    requires at_within { at ≤ length piece.now }
    requires header_kept { header ≡ frame session.old.incoming }
    requires header_is_whole { header_whole session.old.incoming ≡ true }
    requires header_legal { first_of (header_tests session.old.settings header) ≡ 0 }
    requires few_kept { session.old.incoming.kept ≤ 14 }
    requires message_room { session.old.settings.message ≤ length message.old }
    requires control_room { 125 ≤ length control.old }
    ensures turned { Turned session.old.settings session.old.state piece.now at (place result) (world session.old.incoming message.old control.old Answer.More) (world session.new.incoming message.new control.new (answered result)) (goes_on result) }
    ensures rest { session.new ≡ with_incoming session.old session.new.incoming }
{
    let end = run_end(at, piece.len(), left_of(header, &session.incoming));
    payload::store_some(session, header, &piece[at..end], message, control);
    if (session.incoming.counted as u64) < header.length {
        return ControlFlow::Break(Taken {
            answer: Answer::More,
            at: end,
        });
    }
    let answer = finish::finish(session, header, control);
    if is_more(answer) {
        ControlFlow::Continue(end)
    } else {
        ControlFlow::Break(Taken { answer, at: end })
    }
}

// One turn. The header is looked at when it begins, so that what is decided without a further byte needs no turn of its own.
fn advance(
    session: &mut Session,
    piece: &[u8],
    at: usize,
    message: &mut [u8],
    control: &mut [u8],
) -> ControlFlow<Taken, usize>
    requires at_within { at ≤ length piece.now }
    requires few_kept { session.old.incoming.kept ≤ 14 }
    requires message_room { session.old.settings.message ≤ length message.old }
    requires control_room { 125 ≤ length control.old }
    ensures turned { Turned session.old.settings session.old.state piece.now at (place result) (world session.old.incoming message.old control.old Answer.More) (world session.new.incoming message.new control.new (answered result)) (goes_on result) }
    ensures rest { session.new ≡ with_incoming session.old session.new.incoming }
{
    let Some(header) = session::range::kept_header(&session.incoming) else {
        return head_turn(&mut session.incoming, piece, at);
    };
    if let Err(refusal) = session::range::header_verdict(&session.settings, header) {
        let answer = Answer::Refused(refusal.number());
        return ControlFlow::Break(Taken { answer, at });
    }
    payload_turn(session, header, piece, at, message, control)
}

// Whether a whole header is legal and so many bytes of its payload, at least one, leave some to come.
fn stays_within(session: &Session, header: FrameHeader, n: usize) -> bool
    ensures { result ≡ true → (0 < n) × (session.now.incoming.counted + n < header.length) × (first_of (header_tests session.now.settings header) ≡ 0) }
{
    0 < n
        && n < left_of(header, &session.incoming)
        && session::range::header_verdict(&session.settings, header).is_ok()
}

// Takes a piece that lies inside a frame, and that the stream does not end behind, or says that it is none. That is most pieces of a long
// message, and then no more of what has come changes than two numbers.
pub fn take_within(
    session: &mut Session,
    header: Option<FrameHeader>,
    piece: &[u8],
    end: bool,
    message: &mut [u8],
    control: &mut [u8],
) -> bool
    requires few_kept { session.old.incoming.kept ≤ 14 }
    requires header_kept { header ≡ parsed (kept session.old.incoming) }
    requires message_room { session.old.settings.message ≤ length message.old }
    requires control_room { 125 ≤ length control.old }
    ensures taken { result ≡ true → (end ≡ false) × (after (world session.new.incoming message.new control.new Answer.More) (length piece.now) ≡ feed session.old.settings session.old.state (after (settle session.old.settings session.old.state (world session.old.incoming message.old control.old Answer.More)) 0) piece.now) }
    ensures declined { result ≡ false → (session.new ≡ session.old) × (message.new ≡ message.old) × (control.new ≡ control.old) }
    ensures rest { session.new ≡ with_incoming session.old (reaches session.old.incoming session.new.incoming.counted session.new.incoming.progress) }
{
    match header {
        Some(header) if !end && stays_within(session, header, piece.len()) => {
            payload::store(session, header, piece, message, control);
            true
        }
        _ => false,
    }
}

// What is decided already without a further byte, or else the bytes of the piece, up to one event.
pub fn take_bytes(
    session: &mut Session,
    piece: &[u8],
    message: &mut [u8],
    control: &mut [u8],
) -> Taken
    requires few_kept { session.old.incoming.kept ≤ 14 }
    requires message_room { session.old.settings.message ≤ length message.old }
    requires control_room { 125 ≤ length control.old }
    ensures fed { after (world session.new.incoming message.new control.new result.answer) result.at ≡ feed session.old.settings session.old.state (after (settle session.old.settings session.old.state (world session.old.incoming message.old control.old Answer.More)) 0) piece.now }
    ensures rest { session.new ≡ with_incoming session.old session.new.incoming }
{
    let mut at = 0;
    loop {
        match advance(session, piece, at, message, control) {
            ControlFlow::Continue(next) => at = next,
            ControlFlow::Break(taken) => return taken,
        }
    }
}
