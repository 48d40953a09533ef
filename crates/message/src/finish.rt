// The frame's last byte has come: its event, its refusal, or on to the next frame.
ghost use Rattle.std.specs.Prelude.{◌≡◌, not, List, true, false, ℕ, ◌+◌, ◌≤◌, length, take};
ghost use Rattle.base.specs.Table.{pick};
ghost use Rattle.base.specs.Tests.{both, either, first_of};
ghost use Rattle.session.specs.Frames.{is_reserved, is_control, is_close, is_text, frame, header_tests, before, progress_now, text_holds, reason_holds, verdict};
ghost use Rattle.session.specs.Reading.{world, between, control_event, ended, finish};
ghost use Rattle.session.specs.Refusals.{numbered};
ghost use Rattle.session.specs.Session.{with_incoming};

use crate::doom::{bytes_before, doom};
use crate::payload::{is_text, progress_of};
use coding::opcode::{Control, OpCode};
use frame::close::ClosePayload;
use frame::header::FrameHeader;
use session::refusal::Refusal;
use session::{Answer, Incoming, Session};

#[tactic(auto, unfolding(session::specs::Frames::text_holds))]
fn text_holds(incoming: &Incoming, header: FrameHeader) -> bool
    ensures { result ≡ text_holds header incoming.now }
{
    let progress = progress_of(incoming);
    if header.fin {
        utf8::is_whole(progress)
    } else {
        utf8::is_beginning(progress)
    }
}

// A reason begins behind the code. It is looked at behind every code, allowed or not, since the code is judged only once the close is no
// refusal.
fn reason_holds(payload: &[u8]) -> bool
    ensures { result ≡ reason_holds payload.now }
{
    match frame::close::into_close(payload) {
        ClosePayload::CodeAndReason(_) => utf8::is_text(&payload[2..]),
        ClosePayload::Empty | ClosePayload::OneByte => true,
    }
}

// Whether a close's reason, or text, is UTF-8 as far as it has to be.
fn utf_holds(incoming: &Incoming, header: FrameHeader, control: &[u8]) -> bool
    requires { is_close header.opcode ≡ true → header.length ≤ length control.now }
    ensures { result ≡ not (either (both (is_close header.opcode) (not (reason_holds (take header.length control.now)))) (both (is_text header incoming.now) (not (text_holds header incoming.now)))) }
{
    match header.opcode {
        OpCode::Control(Control::Close) => reason_holds(&control[..header.length as usize]),
        _ => !is_text(incoming, header) || text_holds(incoming, header),
    }
}

// What the frame is refused by.
fn verdict(session: &Session, header: FrameHeader, control: &[u8]) -> Result<(), Refusal>
    requires { 125 ≤ length control.now }
    ensures { numbered result ≡ verdict session.now.settings session.now.state header session.now.incoming control.now }
{
    doom(session, header)?;
    if utf_holds(&session.incoming, header, control) {
        Ok(())
    } else {
        Err(Refusal::NotUtf8)
    }
}

fn control_event(kind: Control, n: usize) -> Answer
    ensures { result ≡ control_event kind n }
{
    match kind {
        Control::Close => Answer::Close(n),
        Control::Ping => Answer::Ping(n),
        Control::Pong => Answer::Pong(n),
    }
}

// The next header is awaited, in the message as it is.
fn await_header(incoming: &mut Incoming)
    ensures { incoming.new ≡ between incoming.old incoming.old.begun incoming.old.text incoming.old.fragments incoming.old.progress }
{
    incoming.kept = 0;
    incoming.counted = 0;
}

// The end of a data frame: a message, or a fragment of one.
fn end_data(incoming: &mut Incoming, header: FrameHeader) -> Answer
    requires { before incoming.old + header.length ≤ 18446744073709551615 }
    ensures answer { result ≡ pick header.fin (pick (is_text header incoming.old) (Answer.Text (before incoming.old + header.length)) (Answer.Binary (before incoming.old + header.length))) Answer.More }
    ensures left { incoming.new ≡ pick header.fin (between incoming.old false false 0 0) (between incoming.old true (is_text header incoming.old) (before incoming.old + header.length) (progress_now incoming.old)) }
{
    let text = is_text(incoming, header);
    let sum = bytes_before(incoming) + header.length as usize;
    let progress = progress_of(incoming);
    await_header(incoming);
    incoming.begun = !header.fin;
    if header.fin {
        incoming.text = false;
        incoming.fragments = 0;
        incoming.progress = utf8::START;
        return if text {
            Answer::Text(sum)
        } else {
            Answer::Binary(sum)
        };
    }
    incoming.text = text;
    incoming.fragments = sum;
    incoming.progress = progress;
    Answer::More
}

// A frame that is not refused.
fn end_frame(incoming: &mut Incoming, header: FrameHeader) -> Answer
    requires { is_control header.opcode ≡ false → is_reserved header.opcode ≡ false → before incoming.old + header.length ≤ 18446744073709551615 }
    ensures { (m c : List ℕ) → world incoming.new m c result ≡ ended header header.opcode (world incoming.old m c Answer.More) }
{
    match header.opcode {
        OpCode::Reserved(_) => Answer::More,
        OpCode::Control(kind) => {
            await_header(incoming);
            control_event(kind, header.length as usize)
        }
        OpCode::Data(_) => end_data(incoming, header),
    }
}

// The frame is whole.
pub(crate) fn finish(session: &mut Session, header: FrameHeader, control: &[u8]) -> Answer
    requires header_kept { header ≡ frame session.old.incoming }
    requires header_legal { first_of (header_tests session.old.settings header) ≡ 0 }
    requires control_room { 125 ≤ length control.now }
    requires limit_fits { session.old.settings.message ≤ 18446744073709551615 }
    ensures finished { (m : List ℕ) → world session.new.incoming m control.now result ≡ finish session.old.settings session.old.state (world session.old.incoming m control.now Answer.More) }
    ensures rest { session.new ≡ with_incoming session.old session.new.incoming }
{
    match verdict(session, header, control) {
        Ok(()) => end_frame(&mut session.incoming, header),
        Err(refusal) => Answer::Refused(refusal.number()),
    }
}
