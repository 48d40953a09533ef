// Payload bytes: unmasked into the store that the header names, counted, and, where they are text, checked as they come.
ghost use Rattle.std.specs.Prelude.{◌≡◌, true, ◌+◌, ◌≤◌, ◌<◌, length};
ghost use Rattle.base.specs.Bytes.{part};
ghost use Rattle.base.specs.Table.{pick};
ghost use Rattle.base.specs.Tests.{first_of};
ghost use Rattle.session.specs.Frames.{header_whole, frame, header_tests, is_control, is_text, progress_now};
ghost use Rattle.session.specs.Reading.{world, counts, stored};
ghost use Rattle.session.specs.Session.{with_incoming};
ghost use Rattle.utf8.specs.Progress.{progress_after};
ghost use Rattle.message.specs.Turns.{keeps, reached, reaches};

use crate::doom::{bytes_before, doom};
use coding::opcode::{Data, OpCode};
use frame::header::FrameHeader;
use session::{Answer, Incoming, Session};

// Header bytes more.
pub(crate) fn keep_run(incoming: &mut Incoming, run: &[u8])
    requires { incoming.old.kept + length run.now ≤ 14 }
    ensures { incoming.new ≡ keeps incoming.old run.now }
{
    stores::copy(run, &mut incoming.header, incoming.kept);
    incoming.kept += run.len();
}

fn is_control(opcode: OpCode) -> bool
    ensures { result ≡ is_control opcode }
{
    matches!(opcode, OpCode::Control(_))
}

// Text by its own opcode, or a continuation of text.
#[tactic(auto, unfolding(session::specs::Frames::is_text))]
pub(crate) fn is_text(incoming: &Incoming, header: FrameHeader) -> bool
    ensures { result ≡ is_text header incoming.now }
{
    match header.opcode {
        OpCode::Data(Data::Continue) => incoming.text,
        OpCode::Data(Data::Text) => true,
        _ => false,
    }
}

// The progress of the message's check; a new message starts it.
#[tactic(auto, unfolding(session::specs::Frames::progress_now))]
pub(crate) fn progress_of(incoming: &Incoming) -> u8
    ensures { result ≡ progress_now incoming.now }
{
    if incoming.begun || 0 < incoming.counted {
        incoming.progress
    } else {
        utf8::START
    }
}

// The progress behind the n bytes that were laid at a place, where they are text.
fn checked(text: bool, incoming: &Incoming, message: &[u8], at: usize, n: usize) -> u8
    requires { at + n ≤ length message.now }
    ensures { result ≡ pick text (progress_after (progress_now incoming.now) (part at n message.now)) incoming.now.progress }
{
    if text {
        utf8::scan(progress_of(incoming), &message[at..at + n]).progress
    } else {
        incoming.progress
    }
}

// A run of payload bytes is laid where it belongs. Gives the progress of the check behind it.
fn lay_run(
    session: &Session,
    header: FrameHeader,
    run: &[u8],
    message: &mut [u8],
    control: &mut [u8],
) -> u8
    requires header_kept { header ≡ frame session.now.incoming }
    requires header_is_whole { header_whole session.now.incoming ≡ true }
    requires header_legal { first_of (header_tests session.now.settings header) ≡ 0 }
    requires few_kept { session.now.incoming.kept ≤ 14 }
    requires run_fits { session.now.incoming.counted + length run.now ≤ header.length }
    requires message_room { session.now.settings.message ≤ length message.old }
    requires control_room { 125 ≤ length control.old }
    ensures { world (counts session.now.incoming (length run.now) result) message.new control.new Answer.More ≡ stored session.now.settings session.now.state (world session.now.incoming message.old control.old Answer.More) run.now }
{
    let incoming = &session.incoming;
    if doom(session, header).is_err() {
        return incoming.progress;
    }
    let mask = frame::header::mask_of(&incoming.header[..incoming.kept]);
    let counted = incoming.counted;
    if is_control(header.opcode) {
        stores::put(mask, counted, run, control, counted);
        return incoming.progress;
    }
    let at = bytes_before(incoming) + counted;
    stores::put(mask, counted, run, message, at);
    checked(is_text(incoming, header), incoming, message, at, run.len())
}

// A run of payload bytes is laid, counted and checked.
pub(crate) fn store(
    session: &mut Session,
    header: FrameHeader,
    run: &[u8],
    message: &mut [u8],
    control: &mut [u8],
)
    requires header_kept { header ≡ frame session.old.incoming }
    requires header_is_whole { header_whole session.old.incoming ≡ true }
    requires header_legal { first_of (header_tests session.old.settings header) ≡ 0 }
    requires few_kept { session.old.incoming.kept ≤ 14 }
    requires run_fits { session.old.incoming.counted + length run.now ≤ header.length }
    requires message_room { session.old.settings.message ≤ length message.old }
    requires control_room { 125 ≤ length control.old }
    ensures laid { world session.new.incoming message.new control.new Answer.More ≡ stored session.old.settings session.old.state (world session.old.incoming message.old control.old Answer.More) run.now }
    ensures rest { session.new ≡ with_incoming session.old (reaches session.old.incoming session.new.incoming.counted session.new.incoming.progress) }
{
    let progress = lay_run(session, header, run, message, control);
    session.incoming.counted += run.len();
    session.incoming.progress = progress;
}

// A run of payload bytes, where there are any.
pub(crate) fn store_some(
    session: &mut Session,
    header: FrameHeader,
    run: &[u8],
    message: &mut [u8],
    control: &mut [u8],
)
    requires header_kept { header ≡ frame session.old.incoming }
    requires header_is_whole { header_whole session.old.incoming ≡ true }
    requires header_legal { first_of (header_tests session.old.settings header) ≡ 0 }
    requires few_kept { session.old.incoming.kept ≤ 14 }
    requires run_fits { 0 < length run.now → session.old.incoming.counted + length run.now ≤ header.length }
    requires message_room { session.old.settings.message ≤ length message.old }
    requires control_room { 125 ≤ length control.old }
    ensures laid { world session.new.incoming message.new control.new Answer.More ≡ reached session.old.settings session.old.state (world session.old.incoming message.old control.old Answer.More) run.now }
    ensures rest { session.new ≡ with_incoming session.old session.new.incoming }
{
    if run.is_empty() {
        return;
    }
    store(session, header, run, message, control);
}
