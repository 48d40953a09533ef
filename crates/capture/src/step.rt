// The listing, handed out line by line.
ghost use Rattle.std.specs.Prelude.{◌≡◌, Bool, List, ℕ, ◌+◌, ◌≤◌, length};
ghost use Rattle.base.specs.Stores.{laid};
ghost use Rattle.base.specs.Table.{pick};
ghost use Rattle.lines.specs.Text.{Wrote};
ghost use Rattle.steady.specs.Cutting.{is_final};
ghost use Rattle.capture.specs.Listing.{made, put_text, refused_text, bad_text, answer_text};
ghost use Rattle.capture.specs.Steps.{begun, stepped, step, lastly, in_role, in_record, role_text, role_stepped, record_text, record_stepped, due_after, by_due, step_call};

use crate::place::{FilePlace, StreamPlace};
use crate::record::{self, Found};
use session::{Answer, Role, Session};

// What is to be done next: the role record, a record, a call on what is left of a record, the taking of the output that a call left, the
// line of its answer, or nothing more.
#[derive(Clone, Copy)]
pub enum Due {
    Role,
    Record,
    Call,
    Put(Answer),
    Told(Answer),
    Nothing,
}

// A replay between two steps. Kept: `left` and `end` beside `due`, since `step` promises what it does of every replay (`step_call`).
#[derive(Clone, Copy)]
pub struct Replay {
    pub session: Session,
    pub due: Due,
    // of a record: how many bytes are still to be read, and whether the stream ends with it
    pub left: usize,
    pub end: bool,
    // where the next byte of the file and of the stream stands
    pub file: FilePlace,
    pub stream: StreamPlace,
}

// What a step came to: it wants more bytes of the file, or more room for a line; it has laid a line of so many bytes, or of none where
// there is nothing to say; it has laid the last one.
#[derive(Clone, Copy)]
pub enum Came {
    Lacking,
    Full,
    Line(usize),
    Last(usize),
}

#[derive(Clone, Copy)]
pub struct Stepped {
    pub came: Came,
    // bytes used of the window
    pub used: usize,
    pub replay: Replay,
}

// The room that the longest line may need. Kept: the functions that lay a line ask for it, each in its contract. Store and place in a struct
// with this as a ghost field would be taken apart again for the functions of `lines`.
const LINE_ROOM: usize = 65600;

// The session of a capture: both limits are 32,768, and frames to a server are masked.
#[tactic(auto, unfolding(crate::specs::Listing::made))]
fn make(role: Role) -> Session
    ensures { result ≡ made role }
{
    session::new::new(role, 32768, 32768, false).session
}

// A replay before its first step. No role is known yet: the session only fills its place.
#[tactic(auto, unfolding(crate::specs::Steps::begun))]
pub fn begin() -> Replay
    ensures { result ≡ begun }
{
    Replay {
        session: make(Role::Server),
        due: Due::Role,
        left: 0,
        end: false,
        file: FilePlace(0),
        stream: StreamPlace(0),
    }
}

// The capture is bad at the place where a mark is due.
#[tactic(auto, unfolding(crate::specs::Steps::lastly, crate::specs::Listing::bad_text))]
fn bad(replay: Replay, out: &mut [u8], at: usize) -> Stepped
    requires { at + 65600 ≤ length out.old }
    ensures { (result ≡ lastly replay (length (bad_text replay.file.0))) × (out.new ≡ laid out.old at (bad_text replay.file.0)) }
{
    let behind = lines::line::put_at_place(b"capture bad", replay.file.0, out, at);
    Stepped {
        came: Came::Last(behind - at),
        used: 0,
        replay: Replay {
            due: Due::Nothing,
            ..replay
        },
    }
}

// The role is known, and the first record is due.
#[tactic(auto, unfolding(crate::specs::Steps::in_role))]
fn in_role(replay: Replay, role: Role) -> Stepped
    ensures { result ≡ in_role replay role }
{
    Stepped {
        came: Came::Line(0),
        used: 2,
        replay: Replay {
            session: make(role),
            due: Due::Record,
            left: 0,
            end: false,
            file: replay.file.onward(2),
            stream: replay.stream,
        },
    }
}

// A record's head is used, and a call on its n bytes is due.
#[tactic(auto, unfolding(crate::specs::Steps::in_record))]
fn in_record(replay: Replay, head: usize, n: usize, end: bool) -> Stepped
    ensures { result ≡ in_record replay head n end }
{
    Stepped {
        came: Came::Line(0),
        used: head,
        replay: Replay {
            due: Due::Call,
            left: n,
            end,
            file: replay.file.onward(head),
            ..replay
        },
    }
}

// A step that does nothing.
fn still(came: Came, replay: Replay) -> Stepped
    ensures { result ≡ stepped came 0 replay }
{
    Stepped {
        came,
        used: 0,
        replay,
    }
}

#[tactic(auto, using(base::proofs::Stores::laid_none))]
fn at_role(replay: Replay, found: Found, out: &mut [u8], at: usize) -> Stepped
    requires { at + 65600 ≤ length out.old }
    ensures { (result ≡ role_stepped replay found) × (out.new ≡ laid out.old at (role_text replay found)) }
{
    match found {
        Found::Lacking => still(Came::Lacking, replay),
        Found::Server => in_role(replay, Role::Server),
        Found::Client => in_role(replay, Role::Client),
        Found::Bad | Found::Input(_) | Found::End => bad(replay, out, at),
    }
}

#[tactic(auto, using(base::proofs::Stores::laid_none))]
fn at_record(replay: Replay, found: Found, out: &mut [u8], at: usize) -> Stepped
    requires { at + 65600 ≤ length out.old }
    ensures { (result ≡ record_stepped replay found) × (out.new ≡ laid out.old at (record_text replay found)) }
{
    match found {
        Found::Lacking => still(Came::Lacking, replay),
        Found::Input(n) => in_record(replay, 4, n, false),
        Found::End => in_record(replay, 2, 0, true),
        Found::Bad | Found::Server | Found::Client => bad(replay, out, at),
    }
}

// A read call on what is left of the record.
#[tactic(auto, unfolding(crate::specs::Steps::call_stepped, crate::specs::Listing::zero_masks))]
fn at_call(
    replay: Replay,
    window: &[u8],
    message: &mut [u8; 32768],
    control: &mut [u8; 125],
    output: &mut [u8; 131],
) -> Stepped
    ensures { (out : List ℕ) (at : ℕ) (ended : Bool) → step result message.new control.new output.new out ≡ by_due Due.Call replay window.now ended message.old control.old output.old out at }
{
    let Some(piece) = window.get(..replay.left) else {
        return still(Came::Lacking, replay);
    };
    let turn = reader::read::read(
        replay.session,
        piece,
        replay.end,
        session::NO_MASKS,
        message,
        control,
        output,
    );
    Stepped {
        came: Came::Line(0),
        used: turn.taken,
        replay: Replay {
            session: turn.session,
            due: Due::Put(turn.answer),
            left: replay.left - turn.taken,
            end: replay.end,
            file: replay.file.onward(turn.taken),
            stream: replay.stream.onward(turn.taken),
        },
    }
}

// The line of the held bytes, if there are any.
#[tactic(auto, using(base::proofs::Stores::laid_none), unfolding(crate::specs::Listing::put_text))]
fn put_held(bytes: &[u8], out: &mut [u8], at: usize) -> usize
    requires { (length bytes.now ≤ 32768) × (at + 65600 ≤ length out.old) }
    ensures { Wrote out.old at (put_text bytes.now) out.new result }
{
    if bytes.is_empty() {
        return at;
    }
    lines::line::put_counted(b"put", bytes, out, at)
}

// The output that a call left is listed and taken.
#[tactic(auto, using(crate::proofs::Stepping::held_most), unfolding(crate::specs::Steps::put_stepped))]
fn at_put(
    replay: Replay,
    answer: Answer,
    output: &mut [u8; 131],
    out: &mut [u8],
    at: usize,
) -> Stepped
    requires { at + 65600 ≤ length out.old }
    ensures { (m c window : List ℕ) (ended : Bool) → step result m c output.new out.new ≡ by_due (Due.Put answer) replay window ended m c output.old out.old at }
{
    let bytes = writer::output::held(replay.session, output);
    let behind = put_held(bytes, out, at);
    let taken = writer::output::take(replay.session, replay.session.held, output);
    Stepped {
        came: Came::Line(behind - at),
        used: 0,
        replay: Replay {
            session: taken.session,
            due: Due::Told(answer),
            ..replay
        },
    }
}

fn put_refused(number: u8, stream: StreamPlace, out: &mut [u8], at: usize) -> usize
    requires { at + 65600 ≤ length out.old }
    ensures { Wrote out.old at (refused_text number stream.0) out.new result }
{
    let named = lines::line::put_word(b"refused ", out, at);
    let numbered = lines::number::put_decimal(u64::from(number), out, named);
    lines::line::put_at_place(b"", stream.0, out, numbered)
}

// The line of an answer that shows these bytes.
fn put_answer(answer: Answer, bytes: &[u8], stream: StreamPlace, out: &mut [u8], at: usize) -> usize
    requires { (length bytes.now ≤ 32768) × (at + 65600 ≤ length out.old) }
    ensures { Wrote out.old at (answer_text answer bytes.now stream.0) out.new result }
{
    match answer {
        Answer::More => at,
        Answer::Text(_) => lines::line::put_counted(b"text", bytes, out, at),
        Answer::Binary(_) => lines::line::put_counted(b"binary", bytes, out, at),
        Answer::Ping(_) => lines::line::put_counted(b"ping", bytes, out, at),
        Answer::Pong(_) => lines::line::put_counted(b"pong", bytes, out, at),
        Answer::Close(_) => lines::line::put_counted(b"close", bytes, out, at),
        Answer::Closed => lines::line::put_word(b"closed\n", out, at),
        Answer::Refused(number) => put_refused(number, stream, out, at),
    }
}

// What is due behind an answer, and a line of n bytes, the last one where the answer is final.
fn due_after(answer: Answer) -> Due
    ensures { result ≡ due_after answer }
{
    match answer {
        Answer::More => Due::Record,
        Answer::Text(_)
        | Answer::Binary(_)
        | Answer::Ping(_)
        | Answer::Pong(_)
        | Answer::Close(_) => Due::Call,
        Answer::Closed | Answer::Refused(_) => Due::Nothing,
    }
}

fn came_with(answer: Answer, n: usize) -> Came
    ensures { result ≡ pick (is_final answer) (Came.Last n) (Came.Line n) }
{
    match answer {
        Answer::Closed | Answer::Refused(_) => Came::Last(n),
        _ => Came::Line(n),
    }
}

// The answer of a call is told.
#[tactic(auto, unfolding(crate::specs::Steps::told_stepped))]
fn at_told(
    replay: Replay,
    answer: Answer,
    message: &[u8; 32768],
    control: &[u8; 125],
    out: &mut [u8],
    at: usize,
) -> Stepped
    requires { at + 65600 ≤ length out.old }
    ensures { (o window : List ℕ) (ended : Bool) → step result message.now control.now o out.new ≡ by_due (Due.Told answer) replay window ended message.now control.now o out.old at }
{
    let bytes = reader::part::part(answer, message, control);
    let behind = put_answer(answer, bytes, replay.stream, out, at);
    Stepped {
        came: came_with(answer, behind - at),
        used: 0,
        replay: Replay {
            due: due_after(answer),
            ..replay
        },
    }
}

// One step of a replay. `window` is the next bytes of the file that are not used yet, and `ended` says that no byte follows behind them.
// A line is laid over `out` from place `at` on, where there must be room for the longest.
#[tactic(auto, unfolding(crate::specs::Steps::step_call))]
pub fn step(
    replay: Replay,
    window: &[u8],
    ended: bool,
    message: &mut [u8; 32768],
    control: &mut [u8; 125],
    output: &mut [u8; 131],
    out: &mut [u8],
    at: usize,
) -> Stepped
    ensures { step result message.new control.new output.new out.new ≡ step_call replay window.now ended message.old control.old output.old out.old at }
{
    if out.len().saturating_sub(at) < LINE_ROOM {
        return still(Came::Full, replay);
    }
    match replay.due {
        Due::Role => at_role(replay, record::find(window, ended), out, at),
        Due::Record => at_record(replay, record::find(window, ended), out, at),
        Due::Call => at_call(replay, window, message, control, output),
        Due::Put(answer) => at_put(replay, answer, output, out, at),
        Due::Told(answer) => at_told(replay, answer, message, control, out, at),
        Due::Nothing => still(Came::Last(0), replay),
    }
}
