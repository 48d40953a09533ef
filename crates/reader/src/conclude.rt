// What an event leaves in the session and in the control store, and what the end flag does (document 01, "Replies and closing").
ghost use Rattle.std.specs.Prelude.{◌≡◌, ℕ, ◌≤◌, List, length, take};
ghost use Rattle.frame.specs.Close.{close_of};
ghost use Rattle.reader.specs.Fit.{Shows};
ghost use Rattle.session.specs.Calls.{turn, flagged};
ghost use Rattle.reader.specs.Whole.{flag_answer, flag_state};
ghost use Rattle.session.specs.Session.{with_state};
ghost use Rattle.session.specs.Replies.{concluded, code_allowed, shown_length, shown_control, ping_came, close_came, conclude};

use frame::close::ClosePayload;
use session::refusal::Refusal;
use session::{Answer, Session, Waiting};

// Whether a close payload may be echoed.
fn code_allowed(payload: ClosePayload) -> bool
    ensures { result ≡ code_allowed payload }
{
    match payload {
        ClosePayload::Empty | ClosePayload::OneByte => true,
        ClosePayload::CodeAndReason(code) => coding::close_code::is_allowed(code),
    }
}

// A ping in Active makes a pong the waiting reply.
#[tactic(auto, unfolding(session::specs::Replies::ping_came))]
fn ping_came(session: &mut Session, control: &[u8], n: usize) -> Answer
    requires { (n ≤ 125) × (n ≤ length control.now) }
    ensures { concluded result session.new control.now ≡ ping_came session.old control.now n }
{
    if session.state == session::ACTIVE {
        replies::reply::with_pong(&mut session.reply, &control[..n]);
    }
    Answer::Ping(n)
}

// What an answered close shows: itself, or 1002 in the place of a code that is not allowed. Gives its length.
#[tactic(auto, unfolding(session::specs::Replies::shown_length, session::specs::Replies::shown_control))]
fn show_close(control: &mut [u8], n: usize) -> usize
    requires { (n ≤ 125) × (125 ≤ length control.old) }
    ensures shown { (result ≡ shown_length control.old n) × (control.new ≡ shown_control control.old n) }
    ensures short { result ≤ 125 }
{
    if code_allowed(frame::close::into_close(&control[..n])) {
        return n;
    }
    frame::close::write_violation(control);
    20
}

// A close is answered in Active, where the reply echoes what is shown. In ClosedByUs it leads to CloseAcknowledged and is shown as
// received, and in any other state it is only shown.
#[tactic(auto, unfolding(session::specs::Replies::close_came))]
fn close_came(session: &mut Session, control: &mut [u8], n: usize) -> Answer
    requires { (n ≤ 125) × (125 ≤ length control.old) }
    ensures { concluded result session.new control.new ≡ close_came session.old control.old n }
{
    match session.state {
        session::ACTIVE => {
            let shown = show_close(control, n);
            replies::reply::make_reply(&mut session.reply, Waiting::Close, &control[..shown]);
            session.state = session::CLOSED_BY_PEER;
            Answer::Close(shown)
        }
        session::CLOSED_BY_US => {
            session.state = session::CLOSE_ACKNOWLEDGED;
            Answer::Close(n)
        }
        _ => Answer::Close(n),
    }
}

// The answer's effect.
pub(crate) fn conclude(session: &mut Session, answer: Answer, control: &mut [u8]) -> Answer
    requires shows { Shows answer }
    requires control_room { 125 ≤ length control.old }
    ensures { concluded result session.new control.new ≡ conclude answer session.old control.old }
{
    match answer {
        Answer::Ping(n) => ping_came(session, control, n),
        Answer::Close(n) => close_came(session, control, n),
        Answer::Refused(number) => {
            session.refusal = number;
            answer
        }
        Answer::More | Answer::Text(_) | Answer::Binary(_) | Answer::Pong(_) | Answer::Closed =>
            answer,
    }
}

// The end flag, once the bytes are taken and the event has left what it leaves: it ends a session that has no event to tell.
#[tactic(auto, unfolding(session::specs::Calls::flagged, crate::specs::Whole::flag_answer, crate::specs::Whole::flag_state))]
pub(crate) fn flag(session: &mut Session, end: bool, answer: Answer) -> Answer
    ensures whole { (n : ℕ) (c : List ℕ) → turn result n session.new ≡ flagged end (concluded answer session.old c) n }
    ensures parts { (result ≡ flag_answer end answer session.old.state) × (session.new ≡ with_state session.old (flag_state end answer session.old.state)) }
{
    if !end || !message::pump::is_more(answer) {
        return answer;
    }
    let told = if session.is_peer_closed() {
        Answer::Closed
    } else {
        Answer::Refused(Refusal::NoHandshake.number())
    };
    session.state = session::TERMINATED;
    told
}
