// The sending calls.
ghost use Rattle.std.specs.Prelude.{◌≡◌, not, ◌++◌, ltb, length};
ghost use Rattle.base.specs.Tests.{either, first_of};
ghost use Rattle.session.specs.Calls.{sending, send_tests, send_frame, text_call, binary_call, ping_call, pong_call, close_call};
ghost use Rattle.session.specs.Refusals.{numbered, sent_of};
ghost use Rattle.utf8.specs.Progress.{progress_after, is_whole};

use coding::opcode::{Control, Data, OpCode};
use session::refusal::Refusal;
use session::{Handed, Masks, Session};

// What a sending call is refused with before its frame is measured: 20, 1, 2, 17, 18, in that order.
#[tactic(auto, using(crate::proofs::Numbers::owed_first), unfolding(base::specs::Tests::first_of, session::specs::Calls::send_tests, session::specs::Calls::held_number, session::specs::Calls::output_short))]
fn sendable(session: &Session, bad: bool, output: &[u8]) -> Result<(), Refusal>
    ensures { numbered result ≡ first_of (send_tests session.now output.now bad) }
{
    crate::output::owed(session, output)?;
    match session.state {
        session::TERMINATED => Err(Refusal::Terminated),
        session::ACTIVE if bad => Err(Refusal::BadPayload),
        session::ACTIVE => Ok(()),
        _ => Err(Refusal::NotActive),
    }
}

// One final frame whose payload is `lead` and then the piece, and then the waiting reply. The session is then in the state given.
// Kept: the frame's parts as parameters. In a struct, lent or by value, each call copies the session once more.
#[tactic(auto, using(session::proofs::Refusals::number_some), unfolding(base::specs::Tests::first_of, session::specs::Calls::send_frame, session::specs::Calls::send_tests, session::specs::Calls::output_short))]
fn send_frame(
    session: &mut Session,
    state: u8,
    opcode: OpCode,
    bad: bool,
    lead: &[u8],
    piece: &[u8],
    masks: Masks,
    output: &mut [u8],
) -> Result<(), Refusal>
    ensures { sending (sent_of result) session.new output.new ≡ send_frame session.old state opcode bad (lead.now ++ piece.now) masks output.old }
{
    sendable(session, bad, output)?;
    let client = session.is_client();
    let room = output.len() - session.held;
    if !replies::frames::fits_in(client, lead.len(), piece.len(), room) {
        return Err(Refusal::NoRoom);
    }
    let behind = replies::frames::put_frame(
        client,
        opcode,
        masks.first,
        lead,
        piece,
        output,
        session.held,
    );
    session.held = behind;
    session.state = state;
    replies::reply::move_reply(session, masks.second, output);
    Ok(())
}

// A reason that is no text, or too long for a code before it.
fn is_bad_reason(reason: &[u8]) -> bool
    ensures { result ≡ either (ltb 123 (length reason.now)) (not (is_whole (progress_after 0 reason.now))) }
{
    123 < reason.len() || !utf8::is_text(reason)
}

// The same for a payload of one part, which leaves the session in its state.
fn send(
    session: &mut Session,
    opcode: OpCode,
    bad: bool,
    payload: &[u8],
    masks: Masks,
    output: &mut [u8],
) -> Result<(), Refusal>
    ensures { sending (sent_of result) session.new output.new ≡ send_frame session.old session.old.state opcode bad payload.now masks output.old }
{
    let state = session.state;
    send_frame(session, state, opcode, bad, &[], payload, masks, output)
}

// Sends a text.
#[tactic(auto, unfolding(session::specs::Calls::text_call))]
pub fn text(mut session: Session, payload: &[u8], masks: Masks, output: &mut [u8]) -> Handed
    ensures { sending (sent_of result.sent) result.session output.new ≡ text_call session payload.now masks output.old }
{
    let (opcode, bad) = (OpCode::Data(Data::Text), !utf8::is_text(payload));
    let sent = send(&mut session, opcode, bad, payload, masks, output);
    Handed { sent, session }
}

// Sends a binary message.
#[tactic(auto, unfolding(session::specs::Calls::binary_call))]
pub fn binary(mut session: Session, payload: &[u8], masks: Masks, output: &mut [u8]) -> Handed
    ensures { sending (sent_of result.sent) result.session output.new ≡ binary_call session payload.now masks output.old }
{
    let opcode = OpCode::Data(Data::Binary);
    let sent = send(&mut session, opcode, false, payload, masks, output);
    Handed { sent, session }
}

// Sends a ping.
#[tactic(auto, unfolding(session::specs::Calls::ping_call))]
pub fn ping(mut session: Session, payload: &[u8], masks: Masks, output: &mut [u8]) -> Handed
    ensures { sending (sent_of result.sent) result.session output.new ≡ ping_call session payload.now masks output.old }
{
    let (opcode, bad) = (OpCode::Control(Control::Ping), 125 < payload.len());
    let sent = send(&mut session, opcode, bad, payload, masks, output);
    Handed { sent, session }
}

// Sends a close: an empty one where there is no code, for which the reason is not looked at, or a code and a reason.
#[tactic(auto, unfolding(session::specs::Calls::close_call))]
pub fn close(
    mut session: Session,
    code: Option<u16>,
    reason: &[u8],
    masks: Masks,
    output: &mut [u8],
) -> Handed
    ensures { sending (sent_of result.sent) result.session output.new ≡ close_call session code reason.now masks output.old }
{
    let (state, opcode) = (session::CLOSED_BY_US, OpCode::Control(Control::Close));
    let sent = match code {
        None => send_frame(&mut session, state, opcode, false, &[], &[], masks, output),
        Some(code) => {
            let lead = frame::close::code_bytes(code);
            let bad = is_bad_reason(reason);
            send_frame(
                &mut session,
                state,
                opcode,
                bad,
                &lead,
                reason,
                masks,
                output,
            )
        }
    };
    Handed { sent, session }
}

// The caller's pong becomes the waiting reply, and then moves if it fits.
pub fn pong(mut session: Session, payload: &[u8], masks: Masks, output: &mut [u8]) -> Handed
    ensures { sending (sent_of result.sent) result.session output.new ≡ pong_call session payload.now masks output.old }
{
    Handed {
        sent: put_pong(&mut session, payload, masks, output),
        session,
    }
}

#[tactic(auto, using(session::proofs::Refusals::number_some), unfolding(base::specs::Tests::first_of, session::specs::Calls::pong_call, session::specs::Calls::send_tests, session::specs::Calls::held_number, session::specs::Calls::output_short))]
fn put_pong(
    session: &mut Session,
    payload: &[u8],
    masks: Masks,
    output: &mut [u8],
) -> Result<(), Refusal>
    ensures { sending (sent_of result) session.new output.new ≡ pong_call session.old payload.now masks output.old }
{
    sendable(session, 125 < payload.len(), output)?;
    replies::reply::with_pong(&mut session.reply, payload);
    replies::reply::move_reply(session, masks.first, output);
    Ok(())
}
