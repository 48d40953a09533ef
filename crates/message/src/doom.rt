// The refusal that a header and the session already decide, before any payload has come.
ghost use Rattle.std.specs.Prelude.{◌≡◌, not, ◌∷◌, [], ◌+◌, eqb, ltb};
ghost use Rattle.base.specs.Tests.{both, either, ◌when◌, first_of};
ghost use Rattle.session.specs.Frames.{before, doom, is_close_kind, is_continue_kind};
ghost use Rattle.session.specs.Refusals.{numbered};
ghost use Rattle.session.specs.Session.{is_server, is_client, is_peer_closed};

use coding::opcode::{Control, Data, OpCode};
use frame::header::FrameHeader;
use session::refusal::Refusal;
use session::{Incoming, Session};

fn lacks_mask(session: &Session, header: FrameHeader) -> bool
    ensures { result ≡ both (is_server session.now.settings) (both (not header.masked) (not session.now.settings.unmasked)) }
{
    session.is_server() && !header.masked && !session.settings.unmasked
}

fn comes_late(session: &Session) -> bool
    ensures { result ≡ both (is_client session.now.settings) (is_peer_closed session.now.state) }
{
    session.is_client() && session.is_peer_closed()
}

fn masks_to_client(session: &Session, header: FrameHeader) -> bool
    ensures { result ≡ both (is_client session.now.settings) header.masked }
{
    session.is_client() && header.masked
}

fn sets_reserved(header: FrameHeader) -> bool
    ensures { result ≡ either header.rsv1 (either header.rsv2 header.rsv3) }
{
    header.rsv1 || header.rsv2 || header.rsv3
}

// Of any frame: 5 to 8.
#[tactic(auto, unfolding(base::specs::Tests::first_of))]
fn doom_any(session: &Session, header: FrameHeader) -> Result<(), Refusal>
    ensures { numbered result ≡ first_of ((5 when both (is_server session.now.settings) (both (not header.masked) (not session.now.settings.unmasked))) ∷ (6 when both (is_client session.now.settings) (is_peer_closed session.now.state)) ∷ (7 when either header.rsv1 (either header.rsv2 header.rsv3)) ∷ (8 when both (is_client session.now.settings) header.masked) ∷ []) }
{
    if lacks_mask(session, header) {
        return Err(Refusal::Unmasked);
    }
    if comes_late(session) {
        return Err(Refusal::AfterClose);
    }
    if sets_reserved(header) {
        return Err(Refusal::ReservedBit);
    }
    if masks_to_client(session, header) {
        return Err(Refusal::Masked);
    }
    Ok(())
}

// Of a control frame: 9 to 11.
#[tactic(auto, unfolding(base::specs::Tests::first_of))]
fn doom_control(header: FrameHeader, kind: Control) -> Result<(), Refusal>
    ensures { numbered result ≡ first_of ((9 when not header.fin) ∷ (10 when ltb 125 header.length) ∷ (11 when both (is_close_kind kind) (eqb header.length 1)) ∷ []) }
{
    if !header.fin {
        return Err(Refusal::ControlNotFinal);
    }
    if 125 < header.length {
        return Err(Refusal::ControlTooLong);
    }
    if matches!(kind, Control::Close) && header.length == 1 {
        return Err(Refusal::OneByteClose);
    }
    Ok(())
}

// The bytes of the message before this frame.
#[tactic(auto, unfolding(session::specs::Frames::before))]
pub(crate) fn bytes_before(incoming: &Incoming) -> usize
    ensures { result ≡ before incoming.now }
{
    if incoming.begun {
        incoming.fragments
    } else {
        0
    }
}

// Whether a message with so many bytes more is over the limit. The sum is tested by a difference, which can't wrap.
fn is_over(limit: usize, length: u64, before: usize) -> bool
    ensures { result ≡ ltb limit (before + length) }
{
    match (limit as u64).checked_sub(length) {
        Some(room) => room < before as u64,
        None => true,
    }
}

// Of a data frame: 13 to 15.
#[tactic(auto, unfolding(base::specs::Tests::first_of))]
fn doom_data(session: &Session, header: FrameHeader, kind: Data) -> Result<(), Refusal>
    ensures { numbered result ≡ first_of ((13 when both (is_continue_kind kind) (not session.now.incoming.begun)) ∷ (14 when both (not (is_continue_kind kind)) session.now.incoming.begun) ∷ (15 when ltb session.now.settings.message (before session.now.incoming + header.length)) ∷ []) }
{
    match (kind, session.incoming.begun) {
        (Data::Continue, false) => return Err(Refusal::NothingBegun),
        (Data::Text | Data::Binary, true) => return Err(Refusal::InsideMessage),
        _ => (),
    }
    if is_over(
        session.settings.message,
        header.length,
        bytes_before(&session.incoming),
    ) {
        return Err(Refusal::MessageTooLong);
    }
    Ok(())
}

// The first of these, where there is one.
pub(crate) fn doom(session: &Session, header: FrameHeader) -> Result<(), Refusal>
    ensures { numbered result ≡ doom session.now.settings session.now.state header session.now.incoming }
{
    doom_any(session, header)?;
    match header.opcode {
        OpCode::Reserved(_) => Ok(()),
        OpCode::Control(kind) => doom_control(header, kind),
        OpCode::Data(kind) => doom_data(session, header, kind),
    }
}
