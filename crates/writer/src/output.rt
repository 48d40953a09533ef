// The held bytes: shown, and handed over.
ghost use Rattle.std.specs.Prelude.{◌≡◌};
ghost use Rattle.session.specs.Calls.{sending, take_call, held_number, held_part, waits_call};
ghost use Rattle.session.specs.Refusals.{numbered, sent_of};

use session::refusal::Refusal;
use session::{Handed, Session};

// Whether a reply waits.
#[tactic(auto, unfolding(session::specs::Calls::waits_call))]
pub fn waits(session: Session) -> bool
    ensures { result ≡ waits_call session }
{
    session::range::waits(session.reply.waiting)
}

// What a session and an output store owe before anything else is asked: 20, then 1.
#[inline(always)]
#[tactic(auto, unfolding(base::specs::Tests::first_of, session::specs::Calls::held_number, session::specs::Calls::output_short))]
pub(crate) fn owed(session: &Session, output: &[u8]) -> Result<(), Refusal>
    ensures { numbered result ≡ held_number session.now output.now }
{
    if !session::range::in_range(session) {
        Err(Refusal::OutOfRange)
    } else if output.len() < 131 || output.len() < session.held {
        Err(Refusal::ShortStore)
    } else {
        Ok(())
    }
}

// What showing the held bytes would be refused with.
pub fn held_number(session: Session, output: &[u8]) -> Result<(), Refusal>
    ensures { numbered result ≡ held_number session output.now }
{
    owed(&session, output)
}

// The held bytes, as a part of the output store. Kept: none where showing them is refused, as `held_part` has it; `held_number` says why.
#[tactic(auto, unfolding(session::specs::Calls::held_part, session::specs::Calls::held_number, session::specs::Calls::output_short, base::specs::Tests::first_of))]
pub fn held(session: Session, output: &[u8]) -> &[u8]
    ensures { (result.now ≡ held_part session output.now) × (result.ref_ptr ≡ output.entry.ref_ptr) }
{
    match owed(&session, output) {
        Ok(()) => &output[..session.held],
        Err(_) => &output[..0],
    }
}

// Takes the first n held bytes away and moves the rest to the front. It is part of its callers, as what it asks is (`owed`): else a session is
// copied for it twice.
#[inline(always)]
pub fn take(mut session: Session, n: usize, output: &mut [u8]) -> Handed
    ensures { sending (sent_of result.sent) result.session output.new ≡ take_call session n output.old }
{
    Handed {
        sent: take_held(&mut session, n, output),
        session,
    }
}

#[inline(always)]
#[tactic(auto, using(session::proofs::Refusals::number_some), unfolding(base::specs::Tests::first_of, session::specs::Calls::take_call, session::specs::Calls::take_tests, session::specs::Calls::held_number, session::specs::Calls::output_short))]
fn take_held(session: &mut Session, n: usize, output: &mut [u8]) -> Result<(), Refusal>
    ensures { sending (sent_of result) session.new output.new ≡ take_call session.old n output.old }
{
    if session.held < n {
        return Err(Refusal::OutOfRange);
    }
    owed(session, output)?;
    stores::to_front(output, n, session.held);
    session.held -= n;
    Ok(())
}
