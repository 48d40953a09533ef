// The part of a store that an event shows.
ghost use Rattle.std.specs.Prelude.{◌≡◌, take};
ghost use Rattle.session.specs.Answers.{shown, beyond, named, part_number, part_of};
ghost use Rattle.session.specs.Refusals.{numbered};

use session::Answer;
use session::refusal::Refusal;

// The store that an event's kind names, the message store where it names none, and how many of its first bytes the event shows.
#[tactic(auto, unfolding(session::specs::Answers::beyond))]
fn shown<'a>(answer: Answer, message: &'a [u8], control: &'a [u8]) -> (&'a [u8], usize)
    ensures bytes { take result.1 result.0.now ≡ shown answer message.now control.now }
    ensures size { beyond result.0.now result.1 ≡ part_number answer message.now control.now }
    ensures place { result.0.ref_ptr ≡ named answer message.entry.ref_ptr control.entry.ref_ptr }
{
    match answer {
        Answer::Text(n) | Answer::Binary(n) => (message, n),
        Answer::Ping(n) | Answer::Pong(n) | Answer::Close(n) => (control, n),
        Answer::More | Answer::Closed | Answer::Refused(_) => (message, 0),
    }
}

// What asking for an event's part would be refused with.
#[tactic(auto, unfolding(session::specs::Answers::beyond))]
pub fn part_number(answer: Answer, message: &[u8], control: &[u8]) -> Result<(), Refusal>
    ensures { numbered result ≡ part_number answer message.now control.now }
{
    let (store, n) = shown(answer, message, control);
    if store.len() < n {
        return Err(Refusal::ShortStore);
    }
    Ok(())
}

// The part of the store that the event's kind names; none where the store is short.
#[tactic(auto, unfolding(session::specs::Answers::beyond, session::specs::Answers::part_of))]
pub fn part<'a>(answer: Answer, message: &'a [u8], control: &'a [u8]) -> &'a [u8]
    ensures { (result.now ≡ part_of answer message.now control.now) × (result.ref_ptr ≡ named answer message.entry.ref_ptr control.entry.ref_ptr) }
{
    let (store, n) = shown(answer, message, control);
    // Kept: ranges in place of `get`, which doesn't promise where the part lies.
    if n <= store.len() {
        &store[..n]
    } else {
        &store[..0]
    }
}
