// Which sessions are in range: what number 20 tests.
ghost use Rattle.std.specs.Prelude.{◌≡◌, not, eqb, leb};
ghost use Rattle.base.specs.Tests.{both, either, first_of};
ghost use Rattle.frame.specs.Header.{size_by, parsed};
ghost use Rattle.session.specs.Frames.{is_reserved, header_tests, kept};
ghost use Rattle.session.specs.Range.{limits_hold, settings_hold, numbers_hold, header_holds, count_holds, incoming_holds, waits, reply_holds, in_range};
ghost use Rattle.session.specs.Refusals.{numbered};

use crate::refusal::Refusal;
use crate::{Incoming, Reply, Session, Settings, Waiting};
use coding::opcode::OpCode;
use frame::header::FrameHeader;

pub const MOST_FRAME: usize = 16777216;

pub const MOST_MESSAGE: usize = 67108864;

#[tactic(auto, unfolding(crate::specs::Range::limits_hold))]
pub(crate) fn limits_hold(frame: usize, message: usize) -> bool
    ensures { result ≡ limits_hold frame message }
{
    frame <= MOST_FRAME && message <= MOST_MESSAGE
}

#[tactic(auto, unfolding(crate::specs::Range::settings_hold))]
fn settings_hold(settings: &Settings) -> bool
    ensures { result ≡ settings_hold settings.now }
{
    limits_hold(settings.frame, settings.message) && settings.role <= crate::CLIENT
}

#[tactic(auto, unfolding(crate::specs::Range::numbers_hold))]
fn numbers_hold(state: u8, refusal: u8) -> bool
    ensures { result ≡ numbers_hold state refusal }
{
    state <= crate::TERMINATED && matches!(refusal, 0 | 3..=15)
}

fn is_reserved(opcode: OpCode) -> bool
    ensures { result ≡ is_reserved opcode }
{
    matches!(opcode, OpCode::Reserved(_))
}

// Whether a whole header is refused at its last byte.
#[tactic(auto, unfolding(base::specs::Tests::first_of, crate::specs::Frames::header_tests))]
pub fn header_verdict(settings: &Settings, header: FrameHeader) -> Result<(), Refusal>
    ensures { numbered result ≡ first_of (header_tests settings.now header) }
{
    if is_reserved(header.opcode) {
        return Err(Refusal::ReservedOpcode);
    }
    if (settings.frame as u64) < header.length {
        return Err(Refusal::FrameTooLong);
    }
    Ok(())
}

// The kept header has no more bytes than it should.
fn kept_holds(second: u8, kept: usize) -> bool
    ensures { result ≡ either (leb kept 1) (leb kept (size_by second)) }
{
    kept <= 1 || kept <= frame::header::size_by(second)
}

// The header that is kept, read: more bytes are kept than there are only in a session that is out of range.
#[inline(always)]
pub fn kept_header(incoming: &Incoming) -> Option<FrameHeader>
    ensures { result ≡ parsed (kept incoming.now) }
{
    frame::header::parse(&incoming.header[..incoming.kept.min(14)])
}

// A whole header's frame: no more payload is counted than it has, and no number would have refused it at its header.
fn frame_holds(session: &Session, header: FrameHeader) -> bool
    ensures { result ≡ both (either (not (eqb session.now.refusal 0)) (eqb (first_of (header_tests session.now.settings header)) 0)) (leb session.now.incoming.counted header.length) }
{
    session.incoming.counted as u64 <= header.length
        && (session.refusal != 0 || header_verdict(&session.settings, header).is_ok())
}

// No more header bytes are kept than the header has, and its frame holds where it is whole.
#[tactic(auto, unfolding(crate::specs::Range::header_holds, crate::specs::Range::count_holds, crate::specs::Frames::header_whole, crate::specs::Frames::frame, frame::specs::Header::parsed))]
fn header_and_count_hold(session: &Session, header: Option<FrameHeader>) -> bool
    requires { header ≡ parsed (kept session.now.incoming) }
    ensures { result ≡ both (header_holds session.now.settings session.now.refusal session.now.incoming) (count_holds session.now.incoming) }
{
    kept_holds(session.incoming.header[1], session.incoming.kept)
        && match header {
            None => session.incoming.counted == 0,
            Some(whole) => frame_holds(session, whole),
        }
}

#[tactic(auto, unfolding(crate::specs::Range::incoming_holds))]
fn incoming_holds(session: &Session, header: Option<FrameHeader>) -> bool
    requires { header ≡ parsed (kept session.now.incoming) }
    ensures { result ≡ incoming_holds session.now.settings session.now.refusal session.now.incoming }
{
    header_and_count_hold(session, header)
        && session.incoming.progress <= utf8::BAD
        && session.incoming.fragments <= session.settings.message
}

// Whether a reply waits.
pub fn waits(waiting: Waiting) -> bool
    ensures { result ≡ waits waiting }
{
    matches!(waiting, Waiting::Pong | Waiting::Close)
}

#[tactic(auto, unfolding(crate::specs::Range::reply_holds))]
fn reply_holds(reply: &Reply) -> bool
    ensures { result ≡ reply_holds reply.now.waiting reply.now.length }
{
    reply.length <= 125 || !waits(reply.waiting)
}

// Whether a session's numbers are in range, for who has read the kept header already.
#[inline(always)]
#[tactic(auto, unfolding(crate::specs::Range::in_range, crate::specs::Range::range_of))]
pub fn in_range_by(session: &Session, header: Option<FrameHeader>) -> bool
    requires { header ≡ parsed (kept session.now.incoming) }
    ensures { result ≡ in_range session.now }
{
    settings_hold(&session.settings)
        && numbers_hold(session.state, session.refusal)
        && reply_holds(&session.reply)
        && incoming_holds(session, header)
}

// Whether a session's numbers are in range. It is part of its callers, and so are what it asks and what asks it (`parse`, `writer::output::owed`):
// where a call is made with a session's address, the session lies in memory, and a loop of calls copies it whole from one to the next.
#[inline(always)]
pub fn in_range(session: &Session) -> bool
    ensures { result ≡ in_range session.now }
{
    in_range_by(session, kept_header(&session.incoming))
}
