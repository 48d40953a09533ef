// The waiting reply: how it is made, and how it moves to the output.
ghost use Rattle.std.specs.Prelude.{◌≡◌, true, ◌+◌, ◌-◌, ◌≤◌, leb, length, take};
ghost use Rattle.frame.specs.Header.{header_size};
ghost use Rattle.session.specs.Range.{waits};
ghost use Rattle.session.specs.Replies.{reply_of, with_pong, reply_code, is_close_reply, out, move_reply};
ghost use Rattle.session.specs.Session.{is_client};
ghost use Rattle.replies.specs.Moves.{moving, move_of};

use coding::opcode::{Control, OpCode};
use session::{Reply, Session, Waiting};

// A reply with this payload in the place of what waited.
#[tactic(auto, unfolding(session::specs::Replies::reply_of))]
pub fn make_reply(reply: &mut Reply, waiting: Waiting, payload: &[u8])
    requires { length payload.now ≤ 125 }
    ensures { reply.new ≡ reply_of reply.old waiting payload.now }
{
    reply.waiting = waiting;
    reply.length = payload.len();
    stores::copy(payload, &mut reply.payload, 0);
}

pub fn is_close(waiting: Waiting) -> bool
    ensures { result ≡ is_close_reply waiting }
{
    matches!(waiting, Waiting::Close)
}

// A pong takes the place of a waiting pong, and not that of a waiting close.
#[tactic(auto, unfolding(session::specs::Replies::with_pong))]
pub fn with_pong(reply: &mut Reply, payload: &[u8])
    requires { length payload.now ≤ 125 }
    ensures { reply.new ≡ with_pong reply.old payload.now }
{
    if !is_close(reply.waiting) {
        make_reply(reply, Waiting::Pong, payload);
    }
}

fn reply_code(waiting: Waiting) -> OpCode
    ensures { result ≡ reply_code waiting }
{
    match waiting {
        Waiting::Nothing | Waiting::Pong => OpCode::Control(Control::Pong),
        Waiting::Close => OpCode::Control(Control::Close),
    }
}

fn payload_of(reply: &Reply) -> &[u8]
    requires { reply.now.length ≤ 125 }
    ensures { (result.now ≡ take reply.now.length reply.now.payload) × (length result.now ≡ reply.now.length) }
{
    &reply.payload[..reply.length]
}

// Whether the waiting reply's frame fits behind the held bytes of an output store of this size.
pub fn reply_fits(session: &Session, size: usize) -> bool
    requires { session.now.held ≤ size }
    ensures { result ≡ leb (header_size (is_client session.now.settings) session.now.reply.length + session.now.reply.length) (size - session.now.held) }
{
    crate::frames::fits_in(
        session.is_client(),
        0,
        session.reply.length,
        size - session.held,
    )
}

// The waiting reply moves behind the held bytes if it fits, and else waits on.
#[tactic(auto, using(crate::proofs::Encoding::fits_by), unfolding(session::specs::Replies::move_reply, session::specs::Replies::appended, session::specs::Replies::reply_frame, session::specs::Replies::no_reply, crate::specs::Moves::move_of, crate::specs::Moves::reply_bytes))]
pub fn move_reply(session: &mut Session, mask: [u8; 4], output: &mut [u8])
    requires reply_short { waits session.old.reply.waiting ≡ true → session.old.reply.length ≤ 125 }
    requires held_within { session.old.held ≤ length output.old }
    ensures whole { out session.new output.new ≡ move_reply session.old mask output.old }
    ensures parts { moving session.new.reply session.new.held output.new ≡ move_of (is_client session.old.settings) session.old.reply session.old.held mask output.old }
{
    if !session::range::waits(session.reply.waiting) {
        return;
    }
    let client = session.is_client();
    let payload = payload_of(&session.reply);
    if reply_fits(session, output.len()) {
        let opcode = reply_code(session.reply.waiting);
        session.held = crate::frames::put_frame(
            client,
            opcode,
            mask,
            &[],
            payload,
            output,
            session.held,
        );
        session.reply.waiting = Waiting::Nothing;
        session.reply.length = 0;
    }
}
