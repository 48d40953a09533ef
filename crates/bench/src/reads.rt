// Whole sessions read.
use session::{Answer, Role, Session, Turn};

// The events of a session, and the bytes that they showed.
#[derive(Clone, Copy, Default)]
struct Tally {
    events: u64,
    bytes: u64,
}

impl Tally {
    fn count(&mut self, answer: Answer) {
        match answer {
            Answer::Text(n)
            | Answer::Binary(n)
            | Answer::Ping(n)
            | Answer::Pong(n)
            | Answer::Close(n) => {
                self.events = self.events.wrapping_add(1);
                self.bytes = self.bytes.wrapping_add(n as u64);
            }
            Answer::More | Answer::Closed | Answer::Refused(_) => {}
        }
    }
}

// A session with the largest frame limit, and a message limit that fits the store.
pub(crate) fn session_of(client: bool, limit: usize) -> Session {
    let role = if client { Role::Client } else { Role::Server };
    session::new::new(role, session::range::MOST_FRAME, limit, false).session
}

// Reads a stream that comes in pieces of `size` bytes. What an event leaves of a piece is offered again. A call that takes nothing ends it:
// the session was refused. Of pieces without a byte nothing is ever read.
fn read_all(
    begun: Session,
    stream: &[u8],
    size: usize,
    message: &mut [u8],
    control: &mut [u8],
    output: &mut [u8],
) -> Tally {
    let mut tally = Tally::default();
    if size == 0 {
        return tally;
    }
    let mut turn = Turn {
        answer: Answer::More,
        taken: 0,
        session: begun,
    };
    for piece in stream.chunks(size) {
        let mut left = piece;
        while !left.is_empty() {
            turn = reader::read::read(
                turn.session,
                left,
                false,
                crate::sends::masks_of(0),
                message,
                control,
                output,
            );
            tally.count(turn.answer);
            if turn.taken == 0 {
                return tally;
            }
            left = &left[turn.taken.min(left.len())..];
        }
    }
    tally
}

// Reads a stream in pieces of `size` bytes, in a session of its own. Gives the bytes that its events showed, and counts the events.
// Kept: the role as a flag and the count by reference, which is what C hands on.
pub fn bench_read_shared(
    client: bool,
    stream: &[u8],
    size: usize,
    message: &mut [u8],
    control: &mut [u8],
    output: &mut [u8],
    events: &mut u64,
) -> u64 {
    let session = session_of(client, message.len());
    let tally = read_all(session, stream, size, message, control, output);
    *events = tally.events;
    tally.bytes
}
