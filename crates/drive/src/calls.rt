// A session, and the calls that a script makes of it.
use crate::held::Held;
use crate::line::{Call, Sending};
use crate::room::Stores;
use crate::told;
use script::answers::Text;
use session::{Answer, Handed, Masks, Session, Turn};

#[derive(Clone, Copy)]
pub(crate) struct Live {
    pub(crate) session: Session,
    // of the next call that takes masks
    pub(crate) masks: Masks,
    // output stays where it is
    pub(crate) keep: bool,
    // a call was refused
    pub(crate) refused: bool,
    // `all` reads again, with this end flag
    all: Option<bool>,
}

// An empty close, or one whose code is the first two bytes.
fn close(session: Session, bytes: &[u8], masks: Masks, output: &mut [u8]) -> Handed {
    match bytes.split_first_chunk::<2>() {
        Some((code, reason)) => writer::send::close(
            session,
            Some(u16::from_be_bytes(*code)),
            reason,
            masks,
            output,
        ),
        None => writer::send::close(session, None, b"", masks, output),
    }
}

impl Live {
    pub(crate) fn new(session: Session) -> Live {
        Live {
            session,
            masks: session::NO_MASKS,
            keep: false,
            refused: false,
            all: None,
        }
    }

    // Behind a call: the session that it left; and a refusal counts. What it put out ends where the held bytes do.
    fn called(&mut self, session: Session, refused: bool, stores: &mut Stores) {
        self.session = session;
        self.refused |= refused;
        stores.reaches(session.held);
    }

    // The end of a call that takes masks: they are used up, and the held bytes are shown and taken, but where output is kept.
    fn put_out(&mut self, stores: &mut Stores, text: &mut Text<'_>) {
        self.masks = session::NO_MASKS;
        if !self.keep {
            let bytes = writer::output::held(self.session, stores.output());
            let n = bytes.len();
            if 0 < n {
                told::counted(text, b" put", n as u64);
                text.hex(bytes);
                self.session = writer::output::take(self.session, n, stores.output_mut()).session;
            }
        }
        text.put(b"\n");
    }

    // A read of this piece.
    fn read(&mut self, piece: &[u8], end: bool, stores: &mut Stores, text: &mut Text<'_>) -> Turn {
        let turn = stores.read(self.session, piece, end, self.masks);
        told::answer(text, turn.answer);
        text.hex(reader::part::part(turn.answer, stores.message(), stores.control()));
        told::counted(text, b" taken", turn.taken as u64);
        self.called(
            turn.session,
            matches!(turn.answer, Answer::Refused(_)),
            stores,
        );
        self.put_out(stores, text);
        turn
    }

    // A read of what is left over, which then is less.
    fn read_on(
        &mut self,
        end: bool,
        held: &mut Held,
        stores: &mut Stores,
        text: &mut Text<'_>,
    ) -> Answer {
        let turn = self.read(held.piece(), end, stores, text);
        held.take(turn.taken);
        turn.answer
    }

    // A read of `all`, which reads again behind an event.
    fn read_all(&mut self, end: bool, held: &mut Held, stores: &mut Stores, text: &mut Text<'_>) {
        self.all = match self.read_on(end, held, stores, text) {
            Answer::More | Answer::Closed | Answer::Refused(_) => None,
            _ => Some(end),
        };
    }

    // Another read of `all`, or false where it is over.
    pub(crate) fn reads_again(
        &mut self,
        held: &mut Held,
        stores: &mut Stores,
        text: &mut Text<'_>,
    ) -> bool {
        if let Some(end) = self.all {
            self.read_all(end, held, stores, text);
            return true;
        }
        false
    }

    // `text HEX`, `binary HEX`, `ping HEX`, `pong HEX` and `close HEX`
    fn send(&mut self, sending: Sending, bytes: &[u8], stores: &mut Stores, text: &mut Text<'_>) {
        let output = stores.output_mut();
        let handed = match sending {
            Sending::Text => writer::send::text(self.session, bytes, self.masks, output),
            Sending::Binary => writer::send::binary(self.session, bytes, self.masks, output),
            Sending::Ping => writer::send::ping(self.session, bytes, self.masks, output),
            Sending::Pong => writer::send::pong(self.session, bytes, self.masks, output),
            Sending::Close => close(self.session, bytes, self.masks, output),
        };
        self.handed(handed, stores, text);
        self.put_out(stores, text);
    }

    // `take N`
    fn take(&mut self, n: usize, stores: &mut Stores, text: &mut Text<'_>) {
        let handed = writer::output::take(self.session, n, stores.output_mut());
        self.handed(handed, stores, text);
        text.put(b"\n");
    }

    fn handed(&mut self, handed: Handed, stores: &mut Stores, text: &mut Text<'_>) {
        told::sent(text, handed.sent);
        self.called(handed.session, handed.sent.is_err(), stores);
    }

    // A call, or none where the bytes given have no room behind what is left over.
    pub(crate) fn call(
        &mut self,
        call: Call,
        held: &mut Held,
        stores: &mut Stores,
        text: &mut Text<'_>,
    ) -> Option<()> {
        match call {
            Call::Read { given, end } => {
                held.join(given)?;
                self.read_on(end, held, stores, text);
            }
            Call::Call { given, end } => {
                self.read(held.given(given), end, stores, text);
                held.clear();
            }
            Call::All { given, end } => {
                held.join(given)?;
                self.read_all(end, held, stores, text);
            }
            Call::Send(sending, given) => self.send(sending, held.given(given), stores, text),
            Call::Take(n) => self.take(n, stores, text),
        }
        Some(())
    }
}
