// The three stores, and what a script lends of them and lays over them.
ghost use Rattle.std.specs.Prelude.{◌≤◌};

use session::{Masks, Session, Turn};

#[derive(Clone, Copy)]
pub(crate) enum Store {
    Message,
    Control,
    Output,
}

impl Store {
    pub(crate) fn named(name: &[u8]) -> Option<Store> {
        let stores = [Store::Message, Store::Control, Store::Output];
        let place = script::words::place(b"message control output", name)?;
        stores.get(place).copied()
    }
}

// How many bytes of a store are lent.
#[derive(Clone, Copy)]
struct Lent<const N: usize> {
    n: usize,
    ghost within: { n ≤ N },
}

// The room of a store.
#[derive(Drop)]
struct Room<const N: usize> {
    bytes: [u8; N],
    lent: Lent<N>,
}

impl<const N: usize> Room<N> {
    fn new() -> Room<N> {
        Room {
            bytes: [0; N],
            lent: Lent { n: 0 },
        }
    }

    // Zeros again, where no byte behind so many was written.
    fn clear(&mut self, reach: usize) {
        self.bytes[..reach.min(N)].fill(0);
    }

    // Lends so many bytes, or all if it has fewer.
    fn lend_most(&mut self, n: usize) {
        self.lent = Lent { n: n.min(N) };
    }

    // Lends so many bytes, if it has as many.
    fn lend(&mut self, n: usize) -> Option<()> {
        if N < n {
            return None;
        }
        self.lent = Lent { n };
        Some(())
    }

    fn lent(&self) -> &[u8] {
        &self.bytes[..self.lent.n]
    }

    fn lent_mut(&mut self) -> &mut [u8] {
        let n = self.lent.n;
        &mut self.bytes[..n]
    }

    // Lays bytes over it from a place on, if they fit.
    fn lay(&mut self, at: usize, bytes: &[u8]) -> Option<()> {
        let all = &mut self.bytes[..];
        all.get_mut(at..)?
            .get_mut(..bytes.len())?
            .copy_from_slice(bytes);
        Some(())
    }
}

#[derive(Drop)]
pub(crate) struct Stores {
    message: Room<70000>,
    control: Room<256>,
    output: Room<140000>,
    // no byte of the message and output stores behind this place was written since they were zeros
    reach: usize,
}

impl Stores {
    pub(crate) fn new() -> Stores {
        Stores {
            message: Room::new(),
            control: Room::new(),
            output: Room::new(),
            reach: 0,
        }
    }

    // All zeros, and lent as at the start of a session with this message limit.
    pub(crate) fn begin(&mut self, limit: usize) {
        self.message.clear(self.reach);
        self.control.clear(256);
        self.output.clear(self.reach);
        self.reach = 0;
        self.message.lend_most(limit);
        self.control.lend_most(125);
        self.output.lend_most(140000);
    }

    // So many bytes of each are lent, where it has as many.
    pub(crate) fn lend(&mut self, message: usize, control: usize, output: usize) -> Option<()> {
        self.message.lend(message)?;
        self.control.lend(control)?;
        self.output.lend(output)
    }

    pub(crate) fn message(&self) -> &[u8] {
        self.message.lent()
    }

    pub(crate) fn control(&self) -> &[u8] {
        self.control.lent()
    }

    pub(crate) fn output(&self) -> &[u8] {
        self.output.lent()
    }

    pub(crate) fn output_mut(&mut self) -> &mut [u8] {
        self.output.lent_mut()
    }

    // A read, with so much of the stores as is lent. It writes no more bytes than it takes.
    pub(crate) fn read(&mut self, session: Session, piece: &[u8], end: bool, masks: Masks) -> Turn {
        let turn = reader::read::read(
            session,
            piece,
            end,
            masks,
            self.message.lent_mut(),
            self.control.lent_mut(),
            self.output.lent_mut(),
        );
        self.reaches(turn.taken);
        turn
    }

    // So many bytes more may have been written.
    pub(crate) fn reaches(&mut self, n: usize) {
        self.reach = self.reach.saturating_add(n);
    }

    // A byte may have been written anywhere.
    pub(crate) fn reaches_all(&mut self) {
        self.reach = usize::MAX;
    }

    // Lays bytes over the room of a store from a place on, whatever is lent, if they fit.
    pub(crate) fn lay(&mut self, store: Store, at: usize, bytes: &[u8]) -> Option<()> {
        self.reaches_all();
        match store {
            Store::Message => self.message.lay(at, bytes),
            Store::Control => self.control.lay(at, bytes),
            Store::Output => self.output.lay(at, bytes),
        }
    }
}
