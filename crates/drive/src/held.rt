// The bytes that reads are given.
ghost use Rattle.std.specs.Prelude.{◌≤◌};

// What the last read left over, and behind it room for the bytes that a line gives, 150,000 at most of each.
#[derive(Drop)]
pub(crate) struct Held {
    bytes: [u8; 300000],
    left: Left,
}

// What is left over: the held bytes from one place to another.
#[derive(Clone, Copy)]
struct Left {
    from: usize,
    to: usize,
    ghost in_order: { from ≤ to },
    ghost room_behind: { to ≤ 150000 },
}

impl Held {
    pub(crate) fn new() -> Held {
        Held {
            bytes: [0; 300000],
            left: Left { from: 0, to: 0 },
        }
    }

    // Nothing is left over.
    pub(crate) fn clear(&mut self) {
        self.left = Left { from: 0, to: 0 };
    }

    // The room for the bytes that a line gives. What is left over is moved to the front.
    pub(crate) fn room(&mut self) -> &mut [u8] {
        let Left { from, to } = self.left;
        let n = to - from;
        self.bytes.copy_within(from..to, 0);
        self.left = Left { from: 0, to: n };
        &mut self.bytes[n..n + 150000]
    }

    // The bytes that a line gave, so many.
    pub(crate) fn given(&self, n: usize) -> &[u8] {
        input::front(&self.bytes[self.left.to..], n)
    }

    // The bytes that a line gave are left over too, where no more than 150,000 then are.
    pub(crate) fn join(&mut self, n: usize) -> Option<()> {
        let Left { from, to } = self.left;
        let behind = to.checked_add(n)?;
        if 150000 < behind {
            return None;
        }
        self.left = Left { from, to: behind };
        Some(())
    }

    pub(crate) fn piece(&self) -> &[u8] {
        &self.bytes[self.left.from..self.left.to]
    }

    // So many bytes of what is left over are used.
    pub(crate) fn take(&mut self, n: usize) {
        let Left { from, to } = self.left;
        self.left = Left {
            from: from.saturating_add(n).min(to),
            to,
        };
    }
}
