// Answers as text, gathered in a lent store. What does not fit is left out: the place and the store are then as they were.
ghost use Rattle.std.specs.Prelude.{◌≡◌, ◌∷◌, ◌+◌, leb, length};
ghost use Rattle.lines.specs.Text.{decimal, shown_hex};
ghost use Rattle.script.specs.Answers.{Put};

// A store and the place behind the text that it has so far.
#[derive(Drop)]
pub struct Text<'a> {
    pub store: &'a mut [u8],
    pub at: usize,
}

impl Text<'_> {
    // Whether there is room for n bytes more.
    fn has_room(&self, n: usize) -> bool
        ensures { result ≡ leb (self.now.at + n) (length self.now.store.now) }
    {
        self.at <= self.store.len() && n <= self.store.len() - self.at
    }

    // A word.
    pub fn put(&mut self, word: &[u8])
        ensures same_store { self.new.store.ghost_name ≡ self.old.store.ghost_name }
        ensures laid { Put (length word.now) self.old.store.now self.old.at word.now self.new.store.now self.new.at }
    {
        if self.has_room(word.len()) {
            self.at = lines::line::put_word(word, self.store, self.at);
        }
    }

    // A space and a number in decimal. Room for twenty digits is asked for, however many it has.
    pub fn number(&mut self, n: u64)
        ensures same_store { self.new.store.ghost_name ≡ self.old.store.ghost_name }
        ensures laid { Put 21 self.old.store.now self.old.at (32 ∷ decimal n) self.new.store.now self.new.at }
    {
        if self.has_room(21) {
            let spaced = lines::line::put_word(b" ", self.store, self.at);
            self.at = lines::number::put_decimal(n, self.store, spaced);
        }
    }

    // A space and two digits for each byte, and nothing where there is none.
    pub fn hex(&mut self, bytes: &[u8])
        ensures same_store { self.new.store.ghost_name ≡ self.old.store.ghost_name }
        ensures laid { Put (length (shown_hex bytes.now)) self.old.store.now self.old.at (shown_hex bytes.now) self.new.store.now self.new.at }
    {
        if !bytes.is_empty() && self.has_room(bytes.len() + bytes.len() + 1) {
            let begun = lines::line::put_word(b" ", self.store, self.at);
            self.at = lines::number::put_hex(bytes, self.store, begun);
        }
    }
}
