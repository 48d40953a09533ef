// Runs of bytes in lent stores, carried over from what the Rust's protocol/frame/mod.rs does with its buffers.
// Kept: a store and the place in it are two parameters, here and where frames are laid, and the room is asked for: a frame's parts are laid one
// behind the other over one store, and what is promised is its whole content.
#![tactic(auto)]

ghost use Rattle.std.specs.Prelude.{◌≡◌, ◌+◌, ◌-◌, ◌≤◌, length};
ghost use Rattle.base.specs.Bytes.{part};
ghost use Rattle.base.specs.Stores.{laid};
ghost use Rattle.stores.specs.Framed.{framed};

// Lays a piece over the store from place `at` on. Kept: by a loop, which is vector code; with `copy_from_slice`, which calls a copy, a message of
// 65,536 bytes was sent in 5,381 ns in place of 3,615.
pub fn copy(piece: &[u8], store: &mut [u8], at: usize)
    requires { at + length piece.now ≤ length store.old }
    ensures { store.new ≡ laid store.old at piece.now }
{
    for (i, byte) in piece.iter().enumerate() {
        store[at + i] = *byte;
    }
}

// Lays a piece of a payload, from its byte `position` on, over the store from place `at` on: masked or unmasked where the frame has a mask, and
// else as it is.
pub fn put(mask: Option<[u8; 4]>, position: usize, piece: &[u8], store: &mut [u8], at: usize)
    requires { at + length piece.now ≤ length store.old }
    ensures { store.new ≡ laid store.old at (framed mask position piece.now) }
{
    match mask {
        Some(mask) => mask::apply_mask(piece, store, at, mask, position),
        None => copy(piece, store, at),
    }
}

// Takes the first n of the held bytes away and moves the rest to the front; every other byte stays. Kept: a store and how much of it is held, and
// no slice of these bytes: the promise is one of the whole store. And a loop: `copy_within` is the same loop, but with it a
// wrong answer can't leave out every second byte.
pub fn to_front(store: &mut [u8], n: usize, held: usize)
    requires { (n ≤ held) × (held ≤ length store.old) }
    ensures { store.new ≡ laid store.old 0 (part n (held - n) store.old) }
{
    for i in 0..held - n {
        store[i] = store[n + i];
    }
}
