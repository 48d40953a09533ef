// Masking (RFC 6455, 5.3), carried over from the Rust's protocol/frame/mask.rs.
#![tactic(auto)]

ghost use Rattle.std.specs.Prelude.{◌≡◌, ◌+◌, ◌≤◌, length};
ghost use Rattle.base.specs.Stores.{laid};
ghost use Rattle.mask.specs.Mask.{masked};

mod blocks;

// Lays a piece of a payload over the store from place `at` on, masked or unmasked, which is the same. The piece's first byte is byte
// `position` of the payload. Blocks of eight bytes first, and then the few bytes that are left: eight is twice four, so behind any number of
// blocks the phase is that of `position` again. Kept: a block is read by its place, and not by `as_chunks`, of which the compiler makes the same
// vector code: so a wrong answer can count on by another number than eight.
pub fn apply_mask(piece: &[u8], store: &mut [u8], at: usize, mask: [u8; 4], position: usize)
    requires { at + length piece.now ≤ length store.old }
    ensures { store.new ≡ laid store.old at (masked mask position piece.now) }
{
    let key = blocks::key_at(mask, position);
    let count = piece.len() / 8;
    for i in 0..count {
        let block = blocks::block_at(piece, 8 * i);
        blocks::lay_block(blocks::xor(block, key), store, at + 8 * i);
    }
    lay_bytes(&piece[8 * count..], store, at + 8 * count, key);
}

// Byte by byte, with a key whose second half is its first.
fn lay_bytes(piece: &[u8], store: &mut [u8], at: usize, key: [u8; 8])
    requires { at + length piece.now ≤ length store.old }
    ensures { store.new ≡ laid store.old at (masked key 0 piece.now) }
{
    for (i, byte) in piece.iter().enumerate() {
        store[at + i] = byte ^ key[i % 4];
    }
}
