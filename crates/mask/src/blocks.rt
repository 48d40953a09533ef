// What masking by blocks of eight bytes is made of. The compiler can't know that piece and store are apart. It makes vector code of this since
// all of a block is read before any of it is written.
ghost use Rattle.std.specs.Prelude.{◌≡◌, ◌+◌, ◌≤◌, length};
ghost use Rattle.base.specs.Bytes.{part};
ghost use Rattle.base.specs.Stores.{laid};
ghost use Rattle.mask.specs.Blocks.{key_at, xored};

// The mask twice, turned so that it begins with the byte of this position. Eight is twice four, so it is the key of every block of a piece.
pub(crate) fn key_at(mask: [u8; 4], position: usize) -> [u8; 8]
    ensures { result ≡ key_at mask position }
{
    let phase = position % 4;
    let a = mask[phase];
    let b = mask[(phase + 1) % 4];
    let c = mask[(phase + 2) % 4];
    let d = mask[(phase + 3) % 4];
    [a, b, c, d, a, b, c, d]
}

pub(crate) fn block_at(piece: &[u8], from: usize) -> [u8; 8]
    requires { from + 8 ≤ length piece.now }
    ensures { result ≡ part from 8 piece.now }
{
    std::array::from_fn(|i| piece[from + i])
}

pub(crate) fn xor(block: [u8; 8], key: [u8; 8]) -> [u8; 8]
    ensures { result ≡ xored block key }
{
    std::array::from_fn(|i| block[i] ^ key[i])
}

// Kept: by a loop, and not by `copy_from_slice`. Where more than this copies by that, as in the program that measures, it stays a copy of eight
// bytes, and a mask over 1,000 bytes takes 130 ns in place of 31.
pub(crate) fn lay_block(block: [u8; 8], store: &mut [u8], at: usize)
    requires { at + 8 ≤ length store.old }
    ensures { store.new ≡ laid store.old at block }
{
    for (i, byte) in block.iter().enumerate() {
        store[at + i] = *byte;
    }
}
