// Masking and the UTF-8 check alone.

// Masks a piece into a store from its front on, where it fits.
pub fn bench_mask(piece: &[u8], store: &mut [u8], mask: u32) -> bool {
    let fits = piece.len() <= store.len();
    if fits {
        mask::apply_mask(piece, store, 0, mask.to_be_bytes(), 0);
    }
    fits
}

// The same by single bytes, as the bytes go that are left behind the blocks. Nothing but the measure uses it.
pub fn bench_mask_bytes(piece: &[u8], store: &mut [u8], mask: u32) -> bool {
    let fits = piece.len() <= store.len();
    if fits {
        let key = mask.to_be_bytes();
        for (i, byte) in piece.iter().enumerate() {
            store[i] = byte ^ key[i % 4];
        }
    }
    fits
}

// Whether a piece is a whole text.
pub fn bench_utf8(piece: &[u8]) -> bool {
    utf8::is_text(piece)
}
