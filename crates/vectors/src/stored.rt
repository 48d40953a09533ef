// What lays bytes over a store: masking, copying, and the close of a violation. What does not fit is refused here, since the functions
// require that it fits.
ghost use Rattle.std.specs.Prelude.{◌+◌, ◌≤◌, ◌↔◌, IsTrue, length};

use crate::told;
use crate::told::Store;
use script::answers::Text;

// Whether a piece fits a store from a place on.
fn fits(piece: &[u8], place: usize) -> bool
    ensures { IsTrue result ↔ (place + length piece.now ≤ 64) }
{
    place <= 64 && piece.len() <= 64 - place
}

pub(crate) fn mask(args: &[u8], store: &mut Store, text: &mut Text<'_>) {
    let place = usize::from(script::words::byte(args, 12));
    let piece = script::words::behind(args, 13);
    if fits(piece, place) {
        let mask = crate::args::mask(script::words::behind(args, 8));
        mask::apply_mask(piece, store, place, mask, crate::args::big(args) as usize);
        text.hex(store);
    } else {
        told::refused(text);
    }
}

pub(crate) fn copy(args: &[u8], store: &mut Store, text: &mut Text<'_>) {
    let place = usize::from(script::words::byte(args, 0));
    let piece = script::words::behind(args, 1);
    if fits(piece, place) {
        stores::copy(piece, store, place);
        text.hex(store);
    } else {
        told::refused(text);
    }
}

// A store of n bytes.
pub(crate) fn violation(n: usize, store: &mut Store, text: &mut Text<'_>) {
    match n {
        20..=40 => {
            frame::close::write_violation(&mut store[..n]);
            text.hex(&store[..n]);
        }
        _ => told::refused(text),
    }
}
