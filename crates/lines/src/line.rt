// Whole lines.
ghost use Rattle.std.specs.Prelude.{◌+◌, ◌≤◌, length};
ghost use Rattle.lines.specs.Text.{Wrote, shown_hex, counted, at_place};

use crate::number::{put_byte, put_decimal, put_hex};

// The bytes of a word.
pub fn put_word(word: &[u8], out: &mut [u8], at: usize) -> usize
    requires { at + length word.now ≤ length out.old }
    ensures { Wrote out.old at word.now out.new result }
{
    stores::copy(word, out, at);
    at + word.len()
}

// A space and the digits of some bytes, and nothing where there is none.
fn put_shown(bytes: &[u8], out: &mut [u8], at: usize) -> usize
    requires { at + (1 + (length bytes.now + length bytes.now)) ≤ length out.old }
    ensures { Wrote out.old at (shown_hex bytes.now) out.new result }
{
    if bytes.is_empty() {
        return at;
    }
    let spaced = put_byte(b' ', out, at);
    put_hex(bytes, out, spaced)
}

// A line of a word, the number of some bytes, and their digits.
pub fn put_counted(word: &[u8], bytes: &[u8], out: &mut [u8], at: usize) -> usize
    requires { at + (length word.now + (23 + (length bytes.now + length bytes.now))) ≤ length out.old }
    ensures { Wrote out.old at (counted word.now bytes.now) out.new result }
{
    let named = put_word(word, out, at);
    let spaced = put_byte(b' ', out, named);
    let numbered = put_decimal(bytes.len() as u64, out, spaced);
    let shown = put_shown(bytes, out, numbered);
    put_byte(b'\n', out, shown)
}

// A line of words, `at` and a place.
pub fn put_at_place(words: &[u8], place: u64, out: &mut [u8], at: usize) -> usize
    requires { at + (length words.now + 25) ≤ length out.old }
    ensures { Wrote out.old at (at_place words.now place) out.new result }
{
    let named = put_word(words, out, at);
    let joined = put_word(b" at ", out, named);
    let placed = put_decimal(place, out, joined);
    put_byte(b'\n', out, placed)
}
