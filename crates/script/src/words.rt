// A line's words, which one space parts. Two spaces, or one at either end, leave an empty word.
ghost use Rattle.std.specs.Prelude.{◌≡◌, [], min, length, get_or, drop};
ghost use Rattle.script.specs.Words.{further, find_in, words_of, place_in};

// The place of the first such byte. Kept: over the places, and not by `position`, so that a wrong answer can begin behind the first one or
// leave some out.
pub fn find(all: &[u8], byte: u8) -> Option<usize>
    ensures { result ≡ find_in byte all.now }
{
    (0..all.len()).find(|at| all[*at] == byte)
}

// A byte, 0 behind the end.
// Kept: no Option, since its promise is the byte or 0, and vectors' records have all the bytes that are asked for.
pub fn byte(all: &[u8], i: usize) -> u8
    ensures { result ≡ get_or all.now i 0 }
{
    all.get(i).copied().unwrap_or(0)
}

// The bytes from place `from` on, none behind the end.
pub fn behind(all: &[u8], from: usize) -> &[u8]
    ensures { (result.now ≡ drop from all.now) × (result.ref_ptr ≡ further (min from (length all.now)) all.entry.ref_ptr) }
{
    &all[from.min(all.len())..]
}

// How many words a line has.
pub fn count(line: &[u8]) -> usize
    ensures { result ≡ length (words_of line.now) }
{
    line.split(|b| *b == b' ').count()
}

// The k-th word, from 0, and no byte where there are fewer.
// Kept: no Option, since its promise is the word or no byte; how many words there are is asked of `count`.
pub fn word(line: &[u8], k: usize) -> &[u8]
    ensures { result.now ≡ get_or (words_of line.now) k [] }
{
    line.split(|b| *b == b' ').nth(k).unwrap_or(&[])
}

// The place of a word among some names, which one space parts.
pub fn place(names: &[u8], word: &[u8]) -> Option<usize>
    ensures { result ≡ place_in (words_of names.now) word.now }
{
    names.split(|b| *b == b' ').position(|name| name == word)
}
