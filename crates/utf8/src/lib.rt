// The UTF-8 check: a step on a progress that is carried from byte to byte, and so from piece to piece, and a scan of one piece.
#![tactic(auto, unfolding(base::specs::Table::value_at, crate::specs::Progress::stepped, crate::specs::Progress::is_whole, crate::specs::Progress::is_beginning))]

ghost use Rattle.std.specs.Prelude.{◌≡◌, [], ◌∷◌};
ghost use Rattle.base.specs.Table.{◌to◌is◌, value_at};
ghost use Rattle.utf8.specs.Progress.{lead_rows, stepped, scanned, progress_after, is_whole, is_beginning};

// Kept: a progress is a number and no enum, since `step`, `is_whole` and `is_beginning` promise something of the numbers that name none too: a
// caller's session may hold one.

// The progress between two characters, with which a text begins.
pub const START: u8 = 0;

// The progress behind a byte that no valid text has there. It leads nowhere else.
pub const BAD: u8 = 8;

// The first byte of a character decides how many more are due, and which the next may be. No character begins with a byte of the last arm.
fn lead(byte: u8) -> u8
    ensures { result ≡ value_at lead_rows 8 byte }
{
    match byte {
        0..=0x7f => START,
        0xc2..=0xdf => 1,
        0xe0 => 4,
        0xe1..=0xec | 0xee..=0xef => 2,
        0xed => 5,
        0xf0 => 6,
        0xf1..=0xf3 => 3,
        0xf4 => 7,
        0x80..=0xc1 | 0xf5..=0xff => BAD,
    }
}

// A later byte of a character: one from `low` to `high` leads to `next`, and no other is valid.
fn tail(low: u8, high: u8, next: u8, byte: u8) -> u8
    ensures { result ≡ value_at ((low to high is next) ∷ []) 8 byte }
{
    if (low..=high).contains(&byte) {
        next
    } else {
        BAD
    }
}

// The progress behind one byte more. A number that names no progress leads to `BAD`, as `BAD` does.
pub fn step(progress: u8, byte: u8) -> u8
    ensures { result ≡ stepped progress byte }
{
    match progress {
        0 => lead(byte),
        1 => tail(0x80, 0xbf, 0, byte),
        2 => tail(0x80, 0xbf, 1, byte),
        3 => tail(0x80, 0xbf, 2, byte),
        4 => tail(0xa0, 0xbf, 1, byte),
        5 => tail(0x80, 0x9f, 1, byte),
        6 => tail(0x90, 0xbf, 2, byte),
        7 => tail(0x80, 0x8f, 2, byte),
        _ => BAD,
    }
}

// Where a scan ended, which is the piece's length where it met no bad byte, and the progress there.
#[derive(Clone, Copy)]
pub struct Scanned {
    pub at: usize,
    pub progress: u8,
}

// Ends at the first byte that no valid text could have there, since no byte behind it can mend it.
pub fn scan(progress: u8, piece: &[u8]) -> Scanned
    ensures { result ≡ scanned progress piece.now }
{
    let mut reached = progress;
    let mut i = 0;
    // Kept: docs/01-scope.md has this loop yield the place by `break`.
    let at = loop {
        let Some(byte) = piece.get(i) else {
            break i;
        };
        reached = step(reached, *byte);
        if reached == BAD {
            break i;
        }
        i += 1;
    };
    Scanned {
        at,
        progress: reached,
    }
}

// Whether a text may end here.
pub fn is_whole(progress: u8) -> bool
    ensures { result ≡ is_whole progress }
{
    progress == START
}

// Whether a valid text may go on from here.
pub fn is_beginning(progress: u8) -> bool
    ensures { result ≡ is_beginning progress }
{
    progress < BAD
}

// Whether the bytes are a whole text.
#[tactic(auto, unfolding(crate::specs::Progress::scanned))]
pub fn is_text(bytes: &[u8]) -> bool
    ensures { result ≡ is_whole (progress_after 0 bytes.now) }
{
    is_whole(scan(START, bytes).progress)
}
