// Numbers and bytes as a script writes them.
ghost use Rattle.std.specs.Prelude.{◌≡◌, ◌≤◌, ◌/◌, length};
ghost use Rattle.base.specs.Stores.{laid};
ghost use Rattle.script.specs.Values.{more_of, decimal_of, bits_of, byte_of, all_digits, bytes_of, hex_of, hex_laid};

// A number with another digit behind it.
fn more(n: u64, digit: u8) -> Option<u64>
    ensures { result ≡ more_of (Some n) digit }
{
    match digit {
        b'0'..=b'9' => n.checked_mul(10)?.checked_add(u64::from(digit - b'0')),
        _ => None,
    }
}

// A number in decimal: one to twenty digits, and below 2^64. Zeros may stand before it.
pub fn decimal(word: &[u8]) -> Option<u64>
    ensures { result ≡ decimal_of word.now }
{
    if word.is_empty() || 20 < word.len() {
        return None;
    }
    let mut n = 0;
    for digit in word {
        n = more(n, *digit)?;
    }
    Some(n)
}

// The four bits of a hexadecimal digit, in lower case.
fn bits(digit: u8) -> Option<u8>
    ensures { result ≡ bits_of digit }
{
    match digit {
        b'0'..=b'9' => Some(digit - b'0'),
        b'a'..=b'f' => Some(digit - b'a' + 10),
        _ => None,
    }
}

// The byte of two digits.
fn joined(high: u8, low: u8) -> u8
    ensures { result ≡ byte_of high low }
{
    bits(high).unwrap_or(0) * 16 + bits(low).unwrap_or(0)
}

// Whether all bytes are digits.
fn digits(word: &[u8]) -> bool
    ensures { result ≡ all_digits word.now }
{
    word.iter().all(|digit| bits(*digit).is_some())
}

// How many bytes a word stands for, where there is room for so many.
fn told(word: &[u8], room: usize) -> Option<u64>
    ensures { result ≡ hex_of word.now room }
{
    let n = word.len() / 2;
    if word == b"-".as_slice() {
        Some(0)
    } else if n <= room && !word.is_empty() && word.len() % 2 == 0 && digits(word) {
        Some(n as u64)
    } else {
        None
    }
}

// Lays a byte for each two digits over the store's front.
fn lay(word: &[u8], given: &mut [u8])
    requires { length word.now / 2 ≤ length given.old }
    ensures { given.new ≡ laid given.old 0 (bytes_of word.now) }
{
    let (pairs, _) = word.as_chunks::<2>();
    // Kept: no `given.iter_mut().zip(pairs)`: what such a loop leaves in the store is not known to a proof.
    for (i, [high, low]) in pairs.iter().enumerate() {
        given[i] = joined(*high, *low);
    }
}

// The bytes of a word: two digits for each, or `-` for none. They are laid over the store's front, and their number is told. The digits are
// looked at first, so that a word that can't be understood changes no byte.
pub fn hex(word: &[u8], given: &mut [u8]) -> Option<u64>
    ensures { (result ≡ hex_of word.now (length given.old)) × (given.new ≡ hex_laid word.now given.old) }
{
    let n = told(word, given.len())?;
    lay(word, given);
    Some(n)
}
