// Numbers and bytes as digits.
ghost use Rattle.std.specs.Prelude.{◌≡◌, ◌∷◌, [], ◌+◌, ◌≤◌, ◌<◌, length};
ghost use Rattle.lines.specs.Text.{Wrote, digit_of, decimal, decimal_in, hex};

// Kept: digits are laid one by one, and not by `write!`: the promise is of the whole store, and of a place behind the text.

// The digit of the four low bits.
fn digit(n: u8) -> u8
    ensures { result ≡ digit_of n }
{
    let low = n % 16;
    if low < 10 {
        b'0' + low
    } else {
        b'a' + (low - 10)
    }
}

pub(crate) fn put_byte(byte: u8, out: &mut [u8], at: usize) -> usize
    requires { at < length out.old }
    ensures { Wrote out.old at (byte ∷ []) out.new result }
{
    out[at] = byte;
    at + 1
}

// A number in at most k digits: those before the last, and then the last.
fn put_digits(k: usize, n: u64, out: &mut [u8], at: usize) -> usize
    requires { at + k ≤ length out.old }
    ensures { Wrote out.old at (decimal_in k n) out.new result }
{
    if k == 0 {
        return at;
    }
    let front = if n < 10 {
        at
    } else {
        put_digits(k - 1, n / 10, out, at)
    };
    put_byte(digit((n % 10) as u8), out, front)
}

// A number in decimal.
pub fn put_decimal(n: u64, out: &mut [u8], at: usize) -> usize
    requires { at + 20 ≤ length out.old }
    ensures { Wrote out.old at (decimal n) out.new result }
{
    put_digits(20, n, out, at)
}

// Two digits for each byte.
pub fn put_hex(bytes: &[u8], out: &mut [u8], at: usize) -> usize
    requires { at + (length bytes.now + length bytes.now) ≤ length out.old }
    ensures { Wrote out.old at (hex bytes.now) out.new result }
{
    let mut behind = at;
    for byte in bytes {
        behind = put_byte(digit(*byte / 16), out, behind);
        behind = put_byte(digit(*byte), out, behind);
    }
    behind
}
