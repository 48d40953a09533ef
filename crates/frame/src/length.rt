// A payload's length in its three forms (the Rust's LengthFormat).
ghost use Rattle.std.specs.Prelude.{◌≡◌, ◌+◌, ◌≤◌, length};
ghost use Rattle.base.specs.Bytes.{from_big};
ghost use Rattle.base.specs.Stores.{laid};
ghost use Rattle.frame.specs.Header.{extra_bytes, length_of, length_code, length_bytes};

// How many bytes of length follow the second byte with this code.
#[tactic(auto, unfolding(crate::specs::Header::extra_bytes, base::specs::Table::value_at))]
pub(crate) fn extra_bytes(code: u8) -> usize
    ensures value { result ≡ extra_bytes code }
    ensures most { result ≤ 8 }
{
    match code {
        126 => 2,
        127 => 8,
        _ => 0,
    }
}

// The bytes as a number, most significant first. Kept: by a `for`, and not by `from_be_bytes`, which the two sizes of a run would want twice.
fn big(bytes: &[u8]) -> u64
    requires { length bytes.now ≤ 8 }
    ensures { result ≡ from_big bytes.now }
{
    let mut n = 0;
    for byte in bytes {
        n = n * 256 + u64::from(*byte);
    }
    n
}

// The length of the payload behind a header of which no byte of length is missing.
pub(crate) fn length_of(code: u8, bytes: &[u8]) -> u64
    requires { 2 + extra_bytes code ≤ length bytes.now }
    ensures { result ≡ length_of code bytes.now }
{
    match code {
        126 => big(&bytes[2..4]),
        127 => big(&bytes[2..10]),
        _ => u64::from(code),
    }
}

// The writer's code: the shortest form.
pub(crate) fn length_code(length: u64) -> u8
    ensures { result ≡ length_code length }
{
    match length {
        0..=125 => length as u8,
        126..=65535 => 126,
        _ => 127,
    }
}

// Lays bytes over the store from place `at` on, and gives the place behind them.
fn lay(bytes: &[u8], store: &mut [u8], at: usize) -> usize
    requires { at + length bytes.now ≤ length store.old }
    ensures { (result ≡ at + length bytes.now) × (store.new ≡ laid store.old at bytes.now) }
{
    stores::copy(bytes, store, at);
    at + bytes.len()
}

// Lays the bytes of length that follow the code over the store from place `at` on, and gives the place behind them. Each form has a copy of so
// many bytes as it has, which is a store of one number; a copy of as many as the code says would be a call. Kept: `as u16`, which is exact in
// its arm.
pub(crate) fn write_length(n: u64, store: &mut [u8], at: usize) -> usize
    requires { at + length (length_bytes n) ≤ length store.old }
    ensures { (result ≡ at + length (length_bytes n)) × (store.new ≡ laid store.old at (length_bytes n)) }
{
    match n {
        0..=125 => at,
        126..=65535 => lay(&(n as u16).to_be_bytes(), store, at),
        _ => lay(&n.to_be_bytes(), store, at),
    }
}
