// Messages sent, and the held bytes taken.
use session::{Handed, Masks, Session};

pub(crate) fn masks_of(mask: u32) -> Masks {
    let bytes = mask.to_be_bytes();
    Masks {
        first: bytes,
        second: bytes,
    }
}

// Sends payloads of `size` bytes that stand one behind the other, each as one message, and takes all that is held behind each. Gives the bytes
// that were taken.
// Kept: no `chunks`, which has none of size 0. Of payloads without a byte one is sent.
fn send_all<F: Fn(Session, &[u8], Masks, &mut [u8]) -> Handed>(
    send: F,
    client: bool,
    payloads: &[u8],
    size: usize,
    mask: u32,
    output: &mut [u8],
) -> u64
    requires { F.IsAlwaysCallable send }
{
    let mut session = crate::reads::session_of(client, 0);
    let masks = masks_of(mask);
    let mut bytes: u64 = 0;
    let mut rest = payloads;
    while !rest.is_empty() {
        let (payload, behind) = rest.split_at(size.min(rest.len()));
        let sent = send(session, payload, masks, output);
        bytes = bytes.wrapping_add(sent.session.held as u64);
        session = writer::output::take(sent.session, sent.session.held, output).session;
        if payload.is_empty() {
            break;
        }
        rest = behind;
    }
    bytes
}

// Sends binary messages.
// Kept: here and in `bench_text`, the role as a flag, which is what C hands on.
pub fn bench_binary_shared(
    client: bool,
    payloads: &[u8],
    size: usize,
    mask: u32,
    output: &mut [u8],
) -> u64 {
    send_all(writer::send::binary, client, payloads, size, mask, output)
}

// The same as texts.
pub fn bench_text(client: bool, payloads: &[u8], size: usize, mask: u32, output: &mut [u8]) -> u64 {
    send_all(writer::send::text, client, payloads, size, mask, output)
}

// Takes the held bytes away, `size` at a time. Gives the number of takes, which is one where nothing is taken at a time.
fn take_all(begun: Session, size: usize, output: &mut [u8]) -> u64 {
    let mut session = begun;
    let mut takes: u64 = 0;
    let mut left = begun.held;
    while 0 < left {
        let n = size.min(left);
        session = writer::output::take(session, n, output).session;
        takes = takes.wrapping_add(1);
        if n == 0 {
            break;
        }
        left -= n;
    }
    takes
}

// Sends a payload once and takes what is held, `size` bytes at a time. Gives the number of takes.
pub fn bench_take(payload: &[u8], size: usize, output: &mut [u8]) -> u64 {
    let session = crate::reads::session_of(false, 0);
    let sent = writer::send::binary(session, payload, masks_of(0), output);
    take_all(sent.session, size, output)
}
