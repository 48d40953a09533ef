// The payload of a close frame.
ghost use Rattle.std.specs.Prelude.{◌≡◌, ◌≤◌, length};
ghost use Rattle.base.specs.Bytes.{to_big};
ghost use Rattle.base.specs.Stores.{laid};
ghost use Rattle.frame.specs.Close.{close_of, close_bytes, violation};

// A reason, where there is a code, is the payload from byte 2 on.
#[derive(Clone, Copy)]
pub enum ClosePayload {
    Empty,
    OneByte,
    CodeAndReason(u16),
}

// What a close payload says.
pub fn into_close(payload: &[u8]) -> ClosePayload
    ensures { result ≡ close_of payload.now }
{
    match payload {
        [] => ClosePayload::Empty,
        [_] => ClosePayload::OneByte,
        [high, low, ..] => ClosePayload::CodeAndReason(u16::from_be_bytes([*high, *low])),
    }
}

// The two bytes of a code, which the writer puts before the reason.
pub fn code_bytes(code: u16) -> [u8; 2]
    ensures { result ≡ to_big 2 code }
{
    code.to_be_bytes()
}

// Lays code 1002 and its reason over the first twenty bytes of the store, in place of a code that is not allowed.
pub fn write_violation(store: &mut [u8])
    requires { 20 ≤ length store.old }
    ensures { store.new ≡ laid store.old 0 (close_bytes 1002 violation) }
{
    stores::copy(&code_bytes(1002), store, 0);
    stores::copy(b"Protocol violation", store, 2);
}
