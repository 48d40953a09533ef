// Close payloads.
use crate::told;
use coding::close_code::CloseCode;
use frame::close::ClosePayload;
use script::answers::Text;

pub(crate) fn payload(args: &[u8], text: &mut Text<'_>) {
    match frame::close::into_close(args) {
        ClosePayload::Empty => told::word(b"empty", text),
        ClosePayload::OneByte => told::word(b"one", text),
        ClosePayload::CodeAndReason(code) => {
            told::word(b"code", text);
            text.number(u64::from(code));
        }
    }
}

pub(crate) fn code(args: &[u8], text: &mut Text<'_>) {
    // by its class, which carries it
    let code = u16::from(CloseCode::from(crate::args::code(args)));
    text.number(u64::from(code));
    text.hex(&frame::close::code_bytes(code));
}
