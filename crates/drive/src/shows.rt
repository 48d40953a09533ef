// The words that show what there is and change nothing: `held`, `waits`, `state` and `stores`.
use crate::room::Stores;
use crate::told;
use script::answers::Text;
use session::Session;

pub(crate) fn held(session: Session, output: &[u8], text: &mut Text<'_>) {
    match writer::output::held_number(session, output) {
        Ok(()) => {
            let bytes = writer::output::held(session, output);
            told::counted(text, b"held", bytes.len() as u64);
            text.hex(bytes);
        }
        Err(refusal) => told::refused(text, refusal.number()),
    }
    text.put(b"\n");
}

pub(crate) fn waits(session: Session, text: &mut Text<'_>) {
    if writer::output::waits(session) {
        text.put(b"waits 1\n");
    } else {
        text.put(b"waits 0\n");
    }
}

// The state by its name, or by its number where it has none.
pub(crate) fn state(session: Session, text: &mut Text<'_>) {
    match session.state {
        session::ACTIVE => text.put(b"state Active"),
        session::CLOSED_BY_US => text.put(b"state ClosedByUs"),
        session::CLOSED_BY_PEER => text.put(b"state ClosedByPeer"),
        session::CLOSE_ACKNOWLEDGED => text.put(b"state CloseAcknowledged"),
        session::TERMINATED => text.put(b"state Terminated"),
        number => told::counted(text, b"state", u64::from(number)),
    }
    text.put(b"\n");
}

// A line of a store's name, the number of the bytes that are lent, and their digits.
fn store(name: &[u8], bytes: &[u8], text: &mut Text<'_>) {
    told::counted(text, name, bytes.len() as u64);
    text.hex(bytes);
    text.put(b"\n");
}

pub(crate) fn stores(stores: &Stores, text: &mut Text<'_>) {
    store(b"message", stores.message(), text);
    store(b"control", stores.control(), text);
    store(b"output", stores.output(), text);
}
