// What records answer, behind what they say themselves.
use script::answers::Text;

// What a record lays its bytes over.
pub(crate) type Store = [u8; 64];

// A word, with a space before it.
pub(crate) fn word(word: &[u8], text: &mut Text<'_>) {
    text.put(b" ");
    text.put(word);
}

pub(crate) fn refused(text: &mut Text<'_>) {
    word(b"refused", text);
}
