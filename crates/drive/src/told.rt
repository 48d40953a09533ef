// The answers as text.
use script::answers::Text;
use session::Answer;
use session::refusal::Refusal;

// A word and the number behind it.
pub(crate) fn counted(text: &mut Text<'_>, word: &[u8], n: u64) {
    text.put(word);
    text.number(n);
}

pub(crate) fn refused(text: &mut Text<'_>, number: u8) {
    counted(text, b"refused", u64::from(number));
}

// What a read answers.
pub(crate) fn answer(text: &mut Text<'_>, answer: Answer) {
    match answer {
        Answer::More => text.put(b"more"),
        Answer::Text(n) => counted(text, b"text", n as u64),
        Answer::Binary(n) => counted(text, b"binary", n as u64),
        Answer::Ping(n) => counted(text, b"ping", n as u64),
        Answer::Pong(n) => counted(text, b"pong", n as u64),
        Answer::Close(n) => counted(text, b"close", n as u64),
        Answer::Closed => text.put(b"closed"),
        Answer::Refused(number) => refused(text, number),
    }
}

// What a sending call or a take answers.
pub(crate) fn sent(text: &mut Text<'_>, sent: Result<(), Refusal>) {
    match sent {
        Ok(()) => text.put(b"ok"),
        Err(refusal) => refused(text, refusal.number()),
    }
}
