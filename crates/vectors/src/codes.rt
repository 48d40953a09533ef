// All close codes, in runs of one class and one permission.
use crate::told;
use coding::close_code::CloseCode;
use script::answers::Text;

// The words of the classes, and `wrong`. They are compared for each code, so they are an enum and no letters.
#[derive(Clone, Copy, PartialEq, Eq)]
enum Word {
    Normal,
    Away,
    Protocol,
    Unsupported,
    Status,
    Abnormal,
    Invalid,
    Policy,
    Size,
    Extension,
    Error,
    Restart,
    Again,
    Tls,
    Reserved,
    Iana,
    Library,
    Bad,
    Wrong,
}

impl Word {
    // The word of a class, and the code that it carries.
    fn of(class: CloseCode) -> (Word, u16) {
        match class {
            CloseCode::Normal => (Word::Normal, 1000),
            CloseCode::Away => (Word::Away, 1001),
            CloseCode::Protocol => (Word::Protocol, 1002),
            CloseCode::Unsupported => (Word::Unsupported, 1003),
            CloseCode::Status => (Word::Status, 1005),
            CloseCode::Abnormal => (Word::Abnormal, 1006),
            CloseCode::Invalid => (Word::Invalid, 1007),
            CloseCode::Policy => (Word::Policy, 1008),
            CloseCode::Size => (Word::Size, 1009),
            CloseCode::Extension => (Word::Extension, 1010),
            CloseCode::Error => (Word::Error, 1011),
            CloseCode::Restart => (Word::Restart, 1012),
            CloseCode::Again => (Word::Again, 1013),
            CloseCode::Tls => (Word::Tls, 1015),
            CloseCode::Reserved(code) => (Word::Reserved, code),
            CloseCode::Iana(code) => (Word::Iana, code),
            CloseCode::Library(code) => (Word::Library, code),
            CloseCode::Bad(code) => (Word::Bad, code),
        }
    }

    fn letters(self) -> &'static [u8] {
        match self {
            Word::Normal => b"normal",
            Word::Away => b"away",
            Word::Protocol => b"protocol",
            Word::Unsupported => b"unsupported",
            Word::Status => b"status",
            Word::Abnormal => b"abnormal",
            Word::Invalid => b"invalid",
            Word::Policy => b"policy",
            Word::Size => b"size",
            Word::Extension => b"extension",
            Word::Error => b"error",
            Word::Restart => b"restart",
            Word::Again => b"again",
            Word::Tls => b"tls",
            Word::Reserved => b"reserved",
            Word::Iana => b"iana",
            Word::Library => b"library",
            Word::Bad => b"bad",
            Word::Wrong => b"wrong",
        }
    }
}

// What the codes of a run have in common. Its word is `wrong` where a class does not carry the code that it was made of, or where the two
// that judge a code do not agree.
#[derive(Clone, Copy, PartialEq, Eq)]
struct Sort {
    word: Word,
    allowed: bool,
}

fn sort_of(code: u16) -> Sort {
    let class = CloseCode::from(code);
    let (word, carried) = Word::of(class);
    let allowed = coding::close_code::is_allowed(code);
    let right = carried == code && class.is_allowed() == allowed;
    Sort {
        word: if right { word } else { Word::Wrong },
        allowed,
    }
}

fn run(from: u16, to: u16, sort: Sort, text: &mut Text<'_>) {
    text.put(b"codes");
    text.number(u64::from(from));
    text.number(u64::from(to));
    told::word(sort.word.letters(), text);
    text.number(u64::from(sort.allowed));
}

// A line for each run but the last is ended here.
pub(crate) fn runs(text: &mut Text<'_>) {
    let mut from = 0;
    let mut now = sort_of(0);
    for code in 0..65535u16 {
        let next = sort_of(code + 1);
        if next != now {
            run(from, code, now, text);
            text.put(b"\n");
            from = code + 1;
            now = next;
        }
    }
    run(from, 65535, now, text);
}
