// Runs the public functions of the leaf crates on records from standard input and answers each, to be compared with what
// tests/vectors/make computes from the documents. A record is a line: a word and its argument, which is a number for `violation`, nothing
// for `codes`, and else HEX (docs/DRIVE.md). Its answer is the record itself and the words behind it; for `codes`, a line for each run of
// codes. A line that is no record is the last: `bad record`. A read or a write that fails ends the run, as main's error.
#![tactic(auto)]

mod args;
mod closes;
mod codes;
mod headers;
mod stored;
mod told;
mod utf;

use crate::told::Store;
use input::{Next, Window};
use script::answers::Text;
use std::{array, io};

// The input's bytes that were read and not used yet, and those of a record's argument.
type Bytes = [u8; 65536];

type Args = [u8; 255];

// The longest line, without its line feed.
const LONGEST: usize = 1024;

// The records whose argument is HEX, by their words.
#[derive(Clone, Copy)]
enum Kind {
    Opcode,
    Header,
    Write,
    Mask,
    Copy,
    Utf8,
    Step,
    Close,
    Code,
}

// Their words, in the order of the kinds.
const WORDS: &[u8] = b"opcode header write mask copy utf8 step close code";

const KINDS: [Kind; 9] = [
    Kind::Opcode,
    Kind::Header,
    Kind::Write,
    Kind::Mask,
    Kind::Copy,
    Kind::Utf8,
    Kind::Step,
    Kind::Close,
    Kind::Code,
];

impl Kind {
    fn of(word: &[u8]) -> Option<Kind> {
        KINDS.get(script::words::place(WORDS, word)?).copied()
    }

    // Whether there is a record of this kind with so many bytes.
    fn may_have(self, n: u64) -> bool {
        match self {
            Kind::Opcode => n == 1,
            Kind::Header | Kind::Close => true,
            Kind::Write => n == 14,
            Kind::Mask => 13 <= n,
            Kind::Copy | Kind::Utf8 => 1 <= n,
            Kind::Step | Kind::Code => n == 2,
        }
    }

    // What such a record answers behind itself.
    fn answer(self, args: &[u8], store: &mut Store, text: &mut Text<'_>) {
        match self {
            Kind::Opcode => headers::opcode(args, text),
            Kind::Header => headers::read(args, text),
            Kind::Write => headers::write(args, store, text),
            Kind::Mask => stored::mask(args, store, text),
            Kind::Copy => stored::copy(args, store, text),
            Kind::Utf8 => utf::scan(args, text),
            Kind::Step => utf::step(args, text),
            Kind::Close => closes::payload(args, text),
            Kind::Code => closes::code(args, text),
        }
    }
}

// A record that is understood.
#[derive(Clone, Copy)]
enum Record {
    Codes,
    Violation(usize),
    // so many bytes, which are at the front of the room for them
    Bytes(Kind, usize),
}

impl Record {
    fn violation(word: &[u8]) -> Option<Record> {
        let n = script::values::decimal(word)?;
        (n < 256).then_some(Record::Violation(n as usize))
    }

    fn bytes(word: &[u8], hex: &[u8], args: &mut Args) -> Option<Record> {
        let kind = Kind::of(word)?;
        let n = script::values::hex(hex, args)?;
        kind.may_have(n).then_some(Record::Bytes(kind, n as usize))
    }

    fn of(line: &[u8], args: &mut Args) -> Option<Record> {
        let words: [&[u8]; 2] = array::from_fn(|k| script::words::word(line, k));
        match words.get(..script::words::count(line))? {
            [b"codes"] => Some(Record::Codes),
            [b"violation", n] => Record::violation(n),
            [word, hex] => Record::bytes(word, hex, args),
            _ => None,
        }
    }

    // The lines of a record, without the end of the last. The store that it lays bytes over is filled with the byte ee.
    fn lines(self, line: &[u8], args: &[u8], text: &mut Text<'_>) {
        let mut store = [0xee; 64];
        match self {
            Record::Codes => codes::runs(text),
            Record::Violation(n) => {
                text.put(line);
                stored::violation(n, &mut store, text);
            }
            Record::Bytes(kind, n) => {
                text.put(line);
                kind.answer(input::front(args, n), &mut store, text);
            }
        }
    }
}

// Answers a line; None, and nothing is said, where it is no record.
fn answer(line: &[u8], args: &mut Args, text: &mut Text<'_>) -> Option<()> {
    let record = Record::of(line, args)?;
    record.lines(line, args, text);
    text.put(b"\n");
    Some(())
}

// Writes what is answered so far. Kept: here and in `drive`, see there.
fn write_out(rt: &impl Print, text: &mut Text<'_>) -> io::Result<()> {
    let at = text.at;
    rt.write_all(input::front(text.store, at))?;
    text.at = 0;
    Ok(())
}

// More bytes are wanted. Where a read fails, what is answered so far is written, and the failure ends the run.
fn more(
    rt: &(impl Input + Print),
    window: Window,
    bytes: &mut Bytes,
    text: &mut Text<'_>,
) -> io::Result<Window> {
    match window.refill(&mut rt.reader(), bytes) {
        Ok(refilled) => Ok(refilled),
        Err(_) => {
            write_out(rt, text)?;
            Err(io::Error::other("the records can't be read"))
        }
    }
}

// One turn; the window behind it, or None where the run is over.
fn turn(
    rt: &(impl Input + Print),
    window: Window,
    bytes: &mut Bytes,
    args: &mut Args,
    text: &mut Text<'_>,
) -> io::Result<Option<Window>> {
    let answered = match window.next_line(bytes, LONGEST) {
        Next::Line(n) => answer(input::front(window.shown(bytes), n), args, text).map(|()| n),
        Next::More => return Ok(Some(more(rt, window, bytes, text)?)),
        Next::Long => None,
        Next::End => return Ok(None),
    };
    match answered {
        Some(n) => Ok(Some(window.used(input::sum(n, 1)))),
        None => {
            text.put(b"bad record\n");
            Ok(None)
        }
    }
}

// The answers are written out once they fill half their room, which leaves more than a record's lines take.
// Kept: the loop counts its turns, up to a number that no run uses up, since a proved loop has to end and nothing says that the input does.
fn run(
    rt: &(impl Input + Print),
    bytes: &mut Bytes,
    args: &mut Args,
    text: &mut Text<'_>,
) -> io::Result<()> {
    let mut window = input::none();
    for _ in 0..u64::MAX {
        let Some(behind) = turn(rt, window, bytes, args, text)? else {
            break;
        };
        window = behind;
        if 32768 <= text.at {
            write_out(rt, text)?;
        }
    }
    write_out(rt, text)
}

fn main(rt: HostRuntime) -> io::Result<()> {
    let mut bytes = [0u8; 65536];
    let mut args = [0u8; 255];
    let mut store = [0u8; 65536];
    let mut text = Text {
        store: &mut store,
        at: 0,
    };
    run(&rt, &mut bytes, &mut args, &mut text)
}
