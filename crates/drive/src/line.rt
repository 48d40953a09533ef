// A line understood: what it asks for, with its arguments. All of it is tested here but for what hangs on what there is: whether there is a
// session, and whether the bytes given have room.
use crate::fields::Field;
use crate::room::Store;
use session::{Masks, Role};
use std::array;

// Where HEX may be long, a line has how many bytes are given, which then are at the front of the room for them.
#[derive(Clone, Copy)]
pub(crate) enum Line {
    // begins with #
    Passed,
    Session(Asked),
    UntilRefused,
    Order(Order),
}

// What is asked of a session.
#[derive(Clone, Copy)]
pub(crate) enum Order {
    Call(Call),
    Lend {
        message: usize,
        control: usize,
        output: usize,
    },
    Lay {
        store: Store,
        at: usize,
        given: usize,
    },
    Masks(Masks),
    Keep(bool),
    Set(Field),
    Held,
    Waits,
    State,
    Stores,
}

// The session that is asked for.
#[derive(Clone, Copy)]
pub(crate) struct Asked {
    pub(crate) role: Role,
    pub(crate) frame: usize,
    pub(crate) message: usize,
    pub(crate) unmasked: bool,
}

// The calls, which `until refused` speaks of.
#[derive(Clone, Copy)]
pub(crate) enum Call {
    Read { given: usize, end: bool },
    Call { given: usize, end: bool },
    All { given: usize, end: bool },
    Send(Sending, usize),
    Take(usize),
}

#[derive(Clone, Copy)]
pub(crate) enum Sending {
    Text,
    Binary,
    Ping,
    Pong,
    Close,
}

// A number.
pub(crate) fn number(word: &[u8]) -> Option<usize> {
    script::values::decimal(word).map(|n| n as usize)
}

// How many bytes HEX has, which are laid over the front of the room.
fn hex(word: &[u8], room: &mut [u8]) -> Option<usize> {
    script::values::hex(word, room).map(|n| n as usize)
}

// The bytes of HEX that has so many.
pub(crate) fn bytes<const N: usize>(word: &[u8]) -> Option<[u8; N]> {
    let mut bytes = [0; N];
    (hex(word, &mut bytes)? == N).then_some(bytes)
}

pub(crate) fn flag(word: &[u8]) -> Option<bool> {
    match word {
        b"0" => Some(false),
        b"1" => Some(true),
        _ => None,
    }
}

fn role(word: &[u8]) -> Option<Role> {
    let place = script::words::place(b"server client", word)?;
    [Role::Server, Role::Client].get(place).copied()
}

fn masks(word: &[u8]) -> Option<Masks> {
    let [a, b, c, d, e, f, g, h] = bytes::<8>(word)?;
    Some(Masks {
        first: [a, b, c, d],
        second: [e, f, g, h],
    })
}

impl Asked {
    fn of(name: &[u8], frame: &[u8], message: &[u8], unmasked: &[u8]) -> Option<Asked> {
        Some(Asked {
            role: role(name)?,
            frame: number(frame)?,
            message: number(message)?,
            unmasked: flag(unmasked)?,
        })
    }
}

// A close: none, or a code of two bytes and a reason.
fn closing(word: &[u8], room: &mut [u8]) -> Option<Call> {
    match hex(word, room)? {
        1 => None,
        n => Some(Call::Send(Sending::Close, n)),
    }
}

impl Call {
    fn of(words: &[&[u8]], room: &mut [u8]) -> Option<Call> {
        match words {
            [b"read", word, end] => Some(Call::Read {
                given: hex(word, room)?,
                end: flag(end)?,
            }),
            [b"call", word, end] => Some(Call::Call {
                given: hex(word, room)?,
                end: flag(end)?,
            }),
            [b"all", word, end] => Some(Call::All {
                given: hex(word, room)?,
                end: flag(end)?,
            }),
            [b"text", word] => Some(Call::Send(Sending::Text, hex(word, room)?)),
            [b"binary", word] => Some(Call::Send(Sending::Binary, hex(word, room)?)),
            [b"ping", word] => Some(Call::Send(Sending::Ping, hex(word, room)?)),
            [b"pong", word] => Some(Call::Send(Sending::Pong, hex(word, room)?)),
            [b"close", word] => closing(word, room),
            [b"take", n] => Some(Call::Take(number(n)?)),
            _ => None,
        }
    }
}

impl Order {
    // The bytes of HEX are laid over the front of the room.
    fn of(words: &[&[u8]], room: &mut [u8]) -> Option<Order> {
        match words {
            [b"lend", message, control, output] => Some(Order::Lend {
                message: number(message)?,
                control: number(control)?,
                output: number(output)?,
            }),
            [b"lay", store, at, word] => Some(Order::Lay {
                store: Store::named(store)?,
                at: number(at)?,
                given: hex(word, room)?,
            }),
            [b"masks", word] => Some(Order::Masks(masks(word)?)),
            [b"keep", kept] => Some(Order::Keep(flag(kept)?)),
            [b"set", field, value] => Some(Order::Set(Field::of(field, value)?)),
            [b"held"] => Some(Order::Held),
            [b"waits"] => Some(Order::Waits),
            [b"state"] => Some(Order::State),
            [b"stores"] => Some(Order::Stores),
            _ => Some(Order::Call(Call::of(words, room)?)),
        }
    }
}

fn understood(words: &[&[u8]], room: &mut [u8]) -> Option<Line> {
    match words {
        [b"session", role, frame, message, unmasked] => {
            Some(Line::Session(Asked::of(role, frame, message, unmasked)?))
        }
        [b"until", b"refused"] => Some(Line::UntilRefused),
        _ => Some(Line::Order(Order::of(words, room)?)),
    }
}

impl Line {
    // A line, without its line feed.
    pub(crate) fn of(line: &[u8], room: &mut [u8]) -> Option<Line> {
        if line.first() == Some(&b'#') {
            return Some(Line::Passed);
        }
        let n = script::words::count(line);
        // A word behind the last is not looked for, which would be another way through a long line.
        let words: [&[u8]; 5] = array::from_fn(|k| {
            if k < n {
                script::words::word(line, k)
            } else {
                &[]
            }
        });
        understood(words.get(..n)?, room)
    }
}
