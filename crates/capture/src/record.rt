// The records of a capture file.
ghost use Rattle.std.specs.Prelude.{◌≡◌};
ghost use Rattle.capture.specs.Records.{mark_of, short, input_in, found_in};

#[derive(Clone, Copy)]
pub enum Mark {
    Server,
    Client,
    Input,
    End,
}

// What the bytes of a file from a mark's place on begin with: a record that lacks bytes, which may still come; one that is cut short or
// has no mark; a role; a record of so many bytes of the stream; the end of the stream.
#[derive(Clone, Copy)]
pub enum Found {
    Lacking,
    Bad,
    Server,
    Client,
    Input(usize),
    End,
}

// The mark that two bytes are.
#[tactic(auto, unfolding(crate::specs::Records::mark_of))]
fn mark_of(first: u8, second: u8) -> Option<Mark>
    ensures { result ≡ mark_of first second }
{
    match (first, second) {
        (b'R', b'S') => Some(Mark::Server),
        (b'R', b'C') => Some(Mark::Client),
        (b'I', b'N') => Some(Mark::Input),
        (b'E', b'N') => Some(Mark::End),
        _ => None,
    }
}

// A record that is not all there.
#[tactic(auto, unfolding(crate::specs::Records::short))]
fn cut_short(ended: bool) -> Found
    ensures { result ≡ short ended }
{
    if ended { Found::Bad } else { Found::Lacking }
}

#[tactic(auto, unfolding(crate::specs::Records::input_in, crate::specs::Records::input_length))]
fn input(window: &[u8], ended: bool) -> Found
    ensures { result ≡ input_in window.now ended }
{
    let [_, _, high, low, bytes @ ..] = window else {
        return cut_short(ended);
    };
    let count = usize::from(u16::from_be_bytes([*high, *low]));
    if bytes.len() < count {
        return cut_short(ended);
    }
    Found::Input(count)
}

// What the file goes on with. `ended` says that no byte follows behind the window.
#[tactic(auto, unfolding(crate::specs::Records::found_in))]
pub fn find(window: &[u8], ended: bool) -> Found
    ensures { result ≡ found_in window.now ended }
{
    let [first, second, ..] = window else {
        return cut_short(ended);
    };
    match mark_of(*first, *second) {
        Some(Mark::Server) => Found::Server,
        Some(Mark::Client) => Found::Client,
        Some(Mark::Input) => input(window, ended),
        Some(Mark::End) => Found::End,
        None => Found::Bad,
    }
}
