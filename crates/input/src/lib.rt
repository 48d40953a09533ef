// A window on what a program reads: the bytes that were read and are not used yet, those of a lent array from one place to another. No place
// is ever behind the array's end; the tests on places stand in for a proof of that.
#![tactic(auto)]

ghost use Rattle.std.specs.Prelude.{◌≡◌, ◌≤◌, length, take};
ghost use Rattle.input.specs.Window.{no_window, sum_of, shown_of, used_of, next_of};

use std::io;
use std::io::Read;

// No array is longer.
const LONGEST: usize = 4294967296;

#[derive(Clone, Copy)]
pub struct Window {
    pub from: usize,
    pub to: usize,
    // the input ends behind them
    pub ended: bool,
}

// What the bytes of a window begin with.
#[derive(Clone, Copy)]
pub enum Next {
    // a line of so many bytes, without its line feed
    Line(usize),
    // one that is too long
    Long,
    // one that is not whole yet
    More,
    // nothing: the input is over
    End,
}

pub fn none() -> Window
    ensures { result ≡ no_window }
{
    Window {
        from: 0,
        to: 0,
        ended: false,
    }
}

// The first n bytes.
pub fn front(all: &[u8], n: usize) -> &[u8]
    ensures { (result.now ≡ take n all.now) × (result.ref_ptr ≡ all.entry.ref_ptr) }
{
    &all[..n.min(all.len())]
}

// The sum of two places in an array.
// Kept: no `saturating_add`, since `sum_of` promises the first of two numbers that no array has as places.
pub fn sum(a: usize, b: usize) -> usize
    ensures { result ≡ sum_of a b }
{
    if a <= LONGEST && b <= LONGEST {
        a + b
    } else {
        a
    }
}

impl Window {
    pub fn shown(self, bytes: &[u8]) -> &[u8]
        ensures { result.now ≡ shown_of bytes.now self }
    {
        bytes.get(self.from..self.to).unwrap_or(&[])
    }

    pub fn used(self, n: usize) -> Window
        ensures { result ≡ used_of self n }
    {
        Window {
            from: sum(self.from, n),
            ..self
        }
    }

    // The line that the window's bytes begin with. At the input's end a line may lack its line feed.
    pub fn next_line(self, bytes: &[u8], longest: usize) -> Next
        ensures { result ≡ next_of bytes.now self longest }
    {
        let shown = self.shown(bytes);
        match script::words::find(shown, b'\n') {
            Some(n) if longest < n => Next::Long,
            Some(n) => Next::Line(n),
            None if longest < shown.len() => Next::Long,
            None if !self.ended => Next::More,
            None if shown.is_empty() => Next::End,
            None => Next::Line(shown.len()),
        }
    }

    // Moves what is left to the front and reads behind it. The array is to have room behind the longest that is waited for: where it has
    // none, the read gives no byte, which is taken for the input's end.
    pub fn refill<R: Read>(self, reader: &mut R, bytes: &mut [u8]) -> io::Result<Window> {
        if bytes.len() < self.to || self.to < self.from {
            return Ok(self);
        }
        stores::to_front(bytes, self.from, self.to);
        read_behind(reader, bytes, self.to - self.from)
    }
}

// Reads behind the bytes that are left, which stand at the front.
fn read_behind<R: Read>(reader: &mut R, bytes: &mut [u8], left: usize) -> io::Result<Window>
    requires { left ≤ length bytes.old }
{
    let n = reader.read(&mut bytes[left..])?;
    Ok(Window {
        from: 0,
        to: left + n,
        ended: n == 0,
    })
}
