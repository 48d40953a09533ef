// Reads a script of calls from standard input, makes them, and writes a line for each (docs/DRIVE.md). It has no rule of its own: every
// answer is that of a public call. A write that fails ends the run, as main's error.
#![tactic(auto)]

mod calls;
mod fields;
mod held;
mod line;
mod room;
mod shows;
mod state;
mod told;

use crate::state::State;
use input::{Next, Window};
use script::answers::Text;
use std::io;
use std::ops::ControlFlow;

// The longest line, without its line feed.
const LONGEST: usize = 300100;

// The script.
#[derive(Drop)]
struct Script {
    // the window on the bytes that were read and are not used yet: the longest line, its line feed, and room to read behind them
    bytes: [u8; 327680],
    window: Window,
    // how many lines are behind it
    lines: u64,
}

impl Script {
    fn new() -> Script {
        Script {
            bytes: [0; 327680],
            window: input::none(),
            lines: 0,
        }
    }

    fn next(&self) -> Next {
        self.window.next_line(&self.bytes, LONGEST)
    }

    // The line under way, of n bytes.
    fn line(&self, n: usize) -> &[u8] {
        input::front(self.window.shown(&self.bytes), n)
    }

    // Goes on behind a line of n bytes and its line feed.
    fn pass(&mut self, n: usize) {
        self.window = self.window.used(input::sum(n, 1));
        self.lines = self.lines.wrapping_add(1);
    }
}

// A script that is run, and what it has made so far.
#[derive(Drop)]
struct Run {
    script: Script,
    state: State,
}

// Writes the answers so far. Kept: here and in `vectors`. As a method of script's cursor it promised nothing of the cursor's bytes: that they
// stay was not proved behind a write that may fail.
fn write(rt: &impl Print, text: &mut Text<'_>) -> io::Result<()> {
    let at = text.at;
    rt.write_all(input::front(text.store, at))?;
    text.at = 0;
    Ok(())
}

impl Run {
    fn new() -> Run {
        Run {
            script: Script::new(),
            state: State::new(),
        }
    }

    // More bytes of the script are wanted. The answers are written first: whoever writes the script may wait for them. A read that fails is
    // not the script's end: the line that it would have given is bad, and it is said.
    fn more(
        &mut self,
        rt: &(impl Input + Print + Eprint),
        text: &mut Text<'_>,
    ) -> io::Result<ControlFlow<()>> {
        write(rt, text)?;
        let script = &mut self.script;
        if let Ok(window) = script.window.refill(&mut rt.reader(), &mut script.bytes) {
            script.window = window;
            return Ok(ControlFlow::Continue(()));
        }
        // where that can't be said, the answer still is that the line is bad
        let _ = rt.eprintln("drive: the script can't be read");
        Ok(self.bad(text))
    }

    // The line under way is bad, which ends the run.
    fn bad(&self, text: &mut Text<'_>) -> ControlFlow<()> {
        let line = self.script.lines.wrapping_add(1);
        told::counted(text, b"bad line", line);
        text.put(b"\n");
        ControlFlow::Break(())
    }

    // One turn: another read of `all`, a line, or more of the script.
    fn turn(
        &mut self,
        rt: &(impl Input + Print + Eprint),
        text: &mut Text<'_>,
    ) -> io::Result<ControlFlow<()>> {
        if self.state.reads_again(text) {
            return Ok(ControlFlow::Continue(()));
        }
        match self.script.next() {
            Next::Line(n) => {
                if self.state.line(self.script.line(n), text).is_none() {
                    return Ok(self.bad(text));
                }
                self.script.pass(n);
                Ok(ControlFlow::Continue(()))
            }
            Next::Long => Ok(self.bad(text)),
            Next::More => self.more(rt, text),
            Next::End => Ok(ControlFlow::Break(())),
        }
    }

    // Turns to the script's end. The answers are written out once they fill an eighth of their room: what is left has room for those of
    // the longest turn, of `stores` that shows 70,000 bytes, 256 and 140,000.
    // Kept: the loop counts its turns, up to a number that no run uses up, since a proved loop has to end and nothing says that the script
    // does.
    fn to_end(
        &mut self,
        rt: &(impl Input + Print + Eprint),
        text: &mut Text<'_>,
    ) -> io::Result<()> {
        for _ in 0..u64::MAX {
            let turned = self.turn(rt, text)?;
            if 65536 <= text.at {
                write(rt, text)?;
            }
            if turned.is_break() {
                break;
            }
        }
        write(rt, text)
    }
}

// Kept: the array is lent to it, since a slice of it where it is made is more than the check can follow.
fn drive(rt: &(impl Input + Print + Eprint), answers: &mut [u8; 524288]) -> io::Result<()> {
    let mut text = Text {
        store: answers,
        at: 0,
    };
    Run::new().to_end(rt, &mut text)
}

fn main(rt: HostRuntime) -> io::Result<()> {
    drive(&rt, &mut [0; 524288])
}
