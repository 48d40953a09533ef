// Replays a capture from standard input and writes its listing to standard output (document 01, "Replay of a capture"). It only passes
// bytes on: the steps of `capture` make the listing. A write that fails ends the run, as main's error.
#![tactic(auto)]

use capture::step::{Came, Replay};
use input::Window;
use std::io;
use std::ops::ControlFlow;

// The lines so far, which are written in large blocks, and the place behind them. The longest line has room in it twice.
// Kept: the two stand side by side, since a step of `capture` lays its line at a place of a store. They are no part of a run: what is shown in
// a line and the line itself lie then in two arrays, which the compiler knows to be apart, and a byte's digits are vector code.
#[derive(Drop)]
struct Lines {
    bytes: [u8; 131200],
    at: usize,
}

impl Lines {
    fn none() -> Lines {
        Lines {
            bytes: [0; 131200],
            at: 0,
        }
    }

    // Another line of so many bytes.
    fn add(&mut self, n: usize) {
        self.at = input::sum(self.at, n);
    }

    // Writes them.
    fn write(&mut self, rt: &impl Print) -> io::Result<()> {
        let written = rt.write_all(input::front(&self.bytes, self.at));
        self.at = 0;
        written
    }
}

// A replay under way.
#[derive(Drop)]
struct Run {
    replay: Replay,
    // the window on the file's bytes that were read and are not used yet. A record has at most 65,539, so there is room wherever more is
    // wanted
    bytes: [u8; 131072],
    window: Window,
    message: [u8; 32768],
    control: [u8; 125],
    output: [u8; 131],
}

impl Run {
    fn new() -> Run {
        Run {
            replay: capture::step::begin(),
            bytes: [0; 131072],
            window: input::none(),
            message: [0; 32768],
            control: [0; 125],
            output: [0; 131],
        }
    }

    // More bytes of the file are wanted. A read that fails is not the file's end: the listing then has no last line, and it is said.
    fn more(
        &mut self,
        lines: &mut Lines,
        rt: &(impl Input + Print + Eprint),
    ) -> io::Result<ControlFlow<()>> {
        if let Ok(window) = self.window.refill(&mut rt.reader(), &mut self.bytes) {
            self.window = window;
            return Ok(ControlFlow::Continue(()));
        }
        let written = lines.write(rt);
        // where that can't be said either, the listing still has no last line
        let _ = rt.eprintln("replay: the capture can't be read");
        written?;
        Ok(ControlFlow::Break(()))
    }

    // One step, and what follows it.
    fn turn(
        &mut self,
        lines: &mut Lines,
        rt: &(impl Input + Print + Eprint),
    ) -> io::Result<ControlFlow<()>> {
        let stepped = capture::step::step(
            self.replay,
            self.window.shown(&self.bytes),
            self.window.ended,
            &mut self.message,
            &mut self.control,
            &mut self.output,
            &mut lines.bytes,
            lines.at,
        );
        self.replay = stepped.replay;
        self.window = self.window.used(stepped.used);
        match stepped.came {
            Came::Lacking => self.more(lines, rt),
            Came::Full => {
                lines.write(rt)?;
                Ok(ControlFlow::Continue(()))
            }
            Came::Line(n) => {
                lines.add(n);
                Ok(ControlFlow::Continue(()))
            }
            Came::Last(n) => {
                lines.add(n);
                lines.write(rt)?;
                Ok(ControlFlow::Break(()))
            }
        }
    }

    // Steps to the listing's end.
    // Kept: the loop counts its turns, up to a number that no run uses up, since a proved loop has to end and nothing says that the input
    // does.
    fn to_end(&mut self, lines: &mut Lines, rt: &(impl Input + Print + Eprint)) -> io::Result<()> {
        for _ in 0..u64::MAX {
            if self.turn(lines, rt)?.is_break() {
                break;
            }
        }
        Ok(())
    }
}

fn main(rt: HostRuntime) -> io::Result<()> {
    Run::new().to_end(&mut Lines::none(), &rt)
}
