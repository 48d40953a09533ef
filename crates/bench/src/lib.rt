// Loops over the public calls, for `./harrowlink speed` (docs/SPEED.md): a measuring program crosses the boundary once, and the calls are
// made from inside. These functions are there to be measured, so their contracts say no more than that they are safe and end; what the
// calls give is promised by their own crates, and the measuring program holds the counts that come out to the other side's.
//
// Compiled together, as bench_c exports them, these loops share the calls. bench_read and bench_binary have one loop each, as a program with
// one such loop has.
#![tactic(auto)]

pub mod leaves;
pub mod listings;
pub mod reads;
pub mod sends;
