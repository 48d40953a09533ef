// Text in lent stores: numbers in decimal, bytes in hexadecimal, and the lines that a listing is made of (document 01, "Replay of a
// capture"). Each function lays its text over a store from place `at` on and gives the place behind it.
// Kept: the store and the place stay two parameters. They are those of `capture::step::step`, which hands them on for a line and needs the
// place behind it as a value: a cursor would be made there for each line and taken apart again.
#![tactic(auto)]

pub mod line;
pub mod number;
