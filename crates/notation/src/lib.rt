// Finished hands in the usual notation: an argument is split into words, and a word says tiles, a call, the win or its circumstances.
// Nothing is read from outside or written here.
#![tactic(auto)]

pub mod faults;
mod indicators;
mod pieces;
pub mod said;
mod seats;
