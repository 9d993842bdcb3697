// Tiles, readings, yaku, waits and payments as text on standard output.
#![tactic(auto)]

pub mod names;
mod parts;
pub mod points;
pub mod print;
pub mod text;
