// What a referee asks about a score: the parts of the fu, why a flag did not count, and what decided between two readings.
#![tactic(auto)]

pub mod breakdown;
pub mod decided;
pub mod flags;
