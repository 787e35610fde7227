// Scripts: lines, words, numbers and byte strings as people write them, read and printed.
#![tactic(auto)]

pub mod bad;
pub mod bytes;
pub mod lines;
pub mod number;
pub mod runs;
pub mod show;
pub mod words;
