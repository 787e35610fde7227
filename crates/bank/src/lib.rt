// Banks of sixteen counters that only rise, kept in an area that the caller lends.
#![tactic(auto)]

mod area_bank;
mod counters;
mod fault;
mod format;
mod tallies;
pub mod tally;
mod words;
mod worked;

pub use area_bank::AreaBank;
pub use counters::Bank;
pub use fault::BankFault;
pub use tallies::Tallies;
pub use words::Words;
pub use worked::{raises_by_the_rule, worked_examples_hold};

/// Sixteen words of 32 bits in an area of 64 bytes.
pub type WordBank<'a> = AreaBank<'a, Words>;

/// Sixteen tallies, each in a region of a sixteenth of the area.
pub type TallyBank<'a> = AreaBank<'a, Tallies>;

#[cfg(test)]
mod tests;
