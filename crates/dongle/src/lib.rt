// Dongles: counters that only rise, and signed statements of where they stand.
#![tactic(auto)]

mod fault;
mod first;
mod laws;
mod second;
mod sign;
mod trinket;

pub use fault::DongleFault;
pub use first::FirstDongle;
pub use laws::counters_are_monotonic_without_equivocation;
pub use second::SecondDongle;
pub use trinket::Dongle;

#[cfg(test)]
mod tests;
