// Entry points in C's form, on numbers and byte areas, for the benchmark alone. What C has no type for, as a refusal, crosses
// as a number.
#![tactic(auto)]

mod banks;
mod digests;
mod readers;
mod stores;

pub use banks::{speed_tally_raise, speed_tally_value};
pub use digests::speed_digest;
pub use readers::speed_check;
pub use stores::{speed_log, speed_slots};
