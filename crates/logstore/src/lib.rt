// The log store: records end to end in a lent area.
#![tactic(auto)]

mod calls;
mod edit;
mod examples;
mod records;
mod types;

pub use examples::smallest_log_is_116_bytes;
pub use types::LogStore;
