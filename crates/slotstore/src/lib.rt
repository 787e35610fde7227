// The slot store: records in slots of equal size, told by rows.
#![tactic(auto)]

mod parts;
mod row;
mod search;
mod slots;

pub use parts::{SLOT_LIMIT, SLOT_SIZE};
pub use row::Row;
pub use slots::SlotStore;
