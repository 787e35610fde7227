// What every store of records means, and its faults.
#![tactic(auto)]

mod admission;
mod fault;
mod interface;
mod laws;

pub use admission::admit;
pub use fault::StoreFault;
pub use interface::Store;
pub use laws::found_while_put_and_not_forgotten;
