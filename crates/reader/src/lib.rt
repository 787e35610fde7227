// A reader: he draws challenges, and checks an answer against each.
#![tactic(auto)]

mod check;
mod compare;
mod draw;
mod evidence;
mod fault;
mod layout;
mod rules;
mod types;

pub use fault::ReaderFault;
pub use types::{Asked, Challenge, Question, Reader, Verdict};
