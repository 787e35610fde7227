// What carries the text of a notice: records, answers, the digest rule's input, and their limits.
#![tactic(auto)]

mod answer;
mod input;
mod limits;
mod reading;
mod spans;
mod writer;

pub use answer::{AnswerHead, Kind, UnknownKind};
pub use input::write_input;
pub use limits::{
    ANSWER_HEAD, ANSWER_LIMIT, INPUT_HEAD, INPUT_LIMIT, PREVIOUS_SIZE, RECORD_HEAD, RECORD_LIMIT,
    TEXT_LIMIT,
};
pub use reading::Record;
pub use spans::Span;
pub use writer::write_record;
