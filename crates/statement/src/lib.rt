//! What a dongle signs: statements, signed statements and their bytes.
#![tactic(auto)]

mod area;
mod convert;
mod equality;
mod front;
mod types;

pub use area::{clear, put};
pub use equality::equal_where_every_field_is;
pub use front::Layout;
pub use types::{
    COUNTER_AT, IDENTITY_SIZE, MATTER_AT, MATTER_SIZE, NEW_AT, OLD_AT, SIGNED_STATEMENT_SIZE,
    STATEMENT_SIZE, SignedStatement, Statement, TAG_SIZE,
};
