// A statement and a signed statement, by their fields.
ghost use Rattle.std.specs.Prelude.{◌≡◌};
ghost use Rattle.statement.specs.Layout.{is_advance, is_status};

/// The bytes of a dongle's identity, with which a statement begins.
pub const IDENTITY_SIZE: usize = 8;

/// The bytes of a statement's matter.
pub const MATTER_SIZE: usize = 32;

/// The bytes of a tag.
pub const TAG_SIZE: usize = 32;

/// Where a statement has its counter, one byte.
pub const COUNTER_AT: usize = IDENTITY_SIZE;

/// Where a statement has the old number, four bytes.
pub const OLD_AT: usize = COUNTER_AT + 1;

/// Where a statement has the new number, four bytes.
pub const NEW_AT: usize = OLD_AT + 4;

/// Where a statement has its matter.
pub const MATTER_AT: usize = NEW_AT + 4;

/// The bytes of a statement: identity, counter, old, new and matter.
pub const STATEMENT_SIZE: usize = MATTER_AT + MATTER_SIZE;

/// The bytes of a signed statement: the statement, then its tag.
pub const SIGNED_STATEMENT_SIZE: usize = STATEMENT_SIZE + TAG_SIZE;

/// A counter of the dongle called `identity` went from `old` to `new`, or stands there where the two are equal.
#[derive(Clone, Copy, Debug, Default, PartialEq, Eq)]
pub struct Statement {
    pub identity: [u8; IDENTITY_SIZE],
    pub counter: u8,
    pub old: u32,
    pub new: u32,
    pub matter: [u8; MATTER_SIZE],
}

/// A statement, and the tag over its bytes by the dongle's key.
#[derive(Clone, Copy, Debug, Default, Eq, PartialEq)]
pub struct SignedStatement {
    pub statement: Statement,
    pub tag: [u8; TAG_SIZE],
}

impl Statement {
    /// Whether the counter rose.
    pub fn is_advance(&self) -> bool
        ensures answers { result ≡ is_advance self.now }
    {
        self.old < self.new
    }

    /// Whether the counter only stands.
    pub fn is_status(&self) -> bool
        ensures answers { result ≡ is_status self.now }
    {
        self.old == self.new
    }
}
