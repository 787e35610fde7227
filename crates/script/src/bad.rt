// What can be wrong with a line of a script.
ghost use Rattle.std.specs.Prelude.{◌≡◌, Some};
ghost use Rattle.script.specs.Reasons.{reason_of};
ghost use Rattle.script.specs.declared.bad.Stop.TheVariants.{Line, Memory};

use std::alloc::{AllocError, AllocFailed};
use std::error::Error;
use std::fmt;

/// What is wrong with a line.
#[derive(Clone, Copy, PartialEq, Eq, Debug)]
pub enum Bad {
    Command,
    WordCount,
    Word,
    Number,
    Range,
    Bytes,
    TooMany,
    Length,
}

impl Bad {
    /// The words of an error line.
    pub fn reason(&self) -> &'static str
        ensures answers { result.now ≡ reason_of self.now }
    {
        match *self {
            Bad::Command => "unknown command",
            Bad::WordCount => "wrong number of words",
            Bad::Word => "unknown word",
            Bad::Number => "bad number",
            Bad::Range => "number out of range",
            Bad::Bytes => "bad bytes",
            Bad::TooMany => "too many bytes",
            Bad::Length => "wrong length",
        }
    }
}

impl fmt::Display for Bad {
    ghost output = { λ bad. Some (reason_of bad) };

    fn fmt<W: fmt::Write>(&self, f: &mut fmt::Formatter<W>) -> fmt::Result {
        f.write_str(self.reason())
    }
}

impl Error for Bad {}

/// Why a line was not run: it is wrong, or there is no memory.
#[derive(Clone, Copy, PartialEq, Eq, Debug)]
pub enum Stop {
    Line(Bad),
    Memory,
}

impl From<Bad> for Stop {
    ghost from_gives = { λ bad stop. stop ≡ Line bad };

    fn from(bad: Bad) -> Stop {
        Stop::Line(bad)
    }
}

impl From<AllocError> for Stop {
    ghost from_gives = { λ _ stop. stop ≡ Memory };

    fn from(_none: AllocError) -> Stop {
        Stop::Memory
    }
}

impl<T: Drop> From<AllocFailed<T>> for Stop {
    ghost from_gives = { λ _ stop. stop ≡ Memory };

    fn from(_none: AllocFailed<T>) -> Stop {
        Stop::Memory
    }
}
