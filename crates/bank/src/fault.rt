// What a bank refuses: the cases, their numbers, places and finder.
ghost use Rattle.std.specs.Prelude.{◌≡◌, Some};
ghost use Rattle.bank.specs.Faults.{number_of, place_of, finder_of, shown_of};

use std::error::Error;
use std::fmt;

/// Why a bank did not do what it was asked.
#[derive(Clone, Copy, PartialEq, Eq, Debug)]
pub enum BankFault {
    /// There is no such counter.
    NoCounter(u8),
    /// The new number of this counter is at or below the old.
    NotHigher(u8),
    /// The new number of this counter is above the limit.
    AboveLimit(u8),
    /// The lent area is not one that the bank can use.
    WrongArea,
}

impl BankFault {
    /// The number that stands for this fault.
    pub fn number(&self) -> u32
        ensures answers { result ≡ number_of self.now }
    {
        match self {
            BankFault::NoCounter(_) => 2,
            BankFault::NotHigher(_) => 3,
            BankFault::AboveLimit(_) => 4,
            BankFault::WrongArea => 6,
        }
    }

    /// The counter that was asked for, also one above 15, 0 for an area: what is printed of a fault always names a place.
    pub fn place(&self) -> u32
        ensures answers { result ≡ place_of self.now }
    {
        match self {
            BankFault::NoCounter(counter)
            | BankFault::NotHigher(counter)
            | BankFault::AboveLimit(counter) => u32::from(*counter),
            BankFault::WrongArea => 0,
        }
    }

    /// Who found it.
    pub fn finder(&self) -> &'static str
        ensures answers { result.now ≡ finder_of self.now }
    {
        "bank"
    }
}

// Each part words its own refusals: digest and bank stand on nothing, so no crate below them could say it once.
impl fmt::Display for BankFault {
    ghost output = { λ x. Some (shown_of x) };

    fn fmt<W: fmt::Write>(&self, f: &mut fmt::Formatter<W>) -> fmt::Result {
        let number = self.number();
        let finder = self.finder();
        let place = self.place();
        write!(f, "refused {number} by {finder} at {place}")
    }
}

impl Error for BankFault {}
