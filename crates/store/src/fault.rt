// What a store refuses: the cases, their numbers, places and finder.
ghost use Rattle.std.specs.Prelude.{◌≡◌, Some};
ghost use Rattle.store.specs.Faults.{number_of, place_of, finder_of, shown_of};

use std::error::Error;
use std::fmt;

/// Why a store did not do what it was asked.
#[derive(Clone, Copy, PartialEq, Eq, Debug)]
pub enum StoreFault {
    /// These bytes are no record of the high counter of a queue.
    BadRecord,
    /// A position of this counter's queue is already spanned.
    AlreadySpanned(u8),
    /// The record of this counter does not fit.
    DoesNotFit(u8),
    /// The lent area, or the number of rows, is not one that the store can use.
    WrongArea,
    /// The area lent for a record is too short.
    ShortArea,
}

impl StoreFault {
    /// The number that stands for this fault.
    pub fn number(&self) -> u32
        ensures answers { result ≡ number_of self.now }
    {
        match self {
            StoreFault::BadRecord => 7,
            StoreFault::AlreadySpanned(_) => 8,
            StoreFault::DoesNotFit(_) => 9,
            StoreFault::WrongArea => 6,
            StoreFault::ShortArea => 15,
        }
    }

    /// The counter of the record, 0 where none is meant: what is printed of a fault always names a place.
    pub fn place(&self) -> u32
        ensures answers { result ≡ place_of self.now }
    {
        match self {
            StoreFault::AlreadySpanned(counter) | StoreFault::DoesNotFit(counter) => {
                u32::from(*counter)
            }
            StoreFault::BadRecord | StoreFault::WrongArea | StoreFault::ShortArea => 0,
        }
    }

    /// Who found it.
    pub fn finder(&self) -> &'static str
        ensures answers { result.now ≡ finder_of self.now }
    {
        "store"
    }
}

// Each part words its own refusals: digest and bank stand on nothing, so no crate below them could say it once.
impl fmt::Display for StoreFault {
    ghost output = { λ x. Some (shown_of x) };

    fn fmt<W: fmt::Write>(&self, f: &mut fmt::Formatter<W>) -> fmt::Result {
        let number = self.number();
        let finder = self.finder();
        let place = self.place();
        write!(f, "refused {number} by {finder} at {place}")
    }
}

impl Error for StoreFault {}
