// The refusals of a reader.
ghost use Rattle.std.specs.Prelude.{◌≡◌, Some};
ghost use Rattle.reader.specs.Faults.{number_of, place_of, finder_of, shown_of};

use std::error::Error;
use std::fmt;

/// Why a reader draws no challenge, or does not accept an answer.
#[derive(Clone, Copy, PartialEq, Eq, Debug)]
pub enum ReaderFault {
    /// There is no such queue.
    NoQueue(u8),
    /// This queue was asked for position 0, which no notice has.
    PositionZero(u8),
    /// The working area has fewer than 64 bytes.
    ShortWorkingArea,
    /// The answer has not the length that its first three bytes give.
    WrongLength,
    /// The kind does not answer the question, or its statements or its text are not of that kind.
    WrongForm,
    /// The tag of this statement is not the dongle's.
    WrongTag(u8),
    /// This statement is of another dongle or another counter.
    WrongOrigin(u8),
    /// This status was not asked for by the challenge.
    WrongNonce(u8),
    /// The numbers of this statement do not show what the kind says.
    WrongNumbers(u8),
    /// The matter of this advance is not the digest of the notice.
    WrongDigest(u8),
}

impl ReaderFault {
    /// The number of the refusal.
    pub fn number(&self) -> u32
        ensures answers { result ≡ number_of self.now }
    {
        match self {
            ReaderFault::ShortWorkingArea => 5,
            ReaderFault::NoQueue(_) => 10,
            ReaderFault::PositionZero(_) => 14,
            ReaderFault::WrongLength => 16,
            ReaderFault::WrongForm => 17,
            ReaderFault::WrongTag(_) => 18,
            ReaderFault::WrongOrigin(_) => 19,
            ReaderFault::WrongNonce(_) => 20,
            ReaderFault::WrongNumbers(_) => 21,
            ReaderFault::WrongDigest(_) => 22,
        }
    }

    /// The queue of a challenge, the statement of an answer counted from 0, else 0: what is printed of a fault always names a
    /// place.
    pub fn place(&self) -> u32
        ensures answers { result ≡ place_of self.now }
    {
        match self {
            ReaderFault::ShortWorkingArea | ReaderFault::WrongLength | ReaderFault::WrongForm => 0,
            ReaderFault::NoQueue(queue) | ReaderFault::PositionZero(queue) => u32::from(*queue),
            ReaderFault::WrongTag(statement)
            | ReaderFault::WrongOrigin(statement)
            | ReaderFault::WrongNonce(statement)
            | ReaderFault::WrongNumbers(statement)
            | ReaderFault::WrongDigest(statement) => u32::from(*statement),
        }
    }

    /// Who found it.
    pub fn finder(&self) -> &'static str
        ensures answers { result.now ≡ finder_of self.now }
    {
        "reader"
    }
}

// Each part words its own refusals: digest and bank stand on nothing, so no crate below them could say it once.
impl fmt::Display for ReaderFault {
    ghost output = { λ fault. Some (shown_of fault) };

    fn fmt<W: fmt::Write>(&self, f: &mut fmt::Formatter<W>) -> fmt::Result {
        let number = self.number();
        let finder = self.finder();
        let place = self.place();
        write!(f, "refused {number} by {finder} at {place}")
    }
}

impl Error for ReaderFault {}
