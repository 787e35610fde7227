// What a digest and a tag refuse: the cases, their numbers, places and finder.
ghost use Rattle.std.specs.Prelude.{◌≡◌, Some};
ghost use Rattle.digest.specs.Faults.{number_of, place_of, finder_of, shown_of};

use std::error::Error;
use std::fmt;

/// Why a digest or a tag is refused.
#[derive(Clone, Copy, Debug, PartialEq, Eq)]
pub enum DigestFault {
    /// The message has more than 65,536 bytes.
    MessageTooLong,
    /// The key has more than 65,536 bytes.
    KeyTooLong,
    /// The working area has fewer than 64 bytes.
    ShortWorkingArea,
}

impl DigestFault {
    /// The number that stands for this fault.
    pub fn number(&self) -> u32
        ensures answers { result ≡ number_of self.now }
    {
        match self {
            DigestFault::MessageTooLong | DigestFault::KeyTooLong => 1,
            DigestFault::ShortWorkingArea => 5,
        }
    }

    /// What it is about, 0 the message or the working area, 1 the key: what is printed of a fault always names a place.
    pub fn place(&self) -> u32
        ensures answers { result ≡ place_of self.now }
    {
        match self {
            DigestFault::MessageTooLong | DigestFault::ShortWorkingArea => 0,
            DigestFault::KeyTooLong => 1,
        }
    }

    /// Who found it.
    pub fn finder(&self) -> &'static str
        ensures answers { result.now ≡ finder_of self.now }
    {
        "digest"
    }
}

// Each part words its own refusals: digest and bank stand on nothing, so no crate below them could say it once.
impl fmt::Display for DigestFault {
    ghost output = { λ fault. Some (shown_of fault) };

    fn fmt<W: fmt::Write>(&self, f: &mut fmt::Formatter<W>) -> fmt::Result {
        let number = self.number();
        let finder = self.finder();
        let place = self.place();
        write!(f, "refused {number} by {finder} at {place}")
    }
}

impl Error for DigestFault {}
