// What a dongle refuses: the cases, their numbers, places and finders.
ghost use Rattle.std.specs.Prelude.{◌≡◌, Some};
ghost use Rattle.dongle.specs.declared.fault.DongleFault.TheVariants.{Bank};
ghost use Rattle.dongle.specs.Faults.{number_of, place_of, finder_of, shown_of};

use bank::BankFault;
use std::error::Error;
use std::fmt;

/// Why a dongle did not do what it was asked.
#[derive(Clone, Copy, Debug, PartialEq, Eq)]
pub enum DongleFault {
    /// The working area has fewer than 64 bytes.
    ShortWorkingArea,
    /// The bank refused.
    Bank(BankFault),
}

impl DongleFault {
    /// The number that stands for this fault.
    pub fn number(&self) -> u32
        ensures answers { result ≡ number_of self.now }
    {
        match self {
            DongleFault::ShortWorkingArea => 5,
            DongleFault::Bank(fault) => fault.number(),
        }
    }

    /// The place that the part that found it gives, 0 for the area: what is printed of a fault always names a place.
    pub fn place(&self) -> u32
        ensures answers { result ≡ place_of self.now }
    {
        match self {
            DongleFault::ShortWorkingArea => 0,
            DongleFault::Bank(fault) => fault.place(),
        }
    }

    /// Who found it.
    pub fn finder(&self) -> &'static str
        ensures answers { result.now ≡ finder_of self.now }
    {
        match self {
            DongleFault::ShortWorkingArea => "dongle",
            DongleFault::Bank(fault) => fault.finder(),
        }
    }
}

impl From<BankFault> for DongleFault {
    ghost from_gives = { λ b e. e ≡ Bank b };

    fn from(fault: BankFault) -> DongleFault {
        DongleFault::Bank(fault)
    }
}

// Each part words its own refusals: digest and bank stand on nothing, so no crate below them could say it once.
impl fmt::Display for DongleFault {
    ghost output = { λ fault. Some (shown_of fault) };

    fn fmt<W: fmt::Write>(&self, f: &mut fmt::Formatter<W>) -> fmt::Result {
        let number = self.number();
        let finder = self.finder();
        let place = self.place();
        write!(f, "refused {number} by {finder} at {place}")
    }
}

impl Error for DongleFault {}
