// What every bank of counters does: sixteen numbers that only rise, up to a limit.
ghost use Rattle.std.specs.Prelude.{◌≡◌, ℕ, List};
ghost use Rattle.bank.specs.Bank.{Sound, telling, rising, raising, raised};

use crate::fault::BankFault;

/// How many counters a bank has.
pub(crate) const COUNTERS: usize = 16;

/// The last of them.
pub(crate) const LAST_COUNTER: u8 = 15;

/// The highest limit that a bank may have.
pub(crate) const HIGHEST_LIMIT: u32 = 4_000_000_000;

/// Sixteen numbers, counters 0 to 15, and a limit that none of them exceeds.
pub trait Bank {
    // The sixteen numbers, and the limit.
    ghost numbers: { Self → List ℕ };

    ghost bound: { Self → ℕ };

    /// A counter's number.
    fn value(&self, counter: u8) -> Result<u32, BankFault>
        ensures answers { result ≡ telling (numbers self.now) counter };

    /// Sets one counter to a higher number, up to the limit.
    fn raise(&mut self, counter: u8, to: u32) -> Result<(), BankFault>
        ensures answers { result ≡ raising (bound self.old) (numbers self.old) counter to }
        ensures becomes { numbers self.new ≡ raised (bound self.old) (numbers self.old) counter to }
        ensures keeps { bound self.new ≡ bound self.old };

    /// The number that no counter exceeds.
    fn limit(&self) -> u32
        ensures answers { result ≡ bound self.now };

    // There are sixteen, none above the limit.
    ghost sound: { (b : Self) → Sound (numbers b) (bound b) };
}

/// Whether a counter may go from its old number to a new one, the refusals in their order.
pub(crate) fn rises(limit: u32, old: u32, counter: u8, to: u32) -> Result<(), BankFault>
    ensures answers { result ≡ rising limit old counter to }
{
    if to <= old {
        return Err(BankFault::NotHigher(counter));
    }
    if to > limit {
        return Err(BankFault::AboveLimit(counter));
    }
    Ok(())
}
