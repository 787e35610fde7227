// What every dongle does.
ghost use Rattle.std.specs.Prelude.{◌≡◌, ℕ, ◌<◌, ◌≤◌, length};
ghost use Rattle.bank.specs.Bank.{counters, highest_limit};
ghost use Rattle.digest.specs.Wiped.{wiped};
ghost use Rattle.dongle.specs.Trinket.{Trinket, Whole, stands, valuing, attesting, attested, stating};

use crate::fault::DongleFault;
use statement::SignedStatement;

/// A trinket: an identity, a key and sixteen counters that only rise, up to a limit.
pub trait Dongle {
    ghost model: { Self → Trinket };

    ghost most: { Self → ℕ };

    /// Raises one counter, and signs the step.
    fn attest(
        &mut self,
        counter: u8,
        to: u32,
        matter: [u8; 32],
        working: &mut [u8],
    ) -> Result<SignedStatement, DongleFault>
        ensures answers { result ≡ attesting (most self.old) (model self.old) counter to matter (length working.old) }
        ensures becomes { model self.new ≡ attested (most self.old) (model self.old) counter to (length working.old) }
        ensures working { working.new ≡ wiped working.old }
        ensures keeps { most self.new ≡ most self.old };

    /// Signs where a counter stands, with a nonce.
    fn status(
        &self,
        counter: u8,
        nonce: [u8; 32],
        working: &mut [u8],
    ) -> Result<SignedStatement, DongleFault>
        ensures answers { result ≡ stating (model self.now) counter nonce (length working.old) }
        ensures working { working.new ≡ wiped working.old };

    fn identity(&self) -> [u8; 8]
        ensures answers { result ≡ (model self.now).identity };

    /// The number that no counter exceeds.
    fn limit(&self) -> u32
        ensures answers { result ≡ most self.now }
        ensures within { (c : ℕ) → c < counters → stands (model self.now) c ≤ result }
        ensures highest { result ≤ highest_limit };

    /// A counter's number, unsigned.
    fn value(&self, counter: u8) -> Result<u32, DongleFault>
        ensures answers { result ≡ valuing (model self.now) counter };

    ghost whole: { (d : Self) → Whole (model d) };
}
