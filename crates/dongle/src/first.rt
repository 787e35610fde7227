// The first dongle: over any bank.
ghost use Rattle.std.specs.Prelude.{◌≡◌, ℕ, length, slice_index};
ghost use Rattle.bank.specs.Bank.{raising, raised};
ghost use Rattle.dongle.specs.First.{trinket_over, whole_over};
ghost use Rattle.dongle.specs.Parts.{bank_in, identity_in, key_in};
ghost use Rattle.dongle.specs.Trinket.{passed_up};

use crate::fault::DongleFault;
use crate::sign::{Signer, number_of, state};
use crate::trinket::Dongle;
use bank::Bank;
use digest::{WORKING_SIZE, wipe};
use statement::SignedStatement;

/// A bank, and the signer of its numbers.
#[derive(Drop)]
pub struct FirstDongle<B> {
    bank: B,
    signer: Signer,
}

impl<B: Bank> FirstDongle<B> {
    /// Takes a bank as it stands.
    pub fn new(bank: B, id: [u8; 8], key: [u8; 32]) -> Self
        ensures bank { bank_in result ≡ bank }
        ensures identity { identity_in result ≡ id }
        ensures key { key_in result ≡ key }
    {
        FirstDongle {
            bank,
            signer: Signer::new(id, key),
        }
    }

    /// Lets the dongle go, and hands its bank back.
    pub fn into_bank(self) -> B
        ensures answers { result ≡ bank_in self }
    {
        let FirstDongle { bank, signer: _ } = self;
        bank
    }
}

/// Raises a counter, and tells the number at which it stood.
fn step<B: Bank>(bank: &mut B, counter: u8, to: u32) -> Result<u32, DongleFault>
    ensures answers { result ≡ passed_up (raising (B.Bank.bound bank.old) (B.Bank.numbers bank.old) counter to) (λ _. slice_index (B.Bank.numbers bank.old) counter) }
    ensures becomes { B.Bank.numbers bank.new ≡ raised (B.Bank.bound bank.old) (B.Bank.numbers bank.old) counter to }
    ensures keeps { B.Bank.bound bank.new ≡ B.Bank.bound bank.old }
{
    let old = bank.value(counter)?;
    bank.raise(counter, to)?;
    Ok(old)
}

impl<B: Bank> Dongle for FirstDongle<B> {
    ghost model = { λ d. trinket_over d.signer.identity d.signer.key (B.Bank.numbers d.bank) };

    ghost most = { λ d. B.Bank.bound d.bank };

    #[tactic(auto, using(crate::proofs::Wipes::wiped_again))]
    fn attest(
        &mut self,
        counter: u8,
        to: u32,
        matter: [u8; 32],
        working: &mut [u8],
    ) -> Result<SignedStatement, DongleFault> {
        wipe(working);
        if working.len() < WORKING_SIZE {
            return Err(DongleFault::ShortWorkingArea);
        }
        let old = step(&mut self.bank, counter, to)?;
        Ok(self.signer.sign(counter, old, to, matter, working))
    }

    fn status(
        &self,
        counter: u8,
        nonce: [u8; 32],
        working: &mut [u8],
    ) -> Result<SignedStatement, DongleFault> {
        state(&self.bank, &self.signer, counter, nonce, working)
    }

    fn identity(&self) -> [u8; 8] {
        self.signer.identity()
    }

    fn limit(&self) -> u32 {
        self.bank.limit()
    }

    fn value(&self, counter: u8) -> Result<u32, DongleFault> {
        number_of(&self.bank, counter)
    }

    ghost whole = { λ d. whole_over d.signer.identity d.signer.key (B.Bank.numbers d.bank) d.signer.identity_bytes d.signer.key_bytes (B.Bank.sound d.bank).sixteen };
}
