// A dongle of another make, under code that knows only what every dongle does.
use crate::fault::DongleFault;
use crate::first::FirstDongle;
use crate::trinket::Dongle;
use bank::{Bank, BankFault, TallyBank, WordBank};
use statement::SignedStatement;

/// A dongle that counts how often it was pressed.
#[derive(Drop)]
struct Counting<D> {
    inner: D,
    presses: u32,
}

impl<D: Dongle> Dongle for Counting<D> {
    ghost model = { λ d. D.Dongle.model d.inner };

    ghost most = { λ d. D.Dongle.most d.inner };

    fn attest(
        &mut self,
        counter: u8,
        to: u32,
        matter: [u8; 32],
        working: &mut [u8],
    ) -> Result<SignedStatement, DongleFault> {
        self.presses = self.presses.saturating_add(1);
        self.inner.attest(counter, to, matter, working)
    }

    fn status(
        &self,
        counter: u8,
        nonce: [u8; 32],
        working: &mut [u8],
    ) -> Result<SignedStatement, DongleFault> {
        self.inner.status(counter, nonce, working)
    }

    fn identity(&self) -> [u8; 8] {
        self.inner.identity()
    }

    fn limit(&self) -> u32 {
        self.inner.limit()
    }

    fn value(&self, counter: u8) -> Result<u32, DongleFault> {
        self.inner.value(counter)
    }

    ghost whole = { λ d. D.Dongle.whole d.inner };
}

/// Raises counter 1 twice, tries the same number again, and answers where it then stands and what was refused.
fn climb<D: Dongle>(dongle: &mut D) -> Result<(u32, Option<DongleFault>), DongleFault> {
    let mut working = [0xff; 64];
    dongle.attest(1, 2, [1; 32], &mut working)?;
    dongle.attest(1, 5, [2; 32], &mut working)?;
    let refused = dongle.attest(1, 5, [3; 32], &mut working).err();
    let signed = dongle.status(1, [4; 32], &mut working)?;
    Ok((signed.statement.new, refused))
}

/// What a climb answers over a bank, and how often its dongle was pressed.
fn climb_over<B: Bank + Drop>(bank: B) -> Result<((u32, Option<DongleFault>), u32), DongleFault> {
    let first = FirstDongle::new(bank, [7; 8], [9; 32]);
    let mut counting = Counting {
        inner: first,
        presses: 0,
    };
    let end = climb(&mut counting)?;
    Ok((end, counting.presses))
}

#[test]
fn any_make_of_dongle_runs_over_either_bank(rt: HostRuntime) {
    let refused = Some(DongleFault::Bank(BankFault::NotHigher(1)));
    let mut words = [0; 64];
    assert_eq!(rt;
        climb_over(WordBank::open(&mut words)),
        Ok(((5, refused), 3))
    );
    let mut tallies = [0xff; 16];
    assert_eq!(rt;
        climb_over(TallyBank::open(&mut tallies)),
        Ok(((5, refused), 3))
    );
}
