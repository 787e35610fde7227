// The second dongle: any dongle, and the latest statements that attest issued through it.
ghost use Rattle.std.specs.Prelude.{◌≡◌, [], length};
ghost use Rattle.std.specs.List.{slice_get};
ghost use Rattle.digest.specs.Wiped.{wiped};
ghost use Rattle.dongle.specs.Recent.{dongle_in, kept_in, kept_after, with_newest};
ghost use Rattle.dongle.specs.Trinket.{attesting, attested};

use crate::fault::DongleFault;
use crate::trinket::Dongle;
use arrayvec::ArrayVec;
use statement::SignedStatement;

/// How many statements are kept.
const KEPT: usize = 8;

/// A dongle, and the latest eight signed statements that attest issued through it, the newest first.
#[derive(Drop)]
pub struct SecondDongle<D> {
    inner: D,
    recent: ArrayVec<SignedStatement, KEPT>,
}

/// Keeps one more, and of nine the eight newest.
fn keep(recent: &mut ArrayVec<SignedStatement, KEPT>, newest: SignedStatement)
    ensures becomes { recent.new.items ≡ with_newest newest recent.old.items }
{
    if recent.is_full() {
        recent.pop();
    }
    recent.insert(0, newest);
}

impl<D: Dongle> SecondDongle<D> {
    /// Takes a dongle as it stands; nothing is kept yet.
    pub fn new(inner: D) -> Self
        ensures inner { dongle_in result ≡ inner }
        ensures empty { kept_in result ≡ [] }
    {
        SecondDongle {
            inner,
            recent: ArrayVec::new(),
        }
    }

    /// The statement that was issued k before the newest, or none where k or fewer are kept.
    pub fn recent(&self, k: usize) -> Option<SignedStatement>
        ensures answers { result ≡ slice_get (kept_in self.now) k }
    {
        self.recent.get(k).copied()
    }

    /// Lets this dongle go, and hands the one below back.
    pub fn into_inner(self) -> D
        ensures answers { result ≡ dongle_in self }
    {
        let SecondDongle { inner, recent } = self;
        drop(recent);
        inner
    }
}

impl<D: Dongle> Dongle for SecondDongle<D> {
    ghost model = { λ d. D.Dongle.model d.inner };

    ghost most = { λ d. D.Dongle.most d.inner };

    fn attest(
        &mut self,
        counter: u8,
        to: u32,
        matter: [u8; 32],
        working: &mut [u8],
    ) -> Result<SignedStatement, DongleFault>
        ensures answers { result ≡ attesting (D.Dongle.most (dongle_in self.old)) (D.Dongle.model (dongle_in self.old)) counter to matter (length working.old) }
        ensures becomes { D.Dongle.model (dongle_in self.new) ≡ attested (D.Dongle.most (dongle_in self.old)) (D.Dongle.model (dongle_in self.old)) counter to (length working.old) }
        ensures working { working.new ≡ wiped working.old }
        ensures keeps { D.Dongle.most (dongle_in self.new) ≡ D.Dongle.most (dongle_in self.old) }
        ensures recent { kept_in self.new ≡ kept_after result (kept_in self.old) }
    {
        let answer = self.inner.attest(counter, to, matter, working);
        if let Ok(signed) = answer {
            keep(&mut self.recent, signed);
        }
        answer
    }

    fn status(
        &self,
        counter: u8,
        nonce: [u8; 32],
        working: &mut [u8],
    ) -> Result<SignedStatement, DongleFault> {
        self.inner.status(counter, nonce, working)
    }

    fn identity(&self) -> [u8; 8] {
        self.inner.identity()
    }

    fn limit(&self) -> u32 {
        self.inner.limit()
    }

    fn value(&self, counter: u8) -> Result<u32, DongleFault> {
        self.inner.value(counter)
    }

    ghost whole = { λ d. D.Dongle.whole d.inner };
}
