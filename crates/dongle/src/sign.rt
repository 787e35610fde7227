// Signing where a counter stands, or went to.
ghost use Rattle.std.specs.Prelude.{◌≡◌, ◌≤◌, [], length};
ghost use Rattle.digest.specs.Sizes.{block_size};
ghost use Rattle.digest.specs.Wiped.{wiped};
ghost use Rattle.bank.specs.Bank.{telling};
ghost use Rattle.dongle.specs.First.{trinket_over};
ghost use Rattle.dongle.specs.Trinket.{passed_up, signed, stating};

use crate::fault::DongleFault;
use bank::Bank;
use digest::{WORKING_SIZE, tag, wipe};
use statement::{STATEMENT_SIZE, SignedStatement, Statement};

/// An identity, and the key with which what it says is signed.
#[derive(Drop)]
pub(crate) struct Signer {
    identity: [u8; 8],
    key: [u8; 32],
    ghost identity_bytes: { length identity ≡ 8 },
    ghost key_bytes: { length key ≡ 32 },
}

impl Signer {
    pub(crate) fn new(id: [u8; 8], key: [u8; 32]) -> Signer
        ensures identity { result.identity ≡ id }
        ensures key { result.key ≡ key }
    {
        Signer { identity: id, key }
    }

    pub(crate) fn identity(&self) -> [u8; 8]
        ensures answers { result ≡ self.now.identity }
    {
        self.identity
    }

    /// Signs that a counter went from `old` to `new`, or stands there; the tag is made in the working area. A trinket's
    /// numbers play no part in what it signs, so the clause names none.
    pub(crate) fn sign(
        &self,
        counter: u8,
        old: u32,
        new: u32,
        matter: [u8; 32],
        working: &mut [u8],
    ) -> SignedStatement
        requires { block_size ≤ length working.old }
        ensures answers { result ≡ signed (trinket_over self.now.identity self.now.key []) counter old new matter }
        ensures working { working.new ≡ wiped working.old }
    {
        let statement = Statement {
            identity: self.identity,
            counter,
            old,
            new,
            matter,
        };
        let bytes: [u8; STATEMENT_SIZE] = statement.into();
        let tag = tag(&self.key, &bytes, working).unwrap();
        SignedStatement { statement, tag }
    }
}

/// A counter's number, a bank's refusal passed up whole.
pub(crate) fn number_of<B: Bank>(bank: &B, counter: u8) -> Result<u32, DongleFault>
    ensures answers { result ≡ passed_up (telling (B.Bank.numbers bank.now) counter) (λ n. n) }
{
    Ok(bank.value(counter)?)
}

/// Signs where a counter stands.
#[tactic(auto, using(crate::proofs::Wipes::wiped_again))]
pub(crate) fn state<B: Bank>(
    bank: &B,
    signer: &Signer,
    counter: u8,
    nonce: [u8; 32],
    working: &mut [u8],
) -> Result<SignedStatement, DongleFault>
    ensures answers { result ≡ stating (trinket_over signer.now.identity signer.now.key (B.Bank.numbers bank.now)) counter nonce (length working.old) }
    ensures working { working.new ≡ wiped working.old }
{
    wipe(working);
    if working.len() < WORKING_SIZE {
        return Err(DongleFault::ShortWorkingArea);
    }
    let number = number_of(bank, counter)?;
    Ok(signer.sign(counter, number, number, nonce, working))
}
