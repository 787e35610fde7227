// The rules of an answer, each tried over all its statements.
ghost use Rattle.std.specs.Prelude.{◌≡◌, ◌≤◌, length};
ghost use Rattle.digest.specs.Hmac.{hmac};
ghost use Rattle.digest.specs.Sha256.{sha256};
ghost use Rattle.statement.specs.Layout.{encoded};
ghost use Rattle.notice.specs.Input.{digest_input};
ghost use Rattle.reader.specs.declared.fault.ReaderFault.TheVariants.{WrongDigest};
ghost use Rattle.reader.specs.Rules.{demanded, signed_right, tag_rule, tags, counter_for, origin_right, origin_rule, origins, nonce_rule, nonces, found_at, skips, stands_above, stands_below, stands_at_zero, end_numbers, numbers, digest_right, digests};

use crate::compare::is_same;
use crate::evidence::{Evidence, Text};
use crate::fault::ReaderFault;
use crate::layout::demand;
use crate::types::Reader;
use digest::{DIGEST_SIZE, WORKING_SIZE, digest, tag};
use notice::{INPUT_LIMIT, PREVIOUS_SIZE, Span, write_input};
use statement::{STATEMENT_SIZE, SignedStatement, Statement};

impl Reader {
    fn tag_of(&self, statement: &Statement, block: &mut [u8; WORKING_SIZE]) -> [u8; DIGEST_SIZE]
        ensures answers { result ≡ hmac self.now.key (encoded statement.now) }
    {
        let bytes: [u8; STATEMENT_SIZE] = (*statement).into();
        tag(&self.key, &bytes, block).unwrap()
    }

    #[tactic(auto, using(crate::proofs::Sames::same_where_all))]
    fn is_signed(&self, signed: &SignedStatement, block: &mut [u8; WORKING_SIZE]) -> bool
        ensures answers { result ≡ signed_right self.now.key signed.now }
    {
        let right = self.tag_of(&signed.statement, block);
        is_same(&signed.tag, &right)
    }

    fn check_tag(
        &self,
        signed: &SignedStatement,
        place: u8,
        block: &mut [u8; WORKING_SIZE],
    ) -> Result<(), ReaderFault>
        ensures answers { result ≡ tag_rule self.now.key signed.now place }
    {
        demand(self.is_signed(signed, block), ReaderFault::WrongTag(place))
    }

    pub(crate) fn check_tags(
        &self,
        evidence: &Evidence,
        block: &mut [u8; WORKING_SIZE],
    ) -> Result<(), ReaderFault>
        ensures answers { result ≡ tags self.now.key evidence.now }
    {
        self.check_tag(evidence.first(), 0, block)?;
        match evidence.second() {
            Some(second) => self.check_tag(second, 1, block),
            None => Ok(()),
        }
    }

    fn is_origin(&self, counter: u16, statement: &Statement) -> bool
        ensures answers { result ≡ origin_right self.now.identity counter statement.now }
    {
        statement.identity == self.identity && u16::from(statement.counter) == counter
    }

    fn check_origin(
        &self,
        counter: u16,
        signed: &SignedStatement,
        place: u8,
    ) -> Result<(), ReaderFault>
        ensures answers { result ≡ origin_rule self.now.identity counter signed.now place }
    {
        demand(
            self.is_origin(counter, &signed.statement),
            ReaderFault::WrongOrigin(place),
        )
    }

    // First, then second, as in `check_tags`, whose calls write the working area: one function over a closure was
    // tried for both, and left open that what a closure over that area returns does not depend on the calls before.
    pub(crate) fn check_origins(&self, queue: u8, evidence: &Evidence) -> Result<(), ReaderFault>
        ensures answers { result ≡ origins self.now.identity queue evidence.now }
    {
        let counter = counter_for(queue, evidence);
        self.check_origin(counter, evidence.first(), 0)?;
        match evidence.second() {
            Some(second) => self.check_origin(counter, second, 1),
            None => Ok(()),
        }
    }
}

// The low counter of the queue shows what is forgotten, the high one all else.
fn counter_for(queue: u8, evidence: &Evidence) -> u16
    ensures answers { result ≡ counter_for queue evidence.now }
{
    let low = 2 * u16::from(queue);
    match evidence {
        Evidence::Forgotten { .. } => low,
        Evidence::Found { .. }
        | Evidence::Skipped { .. }
        | Evidence::NotYet { .. }
        | Evidence::End { .. }
        | Evidence::EndOfEmpty { .. } => low + 1,
    }
}

fn check_nonce(nonce: &[u8; 32], status: &SignedStatement) -> Result<(), ReaderFault>
    ensures answers { result ≡ nonce_rule nonce.now status.now }
{
    demand(
        status.statement.matter == *nonce,
        ReaderFault::WrongNonce(0),
    )
}

pub(crate) fn check_nonces(nonce: &[u8; 32], evidence: &Evidence) -> Result<(), ReaderFault>
    ensures answers { result ≡ nonces nonce.now evidence.now }
{
    match evidence.status() {
        Some(status) => check_nonce(nonce, status),
        None => Ok(()),
    }
}

fn is_found_at(position: u32, statement: &Statement) -> bool
    ensures answers { result ≡ found_at position statement.now }
{
    statement.is_advance() && statement.new == position
}

fn is_skipping(position: u32, statement: &Statement) -> bool
    ensures answers { result ≡ skips position statement.now }
{
    statement.is_advance() && statement.old < position && position < statement.new
}

fn stands_above(position: u32, statement: &Statement) -> bool
    ensures answers { result ≡ stands_above position statement.now }
{
    statement.is_status() && position < statement.new
}

fn stands_below(position: u32, statement: &Statement) -> bool
    ensures answers { result ≡ stands_below position statement.now }
{
    statement.is_status() && statement.new < position
}

fn stands_at_zero(statement: &Statement) -> bool
    ensures answers { result ≡ stands_at_zero statement.now }
{
    statement.is_status() && statement.new == 0
}

// A status shows where the counter stands, and at an end the advance is the one that led there.
fn check_end(status: &Statement, advance: &Statement) -> Result<(), ReaderFault>
    ensures answers { result ≡ end_numbers status.now advance.now }
{
    demand(stands_above(0, status), ReaderFault::WrongNumbers(0))?;
    demand(
        is_found_at(status.new, advance),
        ReaderFault::WrongNumbers(1),
    )
}

pub(crate) fn check_numbers(position: u32, evidence: &Evidence) -> Result<(), ReaderFault>
    ensures answers { result ≡ numbers position evidence.now }
{
    let shown = match evidence {
        Evidence::Found { advance, .. } => is_found_at(position, &advance.statement),
        Evidence::Skipped { advance } => is_skipping(position, &advance.statement),
        Evidence::Forgotten { status } => stands_above(position, &status.statement),
        Evidence::NotYet { status } => stands_below(position, &status.statement),
        Evidence::End {
            status,
            advance,
            ..
        } => return check_end(&status.statement, &advance.statement),
        Evidence::EndOfEmpty { status } => stands_at_zero(&status.statement),
    };
    demand(shown, ReaderFault::WrongNumbers(0))
}

// The digest of the span, the previous digest and the text.
fn matter_of(span: &Span, previous: &[u8; PREVIOUS_SIZE], text: &Text) -> [u8; DIGEST_SIZE]
    ensures answers { result ≡ sha256 (digest_input span.now.lane span.now.old span.now.new previous.now text.now) }
{
    let mut input = [0; INPUT_LIMIT];
    let size = write_input(span, previous, text.as_bytes(), &mut input).unwrap();
    digest(&input[..size]).unwrap()
}

fn check_digest(
    queue: u8,
    advance: &Statement,
    previous: &[u8; PREVIOUS_SIZE],
    text: &Text,
    place: u8,
) -> Result<(), ReaderFault>
    ensures answers { result ≡ demanded (digest_right queue advance.now previous.now text.now) (WrongDigest place) }
{
    let Statement { old, new, .. } = *advance;
    let span = Span {
        lane: queue,
        old,
        new,
    };
    let right = matter_of(&span, previous, text);
    demand(advance.matter == right, ReaderFault::WrongDigest(place))
}

pub(crate) fn check_digests(queue: u8, text: &Text, evidence: &Evidence) -> Result<(), ReaderFault>
    ensures answers { result ≡ digests queue text.now evidence.now }
{
    match evidence {
        Evidence::Found { advance, previous } => {
            check_digest(queue, &advance.statement, previous, text, 0)
        }
        Evidence::End {
            advance,
            previous,
            ..
        } => check_digest(queue, &advance.statement, previous, text, 1),
        Evidence::Skipped { .. }
        | Evidence::Forgotten { .. }
        | Evidence::NotYet { .. }
        | Evidence::EndOfEmpty { .. } => Ok(()),
    }
}
