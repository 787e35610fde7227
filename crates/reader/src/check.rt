// Answers checked: the rules in their order, with the working area wiped on every way out.
ghost use Rattle.std.specs.Prelude.{◌≡◌, length};
ghost use Rattle.digest.specs.Wiped.{wiped};
ghost use Rattle.notice.specs.Answer.{head_length};
ghost use Rattle.reader.specs.Verdict.{verdict_with, accepted, decided, decided_by_kind, decided_on, verdict};

use crate::evidence::{Body, Evidence, Text};
use crate::fault::ReaderFault;
use crate::layout::lay_out;
use crate::rules::{check_digests, check_nonces, check_numbers};
use crate::types::{Challenge, Question, Reader, Verdict};
use digest::WORKING_SIZE;
use notice::{AnswerHead, Kind};

fn with_no_text(kind: Kind, position: u32, high: u32) -> Verdict
    ensures answers { result ≡ verdict_with kind position high 0 0 }
{
    Verdict {
        kind,
        position,
        high,
        text_place: 0,
        text_length: 0,
    }
}

fn with_text(kind: Kind, position: u32, high: u32, size: usize) -> Verdict
    ensures answers { result ≡ verdict_with kind position high (head_length kind) size }
{
    Verdict {
        kind,
        position,
        high,
        text_place: kind.head_length(),
        text_length: size,
    }
}

// What an answer that kept every rule says.
fn accept(position: u32, size: usize, evidence: &Evidence) -> Verdict
    ensures answers { result ≡ accepted position size evidence.now }
{
    match evidence {
        Evidence::Found { .. } => with_text(Kind::Found, position, 0, size),
        Evidence::Skipped { .. } => with_no_text(Kind::Skipped, position, 0),
        Evidence::Forgotten { .. } => with_no_text(Kind::Forgotten, position, 0),
        Evidence::NotYet { status } => {
            with_no_text(Kind::NotYet, position, status.statement.new)
        }
        Evidence::End { status, .. } => {
            let high = status.statement.new;
            with_text(Kind::End, high, high, size)
        }
        Evidence::EndOfEmpty { status } => {
            with_no_text(Kind::EndOfEmpty, 0, status.statement.new)
        }
    }
}

impl Reader {
    fn decide(
        &self,
        question: &Question,
        text: &Text,
        evidence: &Evidence,
        block: &mut [u8; WORKING_SIZE],
    ) -> Result<Verdict, ReaderFault>
        ensures answers { result ≡ decided self.now.identity self.now.key question.now text.now evidence.now }
    {
        let position = question.asked.position();
        self.check_tags(evidence, block)?;
        self.check_origins(question.queue, evidence)?;
        check_nonces(&question.nonce, evidence)?;
        check_numbers(position, evidence)?;
        check_digests(question.queue, text, evidence)?;
        Ok(accept(position, text.len(), evidence))
    }

    fn decide_body(
        &self,
        question: &Question,
        body: &Body,
        block: &mut [u8; WORKING_SIZE],
    ) -> Result<Verdict, ReaderFault>
        ensures answers { result ≡ decided_by_kind self.now.identity self.now.key question.now body.now.rest.now body.now.kind }
    {
        self.decide(question, &body.text(), &body.evidence(), block)
    }

    fn decide_answer(
        &self,
        question: &Question,
        answer: &[u8],
        block: &mut [u8; WORKING_SIZE],
    ) -> Result<Verdict, ReaderFault>
        ensures answers { result ≡ decided_on self.now.identity self.now.key question.now answer.now }
    {
        let [number, count, size, rest @ ..] = answer else {
            return Err(ReaderFault::WrongLength);
        };
        let head = AnswerHead {
            number: *number,
            count: *count,
            size: *size,
        };
        let kind = lay_out(question.asked, head, answer.len())?;
        self.decide_body(question, &Body { kind, rest }, block)
    }

    /// Spends the challenge on an answer, accepted or refused. The answer is only read, and the first 64 bytes of
    /// the working area are zero afterwards.
    #[tactic(auto, using(crate::proofs::Rooms::wiped_front, crate::proofs::Rooms::wiped_short, crate::proofs::Rooms::verdict_roomy), unfolding(crate::specs::Verdict::verdict))]
    pub fn check(
        &self,
        challenge: Challenge,
        answer: &[u8],
        working: &mut [u8],
    ) -> Result<Verdict, ReaderFault>
        ensures answers { result ≡ verdict self.now.identity self.now.key challenge.question (length working.old) answer.now }
        ensures working { working.new ≡ wiped working.old }
    {
        let Challenge { question } = challenge;
        let Some(block) = working.first_chunk_mut::<WORKING_SIZE>() else {
            return Err(ReaderFault::ShortWorkingArea);
        };
        let verdict = self.decide_answer(&question, answer, block);
        *block = [0; WORKING_SIZE];
        verdict
    }
}
