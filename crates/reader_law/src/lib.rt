// The check of an answer, with its promise in the words of the rules.
#![tactic(auto)]

ghost use Rattle.std.specs.Prelude.{◌≡◌, length, Some, Ok};
ghost use Rattle.digest.specs.Wiped.{wiped};
ghost use Rattle.reader.specs.declared.types.Verdict.{Verdict};
ghost use Rattle.reader.specs.Verdict.{verdict};
ghost use Rattle.reader_law.specs.Rows.{Right};
ghost use Rattle.reader_law.specs.Refusals.{Rule, refusal, FirstFailing, refusal_number};

use reader::{Challenge, Reader, ReaderFault, Verdict};

/// Checks an answer as `Reader::check` does. It is accepted, with that verdict, exactly where the answer is
/// the layout of its fields and keeps every rule of its kind's row; a refusal has the number of the first rule that
/// fails.
pub fn check_by_the_rules(
    reader: &Reader,
    challenge: Challenge,
    answer: &[u8],
    working: &mut [u8],
) -> Result<Verdict, ReaderFault>
    ensures answers { result ≡ verdict reader.now.identity reader.now.key challenge.question (length working.old) answer.now }
    ensures accepts { (v : Verdict) → result ≡ Ok v → Right reader.now.identity reader.now.key challenge.question (length working.old) answer.now v }
    ensures only { (v : Verdict) → Right reader.now.identity reader.now.key challenge.question (length working.old) answer.now v → result ≡ Ok v }
    ensures refuses { (rule : Rule) → refusal_number result ≡ Some (refusal rule) → FirstFailing reader.now.identity reader.now.key challenge.question (length working.old) answer.now rule }
    ensures first { (rule : Rule) → FirstFailing reader.now.identity reader.now.key challenge.question (length working.old) answer.now rule → refusal_number result ≡ Some (refusal rule) }
    ensures working { working.new ≡ wiped working.old }
{
    reader.check(challenge, answer, working)
}
