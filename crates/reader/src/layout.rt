// Whether an answer has the length and the form that its first three bytes and the question ask for.
ghost use Rattle.std.specs.Prelude.{◌≡◌};
ghost use Rattle.reader.specs.Rules.{demanded};
ghost use Rattle.reader.specs.Verdict.{answers_to, right_size, right_form, laid_out, position_of};

use crate::fault::ReaderFault;
use crate::types::Asked;
use notice::{AnswerHead, Kind, TEXT_LIMIT};

impl Asked {
    // The position asked for. An end has none, and its 0 is never one, since positions begin at 1: no rule of an
    // end looks at it, so an Option would only be unwrapped again at every use.
    pub(crate) fn position(self) -> u32
        ensures answers { result ≡ position_of self }
    {
        match self {
            Asked::Position(position) => position,
            Asked::End => 0,
        }
    }

    fn is_answered_by(self, kind: Kind) -> bool
        ensures answers { result ≡ answers_to self kind }
    {
        match kind {
            Kind::Found | Kind::Skipped | Kind::Forgotten | Kind::NotYet => self != Asked::End,
            Kind::End | Kind::EndOfEmpty => self == Asked::End,
        }
    }
}

// Nothing where the test holds, and else the refusal.
pub(crate) fn demand(holds: bool, fault: ReaderFault) -> Result<(), ReaderFault>
    ensures answers { result ≡ demanded holds fault }
{
    if holds { Ok(()) } else { Err(fault) }
}

fn is_right_size(kind: Kind, size: u8) -> bool
    ensures answers { result ≡ right_size kind size }
{
    if kind.has_text() {
        usize::from(size) <= TEXT_LIMIT
    } else {
        size == 0
    }
}

fn is_right_form(asked: Asked, kind: Kind, head: AnswerHead) -> bool
    ensures answers { result ≡ right_form asked kind head.count head.size }
{
    asked.is_answered_by(kind) && head.count == kind.statements() && is_right_size(kind, head.size)
}

// The kind of an answer of a length that begins with this head.
pub(crate) fn lay_out(asked: Asked, head: AnswerHead, length: usize) -> Result<Kind, ReaderFault>
    ensures answers { result ≡ laid_out asked head.number head.count head.size length }
{
    demand(length == head.length(), ReaderFault::WrongLength)?;
    let kind = Kind::try_from(head.number).map_err(|_| ReaderFault::WrongForm)?;
    demand(is_right_form(asked, kind, head), ReaderFault::WrongForm)?;
    Ok(kind)
}
