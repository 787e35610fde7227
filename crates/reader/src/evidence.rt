// The signed statements of an answer, by its kind, read from its bytes.
ghost use Rattle.std.specs.Prelude.{◌≡◌, ◌+◌, ◌*◌, ◌-◌, ◌<◌, ◌≤◌, length, take, drop};
ghost use Rattle.std.specs.Option.{option_copied};
ghost use Rattle.statement.specs.Layout.{signed_statement_size};
ghost use Rattle.notice.specs.Limits.{previous_size, answer_head, text_limit};
ghost use Rattle.notice.specs.Answer.{head_length};
ghost use Rattle.reader.specs.Evidence.{signed_in, previous_in, evidence_in, text_in, first_of, second_of, status_of};

use digest::DIGEST_SIZE;
use notice::{ANSWER_HEAD, Kind, PREVIOUS_SIZE};
use statement::{SIGNED_STATEMENT_SIZE, STATEMENT_SIZE, SignedStatement, Statement};
use std::marker::Model;

// Each kind with the statements of its row; where a text follows, the previous digest too.
#[derive(Clone, Copy)]
pub enum Evidence {
    Found {
        advance: SignedStatement,
        previous: [u8; PREVIOUS_SIZE],
    },
    Skipped {
        advance: SignedStatement,
    },
    Forgotten {
        status: SignedStatement,
    },
    NotYet {
        status: SignedStatement,
    },
    End {
        status: SignedStatement,
        advance: SignedStatement,
        previous: [u8; PREVIOUS_SIZE],
    },
    EndOfEmpty {
        status: SignedStatement,
    },
}

// The text of a notice, within its limit.
#[derive(Drop)]
pub struct Text<'a> {
    bytes: &'a [u8],
}

impl<'a> Model for Text<'a> {
    ghost use Rattle.std.specs.Prelude.{ℕ, ◌≤◌, List, length};
    ghost use Rattle.notice.specs.Limits.{text_limit};

    ghost Value = { List ℕ };

    ghost view = { λ text. text.bytes.now };

    ghost invariant = { λ text. length text.bytes.now ≤ text_limit };
}

impl<'a> Text<'a> {
    pub(crate) fn len(&self) -> usize
        ensures answers { result ≡ length self.now }
    {
        self.bytes.len()
    }

    pub(crate) fn as_bytes(&self) -> &'a [u8]
        ensures answers { result.now ≡ self.now }
        ensures short { length self.now ≤ text_limit }
    {
        self.bytes
    }
}

// What follows the first three bytes of an answer of a kind: as long as the kind asks for.
#[derive(Drop)]
pub struct Body<'a> {
    pub(crate) kind: Kind,
    pub(crate) rest: &'a [u8],
    ghost long: { head_length kind ≤ answer_head + length rest.now },
    ghost short: { answer_head + length rest.now ≤ head_length kind + text_limit },
}

fn part<const N: usize>(bytes: &[u8], at: usize) -> [u8; N]
    requires { at + N ≤ length bytes.now }
    ensures { result ≡ take N (drop at bytes.now) }
{
    *bytes[at..].first_chunk().unwrap()
}

// The statement of that place among so many, with its tag.
fn signed(bytes: &[u8], count: usize, place: usize) -> SignedStatement
    requires long { signed_statement_size * count ≤ length bytes.now }
    requires within { place < count }
    ensures answers { result ≡ signed_in count place bytes.now }
{
    SignedStatement {
        statement: Statement::from(&part(bytes, STATEMENT_SIZE * place)),
        tag: part(bytes, STATEMENT_SIZE * count + DIGEST_SIZE * place),
    }
}

// The previous digest, behind so many statements with their tags.
fn previous(bytes: &[u8], count: usize) -> [u8; PREVIOUS_SIZE]
    requires long { signed_statement_size * count + previous_size ≤ length bytes.now }
    ensures answers { result ≡ previous_in count bytes.now }
{
    part(bytes, SIGNED_STATEMENT_SIZE * count)
}

impl<'a> Body<'a> {
    pub(crate) fn evidence(&self) -> Evidence
        ensures answers { result ≡ evidence_in self.now.kind self.now.rest.now }
    {
        let rest = self.rest;
        match self.kind {
            Kind::Found => Evidence::Found {
                advance: signed(rest, 1, 0),
                previous: previous(rest, 1),
            },
            Kind::Skipped => Evidence::Skipped {
                advance: signed(rest, 1, 0),
            },
            Kind::Forgotten => Evidence::Forgotten {
                status: signed(rest, 1, 0),
            },
            Kind::NotYet => Evidence::NotYet {
                status: signed(rest, 1, 0),
            },
            Kind::End => Evidence::End {
                status: signed(rest, 2, 0),
                advance: signed(rest, 2, 1),
                previous: previous(rest, 2),
            },
            Kind::EndOfEmpty => Evidence::EndOfEmpty {
                status: signed(rest, 1, 0),
            },
        }
    }

    // Nothing where the kind has no text.
    pub(crate) fn text(&self) -> Text<'a>
        ensures answers { result ≡ text_in self.now.kind self.now.rest.now }
    {
        let bytes = &self.rest[self.kind.head_length() - ANSWER_HEAD..];
        Text { bytes }
    }
}

impl Evidence {
    pub(crate) fn first(&self) -> &SignedStatement
        ensures answers { result.now ≡ first_of self.now }
    {
        match self {
            Evidence::Found { advance, .. } | Evidence::Skipped { advance } => advance,
            Evidence::Forgotten { status }
            | Evidence::NotYet { status }
            | Evidence::End { status, .. }
            | Evidence::EndOfEmpty { status } => status,
        }
    }

    pub(crate) fn second(&self) -> Option<&SignedStatement>
        ensures answers { option_copied result ≡ second_of self.now }
    {
        match self {
            Evidence::End { advance, .. } => Some(advance),
            Evidence::Found { .. }
            | Evidence::Skipped { .. }
            | Evidence::Forgotten { .. }
            | Evidence::NotYet { .. }
            | Evidence::EndOfEmpty { .. } => None,
        }
    }

    pub(crate) fn status(&self) -> Option<&SignedStatement>
        ensures answers { option_copied result ≡ status_of self.now }
    {
        match self {
            Evidence::Found { .. } | Evidence::Skipped { .. } => None,
            Evidence::Forgotten { status }
            | Evidence::NotYet { status }
            | Evidence::End { status, .. }
            | Evidence::EndOfEmpty { status } => Some(status),
        }
    }
}
