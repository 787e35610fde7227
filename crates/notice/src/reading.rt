// Records: their fields read from the bytes, and the test of a record.
ghost use Rattle.std.specs.Prelude.{◌≡◌, ◌+◌, ◌<◌, length, if◌then◌else◌, Some, None, nat_le, slice_index};
ghost use Rattle.statement.specs.Layout.{number_at, signed_statement_size};
ghost use Rattle.notice.specs.Limits.{previous_size};
ghost use Rattle.notice.specs.Record.{signed_of, counter_of, old_of, new_of, queue_of, span_of, previous_of, size_of, text_of, is_record};

use super::limits::{PREVIOUS_SIZE, RECORD_HEAD, TEXT_LIMIT};
use super::spans::Span;
use statement::{COUNTER_AT, Layout, NEW_AT, OLD_AT, SIGNED_STATEMENT_SIZE, SignedStatement};
use std::marker::Model;

// Where a record has its text length.
const SIZE_AT: usize = SIGNED_STATEMENT_SIZE + PREVIOUS_SIZE;

/// Bytes read as a record. Each method answers for any bytes: numbers past their end are read as 0,
/// and `signed` and `previous` are none where bytes are missing.
#[derive(Drop)]
pub struct Record<'a> {
    bytes: &'a [u8],
}

impl<'a> Model for Record<'a> {
    ghost use Rattle.std.specs.Prelude.{ℕ, List};

    ghost Value = { List ℕ };

    ghost view = { λ r. r.bytes.now };
}

impl<'a> From<&'a [u8]> for Record<'a> {
    ghost from_gives = { λ bytes r. r ≡ bytes.now };

    fn from(bytes: &'a [u8]) -> Record<'a> {
        Record { bytes }
    }
}

impl<'a> Record<'a> {
    /// The bytes.
    pub fn as_bytes(&self) -> &'a [u8]
        ensures answers { result.now ≡ self.now }
    {
        self.bytes
    }

    /// The signed statement, none where the bytes are too few.
    #[tactic(auto, unfolding(crate::specs::Record::signed_of))]
    pub fn signed(&self) -> Option<SignedStatement>
        ensures answers { result ≡ (if nat_le signed_statement_size (length self.now) then Some (signed_of self.now) else None) }
    {
        SignedStatement::read(self.bytes)
    }

    /// The counter of the signed statement.
    #[tactic(auto, unfolding(crate::specs::Record::counter_of))]
    pub fn counter(&self) -> u8
        ensures answers { result ≡ counter_of self.now }
    {
        self.byte_at(COUNTER_AT)
    }

    /// The queue whose high counter the record is of: queue q has the counters 2 q, the low one, and 2 q + 1, the high one.
    #[tactic(auto, unfolding(crate::specs::Record::queue_of))]
    pub fn queue(&self) -> u8
        ensures answers { result ≡ queue_of self.now }
    {
        self.counter() / 2
    }

    /// The counter's number before the record was signed.
    pub fn old(&self) -> u32
        ensures answers { result ≡ old_of self.now }
    {
        self.number_at(OLD_AT)
    }

    /// The counter's number from then on.
    pub fn new(&self) -> u32
        ensures answers { result ≡ new_of self.now }
    {
        self.number_at(NEW_AT)
    }

    /// The positions of the queue that the record spans.
    pub fn span(&self) -> Span
        ensures answers { result ≡ span_of self.now }
    {
        Span {
            lane: self.queue(),
            old: self.old(),
            new: self.new(),
        }
    }

    /// The previous digest, none where the bytes are too few.
    #[tactic(auto, unfolding(crate::specs::Record::previous_of))]
    pub fn previous(&self) -> Option<[u8; PREVIOUS_SIZE]>
        ensures answers { result ≡ (if nat_le (signed_statement_size + previous_size) (length self.now) then Some (previous_of self.now) else None) }
    {
        if self.bytes.len() < SIZE_AT {
            return None;
        }
        // Copied, not `first_chunk`: that the chunk is these bytes of the whole got no proof.
        let mut digest = [0; PREVIOUS_SIZE];
        digest.copy_from_slice(&self.bytes[SIGNED_STATEMENT_SIZE..SIZE_AT]);
        Some(digest)
    }

    /// The length of the text, as the record tells it.
    #[tactic(auto, unfolding(crate::specs::Record::size_of))]
    pub fn size(&self) -> usize
        ensures answers { result ≡ size_of self.now }
        ensures fits { result < 256 }
    {
        usize::from(self.byte_at(SIZE_AT))
    }

    /// The text: what follows the head.
    pub fn text(&self) -> &'a [u8]
        ensures answers { result.now ≡ text_of self.now }
    {
        // Not `get(RECORD_HEAD..)` with none as empty: that nothing lies past the end got no proof there.
        let from = self.bytes.len().min(RECORD_HEAD);
        &self.bytes[from..]
    }

    /// Whether the bytes are a record that may be kept: the length right, the text within its limit, the
    /// counter the high one of a queue, and old below new.
    #[tactic(auto, unfolding(crate::specs::Record::is_record))]
    pub fn is_valid(&self) -> bool
        ensures answers { result ≡ is_record self.now }
    {
        let size = self.size();
        let counter = self.counter();
        self.bytes.len() == RECORD_HEAD + size
            && size <= TEXT_LIMIT
            && counter % 2 == 1
            && counter <= 15
            && self.old() < self.new()
    }

    fn byte_at(&self, at: usize) -> u8
        ensures answers { result ≡ slice_index self.now at }
    {
        self.bytes.get(at).copied().unwrap_or(0)
    }

    fn number_at(&self, at: usize) -> u32
        requires small { at < 256 }
        ensures answers { result ≡ number_at at self.now }
    {
        // A search reads two numbers of every record: the four bytes at once where they are there.
        match self.bytes.get(at..).and_then(|rest| rest.first_chunk()) {
            Some(four) => u32::from_be_bytes(*four),
            None => u32::from_be_bytes([at, at + 1, at + 2, at + 3].map(|place| self.byte_at(
                place,
            ))),
        }
    }
}
