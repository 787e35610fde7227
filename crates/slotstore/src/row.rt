// A row tells the queue, the span and the length of the record in its slot.
ghost use Rattle.std.specs.Prelude.{◌≡◌};
ghost use Rattle.slotstore.specs.Rows.{row_of, row_span};

use notice::{Record, Span};

// Plain fields, and not a `Span`: they are what the lender reads.
/// What a slot holds: a record of the high counter of `queue` that spans the positions `old + 1` to `new` and is `length`
/// bytes long. The row of a free slot is all zero.
#[derive(Clone, Copy, Debug, Default, PartialEq, Eq)]
pub struct Row {
    pub queue: u8,
    pub old: u32,
    pub new: u32,
    pub length: usize,
}

impl Row {
    /// The positions of the queue that the record spans.
    pub fn span(&self) -> Span
        ensures answers { result ≡ row_span self.now }
    {
        Span {
            lane: self.queue,
            old: self.old,
            new: self.new,
        }
    }
}

impl<'a> From<&Record<'a>> for Row {
    ghost from_gives = { λ bytes row. row ≡ row_of bytes.now };

    fn from(record: &Record<'a>) -> Row {
        let span = record.span();
        Row {
            queue: span.lane,
            old: span.old,
            new: span.new,
            length: record.as_bytes().len(),
        }
    }
}
