// Spans of positions, compared with a position, with another span and with a number.
ghost use Rattle.std.specs.Prelude.{◌≡◌};
ghost use Rattle.notice.specs.Spans.{span_contains, spans_meet, span_is_kept};

/// The positions `old + 1` to `new` of a lane; a record's lane is its queue.
#[derive(Clone, Copy, PartialEq, Eq, Debug)]
pub struct Span {
    /// The lane, that is the queue.
    pub lane: u8,
    /// The position before the first.
    pub old: u32,
    /// The last position.
    pub new: u32,
}

impl Span {
    /// Whether the span is of the lane and has the position.
    pub fn contains(&self, lane: u8, position: u32) -> bool
        ensures answers { result ≡ span_contains self.now lane position }
    {
        self.lane == lane && self.old < position && position <= self.new
    }

    /// Whether the two spans are of one lane and share a position.
    pub fn meets(&self, other: &Span) -> bool
        ensures answers { result ≡ spans_meet self.now other.now }
    {
        self.lane == other.lane && self.old.max(other.old) < self.new.min(other.new)
    }

    /// Whether the span outlives a forget of the lane below a number: it is of another lane, or ends at the
    /// number or above.
    pub fn is_kept(&self, lane: u8, below: u32) -> bool
        ensures answers { result ≡ span_is_kept self.now lane below }
    {
        self.lane != lane || self.new >= below
    }
}
