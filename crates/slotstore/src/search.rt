// Searches over rows.
ghost use Rattle.std.specs.Prelude.{◌≡◌, not};
ghost use Rattle.std.specs.List.{position, list_any};
ghost use Rattle.notice.specs.Spans.{span_contains, spans_meet, span_is_kept};
ghost use Rattle.slotstore.specs.Rows.{row_span};

use super::row::Row;
use notice::Span;

// The first row whose record is of the queue and spans the position.
pub(crate) fn first_covering(rows: &[Row], queue: u8, at: u32) -> Option<usize>
    ensures answers { result ≡ position (λ row. span_contains (row_span row) queue at) rows.now }
{
    rows.iter().position(|row| row.span().contains(queue, at))
}

// The first row whose record is of the queue and ends below a number.
pub(crate) fn first_below(rows: &[Row], queue: u8, below: u32) -> Option<usize>
    ensures answers { result ≡ position (λ row. not (span_is_kept (row_span row) queue below)) rows.now }
{
    rows.iter()
        .position(|row| !row.span().is_kept(queue, below))
}

// Whether one of the rows is of the span's lane and shares a position with it.
pub(crate) fn is_spanned(rows: &[Row], span: &Span) -> bool
    ensures answers { result ≡ list_any (λ row. spans_meet (row_span row) span.now) rows.now }
{
    rows.iter().any(|row| row.span().meets(span))
}
