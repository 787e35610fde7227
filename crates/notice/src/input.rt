// The input of the digest rule, written from its parts.
ghost use Rattle.std.specs.Prelude.{◌≡◌, ℕ, ◌+◌, List, ◌++◌, length, drop, if◌then◌else◌, Some, None};
ghost use Rattle.notice.specs.declared.spans.Span.{Span};
ghost use Rattle.notice.specs.Limits.{input_head};
ghost use Rattle.notice.specs.Input.{digest_input, has_input_room, Determines};

use super::limits::{INPUT_HEAD, PREVIOUS_SIZE, written_length};
use super::spans::Span;

/// Writes the input to the front of the area and answers its length. A text over its limit, or an area too
/// short, gives none and leaves the area as it is. The bytes determine the parts.
pub fn write_input(
    span: &Span,
    previous: &[u8; PREVIOUS_SIZE],
    text: &[u8],
    area: &mut [u8],
) -> Option<usize>
    ensures answers { result ≡ (if has_input_room (length text.now) (length area.old) then Some (input_head + length text.now) else None) }
    ensures area { area.new ≡ (if has_input_room (length text.now) (length area.old) then digest_input span.now.lane span.now.old span.now.new previous.now text.now ++ drop (input_head + length text.now) area.old else area.old) }
    ensures determines { Determines span.now previous.now text.now }
{
    let length = written_length(INPUT_HEAD, text, area)?;
    let (lane, rest) = area.split_at_mut(1);
    let (old, rest) = rest.split_at_mut(4);
    let (new, rest) = rest.split_at_mut(4);
    let (digest, rest) = rest.split_at_mut(PREVIOUS_SIZE);
    lane[0] = span.lane;
    old.copy_from_slice(&span.old.to_be_bytes());
    new.copy_from_slice(&span.new.to_be_bytes());
    digest.copy_from_slice(previous);
    rest[..text.len()].copy_from_slice(text);
    Some(length)
}
