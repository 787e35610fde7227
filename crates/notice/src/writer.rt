// A record, written from its parts.
ghost use Rattle.std.specs.Prelude.{◌≡◌, ◌+◌, ◌++◌, length, drop, if◌then◌else◌, Some, None};
ghost use Rattle.notice.specs.Limits.{record_head};
ghost use Rattle.notice.specs.Record.{recorded, has_room, Tells};

use super::limits::{PREVIOUS_SIZE, RECORD_HEAD, written_length};
use statement::{SIGNED_STATEMENT_SIZE, SignedStatement};

/// Writes the record to the front of the area and answers its length. A text over its limit, or an area too
/// short, gives none and leaves the area as it is.
pub fn write_record(
    signed: &SignedStatement,
    previous: &[u8; PREVIOUS_SIZE],
    text: &[u8],
    area: &mut [u8],
) -> Option<usize>
    ensures answers { result ≡ (if has_room (length text.now) (length area.old) then Some (record_head + length text.now) else None) }
    ensures area { area.new ≡ (if has_room (length text.now) (length area.old) then recorded signed.now previous.now text.now ++ drop (record_head + length text.now) area.old else area.old) }
    ensures back { Tells signed.now previous.now text.now (recorded signed.now previous.now text.now) }
{
    let bytes: [u8; SIGNED_STATEMENT_SIZE] = (*signed).into();
    let end = written_length(RECORD_HEAD, text, area)?;
    let (statement, rest) = area.split_at_mut(SIGNED_STATEMENT_SIZE);
    let (digest, rest) = rest.split_at_mut(PREVIOUS_SIZE);
    let (length, rest) = rest.split_at_mut(1);
    statement.copy_from_slice(&bytes);
    digest.copy_from_slice(previous);
    length[0] = text.len() as u8;
    rest[..text.len()].copy_from_slice(text);
    Some(end)
}
