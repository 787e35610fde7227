// How long texts, records and digest inputs are.
ghost use Rattle.std.specs.Prelude.{◌≡◌, ◌+◌, ◌<◌, length, if◌then◌else◌, Some, None};
ghost use Rattle.notice.specs.Limits.{has_room_after};

use statement::SIGNED_STATEMENT_SIZE;

/// The previous digest's bytes.
pub const PREVIOUS_SIZE: usize = 32;

/// The longest text.
pub const TEXT_LIMIT: usize = 200;

/// A record before its text: the signed statement, the previous digest and the text length.
pub const RECORD_HEAD: usize = SIGNED_STATEMENT_SIZE + PREVIOUS_SIZE + 1;

/// The longest record.
pub const RECORD_LIMIT: usize = RECORD_HEAD + TEXT_LIMIT;

/// The digest rule's input before the text: queue 1, old 4, new 4 and the previous digest.
pub const INPUT_HEAD: usize = 1 + 4 + 4 + PREVIOUS_SIZE;

/// The longest input of the digest rule.
pub const INPUT_LIMIT: usize = INPUT_HEAD + TEXT_LIMIT;

/// An answer before its statements: kind, number of statements and text length.
pub const ANSWER_HEAD: usize = 3;

/// The longest answer: the end's, with two signed statements, the previous digest and a text.
pub const ANSWER_LIMIT: usize = ANSWER_HEAD
    + 2 * SIGNED_STATEMENT_SIZE
    + PREVIOUS_SIZE
    + TEXT_LIMIT;

/// The length of a head and the text after it, none where the text is over its limit or the area too short.
pub(crate) fn written_length(head: usize, text: &[u8], area: &[u8]) -> Option<usize>
    requires small { head < 256 }
    ensures answers { result ≡ (if has_room_after head (length text.now) (length area.now) then Some (head + length text.now) else None) }
{
    let length = head + text.len();
    (text.len() <= TEXT_LIMIT && length <= area.len()).then_some(length)
}
