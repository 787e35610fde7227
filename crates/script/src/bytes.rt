// Byte strings of a script: `-`, or parts joined by `+`, each hex digits and perhaps `*` and a count.
ghost use Rattle.std.specs.Prelude.{◌≡◌, ◌≤◌, IfOk, vec_len, OnOk};
ghost use Rattle.script.specs.Bytes.{hex_value, most_bytes};

use crate::bad::{Bad, Stop};
use crate::number::number;
use crate::runs::bytes_before;
use std::alloc::Global;

/// The most bytes that one argument may have.
pub const MOST_BYTES: u32 = 70000;

/// The value of a hex digit.
fn hex_digit(c: u8) -> Option<u32>
    ensures answers { result ≡ hex_value c }
{
    char::from(c).to_digit(16)
}

/// The bytes that an even row of hex digits says.
fn hex_bytes(digits: &[u8], heap: Global) -> Result<Vec<u8>, Stop> {
    let mut bytes = Vec::new(heap);
    let (pairs, _) = digits.as_chunks::<2>();
    for [high, low] in pairs {
        let (Some(high), Some(low)) = (hex_digit(*high), hex_digit(*low)) else {
            return Err(Stop::Line(Bad::Bytes));
        };
        bytes.push((16 * high + low) as u8)?;
    }
    Ok(bytes)
}

/// How often a part is repeated: its text after the digits is empty or `*` and a number.
fn repeats(tail: &[u8]) -> Result<u32, Bad> {
    let [_, count @ ..] = tail else {
        return Ok(1);
    };
    match number(count, MOST_BYTES) {
        Ok(times) => Ok(times),
        Err(Bad::Range) => Err(Bad::TooMany),
        // The only other fault of `number` is `Number`: a list of the cases that never come is no plainer.
        Err(_) => Err(Bad::Bytes),
    }
}

/// Adds some bytes a number of times, where there is room for them.
fn add_copies(once: &[u8], times: u32, out: &mut Vec<u8>, heap: Global) -> Result<(), Stop>
    ensures bound { OnOk result (vec_len out.new ≤ most_bytes) }
{
    let more = once.len().saturating_mul(times as usize);
    if more.saturating_add(out.len()) > MOST_BYTES as usize {
        return Err(Stop::Line(Bad::TooMany));
    }
    // One copy goes straight to its place: `repeat` would make a second row of the bytes.
    if times == 1 {
        out.extend_from_slice(once)?;
    } else {
        let copies = once.repeat(heap, times as usize)?;
        out.extend_from_slice(copies.as_slice())?;
    }
    Ok(())
}

/// Adds the bytes of one part, where there is room for them.
fn add_part(part: &[u8], out: &mut Vec<u8>, heap: Global) -> Result<(), Stop>
    ensures bound { OnOk result (vec_len out.new ≤ most_bytes) }
{
    let (digits, tail) = part.split_at(bytes_before(part, b'*'));
    if digits.is_empty() || digits.len() % 2 != 0 {
        return Err(Stop::Line(Bad::Bytes));
    }
    let once = hex_bytes(digits, heap)?;
    let times = repeats(tail)?;
    add_copies(once.as_slice(), times, out, heap)
}

/// The bytes that a word says.
pub fn read_bytes(word: &[u8], heap: Global) -> Result<Vec<u8>, Stop>
    ensures bound { IfOk result (λ bytes. vec_len bytes ≤ most_bytes) }
{
    let mut out = Vec::new(heap);
    if word == b"-".as_slice() {
        return Ok(out);
    }
    for part in word.split(|c| *c == b'+') {
        add_part(part, &mut out, heap)?;
    }
    Ok(out)
}

/// The bytes that a word says, of which there have to be `size`.
pub fn read_exactly(word: &[u8], size: usize, heap: Global) -> Result<Vec<u8>, Stop>
    ensures bound { IfOk result (λ bytes. vec_len bytes ≡ size) }
{
    let bytes = read_bytes(word, heap)?;
    if bytes.len() != size {
        return Err(Stop::Line(Bad::Length));
    }
    Ok(bytes)
}
