// Decimal numbers of a script.
ghost use Rattle.std.specs.Prelude.{◌≡◌};
ghost use Rattle.script.specs.Numbers.{all_digits, number_in};

use crate::bad::Bad;

/// Whether a word has one or more digits and nothing else.
fn digits_only(word: &[u8]) -> bool
    ensures answers { result ≡ all_digits word.now }
{
    !word.is_empty() && word.iter().all(u8::is_ascii_digit)
}

/// The number that a word says, which is at most `most`.
// Kept out of the loops that call it, which are slower with it inside.
#[inline(never)]
pub fn number(word: &[u8], most: u32) -> Result<u32, Bad>
    ensures answers { result ≡ number_in word.now most }
{
    if !digits_only(word) {
        return Err(Bad::Number);
    }
    // Counted along the digits: `from_utf8` and `parse` go over them once more each.
    let mut value: u64 = 0;
    for c in word {
        let digit = c.saturating_sub(b'0');
        value = 10 * value + digit as u64;
        if value > most as u64 {
            return Err(Bad::Range);
        }
    }
    Ok(value as u32)
}
