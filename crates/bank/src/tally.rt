// Tally arithmetic over byte slices: counting the zero bits of a region, and clearing its next bits.

ghost use Rattle.std.specs.Prelude.{◌≡◌, ℕ, ◌+◌, ◌≤◌, length, if◌then◌else◌, Some, None, IfSome, IfNone, nat_le};
ghost use Rattle.bank.specs.Tally.{longest_region, bits, bits_in, ones, tally, next_cleared, cleared, raised_by, Clears};

/// The most bytes that a region may have.
pub const LONGEST: usize = 4096;

/// The most significant bit of a byte that is still 1.
#[tactic(auto, using(crate::proofs::ByteLaws::next_by_leading, crate::proofs::ByteLaws::highest_fits))]
fn next_bit(byte: u8) -> Option<u8>
    ensures none { IfNone result (byte ≡ 0) }
    ensures bit { IfSome result (λ bit. next_cleared byte + bit ≡ byte) }
{
    0x80u8.checked_shr(byte.leading_zeros())
}

/// A byte once its next bit is cleared, the most significant that is still 1.
#[tactic(auto, using(crate::proofs::ByteLaws::next_by_leading))]
pub fn clear_next(byte: u8) -> u8
    ensures answers { result ≡ next_cleared byte }
{
    match next_bit(byte) {
        Some(bit) => byte - bit,
        None => byte,
    }
}

/// How many bits of a byte are 1: with so many cleared it is 0.
#[tactic(auto, using(crate::proofs::ByteLaws::ones_of_byte, crate::proofs::ByteLaws::cleared_whole))]
fn ones_in(byte: u8) -> u32
    ensures answers { result ≡ ones (bits byte) }
    ensures whole { (m : ℕ) → result ≤ m → cleared m byte ≡ 0 }
{
    byte.count_ones()
}

/// A byte once its next bits are cleared, one after another.
fn clear_each(byte: u8, many: u32) -> u8
    ensures answers { result ≡ cleared many byte }
{
    let mut rest = byte;
    for _ in 0..many {
        rest = clear_next(rest);
    }
    rest
}

/// A byte once its next bits are cleared, this many of them or all.
pub fn clear_bits(byte: u8, many: u32) -> u8
    ensures answers { result ≡ cleared many byte }
{
    if ones_in(byte) <= many {
        return 0;
    }
    clear_each(byte, many)
}

/// The count of zero bits in a region that is not too long for it.
pub(crate) fn count_zeros(region: &[u8]) -> u32
    requires short { length region.now ≤ longest_region }
    ensures answers { result ≡ tally region.now }
{
    region.iter().map(|byte| byte.count_zeros()).sum()
}

/// The number of a region, or none where it has more than 4,096 bytes.
pub fn number_of(region: &[u8]) -> Option<u32>
    ensures answers { result ≡ (if nat_le (length region.now) longest_region then Some (tally region.now) else None) }
{
    if region.len() > LONGEST {
        return None;
    }
    Some(count_zeros(region))
}

/// Clears the first bits that are still 1, this many of them or all.
pub fn raise_region(region: &mut [u8], by: u32)
    ensures area { region.new ≡ raised_by by region.old }
    ensures law { by ≤ ones (bits_in region.old) → Clears by (bits_in region.old) (bits_in region.new) }
{
    let mut left = by;
    for byte in region.iter_mut() {
        // With nothing left to clear, no later byte is read or written.
        if left == 0 {
            break;
        }
        let ones = ones_in(*byte);
        if ones > left {
            *byte = clear_each(*byte, left);
            break;
        }
        *byte = 0;
        left -= ones;
    }
}
