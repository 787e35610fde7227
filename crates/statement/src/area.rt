// A part of a lent area, written or zeroed whole or not at all.
ghost use Rattle.std.specs.Prelude.{◌≡◌, ℕ, ◌+◌, ◌<◌, ◌≤◌, ◌++◌, length, take, drop, replicate};

/// The length is tested, and no part got by `get_mut`: what is written through that is lost to the area's clauses.

/// Copies `from` into the area from the place `at` on; where it does not fit the area stays as it is.
pub fn put(area: &mut [u8], at: usize, from: &[u8])
    ensures front { at + length from.now ≤ length area.old → take (at + length from.now) area.new ≡ take at area.old ++ from.now }
    ensures back { (k : ℕ) → at + length from.now ≤ k → drop k area.new ≡ drop k area.old }
    ensures short { length area.old < at + length from.now → area.new ≡ area.old }
{
    let size = from.len();
    if at <= area.len() && size <= area.len() - at {
        area[at..at + size].copy_from_slice(from);
    }
}

/// Zeroes the bytes from the place `at` on; where so many are not there the area stays as it is.
pub fn clear(area: &mut [u8], at: usize, size: usize)
    ensures front { at + size ≤ length area.old → take (at + size) area.new ≡ take at area.old ++ replicate size 0 }
    ensures back { (k : ℕ) → at + size ≤ k → drop k area.new ≡ drop k area.old }
    ensures short { length area.old < at + size → area.new ≡ area.old }
{
    let room = area.len();
    if at <= room && size <= room - at {
        area[at..at + size].fill(0);
    }
}
