// A format of areas: how an area of bytes holds sixteen numbers, and how one of them is raised.
ghost use Rattle.std.specs.Prelude.{◌≡◌, ℕ, ◌<◌, ◌≤◌, true, List, length};
ghost use Rattle.bank.specs.Format.{Format, Sixteen, Holds, size_in};

/// Sixteen parts of one size, a number in each.
// A part is a plain slice of the lent area, and its size a premise of three calls: a type that knows it would be made anew
// for each number that is read.
pub(crate) trait Format {
    /// The most bytes of a part. It differs from format to format.
    const LONGEST: usize;

    // What an area means, which sizes a part may have, and what else is known of a part that was raised.
    ghost format: { Format };

    ghost fits: { ℕ → Type 0 };

    ghost raises: { List ℕ → List ℕ → ℕ → Type 0 };

    // Each format shows that sixteen parts fill an area that can be used, and that they have such a size.
    ghost sixteen: { (area : List ℕ) → format.usable area ≡ true → Sixteen format area };

    ghost parts_fit: { (area : List ℕ) → format.usable area ≡ true → fits (format.size (length area)) };

    /// The bytes of each part of an area, if it can be used.
    fn part_size(area: &[u8]) -> Option<usize>
        ensures answers { result ≡ size_in format area.now };

    /// The limit over parts of so many bytes.
    fn limit(size: usize) -> u32
        requires fits { fits size }
        ensures answers { result ≡ format.limit size };

    /// The number that a part holds.
    fn number(part: &[u8]) -> u32
        requires fits { fits (length part.now) }
        ensures answers { result ≡ format.number part.now };

    /// Raises a part from the number that it holds to a higher one.
    fn raise(part: &mut [u8], from: u32, to: u32)
        requires fits { fits (length part.old) }
        requires from { from ≡ format.number part.old }
        requires higher { from < to }
        requires within { to ≤ format.limit (length part.old) }
        ensures area { part.new ≡ format.raised part.old to }
        ensures holds { Holds format part.old to part.new }
        ensures law { raises part.old part.new to };
}
