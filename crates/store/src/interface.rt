// What every store shows: the records held and the lengths that fit, and what each call makes of them.
ghost use Rattle.std.specs.Prelude.{◌≡◌, ℕ, Bool, List, length, filter};
ghost use Rattle.std.specs.List.Sorted.{IsPermutation};
ghost use Rattle.std.specs.Result.{OnErr};
ghost use Rattle.store.specs.Meaning.{Bytes, Records, Apart, putting, after_put, covering, covered, stays};

use super::fault::StoreFault;

/// A set of records, no two of one queue sharing a position, in memory of any kind.
pub trait Store {
    // The records, in an order that only forget may change.
    ghost held: { Self → List Bytes };

    // Whether a record of a length fits.
    ghost fits: { Self → ℕ → Bool };

    /// Adds a record, or refuses it as `admit` does and stays as it is.
    fn put(&mut self, record: &[u8]) -> Result<(), StoreFault>
        ensures answers { result ≡ putting (fits self.old (length «record».now)) (held self.old) «record».now }
        ensures becomes { held self.new ≡ after_put (fits self.old (length «record».now)) (held self.old) «record».now }
        ensures keeps { OnErr result ((n : ℕ) → fits self.new n ≡ fits self.old n) };

    /// Tells whether a record of this length fits.
    fn takes(&self, size: usize) -> bool
        ensures answers { result ≡ fits self.now size };

    /// Tells the number of records.
    fn count(&self) -> usize
        ensures answers { result ≡ length (held self.now) };

    /// Copies the record that spans the position to the front of the area and tells its length, or tells none.
    // Two plain numbers, as in `forget`: a pair would be built only to be taken apart.
    fn cover(&self, queue: u8, position: u32, area: &mut [u8]) -> Result<Option<usize>, StoreFault>
        ensures answers { result ≡ covering (held self.now) queue position area.old }
        ensures area { area.new ≡ covered (held self.now) queue position area.old };

    /// Removes the records of the queue whose new is below a number.
    fn forget(&mut self, queue: u8, below: u32)
        ensures becomes { IsPermutation (filter (stays queue below) (held self.old)) (held self.new) };

    ghost records: { (s : Self) → Records (held s) };

    ghost apart: { (s : Self) → Apart (held s) };
}
