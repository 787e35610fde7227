// The slot store: its slots and rows, and the calls on them.
ghost use Rattle.std.specs.Prelude.{length};
ghost use Rattle.slotstore.specs.Slots.{SoundSlots, slot_space};

use super::parts::{SLOT_SIZE, fill_next, is_slot_area, move_last};
use super::row::Row;
use super::search::{first_below, first_covering, is_spanned};
use notice::{RECORD_LIMIT, Record, Span};
use store::{Store, StoreFault, admit};

/// Records in slots of equal size, those in use first, each told by its row. Both the slots and the rows are lent.
// Rows lie beside the slots, in a lent slice of structs and not in the slots' bytes: their lender reads them as rows.
#[derive(Drop)]
pub struct SlotStore<'a> {
    area: &'a mut [u8],
    rows: &'a mut [Row],
    // Counted beside the slots, since the memory is the caller's.
    used: usize,
    ghost sound: { SoundSlots area.now rows.now (slot_space (length area.now) (length rows.now)) used },
}

impl<'a> SlotStore<'a> {
    ghost use Rattle.std.specs.Prelude.{◌≡◌, ◌*◌, ◌+◌, ◌-◌, ◌<◌, ◌≤◌, true, false, [], ◌∷◌, ◌++◌, take, drop, replicate, if◌then◌else◌, Some, None, IfSome, not, nat_lt, slice_index_or, option_map};
    ghost use Rattle.std.specs.List.{position, swap_remove};
    ghost use Rattle.notice.specs.Limits.{record_limit};
    ghost use Rattle.notice.specs.Record.{is_record};
    ghost use Rattle.store.specs.declared.fault.StoreFault.TheVariants.{WrongArea};
    ghost use Rattle.store.specs.Meaning.{any_meets, spanned, found, stays};
    ghost use Rattle.slotstore.specs.Rows.{free_row};
    ghost use Rattle.slotstore.specs.Slots.{slot_size, is_slot_area};
    ghost use Rattle.slotstore.specs.SlotStores.{slot_held, slot_fits, slot_area, slot_rows, slot_count, Kept};

    /// Opens a store over as many slots as there are rows, and zeroes both. An area of another size, or too many rows,
    /// stay as they are and are not used.
    pub fn open(area: &'a mut [u8], rows: &'a mut [Row]) -> SlotStore<'a>
        ensures answers { slot_held result ≡ [] }
        ensures slots { slot_count result ≡ slot_space (length area.old) (length rows.old) }
        ensures area { let slots = slot_space (length area.old) (length rows.old) in slot_area result ≡ replicate (slot_size * slots) 0 ++ drop (slot_size * slots) area.old }
        ensures rows { let slots = slot_space (length area.old) (length rows.old) in slot_rows result ≡ replicate slots free_row ++ drop slots rows.old }
    {
        if is_slot_area(area.len(), rows.len()) {
            area.fill(0);
            rows.fill(Row::default());
        }
        SlotStore {
            area,
            rows,
            used: 0,
        }
    }

    /// A fault where the area is not one of as many slots as there are rows, or they are too many; none for a good one.
    pub fn area_fault(&self) -> Option<StoreFault>
        ensures answers { result ≡ (if is_slot_area (length (slot_area self.now)) (length (slot_rows self.now)) then None else Some WrongArea) }
    {
        (!is_slot_area(self.area.len(), self.rows.len())).then_some(StoreFault::WrongArea)
    }

    // Whether a slot is free.
    fn has_room(&self) -> bool
        ensures answers { result ≡ slot_fits self.now 0 }
    {
        self.area_fault().is_none() && self.used < self.rows.len()
    }

    // The record in a slot in use.
    fn record(&self, index: usize) -> &[u8]
        requires { index < self.now.used }
        ensures answers { result.now ≡ slice_index_or (slot_held self.now) index [] }
        ensures short { length result.now ≤ record_limit }
    {
        let start = SLOT_SIZE * index;
        &self.area[start..start + self.rows[index].length]
    }

    // The record of the queue that spans the position.
    fn find(&self, queue: u8, position: u32) -> Option<&[u8]>
        ensures answers { option_map (λ r. r.now) result ≡ found queue position (slot_held self.now) }
        ensures short { IfSome result (λ r. length r.now ≤ record_limit) }
    {
        let index = first_covering(&self.rows[..self.used], queue, position)?;
        Some(self.record(index))
    }

    // Whether a record of the span's lane shares a position with the span.
    #[tactic(auto, using(crate::proofs::Stores::met_by_row))]
    fn is_spanned(&self, span: &Span) -> bool
        ensures answers { result ≡ any_meets span.now (slot_held self.now) }
    {
        is_spanned(&self.rows[..self.used], span)
    }

    // Puts a record into the next slot.
    fn append(&mut self, bytes: &[u8])
        requires good { is_record bytes.now ≡ true }
        requires free { spanned (slot_held self.old) bytes.now ≡ false }
        requires fits { slot_fits self.old (length bytes.now) ≡ true }
        ensures becomes { slot_held self.new ≡ slot_held self.old ++ bytes.now ∷ [] }
        ensures keeps { Kept self.old self.new }
    {
        fill_next(self.area, self.rows, &mut self.used, bytes);
    }

    // Gives a slot the contents of the last one in use, and frees that.
    fn vacate(&mut self, index: usize)
        requires { index < self.old.used }
        ensures becomes { slot_held self.new ≡ swap_remove (slot_held self.old) index [] }
        ensures fewer { self.new.used + 1 ≡ self.old.used }
        ensures keeps { Kept self.old self.new }
    {
        move_last(self.area, self.rows, &mut self.used, index);
    }

    // The first slot from a place on whose record is of the queue and ends below a number.
    fn next_below(&self, from: usize, queue: u8, below: u32) -> Option<usize>
        requires { from ≤ self.now.used }
        ensures answers { result ≡ option_map (λ k. from + k) (position (λ r. not (stays queue below r)) (drop from (slot_held self.now))) }
    {
        let ahead = first_below(&self.rows[from..self.used], queue, below)?;
        Some(from + ahead)
    }
}

impl<'a> Store for SlotStore<'a> {
    ghost use Rattle.std.specs.Prelude.{◌≡◌, ℕ, filter, nat_lt};
    ghost use Rattle.std.specs.List.Sorted.{IsPermutation};
    ghost use Rattle.std.specs.Result.{OnErr};
    ghost use Rattle.store.specs.Meaning.{putting, after_put, covering, covered, stays};
    ghost use Rattle.slotstore.specs.Slots.{swept};
    ghost use Rattle.slotstore.specs.SlotStores.{slot_held, slot_fits, slot_area, slot_rows, slot_count, Kept};

    ghost held = { slot_held };

    ghost fits = { slot_fits };

    // As in the other store: shared, it would call `append`, which requires of a record what only its store knows.
    fn put(&mut self, record: &[u8]) -> Result<(), StoreFault>
        ensures answers { result ≡ putting (slot_fits self.old (length «record».now)) (slot_held self.old) «record».now }
        ensures becomes { slot_held self.new ≡ after_put (slot_fits self.old (length «record».now)) (slot_held self.old) «record».now }
        ensures keeps { OnErr result ((n : ℕ) → slot_fits self.new n ≡ slot_fits self.old n) }
        ensures slots { Kept self.old self.new }
        ensures area { OnErr result (slot_area self.new ≡ slot_area self.old) }
        ensures rows { OnErr result (slot_rows self.new ≡ slot_rows self.old) }
    {
        let parsed = Record::from(record);
        // Bytes that are no record are refused whatever is said of them, so nothing is searched for them.
        admit(
            &parsed,
            parsed.is_valid() && self.is_spanned(&parsed.span()),
            self.takes(record.len()),
        )?;
        self.append(record);
        Ok(())
    }

    #[tactic(auto, using(crate::proofs::Images::length_in_slots))]
    fn takes(&self, size: usize) -> bool
        ensures answers { result ≡ slot_fits self.now size }
        ensures slots { result ≡ nat_lt (length (slot_held self.now)) (slot_count self.now) }
    {
        self.has_room()
    }

    #[tactic(auto, using(crate::proofs::Images::length_in_slots))]
    fn count(&self) -> usize
        ensures answers { result ≡ length (slot_held self.now) }
    {
        self.used
    }

    // As in the other store: shared, it would be a public call that requires what is found to be short.
    #[tactic(auto, unfolding(store::specs::Meaning::covering, store::specs::Meaning::covered))]
    fn cover(&self, queue: u8, position: u32, area: &mut [u8]) -> Result<Option<usize>, StoreFault>
        ensures answers { result ≡ covering (slot_held self.now) queue position area.old }
        ensures area { area.new ≡ covered (slot_held self.now) queue position area.old }
    {
        if area.len() < RECORD_LIMIT {
            return Err(StoreFault::ShortArea);
        }
        let Some(record) = self.find(queue, position) else {
            return Ok(None);
        };
        area[..record.len()].copy_from_slice(record);
        Ok(Some(record.len()))
    }

    fn forget(&mut self, queue: u8, below: u32)
        ensures becomes { IsPermutation (filter (stays queue below) (slot_held self.old)) (slot_held self.new) }
        ensures order { slot_held self.new ≡ swept (length (slot_held self.old)) (stays queue below) (slot_held self.old) }
        ensures slots { Kept self.old self.new }
    {
        // The slot that the last record was moved to is tried next: an iterator would borrow the rows that the loop moves.
        let mut from = 0;
        while let Some(index) = self.next_below(from, queue, below) {
            self.vacate(index);
            from = index;
        }
    }

    ghost records = { λ s. s.sound.good };

    ghost apart = { λ s. s.sound.apart };
}
