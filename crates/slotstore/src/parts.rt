// Slots of a lent area: how many there may be, and their bytes written, moved and freed.
ghost use Rattle.std.specs.Prelude.{◌≡◌, ◌+◌, ◌-◌, ◌*◌, ◌<◌, ◌≤◌, ◌++◌, length, take, drop, slice_index_or, slice_set};
ghost use Rattle.slotstore.specs.Rows.{free_row, row_of};
ghost use Rattle.slotstore.specs.Slots.{slot_size, is_slot_area, slot_copied, slot_freed};

use super::row::Row;
use notice::Record;

/// The bytes of a slot.
pub const SLOT_SIZE: usize = 320;

/// A store has at most so many slots.
pub const SLOT_LIMIT: usize = 200;

// Whether an area of so many bytes is one of as many slots as there are rows.
pub(crate) fn is_slot_area(size: usize, rows: usize) -> bool
    ensures answers { result ≡ is_slot_area size rows }
{
    rows <= SLOT_LIMIT && size == SLOT_SIZE * rows
}

// Writes a record and its row into the next slot, and counts it. One call writes all three, so that a store's facts hold
// before and after.
pub(crate) fn fill_next(area: &mut [u8], rows: &mut [Row], used: &mut usize, bytes: &[u8])
    requires part { slot_size * used.old + length bytes.now ≤ length area.old }
    requires place { used.old < length rows.old }
    ensures area { area.new ≡ (take (slot_size * used.old) area.old ++ bytes.now) ++ drop (slot_size * used.old + length bytes.now) area.old }
    ensures rows { rows.new ≡ slice_set rows.old used.old (row_of bytes.now) }
    ensures used { used.new ≡ used.old + 1 }
{
    let start = SLOT_SIZE * *used;
    area[start..start + bytes.len()].copy_from_slice(bytes);
    rows[*used] = Row::from(&Record::from(bytes));
    *used += 1;
}

// Copies the bytes of one slot over those of another. A slot that is its own target is left, since `copy_within` takes
// bytes one by one where the two places overlap.
#[tactic(auto, using(crate::proofs::Blocks::copied_in_place))]
fn copy_slot(area: &mut [u8], from: usize, to: usize)
    requires from { slot_size * from + slot_size ≤ length area.old }
    requires to { slot_size * to + slot_size ≤ length area.old }
    ensures area { area.new ≡ slot_copied from to area.old }
{
    if to != from {
        let start = SLOT_SIZE * from;
        area.copy_within(start..start + SLOT_SIZE, SLOT_SIZE * to);
    }
}

// Zeroes the bytes of a slot.
fn free_slot(area: &mut [u8], index: usize)
    requires part { slot_size * index + slot_size ≤ length area.old }
    ensures area { area.new ≡ slot_freed index area.old }
{
    let start = SLOT_SIZE * index;
    area[start..start + SLOT_SIZE].fill(0);
}

// Moves the last slot in use and its row to another place, zeroes its own, and counts one fewer.
pub(crate) fn move_last(area: &mut [u8], rows: &mut [Row], used: &mut usize, to: usize)
    requires to { to < used.old }
    requires part { slot_size * used.old ≤ length area.old }
    requires place { used.old ≤ length rows.old }
    ensures area { area.new ≡ slot_freed (used.old - 1) (slot_copied (used.old - 1) to area.old) }
    ensures rows { rows.new ≡ slice_set (slice_set rows.old to (slice_index_or rows.old (used.old - 1) free_row)) (used.old - 1) free_row }
    ensures used { used.new ≡ used.old - 1 }
{
    let last = *used - 1;
    copy_slot(area, last, to);
    free_slot(area, last);
    rows[to] = rows[last];
    rows[last] = Row::default();
    *used = last;
}
