// Changes of a log's area: a record laid behind the last, and kept records moved together.
ghost use Rattle.std.specs.Prelude.{◌≡◌, ℕ, ◌+◌, ◌<◌, ◌≤◌, ◌-◌, ◌++◌, length, take, drop, replicate, filter};
ghost use Rattle.std.specs.List.{copy_within};
ghost use Rattle.store.specs.Meaning.{stays};
ghost use Rattle.logstore.specs.Log.{length_size, log_limit, two, laid, parse, Layout};

use super::records::{LENGTH_SIZE, split_first_record};
use super::types::Extent;
use notice::Record;

/// Lays a record at a place, after its length.
#[tactic(auto, using(crate::proofs::Logs::written_behind))]
pub(crate) fn lay(area: &mut [u8], at: usize, record: &[u8])
    requires room { at + (length_size + length «record».now) ≤ length area.old }
    requires short { length «record».now < log_limit }
    ensures area { area.new ≡ take at area.old ++ (two (length «record».now) ++ («record».now ++ drop (at + (length_size + length «record».now)) area.old)) }
{
    let size = record.len();
    let start = at + LENGTH_SIZE;
    area[at..start].copy_from_slice(&(size as u16).to_be_bytes());
    area[start..start + size].copy_from_slice(record);
}

/// Moves the bytes between two places down to another. Those that lie there already are left, since `copy_within` takes
/// them one by one.
#[tactic(auto, using(crate::proofs::Compacting::paste_in_place))]
fn move_down(area: &mut [u8], from: usize, end: usize, to: usize)
    requires down { to ≤ from }
    requires part { from ≤ end }
    requires inside { end ≤ length area.old }
    ensures area { area.new ≡ copy_within area.old from end to }
{
    if to != from {
        area.copy_within(from..end, to);
    }
}

/// Moves the records that stay together, in their order, clears what they leave, and tells how far they reach and
/// how many they are.
// The place is counted along, since an iterator over the records would borrow the area that the loop writes.
pub(crate) fn compact(area: &mut [u8], held: Extent, queue: u8, below: u32) -> Extent
    requires lies { Layout held.count area.old }
    requires reach { held.used ≡ length (laid (parse held.count area.old)) }
    ensures area { area.new ≡ laid (filter (stays queue below) (parse held.count area.old)) ++ (replicate (held.used - result.used) 0 ++ drop held.used area.old) }
    ensures used { result.used ≡ length (laid (filter (stays queue below) (parse held.count area.old))) }
    ensures count { result.count ≡ length (filter (stays queue below) (parse held.count area.old)) }
    ensures less { result.used ≤ held.used }
{
    let mut at = 0;
    let mut kept = Extent::default();
    for _ in 0..held.count {
        let (record, _) = split_first_record(&area[at..]);
        let size = record.len();
        let next = at + (LENGTH_SIZE + size);
        if Record::from(record).span().is_kept(queue, below) {
            move_down(area, at, next, kept.used);
            kept = kept.with(size);
        }
        at = next;
    }
    area[kept.used..held.used].fill(0);
    kept
}
