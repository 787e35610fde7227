// Both stores, filled, searched and emptied.
ghost use Rattle.std.specs.Prelude.{◌≡◌, ◌/◌, [], length};
ghost use Rattle.std.specs.Simd.{first_chunks};
ghost use Rattle.speed.specs.Stores.{Fills, Works, copied};

use logstore::LogStore;
use notice::RECORD_LIMIT;
use slotstore::{Row, SLOT_LIMIT, SlotStore};
use store::Store;

// Puts records of one size that stand end to end. A `for`, since no contract sees what a chain's closure does to the store.
fn fill<S: Store>(store: &mut S, records: &[u8], size: usize)
    ensures becomes { Fills (S.held store.old) (first_chunks size (length records.now / size) records.now) (S.held store.new) }
{
    if size == 0 {
        return;
    }
    for record in records.chunks_exact(size) {
        let _ = store.put(record);
    }
}

// Covers the first positions of queue 0 one by one, and tells how many bytes were copied. A `for`, since no contract
// sees what a chain's closure does to the area.
#[tactic(auto, using(crate::proofs::Fills::copied_more), unfolding(store::specs::Meaning::covering))]
fn cover_all<S: Store>(store: &S, positions: u32) -> u32
    ensures answers { result ≡ copied (S.held store.now) positions }
{
    let mut area = [0; RECORD_LIMIT];
    let mut bytes: u32 = 0;
    for position in 0..positions {
        if let Ok(Some(size)) = store.cover(0, position, &mut area) {
            bytes = bytes.saturating_add(u32::try_from(size).unwrap_or(u32::MAX));
        }
    }
    bytes
}

// Fills a store, covers every position, forgets half and then all.
fn work<S: Store + Drop>(mut store: S, records: &[u8], size: usize) -> u32
    ensures answers { Works (S.held store) records.now size result }
{
    fill(&mut store, records, size);
    let taken = u32::try_from(store.count()).unwrap_or(u32::MAX);
    let bytes = cover_all(&store, taken.saturating_add(1));
    store.forget(0, taken / 2);
    store.forget(0, u32::MAX);
    bytes
}

/// Opens a log store over the area and works it; the bytes that covers copied.
#[unsafe(no_mangle)]
pub extern "C" fn speed_log(area: &mut [u8], records: &[u8], size: usize) -> u32
    ensures answers { Works [] records.now size result }
{
    work(LogStore::open(area), records, size)
}

/// Opens a slot store of 200 slots over the area and works it; the bytes that covers copied.
#[unsafe(no_mangle)]
pub extern "C" fn speed_slots(area: &mut [u8], records: &[u8], size: usize) -> u32
    ensures answers { Works [] records.now size result }
{
    let mut rows = [Row::default(); SLOT_LIMIT];
    work(SlotStore::open(area, &mut rows), records, size)
}
