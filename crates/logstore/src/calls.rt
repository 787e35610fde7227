// The calls of the log store.
ghost use Rattle.std.specs.Prelude.{◌≡◌, ℕ, ◌≤◌, IfSome, true, false, [], ◌∷◌, ◌++◌, length, drop, replicate, if◌then◌else◌, Some, None, filter, nat_le};
ghost use Rattle.std.specs.List.Sorted.{IsPermutation};
ghost use Rattle.std.specs.Option.{option_map};
ghost use Rattle.std.specs.Result.{OnErr};
ghost use Rattle.notice.specs.Limits.{record_limit};
ghost use Rattle.notice.specs.Record.{is_record};
ghost use Rattle.store.specs.declared.fault.StoreFault.TheVariants.{WrongArea};
ghost use Rattle.store.specs.Meaning.{putting, after_put, covering, covered, any_meets, found, spanned, stays};
ghost use Rattle.logstore.specs.Log.{log_limit, log_space, log_takes, parse};
ghost use Rattle.logstore.specs.LogStores.{log_held, log_fits, log_area, log_room, Kept};

use super::edit::{compact, lay};
use super::records::{LENGTH_SIZE, Records};
use super::types::{Extent, LogStore};
use notice::{RECORD_LIMIT, Record, Span};
use store::{Store, StoreFault, admit};

/// The bytes of the largest area that a log can use.
const LOG_LIMIT: usize = 65536;

/// Whether a log can use an area of so many bytes.
fn is_usable(size: usize) -> bool
    ensures answers { result ≡ nat_le size log_limit }
{
    size <= LOG_LIMIT
}

impl<'a> LogStore<'a> {
    /// Opens a store over the area, which it zeroes. An area that is too long stays as it is and is not used.
    pub fn open(area: &'a mut [u8]) -> LogStore<'a>
        ensures answers { log_held result ≡ [] }
        ensures room { log_room result ≡ log_space (length area.old) }
        ensures area { log_area result ≡ replicate (log_space (length area.old)) 0 ++ drop (log_space (length area.old)) area.old }
    {
        if is_usable(area.len()) {
            area.fill(0);
        }
        LogStore {
            area,
            held: Extent::default(),
        }
    }

    /// A fault where the area is too long, none for a good one.
    pub fn area_fault(&self) -> Option<StoreFault>
        ensures answers { result ≡ (if nat_le (length (log_area self.now)) log_limit then None else Some WrongArea) }
    {
        (!is_usable(self.area.len())).then_some(StoreFault::WrongArea)
    }

    /// The records, in the order put.
    #[tactic(auto, using(crate::proofs::Images::sound_layout))]
    fn records(&self) -> Records<'_>
        ensures records { parse result.left result.bytes.now ≡ log_held self.now }
    {
        Records {
            bytes: self.area,
            left: self.held.count,
        }
    }

    /// The record of the queue that spans the position.
    #[tactic(auto, unfolding(notice::specs::Record::covers))]
    fn find(&self, queue: u8, position: u32) -> Option<&[u8]>
        ensures answers { option_map (λ r. r.now) result ≡ found queue position (log_held self.now) }
        ensures short { IfSome result (λ r. length r.now ≤ record_limit) }
    {
        self.records().find(|record| Record::from(*record).span().contains(queue, position))
    }

    /// Whether a record of the span's lane shares a position with the span.
    #[tactic(auto, unfolding(store::specs::Meaning::meets))]
    fn is_spanned(&self, span: &Span) -> bool
        ensures answers { result ≡ any_meets span.now (log_held self.now) }
    {
        self.records()
            .any(|record| Record::from(record).span().meets(span))
    }

    /// Lays a record behind the last.
    fn append(&mut self, record: &[u8])
        requires good { is_record «record».now ≡ true }
        requires free { spanned (log_held self.old) «record».now ≡ false }
        requires fits { log_fits self.old (length «record».now) ≡ true }
        ensures becomes { log_held self.new ≡ log_held self.old ++ «record».now ∷ [] }
        ensures log { Kept self.old self.new }
    {
        lay(self.area, self.held.used, record);
        self.held = self.held.with(record.len());
    }
}

impl<'a> Store for LogStore<'a> {
    ghost held = { log_held };

    ghost fits = { log_fits };

    // As in the other store: shared, it would call `append`, which requires of a record what only its store knows.
    fn put(&mut self, record: &[u8]) -> Result<(), StoreFault>
        ensures answers { result ≡ putting (log_fits self.old (length «record».now)) (log_held self.old) «record».now }
        ensures becomes { log_held self.new ≡ after_put (log_fits self.old (length «record».now)) (log_held self.old) «record».now }
        ensures keeps { OnErr result ((n : ℕ) → log_fits self.new n ≡ log_fits self.old n) }
        ensures log { Kept self.old self.new }
        ensures untouched { OnErr result (log_area self.new ≡ log_area self.old) }
    {
        let parsed = Record::from(record);
        // Bytes that are no record are refused whatever is said of them, so nothing is searched for them.
        admit(
            &parsed,
            parsed.is_valid() && self.is_spanned(&parsed.span()),
            self.takes(record.len()),
        )?;
        self.append(record);
        Ok(())
    }

    fn takes(&self, size: usize) -> bool
        ensures answers { result ≡ log_fits self.now size }
        ensures log { result ≡ log_takes (log_room self.now) (log_held self.now) size }
    {
        is_usable(self.area.len())
            && (self.area.len() - self.held.used)
                .checked_sub(LENGTH_SIZE)
                .is_some_and(|free| size <= free)
    }

    #[tactic(auto, using(crate::proofs::Images::length_parse))]
    fn count(&self) -> usize
        ensures answers { result ≡ length (log_held self.now) }
    {
        self.held.count
    }

    // As in the other store: shared, it would be a public call that requires what is found to be short.
    #[tactic(auto, unfolding(store::specs::Meaning::covering, store::specs::Meaning::covered))]
    fn cover(&self, queue: u8, position: u32, area: &mut [u8]) -> Result<Option<usize>, StoreFault>
        ensures answers { result ≡ covering (log_held self.now) queue position area.old }
        ensures area { area.new ≡ covered (log_held self.now) queue position area.old }
    {
        if area.len() < RECORD_LIMIT {
            return Err(StoreFault::ShortArea);
        }
        let Some(record) = self.find(queue, position) else {
            return Ok(None);
        };
        area[..record.len()].copy_from_slice(record);
        Ok(Some(record.len()))
    }

    fn forget(&mut self, queue: u8, below: u32)
        ensures becomes { IsPermutation (filter (stays queue below) (log_held self.old)) (log_held self.new) }
        ensures order { log_held self.new ≡ filter (stays queue below) (log_held self.old) }
        ensures log { Kept self.old self.new }
    {
        self.held = compact(self.area, self.held, queue, below);
    }

    ghost records = { λ s. s.sound.good };

    ghost apart = { λ s. s.sound.apart };
}
