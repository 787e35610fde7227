// The tests that every store makes of a record before it takes it.
ghost use Rattle.std.specs.Prelude.{◌≡◌};
ghost use Rattle.store.specs.Meaning.{admitting};

use super::fault::StoreFault;
use notice::Record;

/// Whether a store takes a record, of which it says whether one of its positions is spanned and whether it fits. It is
/// refused, in this order, where it is no record of the high counter of a queue, is spanned, or does not fit. What the
/// store says of bytes that are no record plays no part.
// Two answers and not two closures: a public call that runs what it is handed would require that it may be called.
pub fn admit(record: &Record, is_spanned: bool, fits: bool) -> Result<(), StoreFault>
    ensures answers { result ≡ admitting is_spanned fits «record».now }
{
    if !record.is_valid() {
        return Err(StoreFault::BadRecord);
    }
    if is_spanned {
        return Err(StoreFault::AlreadySpanned(record.counter()));
    }
    if !fits {
        return Err(StoreFault::DoesNotFit(record.counter()));
    }
    Ok(())
}
