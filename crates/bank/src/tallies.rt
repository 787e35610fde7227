// The format of a tally bank: the count of zero bits in a region is its number.
ghost use Rattle.std.specs.Prelude.{◌≡◌, ◌≤◌};
ghost use Rattle.bank.specs.Soundness.{tally_sixteen, tally_short};
ghost use Rattle.bank.specs.Tally.{longest_region};
ghost use Rattle.bank.specs.TallyArea.{tally_area, tally_format, Raises};

use crate::counters::COUNTERS;
use crate::format::Format;
use crate::tally::{LONGEST, count_zeros, raise_region};

/// The most bytes of an area.
const LONGEST_AREA: usize = COUNTERS * LONGEST;

/// Sixteen tallies, each in a region of bytes.
#[derive(Clone, Copy, Debug)]
pub struct Tallies;

/// Whether there are sixteen regions of 1 to 4,096 bytes, and nothing more.
#[tactic(auto, unfolding(crate::specs::TallyArea::tally_area))]
fn is_usable(area: &[u8]) -> bool
    ensures answers { result ≡ tally_area area.now }
{
    area.len() % COUNTERS == 0 && !area.is_empty() && area.len() <= LONGEST_AREA
}

impl Format for Tallies {
    const LONGEST: usize = LONGEST;

    ghost format = { tally_format };

    ghost fits = { λ size. size ≤ longest_region };

    ghost raises = { Raises };

    ghost sixteen = { tally_sixteen };

    ghost parts_fit = { tally_short };

    fn part_size(area: &[u8]) -> Option<usize> {
        is_usable(area).then_some(area.len() / COUNTERS)
    }

    fn limit(size: usize) -> u32 {
        8 * size as u32
    }

    fn number(part: &[u8]) -> u32 {
        count_zeros(part)
    }

    #[tactic(auto, using(crate::proofs::Holding::tally_holds, crate::proofs::Holding::tally_raises))]
    fn raise(part: &mut [u8], from: u32, to: u32) {
        raise_region(part, to - from);
    }
}
