// A bank over an area that the caller lends, in any format.
ghost use Rattle.std.specs.Prelude.{◌≡◌, ◌<◌, true, false, length, IsOk, slice_index, if◌then◌else◌, Some, None};
ghost use Rattle.bank.specs.declared.fault.BankFault.TheVariants.{WrongArea};
ghost use Rattle.bank.specs.Bank.{counters, MayRaise, telling, raising, raised};
ghost use Rattle.bank.specs.Format.{part_of, size_in, numbers_by, limit_by, raised_by_format};

use crate::counters::{Bank, LAST_COUNTER, rises};
use crate::fault::BankFault;
use crate::format::Format;
use std::marker::PhantomData;

/// Sixteen counters in an area that the caller lends.
#[derive(Drop)]
pub struct AreaBank<'a, F: Format> {
    area: &'a mut [u8],
    // The bytes of each counter's part, if the area can be used.
    size: Option<usize>,
    format: PhantomData<F>,
    ghost known: { size ≡ size_in F.format area.now },
}

impl<'a, F: Format> AreaBank<'a, F> {
    ghost use Rattle.bank.specs.AreaBank.{area_of};

    /// Takes the area as it is; one that cannot be used is never written.
    pub fn open(area: &'a mut [u8]) -> Self
        ensures area { area_of result ≡ area.old }
        ensures lends { result.area.ghost_name ≡ area.entry.ghost_name }
    {
        let size = F::part_size(area);
        Self {
            area,
            size,
            format: PhantomData,
        }
    }

    /// What is wrong with the area, if it cannot be used.
    pub fn area_fault(&self) -> Option<BankFault>
        ensures answers { result ≡ (if F.format.usable (area_of self.now) then None else Some WrongArea) }
    {
        self.size.is_none().then_some(BankFault::WrongArea)
    }

    /// Lets the bank go, and hands its area back.
    pub fn into_area(self) -> &'a mut [u8]
        ensures answers { result.now ≡ area_of self.entry }
    {
        let AreaBank {
            area,
            size: _,
            format: _,
        } = self;
        area
    }
}

/// The number in the part of a counter.
// The range is written here and in `raise_at`: one function for it would need a premise, and a clause for each end, for a line.
fn number_at<F: Format>(area: &[u8], size: usize, counter: u8) -> u32
    requires usable { size_in F.format area.now ≡ Some size }
    requires counter { counter < counters }
    ensures answers { result ≡ slice_index (numbers_by F.format area.now) counter }
{
    let at = size * usize::from(counter);
    F::number(&area[at..at + size])
}

/// Raises the part of a counter from the number that it holds to a higher one.
fn raise_at<F: Format>(area: &mut [u8], size: usize, counter: u8, from: u32, to: u32)
    requires usable { size_in F.format area.old ≡ Some size }
    requires from { from ≡ slice_index (numbers_by F.format area.old) counter }
    requires rises { MayRaise (limit_by F.format area.old) (numbers_by F.format area.old) counter to }
    ensures area { area.new ≡ raised_by_format F.format area.old counter to }
    ensures becomes { numbers_by F.format area.new ≡ raised (limit_by F.format area.old) (numbers_by F.format area.old) counter to }
    ensures law { F.raises (part_of F.format area.old counter) (part_of F.format area.new counter) to }
    ensures size { size_in F.format area.new ≡ size_in F.format area.old }
    ensures keeps { limit_by F.format area.new ≡ limit_by F.format area.old }
{
    let at = size * usize::from(counter);
    F::raise(&mut area[at..at + size], from, to);
}

// Over words, `numbers_by`, `limit_by`, `raised_by_format` and `usable` of the format are `numbers_in`, `limit_of`,
// `area_raised` and `word_area` of specs/Word, and over tallies those of specs/TallyArea.
impl<F: Format> Bank for AreaBank<'_, F> {
    ghost use Rattle.bank.specs.AreaBank.{area_of};
    ghost use Rattle.bank.specs.Soundness.{format_sound};

    ghost numbers = { λ b. numbers_by F.format (area_of b) };

    ghost bound = { λ b. limit_by F.format (area_of b) };

    fn value(&self, counter: u8) -> Result<u32, BankFault> {
        if counter > LAST_COUNTER {
            return Err(BankFault::NoCounter(counter));
        }
        // An area that cannot be used means sixteen zeros, under the limit 0.
        let Some(size) = self.size else {
            return Ok(0);
        };
        Ok(number_at::<F>(self.area, size, counter))
    }

    fn raise(&mut self, counter: u8, to: u32) -> Result<(), BankFault>
        ensures answers { result ≡ raising (limit_by F.format (area_of self.old)) (numbers_by F.format (area_of self.old)) counter to }
        ensures becomes { numbers_by F.format (area_of self.new) ≡ raised (limit_by F.format (area_of self.old)) (numbers_by F.format (area_of self.old)) counter to }
        ensures area { area_of self.new ≡ raised_by_format F.format (area_of self.old) counter to }
        ensures unusable { F.format.usable (area_of self.old) ≡ false → area_of self.new ≡ area_of self.old }
        ensures law { IsOk result → F.raises (part_of F.format (area_of self.old) counter) (part_of F.format (area_of self.new) counter) to }
        ensures keeps { limit_by F.format (area_of self.new) ≡ limit_by F.format (area_of self.old) }
        ensures lends { self.new.area.ghost_name ≡ self.old.area.ghost_name }
    {
        let old = self.value(counter)?;
        rises(self.limit(), old, counter, to)?;
        if let Some(size) = self.size {
            raise_at::<F>(self.area, size, counter, old, to);
        }
        Ok(())
    }

    fn limit(&self) -> u32 {
        match self.size {
            Some(size) => F::limit(size),
            None => 0,
        }
    }

    ghost sound = { λ b. format_sound F.format F.sixteen (area_of b) };
}
