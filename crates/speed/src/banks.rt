// Tally banks.
ghost use Rattle.std.specs.Prelude.{◌≡◌};
ghost use Rattle.bank.specs.Bank.{telling, raising};
ghost use Rattle.bank.specs.TallyArea.{numbers_in, limit_of, area_raised};
ghost use Rattle.speed.specs.Banks.{number_or, code};

use bank::{Bank, TallyBank};

/// What stands for a refusal where a number is answered: one more than any number of 32 bits.
const REFUSED: u64 = 0x1_0000_0000;

/// A counter's number, or 2^32 where it is refused: a number, since an enum does not cross to C.
#[unsafe(no_mangle)]
pub extern "C" fn speed_tally_value(area: &mut [u8], counter: u8) -> u64
    ensures answers { result ≡ number_or (telling (numbers_in area.old) counter) }
    ensures area { area.new ≡ area.old }
{
    let bank = TallyBank::open(area);
    match bank.value(counter) {
        Ok(number) => u64::from(number),
        Err(_) => REFUSED,
    }
}

/// Raises a counter; 0, or the refusal's number.
#[unsafe(no_mangle)]
pub extern "C" fn speed_tally_raise(area: &mut [u8], counter: u8, to: u32) -> u32
    ensures answers { result ≡ code (raising (limit_of area.old) (numbers_in area.old) counter to) }
    ensures area { area.new ≡ area_raised area.old counter to }
{
    let mut bank = TallyBank::open(area);
    match bank.raise(counter, to) {
        Ok(()) => 0,
        Err(fault) => fault.number(),
    }
}
