// The bank block.
ghost use Rattle.std.specs.Prelude.{◌≤◌};
ghost use Rattle.script.specs.Left.{left};

use crate::args::{Arguments, name};
use crate::block::run_block;
use crate::page::Page;
use bank::{Bank, BankFault, TallyBank, WordBank};
use script::bad::{Bad, Stop};
use script::lines::Lines;

/// The banks that a script may open.
#[derive(Clone, Copy)]
pub enum BankKind {
    Word,
    Tally,
}

impl TryFrom<&[u8]> for BankKind {
    type Error = Bad;

    fn try_from(word: &[u8]) -> Result<Self, Bad> {
        match word {
            b"word" => Ok(BankKind::Word),
            b"tally" => Ok(BankKind::Tally),
            _ => Err(Bad::Word),
        }
    }
}

/// The commands of the block, apart from `close`.
#[derive(Clone, Copy)]
enum BankCommand {
    Value,
    Raise,
}

impl TryFrom<&[u8]> for BankCommand {
    type Error = Bad;

    fn try_from(name: &[u8]) -> Result<Self, Bad> {
        match name {
            b"value" => Ok(BankCommand::Value),
            b"raise" => Ok(BankCommand::Raise),
            _ => Err(Bad::Command),
        }
    }
}

fn value_line<B: Bank>(bank: &B, line: &[u8], page: &mut Page) -> Result<(), Stop> {
    let mut words = Arguments::new(line, 1, page.heap())?;
    let counter = words.byte()?;
    page.say_value(bank.value(counter))?;
    Ok(())
}

fn raise_line<B: Bank>(bank: &mut B, line: &[u8], page: &mut Page) -> Result<(), Stop> {
    let mut words = Arguments::new(line, 2, page.heap())?;
    let counter = words.byte()?;
    let to = words.number(u32::MAX)?;
    match bank.raise(counter, to) {
        Ok(()) => page.say("raised")?,
        Err(fault) => page.say(fault)?,
    }
    Ok(())
}

fn bank_line<B: Bank>(bank: &mut B, line: &[u8], page: &mut Page) -> Result<(), Stop> {
    match BankCommand::try_from(name(line))? {
        BankCommand::Value => value_line(bank, line, page),
        BankCommand::Raise => raise_line(bank, line, page),
    }
}

fn run_bank<B: Bank + Drop>(
    mut bank: B,
    fault: Option<BankFault>,
    lines: &mut Lines,
    page: &mut Page,
) -> Result<(), Stop>
    ensures reads { left lines.new ≤ left lines.old }
{
    let limit = bank.limit();
    page.say(format_args!("limit {limit}"))?;
    page.say_area(fault)?;
    run_block(lines, page, |line, page| bank_line(&mut bank, line, page))
}

fn run_kind(kind: BankKind, area: &mut [u8], lines: &mut Lines, page: &mut Page) -> Result<(), Stop>
    ensures reads { left lines.new ≤ left lines.old }
{
    match kind {
        BankKind::Word => {
            let bank = WordBank::open(area);
            let fault = bank.area_fault();
            run_bank(bank, fault, lines, page)
        }
        BankKind::Tally => {
            let bank = TallyBank::open(area);
            let fault = bank.area_fault();
            run_bank(bank, fault, lines, page)
        }
    }
}

pub fn bank_command(line: &[u8], lines: &mut Lines, page: &mut Page) -> Result<(), Stop>
    ensures reads { left lines.new ≤ left lines.old }
{
    let mut words = Arguments::new(line, 2, page.heap())?;
    let kind = BankKind::try_from(words.word()?)?;
    let mut area = words.bytes()?;
    run_kind(kind, area.as_mut_slice(), lines, page)?;
    page.say_bytes("area", area.as_slice())?;
    Ok(())
}
