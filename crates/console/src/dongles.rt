// The dongle block.
ghost use Rattle.std.specs.Prelude.{◌≤◌};
ghost use Rattle.script.specs.Left.{left};

use crate::args::{Arguments, name};
use crate::banks::BankKind;
use crate::block::run_block;
use crate::page::Page;
use bank::{Bank, TallyBank, WordBank};
use dongle::{Dongle, DongleFault, FirstDongle, SecondDongle};
use script::bad::{Bad, Stop};
use script::bytes::MOST_BYTES;
use script::lines::Lines;
use statement::{STATEMENT_SIZE, SignedStatement};

/// The makes of dongle that a script may open.
#[derive(Clone, Copy)]
pub enum Make {
    First,
    Second,
}

impl TryFrom<&[u8]> for Make {
    type Error = Bad;

    fn try_from(word: &[u8]) -> Result<Self, Bad> {
        match word {
            b"first" => Ok(Make::First),
            b"second" => Ok(Make::Second),
            _ => Err(Bad::Word),
        }
    }
}

/// The commands of the block over any dongle, apart from `close`.
#[derive(Clone, Copy)]
enum DongleCommand {
    Value,
    Attest,
    Status,
}

impl TryFrom<&[u8]> for DongleCommand {
    type Error = Bad;

    fn try_from(name: &[u8]) -> Result<Self, Bad> {
        match name {
            b"value" => Ok(DongleCommand::Value),
            b"attest" => Ok(DongleCommand::Attest),
            b"status" => Ok(DongleCommand::Status),
            _ => Err(Bad::Command),
        }
    }
}

/// The commands of the block over the second dongle, which also has a list of its own.
#[derive(Clone, Copy)]
enum SecondCommand {
    Recent,
    Dongle(DongleCommand),
}

impl TryFrom<&[u8]> for SecondCommand {
    type Error = Bad;

    fn try_from(name: &[u8]) -> Result<Self, Bad> {
        match name {
            b"recent" => Ok(SecondCommand::Recent),
            _ => Ok(SecondCommand::Dongle(DongleCommand::try_from(name)?)),
        }
    }
}

/// A signed statement, in two lines.
pub fn say_signed(page: &mut Page, signed: SignedStatement) -> Result<(), Stop> {
    let bytes: [u8; STATEMENT_SIZE] = signed.statement.into();
    page.say_bytes("statement", &bytes)?;
    page.say_bytes("tag", &signed.tag)?;
    Ok(())
}

/// What attest or status answered, and the working area after it.
fn say_answer(
    page: &mut Page,
    answer: Result<SignedStatement, DongleFault>,
    working: &[u8],
) -> Result<(), Stop> {
    match answer {
        Ok(signed) => say_signed(page, signed)?,
        Err(fault) => page.say(fault)?,
    }
    page.say_bytes("working", working)?;
    Ok(())
}

fn value_line<D: Dongle>(dongle: &D, line: &[u8], page: &mut Page) -> Result<(), Stop> {
    let mut words = Arguments::new(line, 1, page.heap())?;
    let counter = words.byte()?;
    page.say_value(dongle.value(counter))?;
    Ok(())
}

fn attest_line<D: Dongle>(dongle: &mut D, line: &[u8], page: &mut Page) -> Result<(), Stop> {
    let mut words = Arguments::new(line, 4, page.heap())?;
    let counter = words.byte()?;
    let to = words.number(u32::MAX)?;
    let matter = words.array()?;
    let mut working = words.bytes()?;
    let answer = dongle.attest(counter, to, matter, working.as_mut_slice());
    say_answer(page, answer, working.as_slice())
}

fn status_line<D: Dongle>(dongle: &D, line: &[u8], page: &mut Page) -> Result<(), Stop> {
    let mut words = Arguments::new(line, 3, page.heap())?;
    let counter = words.byte()?;
    let nonce = words.array()?;
    let mut working = words.bytes()?;
    let answer = dongle.status(counter, nonce, working.as_mut_slice());
    say_answer(page, answer, working.as_slice())
}

fn recent_line<D: Dongle>(
    dongle: &SecondDongle<D>,
    line: &[u8],
    page: &mut Page,
) -> Result<(), Stop> {
    let mut words = Arguments::new(line, 1, page.heap())?;
    let k = words.number(MOST_BYTES)?;
    match dongle.recent(k as usize) {
        Some(signed) => say_signed(page, signed)?,
        None => page.say("none")?,
    }
    Ok(())
}

fn run_command<D: Dongle>(
    dongle: &mut D,
    command: DongleCommand,
    line: &[u8],
    page: &mut Page,
) -> Result<(), Stop> {
    match command {
        DongleCommand::Value => value_line(dongle, line, page),
        DongleCommand::Attest => attest_line(dongle, line, page),
        DongleCommand::Status => status_line(dongle, line, page),
    }
}

fn first_line<D: Dongle>(dongle: &mut D, line: &[u8], page: &mut Page) -> Result<(), Stop> {
    let command = DongleCommand::try_from(name(line))?;
    run_command(dongle, command, line, page)
}

fn second_line<D: Dongle>(
    dongle: &mut SecondDongle<D>,
    line: &[u8],
    page: &mut Page,
) -> Result<(), Stop> {
    match SecondCommand::try_from(name(line))? {
        SecondCommand::Recent => recent_line(dongle, line, page),
        SecondCommand::Dongle(command) => run_command(dongle, command, line, page),
    }
}

/// What the first words of a dongle's line ask for.
#[derive(Clone, Copy)]
pub struct Plan {
    pub make: Make,
    pub bank: BankKind,
    pub identity: [u8; 8],
    pub key: [u8; 32],
}

fn run_over<B: Bank + Drop>(
    bank: B,
    plan: &Plan,
    lines: &mut Lines,
    page: &mut Page,
) -> Result<(), Stop>
    ensures reads { left lines.new ≤ left lines.old }
{
    let mut first = FirstDongle::new(bank, plan.identity, plan.key);
    page.say_bytes("identity", &first.identity())?;
    let limit = first.limit();
    page.say(format_args!("limit {limit}"))?;
    match plan.make {
        Make::First => run_block(lines, page, |line, page| first_line(&mut first, line, page)),
        Make::Second => {
            let mut second = SecondDongle::new(first);
            run_block(
                lines,
                page,
                |line, page| second_line(&mut second, line, page),
            )
        }
    }
}

fn run_plan(area: &mut [u8], plan: &Plan, lines: &mut Lines, page: &mut Page) -> Result<(), Stop>
    ensures reads { left lines.new ≤ left lines.old }
{
    match plan.bank {
        BankKind::Word => run_over(WordBank::open(area), plan, lines, page),
        BankKind::Tally => run_over(TallyBank::open(area), plan, lines, page),
    }
}

pub fn dongle_command(line: &[u8], lines: &mut Lines, page: &mut Page) -> Result<(), Stop>
    ensures reads { left lines.new ≤ left lines.old }
{
    let mut words = Arguments::new(line, 5, page.heap())?;
    let make = Make::try_from(words.word()?)?;
    let bank = BankKind::try_from(words.word()?)?;
    let mut area = words.bytes()?;
    let identity = words.array()?;
    let key = words.array()?;
    let plan = Plan {
        make,
        bank,
        identity,
        key,
    };
    run_plan(area.as_mut_slice(), &plan, lines, page)?;
    page.say_bytes("area", area.as_slice())?;
    Ok(())
}
