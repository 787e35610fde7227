// The store block.
ghost use Rattle.std.specs.Prelude.{◌≤◌};
ghost use Rattle.script.specs.Left.{left};

use crate::args::{Arguments, name};
use crate::block::run_block;
use crate::page::Page;
use logstore::LogStore;
use script::bad::{Bad, Stop};
use script::bytes::MOST_BYTES;
use script::lines::Lines;
use script::words::Words;
use slotstore::{Row, SlotStore};
use std::alloc::AllocError;
use store::{Store, StoreFault};

/// The stores that a script may open.
#[derive(Clone, Copy)]
pub enum StoreKind {
    Log,
    Slot,
}

impl TryFrom<&[u8]> for StoreKind {
    type Error = Bad;

    fn try_from(word: &[u8]) -> Result<Self, Bad> {
        match word {
            b"log" => Ok(StoreKind::Log),
            b"slot" => Ok(StoreKind::Slot),
            _ => Err(Bad::Word),
        }
    }
}

/// The commands of the block, apart from `close`.
#[derive(Clone, Copy)]
enum StoreCommand {
    Put,
    Takes,
    Cover,
    Forget,
    Count,
}

impl TryFrom<&[u8]> for StoreCommand {
    type Error = Bad;

    fn try_from(name: &[u8]) -> Result<Self, Bad> {
        match name {
            b"put" => Ok(StoreCommand::Put),
            b"takes" => Ok(StoreCommand::Takes),
            b"cover" => Ok(StoreCommand::Cover),
            b"forget" => Ok(StoreCommand::Forget),
            b"count" => Ok(StoreCommand::Count),
            _ => Err(Bad::Command),
        }
    }
}

fn put_line<S: Store>(store: &mut S, line: &[u8], page: &mut Page) -> Result<(), Stop> {
    let mut words = Arguments::new(line, 1, page.heap())?;
    let bytes = words.bytes()?;
    match store.put(bytes.as_slice()) {
        Ok(()) => page.say("put")?,
        Err(fault) => page.say(fault)?,
    }
    Ok(())
}

fn takes_line<S: Store>(store: &S, line: &[u8], page: &mut Page) -> Result<(), Stop> {
    let mut words = Arguments::new(line, 1, page.heap())?;
    let size = words.number(MOST_BYTES)?;
    page.say(if store.takes(size as usize) {
        "yes"
    } else {
        "no"
    })?;
    Ok(())
}

fn cover_line<S: Store>(store: &S, line: &[u8], page: &mut Page) -> Result<(), Stop> {
    let mut words = Arguments::new(line, 3, page.heap())?;
    let queue = words.byte()?;
    let position = words.number(u32::MAX)?;
    let mut area = words.bytes()?;
    match store.cover(queue, position, area.as_mut_slice()) {
        Ok(Some(size)) => page.say(format_args!("record {size}"))?,
        Ok(None) => page.say("none")?,
        Err(fault) => page.say(fault)?,
    }
    page.say_bytes("area", area.as_slice())?;
    Ok(())
}

fn forget_line<S: Store>(store: &mut S, line: &[u8], page: &mut Page) -> Result<(), Stop> {
    let mut words = Arguments::new(line, 2, page.heap())?;
    let queue = words.byte()?;
    let below = words.number(u32::MAX)?;
    store.forget(queue, below);
    page.say("forgot")?;
    Ok(())
}

fn count_line<S: Store>(store: &S, line: &[u8], page: &mut Page) -> Result<(), Stop> {
    Arguments::new(line, 0, page.heap())?;
    let count = store.count();
    page.say(format_args!("count {count}"))?;
    Ok(())
}

fn store_line<S: Store>(store: &mut S, line: &[u8], page: &mut Page) -> Result<(), Stop> {
    match StoreCommand::try_from(name(line))? {
        StoreCommand::Put => put_line(store, line, page),
        StoreCommand::Takes => takes_line(store, line, page),
        StoreCommand::Cover => cover_line(store, line, page),
        StoreCommand::Forget => forget_line(store, line, page),
        StoreCommand::Count => count_line(store, line, page),
    }
}

fn run_store<S: Store + Drop>(
    mut store: S,
    fault: Option<StoreFault>,
    lines: &mut Lines,
    page: &mut Page,
) -> Result<(), Stop>
    ensures reads { left lines.new ≤ left lines.old }
{
    page.say_area(fault)?;
    run_block(lines, page, |line, page| store_line(&mut store, line, page))
}

fn run_log(area: &mut [u8], lines: &mut Lines, page: &mut Page) -> Result<(), Stop>
    ensures reads { left lines.new ≤ left lines.old }
{
    let store = LogStore::open(area);
    let fault = store.area_fault();
    run_store(store, fault, lines, page)
}

fn run_slots(
    area: &mut [u8],
    rows: &mut [Row],
    lines: &mut Lines,
    page: &mut Page,
) -> Result<(), Stop>
    ensures reads { left lines.new ≤ left lines.old }
{
    let store = SlotStore::open(area, rows);
    let fault = store.area_fault();
    run_store(store, fault, lines, page)
}

fn say_row(page: &mut Page, place: usize, row: Row) -> Result<(), AllocError> {
    let Row {
        queue,
        old,
        new,
        length,
    } = row;
    page.say(format_args!("row {place} queue {queue} old {old} new {new} length {length}"))
}

/// A line for each row that is not free.
pub fn say_rows(page: &mut Page, rows: &[Row]) -> Result<(), AllocError> {
    for (place, row) in rows.iter().enumerate() {
        if *row != Row::default() {
            say_row(page, place, *row)?;
        }
    }
    Ok(())
}

fn log_command(line: &[u8], lines: &mut Lines, page: &mut Page) -> Result<(), Stop>
    ensures reads { left lines.new ≤ left lines.old }
{
    let mut words = Arguments::new(line, 2, page.heap())?;
    words.word()?;
    let mut area = words.bytes()?;
    run_log(area.as_mut_slice(), lines, page)?;
    page.say_bytes("area", area.as_slice())?;
    Ok(())
}

fn slot_command(line: &[u8], lines: &mut Lines, page: &mut Page) -> Result<(), Stop>
    ensures reads { left lines.new ≤ left lines.old }
{
    let mut words = Arguments::new(line, 3, page.heap())?;
    words.word()?;
    let mut area = words.bytes()?;
    let count = words.number(MOST_BYTES)?;
    let mut rows = vec![in page.heap(); Row::default(); count as usize]?;
    run_slots(area.as_mut_slice(), rows.as_mut_slice(), lines, page)?;
    page.say_bytes("area", area.as_slice())?;
    say_rows(page, rows.as_slice())?;
    Ok(())
}

pub fn store_command(line: &[u8], lines: &mut Lines, page: &mut Page) -> Result<(), Stop>
    ensures reads { left lines.new ≤ left lines.old }
{
    let kind = Words::new(line).nth(1).unwrap_or(b"");
    match StoreKind::try_from(kind) {
        Ok(StoreKind::Log) => log_command(line, lines, page),
        Ok(StoreKind::Slot) => slot_command(line, lines, page),
        // A wrong number of words is found before a word that is no kind.
        Err(bad) => {
            Arguments::new(line, 3, page.heap())?;
            Err(Stop::Line(bad))
        }
    }
}
