// Commands outside a block.
ghost use Rattle.std.specs.Prelude.{◌≤◌};
ghost use Rattle.script.specs.Left.{left};

use crate::args::name;
use crate::page::Page;
use crate::{banks, dongles, hash, readers, stores};
use script::bad::{Bad, Stop};
use script::lines::Lines;
use std::alloc::AllocError;

/// The commands outside a block.
#[derive(Clone, Copy)]
enum Command {
    Digest,
    Tag,
    Bank,
    Dongle,
    Store,
    Reader,
}

impl TryFrom<&[u8]> for Command {
    type Error = Bad;

    fn try_from(name: &[u8]) -> Result<Self, Bad> {
        match name {
            b"digest" => Ok(Command::Digest),
            b"tag" => Ok(Command::Tag),
            b"bank" => Ok(Command::Bank),
            b"dongle" => Ok(Command::Dongle),
            b"store" => Ok(Command::Store),
            b"reader" => Ok(Command::Reader),
            _ => Err(Bad::Command),
        }
    }
}

/// One command, which may read more lines.
// The script and the page are two parameters, and no struct of both: what runs a line gets the page and not the script,
// so the struct would be taken apart at every block.
fn run_command(line: &[u8], lines: &mut Lines, page: &mut Page) -> Result<(), Stop>
    ensures reads { left lines.new ≤ left lines.old }
{
    match Command::try_from(name(line))? {
        Command::Digest => hash::digest_command(line, page),
        Command::Tag => hash::tag_command(line, page),
        Command::Bank => banks::bank_command(line, lines, page),
        Command::Dongle => dongles::dongle_command(line, lines, page),
        Command::Store => stores::store_command(line, lines, page),
        Command::Reader => readers::reader_command(line, lines, page),
    }
}

/// Runs every line of a script.
// Not a `for`: a command that opens a block reads its lines from the same script. Each command leaves no more of the
// script than it found (`reads`), by which this ends.
pub fn run(lines: &mut Lines, page: &mut Page) -> Result<(), AllocError> {
    while let Some(line) = lines.next() {
        page.echo(line)?;
        let ran = run_command(line, lines, page);
        page.settle(ran)?;
    }
    Ok(())
}
