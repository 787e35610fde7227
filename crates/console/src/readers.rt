// The reader block.
ghost use Rattle.std.specs.Prelude.{◌≤◌};
ghost use Rattle.script.specs.Left.{left};

use crate::args::{Arguments, name};
use crate::block::run_block;
use crate::page::Page;
use notice::Kind;
use reader::{Asked, Reader, ReaderFault, Verdict};
use script::bad::{Bad, Stop};
use script::lines::Lines;
use script::number::number;
use std::alloc::AllocError;

/// The commands of the block, apart from `close`.
#[derive(Clone, Copy)]
enum ReaderCommand {
    Check,
    GiveUp,
}

impl TryFrom<&[u8]> for ReaderCommand {
    type Error = Bad;

    fn try_from(name: &[u8]) -> Result<Self, Bad> {
        match name {
            b"check" => Ok(ReaderCommand::Check),
            b"give-up" => Ok(ReaderCommand::GiveUp),
            _ => Err(Bad::Command),
        }
    }
}

fn kind_word(kind: Kind) -> &'static str {
    match kind {
        Kind::Found => "found",
        Kind::Skipped => "skipped",
        Kind::Forgotten => "forgotten",
        Kind::NotYet => "not-yet",
        Kind::End => "end",
        Kind::EndOfEmpty => "end-of-empty",
    }
}

pub fn say_accepted(page: &mut Page, verdict: Verdict) -> Result<(), AllocError> {
    let kind = kind_word(verdict.kind);
    let Verdict {
        position,
        high,
        text_place,
        text_length,
        ..
    } = verdict;
    page.say(format_args!(
        "accepted {kind} position {position} high {high} text {text_place} {text_length}"
    ))
}

/// A position, or the word `end`.
pub fn asked(word: &[u8]) -> Result<Asked, Bad> {
    match word {
        b"end" => Ok(Asked::End),
        _ => Ok(Asked::Position(number(word, u32::MAX)?)),
    }
}

fn check_line(reader: &Reader, line: &[u8], page: &mut Page) -> Result<(), Stop> {
    let mut words = Arguments::new(line, 5, page.heap())?;
    let queue = words.byte()?;
    let what = asked(words.word()?)?;
    let nonce = words.array()?;
    let answer = words.bytes()?;
    let mut working = words.bytes()?;
    match reader.draw(queue, what, nonce) {
        Err(fault) => page.say(fault)?,
        Ok(challenge) => {
            let verdict = reader.check(challenge, answer.as_slice(), working.as_mut_slice());
            say_verdict(page, verdict)?;
            page.say_bytes("working", working.as_slice())?;
        }
    }
    Ok(())
}

/// What a check answered.
fn say_verdict(page: &mut Page, verdict: Result<Verdict, ReaderFault>) -> Result<(), AllocError> {
    match verdict {
        Ok(accepted) => say_accepted(page, accepted),
        Err(fault) => page.say(fault),
    }
}

fn give_up_line(reader: &Reader, line: &[u8], page: &mut Page) -> Result<(), Stop> {
    let mut words = Arguments::new(line, 3, page.heap())?;
    let queue = words.byte()?;
    let what = asked(words.word()?)?;
    let nonce = words.array()?;
    match reader.draw(queue, what, nonce) {
        Err(fault) => page.say(fault)?,
        Ok(challenge) => {
            let _question = challenge.give_up();
            page.say("given up")?;
        }
    }
    Ok(())
}

fn reader_line(reader: &Reader, line: &[u8], page: &mut Page) -> Result<(), Stop> {
    match ReaderCommand::try_from(name(line))? {
        ReaderCommand::Check => check_line(reader, line, page),
        ReaderCommand::GiveUp => give_up_line(reader, line, page),
    }
}

pub fn reader_command(line: &[u8], lines: &mut Lines, page: &mut Page) -> Result<(), Stop>
    ensures reads { left lines.new ≤ left lines.old }
{
    let mut words = Arguments::new(line, 2, page.heap())?;
    let identity = words.array()?;
    let key = words.array()?;
    let reader = Reader::new(identity, key);
    run_block(lines, page, |line, page| reader_line(&reader, line, page))?;
    page.say("closed")?;
    Ok(())
}
