// Every vector in turn, a line for each, and the count.
use crate::vector::{VectorKind, is_right};
use script::bad::{Bad, Stop};
use script::lines::Lines;
use script::words::Words;
use std::alloc::{AllocError, Global};

/// What came of a vector.
#[derive(Clone, Copy)]
enum Outcome {
    Right,
    Wrong,
}

/// How many were right, and how many wrong.
#[derive(Clone, Copy, Default)]
struct Tally {
    right: usize,
    wrong: usize,
}

impl Tally {
    fn count(&mut self, outcome: Outcome) {
        match outcome {
            Outcome::Right => self.right = self.right.saturating_add(1),
            Outcome::Wrong => self.wrong = self.wrong.saturating_add(1),
        }
    }
}

/// A vector's line is a source, a kind, a name, and then the arguments and the answer.
fn is_line_right(line: &[u8], heap: Global) -> Result<bool, Stop> {
    let mut words = Words::new(line);
    let kind = words.nth(1).ok_or(Bad::WordCount)?;
    let kind = VectorKind::try_from(kind)?;
    words.next();
    is_right(kind, &mut words, heap)
}

/// A vector that cannot be read counts as wrong.
fn outcome_of(line: &[u8], heap: Global) -> Result<Outcome, AllocError> {
    match is_line_right(line, heap) {
        Ok(true) => Ok(Outcome::Right),
        Ok(false) | Err(Stop::Line(_)) => Ok(Outcome::Wrong),
        Err(Stop::Memory) => Err(AllocError),
    }
}

/// A line such as `right published digest abc`, with an empty word for one that a vector lacks.
fn say(page: &mut Vec<u8>, outcome: Outcome, line: &[u8]) -> Result<(), AllocError> {
    page.extend_from_slice(match outcome {
        Outcome::Right => b"right",
        Outcome::Wrong => b"WRONG",
    })?;
    let mut words = Words::new(line);
    for _ in 0..3 {
        page.push(b' ')?;
        page.extend_from_slice(words.next().unwrap_or(b""))?;
    }
    page.push(b'\n')?;
    Ok(())
}

pub fn check_all(lines: Lines, page: &mut Vec<u8>, heap: Global) -> Result<(), AllocError> {
    let mut tally = Tally::default();
    for line in lines {
        let outcome = outcome_of(line, heap)?;
        tally.count(outcome);
        say(page, outcome, line)?;
    }
    let Tally { right, wrong } = tally;
    let count = format!(in heap; "{right} right, {wrong} wrong\n")?;
    page.extend_from_slice(count.as_bytes())
}
