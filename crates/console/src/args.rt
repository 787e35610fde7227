// The arguments of a command.
use script::bad::{Bad, Stop};
use script::bytes::{read_bytes, read_exactly};
use script::number::number;
use script::words::{Words, count_words};
use std::alloc::Global;

/// The first word of a line, which names a command; empty where there is none.
pub fn name(line: &[u8]) -> &[u8] {
    Words::new(line).next().unwrap_or(b"")
}

/// The words after the name of a command, read one by one.
#[derive(Drop)]
pub struct Arguments<'a> {
    words: Words<'a>,
    heap: Global,
}

impl<'a> Arguments<'a> {
    /// The words of a line, which has to have `count` of them after the first.
    pub fn new(line: &'a [u8], count: usize, heap: Global) -> Result<Self, Bad> {
        if count_words(line) != count.saturating_add(1) {
            return Err(Bad::WordCount);
        }
        let mut words = Words::new(line);
        words.next();
        Ok(Arguments { words, heap })
    }

    pub fn word(&mut self) -> Result<&'a [u8], Bad> {
        self.words.next().ok_or(Bad::WordCount)
    }

    /// A counter or a queue.
    pub fn byte(&mut self) -> Result<u8, Bad> {
        let n = self.number(u32::from(u8::MAX))?;
        u8::try_from(n).map_err(|_| Bad::Range)
    }

    /// A number that is at most `most`.
    pub fn number(&mut self, most: u32) -> Result<u32, Bad> {
        number(self.word()?, most)
    }

    pub fn bytes(&mut self) -> Result<Vec<u8>, Stop> {
        read_bytes(self.word()?, self.heap)
    }

    /// Bytes of a fixed size.
    pub fn array<const N: usize>(&mut self) -> Result<[u8; N], Stop> {
        let bytes = read_exactly(self.word()?, N, self.heap)?;
        <[u8; N]>::try_from(bytes.as_slice()).map_err(|_| Stop::Line(Bad::Length))
    }
}
