// The words of a line.
ghost use Rattle.std.specs.Prelude.{◌≡◌, Bool, false};
ghost use Rattle.script.specs.Words.{trimmed, first_word, after_word, words_in};
ghost use Rattle.script.specs.Left.{line_left};

use crate::runs::{bytes_before, leading_run};

/// What stands between words.
const SPACE: u8 = b' ';

/// A line without the spaces at its front.
pub fn trim(line: &[u8]) -> &[u8]
    ensures answers { result.now ≡ trimmed line.now }
{
    let n = leading_run(line, SPACE);
    &line[n..]
}

/// The first word of a line, and the rest; the word is empty where there is none.
pub fn split_word(line: &[u8]) -> (&[u8], &[u8])
    ensures word { result.0.now ≡ first_word line.now }
    ensures rest { result.1.now ≡ after_word line.now }
{
    let start = trim(line);
    start.split_at(bytes_before(start, SPACE))
}

/// How many words a line has.
// By `split`, and not by `Words`, which promises its next word and not the list of all: counted so, it is no plainer.
pub fn count_words(line: &[u8]) -> usize
    ensures answers { result ≡ words_in false line.now }
{
    line.split(|c| *c == SPACE)
        .filter(|word| !word.is_empty())
        .count()
}

/// The words of a line, in their order.
// A struct, since no `impl Iterator` can be handed out.
#[derive(Drop)]
pub struct Words<'a> {
    rest: &'a [u8],
}

impl<'a> Words<'a> {
    pub fn new(line: &'a [u8]) -> Self
        ensures answers { line_left result ≡ line.now }
    {
        Words { rest: line }
    }
}

impl<'a> Iterator for Words<'a> {
    ghost use Rattle.std.specs.Prelude.{◌≡◌, ◌<◌, [], length, MatchOption};
    ghost use Rattle.std.specs.Iterator.{at_most};
    ghost use Rattle.script.specs.Left.{line_left};
    ghost use Rattle.script.specs.Words.{first_word, after_word};

    type Item = &'a [u8];

    // The next word is the first one of what is left; there is none where that word is empty.
    ghost next_gives = { λ old word new.
        (line_left new ≡ after_word (line_left old))
        × MatchOption word
        (first_word (line_left old) ≡ [])
        (λ w. (w.now ≡ first_word (line_left old)) × (0 < length w.now)) };

    ghost remaining = { λ words. at_most (length (line_left words)) };

    fn next(&mut self) -> Option<&'a [u8]> {
        let (word, rest) = split_word(self.rest);
        self.rest = rest;
        if word.is_empty() { None } else { Some(word) }
    }
}
