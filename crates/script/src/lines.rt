// The lines of a script.
ghost use Rattle.std.specs.Prelude.{◌≡◌, ◌<◌, length};
ghost use Rattle.script.specs.Left.{left};
ghost use Rattle.script.specs.Words.{first_line, after_line};

use crate::runs::bytes_before;

/// The first line of a text, without its line feed, and what follows.
pub fn split_line(text: &[u8]) -> (&[u8], &[u8])
    ensures line { result.0.now ≡ first_line text.now }
    ensures rest { result.1.now ≡ after_line text.now }
    ensures falls { 0 < length text.now → length result.1.now < length text.now }
{
    let (line, rest) = text.split_at(bytes_before(text, b'\n'));
    match rest {
        [_, after @ ..] => (line, after),
        [] => (line, rest),
    }
}

/// The lines of a script that are neither empty nor a comment.
// A struct, since no `impl Iterator` can be handed out.
#[derive(Drop)]
pub struct Lines<'a> {
    rest: &'a [u8],
}

impl<'a> Lines<'a> {
    pub fn new(script: &'a [u8]) -> Self
        ensures answers { left result ≡ length script.now }
    {
        Lines { rest: script }
    }
}

impl<'a> Iterator for Lines<'a> {
    ghost use Rattle.std.specs.Prelude.{◌≡◌, ◌<◌, MatchOption};
    ghost use Rattle.std.specs.Iterator.{at_most};
    ghost use Rattle.script.specs.Left.{left};

    type Item = &'a [u8];

    // Each line takes something of what is left, and there is no next one where nothing is left.
    ghost next_gives = { λ old line new. MatchOption line (left new ≡ 0) (λ _. left new < left old) };

    ghost remaining = { λ lines. at_most (left lines) };

    fn next(&mut self) -> Option<&'a [u8]> {
        while !self.rest.is_empty() {
            let (line, after) = split_line(self.rest);
            self.rest = after;
            if !line.is_empty() && !line.starts_with(b"#") {
                return Some(line);
            }
        }
        None
    }
}
