// Blocks: lines that belong to one thing, up to `close` or the end of the script.
ghost use Rattle.std.specs.Prelude.{◌≤◌};
ghost use Rattle.script.specs.Left.{left};

use crate::args::name;
use crate::page::Page;
use script::bad::{Bad, Stop};
use script::lines::Lines;
use script::words::count_words;

/// Whether a line ends its block.
fn closes(line: &[u8]) -> Result<bool, Bad> {
    if name(line) != b"close".as_slice() {
        return Ok(false);
    }
    if count_words(line) != 1 {
        return Err(Bad::WordCount);
    }
    Ok(true)
}

/// Runs the lines of a block.
// Not `for line in &mut *lines`: what such a loop leaves of the script is not known after it, and `reads` got no proof.
pub(crate) fn run_block<F: FnMut(&[u8], &mut Page) -> Result<(), Stop>>(
    lines: &mut Lines,
    page: &mut Page,
    mut run_line: F,
) -> Result<(), Stop>
    requires { F.IsAlwaysCallable run_line }
    ensures reads { left lines.new ≤ left lines.old }
{
    while let Some(line) = lines.next() {
        page.echo(line)?;
        let ran = match closes(line) {
            Ok(true) => return Ok(()),
            Ok(false) => run_line(line, page),
            Err(bad) => Err(Stop::Line(bad)),
        };
        page.settle(ran)?;
    }
    Ok(())
}
