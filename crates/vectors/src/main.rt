// Runs vectors of digests and tags from the standard input, and says of each whether the answer is right.
#![tactic(auto)]

mod check;
mod vector;

use script::lines::Lines;
use std::io;
use std::io::{Read, Write};

fn main(rt: HostRuntime) -> io::Result<()> {
    let heap = rt.alloc();
    let mut script = Vec::new(heap);
    rt.stdin().read_to_end(&mut script)?;
    let mut page = Vec::new(heap);
    check::check_all(Lines::new(script.as_slice()), &mut page, heap)?;
    rt.stdout().write_all(page.as_slice())
}
