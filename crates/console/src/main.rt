// The console: runs a script of commands on the library and prints all that came back.
#![tactic(auto)]

mod args;
mod banks;
mod block;
mod dongles;
mod hash;
mod page;
mod readers;
mod run;
mod stores;

use crate::page::Page;
use script::lines::Lines;
use std::io;
use std::io::{Read, Write};

fn main(rt: HostRuntime) -> io::Result<()> {
    let heap = rt.alloc();
    let mut script = Vec::new(heap);
    rt.stdin().read_to_end(&mut script)?;
    let mut page = Page::new(heap);
    run::run(&mut Lines::new(script.as_slice()), &mut page)?;
    rt.stdout().write_all(page.text())
}
