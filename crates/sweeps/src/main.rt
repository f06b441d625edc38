//! Sweeps over refused memory: calls of the libraries that take memory, each made once; when memory is refused in the midst of
//! one, what it left is looked at and the call made again.
//!
//! A row is `NAME: ` and what the call left. Between the colon and what follows the call is made: scripts/sweep.py counts the
//! allocations there alone, and runs this program once for each of them, with that one refused. Then a line `NAME: refused`
//! comes before the row, and each row is the same. What a session over streams, a check of scripts and the program take is
//! refused by scripts/differential/faults/memory.py.
#![tactic(auto)]

mod harness;
mod lists;
mod names;
mod pages;
mod readers;
mod sessions;
mod variables;

use envimg_core::Layout;
use std::io;

fn main(rt: HostRuntime) -> io::Result<()> {
    readers::sweep(rt.alloc(), &mut rt.stdout())?;
    variables::sweep(rt.alloc(), &mut rt.stdout())?;
    sessions::sweep(rt.alloc(), &mut rt.stdout(), Layout::Single)?;
    sessions::sweep(rt.alloc(), &mut rt.stdout(), Layout::Redundant)
}
