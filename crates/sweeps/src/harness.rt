//! A call that takes memory, made again when memory was refused.

use crate::pages::Page;
use fw_engines::{StreamFault, ToolEnd};
use std::alloc::Global;
use std::io::{self, Write};

/// What came of a call.
#[derive(Clone, Copy, PartialEq, Eq)]
pub enum Outcome {
    /// It did what it has to do.
    Done,
    /// Memory was refused, and nothing may have changed.
    Refused,
    /// Memory was refused when a part was done, which is as it has to be; made again the call goes on.
    Begun,
    /// Anything else.
    Wrong,
}

/// A public call that takes memory, with all that it reads and changes.
pub trait Call {
    /// Makes the call.
    fn make(&mut self, alloc: Global) -> Outcome;

    /// All that the call may change. It takes no memory.
    fn shown(&self) -> Page;
}

/// Makes a call, and again if memory was refused: the row has what it left. If something else came, the row says so,
/// which makes the sweep fail, as it does if memory is refused twice.
pub fn sweep<C: Call, W: Write>(
    alloc: Global,
    out: &mut W,
    name: &str,
    call: &mut C,
) -> io::Result<()> {
    let before = call.shown().sum();
    for _ in 0..2u32 {
        out.write_all(name.as_bytes())?;
        out.write_all(b":")?;
        match call.make(alloc) {
            Outcome::Done => return call.shown().print(out),
            Outcome::Begun => {}
            Outcome::Refused if call.shown().sum() == before => {}
            _ => return out.write_all(b" WRONG\n"),
        }
        out.write_all(b" refused\n")?;
    }
    Ok(())
}

/// What a call comes to that is done, or that says that memory ran out.
pub fn outcome_of(is_done: bool, is_memory: bool) -> Outcome {
    match (is_done, is_memory) {
        (true, _) => Outcome::Done,
        (false, true) => Outcome::Refused,
        (false, false) => Outcome::Wrong,
    }
}

/// What a tool comes to that printed on these pages. If it says that memory ran out, it has to have printed nothing.
pub fn outcome_of_tool(end: &ToolEnd, output: &Page, errors: &Page) -> Outcome {
    let is_silent = output.text().is_empty() && errors.text().is_empty();
    match end.fault {
        None => Outcome::Done,
        Some(StreamFault::Memory) => outcome_of(false, end.status == 1 && is_silent),
        Some(_) => Outcome::Wrong,
    }
}
