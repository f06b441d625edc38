//! Calls over variables: copies, writes, and kept writes with their way back.
ghost use Rattle.std.specs.Prelude.{◌≡◌, ◌≤◌};
ghost use Rattle.envvars_core.specs.Olds.{restored, RestoredFits};

use crate::harness::{self, Call, Outcome, outcome_of};
use crate::names::name;
use crate::pages::Page;
use crate::readers::AREA;
use envvars_core::laws::nothing_restored;
use envvars_core::{Olds, Refusal, Vars};
use std::alloc::Global;
use std::io::{self, Write};

/// Room for what is written.
const ROOM: u32 = 2000;

/// How many variables a long row writes or deletes: more than a run of the store holds.
const COUNT: u32 = 130;

/// What is asked of the variables.
#[derive(Clone, Copy)]
enum Asked {
    Copy,
    Write(&'static [u8], Option<&'static [u8]>),
    /// A write whose old value is kept and goes back; whether that may take memory.
    Kept(&'static [u8], Option<&'static [u8]>, bool),
    /// A write to each of many names; from one to the next are so many steps.
    Many(u32, Option<&'static [u8]>),
}

/// A value that takes memory.
pub const VALUE: Option<&[u8]> = Some(b"a value of more bytes");

/// `n` is hexadecimal, and written once.
pub const FLAGS: Option<&[u8]> = Some(b"n:xo");

/// `write_kept` with `restore`, and the other calls.
const ROWS: [(&str, Asked); 9] = [
    ("Vars::copy", Asked::Copy),
    ("write_kept of a new name", Asked::Kept(b"b", VALUE, false)),
    ("write_kept over a value", Asked::Kept(b"a", VALUE, false)),
    ("write_kept of no value", Asked::Kept(b"a", None, true)),
    ("write_kept of .flags", Asked::Kept(b".flags", FLAGS, true)),
    ("Vars::write of a new name", Asked::Write(b"b", VALUE)),
    ("Vars::write over a value", Asked::Write(b"a", VALUE)),
    ("Vars::write of no value", Asked::Write(b"a", None)),
    ("Vars::write of .flags", Asked::Write(b".flags", FLAGS)),
];

const LONG_ROWS: [(&str, Asked); 4] = [
    ("130 writes", Asked::Many(1, Some(b"1"))),
    ("Vars::copy of 130", Asked::Copy),
    ("130 writes of no value", Asked::Many(1, None)),
    ("130 writes in another order", Asked::Many(37, Some(b"1"))),
];

/// A request, and the variables.
#[derive(Drop)]
struct Request {
    asked: Asked,
    vars: Vars,
    defaults: Vars,
    /// How many of many writes are done.
    done: u32,
}

impl Call for Request {
    fn make(&mut self, alloc: Global) -> Outcome {
        match self.asked {
            Asked::Copy => self.copy(alloc),
            Asked::Write(name, value) => self.write(name, value),
            Asked::Kept(name, value, may_take) => self.keep(alloc, name, value, may_take),
            Asked::Many(step, value) => self.write_many(step, value),
        }
    }

    fn shown(&self) -> Page {
        Page::of_vars(&self.vars)
    }
}

impl Request {
    /// The variables become a copy of themselves.
    fn copy(&mut self, alloc: Global) -> Outcome {
        if self.vars.used() > ROOM {
            return Outcome::Wrong;
        }
        match self.vars.copy(alloc, ROOM) {
            Ok(copy) => {
                self.vars = copy;
                Outcome::Done
            }
            Err(_) => Outcome::Refused,
        }
    }

    fn write(&mut self, name: &[u8], value: Option<&[u8]>) -> Outcome {
        match self.vars.write(name, value, false, &self.defaults) {
            Ok(_was) => Outcome::Done,
            Err(refusal) => outcome_of(false, refusal == Refusal::Memory),
        }
    }

    /// A kept write, and its old value back.
    fn keep(
        &mut self,
        alloc: Global,
        name: &[u8],
        value: Option<&[u8]>,
        may_take: bool,
    ) -> Outcome {
        let before = self.shown().sum();
        let mut olds = Olds::new(alloc);
        let _fits = self.vars.used();
        nothing_restored();
        let written = self
            .vars
            .write_kept(name, value, false, &self.defaults, &mut olds);
        match written {
            Ok(()) => restored_once(&mut self.vars, &mut olds, may_take, before),
            Err(refusal) => outcome_of(false, refusal == Refusal::Memory && olds.len() == 0),
        }
    }

    /// The writes that aren't done yet, each of which changes nothing if it is refused.
    fn write_many(&mut self, step: u32, value: Option<&[u8]>) -> Outcome {
        for at in self.done..COUNT {
            let before = self.shown().sum();
            match self.write(&name(at.wrapping_mul(step) % COUNT), value) {
                Outcome::Done => self.done = at.wrapping_add(1),
                Outcome::Refused if self.shown().sum() == before => return Outcome::Begun,
                _ => return Outcome::Wrong,
            }
        }
        Outcome::Done
    }
}

/// What is kept goes back. Refused, nothing has changed and all is still kept; made again it goes back.
fn restored_once(vars: &mut Vars, olds: &mut Olds, may_take: bool, before: u32) -> Outcome
    requires { RestoredFits vars.old olds.old }
{
    let (written, kept) = (Page::of_vars(vars).sum(), olds.len());
    if vars.restore(olds).is_ok() {
        return outcome_of(
            olds.len() == 0 && Page::of_vars(vars).sum() == before,
            false,
        );
    }
    let is_as_written = Page::of_vars(vars).sum() == written && olds.len() == kept;
    let is_back = vars.restore(olds).is_ok() && olds.len() == 0;
    outcome_of(false, may_take && is_as_written && is_back)
}

/// A row for each request of the variables, one after the other.
fn sweep_rows<W: Write>(
    alloc: Global,
    out: &mut W,
    vars: Vars,
    rows: &[(&str, Asked)],
) -> io::Result<()> {
    let mut request = Request {
        asked: Asked::Copy,
        vars,
        defaults: Vars::empty(alloc, 1),
        done: 0,
    };
    for (name, asked) in rows {
        request.asked = *asked;
        request.done = 0;
        harness::sweep(alloc, out, name, &mut request)?;
    }
    Ok(())
}

/// Requests of the variables of an area, and of many.
pub fn sweep<W: Write>(alloc: Global, out: &mut W) -> io::Result<()> {
    match Vars::load(alloc, AREA) {
        Ok(vars) => sweep_rows(alloc, out, vars, &ROWS)?,
        Err(_) => out.write_all(b"no memory\n")?,
    }
    sweep_rows(alloc, out, Vars::empty(alloc, ROOM), &LONG_ROWS)
}
