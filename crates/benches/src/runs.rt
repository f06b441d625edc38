//! Scripts, parsed and run.
use env_session::{Session, Stored};
use envimg_core::{Geometry, Layout};
use envvars_core::Vars;
use hush_run::{Limits, Stubs, run};
use hush_syntax::Script;
use std::io::{self, Error, ErrorKind, Write};
use std::time::Instant;

/// The bytes of the image; all of them FF, so that it holds no variables.
const SIZE: u32 = 16_384;

/// What the last run left, and what all took.
#[derive(Clone, Copy)]
pub struct Ran {
    /// The status of the last run.
    pub status: u8,
    /// The steps that it counted.
    pub steps: u32,
    /// The bytes that it printed.
    pub printed: usize,
    /// The nanoseconds that all runs took.
    pub taken: u128,
}

/// Parses a script so many times, and prints for each whether it was parsed and the nanoseconds.
pub fn parse(rt: &HostRuntime, text: &[u8], rounds: u32) -> io::Result<()> {
    for _ in 0..rounds {
        let source = Vec::from_slice(rt.alloc(), text)?;
        let start = Instant::now(rt)?;
        let script = Script::parse(rt.alloc(), source);
        let taken = start.elapsed(rt)?.as_nanos();
        println!(rt;
            "{} {taken}",
            if script.is_ok() { "parsed" } else { "refused" }
        )?;
    }
    Ok(())
}

/// Runs a script so many times, as [`run_again`] does. Prints the status, the counted steps and the length of the text of
/// the last run, and the nanoseconds of all.
pub fn measure(
    rt: &HostRuntime,
    source: &[u8],
    steps: u32,
    count: u32,
    times: u32,
) -> io::Result<()> {
    let ran = run_again(rt, source, steps, count, times)?;
    println!(rt;
        "{} {} {} {}",
        ran.status, ran.steps, ran.printed, ran.taken
    )
}

/// Runs a script `count` times, one run after the other over one session, and parses it anew before each; with 0 all is made
/// ready and nothing is run. After each run its text is written so many `times`.
pub fn run_again(
    rt: &HostRuntime,
    source: &[u8],
    steps: u32,
    count: u32,
    times: u32,
) -> io::Result<Ran> {
    let mut session = session(rt)?;
    let Ok(stubs) = Stubs::parse(rt.alloc(), b"") else {
        return Err(Error::from(ErrorKind::OutOfMemory));
    };
    let Some(limits) = Limits::new(steps, 8, 65_536, 16_777_216) else {
        return Err(Error::from(ErrorKind::InvalidInput));
    };
    let mut ran = Ran {
        status: 0,
        steps: 0,
        printed: 0,
        taken: 0,
    };
    let start = Instant::now(rt)?;
    for _ in 0..count {
        let Ok(script) = Script::parse(rt.alloc(), Vec::from_slice(rt.alloc(), source)?) else {
            return Err(Error::from(ErrorKind::InvalidInput));
        };
        let outcome = run(rt.alloc(), &mut session, &script, &stubs, &limits);
        ran.status = outcome.status;
        ran.steps = outcome.steps;
        ran.printed = outcome.text.len();
        for _ in 0..times {
            rt.stdout().write_all(&outcome.text)?;
        }
    }
    ran.taken = start.elapsed(rt)?.as_nanos();
    Ok(ran)
}

/// A session without variables.
fn session(rt: &HostRuntime) -> io::Result<Session> {
    let Some(geometry) = Geometry::new(Layout::Single, SIZE) else {
        return Err(Error::from(ErrorKind::InvalidInput));
    };
    let defaults = Vars::empty(rt.alloc(), geometry.room());
    let stored = Stored {
        geometry,
        first: b"\xFF".repeat(rt.alloc(), SIZE as usize)?,
        second: None,
    };
    Session::start(rt.alloc(), stored, defaults).map_err(|_| Error::from(ErrorKind::OutOfMemory))
}
