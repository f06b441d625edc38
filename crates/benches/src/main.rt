//! One measurement: `benches KIND ..`, what it stands on on standard input. Each kind (`checksum`, `scripts`, `run`,
//! `variables`) prints what it left and, at the end of the line, the nanoseconds that it took; bench/ calls them.
//! Without arguments a short one of each kind is made over the script on standard input, and no time is printed.
#![tactic(auto)]

mod checksum;
mod runs;
mod variables;

use std::io::{Error, ErrorKind, Read};
use std::{env, io};

fn main(rt: HostRuntime) -> io::Result<()> {
    let arguments: Vec<String> = env::args(&rt)?.collect(rt.alloc())?;
    let mut input = Vec::new(rt.alloc());
    rt.stdin().read_to_end(&mut input)?;
    match arguments.as_slice() {
        [_, kind, first] => measure(&rt, &input, kind, first, "", ""),
        [_, kind, first, second] => measure(&rt, &input, kind, first, second, ""),
        [_, kind, first, second, third] => measure(&rt, &input, kind, first, second, third),
        _ => short(&rt, &input),
    }
}

fn measure(
    rt: &HostRuntime,
    input: &[u8],
    kind: &str,
    first: &str,
    second: &str,
    third: &str,
) -> io::Result<()> {
    match kind {
        "checksum" => checksum::measure(rt, number(first)),
        "scripts" => runs::parse(rt, input, number(first)),
        "run" => runs::measure(rt, input, number(first), number(second), number(third)),
        "variables" => variables::measure(rt, input, first, number(second), third == "run"),
        _ => Err(Error::from(ErrorKind::InvalidInput)),
    }
}

/// The number that an argument is, or 0.
fn number(argument: &str) -> u32 {
    argument.parse::<u32>().unwrap_or(0)
}

/// A short one of each kind.
fn short(rt: &HostRuntime, script: &[u8]) -> io::Result<()> {
    checksum::compare(rt)?;
    let ran = runs::run_again(rt, script, 1000, 1, 0)?;
    println!(rt; "{} {} {}", ran.status, ran.steps, ran.printed)?;
    variables::compare(rt)
}
