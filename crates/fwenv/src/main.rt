//! `fwenv`: hands its arguments and streams to `fw_tools::program`.
#![tactic(auto)]

use fw_tools::{OpenDevice, Unknown, greet, program, talks, words_failed};
use std::env;
use std::fs::File;
use std::io::{self, IsTerminal, Read, Stderr, Stdin, Write};
use std::process::ExitCode;

/// The devices that a subcommand opens to write them, if it does.
type Devices = Option<OpenDevice<File, Unknown>>;

fn main(rt: HostRuntime) -> ExitCode {
    let status = match words(&rt) {
        Ok(words) => run(&rt, words.as_slice()),
        Err(error) => words_failed(&error, &mut rt.stderr()),
    };
    ExitCode::from(status)
}

/// The arguments of the command line, the program's own name first.
fn words(rt: &HostRuntime) -> io::Result<Vec<String>> {
    let mut words = Vec::new(rt.alloc());
    for word in env::args(rt)? {
        words.push(word)?;
    }
    Ok(words)
}

/// Runs the program. For a user at a terminal it prints what is awaited, and it asks for each line of a session.
fn run(rt: &HostRuntime, words: &[String]) -> u8 {
    let mut devices: Devices = None;
    let mut input = rt.stdin();
    if !input.is_terminal() {
        return program(
            rt,
            words,
            &mut devices,
            &mut input,
            &mut rt.stdout(),
            &mut rt.stderr(),
        );
    }
    greet(words, &mut rt.stderr());
    if talks(words) {
        return run_prompted(rt, words, input);
    }
    program(
        rt,
        words,
        &mut devices,
        &mut input,
        &mut rt.stdout(),
        &mut rt.stderr(),
    )
}

/// The same, with a prompt for each line. It isn't inlined into `main`, whose stack frame every run has.
#[inline(never)]
fn run_prompted(rt: &HostRuntime, words: &[String], input: Stdin) -> u8 {
    let mut lines = Prompted {
        input,
        errors: rt.stderr(),
    };
    let mut devices: Devices = None;
    program(
        rt,
        words,
        &mut devices,
        &mut lines,
        &mut rt.stdout(),
        &mut rt.stderr(),
    )
}

/// A terminal that is asked for each of its lines.
#[derive(Drop)]
struct Prompted {
    input: Stdin,
    errors: Stderr,
}

impl Read for Prompted {
    fn read(&mut self, buf: &mut [u8]) -> io::Result<usize> {
        // if no prompt can be written, there is none
        let _ = self.errors.write(b"> ");
        self.input.read(buf)
    }
}
