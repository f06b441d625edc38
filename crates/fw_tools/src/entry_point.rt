//! The program over its arguments and streams.
ghost use Rattle.std.specs.Prelude.{◌≡◌, ◌⊎◌, ◌≤◌, ℕ, MatchResult, Ok, map, option_map};
ghost use Rattle.clap.specs.Words.{kind_of};
ghost use Rattle.device_files.specs.Record.{calls_in};
ghost use Rattle.fw_tools.specs.CheckRuns.{unchecked};
ghost use Rattle.fw_tools.specs.EntryPoint.{RepliesTo, Does, asks_check, begins_check, is_flag, is_shown, LacksMemory, Runs, ShowsAndSays, message_without_words, refused_status};
ghost use Rattle.fw_arguments.specs.Report.{asked_view};
ghost use Rattle.fw_tools.specs.Subcommands.{Called, Done, Halts, stopped_status};
ghost use Rattle.fw_engines.specs.Streams.{AppendsFront};
ghost use Rattle.fw_arguments.specs.ProgramNames.{called_in};
ghost use Rattle.fw_arguments.specs.WordFaults.{fault_text};
ghost use Rattle.fw_arguments.specs.Words.{order_in};
ghost use Rattle.std.specs.IoError.{error_kind};

use crate::check_work::{UNCHECKED, check_scripts};
use crate::explains::Explains;
use crate::find_work::find;
use crate::halt::Halt;
use crate::image_work::make_image;
use crate::status_work::report_state;
use crate::subcommands::use_files;
use crate::tool_messages::{message_of, report, status_or_say};
use clap::error::ErrorKind;
use clap::{ArgMatches, Error};
use device_files::{OpenDevice, Start};
use envimg_core::Order;
use fw_arguments::{
    Asked, Job, ProgramName, WordFault, called, chosen_order, read_asked, read_words,
};
use fw_engines::streams::{say, write_text, write_three};
use fw_engines::{OUT_OF_MEMORY, StreamFault, show};
use fw_files::System;
use std::alloc::Global;
use std::convert::AsStr;
use std::io::{self, Read, Write};

/// Standard error if an argument of the command line is not UTF-8.
const NOT_UTF8: &[u8] = b"fwenv: a word of the command line is not UTF-8\n";

/// Standard error if the arguments of the command line can't be read.
const NO_WORDS: &[u8] = b"fwenv: cannot read the command line\n";

/// Runs the program and answers its exit status: 0 or 1, and 2 if a check of scripts is asked for that can't be made. `words`
/// begin with the program's own name. What devices are opened to be written stay open in `devices`.
///
/// Without a subcommand the variables of the image on `input` are printed ([`show`]), and with `--big-endian` those of
/// an image of a big-endian board. A subcommand works on the copies that a configuration names ([`printenv`],
/// [`setenv`], [`set_script`], [`import`], [`export`], [`restore`], [`session`]), and writes back those that it
/// changed, or reports their state ([`status`], or [`file_status`] of a whole file). Help goes to `output`, status 0; a
/// fault of the command line to `errors`, status 1, of a check 2. docs/tools.md has each text. A session also says on the screen of `rt`,
/// if it has one, where and why a block isn't a script, and to somebody who watches `rt` every power-on of a board says how far
/// it has come, and wipes that before it prints anything.
///
/// [`printenv`]: fw_engines::printenv
/// [`setenv`]: fw_engines::setenv
/// [`set_script`]: fw_engines::set_script
/// [`import`]: fw_engines::import
/// [`export`]: fw_engines::export
/// [`restore`]: fw_engines::restore
/// [`status`]: fw_engines::status
/// [`file_status`]: fw_engines::file_status
/// [`session`]: fw_session::session
pub fn program<X: System + AllocGlobal, S: AsStr, D: Start, R: Read, W: Write, E: Write>(
    rt: &X,
    words: &[S],
    devices: &mut Option<OpenDevice<X::File, D>>,
    input: &mut R,
    output: &mut W,
    errors: &mut E,
) -> u8
    ensures status { result ≤ unchecked }
    ensures runs { Runs (X.holds rt.now) (X.wrote rt.now) (map S.text words.entry.now)
        (record { start = D.contents; before = option_map (λ d. calls_in d.calls) devices.old; after = option_map (λ d. calls_in d.calls) devices.new })
        (record { input = R.remaining input.old; output = W.contents output.old; errors = E.contents errors.old })
        (record { input = R.remaining input.new; output = W.contents output.new; errors = E.contents errors.new })
        result }
{
    let alloc = rt.alloc();
    let name = ProgramName::of(words);
    if is_shown(name, words.len()) {
        // what clap reports of no argument is known, and to ask it takes as long as to show a small image
        return show_input(alloc, Order::Little, input, output, errors);
    }
    let refused = refused_status(name, words);
    match read_words(alloc, name, words) {
        Err(error) => print_error(alloc, &error, refused, output, errors),
        Ok(matches) => act_on(rt, name, &matches, refused, devices, input, output, errors),
    }
}

/// The status of arguments that are refused under this name.
fn refused_status<S: AsStr>(name: ProgramName, words: &[S]) -> u8
    ensures status { result ≡ refused_status name (map S.text words.now) }
    ensures small { result ≤ unchecked }
{
    match name {
        ProgramName::Printenv | ProgramName::Setenv => 1,
        _ => { if asks_check(words) { UNCHECKED } else { 1 } }
    }
}

/// Whether these arguments, after the program's own name, ask for a check.
fn asks_check<S: AsStr>(words: &[S]) -> bool
    ensures { result ≡ asks_check (map S.text words.now) }
{
    match words.split_first() {
        None => false,
        Some((_, rest)) => begins_check(rest),
    }
}

/// Whether the first of these that doesn't begin with `-` is `check`.
fn begins_check<S: AsStr>(words: &[S]) -> bool
    ensures { result ≡ begins_check (map S.text words.now) }
{
    for word in words {
        let text = word.as_str();
        if !is_flag(text) {
            return text == "check";
        }
    }
    false
}

/// Whether an argument begins with `-`.
fn is_flag(word: &str) -> bool
    ensures { result ≡ is_flag word.now }
{
    match word.as_bytes().first() {
        None => false,
        Some(byte) => *byte == b'-',
    }
}

/// Prints on `errors` why the arguments of the command line could not be read, and answers the exit status, 1.
pub fn words_failed<E: Write>(error: &io::Error, errors: &mut E) -> u8
    ensures status { result ≡ 1 }
    ensures said { AppendsFront (E.contents errors.old) (E.contents errors.new) (message_without_words (error_kind error.now)) }
{
    let text = match error.kind() {
        io::ErrorKind::OutOfMemory => OUT_OF_MEMORY,
        io::ErrorKind::InvalidData => NOT_UTF8,
        _ => NO_WORDS,
    };
    say(errors, text);
    1
}

/// Does what arguments that clap's rules accept ask for.
fn act_on<X: System + AllocGlobal, D: Start, R: Read, W: Write, E: Write>(
    rt: &X,
    under: ProgramName,
    matches: &ArgMatches<'_>,
    refused: u8,
    devices: &mut Option<OpenDevice<X::File, D>>,
    input: &mut R,
    output: &mut W,
    errors: &mut E,
) -> u8
    ensures status { refused ≤ unchecked → result ≤ unchecked }
    ensures does { Does (X.holds rt.now) (X.wrote rt.now) refused (order_in matches.now) (called_in under matches.now)
        (record { start = D.contents; before = option_map (λ d. calls_in d.calls) devices.old; after = option_map (λ d. calls_in d.calls) devices.new })
        (record { input = R.remaining input.old; output = W.contents output.old; errors = E.contents errors.old })
        (record { input = R.remaining input.new; output = W.contents output.new; errors = E.contents errors.new })
        result }
{
    let alloc = rt.alloc();
    let order = chosen_order(matches);
    match called(under, matches) {
        None => show_input(alloc, order, input, output, errors),
        Some((name, found)) => match read_asked(order, name, found) {
            Err(fault) => {
                say_word_fault(&fault, errors);
                refused
            }
            Ok(asked) => run_asked(rt, &asked, devices, input, output, errors),
        },
    }
}

/// Prints what is wrong with arguments, as far as `errors` takes it.
fn say_word_fault<E: Write>(fault: &WordFault<'_>, errors: &mut E)
    ensures { AppendsFront (E.contents errors.old) (E.contents errors.new) (fault_text fault.now) }
{
    let _ = write_three(errors, fault.front, fault.word.as_bytes(), fault.back);
}

/// Does what a subcommand asks for, or reports why it ended before its work.
fn run_asked<X: System + AllocGlobal, D: Start, R: Read, W: Write, E: Write>(
    rt: &X,
    asked: &Asked<'_, '_>,
    devices: &mut Option<OpenDevice<X::File, D>>,
    input: &mut R,
    output: &mut W,
    errors: &mut E,
) -> u8
    ensures status { result ≤ unchecked }
    ensures called { (refused : ℕ) → Called (X.holds rt.now) (X.wrote rt.now) refused (Ok (asked_view asked.now))
        (record { start = D.contents; before = option_map (λ d. calls_in d.calls) devices.old; after = option_map (λ d. calls_in d.calls) devices.new })
        (record { input = R.remaining input.old; output = W.contents output.old; errors = E.contents errors.old })
        (record { input = R.remaining input.new; output = W.contents output.new; errors = E.contents errors.new })
        result }
{
    let ended = do_asked(rt, asked, devices, input, output, errors);
    status_or_say(errors, Explains::of(asked), ended, stopped_status(asked))
}

/// The status of what ends before its work.
fn stopped_status(asked: &Asked<'_, '_>) -> u8
    ensures { result ≡ stopped_status (asked_view asked.now) }
{
    match asked {
        Asked::Check(_) => UNCHECKED,
        Asked::Work(call) => match call.job {
            Job::Check(_) => UNCHECKED,
            _ => 1,
        },
        _ => 1,
    }
}

/// Does what a subcommand asks for.
fn do_asked<'w, X: System + AllocGlobal, D: Start, R: Read, W: Write, E: Write>(
    rt: &X,
    asked: &Asked<'_, 'w>,
    devices: &mut Option<OpenDevice<X::File, D>>,
    input: &mut R,
    output: &mut W,
    errors: &mut E,
) -> Result<u8, Halt<'w>>
    ensures { MatchResult result (Done (X.holds rt.now) (X.wrote rt.now) (asked_view asked.now)
        (record { start = D.contents; before = option_map (λ d. calls_in d.calls) devices.old; after = option_map (λ d. calls_in d.calls) devices.new })
        (record { input = R.remaining input.old; output = W.contents output.old; errors = E.contents errors.old })
        (record { input = R.remaining input.new; output = W.contents output.new; errors = E.contents errors.new }))
        (λ halt. Halts (X.holds rt.now) (asked_view asked.now) halt
        (record { start = D.contents; before = option_map (λ d. calls_in d.calls) devices.old; after = option_map (λ d. calls_in d.calls) devices.new })
        (record { input = R.remaining input.old; output = W.contents output.old; errors = E.contents errors.old })
        (record { input = R.remaining input.new; output = W.contents output.new; errors = E.contents errors.new })) }
{
    match asked {
        Asked::Work(call) => use_files(rt, call, devices, input, output, errors),
        Asked::Look(report) => report_state(rt, report, output, errors),
        Asked::Check(check) => check_scripts(rt, check, output, errors),
        Asked::Make(image) => make_image(rt, image, output, errors),
        Asked::Find(path) => find(rt, path, output, errors),
    }
}

/// Whether the image on standard input is shown for this number of arguments under this name, whatever they are.
fn is_shown(name: ProgramName, count: usize) -> bool
    ensures { result ≡ is_shown name count }
{
    match name {
        ProgramName::Fwenv => count <= 1,
        _ => false,
    }
}

/// Shows the image on `input`, reports what stopped that, and answers the exit status.
fn show_input<R: Read, W: Write, E: Write>(
    alloc: Global,
    order: Order,
    input: &mut R,
    output: &mut W,
    errors: &mut E,
) -> u8
    ensures status { result ≤ 1 }
    ensures shows { ShowsAndSays order
        (record { input = R.remaining input.old; output = W.contents output.old; errors = E.contents errors.old })
        (record { input = R.remaining input.new; output = W.contents output.new; errors = E.contents errors.new })
        result }
{
    let end = show(alloc, order, input, output, errors);
    report(end, errors)
}

/// Prints the help on `output`, or what is wrong with the arguments on `errors`.
fn print_error<W: Write, E: Write>(
    alloc: Global,
    error: &Error,
    refused: u8,
    output: &mut W,
    errors: &mut E,
) -> u8
    ensures status { result ≤ refused }
    ensures answers { LacksMemory refused (record { output = W.contents output.old; errors = E.contents errors.old })
        (record { output = W.contents output.new; errors = E.contents errors.new }) result
        ⊎ RepliesTo refused (kind_of error.now)
        (record { output = W.contents output.old; errors = E.contents errors.old })
        (record { output = W.contents output.new; errors = E.contents errors.new }) result }
{
    let Ok(text) = error.to_string(alloc) else {
        say(errors, OUT_OF_MEMORY);
        return refused;
    };
    if error.kind() == ErrorKind::OutOfMemory {
        say(errors, OUT_OF_MEMORY);
        return refused;
    }
    if error.use_stderr() {
        say(errors, text.as_bytes());
        return refused;
    }
    if !write_text(output, text.as_bytes()) {
        say(errors, message_of(StreamFault::Write));
        return refused;
    }
    0
}
