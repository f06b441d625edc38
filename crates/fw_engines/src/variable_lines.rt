//! The variables of a session, printed.
ghost use Rattle.std.specs.Prelude.{◌≡◌, ◌||◌, MatchBool, map, true};
ghost use Rattle.std.specs.Io.KnownBytes.{Appends};
ghost use Rattle.fw_engines.specs.VariableLines.{PrintsName, line_or_value, named, printed, status_of};
ghost use Rattle.fw_engines.specs.Shown.{listing};
ghost use Rattle.fw_engines.specs.Streams.{AppendsPart};
ghost use Rattle.fw_engines.specs.Tool.{Prints, PrintsText};

use crate::streams::{write_text, write_three, write_two};
use crate::tool_end::{StreamFault, ToolEnd, print_text};
use crate::tool_texts::{ERROR_QUOTE, NOT_DEFINED, ONE_NAME};
use env_session::Session;
use envvars_core::Vars;
use std::io::Write;

/// Prints a line `name=value` for each of these names, in their order, or without names for all variables, in ascending
/// order of the names' bytes. A name that has no value prints `## Error: "NAME" not defined` on `errors`, the others
/// follow, and the status is 1.
///
/// `value_only` prints the value and a newline; without exactly one name that is refused with a message on `errors`,
/// status 1. No memory is allocated. docs/tools.md has the texts.
pub fn printenv<W: Write, E: Write>(
    session: &Session,
    names: &[&[u8]],
    value_only: bool,
    output: &mut W,
    errors: &mut E,
) -> ToolEnd
    ensures { Prints (record { output = W.contents output.old; errors = E.contents errors.old })
        (record { output = W.contents output.new; errors = E.contents errors.new })
        (printed session.now.now.env (map (λ n. n.now) names.now) value_only) result }
{
    let vars = session.vars();
    if value_only {
        if names.len() == 1 {
            return print_named(vars, names, true, output, errors);
        }
        return print_text(errors, ONE_NAME, 1);
    }
    if names.is_empty() {
        return print_all(vars, output);
    }
    print_named(vars, names, false, output, errors)
}

/// Prints the value of each of these names, in their order, a line each. A name that has no value prints
/// `## Error: "NAME" not defined` on `errors`, the others follow, and the status is 1. No memory is allocated.
pub fn print_values<W: Write, E: Write>(
    session: &Session,
    names: &[&[u8]],
    output: &mut W,
    errors: &mut E,
) -> ToolEnd
    ensures { Prints (record { output = W.contents output.old; errors = E.contents errors.old })
        (record { output = W.contents output.new; errors = E.contents errors.new })
        (named true session.now.now.env (map (λ n. n.now) names.now)) result }
{
    print_named(session.vars(), names, true, output, errors)
}

/// Prints a line for each variable.
fn print_all<W: Write>(vars: &Vars, output: &mut W) -> ToolEnd
    ensures { PrintsText (W.contents output.old) (W.contents output.new) (listing vars.now.env) 0 result }
{
    for line in vars.lines() {
        if !write_two(output, line, b"\n") {
            return ToolEnd::stopped(StreamFault::Write);
        }
    }
    ToolEnd::done(0)
}

/// Prints each of these names.
fn print_named<W: Write, E: Write>(
    vars: &Vars,
    names: &[&[u8]],
    value_only: bool,
    output: &mut W,
    errors: &mut E,
) -> ToolEnd
    ensures { Prints (record { output = W.contents output.old; errors = E.contents errors.old })
        (record { output = W.contents output.new; errors = E.contents errors.new })
        (named value_only vars.now.env (map (λ n. n.now) names.now)) result }
{
    let mut absent = false;
    for name in names {
        match print_name(vars, name, value_only, output, errors) {
            None => return ToolEnd::stopped(StreamFault::Write),
            Some(missing) => absent = either(absent, missing),
        }
    }
    ToolEnd::done(status_of(absent))
}

/// Prints one name, and answers whether it has no value; `None` if writing failed.
fn print_name<W: Write, E: Write>(
    vars: &Vars,
    name: &[u8],
    value_only: bool,
    output: &mut W,
    errors: &mut E,
) -> Option<bool>
    ensures { PrintsName (record { output = W.contents output.old; errors = E.contents errors.old })
        (record { output = W.contents output.new; errors = E.contents errors.new }) value_only vars.now.env name.now
        result }
{
    match vars.get(name) {
        Some(value) => {
            if write_line(output, value_only, name, value) {
                Some(false)
            } else {
                None
            }
        }
        None => {
            if write_three(errors, ERROR_QUOTE, name, NOT_DEFINED) {
                Some(true)
            } else {
                None
            }
        }
    }
}

/// Whether one of two holds; a function of its own, so that the prover has one case where `||` has three.
fn either(one: bool, other: bool) -> bool
    ensures { result ≡ (one || other) }
{
    one || other
}

/// Writes the line of a variable, or of only its value.
fn write_line<W: Write>(writer: &mut W, value_only: bool, name: &[u8], value: &[u8]) -> bool
    ensures { MatchBool result
        (Appends (W.contents writer.old) (W.contents writer.new) (line_or_value value_only name.now value.now))
        (AppendsPart (W.contents writer.old) (W.contents writer.new) (line_or_value value_only name.now value.now)) }
{
    if value_only {
        return write_two(writer, value, b"\n");
    }
    if !write_three(writer, name, b"=", value) {
        return false;
    }
    write_text(writer, b"\n")
}

/// The exit status of a tool by whether something failed.
fn status_of(failed: bool) -> u8
    ensures { result ≡ status_of failed }
{
    if failed { 1 } else { 0 }
}
