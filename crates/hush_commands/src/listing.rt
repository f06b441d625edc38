//! `printenv` (docs/runs.md, "Commands").
ghost use Rattle.std.specs.Prelude.{◌≡◌, ◌∷◌, false};
ghost use Rattle.std.specs.FinMap.{entries};
ghost use Rattle.hush_commands.specs.Output.{Prints, Answers};
ghost use Rattle.hush_commands.specs.Listing.{line_of, lines_of, listed, PrintsNamed};

use crate::execution::status_if;
use crate::messages::Message;
use crate::output::{Output, PrintFault};
use envvars_core::Vars;
use hush_calc::Fields;
use text_parts::begins_with_byte;

/// `printenv`: without names prints all variables in order of names, those that begin with `.` only if all are asked for;
/// with names prints these, and for one that isn't defined a message, with status 1.
pub(crate) fn print_variables(
    vars: &Vars,
    all: bool,
    names: Fields<'_>,
    output: &mut Output,
) -> Result<u8, PrintFault>
    ensures { Answers (listed all vars.now.env names.entry) output.old output.new result }
{
    let mut rest = names;
    match rest.next() {
        Some(name) => print_named(vars, name, rest, output),
        None => {
            print_all(vars, all, output)?;
            Ok(0)
        }
    }
}

/// Prints all variables, those whose names begin with `.` only if all are asked for.
fn print_all(vars: &Vars, all: bool, output: &mut Output) -> Result<(), PrintFault>
    ensures { Prints (lines_of all (entries vars.now.env)) output.old output.new result }
{
    for (name, value) in vars.iter() {
        if all || !begins_with_byte(b'.', name) {
            print_line(name, value, output)?;
        }
    }
    Ok(())
}

/// Prints names that are asked for, this one and those after it.
fn print_named(
    vars: &Vars,
    first: &[u8],
    others: Fields<'_>,
    output: &mut Output,
) -> Result<u8, PrintFault>
    ensures { Answers (listed false vars.now.env (first.now ∷ others.entry)) output.old output.new result }
{
    let mut rest = others;
    let mut all_defined = print_one(vars, first, output)?;
    while let Some(name) = rest.next() {
        let defined = print_one(vars, name, output)?;
        all_defined = all_defined & defined;
    }
    Ok(status_if(all_defined))
}

/// Prints the line of a name, or that it isn't defined; returns whether it is.
fn print_one(vars: &Vars, name: &[u8], output: &mut Output) -> Result<bool, PrintFault>
    ensures { PrintsNamed vars.now.env name.now output.old output.new result }
{
    match vars.get(name) {
        Some(value) => {
            print_line(name, value, output)?;
            Ok(true)
        }
        None => {
            Message::NotDefined.tell(name, output)?;
            Ok(false)
        }
    }
}

/// Prints a variable.
fn print_line(name: &[u8], value: &[u8], output: &mut Output) -> Result<(), PrintFault>
    ensures { Prints (line_of (name.now, value.now)) output.old output.new result }
{
    output.print(name)?;
    output.print_parts(b"=", value, b"\n")
}
