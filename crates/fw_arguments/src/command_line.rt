//! clap's commands, made of the table.
ghost use Rattle.std.specs.Prelude.{◌≡◌, IfOk, false, map};
ghost use Rattle.std.specs.List.{fold};
ghost use Rattle.clap.specs.Words.{FailsBy, app_of, fault_of, rule_of};
ghost use Rattle.clap.specs.declared.builder.command.Command.TheViews.{out-Command};
ghost use Rattle.fw_arguments.specs.ProgramNames.{app_of_name, called_in, called_under, client_of, order_under};
ghost use Rattle.fw_arguments.specs.Words.{IsTool, app_of_row, order_in, rule_of_row, with_called, with_names, with_row, with_takes};
ghost use Rattle.fw_arguments.specs.Table.{called_view, names_view, row_view, takes_view};

use crate::command_rows::{FW_PRINTENV, FW_SETENV, FWENV};
use crate::program_name::{ProgramName, SUBCOMMANDS, Subcommand};
use crate::table::{Called, Names, Row, Takes};
use clap::{Arg, ArgAction, ArgMatches, Command, Error};
use std::alloc::{AllocError, Global};
use std::convert::AsStr;

/// What `--version` prints after the program's name.
pub(crate) const VERSION: &str = "0.3.0";

/// Reads the arguments of the command line, the program's own name first, as those of the program under this name. The
/// text of an error is the help, the version, or what is wrong with the arguments.
pub fn read_words<'a, S: AsStr>(
    alloc: Global,
    under: ProgramName,
    words: &'a [S],
) -> Result<ArgMatches<'a>, Error>
    ensures fails { FailsBy (fault_of (app_of_name under) (map S.text words.entry.now)) result }
    ensures order { IfOk result (λ m. order_in m ≡ order_under under (map S.text words.entry.now)) }
    ensures called { IfOk result (λ m. called_in under m ≡ called_under under (map S.text words.entry.now)) }
{
    let command = command_of_name(alloc, under)?;
    let matches = command.try_get_matches_from(words)?;
    Ok(matches)
}

/// The command of a name. With a subcommand after it, it has only that: to build all of them takes longer than to print
/// a small environment.
fn command_of_name<'a>(alloc: Global, name: ProgramName) -> Result<Command<'a>, AllocError>
    ensures { IfOk result (λ c. app_of c ≡ app_of_name name) }
{
    match name {
        ProgramName::Fwenv => with_subcommands(alloc, command_of(alloc, FWENV)?, &SUBCOMMANDS),
        ProgramName::FwenvWith(subcommand) => {
            with_subcommands(alloc, command_of(alloc, FWENV)?, &[subcommand])
        }
        ProgramName::Printenv => client_of(alloc, FW_PRINTENV),
        ProgramName::Setenv => client_of(alloc, FW_SETENV),
    }
}

/// The command of another tool's row: of an option that is given twice the last one counts, as in that tool.
fn client_of<'a>(alloc: Global, row: Called) -> Result<Command<'a>, AllocError>
    ensures { IfOk result (λ c. app_of c ≡ client_of (called_view (λ t. t.now) (λ o. o.now) row.entry)) }
{
    Ok(command_of(alloc, row)?.args_override_self(true))
}

/// A command with these subcommands.
fn with_subcommands<'a>(
    alloc: Global,
    command: Command<'a>,
    subcommands: &[Subcommand],
) -> Result<Command<'a>, AllocError>
    ensures { IfOk result (λ c. app_of c ≡ fold with_called (app_of command.entry) subcommands.now) }
{
    let mut built = command;
    for subcommand in subcommands {
        built = built.subcommand(command_of(alloc, subcommand.row())?)?;
    }
    Ok(built)
}

/// A row's command.
fn command_of<'a>(alloc: Global, row: Called) -> Result<Command<'a>, AllocError>
    ensures { IfOk result (IsTool (app_of_row (called_view (λ t. t.now) (λ o. o.now) row.entry))) }
{
    let (name, about, example): (&'a str, &'a str, &'a str) = (row.name, row.about, row.example);
    let bare = Command::new(alloc, name).about(about).after_help(example);
    if row.has_version {
        with_options(alloc, bare.version(VERSION), row.options)
    } else {
        with_options(alloc, bare, row.options)
    }
}

/// A command with these options.
fn with_options<'a>(
    alloc: Global,
    command: Command<'a>,
    options: &[Row],
) -> Result<Command<'a>, AllocError>
    requires { (out-Command command).has_globals ≡ false }
    ensures { IfOk result (IsTool (fold with_row (app_of command.entry) (map (row_view (λ t. t.now)) options.now))) }
{
    let mut built = command;
    for row in options {
        built = built.arg(arg_of(alloc, *row)?)?;
    }
    Ok(built)
}

/// A row's argument.
fn arg_of<'a>(alloc: Global, row: Row) -> Result<Arg<'a>, AllocError>
    ensures rule { IfOk result (λ a. rule_of a ≡ rule_of_row (row_view (λ t. t.now) row.entry)) }
    ensures local { IfOk result (λ a. a.global ≡ false) }
{
    let bare = Arg::new(alloc, row.id).help(row.help);
    with_names(with_takes(bare, row.takes), row.names)
}

/// An argument that takes this.
fn with_takes<'a>(arg: Arg<'a>, takes: Takes<&'a str>) -> Arg<'a>
    ensures rule { rule_of result ≡ with_takes (takes_view (λ t. t.now) takes.entry) (rule_of arg.entry) }
    ensures local { result.global ≡ arg.entry.global }
{
    match takes {
        Takes::Nothing => arg.action(ArgAction::SetTrue),
        Takes::Version => arg.action(ArgAction::Version),
        Takes::One(name) => arg.value_name(name),
        Takes::Wanted(name) => arg.value_name(name).required(true),
        Takes::Any(name) => arg.value_name(name).num_args(0..),
        Takes::Many(name) => arg.value_name(name).action(ArgAction::Append),
        Takes::Usual(name, usual) => arg.value_name(name).default_value(usual),
    }
}

/// An argument with these names.
fn with_names<'a>(arg: Arg<'a>, names: Names<&'a str>) -> Result<Arg<'a>, AllocError>
    ensures rule { IfOk result (λ a. rule_of a ≡ with_names (names_view (λ t. t.now) names.entry) (rule_of arg.entry)) }
    ensures local { IfOk result (λ a. a.global ≡ arg.entry.global) }
{
    match names {
        Names::Operand => Ok(arg),
        Names::Letter(letter) => Ok(arg.short(letter)),
        Names::Long(long) => Ok(arg.long(long)),
        Names::Both(letter, long) => Ok(arg.short(letter).long(long)),
        Names::More(letter, long, alias) => arg.short(letter).long(long).visible_alias(alias),
    }
}
