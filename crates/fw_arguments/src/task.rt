//! What the arguments of a subcommand ask a tool to do.
ghost use Rattle.std.specs.Prelude.{◌≡◌, if◌then◌else◌, option_copied};
ghost use Rattle.clap.specs.Words.{found_of, rows_of};
ghost use Rattle.fw_arguments.specs.Calls.{changes, print_task, seen, set_task, task_of, task_view, texts, tool_task, values_task};
ghost use Rattle.fw_arguments.specs.declared.task.Printing.TheVariants.{Lines, OneValue};

use crate::argument_texts::{
    CLIENT_NAME_AND_SCRIPT, CLIENT_NO_NAME, NAME_AND_SCRIPT, NO_NAME, NO_NAMES,
};
use crate::arguments::{first, first_or, is_given, values};
use clap::ArgMatches;

/// How variables are printed.
#[derive(Clone, Copy, Debug, PartialEq, Eq)]
pub enum Printing {
    /// A line NAME=VALUE each.
    Lines,
    /// Only the value of one name.
    OneValue,
    /// Only the values of names, a line each.
    Values,
}

/// What a tool is to do.
#[derive(Clone, Copy, Debug)]
pub enum Task<'m, 'w> {
    /// `printenv [-n] [NAMES]`
    Print {
        names: Option<&'m [&'w str]>,
        printing: Printing,
    },
    /// `setenv NAME [WORDS]`
    Set {
        name: &'w str,
        words: Option<&'m [&'w str]>,
    },
    /// `setenv -s FILE`
    SetScript {
        path: &'w str,
    },
    /// `import FILE`
    Import {
        path: &'w str,
    },
    /// `export`
    Export,
    /// `restore FILE`
    Restore {
        path: &'w str,
    },
}

impl Task<'_, '_> {
    /// Whether it changes the session.
    pub fn changes(&self) -> bool
        ensures { result ≡ changes (task_view self.now) }
    {
        match self {
            Task::Print { .. } | Task::Export => false,
            Task::Set { .. } | Task::SetScript { .. } | Task::Import { .. } => true,
            Task::Restore { .. } => true,
        }
    }
}

/// What the arguments of the subcommand `name` ask a tool to do.
pub(crate) fn read_task<'m, 'w>(
    name: &str,
    found: &'m ArgMatches<'w>,
) -> Result<Task<'m, 'w>, &'static [u8]>
    ensures { seen task_view result ≡ task_of name.now (rows_of (found_of found.now)) }
{
    if name == "fw_printenv" {
        return print_task(values(found, "names"), is_given(found, "value-only"));
    }
    if name == "fw_setenv" {
        return set_task(
            CLIENT_NAME_AND_SCRIPT,
            CLIENT_NO_NAME,
            first(found, "name"),
            first(found, "script"),
            values(found, "words"),
        );
    }
    tool_task(name, found)
}

/// What the arguments of a subcommand of `fwenv` ask a tool to do.
fn tool_task<'m, 'w>(name: &str, found: &'m ArgMatches<'w>) -> Result<Task<'m, 'w>, &'static [u8]>
    ensures { seen task_view result ≡ tool_task name.now (rows_of (found_of found.now)) }
{
    if name == "printenv" {
        return Ok(Task::Print {
            names: values(found, "names"),
            printing: one_or_lines(is_given(found, "value-only")),
        });
    }
    if name == "export" {
        return Ok(Task::Export);
    }
    if name == "import" {
        let path = first_or(found, "file", "");
        return Ok(Task::Import { path });
    }
    if name == "restore" {
        let path = first_or(found, "file", "");
        return Ok(Task::Restore { path });
    }
    set_task(
        NAME_AND_SCRIPT,
        NO_NAME,
        first(found, "name"),
        first(found, "script"),
        values(found, "words"),
    )
}

/// The value of one name, or lines.
fn one_or_lines(value_only: bool) -> Printing
    ensures { result ≡ (if value_only then OneValue else Lines) }
{
    if value_only {
        Printing::OneValue
    } else {
        Printing::Lines
    }
}

/// `fw_printenv` prints lines, or the values of names.
fn print_task<'m, 'w>(
    names: Option<&'m [&'w str]>,
    value_only: bool,
) -> Result<Task<'m, 'w>, &'static [u8]>
    ensures { seen task_view result ≡ print_task (texts names.entry) value_only }
{
    if value_only {
        values_task(names)
    } else {
        Ok(Task::Print {
            names,
            printing: Printing::Lines,
        })
    }
}

/// It takes at least one name to print values.
fn values_task<'m, 'w>(names: Option<&'m [&'w str]>) -> Result<Task<'m, 'w>, &'static [u8]>
    ensures { seen task_view result ≡ values_task (texts names.entry) }
{
    match names {
        None => Err(NO_NAMES),
        Some(given) => {
            if given.is_empty() {
                Err(NO_NAMES)
            } else {
                Ok(Task::Print {
                    names: Some(given),
                    printing: Printing::Values,
                })
            }
        }
    }
}

/// `setenv` takes a name or a script; two texts report what is wrong with other arguments.
fn set_task<'m, 'w>(
    both: &'static [u8],
    neither: &'static [u8],
    name: Option<&'w str>,
    script: Option<&'w str>,
    words: Option<&'m [&'w str]>,
) -> Result<Task<'m, 'w>, &'static [u8]>
    ensures { seen task_view result ≡ set_task both.now neither.now (option_copied name.entry) (option_copied script.entry) (texts words.entry) }
{
    match (name, script) {
        (Some(_), Some(_)) => Err(both),
        (Some(name), None) => Ok(Task::Set { name, words }),
        (None, Some(path)) => Ok(Task::SetScript { path }),
        (None, None) => Err(neither),
    }
}
