//! Whose rules a run follows and a check goes by, as the arguments choose.
ghost use Rattle.std.specs.Prelude.{◌≡◌};
ghost use Rattle.clap.specs.Words.{found_of, rows_of};
ghost use Rattle.fw_arguments.specs.Shells.{shell_named, shell_of, usual_depth};
ghost use Rattle.fw_arguments.specs.WordFaults.{word_seen};

use crate::argument_texts::{BAD_SHELL, INVALID_VALUE};
use crate::arguments::first_or;
use crate::run_options::{BOARD_DEPTH, BOARD_SHELL, STRICT_DEPTH, STRICT_SHELL};
use crate::word_fault::WordFault;
use clap::ArgMatches;
use hush_commands::Shell;

/// The shell that `--shell` names, or the one of this name without it.
pub(crate) fn read_shell<'w>(
    found: &ArgMatches<'w>,
    usual: &'static str,
) -> Result<Shell, WordFault<'w>>
    ensures { word_seen (λ s. s) result ≡ shell_of usual.now (rows_of (found_of found.now)) }
{
    let name = first_or(found, "shell", usual);
    match shell_named(name) {
        Some(shell) => Ok(shell),
        None => Err(WordFault {
            front: INVALID_VALUE,
            word: name,
            back: BAD_SHELL,
        }),
    }
}

/// The shell of this name, if there is one.
fn shell_named(name: &str) -> Option<Shell>
    ensures { result ≡ shell_named name.now }
{
    if name == BOARD_SHELL {
        Some(Shell::Board)
    } else if name == STRICT_SHELL {
        Some(Shell::Strict)
    } else {
        None
    }
}

/// How many starts may be inside one another if no number is given.
pub(crate) fn usual_depth(shell: Shell) -> &'static str
    ensures { result.now ≡ usual_depth shell }
{
    match shell {
        Shell::Board => BOARD_DEPTH,
        Shell::Strict => STRICT_DEPTH,
    }
}
