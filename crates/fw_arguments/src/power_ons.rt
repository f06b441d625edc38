//! What the words of `boot` ask for.
ghost use Rattle.std.specs.Prelude.{◌≡◌, length};
ghost use Rattle.fw_arguments.specs.DryRuns.{texts};
ghost use Rattle.clap.specs.Words.{found_of, rows_of};
ghost use Rattle.fw_arguments.specs.PowerOns.{power_ons_by, power_ons_of, power_ons_view, power_ons_within, scripts_of, stored_of, ways_of, with_stored, with_ways};
ghost use Rattle.fw_arguments.specs.WordFaults.{word_seen};

use crate::argument_texts::{BAD_STORED, BAD_WAYS, MANY_SCRIPTS};
use crate::arguments::{is_given, values};
use crate::boot_options::{USUAL_STORED, USUAL_WAYS};
use crate::dry_runs::{DryRun, dry_run_within, number, read_limits};
use crate::run_options::BOARD_SHELL;
use crate::shells::read_shell;
use crate::word_fault::WordFault;
use clap::ArgMatches;
use hush_commands::Shell;
use run_limits::Limits;

/// The most stored environments that `--stored` allows.
const MOST_STORED: u32 = 100_000;

/// The most ways that `--ways` allows.
const MOST_WAYS: u32 = 10_000_000;

/// The most scripts that `--after` may name.
const MOST_SCRIPTS: usize = 254;

/// Power-ons with every answer of the hardware: `boot [--bootcount] [--after FILE].. [--cuts] [--stored N] [--ways N] [--dot]`, with
/// the options of a dry run that writes nothing.
#[derive(Clone, Copy, Debug)]
pub struct PowerOns<'m, 'w> {
    /// The options of a dry run.
    pub dry: DryRun<'m, 'w>,
    /// How many stored environments are powered on from.
    pub stored: u32,
    /// How many ways are listed.
    pub ways: u32,
    /// Whether a graph is printed.
    pub dot: bool,
    /// Whether power-ons are counted.
    pub counts: bool,
    /// Whether the power may fail at each save.
    pub cuts: bool,
    /// The paths of scripts that the system may run once it has booted.
    pub after: Option<&'m [&'w str]>,
}

/// The power-ons that the words of `boot` ask for, or what is wrong with its shell or its numbers.
pub(crate) fn read_power_ons<'m, 'w>(
    found: &'m ArgMatches<'w>,
) -> Result<PowerOns<'m, 'w>, WordFault<'w>>
    ensures { word_seen power_ons_view result ≡ power_ons_of (rows_of (found_of found.now)) }
{
    match read_shell(found, BOARD_SHELL) {
        Ok(shell) => power_ons_by(found, shell),
        Err(fault) => Err(fault),
    }
}

/// The same by a shell.
fn power_ons_by<'m, 'w>(
    found: &'m ArgMatches<'w>,
    shell: Shell,
) -> Result<PowerOns<'m, 'w>, WordFault<'w>>
    ensures { word_seen power_ons_view result ≡ power_ons_by (rows_of (found_of found.now)) shell }
{
    match read_limits(found, shell) {
        Ok(limits) => power_ons_within(found, shell, limits),
        Err(fault) => Err(fault),
    }
}

/// The same with these limits of a run.
fn power_ons_within<'m, 'w>(
    found: &'m ArgMatches<'w>,
    shell: Shell,
    limits: Limits,
) -> Result<PowerOns<'m, 'w>, WordFault<'w>>
    ensures { word_seen power_ons_view result ≡ power_ons_within shell (rows_of (found_of found.now)) limits }
{
    match read_stored(found) {
        Ok(stored) => with_stored(found, shell, limits, stored),
        Err(fault) => Err(fault),
    }
}

/// The same from at most so many stored environments.
fn with_stored<'m, 'w>(
    found: &'m ArgMatches<'w>,
    shell: Shell,
    limits: Limits,
    stored: u32,
) -> Result<PowerOns<'m, 'w>, WordFault<'w>>
    ensures { word_seen power_ons_view result ≡ with_stored shell (rows_of (found_of found.now)) limits stored }
{
    match read_ways(found) {
        Ok(ways) => with_ways(found, shell, limits, stored, ways),
        Err(fault) => Err(fault),
    }
}

/// The same by at most so many ways.
fn with_ways<'m, 'w>(
    found: &'m ArgMatches<'w>,
    shell: Shell,
    limits: Limits,
    stored: u32,
    ways: u32,
) -> Result<PowerOns<'m, 'w>, WordFault<'w>>
    ensures { word_seen power_ons_view result ≡ with_ways shell (rows_of (found_of found.now)) limits stored ways }
{
    match read_scripts(found) {
        Ok(after) => Ok(PowerOns {
            dry: dry_run_within(found, shell, limits),
            stored,
            ways,
            dot: is_given(found, "dot"),
            counts: is_given(found, "bootcount"),
            cuts: is_given(found, "cuts"),
            after,
        }),
        Err(fault) => Err(fault),
    }
}

/// The scripts that the system may run once it has booted.
fn read_scripts<'m, 'w>(found: &'m ArgMatches<'w>) -> Result<Option<&'m [&'w str]>, WordFault<'w>>
    ensures { word_seen texts result ≡ scripts_of (rows_of (found_of found.now)) }
{
    let paths = values(found, "after");
    if count(paths) > MOST_SCRIPTS {
        return Err(WordFault::of(MANY_SCRIPTS));
    }
    Ok(paths)
}

/// How many there are.
fn count(paths: Option<&[&str]>) -> usize
    ensures { result ≡ length (texts paths.entry) }
{
    match paths {
        None => 0,
        Some(paths) => paths.len(),
    }
}

/// How many stored environments are powered on from.
fn read_stored<'w>(found: &ArgMatches<'w>) -> Result<u32, WordFault<'w>>
    ensures { word_seen (λ n. n) result ≡ stored_of (rows_of (found_of found.now)) }
{
    number(found, "stored", USUAL_STORED, MOST_STORED, BAD_STORED)
}

/// How many ways are listed.
fn read_ways<'w>(found: &ArgMatches<'w>) -> Result<u32, WordFault<'w>>
    ensures { word_seen (λ n. n) result ≡ ways_of (rows_of (found_of found.now)) }
{
    number(found, "ways", USUAL_WAYS, MOST_WAYS, BAD_WAYS)
}
