//! How often standard input would be read.
ghost use Rattle.std.specs.Prelude.{◌≡◌, List, codes, filter, if◌then◌else◌, length, map};
ghost use Rattle.clap.specs.Words.{found_of, rows_of};
ghost use Rattle.fw_arguments.specs.StandardInput.{dashes, is_dash, is_input, reads_twice};
ghost use Rattle.fw_arguments.specs.Values.{all_values};

use crate::arguments::values;
use clap::ArgMatches;

/// The path of a text that is standard input.
pub const STANDARD_INPUT: &str = "-";

/// The options and the operands that name a text.
pub(crate) const TEXTS: [&str; 10] = [
    "config",
    "default",
    "env",
    "env-source",
    "env-plain",
    "stubs",
    "board",
    "known",
    "script",
    "file",
];

/// Whether the subcommand `name` would read standard input twice: for two of its texts, or for a text of a session, whose
/// lines are there. Of `script` and of `after` there may be several.
pub(crate) fn reads_twice(name: &str, found: &ArgMatches<'_>) -> bool
    ensures { result ≡ reads_twice name.now (rows_of (found_of found.now)) }
{
    if dashes(found, "script") > 1 {
        return true;
    }
    let texts = count_inputs(found, &TEXTS) as u128 + dashes(found, "after") as u128;
    if name == "session" {
        texts > 0
    } else {
        texts > 1
    }
}

/// How many of these texts are standard input.
fn count_inputs(found: &ArgMatches<'_>, ids: &[&str]) -> usize
    ensures { result ≡ length (filter (is_input (rows_of (found_of found.now))) (map (λ id. id.now) ids.now)) }
{
    let mut count = 0;
    for id in ids {
        count += times_input(found, id);
    }
    count
}

/// How often a text is standard input: once or not at all.
fn times_input(found: &ArgMatches<'_>, id: &str) -> usize
    ensures { result ≡ (if is_input (rows_of (found_of found.now)) id.now then 1 else 0) }
{
    if is_input(found, id) { 1 } else { 0 }
}

/// Whether a text is standard input.
fn is_input(found: &ArgMatches<'_>, id: &str) -> bool
    ensures { result ≡ is_input (rows_of (found_of found.now)) id.now }
{
    dashes(found, id) > 0
}

/// How many values of an option are standard input.
fn dashes(found: &ArgMatches<'_>, id: &str) -> usize
    ensures { result ≡ dashes (all_values id.now (rows_of (found_of found.now))) }
{
    match values(found, id) {
        None => 0,
        Some(paths) => count_dashes(paths),
    }
}

/// How many of these paths are standard input.
fn count_dashes(paths: &[&str]) -> usize
    ensures { result ≡ dashes (map (λ path. path.now) paths.now) }
{
    let mut count = 0;
    for path in paths {
        count += times_dash(path);
    }
    count
}

/// How often a path is standard input: once or not at all.
fn times_dash(path: &str) -> usize
    ensures { result ≡ (if is_dash path.now then 1 else 0) }
{
    if path == STANDARD_INPUT { 1 } else { 0 }
}
