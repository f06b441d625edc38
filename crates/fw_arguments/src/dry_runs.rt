//! What the words of `session` and `run` ask for.
ghost use Rattle.std.specs.Prelude.{◌≡◌, ◌≤◌, map, option_map, option_copied, codes, IfOk, IfSome};
ghost use Rattle.clap.specs.Words.{found_of, rows_of};
ghost use Rattle.fw_arguments.specs.DryRuns.{depth_of, dry_run_by, dry_run_of, dry_run_view, limits_of, number_in, number_of, run_within, script_by, script_of, script_run_by, script_run_of, script_run_view, script_view, script_within, text_by, texts};
ghost use Rattle.fw_arguments.specs.WordFaults.{word_seen};
ghost use Rattle.run_limits.specs.Limits.{most_depth};

use crate::argument_texts::{
    BAD_DEPTH, BAD_OUTPUT, BAD_STEPS, BAD_WORD, INVALID_VALUE, NO_SCRIPT, SEVERAL_SCRIPTS,
};
use crate::arguments::{first, first_or, is_given, values};
use crate::run_options::{BOARD_SHELL, STRICT_SHELL, USUAL_OUTPUT, USUAL_STEPS, USUAL_WORD};
use crate::shells::{read_shell, usual_depth};
use crate::word_fault::WordFault;
use clap::ArgMatches;
use hush_commands::Shell;
use run_limits::{Limits, MOST_DEPTH, MOST_OUTPUT, MOST_STEPS, MOST_WORD};
use text_parts::{Base, numeral};

/// What a session, the run of a script and power-ons have: `[--shell SHELL] [--write] [--stubs FILE] [--board FILE]
/// [--boots NAME].. [--resets NAME].. [--steps N] [--depth N] [--word N] [--output N]`.
#[derive(Clone, Copy, Debug)]
pub struct DryRun<'m, 'w> {
    /// Whose rules count where shells differ.
    pub shell: Shell,
    /// Whether the copies are written back.
    pub write: bool,
    /// The path of the stand-ins, if there are any.
    pub stand_ins: Option<&'w str>,
    /// The path of the board file, if there is one.
    pub board: Option<&'w str>,
    /// The names of stand-ins that boot: with status 0 the run ends there.
    pub boots: Option<&'m [&'w str]>,
    /// The names of stand-ins that reset the board, likewise.
    pub resets: Option<&'m [&'w str]>,
    /// How far each run may go.
    pub limits: Limits,
}

/// The run of a script: `run [--must-boot] [--trace] (NAMES | -e SCRIPT | -f FILE)`, with the options of a dry run.
#[derive(Clone, Copy, Debug)]
pub struct ScriptRun<'m, 'w> {
    /// The options of a dry run.
    pub dry: DryRun<'m, 'w>,
    /// Whether the run has to end in a boot.
    pub must_boot: bool,
    /// Whether the commands that are run are printed.
    pub trace: bool,
    /// The script.
    pub script: GivenScript<'m, 'w>,
}

/// A script to run.
#[derive(Clone, Copy, Debug)]
pub enum GivenScript<'m, 'w> {
    /// Starts of the variables of these names, one after the other.
    Names(&'m [&'w str]),
    /// A text among the words.
    Words(&'w str),
    /// The text of the file at this path.
    File(&'w str),
}

/// The dry run that the words of `session` ask for, or what is wrong with its shell or its numbers.
pub(crate) fn read_dry_run<'m, 'w>(
    found: &'m ArgMatches<'w>,
) -> Result<DryRun<'m, 'w>, WordFault<'w>>
    ensures { word_seen dry_run_view result ≡ dry_run_of (rows_of (found_of found.now)) }
{
    match read_shell(found, STRICT_SHELL) {
        Ok(shell) => dry_run_by(found, shell),
        Err(fault) => Err(fault),
    }
}

/// The same by a shell.
fn dry_run_by<'m, 'w>(
    found: &'m ArgMatches<'w>,
    shell: Shell,
) -> Result<DryRun<'m, 'w>, WordFault<'w>>
    ensures { word_seen dry_run_view result ≡ dry_run_by (rows_of (found_of found.now)) shell }
{
    match read_limits(found, shell) {
        Ok(limits) => Ok(dry_run_within(found, shell, limits)),
        Err(fault) => Err(fault),
    }
}

/// The dry run by a shell within these limits.
pub(crate) fn dry_run_within<'m, 'w>(
    found: &'m ArgMatches<'w>,
    shell: Shell,
    limits: Limits,
) -> DryRun<'m, 'w>
    ensures { dry_run_view result ≡ run_within shell (rows_of (found_of found.now)) limits }
{
    DryRun {
        shell,
        write: is_given(found, "write"),
        stand_ins: first(found, "stubs"),
        board: first(found, "board"),
        boots: values(found, "boots"),
        resets: values(found, "resets"),
        limits,
    }
}

/// The limits of each run by a shell. The first number that is wrong is answered.
pub(crate) fn read_limits<'w>(found: &ArgMatches<'w>, shell: Shell) -> Result<Limits, WordFault<'w>>
    ensures { word_seen (λ l. l) result ≡ limits_of shell (rows_of (found_of found.now)) }
{
    let steps = number(found, "steps", USUAL_STEPS, MOST_STEPS, BAD_STEPS)?;
    let depth = read_depth(found, shell)?;
    let word = number(found, "word", USUAL_WORD, MOST_WORD, BAD_WORD)?;
    let output = number(found, "output", USUAL_OUTPUT, MOST_OUTPUT, BAD_OUTPUT)?;
    match Limits::new(steps, depth, word, output) {
        Some(limits) => Ok(limits),
        None => unreachable!(),
    }
}

/// How many starts may be inside one another by a shell.
fn read_depth<'w>(found: &ArgMatches<'w>, shell: Shell) -> Result<u32, WordFault<'w>>
    ensures read { word_seen (λ n. n) result ≡ depth_of shell (rows_of (found_of found.now)) }
    ensures most { IfOk result (λ n. n ≤ most_depth) }
{
    number(found, "depth", usual_depth(shell), MOST_DEPTH, BAD_DEPTH)
}

/// The run of a script that the words of `run` ask for, or what is wrong with them.
pub(crate) fn read_script_run<'m, 'w>(
    found: &'m ArgMatches<'w>,
) -> Result<ScriptRun<'m, 'w>, WordFault<'w>>
    ensures { word_seen script_run_view result ≡ script_run_of (rows_of (found_of found.now)) }
{
    match read_shell(found, BOARD_SHELL) {
        Ok(shell) => script_run_by(found, shell),
        Err(fault) => Err(fault),
    }
}

/// The same by a shell.
fn script_run_by<'m, 'w>(
    found: &'m ArgMatches<'w>,
    shell: Shell,
) -> Result<ScriptRun<'m, 'w>, WordFault<'w>>
    ensures { word_seen script_run_view result ≡ script_run_by (rows_of (found_of found.now)) shell }
{
    match read_limits(found, shell) {
        Ok(limits) => with_limits(found, shell, limits),
        Err(fault) => Err(fault),
    }
}

/// The same within these limits.
fn with_limits<'m, 'w>(
    found: &'m ArgMatches<'w>,
    shell: Shell,
    limits: Limits,
) -> Result<ScriptRun<'m, 'w>, WordFault<'w>>
    ensures { word_seen script_run_view result ≡ script_within shell (rows_of (found_of found.now)) limits }
{
    match read_script(found) {
        Ok(script) => Ok(ScriptRun {
            dry: dry_run_within(found, shell, limits),
            must_boot: is_given(found, "must_boot"),
            trace: is_given(found, "trace"),
            script,
        }),
        Err(fault) => Err(fault),
    }
}

/// The script that the words of `run` give.
fn read_script<'m, 'w>(found: &'m ArgMatches<'w>) -> Result<GivenScript<'m, 'w>, WordFault<'w>>
    ensures { word_seen script_view result ≡ script_of (rows_of (found_of found.now)) }
{
    script_by(
        values(found, "names"),
        first(found, "text"),
        first(found, "script"),
    )
}

/// The one script that is given.
fn script_by<'m, 'w>(
    names: Option<&'m [&'w str]>,
    text: Option<&'w str>,
    path: Option<&'w str>,
) -> Result<GivenScript<'m, 'w>, WordFault<'w>>
    ensures { word_seen script_view result ≡ script_by (texts names.entry) (option_copied text.entry) (option_copied path.entry) }
{
    match names {
        None => text_by(text, path),
        Some(names) => {
            if names.is_empty() {
                text_by(text, path)
            } else if text.is_some() || path.is_some() {
                Err(WordFault::of(SEVERAL_SCRIPTS))
            } else {
                Ok(GivenScript::Names(names))
            }
        }
    }
}

/// The one text that is given.
fn text_by<'m, 'w>(
    text: Option<&'w str>,
    path: Option<&'w str>,
) -> Result<GivenScript<'m, 'w>, WordFault<'w>>
    ensures { word_seen script_view result ≡ text_by (option_copied text.entry) (option_copied path.entry) }
{
    match (text, path) {
        (None, None) => Err(WordFault::of(NO_SCRIPT)),
        (Some(text), None) => Ok(GivenScript::Words(text)),
        (None, Some(path)) => Ok(GivenScript::File(path)),
        (Some(_), Some(_)) => Err(WordFault::of(SEVERAL_SCRIPTS)),
    }
}

/// The number that an option gives, or what it is without the option, which is at most `most`.
pub(crate) fn number<'w>(
    found: &ArgMatches<'w>,
    id: &str,
    usual: &'static str,
    most: u32,
    bad: &'static [u8],
) -> Result<u32, WordFault<'w>>
    ensures read { word_seen (λ n. n) result ≡ number_of id.now usual.now most bad.now (rows_of (found_of found.now)) }
    ensures most { IfOk result (λ n. n ≤ most) }
{
    let word = first_or(found, id, usual);
    match read_number(word.as_bytes(), most) {
        Some(number) => Ok(number),
        None => Err(WordFault {
            front: INVALID_VALUE,
            word,
            back: bad,
        }),
    }
}

/// Reads a number of decimal digits, one or more, that is at most `most`; leading zeros are fine.
fn read_number(text: &[u8], most: u32) -> Option<u32>
    ensures read { result ≡ number_in most text.now }
    ensures most { IfSome result (λ n. n ≤ most) }
{
    let most = u64::from(most);
    let number = numeral(Base::Decimal, text, most + 1)?;
    if number > most {
        return None;
    }
    Some(number as u32)
}
