//! What the arguments of `check` ask for.
ghost use Rattle.std.specs.Prelude.{◌≡◌, Ok, map, option_map};
ghost use Rattle.clap.specs.Words.{found_of, rows_of};
ghost use Rattle.finding_kinds.specs.Choices.{choice_view};
ghost use Rattle.fw_arguments.specs.DryRuns.{and_then, texts};
ghost use Rattle.fw_arguments.specs.Formats.{format_of};
ghost use Rattle.fw_arguments.specs.Checks.{choice_by, choice_of, environment_check_by, environment_check_of, environment_check_view, file_check_by, file_check_of, file_check_view, names_environment, needs_environment, rules_of, rules_view, wrong_code};
ghost use Rattle.fw_arguments.specs.WordFaults.{word_seen};

use crate::argument_texts::{BAD_CODE, FILE_ALONE, INVALID_VALUE};
use crate::arguments::{first, is_given, values};
use crate::formats::read_format;
use crate::run_options::BOARD_SHELL;
use crate::shells::read_shell;
use crate::word_fault::WordFault;
use clap::ArgMatches;
use finding_kinds::{Choice, Format, is_code};
use hush_commands::Shell;

/// A check over an environment: `check [--shell SHELL] [--stubs FILE] [--board FILE] [--known FILE] [--ignore CODE].. [--strict] [--all]
/// [-f FILE].. [NAMES]`.
#[derive(Clone, Copy, Debug)]
pub struct EnvironmentCheck<'m, 'w> {
    /// Whose rules count where shells differ.
    pub shell: Shell,
    /// The path of the stand-ins, if there are any.
    pub stand_ins: Option<&'w str>,
    /// The path of the board file, if there is one.
    pub board: Option<&'w str>,
    /// The path of the names that the board's own code sets, if there are any.
    pub known: Option<&'w str>,
    /// What counts of what is found.
    pub choice: Choice<'m>,
    /// The variables that it begins with.
    pub names: Option<&'m [&'w str]>,
    /// The paths of the scripts in files that are checked over it, `-` for standard input.
    pub scripts: Option<&'m [&'w str]>,
}

/// A check of scripts in files without an environment: `check [--shell SHELL] [--stubs FILE] [--board FILE] [--ignore CODE].. [--strict]
/// (-f FILE)..`.
#[derive(Clone, Copy, Debug)]
pub struct FileCheck<'m, 'w> {
    /// Whose rules count where shells differ.
    pub shell: Shell,
    /// The path of the stand-ins, if there are any.
    pub stand_ins: Option<&'w str>,
    /// The path of the board file, if there is one.
    pub board: Option<&'w str>,
    /// What counts of what is found.
    pub choice: Choice<'m>,
    /// The paths of the scripts, `-` for standard input.
    pub paths: &'m [&'w str],
}

/// The check over an environment that the arguments of `check` ask for, or what is wrong with its shell or a code.
pub(crate) fn read_environment_check<'m, 'w>(
    found: &'m ArgMatches<'w>,
) -> Result<EnvironmentCheck<'m, 'w>, WordFault<'w>>
    ensures { word_seen environment_check_view result ≡ environment_check_of (rows_of (found_of found.now)) }
{
    match read_rules(found) {
        Ok(rules) => Ok(environment_check_by(found, rules)),
        Err(fault) => Err(fault),
    }
}

/// The same by these rules.
fn environment_check_by<'m, 'w>(
    found: &'m ArgMatches<'w>,
    rules: (Shell, Choice<'m>),
) -> EnvironmentCheck<'m, 'w>
    ensures { environment_check_view result
        ≡ environment_check_by (rows_of (found_of found.now)) (rules_view rules.entry) }
{
    EnvironmentCheck {
        shell: rules.0,
        stand_ins: first(found, "stubs"),
        board: first(found, "board"),
        known: first(found, "known"),
        choice: rules.1,
        names: values(found, "names"),
        scripts: values(found, "script"),
    }
}

/// The check of the scripts in files, or what is wrong with its arguments.
pub(crate) fn read_file_check<'m, 'w>(
    paths: &'m [&'w str],
    found: &'m ArgMatches<'w>,
) -> Result<FileCheck<'m, 'w>, WordFault<'w>>
    ensures { word_seen file_check_view result
        ≡ file_check_of (map (λ p. p.now) paths.now) (rows_of (found_of found.now)) }
{
    if needs_environment(found) {
        return Err(WordFault::of(FILE_ALONE));
    }
    match read_rules(found) {
        Ok(rules) => Ok(file_check_by(paths, found, rules)),
        Err(fault) => Err(fault),
    }
}

/// The same by these rules.
fn file_check_by<'m, 'w>(
    paths: &'m [&'w str],
    found: &'m ArgMatches<'w>,
    rules: (Shell, Choice<'m>),
) -> FileCheck<'m, 'w>
    ensures { file_check_view result
        ≡ file_check_by (map (λ p. p.now) paths.now) (rows_of (found_of found.now)) (rules_view rules.entry) }
{
    FileCheck {
        shell: rules.0,
        stand_ins: first(found, "stubs"),
        board: first(found, "board"),
        choice: rules.1,
        paths,
    }
}

/// Whose rules count and what does, or what is wrong with one of them.
fn read_rules<'m, 'w>(found: &'m ArgMatches<'w>) -> Result<(Shell, Choice<'m>), WordFault<'w>>
    ensures { word_seen rules_view result ≡ rules_of (rows_of (found_of found.now)) }
{
    match read_shell(found, BOARD_SHELL) {
        Ok(shell) => rules_with(found, shell),
        Err(fault) => Err(fault),
    }
}

/// The same with this shell.
fn rules_with<'m, 'w>(
    found: &'m ArgMatches<'w>,
    shell: Shell,
) -> Result<(Shell, Choice<'m>), WordFault<'w>>
    ensures { word_seen rules_view result
        ≡ and_then (choice_of (rows_of (found_of found.now))) (λ choice. Ok (shell, choice)) }
{
    match read_choice(found) {
        Ok(choice) => Ok((shell, choice)),
        Err(fault) => Err(fault),
    }
}

/// What counts and how it is told, or what is wrong with a code or the format.
fn read_choice<'m, 'w>(found: &'m ArgMatches<'w>) -> Result<Choice<'m>, WordFault<'w>>
    ensures { word_seen choice_view result ≡ choice_of (rows_of (found_of found.now)) }
{
    match wrong_code(values(found, "ignore")) {
        Some(word) => Err(WordFault {
            front: INVALID_VALUE,
            word,
            back: BAD_CODE,
        }),
        None => choice_in_format(found),
    }
}

/// The same if each code is one.
fn choice_in_format<'m, 'w>(found: &'m ArgMatches<'w>) -> Result<Choice<'m>, WordFault<'w>>
    ensures { word_seen choice_view result
        ≡ and_then (format_of (rows_of (found_of found.now)))
        (λ format. Ok (choice_by (rows_of (found_of found.now)) format)) }
{
    match read_format(found) {
        Ok(format) => Ok(choice_by(found, format)),
        Err(fault) => Err(fault),
    }
}

/// The same in this format.
fn choice_by<'m, 'w>(found: &'m ArgMatches<'w>, format: Format) -> Choice<'m>
    ensures { choice_view result ≡ choice_by (rows_of (found_of found.now)) format }
{
    Choice {
        ignored: values(found, "ignore"),
        strict: is_given(found, "strict"),
        all: is_given(found, "all"),
        format,
    }
}

/// The first of these texts that isn't a code, if there are some.
fn wrong_code<'m, 'w>(words: Option<&'m [&'w str]>) -> Option<&'w str>
    ensures { option_map (λ t. t.now) result ≡ wrong_code (texts words.entry) }
{
    match words {
        Some(given) => first_wrong(given),
        None => None,
    }
}

/// The first of these texts that isn't a code.
fn first_wrong<'w>(texts: &[&'w str]) -> Option<&'w str>
    ensures { option_map (λ t. t.now) result ≡ wrong_code (map (λ t. t.now) texts.now) }
{
    for text in texts {
        if !is_code(text) {
            return Some(*text);
        }
    }
    None
}

/// Whether an environment is named.
pub(crate) fn names_environment(found: &ArgMatches<'_>) -> bool
    ensures { result ≡ names_environment (rows_of (found_of found.now)) }
{
    is_given(found, "config")
        || is_given(found, "env")
        || is_given(found, "env-source")
        || is_given(found, "env-plain")
}

/// Whether something is given that is of an environment.
fn needs_environment(found: &ArgMatches<'_>) -> bool
    ensures { result ≡ needs_environment (rows_of (found_of found.now)) }
{
    is_given(found, "names")
        || is_given(found, "default")
        || is_given(found, "size")
        || is_given(found, "known")
        || is_given(found, "all")
}
