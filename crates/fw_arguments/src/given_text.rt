//! The text that is an environment, and its form.
ghost use Rattle.std.specs.Prelude.{◌≡◌, option_map};
ghost use Rattle.clap.specs.Words.{found_of, rows_of};
ghost use Rattle.fw_arguments.specs.GivenTexts.{given_plain, given_source, given_text, given_text_view, gives_two, is_plain};

use crate::arguments::{first, is_given};
use clap::ArgMatches;

/// The form of a text with variables.
#[derive(Clone, Copy, Debug, PartialEq, Eq)]
pub enum TextForm {
    /// A text for import.
    Import,
    /// Plain lines `NAME=VALUE`, without escapes.
    Plain,
    /// A source of U-Boot after the C preprocessor.
    Source,
    /// Lines `NAME=VALUE` as U-Boot's build prints its default environment: a board takes `\X` for `X`.
    Initial,
}

impl TextForm {
    /// Whether it is plain lines.
    pub fn is_plain(self) -> bool
        ensures { result ≡ is_plain self }
    {
        matches!(self, TextForm::Plain)
    }
}

/// A text with variables.
#[derive(Clone, Copy, Debug)]
pub struct GivenText<'w> {
    /// Its path.
    pub path: &'w str,
    /// Its form.
    pub form: TextForm,
}

/// The text of `--env`, `--env-source` or `--env-plain`.
pub(crate) fn given_text<'w>(found: &ArgMatches<'w>) -> Option<GivenText<'w>>
    ensures { option_map given_text_view result ≡ given_text (rows_of (found_of found.now)) }
{
    match first(found, "env") {
        Some(path) => Some(GivenText {
            path,
            form: TextForm::Import,
        }),
        None => given_source(found),
    }
}

/// The text of `--env-source`, or of `--env-plain`.
fn given_source<'w>(found: &ArgMatches<'w>) -> Option<GivenText<'w>>
    ensures { option_map given_text_view result ≡ given_source (rows_of (found_of found.now)) }
{
    match first(found, "env-source") {
        Some(path) => Some(GivenText {
            path,
            form: TextForm::Source,
        }),
        None => given_plain(found),
    }
}

/// The text of `--env-plain`.
fn given_plain<'w>(found: &ArgMatches<'w>) -> Option<GivenText<'w>>
    ensures { option_map given_text_view result ≡ given_plain (rows_of (found_of found.now)) }
{
    match first(found, "env-plain") {
        Some(path) => Some(GivenText {
            path,
            form: TextForm::Initial,
        }),
        None => None,
    }
}

/// Whether more than one of these is given.
pub(crate) fn gives_two(found: &ArgMatches<'_>) -> bool
    ensures { result ≡ gives_two (rows_of (found_of found.now)) }
{
    if is_given(found, "env") {
        is_given(found, "env-source") || is_given(found, "env-plain")
    } else {
        is_given(found, "env-source") && is_given(found, "env-plain")
    }
}
