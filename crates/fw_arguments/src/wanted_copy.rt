//! Which copy's variables are printed, as the arguments choose.
ghost use Rattle.std.specs.Prelude.{◌≡◌};
ghost use Rattle.clap.specs.Words.{found_of, rows_of};
ghost use Rattle.fw_arguments.specs.Values.{value_or};
ghost use Rattle.fw_arguments.specs.WantedCopies.{bad_copy, copy_named, wanted_copy_of};
ghost use Rattle.fw_arguments.specs.WordFaults.{word_seen};

use crate::argument_texts::{BAD_COPY, INVALID_VALUE};
use crate::arguments::first;
use crate::word_fault::WordFault;
use clap::ArgMatches;

/// A copy whose variables are asked for.
#[derive(Clone, Copy, Debug, PartialEq, Eq)]
pub enum WantedCopy {
    /// The current one, or the default environment if no copy is good.
    Current,
    /// The first one, which has to be good.
    First,
    /// The second one, which has to be good.
    Second,
}

/// The copy that `--copy` names, or the current one without it.
pub(crate) fn read_wanted_copy<'w>(found: &ArgMatches<'w>) -> Result<WantedCopy, WordFault<'w>>
    ensures { word_seen (λ c. c) result ≡ wanted_copy_of (rows_of (found_of found.now)) }
{
    match first(found, "copy") {
        None => Ok(WantedCopy::Current),
        Some(word) => named_or_fault(word),
    }
}

/// The copy of this number, or what is wrong with the number.
fn named_or_fault(word: &str) -> Result<WantedCopy, WordFault<'_>>
    ensures { word_seen (λ c. c) result ≡ value_or bad_copy word.now (copy_named word.now) }
{
    match copy_named(word) {
        Some(copy) => Ok(copy),
        None => Err(WordFault {
            front: INVALID_VALUE,
            word,
            back: BAD_COPY,
        }),
    }
}

/// The copy of this number, if there is one.
fn copy_named(word: &str) -> Option<WantedCopy>
    ensures { result ≡ copy_named word.now }
{
    if word == "1" {
        Some(WantedCopy::First)
    } else if word == "2" {
        Some(WantedCopy::Second)
    } else {
        None
    }
}
