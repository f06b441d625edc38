//! How the findings of a check are printed, as the arguments choose.
ghost use Rattle.std.specs.Prelude.{◌≡◌};
ghost use Rattle.clap.specs.Words.{found_of, rows_of};
ghost use Rattle.fw_arguments.specs.Formats.{format_named, format_of};
ghost use Rattle.fw_arguments.specs.WordFaults.{word_seen};

use crate::argument_texts::{BAD_FORMAT, INVALID_VALUE};
use crate::arguments::first_or;
use crate::check_options::{GCC_FORMAT, JSON_FORMAT, TEXT_FORMAT};
use crate::word_fault::WordFault;
use clap::ArgMatches;
use finding_kinds::Format;

/// The format that `--format` names, or what is wrong with its name.
pub(crate) fn read_format<'w>(found: &ArgMatches<'w>) -> Result<Format, WordFault<'w>>
    ensures { word_seen (λ f. f) result ≡ format_of (rows_of (found_of found.now)) }
{
    let name = first_or(found, "format", TEXT_FORMAT);
    match format_named(name) {
        Some(format) => Ok(format),
        None => Err(WordFault {
            front: INVALID_VALUE,
            word: name,
            back: BAD_FORMAT,
        }),
    }
}

/// The format of this name, if there is one.
fn format_named(name: &str) -> Option<Format>
    ensures { result ≡ format_named name.now }
{
    if name == TEXT_FORMAT {
        Some(Format::Text)
    } else if name == GCC_FORMAT {
        Some(Format::Gcc)
    } else if name == JSON_FORMAT {
        Some(Format::Json)
    } else {
        None
    }
}
