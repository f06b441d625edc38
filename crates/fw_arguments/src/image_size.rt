//! The size of the image under an environment that is only a text.
ghost use Rattle.std.specs.Prelude.{◌≡◌, option_map};
ghost use Rattle.clap.specs.Words.{found_of, rows_of};
ghost use Rattle.fw_arguments.specs.GivenTexts.{given_text_view};
ghost use Rattle.fw_arguments.specs.ImageSizes.{image_of, in_devices, in_memory, overwrites_alone, size_in, sized, takes_text, whole_text};
ghost use Rattle.fw_arguments.specs.WordFaults.{word_seen};

use crate::argument_texts::{
    BAD_SIZE, CONFIG_AND_ENV, DEFAULT_AND_ENV, INVALID_VALUE, NEED_COPY_AND_ENV, OVERWRITE_ALONE,
    SIZE_ALONE, TWO_TEXTS, WANTED_COPY_AND_ENV, WRITE_AND_ENV,
};
use crate::arguments::{first_or, is_given};
use crate::given_text::{GivenText, given_text, gives_two};
use crate::run_options::USUAL_SIZE;
use crate::word_fault::WordFault;
use clap::ArgMatches;
use envimg_core::SIZE_MAX;
use text_parts::{Base, behind_0x, numeral};

/// The least size of a single image, in bytes.
const SIZE_MIN: u64 = 8;

/// The size of the image in memory, if the arguments of the subcommand `name` make the environment only a text; or what
/// is wrong with them.
pub(crate) fn read_image<'w>(
    name: &str,
    found: &ArgMatches<'w>,
) -> Result<Option<u32>, WordFault<'w>>
    ensures { word_seen (λ size. size) result ≡ image_of name.now (rows_of (found_of found.now)) }
{
    match whole_text(name, found) {
        None => in_devices(name, found),
        Some(_text) => in_memory(found),
    }
}

/// The text that is the whole environment, if there is one.
pub(crate) fn whole_text<'w>(name: &str, found: &ArgMatches<'w>) -> Option<GivenText<'w>>
    ensures { option_map given_text_view result ≡ whole_text name.now (rows_of (found_of found.now)) }
{
    if takes_text(name) {
        given_text(found)
    } else {
        None
    }
}

/// Whether the environment of this subcommand may be only a text.
fn takes_text(name: &str) -> bool
    ensures { result ≡ takes_text name.now }
{
    name == "session" || name == "run" || name == "boot" || name == "check"
}

/// `None`: the copies are those of a configuration.
fn in_devices<'w>(name: &str, found: &ArgMatches<'w>) -> Result<Option<u32>, WordFault<'w>>
    ensures { word_seen (λ size. size) result ≡ in_devices name.now (rows_of (found_of found.now)) }
{
    if takes_text(name) && is_given(found, "size") {
        return Err(WordFault::of(SIZE_ALONE));
    }
    if takes_text(name) && overwrites_alone(found) {
        return Err(WordFault::of(OVERWRITE_ALONE));
    }
    Ok(None)
}

/// Whether a dry run is to write over copies, and not to write.
fn overwrites_alone(found: &ArgMatches<'_>) -> bool
    ensures { result ≡ overwrites_alone (rows_of (found_of found.now)) }
{
    is_given(found, "overwrite") && !is_given(found, "write")
}

/// The size of an image in memory; nothing of a board may be given with it.
fn in_memory<'w>(found: &ArgMatches<'w>) -> Result<Option<u32>, WordFault<'w>>
    ensures { word_seen (λ size. size) result ≡ in_memory (rows_of (found_of found.now)) }
{
    if gives_two(found) {
        return Err(WordFault::of(TWO_TEXTS));
    }
    if is_given(found, "config") {
        return Err(WordFault::of(CONFIG_AND_ENV));
    }
    if is_given(found, "default") {
        return Err(WordFault::of(DEFAULT_AND_ENV));
    }
    if is_given(found, "need-copy") {
        return Err(WordFault::of(NEED_COPY_AND_ENV));
    }
    if is_given(found, "copy") {
        return Err(WordFault::of(WANTED_COPY_AND_ENV));
    }
    if is_given(found, "write") {
        return Err(WordFault::of(WRITE_AND_ENV));
    }
    if overwrites_alone(found) {
        return Err(WordFault::of(OVERWRITE_ALONE));
    }
    sized(first_or(found, "size", USUAL_SIZE))
}

/// The size that an argument spells.
fn sized(word: &str) -> Result<Option<u32>, WordFault<'_>>
    ensures { word_seen (λ size. size) result ≡ sized word.now }
{
    match read_size(word.as_bytes()) {
        Some(size) => Ok(Some(size)),
        None => Err(WordFault {
            front: INVALID_VALUE,
            word,
            back: BAD_SIZE,
        }),
    }
}

/// The size of an image in a configuration's form: hexadecimal digits, possibly after `0x` or `0X`, whose value is one
/// that an image may have.
pub(crate) fn read_size(text: &[u8]) -> Option<u32>
    ensures { result ≡ size_in text.now }
{
    let most = u64::from(SIZE_MAX);
    let number = numeral(Base::Hexadecimal, behind_0x(text).unwrap_or(text), most + 1)?;
    if number < SIZE_MIN || number > most {
        return None;
    }
    Some(number as u32)
}
