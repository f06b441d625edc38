//! What the arguments of `image` ask for.
ghost use Rattle.std.specs.Prelude.{◌≡◌};
ghost use Rattle.clap.specs.Words.{found_of, rows_of};
ghost use Rattle.fw_arguments.specs.GivenTexts.{given_text_view};
ghost use Rattle.fw_arguments.specs.ImageRequests.{copy_size, image_request_of, image_request_view, is_both_alone, large_enough, layout_named, layout_of, request_by, request_in, request_with, size_of, size_text, text_of};
ghost use Rattle.fw_arguments.specs.WordFaults.{word_seen};

use crate::argument_texts::{
    BAD_COPIES, BAD_PAIR_SIZE, BAD_SIZE, BOTH_ALONE, INVALID_VALUE, NO_TEXT, TWO_TEXTS,
};
use crate::arguments::{chosen_order, either_order, first, first_or, is_given};
use crate::given_text::{GivenText, given_text, gives_two};
use crate::image_options::ONE_COPY;
use crate::image_size::read_size;
use crate::word_fault::WordFault;
use clap::ArgMatches;
use envimg_core::{Layout, Order};

/// The least size of one of two copies, in bytes.
const PAIR_MIN: u32 = 9;

/// A new image: `image (--env FILE | --env-source FILE | --env-plain FILE) --size N [--copies N] [--both] [--big-endian] [--output FILE]`.
#[derive(Clone, Copy, Debug)]
pub struct ImageRequest<'w> {
    /// The text with its variables.
    pub text: GivenText<'w>,
    /// One copy or two.
    pub layout: Layout,
    /// The size of a copy, in bytes.
    pub size: u32,
    /// The byte order of a copy.
    pub order: Order,
    /// Whether each of two copies holds the variables.
    pub both: bool,
    /// The path of the file that it is written into; without one it is standard output.
    pub output: Option<&'w str>,
}

/// The image that the arguments ask for, if those before the subcommand chose `order`; or what is wrong with them.
pub(crate) fn read_image_request<'w>(
    order: Order,
    found: &ArgMatches<'w>,
) -> Result<ImageRequest<'w>, WordFault<'w>>
    ensures { word_seen image_request_view result ≡ image_request_of order (rows_of (found_of found.now)) }
{
    match read_text(found) {
        Ok(text) => request_with(order, found, text),
        Err(fault) => Err(fault),
    }
}

/// The text with the variables, of which one has to be given.
fn read_text<'w>(found: &ArgMatches<'w>) -> Result<GivenText<'w>, WordFault<'w>>
    ensures { word_seen given_text_view result ≡ text_of (rows_of (found_of found.now)) }
{
    if gives_two(found) {
        return Err(WordFault::of(TWO_TEXTS));
    }
    match given_text(found) {
        Some(text) => Ok(text),
        None => Err(WordFault::of(NO_TEXT)),
    }
}

/// The image that is asked for with the variables of this text.
fn request_with<'w>(
    order: Order,
    found: &ArgMatches<'w>,
    text: GivenText<'w>,
) -> Result<ImageRequest<'w>, WordFault<'w>>
    ensures { word_seen image_request_view result ≡ request_with order (rows_of (found_of found.now)) (given_text_view text.entry) }
{
    match read_layout(found) {
        Ok(layout) => request_by(order, found, text, layout),
        Err(fault) => Err(fault),
    }
}

/// The same with one copy or two.
fn request_by<'w>(
    order: Order,
    found: &ArgMatches<'w>,
    text: GivenText<'w>,
    layout: Layout,
) -> Result<ImageRequest<'w>, WordFault<'w>>
    ensures { word_seen image_request_view result ≡ request_by order (rows_of (found_of found.now)) (given_text_view text.entry) layout }
{
    if is_both_alone(layout, is_given(found, "both")) {
        return Err(WordFault::of(BOTH_ALONE));
    }
    match read_copy_size(found, layout) {
        Ok(size) => Ok(request_in(order, found, text, layout, size)),
        Err(fault) => Err(fault),
    }
}

/// The same with copies of this size.
fn request_in<'w>(
    order: Order,
    found: &ArgMatches<'w>,
    text: GivenText<'w>,
    layout: Layout,
    size: u32,
) -> ImageRequest<'w>
    ensures { image_request_view result ≡ request_in order (rows_of (found_of found.now)) (given_text_view text.entry) layout size }
{
    ImageRequest {
        text,
        layout,
        size,
        order: either_order(order, chosen_order(found)),
        both: is_given(found, "both"),
        output: first(found, "output"),
    }
}

/// One copy or two.
fn read_layout<'w>(found: &ArgMatches<'w>) -> Result<Layout, WordFault<'w>>
    ensures { word_seen (λ l. l) result ≡ layout_of (rows_of (found_of found.now)) }
{
    let word = first_or(found, "copies", ONE_COPY);
    match layout_named(word) {
        Some(layout) => Ok(layout),
        None => Err(WordFault {
            front: INVALID_VALUE,
            word,
            back: BAD_COPIES,
        }),
    }
}

/// One copy or two, by their number.
fn layout_named(word: &str) -> Option<Layout>
    ensures { result ≡ layout_named word.now }
{
    if word == "1" {
        Some(Layout::Single)
    } else if word == "2" {
        Some(Layout::Redundant)
    } else {
        None
    }
}

/// Whether both copies are to hold the variables, and there is one.
fn is_both_alone(layout: Layout, both: bool) -> bool
    ensures { result ≡ is_both_alone layout both }
{
    match layout {
        Layout::Single => both,
        Layout::Redundant => false,
    }
}

/// The size of a copy.
fn read_copy_size<'w>(found: &ArgMatches<'w>, layout: Layout) -> Result<u32, WordFault<'w>>
    ensures { word_seen (λ n. n) result ≡ size_of (rows_of (found_of found.now)) layout }
{
    let word = first_or(found, "size", "");
    match copy_size(layout, word) {
        Some(size) => Ok(size),
        None => Err(WordFault {
            front: INVALID_VALUE,
            word,
            back: size_text(layout),
        }),
    }
}

/// The size of a copy, if a word spells one.
fn copy_size(layout: Layout, word: &str) -> Option<u32>
    ensures { result ≡ copy_size layout word.now }
{
    match read_size(word.as_bytes()) {
        None => None,
        Some(size) => large_enough(layout, size),
    }
}

/// The same size, if it is large enough.
fn large_enough(layout: Layout, size: u32) -> Option<u32>
    ensures { result ≡ large_enough layout size }
{
    match layout {
        Layout::Single => Some(size),
        Layout::Redundant => { if size < PAIR_MIN { None } else { Some(size) } }
    }
}

/// What is wrong with a word that spells none.
fn size_text(layout: Layout) -> &'static [u8]
    ensures { result.now ≡ size_text layout }
{
    match layout {
        Layout::Single => BAD_SIZE,
        Layout::Redundant => BAD_PAIR_SIZE,
    }
}
