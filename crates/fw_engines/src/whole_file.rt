//! The state of a whole file as one image.
ghost use Rattle.std.specs.Prelude.{◌≡◌, ◌++◌, IfOk};
ghost use Rattle.envimg_core.specs.State.{flag_of};
ghost use Rattle.fw_engines.specs.CopyStatus.{Reports, bad_file, file_status_of, good_file, path_words, whole_words};

use crate::copy_words::{push_all, push_bad};
use crate::single_image::image_state;
use crate::tool_end::{StreamFault, ToolEnd, print_text};
use crate::variable_count::{push_no_variables, push_variables};
use crate::ways::{Meant, good_as};
use envimg_core::{Geometry, Layout, Order};
use envvars_core::Memory;
use itoa::Buffer;
use std::alloc::Global;
use std::io::Write;

/// Prints the state of a whole file, as a single image or as a copy with a flag, and its variables. The status is 0 if
/// it is good as one of these in this byte order, else 1. docs/status.md has the texts.
pub fn file_status<W: Write>(
    alloc: Global,
    order: Order,
    path: &[u8],
    bytes: &[u8],
    output: &mut W,
) -> ToolEnd
    ensures { Reports (W.contents output.old) (W.contents output.new) (file_status_of order path.now bytes.now) result }
{
    match file_text(alloc, order, path, bytes) {
        Err(_) => ToolEnd::stopped(StreamFault::Memory),
        Ok((text, status)) => print_text(output, &text, status),
    }
}

/// The lines, and the status.
fn file_text(
    alloc: Global,
    order: Order,
    path: &[u8],
    bytes: &[u8],
) -> Result<(Vec<u8>, u8), Memory>
    ensures text { IfOk result (λ r. r.0.items ≡ (file_status_of order path.now bytes.now).text) }
    ensures status { IfOk result (λ r. r.1 ≡ (file_status_of order path.now bytes.now).status) }
{
    match good_as(bytes, Layout::Single, order, bytes.len()) {
        Some(single) => Ok((good_text(alloc, path, bytes, &single)?, 0)),
        None => match good_as(bytes, Layout::Redundant, order, bytes.len()) {
            Some(flagged) => Ok((good_text(alloc, path, bytes, &flagged)?, 0)),
            None => Ok((bad_text(alloc, order, path, bytes)?, 1)),
        },
    }
}

/// The lines about a good image.
fn good_text(
    alloc: Global,
    path: &[u8],
    bytes: &[u8],
    geometry: &Geometry,
) -> Result<Vec<u8>, Memory>
    ensures { IfOk result (λ text. text.items ≡ (good_file path.now bytes.now geometry.now).text) }
{
    let mut text = Vec::new(alloc);
    push_path(&mut text, path, bytes.len())?;
    push_whole(&mut text, geometry.layout(), bytes)?;
    push_all(&mut text, &[b"\n"])?;
    push_variables(alloc, &mut text, geometry, Some(bytes))?;
    Ok(text)
}

/// The lines about bytes that are no good image.
fn bad_text(alloc: Global, order: Order, path: &[u8], bytes: &[u8]) -> Result<Vec<u8>, Memory>
    ensures { IfOk result (λ text. text.items ≡ (bad_file order path.now bytes.now).text) }
{
    let meant = Meant {
        layout: None,
        order,
        size: bytes.len(),
    };
    let mut text = Vec::new(alloc);
    push_path(&mut text, path, bytes.len())?;
    push_bad(&mut text, image_state(order, bytes), &meant, bytes)?;
    push_all(&mut text, &[b"\n"])?;
    push_no_variables(&mut text)?;
    Ok(text)
}

/// Appends a file's path and length.
fn push_path(text: &mut Vec<u8>, path: &[u8], length: usize) -> Result<(), Memory>
    ensures { IfOk result (λ _. text.new.items ≡ text.old.items ++ path_words path.now length) }
{
    let mut digits = Buffer::new();
    push_all(
        text,
        &[
            b"whole file   ",
            path,
            b", ",
            digits.format(length).as_bytes(),
            b" bytes: ",
        ],
    )
}

/// Appends in which layout an image is good.
fn push_whole(text: &mut Vec<u8>, layout: Layout, image: &[u8]) -> Result<(), Memory>
    ensures { IfOk result (λ _. text.new.items ≡ text.old.items ++ whole_words layout (flag_of layout image.now)) }
{
    let mut digits = Buffer::new();
    let flag = layout.flag(image);
    match layout {
        Layout::Single => push_all(text, &[b"good as a single image"]),
        Layout::Redundant => push_all(
            text,
            &[
                b"good as a copy with a flag, flag ",
                digits.format(flag).as_bytes(),
            ],
        ),
    }
}
