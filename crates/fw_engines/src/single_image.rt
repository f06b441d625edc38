//! The variables of one single image, printed.
ghost use Rattle.std.specs.Prelude.{◌≡◌, ◌≢◌, ◌≤◌, IfOk, IsTrue, length, Some};
ghost use Rattle.envimg_core.specs.Pieces.{entries_of, is_terminated, vars_of};
ghost use Rattle.fw_engines.specs.Shown.{Shows, listing, shown, state_shown};
ghost use Rattle.fw_engines.specs.Tool.{Printed, Lists};

use crate::streams::read_up_to;
use crate::tool_end::{StreamFault, ToolEnd, print_text};
use crate::tool_texts::{BAD_CHECKSUM, BAD_LENGTH, UNTERMINATED};
use envimg_core::{CopyState, Geometry, Layout, Order, check_copy};
use envvars_core::{Memory, Vars};
use std::alloc::Global;
use std::io::{Read, Write};

/// The most bytes that are read: one more than the greatest image has.
const READ_LIMIT: usize = 1_048_577;

/// The checksum before the data area of a single image, in bytes.
const HEAD: usize = 4;

/// Reads one single image whose checksum is in this byte order and prints its variables, a line `name=value` for each,
/// in ascending order of the names' bytes, names that begin with `.` among them. A bad image prints
/// `## Error: bad image: KIND` on `errors`, status 1.
///
/// Reads at most 1,048,577 bytes, all that the reader has if it has no more. docs/tools.md has the texts.
pub fn show<R: Read, W: Write, E: Write>(
    alloc: Global,
    order: Order,
    input: &mut R,
    output: &mut W,
    errors: &mut E,
) -> ToolEnd
    ensures { Shows order
        (record { input = R.remaining input.old; output = W.contents output.old; errors = E.contents errors.old })
        (record { input = R.remaining input.new; output = W.contents output.new; errors = E.contents errors.new })
        result }
{
    match read_up_to(alloc, input, READ_LIMIT) {
        Err(fault) => ToolEnd::stopped(fault),
        Ok(bytes) => show_bytes(alloc, order, &bytes, output, errors),
    }
}

/// Prints the variables of these bytes as one single image.
fn show_bytes<W: Write, E: Write>(
    alloc: Global,
    order: Order,
    bytes: &[u8],
    output: &mut W,
    errors: &mut E,
) -> ToolEnd
    ensures printed { Printed result.fault (record { output = W.contents output.old; errors = E.contents errors.old })
        (record { output = W.contents output.new; errors = E.contents errors.new }) (shown order bytes.now)
        result.status }
    ensures late { result.fault ≢ Some StreamFault.Read }
{
    match image_state(order, bytes) {
        CopyState::Good(_) => list(alloc, &bytes[HEAD..], output),
        CopyState::BadLength => print_text(errors, BAD_LENGTH, 1),
        CopyState::BadCrc => print_text(errors, BAD_CHECKSUM, 1),
        CopyState::Unterminated => print_text(errors, UNTERMINATED, 1),
    }
}

/// The state of these bytes as one single image; a length that is no size is a bad length.
pub(crate) fn image_state(order: Order, bytes: &[u8]) -> CopyState
    ensures { result ≡ state_shown order bytes.now }
{
    if bytes.len() >= READ_LIMIT {
        return CopyState::BadLength;
    }
    match Geometry::with_order(Layout::Single, bytes.len() as u32, order) {
        None => CopyState::BadLength,
        Some(geometry) => check_copy(&geometry, bytes),
    }
}

/// Prints a line for each variable of an area.
fn list<W: Write>(alloc: Global, area: &[u8], output: &mut W) -> ToolEnd
    requires terminated { IsTrue (is_terminated area.now) }
    requires bounded { length area.now ≤ 1048576 }
    ensures { Lists (W.contents output.old) (W.contents output.new) (listing (vars_of (entries_of area.now))) result }
{
    match lines_of(alloc, area) {
        Err(_) => ToolEnd::stopped(StreamFault::Memory),
        Ok(text) => print_text(output, &text, 0),
    }
}

/// The text with a line for each variable of an area.
fn lines_of(alloc: Global, area: &[u8]) -> Result<Vec<u8>, Memory>
    requires terminated { IsTrue (is_terminated area.now) }
    requires bounded { length area.now ≤ 1048576 }
    ensures { IfOk result (λ text. text.items ≡ listing (vars_of (entries_of area.now))) }
{
    let vars = Vars::load(alloc, area)?;
    let mut text = Vec::with_capacity(alloc, area.len())?;
    for line in vars.lines() {
        text.extend_from_slice(line)?;
        text.push(b'\n')?;
    }
    Ok(text)
}
