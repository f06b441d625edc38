//! Copies that are good in another way than the configuration has them: nothing is written over these.
ghost use Rattle.std.specs.Prelude.{◌≡◌, IfOk, option_copied, option_map, take};
ghost use Rattle.fw_engines.specs.CopyStatus.{meant_by};
ghost use Rattle.fw_engines.specs.Misread.{misread, misread_copy, misread_line, other_way};

use crate::copy_words::{meant_by, push_all, push_way};
use crate::ways::{Meant, first_bytes, good_way, is_filled};
use envimg_core::Geometry;
use envvars_core::Memory;
use std::alloc::Global;

/// The line that says why nothing is written over copies none of which is good, if there is a reason: a hint of [`status`]
/// names another way in which one of them is good, the first before the second. `first` and `second` are what the
/// devices hold from the copies' places on: a copy, and as much of what follows it as the largest image has. docs/tools.md
/// has the lines.
///
/// [`status`]: crate::status
pub fn misread(
    alloc: Global,
    geometry: &Geometry,
    first: &[u8],
    second: Option<&[u8]>,
) -> Result<Option<Vec<u8>>, Memory>
    ensures { IfOk result (λ line. option_map (λ l. l.items) line ≡ misread geometry.now first.now (option_copied second.entry)) }
{
    let meant = meant_by(geometry);
    match misread_copy(alloc, b"first", &meant, first)? {
        Some(line) => Ok(Some(line)),
        None => match second {
            Some(second) => misread_copy(alloc, b"second", &meant, second),
            None => Ok(None),
        },
    }
}

/// The line about one copy, if it is good in another way.
fn misread_copy(
    alloc: Global,
    which: &[u8],
    meant: &Meant,
    bytes: &[u8],
) -> Result<Option<Vec<u8>>, Memory>
    ensures { IfOk result (λ line. option_map (λ l. l.items) line ≡ misread_copy which.now meant.now bytes.now) }
{
    match other_way(meant, bytes) {
        Some(way) => Ok(Some(misread_line(alloc, which, meant, &way)?)),
        None => Ok(None),
    }
}

/// The way in which bytes are good that aren't good as they are meant.
#[tactic(auto, unfolding(crate::specs::Misread::other_way))]
fn other_way(meant: &Meant, bytes: &[u8]) -> Option<Geometry>
    ensures { result ≡ other_way meant.now bytes.now }
{
    let copy = first_bytes(bytes, meant.size);
    if is_filled(0xFF, copy) {
        return None;
    }
    if is_filled(0, copy) {
        return None;
    }
    good_way(meant, bytes)
}

/// The line about a copy that is good in this way.
fn misread_line(
    alloc: Global,
    which: &[u8],
    meant: &Meant,
    way: &Geometry,
) -> Result<Vec<u8>, Memory>
    ensures { IfOk result (λ line. line.items ≡ misread_line which.now meant.now way.now) }
{
    let mut line = Vec::new(alloc);
    push_all(
        &mut line,
        &[b"fwenv: nothing is written: the ", which, b" copy is"],
    )?;
    push_way(&mut line, meant, way)?;
    push_all(&mut line, &[b"\n"])?;
    Ok(line)
}
