//! Copies that are good in another way than the configuration has them, and are spared.
ghost use Rattle.std.specs.Prelude.{◌≡◌, IfErr, IfOk, OnOk, None, option_map};
ghost use Rattle.fw_files.specs.Misread.{IsContinued, IsMisread, IsMisreadStop, IsSecondContinued};
ghost use Rattle.fw_files.specs.Source.{second_bytes};

use crate::copies::{ReadCopy, with_following};
use crate::source::Source;
use crate::stop::Stop;
use envcfg_core::Place;
use fw_engines::misread;
use std::alloc::AllocError;
use std::rt::Files;

/// Looks whether copies, none of which is good, may be written over: not if one of them is good in another way than the
/// configuration has it.
pub(crate) fn spare_misread<X: Files + AllocGlobal>(
    rt: &X,
    source: &Source,
) -> Result<(), Stop<'static>>
    ensures spared { OnOk result (IsMisread source.now.geometry source.now.first.bytes.items (second_bytes source.now.second) None) }
    ensures stopped { IfErr result (IsMisreadStop source.now.geometry source.now.first.bytes.items (second_bytes source.now.second)) }
{
    match misread_in(rt, source)? {
        None => Ok(()),
        Some(line) => Err(Stop::Misread(line)),
    }
}

/// The line about a copy that is good in another way, if one is.
fn misread_in<X: Files + AllocGlobal>(
    rt: &X,
    source: &Source,
) -> Result<Option<Vec<u8>>, AllocError>
    ensures { IfOk result (λ line. IsMisread source.now.geometry source.now.first.bytes.items (second_bytes source.now.second) (option_map (λ l. l.items) line)) }
{
    let first = continued(rt, &source.config.first, &source.first)?;
    let second = second_continued(rt, &source.config.second, &source.second)?;
    match misread(rt.alloc(), &source.geometry, &first, second.as_deref()) {
        Ok(line) => Ok(line),
        Err(_) => Err(AllocError),
    }
}

/// A copy with what follows it in its device.
fn continued<X: Files + AllocGlobal>(
    rt: &X,
    place: &Place,
    copy: &ReadCopy,
) -> Result<Vec<u8>, AllocError>
    ensures { IfOk result (λ found. IsContinued copy.now.bytes.items found.items) }
{
    let bytes = Vec::from_slice(rt.alloc(), &copy.bytes)?;
    let start = copy.start;
    let found = with_following(rt, place, ReadCopy { bytes, start })?;
    Ok(found.bytes)
}

/// The second copy, if there is one, with what follows it.
fn second_continued<X: Files + AllocGlobal>(
    rt: &X,
    place: &Option<Place>,
    copy: &Option<ReadCopy>,
) -> Result<Option<Vec<u8>>, AllocError>
    ensures { IfOk result (λ found. IsSecondContinued (second_bytes copy.now) (option_map (λ f. f.items) found)) }
{
    match (place, copy) {
        (Some(place), Some(copy)) => Ok(Some(continued(rt, place, copy)?)),
        (None, Some(copy)) => Ok(Some(Vec::from_slice(rt.alloc(), &copy.bytes)?)),
        (_, None) => Ok(None),
    }
}
