//! The copies that were read, if one of them is asked for by its number.
ghost use Rattle.std.specs.Prelude.{◌≡◌, IfErr, IfOk, option_map, unwrap_or};
ghost use Rattle.fw_files.specs.Source.{second_bytes};
ghost use Rattle.fw_files.specs.WantedCopy.{ArePlaced, IsRefusal, IsWantedIn, refusal_of, unless_good};
ghost use Rattle.fw_arguments.specs.declared.wanted_copy.WantedCopy.TheVariants.{First, Second};

use crate::copies::ReadCopy;
use crate::source::Source;
use crate::stop::Stop;
use envimg_core::{CopyState, check_copy};
use fw_arguments::WantedCopy;
use std::alloc::{AllocError, Global};

/// The copies with the one that is asked for in the place of each, so that it is current, if it is good.
pub fn wanted_copies(
    alloc: Global,
    source: Source,
    wanted: WantedCopy,
) -> Result<Source, Stop<'static>>
    ensures found { IfOk result (IsWantedIn wanted source) }
    ensures stopped { IfErr result
        (λ stop. IsRefusal (refusal_of wanted source.geometry source.first.bytes.items (second_bytes source.second)) stop) }
{
    match refusal_of(&source, wanted) {
        Some(stop) => Err(stop),
        None => Ok(placed(alloc, source, wanted)?),
    }
}

/// Why that copy can't be taken, if it can't.
fn refusal_of(source: &Source, wanted: WantedCopy) -> Option<Stop<'static>>
    ensures { result ≡ refusal_of wanted source.now.geometry source.now.first.bytes.items (second_bytes source.now.second) }
{
    match (wanted, &source.second) {
        (WantedCopy::Current, _) => None,
        (WantedCopy::First, _) => {
            unless_good(false, check_copy(&source.geometry, &source.first.bytes))
        }
        (WantedCopy::Second, None) => Some(Stop::NoSecondCopy),
        (WantedCopy::Second, Some(copy)) => {
            unless_good(true, check_copy(&source.geometry, &copy.bytes))
        }
    }
}

/// Why a copy in this state can't be taken, if it can't.
fn unless_good(is_second: bool, state: CopyState) -> Option<Stop<'static>>
    ensures { result ≡ unless_good is_second state }
{
    match state {
        CopyState::Good(_) => None,
        bad => Some(Stop::BadCopy(is_second, bad)),
    }
}

/// The copies with the one that is asked for in the place of each.
fn placed(alloc: Global, source: Source, wanted: WantedCopy) -> Result<Source, AllocError>
    ensures { IfOk result (ArePlaced wanted source) }
{
    match wanted {
        WantedCopy::Current => Ok(source),
        WantedCopy::First => first_twice(alloc, source),
        WantedCopy::Second => second_twice(alloc, source),
    }
}

/// The first copy in the place of each.
fn first_twice(alloc: Global, source: Source) -> Result<Source, AllocError>
    ensures { IfOk result (ArePlaced First source) }
{
    let Source {
        config,
        geometry,
        first,
        second,
    } = source;
    let second = replaced(alloc, second, &first.bytes)?;
    Ok(Source {
        config,
        geometry,
        first,
        second,
    })
}

/// These bytes in the place of a copy, if there is one.
fn replaced(
    alloc: Global,
    copy: Option<ReadCopy>,
    bytes: &[u8],
) -> Result<Option<ReadCopy>, AllocError>
    ensures { IfOk result (λ found. second_bytes found ≡ option_map (λ _. bytes.now) copy) }
{
    match copy {
        None => Ok(None),
        Some(copy) => Ok(Some(ReadCopy {
            bytes: Vec::from_slice(alloc, bytes)?,
            start: copy.start,
        })),
    }
}

/// The second copy in the place of each, if there is one.
fn second_twice(alloc: Global, source: Source) -> Result<Source, AllocError>
    ensures { IfOk result (ArePlaced Second source) }
{
    let Source {
        config,
        geometry,
        first,
        second,
    } = source;
    let first = in_place_of(alloc, first, &second)?;
    Ok(Source {
        config,
        geometry,
        first,
        second,
    })
}

/// The bytes of another copy, if there is one, in the place of a copy.
fn in_place_of(
    alloc: Global,
    copy: ReadCopy,
    other: &Option<ReadCopy>,
) -> Result<ReadCopy, AllocError>
    ensures { IfOk result (λ found. found.bytes.items ≡ unwrap_or (second_bytes other.now) copy.bytes.items) }
{
    match other {
        None => Ok(copy),
        Some(other) => Ok(ReadCopy {
            bytes: Vec::from_slice(alloc, &other.bytes)?,
            start: copy.start,
        }),
    }
}
