//! What `status` reports on: copies with what follows them in their devices, and whole files, read under their locks.
ghost use Rattle.std.specs.Prelude.{◌≡◌, IfOk, is_some};
ghost use Rattle.fw_files.specs.Files.{IsTextAt};
ghost use Rattle.fw_files.specs.Locks.{HasWaited};
ghost use Rattle.fw_files.specs.Source.{AreCopiesBy, IsSourceOf, IsTextOfConfig};
ghost use Rattle.envcfg_core.specs.Config.{config_of, config_view};

use crate::copies::{ReadCopy, with_following};
use crate::device_access::lock_path;
use crate::file_fault::FileFault;
use crate::files::read_file;
use crate::lock_file::lock_copies;
use crate::source::{Source, config_from, read_source};
use crate::stop::Stop;
use crate::system::{Hold, System};
use envcfg_core::{Config, Place};
use envimg_core::Order;
use fw_arguments::LockFiles;
use std::alloc::AllocError;
use std::io::Write;
use std::rt::Files;

/// A configuration's text, and the copies that it names, each with what follows it in its device.
#[derive(Drop)]
pub struct SurveyedCopies {
    /// The text.
    pub text: Vec<u8>,
    /// The copies.
    pub source: Source,
}

/// Reads the configuration at a path, and under their locks the copies that it names, each with what follows it in its
/// device. A lock that is waited for is reported on `errors`.
pub fn read_surveyed<'a, X: System + AllocGlobal, E: Write>(
    rt: &X,
    order: Order,
    path: &'a str,
    errors: &mut E,
) -> Result<SurveyedCopies, Stop<'a>>
    ensures waited { HasWaited (E.contents errors.old) (E.contents errors.new) }
    ensures read { IfOk result (λ found. IsTextAt (X.holds rt.now) path.now found.text.items × AreCopiesBy order found.text.items found.source) }
{
    let (text, config) = match read_config_text(rt, path) {
        Ok(found) => found,
        Err(fault) => return Err(Stop::File(path, fault)),
    };
    let source = read_followed(rt, order, config, errors)?;
    Ok(SurveyedCopies { text, source })
}

/// The text at a path, and the configuration in it.
fn read_config_text<X: System + AllocGlobal>(
    rt: &X,
    path: &str,
) -> Result<(Vec<u8>, Config), FileFault>
    ensures { IfOk result (λ found. IsTextAt (X.holds rt.now) path.now found.0.items × IsTextOfConfig found.0.items found.1) }
{
    let text = read_file(rt, path)?;
    let config = config_from(rt.alloc(), &text)?;
    Ok((text, config))
}

/// Reads a whole file while no program that takes its lock writes it. A lock that is waited for is reported on `errors`.
pub fn read_locked<'a, X: System + AllocGlobal, E: Write>(
    rt: &X,
    path: &'a str,
    errors: &mut E,
) -> Result<Vec<u8>, Stop<'a>>
    ensures waited { HasWaited (E.contents errors.old) (E.contents errors.new) }
    ensures held { IfOk result (λ bytes. IsTextAt (X.holds rt.now) path.now bytes.items) }
{
    let _lock = lock_path(rt, path, Hold::Shared, errors);
    match read_file(rt, path) {
        Ok(bytes) => Ok(bytes),
        Err(fault) => Err(Stop::File(path, fault)),
    }
}

/// Reads the copies under their locks, each with what follows it in its device.
fn read_followed<X: System + AllocGlobal, E: Write>(
    rt: &X,
    order: Order,
    config: Config,
    errors: &mut E,
) -> Result<Source, Stop<'static>>
    ensures waited { HasWaited (E.contents errors.old) (E.contents errors.new) }
    ensures read { IfOk result (IsSourceOf order config) }
{
    let files = LockFiles::IfPossible;
    let _locks = lock_copies(rt, &config.first, files, Hold::Shared, errors)?;
    let source = read_source(rt, order, config)?;
    Ok(followed(rt, source)?)
}

/// The same copies, each with what follows it in its device.
fn followed<X: Files + AllocGlobal>(rt: &X, source: Source) -> Result<Source, AllocError>
    ensures { IfOk result (λ s. (s.config ≡ source.config) × (s.geometry ≡ source.geometry)
        × (is_some s.second ≡ is_some source.second)) }
{
    let Source {
        config,
        geometry,
        first,
        second,
    } = source;
    let first = with_following(rt, &config.first, first)?;
    let second = second_followed(rt, &config.second, second)?;
    Ok(Source {
        config,
        geometry,
        first,
        second,
    })
}

/// The second copy, if there is one, with what follows it in its device.
fn second_followed<X: Files + AllocGlobal>(
    rt: &X,
    place: &Option<Place>,
    copy: Option<ReadCopy>,
) -> Result<Option<ReadCopy>, AllocError>
    ensures { IfOk result (λ c. is_some c ≡ is_some copy) }
{
    match (place, copy) {
        (Some(place), Some(copy)) => {
            let copy = with_following(rt, place, copy)?;
            Ok(Some(copy))
        }
        (_, copy) => Ok(copy),
    }
}
