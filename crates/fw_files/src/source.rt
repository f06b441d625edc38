//! The copies that a configuration names, as they are read.
ghost use Rattle.std.specs.Prelude.{◌≡◌, Ok, false, IfErr, IfOk, is_some, replicate, None};
ghost use Rattle.envcfg_core.specs.Config.{config_of, config_view};
ghost use Rattle.fw_files.specs.Copies.{overlap};
ghost use Rattle.fw_files.specs.Opening.{IsErased};
ghost use Rattle.fw_files.specs.Source.{AreSettingsAt, IsSourceOf};
ghost use Rattle.fw_files.specs.Stops.{IsAbout, IsCopyStop};
ghost use Rattle.fw_files.specs.declared.stop.Stop.TheVariants.{Memory};

use crate::copies::{ReadCopy, read_copy, share_a_byte};
use crate::file_fault::FileFault;
use crate::files::read_file;
use crate::opened_devices::CopyFault;
use crate::stop::Stop;
use crate::system::System;
use device_files::{OpenDevice, Unknown};
use envcfg_core::{Config, ConfigFault, Place, parse_config};
use envimg_core::{Geometry, Layout, Order};
use std::alloc::{AllocError, Global};
use std::rt::Files;
use std::string::String;
use text_parts::numbered_lines;

/// Where the copies of a session are, and their bytes as they were read.
#[derive(Drop)]
pub struct Source {
    /// Where they are.
    pub config: Config,
    /// The layout, the size of a copy, and the byte order.
    pub geometry: Geometry,
    /// The first copy.
    pub first: ReadCopy,
    /// The second copy, if there is one.
    pub second: Option<ReadCopy>,
}

/// Reads the configuration at a path.
pub fn read_config<'a, X: System + AllocGlobal>(rt: &X, path: &'a str) -> Result<Config, Stop<'a>>
    ensures read { IfOk result (λ config. AreSettingsAt (X.holds rt.now) path.now (config_view config)) }
    ensures stopped { IfErr result (IsAbout path.now) }
{
    match config_at(rt, path) {
        Ok(config) => Ok(config),
        Err(fault) => Err(Stop::File(path, fault)),
    }
}

/// Reads the copies that a configuration names. The first fault counts.
pub fn read_source<X: Files + AllocGlobal>(
    rt: &X,
    order: Order,
    config: Config,
) -> Result<Source, Stop<'static>>
    ensures read { IfOk result
        (λ source. IsSourceOf order config source × (overlap source.config source.first source.second ≡ false)) }
    ensures stopped { IfErr result (IsCopyStop config) }
{
    let Some(geometry) = Geometry::with_order(config.layout, config.size, order) else {
        // never: a configuration has no size that its layout refuses
        return Err(Stop::Memory);
    };
    let (first, second) = match read_copies(rt, &config) {
        Ok(copies) => copies,
        Err(fault) => return Err(Stop::Copy(config, fault)),
    };
    if overlap(&config, &first, &second) {
        return Err(Stop::Overlap);
    }
    Ok(Source {
        config,
        geometry,
        first,
        second,
    })
}

/// A single image in memory, erased.
pub fn erased(alloc: Global, order: Order, size: u32) -> Result<Source, Stop<'static>>
    ensures erased { IfOk result (IsErased order size) }
    ensures stopped { IfErr result (λ stop. stop ≡ Memory) }
{
    match Geometry::with_order(Layout::Single, size, order) {
        Some(geometry) => Ok(blank(alloc, geometry)?),
        // never: the size is one that a single image may have
        None => Err(Stop::Memory),
    }
}

/// An erased image of this size, which is in no device.
fn blank(alloc: Global, geometry: Geometry) -> Result<Source, AllocError>
    ensures geometry { IfOk result (λ source. source.geometry ≡ geometry) }
    ensures first { IfOk result (λ source. source.first.bytes.items ≡ replicate geometry.size 255) }
    ensures second { IfOk result (λ source. source.second ≡ None) }
{
    let size = geometry.size();
    let first = ReadCopy {
        bytes: vec![in alloc; 0xFFu8; size as usize]?,
        start: 0,
    };
    let place = Place {
        device: String::new(alloc),
        offset: 0,
    };
    Ok(Source {
        config: Config {
            layout: Layout::Single,
            size,
            first: place,
            second: None,
        },
        geometry,
        first,
        second: None,
    })
}

/// The same, with its fault alone.
fn config_at<X: System + AllocGlobal>(rt: &X, path: &str) -> Result<Config, FileFault>
    ensures { IfOk result (λ config. AreSettingsAt (X.holds rt.now) path.now (config_view config)) }
{
    let text = read_file(rt, path)?;
    config_from(rt.alloc(), &text)
}

/// The configuration in a text.
pub(crate) fn config_from(alloc: Global, text: &[u8]) -> Result<Config, FileFault>
    ensures { IfOk result (λ config. config_of text.now ≡ Ok (config_view config)) }
{
    match parse_config(alloc, text) {
        Ok(config) => Ok(config),
        Err(ConfigFault::Memory) => Err(FileFault::Memory),
        Err(ConfigFault::NoCopy) if is_yaml(text) => Err(FileFault::Yaml),
        Err(fault) => Err(FileFault::Config(fault)),
    }
}

/// Whether a text in which no line names a copy is YAML: a line that is no comment ends with a colon.
fn is_yaml(text: &[u8]) -> bool {
    for (_, line) in numbered_lines(text) {
        if !line.starts_with(b"#") && line.trim_ascii_end().ends_with(b":") {
            return true;
        }
    }
    false
}

/// Reads the first copy, and the second, if there is one.
fn read_copies<X: Files + AllocGlobal>(
    rt: &X,
    config: &Config,
) -> Result<(ReadCopy, Option<ReadCopy>), CopyFault>
    ensures { IfOk result (λ copies. is_some copies.1 ≡ is_some config.now.second) }
{
    let first = read_at(rt, &config.first, config.size, false)?;
    let second = match &config.second {
        None => None,
        Some(place) => Some(read_at(rt, place, config.size, true)?),
    };
    Ok((first, second))
}

/// Reads a copy, the second one or not.
fn read_at<X: Files + AllocGlobal>(
    rt: &X,
    place: &Place,
    size: u32,
    is_second: bool,
) -> Result<ReadCopy, CopyFault>
    ensures { IfErr result (λ fault. fault.is_second ≡ is_second) }
{
    let mut device: Option<OpenDevice<X::File, Unknown>> = None;
    match read_copy(rt, place, size, &mut device) {
        Ok(copy) => Ok(copy),
        Err(fault) => Err(CopyFault { is_second, fault }),
    }
}

/// Whether both copies share a byte of one device.
fn overlap(config: &Config, first: &ReadCopy, second: &Option<ReadCopy>) -> bool
    ensures { result ≡ overlap config.now first.now second.now }
{
    match (&config.second, second) {
        (Some(place), Some(second)) => {
            config.first.device.as_str() == place.device.as_str()
                && share_a_byte(first.start, second.start, config.size)
        }
        _ => false,
    }
}
