//! The configuration `fw_env.config`.
ghost use Rattle.std.specs.Prelude.{◌≡◌, [], Ok, IfOk, IfErr, IfNone, option_map};
ghost use Rattle.std.specs.List.{cons_option};
ghost use Rattle.envcfg_core.specs.declared.config.ConfigFault.TheVariants.{Memory};
ghost use Rattle.envcfg_core.specs.ConfigSteps.{candidate_view};
ghost use Rattle.envcfg_core.specs.Config.{accepted_lines, checked, config_of, config_view, place_view, redundant_of, shares_byte, single_of, IsConfigFaultOf};

use crate::accept::{Candidate, accept_line};
use crate::offsets::SIZE_MIN;
use crate::place::Place;
use envimg_core::Layout;
use std::alloc::{AllocError, Global};
use std::str;
use text_parts::{Lines, numbered_lines};
use thiserror::Error;

/// Where the copies of an environment lie, and how large each is.
#[derive(Debug, Drop)]
pub struct Config {
    /// One accepted line means a single image, two mean redundant copies.
    pub layout: Layout,
    /// The size of each copy in bytes: 8 to 1,048,576, for redundant copies 9 or more.
    pub size: u32,
    /// Where the first copy lies.
    pub first: Place,
    /// Where the second copy lies; `None` for a single image.
    pub second: Option<Place>,
}

/// Why a configuration is refused (docs/texts.md, "Configuration"). Lines count from 1.
#[derive(Clone, Copy, Debug, PartialEq, Eq, Error)]
pub enum ConfigFault {
    /// No line is accepted.
    #[error("NoCopy")]
    NoCopy,
    /// The size in this line is one that no such image may have.
    #[error("Size in line {0}")]
    Size(usize),
    /// The two copies differ in size.
    #[error("Unequal")]
    Unequal,
    /// The two copies share a byte of one device.
    #[error("Overlap")]
    Overlap,
    /// The device in this line isn't UTF-8.
    #[error("NotUtf8 in line {0}")]
    NotUtf8(usize),
    /// A growth was refused.
    #[error("Memory")]
    Memory,
}

impl From<AllocError> for ConfigFault {
    ghost from_gives = { λ _ fault. fault ≡ Memory };

    fn from(_error: AllocError) -> ConfigFault {
        ConfigFault::Memory
    }
}

/// Reads `fw_env.config`: lines of a device, an offset and a size (docs/texts.md, "Configuration").
///
/// The first fault of the first accepted line is reported, then that of the second (`NotUtf8`, then `Size`), then
/// `NoCopy`, `Unequal`, `Size` of the first line (two copies of 8 bytes), and `Overlap`; `Memory` if a growth
/// was refused.
pub fn parse_config(alloc: Global, text: &[u8]) -> Result<Config, ConfigFault>
    ensures read { IfOk result (λ config. config_of text.now ≡ Ok (config_view config)) }
    ensures refused { IfErr result (IsConfigFaultOf (config_of text.now)) }
{
    let mut lines = numbered_lines(text);
    let Some(first) = next_accepted(&mut lines) else {
        return Err(ConfigFault::NoCopy);
    };
    match next_accepted(&mut lines) {
        None => single(alloc, first),
        Some(second) => redundant(alloc, first, second),
    }
}

/// The next line that is accepted.
fn next_accepted<'a>(lines: &mut Lines<'a>) -> Option<Candidate<'a>>
    ensures some { accepted_lines lines.old ≡ cons_option (option_map candidate_view result) (accepted_lines lines.new) }
    ensures none { IfNone result (accepted_lines lines.old ≡ []) }
{
    while let Some((number, line)) = lines.next() {
        let accepted = accept_line(number, line);
        if accepted.is_some() {
            return accepted;
        }
    }
    None
}

/// The configuration of a single image.
fn single(alloc: Global, only: Candidate<'_>) -> Result<Config, ConfigFault>
    ensures read { IfOk result (λ config. single_of (candidate_view only.entry) ≡ Ok (config_view config)) }
    ensures refused { IfErr result (IsConfigFaultOf (single_of (candidate_view only.entry))) }
{
    let (device, size) = check(only)?;
    let first = place(alloc, device, only.offset)?;
    Ok(Config {
        layout: Layout::Single,
        size,
        first,
        second: None,
    })
}

/// The configuration of redundant copies.
fn redundant(
    alloc: Global,
    first: Candidate<'_>,
    second: Candidate<'_>,
) -> Result<Config, ConfigFault>
    ensures read { IfOk result (λ config. redundant_of (candidate_view first.entry) (candidate_view second.entry) ≡ Ok (config_view config)) }
    ensures refused { IfErr result (IsConfigFaultOf (redundant_of (candidate_view first.entry) (candidate_view second.entry))) }
{
    let (device, size) = check(first)?;
    let (second_device, second_size) = check(second)?;
    if size != second_size {
        return Err(ConfigFault::Unequal);
    }
    if size == SIZE_MIN {
        return Err(ConfigFault::Size(first.line));
    }
    if first.device == second.device && shares_byte(first.offset, second.offset, size) {
        return Err(ConfigFault::Overlap);
    }
    let first = place(alloc, device, first.offset)?;
    let second = Some(place(alloc, second_device, second.offset)?);
    Ok(Config {
        layout: Layout::Redundant,
        size,
        first,
        second,
    })
}

/// The device's text and the size of an accepted line without a fault of its own.
fn check(candidate: Candidate<'_>) -> Result<(&str, u32), ConfigFault>
    ensures read { IfOk result (λ found. checked (candidate_view candidate.entry) ≡ Ok found.1) }
    ensures device { IfOk result (λ found. found.0.now ≡ candidate.entry.device.now) }
    ensures refused { IfErr result (λ fault. checked (candidate_view candidate.entry) ≡ Err fault) }
{
    match str::from_utf8(candidate.device) {
        Err(_) => Err(ConfigFault::NotUtf8(candidate.line)),
        Ok(device) => match candidate.size {
            None => Err(ConfigFault::Size(candidate.line)),
            Some(size) => Ok((device, size)),
        },
    }
}

/// A place of its own.
fn place(alloc: Global, device: &str, offset: i64) -> Result<Place, AllocError>
    ensures { IfOk result (λ place. place_view place ≡ record { device = device.now; offset = offset }) }
{
    Ok(Place {
        device: String::from_str(alloc, device)?,
        offset,
    })
}

/// Whether both offsets count from the same end of a device, and ranges of this size at them share a byte.
fn shares_byte(first: i64, second: i64, size: u32) -> bool
    ensures { result ≡ shares_byte first second size }
{
    let size = u64::from(size);
    let (near, far) = (first.unsigned_abs(), second.unsigned_abs());
    (first < 0) == (second < 0) && near < far + size && far < near + size
}
