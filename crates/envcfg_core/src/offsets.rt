//! Offsets and sizes of a configuration.
ghost use Rattle.std.specs.Prelude.{◌≡◌, ◌+◌, min, pos, option_map};
ghost use Rattle.envimg_core.specs.Bytes.{greatest_size};
ghost use Rattle.envcfg_core.specs.Numerals.{magnitude_of, offset_of, size_of};
ghost use Rattle.envcfg_core.specs.Sizes.{copy_size};

use envimg_core::SIZE_MAX;
use text_parts::{Base, base_of, behind_0x, numeral};

/// The size of the smallest single image (`least_size`); a redundant copy has one byte more at least.
pub(crate) const SIZE_MIN: u32 = 8;

/// Sizes from here on are read as this one, which is above every size that an image may have.
const SIZE_CAP: u64 = SIZE_MAX as u64 + 1;

/// Magnitudes from here on are read as this one, which is above the largest of an offset.
const MAGNITUDE_CAP: u64 = 9_223_372_036_854_775_808;

/// Reads an offset: decimal, hexadecimal after `0x` or `0X`, or octal after a leading 0, perhaps with a sign.
pub(crate) fn read_offset(text: &[u8]) -> Option<i64>
    ensures { result ≡ offset_of text.now }
{
    let (first, rest) = text.split_first()?;
    match *first {
        b'+' => read_magnitude(rest),
        b'-' => Some(-read_magnitude(rest)?),
        _ => read_magnitude(text),
    }
}

/// Reads how far an offset lies from its end of the device.
fn read_magnitude(text: &[u8]) -> Option<i64>
    ensures { result ≡ option_map pos (magnitude_of text.now) }
{
    let magnitude = match behind_0x(text) {
        Some(digits) => numeral(Base::Hexadecimal, digits, MAGNITUDE_CAP),
        None => numeral(base_of(text), text, MAGNITUDE_CAP),
    }?;
    if magnitude < MAGNITUDE_CAP {
        Some(magnitude as i64)
    } else {
        None
    }
}

/// Reads a size: hexadecimal digits, perhaps with `0x` or `0X` before them; a larger one as `SIZE_CAP`.
pub(crate) fn read_size(text: &[u8]) -> Option<u64>
    ensures { result ≡ option_map (λ n. min n (greatest_size + 1)) (size_of text.now) }
{
    match behind_0x(text) {
        Some(digits) => numeral(Base::Hexadecimal, digits, SIZE_CAP),
        None => numeral(Base::Hexadecimal, text, SIZE_CAP),
    }
}

/// The size, if an image may have it.
pub(crate) fn copy_size(number: u64) -> Option<u32>
    ensures { result ≡ copy_size number }
{
    if (u64::from(SIZE_MIN)..=u64::from(SIZE_MAX)).contains(&number) {
        Some(number as u32)
    } else {
        None
    }
}
