//! Places that hold other data than a copy.
ghost use Rattle.std.specs.Prelude.{◌≡◌};
ghost use Rattle.fw_engines.specs.Misplaced.{begins_with_entry, entry_from, is_other_data, is_printable};
ghost use Rattle.envimg_core.specs.State.{state_of};
ghost use Rattle.fw_engines.specs.Ways.{is_good};

use crate::ways::is_filled;
use envimg_core::{CopyState, Geometry, check_copy};

/// Whether the bytes of a copy are other data: it isn't good, it isn't erased, and its data area begins with no entry.
pub fn is_other_data(geometry: &Geometry, copy: &[u8]) -> bool
    ensures { result ≡ is_other_data geometry.now copy.now }
{
    match geometry.area(copy) {
        None => false,
        Some(area) => {
            !begins_with_entry(area)
                && !is_filled(0xFF, copy)
                && !is_filled(0, copy)
                && !is_good(geometry, copy)
        }
    }
}

/// Whether a copy is good.
pub fn is_good(geometry: &Geometry, copy: &[u8]) -> bool
    ensures { result ≡ is_good (state_of geometry.now copy.now) }
{
    match check_copy(geometry, copy) {
        CopyState::Good(_) => true,
        CopyState::BadLength => false,
        CopyState::BadCrc => false,
        CopyState::Unterminated => false,
    }
}

/// Whether a data area begins with an entry: printable bytes, at least one, and then `=`.
fn begins_with_entry(area: &[u8]) -> bool
    ensures { result ≡ begins_with_entry area.now }
{
    let mut named = false;
    for byte in area {
        if *byte == b'=' {
            return named;
        }
        if !is_printable(*byte) {
            return false;
        }
        named = true;
    }
    false
}

/// Whether a byte is printable in ASCII.
fn is_printable(byte: u8) -> bool
    ensures { result ≡ is_printable byte }
{
    0x20 <= byte && byte <= 0x7E
}
