//! The state of a stored copy.
ghost use Rattle.std.specs.Prelude.{◌≡◌};
ghost use Rattle.envimg_core.specs.State.{state_of};

use crate::area::is_ended;
use crate::checksum::crc32;
use crate::geometry::Geometry;

/// What a stored copy is good for.
#[derive(Clone, Copy, Debug, PartialEq, Eq)]
pub enum CopyState {
    /// Length, checksum and end of the list are right; the number is the flag byte, 0 for a single image.
    Good(u8),
    /// The length is not the geometry's size.
    BadLength,
    /// The checksum stored is not that of the data area.
    BadCrc,
    /// The checksum is right, but the list of entries is not ended inside the data area.
    Unterminated,
}

/// The state of a copy: the first of `BadLength`, `BadCrc` and `Unterminated` that applies, else `Good`.
pub fn check_copy(geometry: &Geometry, copy: &[u8]) -> CopyState
    ensures { result ≡ state_of geometry.now copy.now }
{
    let Some(area) = geometry.area(copy) else {
        return CopyState::BadLength;
    };
    if geometry.order().read_checksum(copy) != crc32(area) {
        return CopyState::BadCrc;
    }
    if !is_ended(area) {
        return CopyState::Unterminated;
    }
    CopyState::Good(geometry.layout().flag(copy))
}
