//! A data area: the bytes that divide it, whether its list of entries is ended, and its entries.
ghost use Rattle.std.specs.Prelude.{◌≡◌};
ghost use Rattle.envimg_core.specs.Pieces.{entries_of, is_terminated};

use crate::pieces::Entries;
use memchr::memchr;

/// The byte that ends an entry and the list of entries, and that fills the rest of a data area.
pub const END: u8 = 0;

/// The byte that ends a name.
pub const EQUALS: u8 = b'=';

/// The entries of a data area in stored order, including names without a value; entries whose name is empty are
/// skipped. Takes any bytes.
pub fn entries(area: &[u8]) -> Entries<'_>
    ensures { result ≡ entries_of area.now }
{
    Entries::new(area)
}

/// Whether the list of entries is ended inside the area: one of its pieces is empty.
///
/// Most areas end in zeros, so the last two bytes are looked at first.
pub(crate) fn is_ended(area: &[u8]) -> bool
    ensures { result ≡ is_terminated area.now }
{
    if area.ends_with(&[END, END]) {
        return true;
    }
    let mut rest = area;
    'pieces: loop {
        match memchr(END, rest) {
            None => return false,
            Some(0) => return true,
            Some(end) => rest = &rest[end + 1..],
        }
    }
}
