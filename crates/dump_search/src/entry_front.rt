//! The entry at the front of a data area, by which a place is passed quickly at which no environment begins.
ghost use Rattle.std.specs.Prelude.{◌≡◌};
ghost use Rattle.dump_search.specs.Search.{begins_entry, ends_entry, ends_value, is_name_byte};

use envimg_core::{END, EQUALS};

/// Whether bytes begin with a name of printable bytes, `=`, and a value without control bytes.
pub(crate) fn begins_entry(bytes: &[u8]) -> bool
    ensures { result ≡ begins_entry bytes.now }
{
    match bytes.split_first() {
        None => false,
        Some((byte, rest)) => is_name_byte(*byte) && ends_entry(rest),
    }
}

/// Whether bytes go on with a name, `=` and a value.
#[tactic(auto, unfolding(crate::specs::Search::ends_entry))]
fn ends_entry(bytes: &[u8]) -> bool
    ensures { result ≡ ends_entry bytes.now }
{
    let mut left = bytes;
    while let Some((byte, rest)) = left.split_first() {
        if *byte == EQUALS {
            return ends_value(rest);
        }
        if !is_name_byte(*byte) {
            return false;
        }
        left = rest;
    }
    false
}

/// Whether bytes go on with a value, and the 0 that ends it.
#[tactic(auto, unfolding(crate::specs::Search::ends_value))]
fn ends_value(bytes: &[u8]) -> bool
    ensures { result ≡ ends_value bytes.now }
{
    let mut left = bytes;
    while let Some((byte, rest)) = left.split_first() {
        if *byte == END {
            return true;
        }
        if *byte < 32 {
            return false;
        }
        left = rest;
    }
    false
}

/// Whether a byte may be in a name: it is printable, and no blank and no `=`.
fn is_name_byte(byte: u8) -> bool
    ensures { result ≡ is_name_byte byte }
{
    32 < byte && byte < 127 && byte != EQUALS
}
