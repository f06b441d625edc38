//! The entries of a data area, lent one after the other.
ghost use Rattle.std.specs.Prelude.{◌≡◌, [], ◌∷◌, ◌==◌, length, List, MatchOption, option_map};
ghost use Rattle.std.specs.Iterator.{YieldsFirstBy, item_count};
ghost use Rattle.envimg_core.specs.Pieces.{Entry, entries_of, value_of, entry_of, entry_view};
ghost use Rattle.envimg_core.specs.Steps.{YieldsEntry};

use crate::area::{END, EQUALS};
use memchr::memchr;
use std::marker::Model;

/// A name, and its value if it has one.
pub type Entry<'a> = (&'a [u8], Option<&'a [u8]>);

/// The entries of a data area that are still to come, in stored order, borrowed from it.
///
/// An entry whose name is empty is skipped; a rest that no 0 ends is no entry (docs/images.md, "Entries").
#[derive(Drop)]
pub struct Entries<'a> {
    rest: &'a [u8],
}

impl<'a> Model for Entries<'a> {
    ghost Value = { List Entry };

    ghost view = { λ s. entries_of s.rest.now };
}

impl<'a> Entries<'a> {
    /// The entries of `area`.
    pub(crate) fn new(area: &'a [u8]) -> Entries<'a>
        ensures { result ≡ entries_of area.now }
    {
        Entries { rest: area }
    }
}

impl<'a> Iterator for Entries<'a> {
    type Item = Entry<'a>;

    ghost next_gives = { YieldsFirstBy entry_view (λ s. s) };

    ghost remaining = { item_count (λ s. s) };

    fn next(&mut self) -> Option<Entry<'a>> {
        let (entry, rest) = next_entry(self.rest)?;
        self.rest = rest;
        Some(entry)
    }
}

/// The first entry of an area, and the area after it.
fn next_entry<'a>(area: &'a [u8]) -> Option<(Entry<'a>, &'a [u8])>
    ensures { MatchOption result (entries_of area.now ≡ [])
        (λ r. entries_of area.now ≡ entry_view r.0 ∷ entries_of r.1.now) }
{
    let mut rest = area;
    'pieces: loop {
        match next_piece(rest) {
            None => return None,
            Some((piece, behind)) => {
                let (name, value) = cut(piece);
                if !name.is_empty() {
                    return Some(((name, value), behind));
                }
                rest = behind;
            }
        }
    }
}

/// The first piece of an area, if it is ended and not empty, and the area after its 0.
fn next_piece(area: &[u8]) -> Option<(&[u8], &[u8])>
    ensures { MatchOption result (entries_of area.now ≡ []) (λ r. YieldsEntry area.now r.0.now r.1.now) }
{
    match memchr(END, area) {
        None => None,
        Some(0) => None,
        Some(end) => Some((&area[..end], &area[end + 1..])),
    }
}

/// A piece as an entry: the name before the first `=`, the value after it.
fn cut(piece: &[u8]) -> Entry<'_>
    ensures { entry_view result ≡ entry_of piece.now }
{
    match memchr(EQUALS, piece) {
        None => (piece, None),
        Some(end) => (&piece[..end], value(&piece[end + 1..])),
    }
}

/// A value that is not empty.
fn value(bytes: &[u8]) -> Option<&[u8]>
    ensures { option_map (λ v. v.now) result ≡ value_of bytes.now }
{
    if bytes.is_empty() { None } else { Some(bytes) }
}
