//! The entries of an area as extents of it.
ghost use Rattle.std.specs.Prelude.{◌≡◌, ◌≤◌, length, take, drop, false, [], Some, All, IfSome, MatchOption};
ghost use Rattle.std.specs.declared.cmp.Ordering.TheVariants.{Greater};
ghost use Rattle.memchr.specs.Find.{IsFirstByte, is_byte};
ghost use Rattle.envimg_core.specs.Bytes.{equals, greatest_size};
ghost use Rattle.envimg_core.specs.Environment.{bytes_cmp, is_equals};
ghost use Rattle.envimg_core.specs.Pieces.{entries_of};
ghost use Rattle.envvars_store.specs.Order.{IsShared};
ghost use Rattle.envvars_store.specs.Pieces.{IsPiece, IsNextExtent};

use crate::scan::{LOOK, near, rises};
use crate::variable::Extent;
use envimg_core::{END, EQUALS};
use memchr::memchr;

/// The extent of the entry that begins at an index, if it has a value and its name comes after another, which is
/// before it.
#[inline(always)]
pub(crate) fn next_extent(area: &[u8], at: usize, from: usize, last: &[u8]) -> Option<Extent>
    requires within { at ≤ length area.now }
    requires size { length area.now ≤ greatest_size }
    requires last { All (λ b. is_equals b ≡ false) last.now }
    requires earlier { from ≤ at }
    requires front { last.now ≡ take (length last.now) (drop from area.now) }
    ensures { IfSome result (IsNextExtent area.now at last.now) }
{
    match near_extent(area, at, from, last) {
        Some(extent) => Some(extent),
        None => far_extent(area, at, last),
    }
}

/// The same, if the entry ends among the next `LOOK` bytes.
#[inline(always)]
fn near_extent(area: &[u8], at: usize, from: usize, last: &[u8]) -> Option<Extent>
    requires within { at ≤ length area.now }
    requires size { length area.now ≤ greatest_size }
    requires earlier { from ≤ at }
    requires front { last.now ≡ take (length last.now) (drop from area.now) }
    ensures { IfSome result (IsNextExtent area.now at last.now) }
{
    if area.len() - at < LOOK {
        return None;
    }
    let text = &area[at..];
    let end = near(END, text)?;
    let middle = near(EQUALS, text)?;
    if end <= middle + 1 || !rises(text, middle, &area[from..], last.len()) {
        return None;
    }
    Some(Extent {
        start: at as u32,
        middle: (at + middle) as u32,
        end: (at + end) as u32,
    })
}

/// The same, wherever the entry ends.
#[inline(never)]
fn far_extent(area: &[u8], at: usize, last: &[u8]) -> Option<Extent>
    requires within { at ≤ length area.now }
    requires size { length area.now ≤ greatest_size }
    requires last { All (λ b. is_equals b ≡ false) last.now }
    ensures { IfSome result (IsNextExtent area.now at last.now) }
{
    let end = piece_end(area, at)?;
    let middle = at + rising_end(&area[at..end], last)?;
    if middle + 1 == end {
        return None;
    }
    Some(Extent {
        start: at as u32,
        middle: middle as u32,
        end: end as u32,
    })
}

/// Where the piece that begins at an index ends; `None` if no entry is left.
pub(crate) fn piece_end(area: &[u8], at: usize) -> Option<usize>
    requires { at ≤ length area.now }
    ensures { MatchOption result (entries_of (drop at area.now) ≡ []) (IsPiece area.now at) }
{
    match memchr(END, &area[at..]) {
        None => None,
        Some(0) => None,
        Some(length) => Some(at + length),
    }
}

/// Where the name of a piece ends at its `=`, if the name comes after another one.
/// The other has no `=`, so the search for it begins where the two differ.
fn rising_end(piece: &[u8], last: &[u8]) -> Option<usize>
    requires { All (λ b. is_equals b ≡ false) last.now }
    ensures found { IfSome result (λ k. IsFirstByte (is_byte equals) piece.now (Some k)) }
    ensures rising { IfSome result (λ k. bytes_cmp (take k piece.now) last.now ≡ Greater) }
{
    let same = shared(piece, last);
    let more = memchr(EQUALS, &piece[same..])?;
    if more > 0 && (same == last.len() || piece[same] > last[same]) {
        Some(same + more)
    } else {
        None
    }
}

/// How many bytes two texts share at their start.
#[inline(always)]
fn shared(text: &[u8], other: &[u8]) -> usize
    ensures { IsShared text.now other.now result }
{
    let most = text.len().min(other.len());
    'bytes: for i in 0..most {
        if text[i] != other[i] {
            return i;
        }
    }
    most
}
