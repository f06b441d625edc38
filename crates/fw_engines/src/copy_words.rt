//! The text about one copy: that it is good, or what is wrong with it and what may help.
ghost use Rattle.std.specs.Prelude.{◌≡◌, ◌++◌, IfOk, map, option_copied};
ghost use Rattle.std.specs.List.{concat};
ghost use Rattle.fw_engines.specs.CopyStatus.{bad_words, copy_words, fault_words, good_words, hint_words, layout_words, meant_by, order_words, size_words, way_hint, way_words};

use crate::ways::{Meant, first_bytes, good_way, is_filled};
use envimg_core::{CopyState, Geometry, Layout, Order, check_copy};
use envvars_core::Memory;
use hush_calc::Hexadecimal;
use itoa::Buffer;

/// Appends the words about the copy that these bytes begin with.
#[tactic(auto, unfolding(crate::specs::CopyStatus::copy_words))]
pub(crate) fn push_copy_words(
    text: &mut Vec<u8>,
    geometry: &Geometry,
    bytes: &[u8],
) -> Result<(), Memory>
    ensures { IfOk result (λ _. text.new.items ≡ text.old.items ++ copy_words geometry.now bytes.now) }
{
    match check_copy(geometry, first_bytes(bytes, geometry.size() as usize)) {
        CopyState::Good(flag) => push_good(text, geometry.layout(), flag),
        CopyState::BadLength => push_bad(text, CopyState::BadLength, &meant_by(geometry), bytes),
        CopyState::BadCrc => push_bad(text, CopyState::BadCrc, &meant_by(geometry), bytes),
        CopyState::Unterminated => {
            push_bad(text, CopyState::Unterminated, &meant_by(geometry), bytes)
        }
    }
}

/// Appends what is wrong with bytes, and what may help.
pub(crate) fn push_bad(
    text: &mut Vec<u8>,
    state: CopyState,
    meant: &Meant,
    bytes: &[u8],
) -> Result<(), Memory>
    ensures { IfOk result (λ _. text.new.items ≡ text.old.items ++ bad_words state meant.now bytes.now) }
{
    push_all(text, &[fault_words(state)])?;
    push_hint(text, meant, bytes)
}

/// What bytes are meant to be by a geometry.
pub(crate) fn meant_by(geometry: &Geometry) -> Meant
    ensures { result ≡ meant_by geometry.now }
{
    Meant {
        layout: Some(geometry.layout()),
        order: geometry.order(),
        size: geometry.size() as usize,
    }
}

/// Appends that a copy is good, with its flag if it has one.
fn push_good(text: &mut Vec<u8>, layout: Layout, flag: u8) -> Result<(), Memory>
    ensures { IfOk result (λ _. text.new.items ≡ text.old.items ++ good_words layout flag) }
{
    let mut digits = Buffer::new();
    match layout {
        Layout::Single => push_all(text, &[b"good"]),
        Layout::Redundant => push_all(text, &[b"good, flag ", digits.format(flag).as_bytes()]),
    }
}

/// Appends what may help if bytes aren't good.
#[tactic(auto, unfolding(crate::specs::CopyStatus::hint_words))]
fn push_hint(text: &mut Vec<u8>, meant: &Meant, bytes: &[u8]) -> Result<(), Memory>
    ensures { IfOk result (λ _. text.new.items ≡ text.old.items ++ hint_words meant.now bytes.now) }
{
    let copy = first_bytes(bytes, meant.size);
    if is_filled(0xFF, copy) {
        return push_all(text, &[b", erased (all bytes FF)"]);
    }
    if is_filled(0, copy) {
        return push_all(text, &[b", erased (all bytes 00)"]);
    }
    match good_way(meant, bytes) {
        None => Ok(()),
        Some(way) => push_way_hint(text, meant, &way),
    }
}

/// Appends that bytes are good in this way.
fn push_way_hint(text: &mut Vec<u8>, meant: &Meant, way: &Geometry) -> Result<(), Memory>
    ensures { IfOk result (λ _. text.new.items ≡ text.old.items ++ way_hint meant.now (Some way.now)) }
{
    push_all(text, &[b","])?;
    push_way(text, meant, way)
}

/// Appends the way in which bytes are good, as far as it differs from the one meant.
pub(crate) fn push_way(text: &mut Vec<u8>, meant: &Meant, way: &Geometry) -> Result<(), Memory>
    ensures { IfOk result (λ _. text.new.items ≡ text.old.items ++ way_words meant.now way.now) }
{
    let layout = layout_words(meant.layout, way.layout());
    let order = order_words(meant.order, way.order());
    push_all(text, &[b" good", layout, order])?;
    push_size(text, meant.size, way.size() as usize)
}

/// Appends a size other than the one meant.
fn push_size(text: &mut Vec<u8>, meant: usize, size: usize) -> Result<(), Memory>
    ensures { IfOk result (λ _. text.new.items ≡ text.old.items ++ size_words meant size) }
{
    if size == meant {
        return Ok(());
    }
    let digits = Hexadecimal::new(size as u64);
    push_all(text, &[b" with size 0x", digits.as_bytes()])
}

/// What is wrong with a copy.
fn fault_words(state: CopyState) -> &'static [u8]
    ensures { result.now ≡ fault_words state }
{
    match state {
        CopyState::Good(_) => b"good",
        CopyState::BadLength => b"length is wrong",
        CopyState::BadCrc => b"checksum is wrong",
        CopyState::Unterminated => b"list of entries isn't ended",
    }
}

/// A layout other than the one meant.
fn layout_words(meant: Option<Layout>, found: Layout) -> &'static [u8]
    ensures { result.now ≡ layout_words meant found }
{
    match (meant, found) {
        (Some(Layout::Single), Layout::Single) => b"",
        (Some(Layout::Redundant), Layout::Redundant) => b"",
        (_, Layout::Single) => b" as a single image",
        (_, Layout::Redundant) => b" as a copy with a flag",
    }
}

/// A byte order other than the one meant.
fn order_words(meant: Order, found: Order) -> &'static [u8]
    ensures { result.now ≡ order_words meant found }
{
    match (meant, found) {
        (Order::Little, Order::Little) => b"",
        (Order::Big, Order::Big) => b"",
        (Order::Little, Order::Big) => b" with --big-endian",
        (Order::Big, Order::Little) => b" without --big-endian",
    }
}

/// Appends these parts in their order.
pub(crate) fn push_all(text: &mut Vec<u8>, parts: &[&[u8]]) -> Result<(), Memory>
    ensures { IfOk result (λ _. text.new.items ≡ text.old.items ++ concat (map (λ p. p.now) parts.now)) }
{
    for part in parts {
        text.extend_from_slice(part)?;
    }
    Ok(())
}
