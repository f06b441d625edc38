//! The copy of an environment at one place.
ghost use Rattle.std.specs.Prelude.{◌≡◌, ◌≤◌, ◌∷◌, length, drop};
ghost use Rattle.envimg_core.specs.Bytes.{checksum_size};
ghost use Rattle.envimg_core.specs.Checksum.{checksum};
ghost use Rattle.envimg_core.specs.Geometry.{head};
ghost use Rattle.dump_search.specs.AreaSums.{IsSumOf};
ghost use Rattle.dump_search.specs.Search.{copy_as, copy_of_layout, copy_of_size, copy_of_sizes, environment_at, good_in, order_with, sizes};

use crate::area_sum::AreaSum;
use crate::copy_sizes::SIZES;
use crate::entry_front::begins_entry;
use byteorder::{BigEndian, ByteOrder, LittleEndian};
use envimg_core::{CopyState, Geometry, Layout, Order, check_copy};

/// The environment that bytes begin with.
#[tactic(auto, unfolding(crate::specs::Search::environment_at))]
pub(crate) fn environment_at(bytes: &[u8]) -> Option<Geometry>
    ensures { result ≡ environment_at bytes.now }
{
    match copy_of_layout(bytes, Layout::Single) {
        Some(geometry) => Some(geometry),
        None => copy_of_layout(bytes, Layout::Redundant),
    }
}

/// The copy of this layout that bytes begin with.
fn copy_of_layout(bytes: &[u8], layout: Layout) -> Option<Geometry>
    ensures { result ≡ copy_of_layout bytes.now layout }
{
    if begins_entry(behind(head(layout), bytes)) {
        copy_of_sizes(layout, bytes, looked_for())
    } else {
        None
    }
}

/// The sizes that are looked for.
fn looked_for() -> &'static [u32]
    ensures { result.now ≡ sizes }
{
    &SIZES
}

/// The bytes before the data area of a copy.
pub(crate) fn head(layout: Layout) -> usize
    ensures { result ≡ head layout }
{
    match layout {
        Layout::Single => 4,
        Layout::Redundant => 5,
    }
}

/// What follows the first `count` bytes.
pub(crate) fn behind(count: usize, bytes: &[u8]) -> &[u8]
    ensures { result.now ≡ drop count bytes.now }
{
    match bytes.get(count..) {
        Some(rest) => rest,
        None => &[],
    }
}

/// The copy that bytes begin with, in the first of these sizes in which there is one.
#[tactic(auto, unfolding(crate::specs::Search::copy_of_sizes))]
fn copy_of_sizes(layout: Layout, bytes: &[u8], sizes: &[u32]) -> Option<Geometry>
    ensures { result ≡ copy_of_sizes layout bytes.now sizes.now }
{
    let mut sum = AreaSum::new(layout);
    for size in sizes {
        if let Some(geometry) = copy_of_size(&mut sum, layout, bytes, *size) {
            return Some(geometry);
        }
    }
    None
}

/// The copy of this size that bytes begin with. The checksum goes on from that of the size before.
fn copy_of_size(sum: &mut AreaSum, layout: Layout, bytes: &[u8], size: u32) -> Option<Geometry>
    requires { IsSumOf sum.old layout bytes.now }
    ensures copy { result ≡ copy_of_size layout bytes.now size }
    ensures sum { IsSumOf sum.new layout bytes.now }
{
    match Geometry::new(layout, size) {
        None => None,
        Some(geometry) => match bytes.get(..size as usize) {
            None => None,
            Some(copy) => copy_as(
                geometry,
                copy,
                sum.checksum_to(layout, bytes, size as usize),
            ),
        },
    }
}

/// The geometry of a copy in the byte order of its checksum, if it is good; `shape` has its layout and size, `sum` is the
/// checksum of its data area.
fn copy_as(shape: Geometry, copy: &[u8], sum: u32) -> Option<Geometry>
    requires size { length copy.now ≡ shape.size }
    requires sum { sum ≡ checksum (drop (head shape.layout) copy.now) }
    ensures { result ≡ copy_as shape.layout copy.now }
{
    match order_with(copy, sum) {
        None => None,
        Some(order) => good_in(shape, copy, order),
    }
}

/// The byte order in which a copy begins with this checksum.
fn order_with(copy: &[u8], checksum: u32) -> Option<Order>
    requires { checksum_size ≤ length copy.now }
    ensures { result ≡ order_with copy.now checksum }
{
    if LittleEndian::read_u32(copy) == checksum {
        Some(Order::Little)
    } else if BigEndian::read_u32(copy) == checksum {
        Some(Order::Big)
    } else {
        None
    }
}

/// The geometry of a copy in this byte order, if it is good.
fn good_in(shape: Geometry, copy: &[u8], order: Order) -> Option<Geometry>
    requires { length copy.now ≡ shape.size }
    ensures { result ≡ good_in shape.layout copy.now order }
{
    match Geometry::with_order(shape.layout(), shape.size(), order) {
        None => None,
        Some(geometry) => match check_copy(&geometry, copy) {
            CopyState::Good(_) => Some(geometry),
            CopyState::BadLength => None,
            CopyState::BadCrc => None,
            CopyState::Unterminated => None,
        },
    }
}
