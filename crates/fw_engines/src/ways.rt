//! How bytes may be a good image when they aren't one as meant.
ghost use Rattle.std.specs.Prelude.{◌≡◌, take};
ghost use Rattle.fw_engines.specs.Ways.{are_all, good_as, good_way, in_either_layout, in_either_order, in_some_size, is_filled, likely_sizes, other_layout, other_order};

use envimg_core::{CopyState, Geometry, Layout, Order, SIZE_MAX, check_copy};

/// What bytes are meant to be.
#[derive(Clone, Copy, Debug)]
pub(crate) struct Meant {
    /// The layout, if one is meant.
    pub(crate) layout: Option<Layout>,
    /// The byte order of the checksum.
    pub(crate) order: Order,
    /// The size in bytes.
    pub(crate) size: usize,
}

/// The first way in which the bytes, or a prefix of them, are a good image: as meant, in the other byte order,
/// in the other layout, in both, and then likewise in each likely size.
#[tactic(auto, unfolding(crate::specs::Ways::good_way))]
pub(crate) fn good_way(meant: &Meant, bytes: &[u8]) -> Option<Geometry>
    ensures { result ≡ good_way meant.now bytes.now }
{
    let layout = meant.layout.unwrap_or(Layout::Single);
    in_some_size(bytes, layout, meant.order, &likely_sizes(meant.size))
}

/// The first `size` bytes, or all if they are fewer.
pub(crate) fn first_bytes(bytes: &[u8], size: usize) -> &[u8]
    ensures { result.now ≡ take size bytes.now }
{
    match bytes.get(..size) {
        Some(first) => first,
        None => bytes,
    }
}

/// Whether there is at least one byte and each is this one.
pub(crate) fn is_filled(byte: u8, bytes: &[u8]) -> bool
    ensures { result ≡ is_filled byte bytes.now }
{
    !bytes.is_empty() && are_all(byte, bytes)
}

/// Whether each byte is this one.
fn are_all(byte: u8, bytes: &[u8]) -> bool
    ensures { result ≡ are_all byte bytes.now }
{
    for b in bytes {
        if *b != byte {
            return false;
        }
    }
    true
}

/// The size that is meant, and the powers of two from 4 KiB to 1 MiB.
fn likely_sizes(meant: usize) -> [usize; 10]
    ensures { result ≡ likely_sizes meant }
{
    [
        meant, 4_096, 8_192, 16_384, 32_768, 65_536, 131_072, 262_144, 524_288, 1_048_576,
    ]
}

/// The first of these sizes in which the bytes are good, in either layout and byte order.
#[tactic(auto, unfolding(crate::specs::Ways::in_some_size))]
fn in_some_size(bytes: &[u8], layout: Layout, order: Order, sizes: &[usize]) -> Option<Geometry>
    ensures { result ≡ in_some_size bytes.now layout order sizes.now }
{
    for size in sizes {
        if let Some(way) = in_either_layout(bytes, layout, order, *size) {
            return Some(way);
        }
    }
    None
}

/// Good in this layout, or else in the other.
#[tactic(auto, unfolding(crate::specs::Ways::in_either_layout))]
fn in_either_layout(bytes: &[u8], layout: Layout, order: Order, size: usize) -> Option<Geometry>
    ensures { result ≡ in_either_layout bytes.now layout order size }
{
    match in_either_order(bytes, layout, order, size) {
        Some(way) => Some(way),
        None => in_either_order(bytes, other_layout(layout), order, size),
    }
}

/// Good in this byte order, or else in the other.
fn in_either_order(bytes: &[u8], layout: Layout, order: Order, size: usize) -> Option<Geometry>
    ensures { result ≡ in_either_order bytes.now layout order size }
{
    match good_as(bytes, layout, order, size) {
        Some(way) => Some(way),
        None => good_as(bytes, layout, other_order(order), size),
    }
}

/// The geometry, if the first bytes are a good image of it.
pub(crate) fn good_as(bytes: &[u8], layout: Layout, order: Order, size: usize) -> Option<Geometry>
    ensures { result ≡ good_as bytes.now (record { layout = layout; size = size; order = order }) }
{
    if size > SIZE_MAX as usize {
        return None;
    }
    let geometry = Geometry::with_order(layout, size as u32, order)?;
    match check_copy(&geometry, first_bytes(bytes, size)) {
        CopyState::Good(_) => Some(geometry),
        _ => None,
    }
}

/// The layout that isn't this one.
fn other_layout(layout: Layout) -> Layout
    ensures { result ≡ other_layout layout }
{
    match layout {
        Layout::Single => Layout::Redundant,
        Layout::Redundant => Layout::Single,
    }
}

/// The byte order that isn't this one.
fn other_order(order: Order) -> Order
    ensures { result ≡ other_order order }
{
    match order {
        Order::Little => Order::Big,
        Order::Big => Order::Little,
    }
}
