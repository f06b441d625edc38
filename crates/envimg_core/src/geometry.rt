//! The geometry of an image: layout, size and byte order.
ghost use Rattle.std.specs.Prelude.{◌≡◌, ◌≤◌, ◌+◌, ◌^◌, ◌<◌, SomeIff, OnSome, option_map, Some, None, if◌then◌else◌, ◌==◌, ◌++◌, length, drop, IsSome, ◌↔◌};
ghost use Rattle.envimg_core.specs.Geometry.{Shape, IsSize, head, room_of, area_of};
ghost use Rattle.envimg_core.specs.Bytes.{checksum_size};
ghost use Rattle.envimg_core.specs.Order.{checksum_bytes, stored_checksum};
ghost use Rattle.envimg_core.specs.State.{flag_of};

use byteorder::{BigEndian, ByteOrder, LittleEndian};
use std::marker::Model;

/// The bytes of a checksum, at the front of a copy (`checksum_size`).
pub(crate) const CHECKSUM_LEN: usize = 4;

/// The bytes of a redundant copy's flag, after its checksum (`flag_size`).
pub(crate) const FLAG_LEN: usize = 1;

/// The bytes of the shortest data area (`least_room`).
const AREA_MIN: usize = 4;

/// The bytes of the largest image: 1 MiB (`greatest_size`).
pub const SIZE_MAX: u32 = 1_048_576;

/// How an environment is stored (U-Boot's documentation, "Environment": one copy, or two of which one is current).
#[derive(Clone, Copy, Debug, PartialEq, Eq)]
pub enum Layout {
    /// One copy: four bytes of checksum, then the data area.
    Single,
    /// Two copies, each with a flag byte between checksum and data area.
    Redundant,
}

impl Layout {
    /// The flag that a copy shows: the byte after its checksum, or 0 if it has none.
    pub fn flag(self, copy: &[u8]) -> u8
        ensures { result ≡ flag_of self copy.now }
    {
        match self {
            Layout::Single => 0,
            Layout::Redundant => copy.get(CHECKSUM_LEN).copied().unwrap_or(0),
        }
    }

    /// The bytes before the data area.
    const fn head_len(self) -> usize
        ensures { result ≡ head self }
    {
        match self {
            Layout::Single => CHECKSUM_LEN,
            Layout::Redundant => CHECKSUM_LEN + FLAG_LEN,
        }
    }
}

/// The byte order of a board, in which its U-Boot stores the checksum (docs/images.md, "Checksum").
#[derive(Clone, Copy, Debug, PartialEq, Eq)]
pub enum Order {
    /// The lowest byte comes first.
    Little,
    /// The highest byte comes first.
    Big,
}

impl Order {
    /// The checksum at the front of a copy.
    pub(crate) fn read_checksum(self, bytes: &[u8]) -> u32
        requires { checksum_size ≤ length bytes.now }
        ensures { result ≡ stored_checksum self bytes.now }
    {
        match self {
            Order::Little => LittleEndian::read_u32(bytes),
            Order::Big => BigEndian::read_u32(bytes),
        }
    }

    /// Writes a checksum over the front of a copy.
    pub(crate) fn write_checksum(self, bytes: &mut [u8], checksum: u32)
        requires { checksum_size ≤ length bytes.old }
        ensures { bytes.new ≡ checksum_bytes self checksum ++ drop checksum_size bytes.old }
    {
        match self {
            Order::Little => LittleEndian::write_u32(bytes, checksum),
            Order::Big => BigEndian::write_u32(bytes, checksum),
        }
    }
}

/// The layout, the size of one copy, and the byte order of its checksum.
#[derive(Clone, Copy, Debug, PartialEq, Eq)]
pub struct Geometry {
    layout: Layout,
    size: u32,
    order: Order,
}

impl Model for Geometry {
    ghost use Rattle.envimg_core.specs.Geometry.{Shape, IsSize};

    ghost Value = { Shape };

    ghost view = { λ g. record { layout = g.layout; size = g.size; order = g.order } };

    ghost invariant = { λ g. IsSize g.layout g.size };

    ghost inverse = { λ s. record { layout = s.layout; size = s.size; order = s.order } };
}

impl Geometry {
    /// The geometry of copies of `size` bytes whose checksum is little-endian: `None` if the layout has no image
    /// of that size, which is below 8 bytes (single) or 9 bytes (redundant) and above 1,048,576.
    pub fn new(layout: Layout, size: u32) -> Option<Geometry>
        ensures { SomeIff result (IsSize layout size) (record { layout = layout; size = size; order = Order.Little }) }
    {
        Geometry::with_order(layout, size, Order::Little)
    }

    /// The same for a checksum in any byte order: `None` exactly when [`Geometry::new`] is.
    pub fn with_order(layout: Layout, size: u32, order: Order) -> Option<Geometry>
        ensures { SomeIff result (IsSize layout size) (record { layout = layout; size = size; order = order }) }
    {
        if (size as usize) < layout.head_len() + AREA_MIN || size > SIZE_MAX {
            return None;
        }
        Some(Geometry {
            layout,
            size,
            order,
        })
    }

    /// How the copies are laid out.
    pub fn layout(&self) -> Layout
        ensures { result ≡ self.now.layout }
    {
        self.layout
    }

    /// The size of one copy, in bytes.
    pub fn size(&self) -> u32
        ensures value { result ≡ self.now.size }
        ensures in_range { IsSize self.now.layout self.now.size }
    {
        self.size
    }

    /// The byte order in which the checksum is stored.
    pub fn order(&self) -> Order
        ensures { result ≡ self.now.order }
    {
        self.order
    }

    /// The length of the data area, in bytes.
    pub fn room(&self) -> u32
        ensures value { result ≡ room_of self.now }
        ensures in_range { IsSize self.now.layout self.now.size }
    {
        self.size - self.layout.head_len() as u32
    }

    /// The data area of a copy: `None` if the copy's length is not the size.
    pub fn area<'a>(&self, copy: &'a [u8]) -> Option<&'a [u8]>
        ensures value { option_map (λ area. area.now) result
            ≡ (if length copy.now == self.now.size then Some (area_of self.now copy.now) else None) }
        ensures in_range { IsSize self.now.layout self.now.size }
    {
        if copy.len() != self.size as usize {
            return None;
        }
        Some(&copy[self.layout.head_len()..])
    }

    /// The bytes before the data area.
    pub(crate) fn head_len(&self) -> usize
        ensures value { result ≡ head self.now.layout }
        ensures in_range { IsSize self.now.layout self.now.size }
    {
        self.layout.head_len()
    }
}
