//! Writing an image in place.
ghost use Rattle.std.specs.Prelude.{◌≡◌, ◌≤◌, ◌+◌, ◌-◌, ◌<◌, ◌↔◌, ◌++◌, [], ◌∷◌, List, IsTrue, if◌then◌else◌, length, take, drop, replicate};
ghost use Rattle.envimg_core.specs.Bytes.{checksum_size, end_byte};
ghost use Rattle.envimg_core.specs.Geometry.{head};
ghost use Rattle.envimg_core.specs.Checksum.{checksum};
ghost use Rattle.envimg_core.specs.Image.{stored_pair, image_with, framed};
ghost use Rattle.envimg_core.specs.Steps.{spliced};
ghost use Rattle.envimg_core.specs.Order.{checksum_bytes};

use crate::area::{END, EQUALS};
use crate::checksum::crc32;
use crate::geometry::{CHECKSUM_LEN, FLAG_LEN, Geometry, Layout, Order};

/// Writes an image into a slice of the image's size: entries one by one, then the end, the flag and the checksum.
///
/// The image is that of an environment if the entries are put in ascending order of the names' bytes
/// (docs/images.md, "Written images").
pub struct ImageWriter<'a> {
    image: &'a mut [u8],
    geometry: Geometry,
    stored: usize,
    ghost sized: { length image.now ≡ geometry.size },
    ghost ended: { head geometry.layout + stored + 1 ≤ geometry.size },
}

impl<'a> ImageWriter<'a> {
    ghost use Rattle.envimg_core.specs.ImageWriter.{shape_of, written, room_left, loan_of};

    /// A writer of the image of this geometry, with no entry yet. The slice has the image's size; what it holds doesn't
    /// matter.
    pub fn new(geometry: &Geometry, image: &'a mut [u8]) -> ImageWriter<'a>
        requires { length image.old ≡ geometry.now.size }
        ensures shape { shape_of result ≡ geometry.now }
        ensures empty { written result ≡ [] }
        ensures same_slice { loan_of result ≡ image.entry.ghost_name }
    {
        // for the proof: the size is one of the layout's
        let _size = geometry.size();
        ImageWriter {
            image,
            geometry: *geometry,
            stored: 0,
        }
    }

    /// Appends an entry, `name=value` and a 0. Answers false, with the entries as they were, exactly when the entry
    /// doesn't fit into the room that is left: the data area also holds the 0 that ends the list.
    pub fn put(&mut self, name: &[u8], value: &[u8]) -> bool
        ensures fits { IsTrue result ↔ (length (stored_pair (name.now, value.now)) ≤ room_left self.old) }
        ensures entries { written self.new
            ≡ (if result then written self.old ++ stored_pair (name.now, value.now) else written self.old) }
        ensures shape { shape_of self.new ≡ shape_of self.old }
        ensures same_slice { loan_of self.new ≡ loan_of self.old }
    {
        let start = self.geometry.head_len() + self.stored;
        let free = self.image.len() - start - 1;
        if free < 2 || name.len() > free - 2 || value.len() > free - 2 - name.len() {
            return false;
        }
        store(self.image, start, name, value);
        self.stored += name.len() + value.len() + 2;
        true
    }

    /// Ends the list, fills the rest with zeros, and writes the flag (if redundant) and the checksum: the slice
    /// then holds the image.
    pub fn finish(self, flag: u8)
        ensures { self.exit.0.now ≡ image_with (shape_of self.entry) flag (written self.entry) }
    {
        let ImageWriter {
            image,
            geometry,
            stored,
        } = self;
        clear_from(image, geometry.head_len() + stored);
        seal(image, geometry.layout(), geometry.order(), flag);
    }
}

/// Writes an entry, `name=value` and a 0, from `start` on.
fn store(image: &mut [u8], start: usize, name: &[u8], value: &[u8])
    requires { start + (length name.now + length value.now + 2) ≤ length image.old }
    ensures { image.new ≡ spliced start (stored_pair (name.now, value.now)) image.old }
{
    overwrite(image, start, name);
    overwrite(image, start + name.len(), &[EQUALS]);
    overwrite(image, start + name.len() + 1, value);
    overwrite(image, start + name.len() + 1 + value.len(), &[END]);
}

/// Writes `bytes` over what is in `image` from `start` on.
fn overwrite(image: &mut [u8], start: usize, bytes: &[u8])
    requires { start + length bytes.now ≤ length image.old }
    ensures { image.new ≡ spliced start bytes.now image.old }
{
    image[start..start + bytes.len()].copy_from_slice(bytes);
}

/// Writes zeros from `start` to the end.
fn clear_from(image: &mut [u8], start: usize)
    requires { start ≤ length image.old }
    ensures { image.new ≡ take start image.old ++ replicate (length image.old - start) end_byte }
{
    image[start..].fill(END);
}

/// Writes the flag, if the layout has one, and the checksum of the data area in this byte order.
fn seal(image: &mut [u8], layout: Layout, order: Order, flag: u8)
    requires { head layout ≤ length image.old }
    ensures { image.new ≡ framed layout order flag (drop (head layout) image.old) }
{
    match layout {
        Layout::Single => sign(image, CHECKSUM_LEN, order),
        Layout::Redundant => {
            image[CHECKSUM_LEN] = flag;
            sign(image, CHECKSUM_LEN + FLAG_LEN, order);
        }
    }
}

/// Writes the checksum of what is from `head` on.
fn sign(image: &mut [u8], head: usize, order: Order)
    requires { (checksum_size ≤ length image.old) × (head ≤ length image.old) }
    ensures { image.new ≡ checksum_bytes order (checksum (drop head image.old)) ++ drop checksum_size image.old }
{
    let checksum = crc32(&image[head..]);
    order.write_checksum(image, checksum);
}
