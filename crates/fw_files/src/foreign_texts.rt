//! What is given in the place of a text and is none.
ghost use Rattle.std.specs.Prelude.{◌≡◌};
ghost use Rattle.fw_files.specs.ForeignTexts.{foreign_ending, foreign_in, image_as, is_image, is_marked, is_mkimage, is_utf16};

use envimg_core::{Geometry, Layout, Order, SIZE_MAX};
use fw_engines::is_good;
use text_parts::contains_byte;

/// What a file is that is no text.
#[derive(Clone, Copy, Debug, PartialEq, Eq)]
pub enum Foreign {
    /// A good image of an environment.
    Image,
    /// A file of mkimage, such as boot.scr.
    Mkimage,
    /// A text in UTF-16.
    Utf16,
    /// A text with a byte order mark.
    Marked,
}

impl Foreign {
    /// What follows the path of the file.
    pub fn ending(self) -> &'static [u8]
        ensures { result.now ≡ foreign_ending self }
    {
        match self {
            Foreign::Image => b": this is an image of an environment, not a text\n",
            Foreign::Mkimage => b": this is an image of mkimage, as boot.scr is, not a text\n",
            Foreign::Utf16 => b": this text is in UTF-16\n",
            Foreign::Marked => b": this text begins with a byte order mark\n",
        }
    }
}

/// What bytes are that are no text; `None` if they may be one.
pub(crate) fn foreign_in(bytes: &[u8]) -> Option<Foreign>
    ensures { result ≡ foreign_in bytes.now }
{
    if is_mkimage(bytes) {
        Some(Foreign::Mkimage)
    } else if is_utf16(bytes) {
        Some(Foreign::Utf16)
    } else if is_marked(bytes) {
        Some(Foreign::Marked)
    } else if is_image(bytes) {
        Some(Foreign::Image)
    } else {
        None
    }
}

/// Whether bytes begin as a file of mkimage.
fn is_mkimage(bytes: &[u8]) -> bool
    ensures { result ≡ is_mkimage bytes.now }
{
    bytes.starts_with(&[0x27, 0x05, 0x19, 0x56])
}

/// Whether bytes begin with the byte order mark of UTF-16, in either order.
fn is_utf16(bytes: &[u8]) -> bool
    ensures { result ≡ is_utf16 bytes.now }
{
    bytes.starts_with(&[0xFF, 0xFE]) || bytes.starts_with(&[0xFE, 0xFF])
}

/// Whether bytes begin with the byte order mark of UTF-8.
fn is_marked(bytes: &[u8]) -> bool
    ensures { result ≡ is_marked bytes.now }
{
    bytes.starts_with(&[0xEF, 0xBB, 0xBF])
}

/// Whether bytes are a good image of an environment.
fn is_image(bytes: &[u8]) -> bool
    ensures { result ≡ is_image bytes.now }
{
    contains_byte(0, bytes)
        && (image_as(bytes, Layout::Single, Order::Little)
            || image_as(bytes, Layout::Single, Order::Big)
            || image_as(bytes, Layout::Redundant, Order::Little)
            || image_as(bytes, Layout::Redundant, Order::Big))
}

/// Whether bytes are a good copy of this layout and byte order.
fn image_as(bytes: &[u8], layout: Layout, order: Order) -> bool
    ensures { result ≡ image_as bytes.now layout order }
{
    if bytes.len() > SIZE_MAX as usize {
        return false;
    }
    match Geometry::with_order(layout, bytes.len() as u32, order) {
        None => false,
        Some(geometry) => is_good(&geometry, bytes),
    }
}
