//! Images without a file: published checksums, and the rows of docs/images.md with those next to them.
ghost use Rattle.std.specs.Prelude.{◌≡◌};

use envimg_core::CopyState::{self, BadCrc, BadLength, Good, Unterminated};
use envimg_core::Layout::{self, Redundant, Single};
use envimg_core::Order::{self, Big, Little};
use envimg_core::{
    Choice, Digest, Geometry, ImageWriter, check_copy, choose, crc32, crc32_bitwise, entries,
};
use std::process::Abort;
use std::test::Fail;

const ONE_VARIABLE: &[u8] = b"\xD2\x96\x62\x2Ba=b\0\0";

/// The same of a big-endian board, and with flags.
const ONE_BIG: &[u8] = b"\x2B\x62\x96\xD2a=b\0\0";

const ONE_FLAG_7: &[u8] = b"\xD2\x96\x62\x2B\x07a=b\0\0";

const ONE_BIG_FLAG_8: &[u8] = b"\x2B\x62\x96\xD2\x08a=b\0\0";

const EMPTY: &[u8] = b"\x1C\xDF\x44\x21\0\0\0\0";

const EMPTY_BIG_FLAG_255: &[u8] = b"\x21\x44\xDF\x1C\xFF\0\0\0\0";

/// An area without an end.
const DIGITS: &[u8] = b"\x26\x39\xF4\xCB123456789";

fn geometry(rt: &impl Abort, layout: Layout, size: u32, order: Order) -> Geometry
    ensures { (result.layout ≡ layout) × (result.size ≡ size) }
{
    Geometry::with_order(layout, size, order).expect(rt, "a size that the layout allows")
}

#[test]
fn checksums_of_known_texts(rt: HostRuntime) {
    let known: [(&[u8], u32); 3] = [
        (b"", 0),
        (b"123456789", 0xCBF4_3926),
        (b"The quick brown fox jumps over the lazy dog", 0x414F_A339),
    ];
    for (text, sum) in known {
        assert_eq!(rt; (crc32(text), crc32_bitwise(text)), (sum, sum));
    }
}

#[test]
fn a_checksum_of_pieces_is_that_of_the_whole(rt: HostRuntime) {
    let mut digest = Digest::new();
    assert_eq!(rt; digest.finalize(), 0);
    let pieces: [&[u8]; 4] = [
        b"The quick brown fox ",
        b"",
        b"jumps over",
        b" the lazy dog",
    ];
    for piece in pieces {
        digest.update(piece);
    }
    assert_eq!(rt; digest.finalize(), 0x414F_A339);
}

#[test]
fn both_checksums_agree_at_all_lengths_and_places(rt: HostRuntime) -> Result<(), Fail> {
    let mut bytes = Vec::new(rt.alloc());
    let mut x: u32 = 1;
    for _ in 0..1_100u32 {
        x = x.wrapping_mul(1_664_525).wrapping_add(1_013_904_223);
        bytes.push((x >> 24) as u8)?;
    }
    for start in 0..16usize {
        for len in 0..1_040usize {
            let part = bytes.get(start..start + len).ok_or("long enough")?;
            assert_eq!(rt; crc32(part), crc32_bitwise(part));
        }
    }
    Ok(())
}

/// The layout, byte order and size of a copy, its bytes and its state.
type Copy = (Layout, Order, u32, &'static [u8], CopyState);

/// An erased redundant copy of 9 bytes has the right checksum; a copy may be too short or too long.
const COPIES: [Copy; 10] = [
    (Single, Little, 9, ONE_VARIABLE, Good(0)),
    (Single, Little, 13, DIGITS, Unterminated),
    (Single, Little, 13, b"\x27\x39\xF4\xCB123456789", BadCrc),
    (Single, Little, 13, b"\x26\x39\xF4\xCB12345678", BadLength),
    (Single, Little, 8, ONE_VARIABLE, BadLength),
    (Redundant, Little, 10, ONE_FLAG_7, Good(7)),
    (Redundant, Little, 9, &[0xFF; 9], Unterminated),
    (Single, Big, 9, ONE_BIG, Good(0)),
    (Single, Big, 9, ONE_VARIABLE, BadCrc),
    (Redundant, Big, 9, EMPTY_BIG_FLAG_255, Good(255)),
];

#[test]
fn states_of_stored_copies(rt: HostRuntime) {
    for (layout, order, size, copy, state) in COPIES {
        assert_eq!(rt;
            check_copy(&geometry(&rt, layout, size, order), copy),
            state
        );
    }
}

#[test]
fn each_prefix_of_an_image_is_too_short(rt: HostRuntime) -> Result<(), Fail> {
    for length in 0..9usize {
        let prefix = ONE_VARIABLE.get(..length).ok_or("long enough")?;
        assert_eq!(rt;
            check_copy(&geometry(&rt, Single, 9, Little), prefix),
            BadLength
        );
    }
    Ok(())
}

/// The states of two copies of which one is bad at least, and which is current.
const CHOICES: [(CopyState, CopyState, Choice); 3] = [
    (Good(1), BadCrc, Choice::First),
    (BadLength, Good(0), Choice::Second),
    (BadCrc, Unterminated, Choice::Neither),
];

#[test]
fn choices_next_to_a_bad_copy(rt: HostRuntime) {
    for (first, second, choice) in CHOICES {
        assert_eq!(rt; choose(first, second), choice);
    }
}

#[test]
fn entries_in_stored_order(rt: HostRuntime) -> Result<(), Fail> {
    let mut shown = Vec::new(rt.alloc());
    for (name, value) in entries(b"a=1\0a=2\0b\0c=\0=x\0d==\0\0e=1\0") {
        shown.extend_from_slice(name)?;
        shown.extend_from_slice(b":")?;
        shown.extend_from_slice(value.unwrap_or(b"-"))?;
        shown.extend_from_slice(b" ")?;
    }
    assert_eq!(rt; shown.as_slice(), b"a:1 a:2 b:- c:- d:= ".as_slice());
    assert!(rt;
        entries(b"a=1").next().is_none(),
        "an unended rest is no entry"
    );
    Ok(())
}

/// The layout, byte order and size of an image, its flag, whether `a=b` fits, and the bytes.
type Written = (Layout, Order, u32, u8, bool, &'static [u8]);

/// The last three: no entry fits, twice, and the rest is zeros. A single image has no flag.
const WRITTEN: [Written; 6] = [
    (Single, Little, 9, 0, true, ONE_VARIABLE),
    (Redundant, Little, 10, 7, true, ONE_FLAG_7),
    (Redundant, Big, 10, 8, true, ONE_BIG_FLAG_8),
    (Single, Little, 8, 0, false, EMPTY),
    (Single, Little, 8, 9, false, EMPTY),
    (Single, Little, 11, 0, true, b"\x71\xA8\xBB\xEBa=b\0\0\0\0"),
];

#[test]
fn written_images(rt: HostRuntime) -> Result<(), Fail> {
    for (layout, order, size, flag, fits, bytes) in WRITTEN {
        let mut image = b"\xAA".repeat(rt.alloc(), size as usize)?;
        let mut writer = ImageWriter::new(&geometry(&rt, layout, size, order), &mut image);
        assert_eq!(rt; writer.put(b"a", b"b"), fits);
        assert!(rt; !writer.put(b"c", b"d"), "full");
        writer.finish(flag);
        assert_eq!(rt; image.as_slice(), bytes);
    }
    Ok(())
}
