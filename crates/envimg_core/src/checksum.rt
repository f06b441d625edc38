//! The checksum over a data area.
ghost use Rattle.std.specs.Prelude.{◌≡◌, bit_xor, ◌+◌, ◌<◌, ◌≤◌, [], ◌∷◌, length};
ghost use Rattle.envimg_core.specs.Checksum.{checksum};
ghost use Rattle.envimg_core.specs.Register.{step, steps, advance, feed, mixed};

mod tables;

use byteorder::{ByteOrder, LittleEndian};
use tables::TABLES;

/// How many bytes the register takes in one go.
const BLOCK: usize = 8;

/// The register before the first byte, and what its bits are inverted with after the last.
const ALL_ONES: u32 = 0xFFFF_FFFF;

/// The checksum of `bytes`: the common CRC-32 (reflected polynomial 0xEDB88320, start all ones, final complement).
///
/// The result is a number; how it lies in an image is documented in docs/images.md, "Checksum".
pub fn crc32(bytes: &[u8]) -> u32
    ensures { result ≡ checksum bytes.now }
{
    feed_all(ALL_ONES, bytes) ^ ALL_ONES
}

/// The checksum of bytes that come piece by piece: that of [`crc32`].
#[derive(Clone, Copy, Debug)]
pub struct Digest {
    register: u32,
}

impl Digest {
    ghost use Rattle.std.specs.Prelude.{ℕ, List, ◌++◌};
    ghost use Rattle.envimg_core.specs.Digest.{AreBytes, HasTaken};

    /// The checksum before the first byte.
    pub fn new() -> Digest
        ensures { HasTaken result [] }
    {
        Digest { register: ALL_ONES }
    }

    /// Takes these bytes behind those that it has taken.
    pub fn update(&mut self, bytes: &[u8])
        ensures { (taken : List ℕ) → HasTaken self.old taken → HasTaken self.new (taken ++ bytes.now) }
    {
        self.register = feed_all(self.register, bytes);
    }

    /// The checksum of the bytes that it has taken.
    pub fn finalize(self) -> u32
        ensures { (taken : List ℕ) → AreBytes taken → HasTaken self taken → result ≡ checksum taken }
    {
        self.register ^ ALL_ONES
    }
}

/// The same checksum, bit by bit: the plain program, with which tests and measurements compare [`crc32`].
pub fn crc32_bitwise(bytes: &[u8]) -> u32
    ensures { result ≡ checksum bytes.now }
{
    let mut register = ALL_ONES;
    for byte in bytes {
        register = feed_bits(register ^ u32::from(*byte));
    }
    register ^ ALL_ONES
}

/// Eight bits leave the register at its low end.
fn feed_bits(register: u32) -> u32
    ensures { result ≡ steps 8 register }
{
    let mut turned = register;
    for _ in 0..8u32 {
        turned = feed_bit(turned);
    }
    turned
}

/// One bit leaves the register at its low end.
fn feed_bit(register: u32) -> u32
    ensures { result ≡ step register }
{
    if register % 2 == 1 {
        (register / 2) ^ 0xEDB8_8320
    } else {
        register / 2
    }
}

/// Bytes go by: eight at a time, and then the last ones.
fn feed_all(register: u32, bytes: &[u8]) -> u32
    ensures { result ≡ feed register bytes.now }
{
    let mut turned = register;
    let mut rest = bytes;
    while rest.len() >= BLOCK {
        let (block, behind) = rest.split_at(BLOCK);
        turned = feed_block(turned, block);
        rest = behind;
    }
    feed_bytes(turned, rest)
}

/// Bytes go by, one after the other.
fn feed_bytes(register: u32, bytes: &[u8]) -> u32
    ensures { result ≡ feed register bytes.now }
{
    let mut turned = register;
    for byte in bytes {
        turned = feed_byte(turned, *byte);
    }
    turned
}

/// One byte goes by.
fn feed_byte(register: u32, byte: u8) -> u32
    ensures { result ≡ steps 8 (bit_xor register byte) }
{
    let [low, ..] = register.to_le_bytes();
    advanced(0, low ^ byte) ^ (register >> 8)
}

/// Eight bytes go by: each byte's part comes from the table for the bytes after it.
///
/// The part of the register, for which all else waits, is added last.
fn feed_block(register: u32, block: &[u8]) -> u32
    requires { length block.now ≡ BLOCK }
    ensures { result ≡ feed register block.now }
{
    let back = mixed_four(0, [block[4], block[5], block[6], block[7]]);
    let front = register ^ LittleEndian::read_u32(block);
    back ^ mixed_four(4, front.to_le_bytes())
}

/// What four bytes leave in an empty register once `zeros` bytes of zeros have gone by.
#[inline(always)]
fn mixed_four(zeros: usize, bytes: [u8; 4]) -> u32
    requires { zeros ≤ 4 }
    ensures { result ≡ mixed zeros bytes }
{
    let [a, b, c, d] = bytes;
    advanced(zeros + 3, a) ^ advanced(zeros + 2, b) ^ advanced(zeros + 1, c) ^ advanced(zeros, d)
}

/// What one byte leaves in an empty register once `zeros` bytes of zeros have gone by.
#[inline(always)]
fn advanced(zeros: usize, byte: u8) -> u32
    requires { zeros < BLOCK }
    ensures { result ≡ advance (zeros + 1) byte }
{
    TABLES[zeros][usize::from(byte)]
}
