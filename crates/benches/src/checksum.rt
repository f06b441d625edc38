//! Both functions that compute a checksum, over the same bytes.
use envimg_core::{crc32, crc32_bitwise};
use std::io;
use std::time::Instant;

/// Bytes of the short comparison.
const SHORT: u32 = 65_536;

/// Bytes of a round.
const LONG: u32 = 67_108_864;

/// The same bytes as those of bench/zlib_checksum.c.
fn filled(rt: &HostRuntime, len: u32) -> io::Result<Vec<u8>> {
    let mut bytes = Vec::new(rt.alloc());
    let mut x: u32 = 1;
    for _ in 0..len {
        x = x.wrapping_mul(1_664_525).wrapping_add(1_013_904_223);
        bytes.push((x >> 24) as u8)?;
    }
    Ok(bytes)
}

/// Prints both sums of a short text.
pub fn compare(rt: &HostRuntime) -> io::Result<()> {
    let bytes = filled(rt, SHORT)?;
    println!(rt;
        "crc32 {:08x}, crc32_bitwise {:08x}",
        crc32(&bytes),
        crc32_bitwise(&bytes)
    )
}

/// Prints the name, the sum and the nanoseconds of each function in each round.
pub fn measure(rt: &HostRuntime, rounds: u32) -> io::Result<()> {
    let bytes = filled(rt, LONG)?;
    for _ in 0..rounds {
        let start = Instant::now(rt)?;
        let sum = crc32(&bytes);
        let taken = start.elapsed(rt)?.as_nanos();
        println!(rt; "crc32 {sum:08x} {taken}")?;

        let start = Instant::now(rt)?;
        let sum = crc32_bitwise(&bytes);
        let taken = start.elapsed(rt)?.as_nanos();
        println!(rt; "crc32_bitwise {sum:08x} {taken}")?;
    }
    Ok(())
}
