//! Names of seven bytes.

/// The name of a number: `v` and six digits.
pub fn name(i: u32) -> [u8; 7] {
    [
        b'v',
        digit(i / 100_000),
        digit(i / 10_000),
        digit(i / 1_000),
        digit(i / 100),
        digit(i / 10),
        digit(i),
    ]
}

fn digit(n: u32) -> u8 {
    (n % 10) as u8 + 48
}
