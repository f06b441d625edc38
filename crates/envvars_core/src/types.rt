//! The types of values (docs/variables.md, "Types").

ghost use Rattle.std.specs.Prelude.{◌≡◌, ◌==◌, length};
ghost use Rattle.std.specs.List.{slice_split, list_all};
ghost use Rattle.envvars_core.specs.Types.{has_type, is_digit, is_hexadecimal, is_prefixed_hexadecimal, is_group, are_groups};

/// The type of a variable's values, by the letter that `.flags` has for it.
#[derive(Clone, Copy, Debug, PartialEq, Eq)]
pub enum Kind {
    /// `s`: any value.
    String,
    /// `d`: decimal digits only.
    Decimal,
    /// `x`: hexadecimal digits, with or without `0x` or `0X` before them.
    Hexadecimal,
    /// `b`: one of `1 y Y t T 0 n N f F`.
    Boolean,
    /// `i`: four groups of one to three decimal digits, joined by `.`.
    IpAddress,
    /// `m`: six groups of one or two hexadecimal digits, joined by `:`.
    MacAddress,
}

impl Kind {
    /// Whether a value has this type.
    pub(crate) fn admits(self, value: &[u8]) -> bool
        ensures { result ≡ has_type self value.now }
    {
        match self {
            Kind::String => true,
            Kind::Decimal => are_digits(Base::Decimal, value),
            Kind::Hexadecimal => is_hexadecimal(value) || is_prefixed_hexadecimal(value),
            Kind::Boolean => is_boolean(value),
            Kind::IpAddress => are_groups(value, 4, b'.', Base::Decimal, 3),
            Kind::MacAddress => are_groups(value, 6, b':', Base::Hexadecimal, 2),
        }
    }
}

/// The base of a number: its digits are decimal or hexadecimal.
#[derive(Clone, Copy)]
enum Base {
    Decimal,
    Hexadecimal,
}

fn are_digits(base: Base, bytes: &[u8]) -> bool
    ensures { result ≡ list_all (is_digit base) bytes.now }
{
    match base {
        Base::Decimal => bytes.iter().all(|b| b.is_ascii_digit()),
        Base::Hexadecimal => bytes.iter().all(|b| b.is_ascii_hexdigit()),
    }
}

fn is_hexadecimal(value: &[u8]) -> bool
    ensures { result ≡ is_hexadecimal value.now }
{
    !value.is_empty() && are_digits(Base::Hexadecimal, value)
}

fn is_prefixed_hexadecimal(value: &[u8]) -> bool
    ensures { result ≡ is_prefixed_hexadecimal value.now }
{
    match value {
        [b'0', b'x' | b'X', digits @ ..] => is_hexadecimal(digits),
        _ => false,
    }
}

fn is_boolean(value: &[u8]) -> bool
    ensures { result ≡ has_type Kind.Boolean value.now }
{
    matches!(
        value,
        [b'1' | b'y' | b'Y' | b't' | b'T' | b'0' | b'n' | b'N' | b'f' | b'F']
    )
}

/// How many groups the separator makes of a value.
fn group_count(value: &[u8], separator: u8) -> usize
    ensures { result ≡ length (slice_split (λ b. b == separator) value.now) }
{
    value.split(|b| *b == separator).count()
}

/// Whether a group is one to `most` digits.
fn is_group(group: &[u8], base: Base, most: usize) -> bool
    ensures { result ≡ is_group (is_digit base) most group.now }
{
    1 <= group.len() && group.len() <= most && are_digits(base, group)
}

/// Whether the groups that the separator makes are each one to `most` digits.
fn are_all_groups(value: &[u8], separator: u8, base: Base, most: usize) -> bool
    ensures { result
        ≡ list_all (is_group (is_digit base) most) (slice_split (λ b. b == separator) value.now) }
{
    value
        .split(|b| *b == separator)
        .all(|group| is_group(group, base, most))
}

/// Whether a value is `count` groups of one to `most` digits, with the separator between them.
fn are_groups(value: &[u8], count: usize, separator: u8, base: Base, most: usize) -> bool
    ensures { result ≡ are_groups count separator (is_group (is_digit base) most) value.now }
{
    group_count(value, separator) == count && are_all_groups(value, separator, base, most)
}
