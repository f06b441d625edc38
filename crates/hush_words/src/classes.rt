//! Classes of bytes, and the runs of a class in the source.

ghost use Rattle.std.specs.Prelude.{◌≡◌, ◌+◌, ◌<◌, ◌≤◌, ◌==◌, ◌&&◌, not, length, drop};
ghost use Rattle.hush_words.specs.Bytes.{newline, backslash};
ghost use Rattle.hush_words.specs.Words.{is_one_of, is_blank, ends_word, begins_name, is_in_name, is_in_braces, follows_dollar, is_special, is_bare, is_inner, is_escaped};
ghost use Rattle.hush_words.specs.Steps.{passes, begins, ByteAt, IsRun};

mod bare;

use bare::BARE;
use memchr::memchr;

/// What a run of bytes can be made of (docs/scripts.md, "Words").
#[derive(Clone, Copy)]
pub(crate) enum Class {
    /// Bytes that stand for themselves in a word.
    Plain,
    /// Bytes that stand for themselves between double quotes.
    Inner,
    /// Bytes of a name.
    Name,
    /// Bytes of a name in braces.
    Braces,
}

impl Class {
    /// Whether the byte is in the class.
    pub(crate) fn has(self, b: u8) -> bool
        ensures { result ≡ passes self b }
    {
        match self {
            Class::Plain => is_bare(b),
            Class::Inner => is_inner(b),
            Class::Name => is_in_name(b),
            Class::Braces => is_in_braces(b),
        }
    }
}

/// The byte at a place, `None` at the end of the source.
pub(crate) fn byte_at(source: &[u8], at: usize) -> Option<u8>
    ensures { ByteAt source.now at result }
{
    source.get(at).copied()
}

/// Whether this byte is at the place.
pub(crate) fn stands_at(source: &[u8], at: usize, byte: u8) -> bool
    ensures { result ≡ begins byte (drop at source.now) }
{
    match byte_at(source, at) {
        Some(b) => b == byte,
        None => false,
    }
}

/// Whether a `\` and a newline are at the place.
pub(crate) fn is_joined_line(source: &[u8], at: usize) -> bool
    requires { at < usize.MAX }
    ensures { result ≡ begins backslash (drop at source.now) && begins newline (drop (at + 1) source.now) }
{
    stands_at(source, at, b'\\') && stands_at(source, at + 1, b'\n')
}

/// Where the run of bytes of the class ends that begins at `start`.
pub(crate) fn run_end(class: Class, source: &[u8], start: usize) -> usize
    requires { start ≤ length source.now }
    ensures { IsRun (passes class) source.now start result }
{
    let mut end = start;
    while end < source.len() && class.has(source[end]) {
        end += 1;
    }
    end
}

/// Where the byte is next, from `start` on; the end of the source if it isn't.
pub(crate) fn place_of(byte: u8, source: &[u8], start: usize) -> usize
    requires { start ≤ length source.now }
    ensures { IsRun (λ b. not (b == byte)) source.now start result }
{
    match memchr(byte, &source[start..]) {
        Some(len) => start + len,
        None => source.len(),
    }
}

/// A space or a tab.
#[tactic(auto, unfolding(crate::specs::Words::is_blank))]
pub(crate) fn is_blank(b: u8) -> bool
    ensures { result ≡ is_blank b }
{
    b == b' ' || b == b'\t'
}

/// What ends a word where it is bare.
#[tactic(auto, unfolding(crate::specs::Words::ends_word))]
pub(crate) fn ends_word(b: u8) -> bool
    ensures { result ≡ ends_word b }
{
    is_blank(b) || is_among(b"\n;&|", b)
}

/// A letter or `_`.
#[tactic(auto, unfolding(crate::specs::Words::begins_name))]
pub(crate) fn begins_name(b: u8) -> bool
    ensures { result ≡ begins_name b }
{
    b.is_ascii_alphabetic() || b == b'_'
}

/// A letter, a digit or `_`.
#[tactic(auto, unfolding(crate::specs::Words::is_in_name))]
pub(crate) fn is_in_name(b: u8) -> bool
    ensures { result ≡ is_in_name b }
{
    begins_name(b) || b.is_ascii_digit()
}

/// What may be between `${` and `}`: mostly a byte of a name.
#[tactic(auto, unfolding(crate::specs::Words::is_in_braces))]
fn is_in_braces(b: u8) -> bool
    ensures { result ≡ is_in_braces b }
{
    if is_in_name(b) {
        true
    } else {
        !(is_blank(b) || is_among(b"\n}{$:='\"\\", b))
    }
}

/// A byte before which a `$` doesn't stand for itself.
#[tactic(auto, unfolding(crate::specs::Words::follows_dollar))]
pub(crate) fn follows_dollar(b: u8) -> bool
    ensures { result ≡ follows_dollar b }
{
    begins_name(b) || is_among(b"{?#@*$!-(", b) || b.is_ascii_digit()
}

/// What begins a substitution, quotes or an escape.
#[tactic(auto, unfolding(crate::specs::Words::is_special))]
pub(crate) fn is_special(b: u8) -> bool
    ensures { result ≡ is_special b }
{
    is_among(b"$'\"\\", b)
}

/// A byte that stands for itself in a word.
pub(crate) fn is_bare(b: u8) -> bool
    ensures { result ≡ is_bare b }
{
    BARE[usize::from(b)]
}

/// A byte that stands for itself between double quotes.
#[tactic(auto, unfolding(crate::specs::Words::is_inner))]
fn is_inner(b: u8) -> bool
    ensures { result ≡ is_inner b }
{
    !is_among(b"\"$\\", b)
}

/// A byte before which `\` vanishes between double quotes.
#[tactic(auto, unfolding(crate::specs::Words::is_escaped))]
pub(crate) fn is_escaped(b: u8) -> bool
    ensures { result ≡ is_escaped b }
{
    is_among(b"$\"\\", b)
}

/// Whether the byte is among these.
fn is_among(set: &[u8], b: u8) -> bool
    ensures { result ≡ is_one_of set.now b }
{
    set.contains(&b)
}
