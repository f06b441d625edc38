//! What a `$` begins (docs/scripts.md, "Words").

ghost use Rattle.std.specs.Prelude.{◌≡◌, ◌+◌, ◌<◌, ◌≤◌, length, IfSome, ℕ, List};
ghost use Rattle.hush_words.specs.Bytes.{dollar};
ghost use Rattle.hush_words.specs.Ranges.{IsShort, Fits};
ghost use Rattle.hush_words.specs.Steps.{StandsAt, ReadsByte, ReadsBraces, ReadsDollar};

use crate::classes::{Class, begins_name, byte_at, follows_dollar, run_end, stands_at};
use crate::reads::PartRead;
use crate::{Part, Span};

/// Reads what the `$` at the place begins; `None` if it can't be there.
pub(crate) fn dollar(source: &[u8], place: usize, quoted: bool) -> Option<PartRead>
    requires few { IsShort source.now }
    requires here { StandsAt source.now place dollar }
    ensures reads { ReadsDollar source.now (place + 1) quoted result }
    ensures fits { IfSome result (λ read. Fits source.now read.part) }
{
    match byte_at(source, place + 1) {
        Some(next) => dollar_before(source, place, next, quoted),
        None => Some(byte_part(place, quoted)),
    }
}

/// Reads what the `$` at the place begins before this byte.
fn dollar_before(source: &[u8], place: usize, next: u8, quoted: bool) -> Option<PartRead>
    requires few { IsShort source.now }
    requires dollar { StandsAt source.now place dollar }
    requires next { StandsAt source.now (place + 1) next }
    ensures reads { ReadsDollar source.now (place + 1) quoted result }
    ensures fits { IfSome result (λ read. Fits source.now read.part) }
{
    let start = place + 1;
    if begins_name(next) {
        let end = run_end(Class::Name, source, start);
        Some(PartRead {
            part: Part::Value(Span::new(start, end), quoted),
            end,
        })
    } else if next == b'{' {
        braces(source, start + 1, quoted)
    } else if next == b'?' {
        Some(PartRead {
            part: Part::Status(quoted),
            end: start + 1,
        })
    } else if follows_dollar(next) {
        None
    } else {
        Some(byte_part(place, quoted))
    }
}

/// Reads a name and the brace that closes it, from after the opening brace.
fn braces(source: &[u8], start: usize, quoted: bool) -> Option<PartRead>
    requires few { IsShort source.now }
    requires within { start ≤ length source.now }
    ensures reads { ReadsBraces source.now start quoted result }
    ensures fits { IfSome result (λ read. Fits source.now read.part) }
{
    let end = run_end(Class::Braces, source, start);
    if start < end && stands_at(source, end, b'}') {
        Some(PartRead {
            part: Part::Value(Span::new(start, end), quoted),
            end: end + 1,
        })
    } else {
        None
    }
}

/// The byte at the place as itself.
pub(crate) fn byte_part(place: usize, quoted: bool) -> PartRead
    requires { place < u32.MAX }
    ensures reads { ReadsByte place quoted result }
    ensures fits { (source : List ℕ) (b : ℕ) → StandsAt source place b → Fits source result.part }
{
    let end = place + 1;
    let span = Span::new(place, end);
    PartRead {
        part: if quoted {
            Part::Quoted(span)
        } else {
            Part::Plain(span)
        },
        end,
    }
}
