//! Where and why a text isn't a script.
ghost use Rattle.std.specs.Prelude.{◌≡◌};
ghost use Rattle.fw_engines.specs.ScriptFaults.{fault_at, fault_line, fault_name, fault_sentence};
ghost use Rattle.fw_engines.specs.Streams.{AppendsFront};

use crate::streams::write_parts;
use crate::text_places::{Place, place_of};
use hush_syntax::{FaultKind, SyntaxFault};
use itoa::Buffer;
use std::io::Write;

/// Prints on `errors` where and why the text of this name isn't a script, as far as `errors` takes it:
/// `fwenv: NAME:LINE:COLUMN: KIND: SENTENCE` and a newline.
pub fn say_syntax_fault<E: Write>(errors: &mut E, name: &[u8], text: &[u8], fault: SyntaxFault)
    ensures { AppendsFront (E.contents errors.old) (E.contents errors.new)
        (fault_line name.now text.now fault.place fault.kind) }
{
    say_at(
        errors,
        name,
        place_of(text, fault.place),
        fault_name(fault.kind),
        fault_sentence(fault.kind),
    );
}

/// The same with the place, and the name and the sentence of the kind.
fn say_at<'t, E: Write>(
    errors: &mut E,
    name: &'t [u8],
    place: Place,
    kind: &'t [u8],
    sentence: &'t [u8],
)
    ensures { AppendsFront (E.contents errors.old) (E.contents errors.new)
        (fault_at name.now place kind.now sentence.now) }
{
    let mut line = Buffer::new();
    let mut column = Buffer::new();
    let _ = write_parts(
        errors,
        &[
            b"fwenv: ",
            name,
            b":",
            line.format(place.line).as_bytes(),
            b":",
            column.format(place.column).as_bytes(),
            b": ",
            kind,
            b": ",
            sentence,
            b"\n",
        ],
    );
}

/// The name of what keeps a text from being a script.
pub fn fault_name(kind: FaultKind) -> &'static [u8]
    ensures { result.now ≡ fault_name kind }
{
    match kind {
        FaultKind::Quote => b"Quote",
        FaultKind::Backslash => b"Backslash",
        FaultKind::Substitution => b"Substitution",
        FaultKind::Operator => b"Operator",
        FaultKind::Unexpected => b"Unexpected",
        FaultKind::Missing => b"Missing",
        FaultKind::Nest => b"Nest",
        FaultKind::Assignment => b"Assignment",
        FaultKind::Nul => b"Nul",
        FaultKind::Memory => b"Memory",
    }
}

/// What keeps a text from being a script, in a sentence.
pub fn fault_sentence(kind: FaultKind) -> &'static [u8]
    ensures { result.now ≡ fault_sentence kind }
{
    match kind {
        FaultKind::Quote => b"a quote is not closed",
        FaultKind::Backslash => b"the text ends with a backslash",
        FaultKind::Substitution => b"not a substitution of this shell: ${NAME}, $NAME or $?",
        FaultKind::Operator => b"a single & or |, which this shell does not have",
        FaultKind::Unexpected => b"not expected here",
        FaultKind::Missing => b"the text ends where more has to follow",
        FaultKind::Nest => b"more than 64 commands inside one another",
        FaultKind::Assignment => b"a word after an assignment",
        FaultKind::Nul => b"a byte 0",
        FaultKind::Memory => b"out of memory",
    }
}
