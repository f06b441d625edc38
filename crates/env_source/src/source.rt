//! A whole source.
ghost use Rattle.std.specs.Prelude.{◌≡◌, IfOk, IfErr, Ok, map};
ghost use Rattle.envcfg_core.specs.Entries.{entry_view};
ghost use Rattle.env_source.specs.Faults.{IsFaultOf};
ghost use Rattle.env_source.specs.Reading.{reading_view};
ghost use Rattle.env_source.specs.Sources.{source_of, with_line};

use crate::reading::Reading;
use crate::source_fault::SourceFault;
use crate::source_line::read_line;
use envcfg_core::TextEntry;
use std::alloc::Global;
use text_parts::numbered_lines;

/// Reads a source in U-Boot's own text form, after the C preprocessor: its variables, in the order of the names' bytes, each
/// with the line in which its last definition begins (docs/texts.md, "A source of U-Boot").
///
/// They are those that U-Boot's build makes of it, or the first line that is at fault is told. `Memory` when a growth was
/// refused.
pub fn parse_source(alloc: Global, text: &[u8]) -> Result<Vec<TextEntry>, SourceFault>
    ensures read { IfOk result (λ entries. source_of text.now ≡ Ok (map entry_view entries.items)) }
    ensures refused { IfErr result (IsFaultOf (source_of text.now)) }
{
    let mut reading = Reading::new(alloc);
    for (number, line) in numbered_lines(text) {
        reading = with_line(alloc, reading, number, line)?;
    }
    reading.finish(alloc)
}

/// What was read, and what this line says.
fn with_line(
    alloc: Global,
    reading: Reading,
    number: usize,
    line: &[u8],
) -> Result<Reading, SourceFault>
    ensures read { IfOk result (λ r. with_line (reading_view reading) (number, line.now) ≡ Ok (reading_view r)) }
    ensures refused { IfErr result (IsFaultOf (with_line (reading_view reading) (number, line.now))) }
{
    match read_line(line) {
        Ok(said) => match reading.with(alloc, number, said) {
            Ok(reading) => Ok(reading),
            Err(flaw) => Err(SourceFault { line: number, flaw }),
        },
        Err(flaw) => Err(SourceFault { line: number, flaw }),
    }
}
