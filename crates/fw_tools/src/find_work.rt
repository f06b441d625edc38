//! `find`: a dump is searched for environments, and the lines of a configuration are printed.
ghost use Rattle.std.specs.Prelude.{MatchResult};
ghost use Rattle.fw_tools.specs.Said.{AreSame};
ghost use Rattle.fw_tools.specs.Dumps.{Finds, PrintsDump};

use crate::halt::Halt;
use crate::printing::print_text;
use crate::tool_messages::report;
use dump_search::dump_text;
use fw_engines::{StreamFault, ToolEnd};
use fw_files::{System, read_dump};
use std::alloc::Global;
use std::io::Write;

/// Searches the dump at a path, and answers the exit status.
pub(crate) fn find<'w, X: System + AllocGlobal, W: Write, E: Write>(
    rt: &X,
    path: &'w str,
    output: &mut W,
    errors: &mut E,
) -> Result<u8, Halt<'w>>
    ensures { MatchResult result (Finds (X.holds rt.now) path.now (record { output = W.contents output.old; errors = E.contents errors.old })
        (record { output = W.contents output.new; errors = E.contents errors.new }))
        (λ _. AreSame (record { output = W.contents output.old; errors = E.contents errors.old })
        (record { output = W.contents output.new; errors = E.contents errors.new })) }
{
    match read_dump(rt, path) {
        Ok(dump) => Ok(report(print_found(rt.alloc(), path, &dump, output), errors)),
        Err(fault) => Err(Halt::at(path, fault)),
    }
}

/// Prints the lines for a dump.
fn print_found<W: Write>(alloc: Global, path: &str, dump: &[u8], output: &mut W) -> ToolEnd
    ensures { PrintsDump path.now dump.now (W.contents output.old) (W.contents output.new) result }
{
    match dump_text(alloc, path.as_bytes(), dump) {
        Err(_) => ToolEnd::stopped(StreamFault::Memory),
        Ok(found) => print_text(&found.text, found.status, output),
    }
}
