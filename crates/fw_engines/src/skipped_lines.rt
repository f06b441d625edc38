//! The lines of a configuration that are skipped.
ghost use Rattle.std.specs.Prelude.{◌≡◌, ◌++◌, ◌∷◌, List, IfOk};
ghost use Rattle.std.specs.List.{list_all};
ghost use Rattle.text_parts.specs.Lines.{Line};
ghost use Rattle.envcfg_core.specs.Config.{is_space};
ghost use Rattle.fw_engines.specs.SkippedLines.{is_idle, names_no_copy, skipped_among, skipped_lines};

use envcfg_core::{ConfigFault, parse_config};
use envvars_core::Memory;
use std::alloc::Global;
use text_parts::{begins_with_byte, numbered_lines};

/// The numbers of the lines that are skipped: neither comments nor blank, and not among the two that name the copies.
pub(crate) fn skipped_lines(alloc: Global, text: &[u8]) -> Result<Vec<usize>, Memory>
    ensures { IfOk result (λ numbers. numbers.items ≡ skipped_lines text.now) }
{
    let mut numbers = Vec::new(alloc);
    let mut wanted = 2usize;
    for (number, line) in numbered_lines(text) {
        wanted = take_line(alloc, &mut numbers, wanted, number, line)?;
    }
    Ok(numbers)
}

/// Takes one more line while `wanted` copies are looked for, and answers how many are looked for then.
fn take_line(
    alloc: Global,
    numbers: &mut Vec<usize>,
    wanted: usize,
    number: usize,
    line: &[u8],
) -> Result<usize, Memory>
    ensures { IfOk result (λ left. (later : List Line) → numbers.new.items ++ skipped_among later left
        ≡ numbers.old.items ++ skipped_among ((number, line.now) ∷ later) wanted) }
{
    if is_idle(line) {
        return Ok(wanted);
    }
    if names_no_copy(alloc, line)? {
        numbers.push(number)?;
        return Ok(wanted);
    }
    if wanted == 0 {
        numbers.push(number)?;
        return Ok(0);
    }
    Ok(wanted - 1)
}

/// Whether a line is a comment, or nothing but spaces.
fn is_idle(line: &[u8]) -> bool
    ensures { result ≡ is_idle line.now }
{
    begins_with_byte(b'#', line) || is_blank(line)
}

/// Whether a line is nothing but spaces.
fn is_blank(line: &[u8]) -> bool
    ensures { result ≡ list_all is_space line.now }
{
    for byte in line {
        if !is_space(*byte) {
            return false;
        }
    }
    true
}

/// A space, a tab or a carriage return.
fn is_space(byte: u8) -> bool
    ensures { result ≡ is_space byte }
{
    byte == b' ' || byte == b'\t' || byte == b'\r'
}

/// Whether a line, as a configuration of its own, names no copy.
fn names_no_copy(alloc: Global, line: &[u8]) -> Result<bool, Memory>
    ensures { IfOk result (λ no. no ≡ names_no_copy line.now) }
{
    match parse_config(alloc, line) {
        Ok(_) => Ok(false),
        Err(ConfigFault::NoCopy) => Ok(true),
        Err(ConfigFault::Memory) => Err(Memory),
        Err(_) => Ok(false),
    }
}
