//! Files of names that a board's own code sets (docs/check.md, "Which names are known").
ghost use Rattle.std.specs.Prelude.{◌≡◌, ◌++◌, ◌∷◌, [], Ok, IfErr, IfOk, OnOk, option_map};
ghost use Rattle.fw_files.specs.KnownNames.{AreKnownOf, IsKnownFault, is_known_name, known_names, names_view, with_line};

use crate::file_fault::FileFault;
use crate::files::read_file;
use crate::system::System;
use std::alloc::{AllocError, Global};
use text_parts::{
    begins_with_byte, contains_byte, numbered_lines, strip_carriage_return, without_blanks,
};

/// Reads a file of known names; without one there are none.
pub fn read_known<X: System + AllocGlobal>(
    rt: &X,
    path: Option<&str>,
) -> Result<Vec<Vec<u8>>, FileFault>
    ensures { IfOk result (λ names. AreKnownOf (X.holds rt.now) (option_map (λ p. p.now) path.entry) (names_view names)) }
{
    match path {
        None => Ok(Vec::new(rt.alloc())),
        Some(path) => read_known_file(rt, path),
    }
}

/// Reads the names in a file.
fn read_known_file<X: System + AllocGlobal>(rt: &X, path: &str) -> Result<Vec<Vec<u8>>, FileFault>
    ensures { IfOk result (λ names. AreKnownOf (X.holds rt.now) (Some path.now) (names_view names)) }
{
    let text = read_file(rt, path)?;
    known_in(rt.alloc(), &text)
}

/// The names in a text.
fn known_in(alloc: Global, text: &[u8]) -> Result<Vec<Vec<u8>>, FileFault>
    ensures read { IfOk result (λ names. known_names text.now ≡ Ok (names_view names)) }
    ensures refused { IfErr result (IsKnownFault (known_names text.now)) }
{
    let mut names = Vec::new(alloc);
    for (number, line) in numbered_lines(text) {
        add_line(alloc, number, line, &mut names)?;
    }
    Ok(names)
}

/// Adds the name in a line, if it has one.
fn add_line(
    alloc: Global,
    number: usize,
    line: &[u8],
    names: &mut Vec<Vec<u8>>,
) -> Result<(), FileFault>
    ensures read { IfOk result
        (λ _. with_line (names_view names.old) (number, line.now) ≡ Ok (names_view names.new)) }
    ensures refused { IfErr result (IsKnownFault (with_line (names_view names.old) (number, line.now))) }
{
    let text = without_blanks(strip_carriage_return(line));
    if text.is_empty() || begins_with_byte(b'#', text) {
        return Ok(());
    }
    if !is_known_name(text) {
        return Err(FileFault::NoName(number));
    }
    push_name(alloc, text, names)?;
    Ok(())
}

/// Adds a name.
fn push_name(alloc: Global, name: &[u8], names: &mut Vec<Vec<u8>>) -> Result<(), AllocError>
    ensures { OnOk result (names_view names.new ≡ names_view names.old ++ name.now ∷ []) }
{
    let own = Vec::from_slice(alloc, name)?;
    names.push(own)?;
    Ok(())
}

/// Whether a text that is not empty may be the name of a variable: it has no blank, no `=` and no byte 0.
fn is_known_name(text: &[u8]) -> bool
    ensures { result ≡ is_known_name text.now }
{
    !(contains_byte(b' ', text)
        || contains_byte(b'\t', text)
        || contains_byte(b'=', text)
        || contains_byte(0, text))
}
