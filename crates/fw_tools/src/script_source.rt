//! The script that `run` is given: its text, and the text read as a script.
ghost use Rattle.std.specs.Prelude.{◌≡◌, ◌++◌, IfOk, MatchResult, Some, map};
ghost use Rattle.std.specs.List.{flat_map};
ghost use Rattle.hush_syntax.specs.Reading.{read_in};
ghost use Rattle.hush_syntax.specs.Scripts.{tree_of};
ghost use Rattle.fw_arguments.specs.DryRuns.{script_view};
ghost use Rattle.fw_tools.specs.ScriptRuns.{IsHaltOf, IsNoScript, IsTextOf, name_of_script, quoted, quoted_name, starts};

use crate::halt::Halt;
use fw_arguments::GivenScript;
use fw_files::{FileFault, Stop, System, read_text};
use hush_syntax::{Bodies, FaultKind, Script};
use std::alloc::{AllocError, Global};

/// The name that a script has in a message that it isn't one.
pub(crate) fn name_of_script<'w>(given: &GivenScript<'_, 'w>) -> &'w str
    ensures { result.now ≡ name_of_script (script_view given.now) }
{
    match *given {
        GivenScript::Names(_) => "run",
        GivenScript::Words(_) => "-e",
        GivenScript::File(path) => path,
    }
}

/// The path of its file, if there is one.
fn path_of_script<'w>(given: &GivenScript<'_, 'w>) -> &'w str {
    match *given {
        GivenScript::File(path) => path,
        _ => "",
    }
}

/// The text of a script.
pub(crate) fn read_script<'w, X: System + AllocGlobal>(
    rt: &X,
    given: &GivenScript<'_, 'w>,
) -> Result<Vec<u8>, Halt<'w>>
    ensures { MatchResult result (λ text. IsTextOf (X.holds rt.now) (script_view given.now) text.items) IsNoScript }
{
    match read_given(rt, given) {
        Ok(text) => Ok(text),
        Err(fault) => Err(Halt::at(path_of_script(given), fault)),
    }
}

/// The same, with its fault alone.
fn read_given<X: System + AllocGlobal>(
    rt: &X,
    given: &GivenScript<'_, '_>,
) -> Result<Vec<u8>, FileFault>
    ensures { IfOk result (λ text. IsTextOf (X.holds rt.now) (script_view given.now) text.items) }
{
    match *given {
        GivenScript::Names(names) => Ok(starts(rt.alloc(), names)?),
        GivenScript::Words(text) => Ok(Vec::from_slice(rt.alloc(), text.as_bytes())?),
        GivenScript::File(path) => read_text(rt, path),
    }
}

/// A `run` of these names, each in quotes.
fn starts(alloc: Global, names: &[&str]) -> Result<Vec<u8>, AllocError>
    ensures { IfOk result (λ text. text.items ≡ starts (map (λ n. n.now) names.now)) }
{
    let mut text = Vec::from_slice(alloc, b"run")?;
    for name in names {
        push_name(&mut text, name.as_bytes())?;
    }
    Ok(text)
}

/// Appends a name in quotes.
fn push_name(text: &mut Vec<u8>, name: &[u8]) -> Result<(), AllocError>
    ensures { IfOk result (λ _. text.new.items ≡ text.old.items ++ quoted_name name.now) }
{
    text.extend_from_slice(b" '")?;
    push_inside(text, name)?;
    text.extend_from_slice(b"'")?;
    Ok(())
}

/// Appends what is in the quotes.
fn push_inside(text: &mut Vec<u8>, name: &[u8]) -> Result<(), AllocError>
    ensures { IfOk result (λ _. text.new.items ≡ text.old.items ++ flat_map quoted name.now) }
{
    for byte in name {
        push_quoted(text, *byte)?;
    }
    Ok(())
}

/// Appends a byte that is in quotes; a quote is outside of them.
fn push_quoted(text: &mut Vec<u8>, byte: u8) -> Result<(), AllocError>
    ensures { IfOk result (λ _. text.new.items ≡ text.old.items ++ quoted byte) }
{
    if byte == b'\'' {
        text.extend_from_slice(b"'\\''")?;
    } else {
        text.push(byte)?;
    }
    Ok(())
}

/// The script in a text, if its bodies may be so; or where and why the text of this name isn't one.
pub(crate) fn script_in<'w>(
    alloc: Global,
    bodies: Bodies,
    name: &'w str,
    text: Vec<u8>,
) -> Result<Script, Halt<'w>>
    ensures { MatchResult result (λ script. read_in bodies text.items ≡ Some (tree_of script)) (IsHaltOf bodies name.now text.items) }
{
    let copy = Vec::from_slice(alloc, &text)?;
    match Script::parse_in(alloc, copy, bodies) {
        Ok(script) => Ok(script),
        Err(fault) => match fault.kind {
            FaultKind::Memory => Err(Halt::Files(Stop::Memory)),
            _ => Err(Halt::Script(name, text, fault)),
        },
    }
}
