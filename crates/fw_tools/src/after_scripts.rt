//! Scripts of files, which a system may run once it has booted.
ghost use Rattle.std.specs.Prelude.{◌≡◌, ◌++◌, ◌∷◌, [], IfOk, OnOk, map};
ghost use Rattle.hush_syntax.specs.Scripts.{tree_of};
ghost use Rattle.fw_arguments.specs.DryRuns.{texts};
ghost use Rattle.fw_tools.specs.PowerOns.{AddsScriptOf, AreScriptsOf, IsScriptOf};

use crate::halt::Halt;
use crate::script_source::script_in;
use fw_files::{System, read_text};
use hush_syntax::{Bodies, Script};
use std::alloc::AllocError;

/// The scripts of these files.
pub(crate) fn scripts_of<'w, X: System + AllocGlobal>(
    rt: &X,
    bodies: Bodies,
    paths: Option<&[&'w str]>,
) -> Result<Vec<Script>, Halt<'w>>
    ensures { IfOk result (λ scripts. AreScriptsOf (X.holds rt.now) bodies (texts paths.entry) (map tree_of scripts.items)) }
{
    match paths {
        None => Ok(Vec::new(rt.alloc())),
        Some(paths) => all_scripts(rt, bodies, paths),
    }
}

/// The same of paths that are there.
fn all_scripts<'w, X: System + AllocGlobal>(
    rt: &X,
    bodies: Bodies,
    paths: &[&'w str],
) -> Result<Vec<Script>, Halt<'w>>
    ensures { IfOk result (λ scripts. AreScriptsOf (X.holds rt.now) bodies (map (λ p. p.now) paths.now) (map tree_of scripts.items)) }
{
    let mut scripts = Vec::new(rt.alloc());
    for path in paths {
        push_script(rt, bodies, path, &mut scripts)?;
    }
    Ok(scripts)
}

/// Appends the script of a file.
fn push_script<'w, X: System + AllocGlobal>(
    rt: &X,
    bodies: Bodies,
    path: &'w str,
    scripts: &mut Vec<Script>,
) -> Result<(), Halt<'w>>
    ensures { OnOk result (AddsScriptOf (X.holds rt.now) bodies path.now (map tree_of scripts.old.items) (map tree_of scripts.new.items)) }
{
    let script = script_of_file(rt, bodies, path)?;
    push_parsed(script, scripts)?;
    Ok(())
}

/// Appends a script.
fn push_parsed(script: Script, scripts: &mut Vec<Script>) -> Result<(), AllocError>
    ensures { OnOk result (map tree_of scripts.new.items ≡ map tree_of scripts.old.items ++ tree_of script ∷ []) }
{
    scripts.push(script)?;
    Ok(())
}

/// The script of a file.
fn script_of_file<'w, X: System + AllocGlobal>(
    rt: &X,
    bodies: Bodies,
    path: &'w str,
) -> Result<Script, Halt<'w>>
    ensures { IfOk result (λ script. IsScriptOf (X.holds rt.now) bodies path.now (tree_of script)) }
{
    match read_text(rt, path) {
        Ok(text) => script_in(rt.alloc(), bodies, path, text),
        Err(fault) => Err(Halt::at(path, fault)),
    }
}
