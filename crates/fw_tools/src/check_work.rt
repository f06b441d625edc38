//! `check`: the scripts of an environment, or those of files, are checked before anything runs.
ghost use Rattle.std.specs.Prelude.{◌≡◌, IfOk, MatchResult, OnOk, map, option_map};
ghost use Rattle.fw_arguments.specs.DryRuns.{texts};
ghost use Rattle.envcfg_core.specs.Entries.{entry_view};
ghost use Rattle.fw_check.specs.EntryPlaces.{text_view};
ghost use Rattle.fw_check.specs.FileChecks.{scripts_view};
ghost use Rattle.fw_files.specs.Source.{kept_view};
ghost use Rattle.fw_arguments.specs.Checks.{environment_check_view, file_check_view};
ghost use Rattle.fw_tools.specs.CheckRuns.{AddsScriptAt, AreScriptsAt, ChecksFile, ChecksOver, check_status, text_at, text_of};
ghost use Rattle.fw_tools.specs.Said.{AreSame, Says};

use crate::check_rules::{hardware_if_given, known_names, rules_with};
use crate::halt::Halt;
use crate::task_work::bytes_of;
use crate::tool_messages::report;
use env_session::Session;
use fw_arguments::{EnvironmentCheck, FileCheck, STANDARD_INPUT};
use fw_check::{EnvironmentText, FileScript, check, check_files};
use fw_engines::ToolEnd;
use fw_files::{DefaultText, Stop, System, read_text};
use std::io::Write;

/// The exit status of a check that can't be made, or whose findings can't be printed.
pub(crate) const UNCHECKED: u8 = 2;

/// The text that is all of an environment, if it is one for import in a file. Standard input has no places.
pub(crate) fn environment_text<'t>(
    image: Option<u32>,
    path: Option<&'t str>,
    kept: &'t Option<DefaultText>,
) -> Option<EnvironmentText<'t>>
    ensures { option_map text_view result ≡ text_of image (option_map (λ p. p.now) path.entry) (kept_view kept.now) }
{
    match (image, path, kept) {
        (Some(_), Some(path), Some(kept)) => text_at(path, kept),
        _ => None,
    }
}

/// The same of a text that was read at this path.
fn text_at<'t>(path: &'t str, kept: &'t DefaultText) -> Option<EnvironmentText<'t>>
    ensures { option_map text_view result
        ≡ text_at path.now (record
        { text = kept.now.text.items; entries = map entry_view kept.now.entries.items }) }
{
    if path == STANDARD_INPUT {
        None
    } else {
        Some(EnvironmentText {
            path: path.as_bytes(),
            text: &kept.text,
            entries: &kept.entries,
        })
    }
}

/// Checks the scripts of a session's environment, which may be all of a text, and those in files over it, and answers the
/// exit status.
pub(crate) fn check_session<'w, X: System + AllocGlobal, W: Write, E: Write>(
    rt: &X,
    session: &Session,
    text: Option<EnvironmentText<'_>>,
    asked: &EnvironmentCheck<'_, 'w>,
    output: &mut W,
    errors: &mut E,
) -> Result<u8, Halt<'w>>
    ensures { MatchResult result
        (ChecksOver (X.holds rt.now) (environment_check_view asked.now) (option_map text_view text.entry) session.now
        (record { output = W.contents output.old; errors = E.contents errors.old })
        (record { output = W.contents output.new; errors = E.contents errors.new }))
        (λ _. AreSame (record { output = W.contents output.old; errors = E.contents errors.old })
        (record { output = W.contents output.new; errors = E.contents errors.new })) }
{
    let given = hardware_if_given(rt, asked.stand_ins, asked.board)?;
    let known = known_names(rt, asked.known)?;
    let names = bytes_of(rt.alloc(), asked.names)?;
    let scripts = given_scripts(rt, asked.scripts)?;
    let end = check(
        rt.alloc(),
        rules_with(asked.shell, &given, &known),
        session.vars(),
        text,
        asked.choice,
        &names,
        &scripts,
        output,
        errors,
    );
    Ok(leave(end, errors))
}

/// Checks the scripts in files alone, and answers the exit status.
pub(crate) fn check_scripts<'w, X: System + AllocGlobal, W: Write, E: Write>(
    rt: &X,
    asked: &FileCheck<'_, 'w>,
    output: &mut W,
    errors: &mut E,
) -> Result<u8, Halt<'w>>
    ensures { MatchResult result (ChecksFile (X.holds rt.now) (file_check_view asked.now)
        (record { output = W.contents output.old; errors = E.contents errors.old })
        (record { output = W.contents output.new; errors = E.contents errors.new }))
        (λ _. AreSame (record { output = W.contents output.old; errors = E.contents errors.old })
        (record { output = W.contents output.new; errors = E.contents errors.new })) }
{
    let given = hardware_if_given(rt, asked.stand_ins, asked.board)?;
    let scripts = scripts_at(rt, asked.paths)?;
    let end = check_files(
        rt.alloc(),
        rules_with(asked.shell, &given, &[]),
        asked.choice,
        &scripts,
        output,
        errors,
    );
    Ok(leave(end, errors))
}

/// The scripts in the files of these paths, if some are given.
fn given_scripts<'w, X: System + AllocGlobal>(
    rt: &X,
    paths: Option<&[&'w str]>,
) -> Result<Vec<FileScript<'w>>, Halt<'w>>
    ensures { IfOk result (λ scripts. AreScriptsAt (X.holds rt.now) (texts paths.entry) (scripts_view scripts.items)) }
{
    match paths {
        Some(paths) => scripts_at(rt, paths),
        None => Ok(Vec::new(rt.alloc())),
    }
}

/// The scripts in the files of these paths.
fn scripts_at<'w, X: System + AllocGlobal>(
    rt: &X,
    paths: &[&'w str],
) -> Result<Vec<FileScript<'w>>, Halt<'w>>
    ensures { IfOk result (λ scripts. AreScriptsAt (X.holds rt.now) (map (λ p. p.now) paths.now) (scripts_view scripts.items)) }
{
    let mut scripts = Vec::new(rt.alloc());
    for path in paths {
        add_script(rt, path, &mut scripts)?;
    }
    Ok(scripts)
}

/// Appends the script in the file of this path.
fn add_script<'w, X: System + AllocGlobal>(
    rt: &X,
    path: &'w str,
    scripts: &mut Vec<FileScript<'w>>,
) -> Result<(), Halt<'w>>
    ensures { OnOk result
        (AddsScriptAt (X.holds rt.now) path.now (scripts_view scripts.old.items) (scripts_view scripts.new.items)) }
{
    let text = match read_text(rt, path) {
        Ok(text) => text,
        Err(fault) => return Err(Halt::at(path, fault)),
    };
    let path = path.as_bytes();
    match scripts.push(FileScript { path, text }) {
        Ok(()) => Ok(()),
        Err(_) => Err(Halt::Files(Stop::Memory)),
    }
}

/// Reports what stopped a check, if anything did, and answers the exit status.
fn leave<E: Write>(end: ToolEnd, errors: &mut E) -> u8
    ensures status { result ≡ check_status end }
    ensures said { Says end.fault (E.contents errors.old) (E.contents errors.new) }
{
    let status = report(end, errors);
    if end.fault.is_some() {
        UNCHECKED
    } else {
        status
    }
}
