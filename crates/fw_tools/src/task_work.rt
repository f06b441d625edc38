//! The task of a tool, done over a session.
ghost use Rattle.std.specs.Prelude.{◌≡◌, IfOk, MatchResult, map};
ghost use Rattle.fw_arguments.specs.Calls.{task_view, texts};
ghost use Rattle.fw_tools.specs.Said.{AreSame};
ghost use Rattle.fw_tools.specs.Subcommands.{Acts};

use crate::halt::Halt;
use crate::printing::print;
use env_session::Session;
use fw_arguments::Task;
use fw_engines::{ToolEnd, export, import_named, restore, set_script, setenv};
use fw_files::{System, read_entries, read_set_script};
use std::alloc::{AllocError, Global};
use std::io::Write;

/// Does a task over the session.
pub(crate) fn act<'w, X: System + AllocGlobal, W: Write, E: Write>(
    rt: &X,
    task: Task<'_, 'w>,
    session: &mut Session,
    output: &mut W,
    errors: &mut E,
) -> Result<ToolEnd, Halt<'w>>
    ensures { MatchResult result (λ end. Acts (X.holds rt.now) (task_view task.entry)
        (record { session = session.old; writers = record { output = W.contents output.old; errors = E.contents errors.old } })
        (record { session = session.new; writers = record { output = W.contents output.new; errors = E.contents errors.new } })
        end) (λ _. AreSame (record { output = W.contents output.old; errors = E.contents errors.old })
        (record { output = W.contents output.new; errors = E.contents errors.new })) }
{
    match task {
        Task::Print { names, printing } => Ok(print(
            rt.alloc(),
            session,
            names,
            printing,
            output,
            errors,
        )?),
        Task::Export => Ok(export(rt.alloc(), session, output, errors)),
        Task::Set { name, words } => {
            let words = bytes_of(rt.alloc(), words)?;
            Ok(setenv(rt.alloc(), session, name.as_bytes(), &words, errors))
        }
        Task::SetScript { path } => {
            let entries = read_set_script(rt, path)?;
            Ok(set_script(session, &entries, errors))
        }
        Task::Import { path } => {
            let entries = read_entries(rt, path)?;
            Ok(import_named(rt.alloc(), session, &entries, errors))
        }
        Task::Restore { path } => {
            let entries = read_entries(rt, path)?;
            Ok(restore(rt.alloc(), session, &entries, errors))
        }
    }
}

/// Arguments as bytes.
pub(crate) fn bytes_of<'a>(
    alloc: Global,
    words: Option<&[&'a str]>,
) -> Result<Vec<&'a [u8]>, AllocError>
    ensures { IfOk result (λ bytes. map (λ b. b.now) bytes.items ≡ texts words.entry) }
{
    match words {
        None => Ok(Vec::new(alloc)),
        Some(words) => all_bytes(alloc, words),
    }
}

/// All these arguments as bytes.
fn all_bytes<'a>(alloc: Global, words: &[&'a str]) -> Result<Vec<&'a [u8]>, AllocError>
    ensures { IfOk result (λ bytes. map (λ b. b.now) bytes.items ≡ map (λ w. w.now) words.now) }
{
    let mut bytes = Vec::new(alloc);
    for word in words {
        bytes.push(word.as_bytes())?;
    }
    Ok(bytes)
}
