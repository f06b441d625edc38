//! A list of requests of every kind: what each is answered, and what an undo brings back (docs/undo.md).

use env_requests::{Reply, Request, obey_all};
use env_session::{ImportReport, Side};
use envcfg_core::TextEntry;
use envvars_core::{Memory, Refusal};
use hush_run::{Limits, Stubs};
use hush_syntax::Script;
use std::alloc::Global;
use std::test::Fail;
use test_support::erased_session;

/// What the requests of the test are answered, each with a newline after it.
const ANSWERS: &[u8] =
    b"written\nmarked 1\nSaved copy 1\n12\nran\na=1\nb=2\nprinted\nwritten\nbad type\n\
      imported 2, refused 1\nsaved first\nundone\na=1\nprinted\nundone\nprinted\nundone\nrefused\n";

/// A write of a value without force.
fn write(alloc: Global, name: &[u8], value: &[u8]) -> Result<Request, Memory> {
    Ok(Request::Write {
        name: Vec::from_slice(alloc, name)?,
        value: Some(Vec::from_slice(alloc, value)?),
        force: false,
    })
}

/// An import of entries.
fn import(alloc: Global, lines: &[(&[u8], &[u8])]) -> Result<Request, Memory> {
    let mut entries = Vec::new(alloc);
    for (name, value) in lines {
        entries.push(TextEntry {
            name: Vec::from_slice(alloc, name)?,
            value: Some(Vec::from_slice(alloc, value)?),
            line: 1,
        })?;
    }
    Ok(Request::Import(entries))
}

/// A run of a script.
fn run(alloc: Global, script: &[u8]) -> Result<Request, Fail> {
    let script = Script::parse(alloc, Vec::from_slice(alloc, script)?)?;
    Ok(Request::Run(script))
}

/// Requests of each kind: a mark after the first write, what a type refuses, and undos to the mark, to the opening, and to a mark
/// that is gone.
fn requests(alloc: Global) -> Result<Vec<Request>, Fail> {
    let mut requests = Vec::new(alloc);
    requests.push(write(alloc, b"a", b"1")?)?;
    requests.push(Request::Mark)?;
    requests.push(run(alloc, b"setenv b 2; saveenv; echo $a$b")?)?;
    requests.push(Request::Print)?;
    requests.push(write(alloc, b".flags", b"n:d")?)?;
    requests.push(write(alloc, b"n", b"x")?)?;
    requests.push(import(alloc, &[(b"c", b"3"), (b"n", b"y")])?)?;
    requests.push(Request::Save)?;
    requests.push(Request::UndoTo(1))?;
    requests.push(Request::Print)?;
    requests.push(Request::Undo)?;
    requests.push(Request::Print)?;
    requests.push(Request::UndoTo(0))?;
    requests.push(Request::UndoTo(1))?;
    Ok(requests)
}

/// Adds what a reply says.
fn push_reply(alloc: Global, text: &mut Vec<u8>, reply: &Reply) -> Result<(), Memory> {
    let words: &[u8] = match reply {
        Reply::Ran(outcome) => {
            text.extend_from_slice(&outcome.text)?;
            b"ran\n"
        }
        Reply::Wrote(Ok(())) => b"written\n",
        Reply::Wrote(Err(Refusal::BadType)) => b"bad type\n",
        Reply::Imported(ImportReport { done, refused, .. }) => {
            let counts = format!(in alloc; "imported {done}, refused {refused}")?;
            text.extend_from_slice(counts.as_bytes())?;
            b"\n"
        }
        Reply::Saved(Ok(Side::First)) => b"saved first\n",
        Reply::Printed(Ok(lines)) => {
            text.extend_from_slice(lines)?;
            b"printed\n"
        }
        Reply::Marked(Ok(1)) => b"marked 1\n",
        Reply::Undone(Ok(())) => b"undone\n",
        _ => b"refused\n",
    };
    text.extend_from_slice(words)?;
    Ok(())
}

/// What all replies say.
fn told(alloc: Global, replies: &[Reply]) -> Result<Vec<u8>, Memory> {
    let mut text = Vec::new(alloc);
    for reply in replies {
        push_reply(alloc, &mut text, reply)?;
    }
    Ok(text)
}

#[test]
fn requests_are_obeyed_one_after_the_other(rt: HostRuntime) -> Result<(), Fail> {
    let mut session = erased_session(rt.alloc(), 4096, "")?;
    let before = Vec::from_slice(rt.alloc(), session.copy(Side::First).ok_or("no copy")?)?;
    let stubs = Stubs::parse(rt.alloc(), b"")?;
    let limits = Limits::new(9, 2, 9, 99).ok_or("no limits")?;
    let requests = requests(rt.alloc())?;
    let replies = obey_all(rt.alloc(), &mut session, &requests, &stubs, &limits)?;
    assert_eq!(rt; told(rt.alloc(), &replies)?.as_slice(), ANSWERS);
    assert_eq!(rt; session.copy(Side::First), Some(before.as_slice()));
    assert_eq!(rt; session.touched(), 0);
    Ok(())
}
