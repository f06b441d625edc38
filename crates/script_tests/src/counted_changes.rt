//! What a session counts: the names that a run changed which a limit stops, and the entries of an import (docs/undo.md).

use env_session::{ImportEnding, ImportReport};
use envcfg_core::parse_import;
use hush_run::{Ending, Limits, Stubs, run};
use hush_syntax::Script;
use std::test::Fail;
use test_support::erased_session;

const COUNTING: &[u8] = b"setenv n 0; while true; do setexpr n $n + 1; done";

#[test]
fn a_run_that_is_stopped_changed_one_name(rt: HostRuntime) -> Result<(), Fail> {
    let mut session = erased_session(rt.alloc(), 4096, "")?;
    let stubs = Stubs::parse(rt.alloc(), b"")?;
    let limits = Limits::new(10, 4, 256, 4096).ok_or("no limits")?;
    let script = Script::parse(rt.alloc(), Vec::from_slice(rt.alloc(), COUNTING)?)?;
    let outcome = run(rt.alloc(), &mut session, &script, &stubs, &limits);
    assert_eq!(rt;
        (outcome.ending, outcome.status, outcome.steps),
        (Ending::Steps, 0, 10)
    );
    assert_eq!(rt; session.vars().get(b"n"), Some(b"4".as_slice()));
    assert_eq!(rt; session.touched(), 1);
    assert!(rt; session.undo().is_ok());
    assert!(rt; session.vars().get(b"n").is_none());
    Ok(())
}

#[test]
fn an_import_counts_its_entries(rt: HostRuntime) -> Result<(), Fail> {
    let mut session = erased_session(rt.alloc(), 4096, "")?;
    let entries = parse_import(rt.alloc(), b".flags=a:d\na=x\nb=1\n")?;
    let ImportReport {
        done,
        refused,
        ending,
    } = session.import(&entries);
    assert_eq!(rt; (done, refused), (3, 1));
    assert_eq!(rt; ending, ImportEnding::Done);
    assert!(rt; session.vars().get(b"a").is_none());
    assert_eq!(rt; session.vars().get(b"b"), Some(b"1".as_slice()));
    Ok(())
}
