//! What only library calls show of sessions: how many names changed, that `check` says what `write` answers, the value before a write, the
//! numbers of marks, and starts that are refused (docs/variables.md, docs/undo.md).

use env_session::{MarkFault, Session, Side, StartFault, Stored, UndoFault};
use envimg_core::{Choice, Geometry, Layout};
use envvars_core::{Olds, Refusal, Vars};
use std::alloc::Global;
use std::test::Fail;
use test_support::erased_session;

/// A name, its new value, what refuses it, and how many names are changed after it.
type Write = (&'static [u8], Option<&'static [u8]>, Option<Refusal>, usize);

/// Writes one after the other where `a=xxxxx` and `b=1` fill the room.
const FULL: [Write; 6] = [
    (b"a", Some(b"1"), None, 1),
    (b"a", Some(b"2"), None, 1),
    (b"b", Some(b"xxxxx"), None, 2),
    (b"c", Some(b"1"), Some(Refusal::Full), 2),
    (b"b", None, None, 2),
    (b"q", None, None, 2),
];

/// Writes that change a name and change it again, or nothing.
const AGAIN: [Write; 6] = [
    (b"a", None, None, 0),
    (b"a", Some(b"1"), None, 1),
    (b"a", Some(b"1"), None, 1),
    (b"a", Some(b"2"), None, 1),
    (b"a", None, None, 1),
    (b"a", None, None, 1),
];

/// The size of an image, the default environment, and writes.
const SESSIONS: [(u32, &str, [Write; 6]); 2] = [(17, "a=xxxxx;b=1", FULL), (64, "", AGAIN)];

#[test]
fn changed_names_are_counted(rt: HostRuntime) -> Result<(), Fail> {
    for (size, defaults, writes) in SESSIONS {
        let mut session = erased_session(rt.alloc(), size, defaults)?;
        for (name, value, refusal, touched) in writes {
            assert_eq!(rt; session.check(name, value, false).err(), refusal);
            assert_eq!(rt; session.write(name, value, false).err(), refusal);
            assert_eq!(rt; session.touched(), touched);
        }
        assert!(rt; session.undo().is_ok());
        assert_eq!(rt; session.touched(), 0);
    }
    Ok(())
}

/// Whether a variable has this value.
fn has(session: &Session, name: &[u8], value: &[u8]) -> bool {
    match session.vars().get(name) {
        Some(found) => found == value,
        None => false,
    }
}

/// Whether the first copy was never written.
fn is_erased(session: &Session) -> bool {
    match session.copy(Side::First) {
        Some(bytes) => bytes.iter().all(|byte| *byte == 0xFF),
        None => false,
    }
}

#[test]
fn an_undo_in_a_full_room(rt: HostRuntime) -> Result<(), Fail> {
    let mut session = erased_session(rt.alloc(), 17, "a=xxxxx;b=1")?;
    session.write(b"a", Some(b"1"), false)?;
    session.write(b"b", Some(b"xxxxx"), false)?;
    assert_eq!(rt; session.vars().used(), 13);
    assert!(rt; session.undo().is_ok());
    assert!(rt; has(&session, b"a", b"xxxxx") && has(&session, b"b", b"1"));
    assert!(rt; is_erased(&session));
    Ok(())
}

#[test]
fn an_undo_of_a_save(rt: HostRuntime) -> Result<(), Fail> {
    let mut session = erased_session(rt.alloc(), 16, "a=1")?;
    session.write(b"a", None, false)?;
    assert_eq!(rt; session.save(), Ok(Side::First));
    assert!(rt; session.undo().is_ok());
    assert!(rt; has(&session, b"a", b"1"));
    assert!(rt; is_erased(&session));
    assert_eq!(rt; session.current(), Choice::Neither);
    Ok(())
}

#[test]
fn a_mark_counts_anew(rt: HostRuntime) -> Result<(), Fail> {
    let mut session = erased_session(rt.alloc(), 64, "")?;
    session.write(b"a", Some(b"1"), false)?;
    assert_eq!(rt; session.mark(), Ok(1));
    assert_eq!(rt; session.touched(), 0);
    session.write(b"a", Some(b"2"), false)?;
    session.write(b"b", Some(b"1"), false)?;
    assert_eq!(rt; session.touched(), 2);
    assert_eq!(rt; session.undo_to(1), Ok(()));
    assert_eq!(rt; session.vars().get(b"a"), Some(b"1".as_slice()));
    assert_eq!(rt; session.touched(), 0);
    assert_eq!(rt; session.undo_to(0), Ok(()));
    assert_eq!(rt; session.vars().used(), 1);
    assert_eq!(rt; session.undo_to(1), Err(UndoFault::Gone));
    Ok(())
}

#[test]
fn marks_have_numbers(rt: HostRuntime) -> Result<(), Fail> {
    let mut session = erased_session(rt.alloc(), 64, "")?;
    for number in 1..65u32 {
        assert_eq!(rt; session.mark(), Ok(number));
    }
    assert_eq!(rt; session.mark(), Err(MarkFault::Full));
    assert_eq!(rt; session.undo_to(65), Err(UndoFault::Gone));
    assert_eq!(rt; session.undo_to(3), Ok(()));
    assert_eq!(rt; session.marks(), 3);
    assert_eq!(rt; session.mark(), Ok(4));
    Ok(())
}

/// Why a start over an image of so many bytes FF, of which there have to be 8, with the default variable `a=b` is refused.
fn refused_start(alloc: Global, length: usize) -> Result<Option<StartFault>, Fail> {
    let none = Vars::empty(alloc, 1);
    let mut defaults = Vars::empty(alloc, 64);
    defaults.write(b"a", Some(b"b"), false, &none)?;
    let stored = Stored {
        geometry: Geometry::new(Layout::Single, 8).ok_or("no geometry")?,
        first: b"\xFF".repeat(alloc, length)?,
        second: None,
    };
    match Session::start(alloc, stored, defaults) {
        Ok(_session) => Ok(None),
        Err((_stored, fault)) => Ok(Some(fault)),
    }
}

#[test]
fn starts_that_are_refused(rt: HostRuntime) -> Result<(), Fail> {
    assert_eq!(rt; refused_start(rt.alloc(), 7)?, Some(StartFault::Length));
    assert_eq!(rt;
        refused_start(rt.alloc(), 8)?,
        Some(StartFault::DefaultTooBig)
    );
    Ok(())
}

#[test]
fn the_first_old_value_is_kept(rt: HostRuntime) -> Result<(), Fail> {
    let defaults = Vars::empty(rt.alloc(), 16);
    let mut vars = Vars::empty(rt.alloc(), 16);
    let mut olds = Olds::new(rt.alloc());
    vars.write_kept(b"a", Some(b"1"), false, &defaults, &mut olds)?;
    vars.write_kept(b"a", Some(b"2"), false, &defaults, &mut olds)?;
    assert_eq!(rt; olds.len(), 1);
    assert_eq!(rt; olds.old(b"a"), Some(None));
    assert_eq!(rt; olds.old(b"b"), None);
    Ok(())
}

#[test]
fn a_write_hands_out_the_value_before_it(rt: HostRuntime) -> Result<(), Fail> {
    let defaults = Vars::empty(rt.alloc(), 16);
    let mut vars = Vars::empty(rt.alloc(), 16);
    let first = vars.write(b"k", Some(b"1"), false, &defaults)?;
    assert_eq!(rt; first.name.as_slice(), b"k".as_slice());
    assert!(rt; first.before.is_none());
    let second = vars.write(b"k", None, false, &defaults)?;
    assert!(rt; matches!(&second.before, Some(value) if value.as_slice() == b"1".as_slice()));
    Ok(())
}
