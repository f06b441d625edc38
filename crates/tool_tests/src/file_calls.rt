//! What the program does when each of its calls of files fails.

use crate::disk::{ERASED, ONE, TWO, disk_with, fails_with, has_copies, run};
use std::test::Fail;

const SET: &str = "fwenv setenv -c config a 2";

const STATUS: &str = "fwenv status -c config";

const REPORT: &[u8] = b"first copy   first at 0x0, 32 bytes: good, flag 1, current\n\
                        second copy  second at 0x0, 32 bytes: checksum is wrong, erased (all bytes FF)\n\
                        variables    1, 5 of 27 bytes used\n\
                        next save    second copy, flag 2\n";

/// The calls of a change, from one up to another, and what can't be done where one of them fails: the configuration is opened and read
/// to its end by two reads; the device of the first copy is opened to be locked, and used without if that fails, and so is each
/// lock file, for which two calls are made if it isn't there; each copy is opened, measured, sought and read. Then both devices are
/// opened and measured, and that of the second copy, which changes, is flushed; each copy is sought and read again; the second one is
/// measured, sought, written and flushed.
const CHANGING: [(usize, usize, &str); 7] = [
    (0, 3, "read config"),
    (8, 12, "read first"),
    (12, 16, "read second"),
    (16, 18, "write first"),
    (18, 21, "write second"),
    (21, 23, "write first"),
    (23, 29, "write second"),
];

#[test]
fn each_call_of_a_change_fails_in_turn(rt: HostRuntime) -> Result<(), Fail> {
    for (from, to, what) in CHANGING {
        for call in from..to {
            let contents = disk_with(rt.alloc(), &[], call)?;
            let said = format!(in rt.alloc(); "fwenv: cannot {what}\n")?;
            fails_with(&rt, &contents, SET, said.as_bytes())?;
            // the last call is the one that flushes what was written
            has_copies(&rt, &contents, ONE, if call < 28 { ERASED } else { TWO })?;
        }
    }
    for call in [3, 4, 5, 6, 7, 29] {
        let contents = disk_with(rt.alloc(), &[], call)?;
        let (status, output, errors) = run(rt.alloc(), &contents, SET, b"")?;
        assert!(rt; status == 0 && output.is_empty() && errors.is_empty());
        has_copies(&rt, &contents, ONE, TWO)?;
        // the last call is the one that flushes what was written
        assert!(rt; call < 29 || contents.try_borrow().ok().ok_or("lent")?.calls == 29);
    }
    Ok(())
}

/// The calls of a report up to the reads of the copies are those of a change, but no lock file is made. Then each device is opened, sought and read once more for
/// what follows its copy, and where that fails the report is of the copy alone.
const REPORTING: [(usize, usize, &str); 3] = [
    (0, 3, "config"),
    (6, 10, "first"),
    (10, 14, "second"),
];

#[test]
fn copies_are_reported_as_far_as_they_can_be_read(rt: HostRuntime) -> Result<(), Fail> {
    for (from, to, path) in REPORTING {
        for call in from..to {
            let contents = disk_with(rt.alloc(), &[], call)?;
            let said = format!(in rt.alloc(); "fwenv: cannot read {path}: permission denied\n")?;
            fails_with(&rt, &contents, STATUS, said.as_bytes())?;
        }
    }
    for call in [3, 4, 5, 14, 15, 16, 17, 18, 19, 20] {
        let contents = disk_with(rt.alloc(), &[], call)?;
        let (status, output, errors) = run(rt.alloc(), &contents, STATUS, b"")?;
        assert!(rt; status == 0 && output.as_slice() == REPORT && errors.is_empty());
        has_copies(&rt, &contents, ONE, ERASED)?;
        // the last call is the read of what follows the second copy
        assert!(rt; call < 20 || contents.try_borrow().ok().ok_or("lent")?.calls == 20);
    }
    Ok(())
}
