//! Locks on the device of the first copy and on the lock files: when they are taken and let go, and how long they are waited for.

use crate::disk::{Named, disk_with, run};
use std::test::Fail;

/// Files besides the configuration and the copies.
const MORE: [Named<'static>; 2] = [("/var/lock/fw_printenv.lock", b""), ("text", b"a=2\n")];

/// Calls, and what happens to locks and bytes. The configuration is read to its end by two reads, then the device of the first
/// copy and the lock file are locked and each copy is read by one; before a write both are read again. A restore reads its text
/// by two more; a report lets go of the locks once it has read what follows the copies.
const EVENTS: &str = "\
fwenv printenv -c config => rrsfs/rruu
fwenv export -c config => rrsfs/rruu
fwenv setenv -c config a 2 => rrafs/rrrrwuu
fwenv session -c config => rrsfs/rruu
fwenv session -c config --write => rrafs/rruuafs/rrwuu
fwenv status -c config => rrsfs/rrrruu
fwenv status first => sfrru
fwenv restore -c config text => rrafs/rrrrrrwuu
fw_printenv -c config => rrsfs/rruu
fw_setenv -c config a 2 => rrafa/rrrrwuu
fw_printenv -l  -c config => rrsfrru
";

#[test]
fn copies_are_read_and_written_under_a_lock(rt: HostRuntime) -> Result<(), Fail> {
    for row in EVENTS.lines() {
        let (words, events) = row.split_once(" => ").ok_or("no row")?;
        let contents = disk_with(rt.alloc(), &MORE, usize::MAX)?;
        let (status, _, _) = run(rt.alloc(), &contents, words, b"setenv a 2\n.save\n")?;
        assert_eq!(rt; status, 0, "of {words}");
        let now = contents.try_borrow().ok().ok_or("lent")?;
        assert!(rt; now.events.as_slice() == events.as_bytes(), "of {words}");
    }
    Ok(())
}

#[test]
fn a_lock_that_is_waited_for_is_told(rt: HostRuntime) -> Result<(), Fail> {
    let contents = disk_with(rt.alloc(), &MORE, usize::MAX)?;
    contents.try_borrow_mut().ok().ok_or("lent")?.is_held = true;
    let (status, output, errors) = run(rt.alloc(), &contents, "fwenv printenv -c config", b"")?;
    let said = "fwenv: waiting for first, which another program has locked\n";
    assert!(rt; status == 0 && output.as_slice() == b"a=1\n".as_slice());
    assert!(rt; errors.as_slice() == said.as_bytes());
    Ok(())
}
