//! Copies that are read from a device in memory, and written back to one that may fail.

use devices::{Change, Cut, Fault, Memory, read_copy, write_back};
use std::test::Fail;

/// Where a copy begins in a device of five bytes, its size, and what is read.
pub(crate) const COPIES: [(usize, usize, Option<&[u8]>); 6] = [
    (0, 5, Some(b"..abc")),
    (2, 2, Some(b"ab")),
    (2, 3, Some(b"abc")),
    (3, 3, None),
    (5, 1, None),
    (6, 1, None),
];

/// The call that fails, how many bytes it writes if it is a write, and what is left then: the copies `ab` and `cd` are read
/// again, and then each is written and flushed.
const CUTS: [(usize, usize, &[u8]); 12] = [
    (0, 9, b"..ab..cd"),
    (1, 9, b"..ab..cd"),
    (2, 0, b"..ab..cd"),
    (2, 1, b"..Ab..cd"),
    (2, 2, b"..AB..cd"),
    (2, 9, b"..AB..cd"),
    (3, 9, b"..AB..cd"),
    (4, 0, b"..AB..cd"),
    (4, 1, b"..AB..Cd"),
    (4, 2, b"..AB..CD"),
    (4, 9, b"..AB..CD"),
    (5, 9, b"..AB..CD"),
];

const FIRST: Change<'static> = Change {
    at: 2,
    as_read: b"ab",
    to_write: b"AB",
};

const SECOND: Change<'static> = Change {
    at: 6,
    as_read: b"cd",
    to_write: b"CD",
};

#[test]
fn a_copy_is_read_if_it_lies_inside(rt: HostRuntime) -> Result<(), Fail> {
    let alloc = rt.alloc();
    for (start, size, wanted) in COPIES {
        let mut device = Memory::new(alloc, b"..abc".to_vec(alloc)?);
        let copy = read_copy(alloc, &mut device, start, size);
        assert!(rt;
            matches!(&copy, Ok(found) if found.as_deref() == wanted),
            "{size} bytes from {start}"
        );
    }
    Ok(())
}

#[test]
fn a_copy_is_not_read_if_the_device_fails(rt: HostRuntime) -> Result<(), Fail> {
    let alloc = rt.alloc();
    let cut = Cut { calls: 0, bytes: 0 };
    let mut device = Memory::failing(alloc, b"..abc".to_vec(alloc)?, cut);
    assert!(rt; matches!(read_copy(alloc, &mut device, 2, 2), Err(Fault::Failed)));
    assert!(rt; matches!(read_copy(alloc, &mut device, 2, 2), Ok(Some(_))));
    Ok(())
}

#[test]
fn copies_that_changed_are_written(rt: HostRuntime) -> Result<(), Fail> {
    let alloc = rt.alloc();
    let mut device = Memory::new(alloc, b"..ab..cd..ef..".to_vec(alloc)?);
    let same = Change {
        at: 10,
        as_read: b"ef",
        to_write: b"ef",
    };
    assert!(rt; write_back(alloc, &mut device, &[same, SECOND, FIRST]).is_ok());
    assert_eq!(rt; device.bytes(), b"..AB..CD..ef..".as_slice());
    Ok(())
}

#[test]
fn one_copy_is_torn_by_a_call_that_fails(rt: HostRuntime) -> Result<(), Fail> {
    let alloc = rt.alloc();
    for (calls, bytes, left) in CUTS {
        let cut = Cut { calls, bytes };
        let mut device = Memory::failing(alloc, b"..ab..cd".to_vec(alloc)?, cut);
        let written = write_back(alloc, &mut device, &[FIRST, SECOND]);
        assert!(rt; matches!(written, Err(Fault::Failed)), "call {calls}");
        assert!(rt; device.bytes() == left, "call {calls} after {bytes} bytes");
    }
    Ok(())
}

#[test]
fn a_call_that_fails_later_is_not_made(rt: HostRuntime) -> Result<(), Fail> {
    let alloc = rt.alloc();
    let cut = Cut { calls: 6, bytes: 0 };
    let mut device = Memory::failing(alloc, b"..ab..cd".to_vec(alloc)?, cut);
    assert!(rt; write_back(alloc, &mut device, &[FIRST, SECOND]).is_ok());
    assert_eq!(rt; device.bytes(), b"..AB..CD".as_slice());
    Ok(())
}

#[test]
fn nothing_is_written_if_a_copy_changed(rt: HostRuntime) -> Result<(), Fail> {
    let alloc = rt.alloc();
    let mut device = Memory::new(alloc, b"..ab..cX..".to_vec(alloc)?);
    let second = Change {
        at: 6,
        as_read: b"cd",
        to_write: b"cd",
    };
    let written = write_back(alloc, &mut device, &[FIRST, second]);
    assert!(rt; matches!(written, Err(Fault::Changed)));
    assert_eq!(rt; device.bytes(), b"..ab..cX..".as_slice());
    Ok(())
}
