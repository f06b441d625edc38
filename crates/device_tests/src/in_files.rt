//! Copies that are read from a file, and written back to one, and to two as one device.

use crate::in_memory::COPIES;
use device_files::{DeviceFile, OpenDevice, Unknown};
use devices::{Change, Device, read_copy, write_back};
use std::fs::{self, File, OpenOptions};
use std::io;
use std::test::Fail;

const ONE: &str = "device_tests_one.img";

const OTHER: &str = "device_tests_other.img";

const READ: &str = "device_tests_read.img";

/// A file with these bytes, opened to be written in place.
fn opened(rt: &HostRuntime, path: &str, bytes: &[u8]) -> io::Result<DeviceFile<File>> {
    fs::write(rt, path, bytes)?;
    let file = OpenOptions::new().read(true).write(true).open(rt, path)?;
    Ok(DeviceFile {
        file,
        length: bytes.len(),
        is_flushed: false,
    })
}

#[test]
fn a_file_is_written(rt: HostRuntime) -> Result<(), Fail> {
    let alloc = rt.alloc();
    let one = opened(&rt, ONE, b"..ab..cd")?;
    let Ok(mut device) = OpenDevice::<_, Unknown>::settled(one, None) else {
        panic!(rt; "not settled");
    };
    let change = Change {
        at: 2,
        as_read: b"ab",
        to_write: b"AB",
    };
    assert!(rt; write_back(alloc, &mut device, &[change]).is_ok());
    assert_eq!(rt; fs::read(&rt, ONE)?.as_slice(), b"..AB..cd".as_slice());
    fs::remove_file(&rt, ONE)?;
    Ok(())
}

#[test]
fn two_files_are_written(rt: HostRuntime) -> Result<(), Fail> {
    let alloc = rt.alloc();
    let one = opened(&rt, ONE, b"..ab")?;
    let other = opened(&rt, OTHER, b"cd..")?;
    let Ok(mut device) = OpenDevice::<_, Unknown>::settled(one, Some(other)) else {
        panic!(rt; "not settled");
    };
    let one = Change {
        at: 2,
        as_read: b"ab",
        to_write: b"AB",
    };
    let other = Change {
        at: 4,
        as_read: b"cd",
        to_write: b"CD",
    };
    assert!(rt; write_back(alloc, &mut device, &[other, one]).is_ok());
    assert_eq!(rt; fs::read(&rt, ONE)?.as_slice(), b"..AB".as_slice());
    assert_eq!(rt; fs::read(&rt, OTHER)?.as_slice(), b"CD..".as_slice());
    fs::remove_file(&rt, ONE)?;
    fs::remove_file(&rt, OTHER)?;
    Ok(())
}

#[test]
fn a_copy_is_read_from_a_file(rt: HostRuntime) -> Result<(), Fail> {
    let alloc = rt.alloc();
    fs::write(&rt, READ, b"..abc")?;
    let file = OpenOptions::new().read(true).open(&rt, READ)?;
    let mut device = OpenDevice::<_, Unknown>::only_read(file);
    assert!(rt; matches!(device.length(), Ok(5)));
    for (start, size, wanted) in COPIES {
        let copy = read_copy(alloc, &mut device, start, size);
        assert!(rt;
            matches!(&copy, Ok(found) if found.as_deref() == wanted),
            "{size} bytes from {start}"
        );
    }
    fs::remove_file(&rt, READ)?;
    Ok(())
}
