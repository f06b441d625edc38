//! Files in memory for the program, of which each call can be made to fail, and runs over them.

use crate::opened::{Disk, Opened};
use fw_tools::{OpenDevice, Unknown, program};
use std::alloc::{AllocError, Global};
use std::cell::RefCell;
use std::io;
use std::process::Abort;
use std::test::Fail;

/// A configuration of two copies of 32 bytes.
const CONFIG: &[u8] = b"first 0x0 0x20\nsecond 0x0 0x20\n";

/// A copy of 32 bytes with flag 1 and `a=1`.
pub(crate) const ONE: [u8; 32] =
    *b"\xCD\xBB\x29\x9A\x01a=1\0\0\0\0\0\0\0\0\0\0\0\0\0\0\0\0\0\0\0\0\0\0\0\0";

/// The same with flag 2 and `a=2`.
pub(crate) const TWO: [u8; 32] =
    *b"\x9E\x0D\xC4\xAF\x02a=2\0\0\0\0\0\0\0\0\0\0\0\0\0\0\0\0\0\0\0\0\0\0\0\0";

/// A copy that was never written.
pub(crate) const ERASED: [u8; 32] = [0xFF; 32];

/// A file's path and bytes.
pub(crate) type Named<'a> = (&'static str, &'a [u8]);

/// A disk with these files, and then with the configuration, a good first copy and a second one that was never written; the
/// call `fails` isn't permitted.
pub(crate) fn disk_with(
    alloc: Global,
    more: &[Named<'_>],
    fails: usize,
) -> Result<RefCell<Contents>, AllocError> {
    let mut files = Vec::new(alloc);
    for (path, bytes) in more {
        files.push((*path, Vec::from_slice(alloc, bytes)?))?;
    }
    files.push(("config", Vec::from_slice(alloc, CONFIG)?))?;
    files.push(("first", Vec::from_slice(alloc, &ONE)?))?;
    files.push(("second", Vec::from_slice(alloc, &ERASED)?))?;
    Ok(RefCell::new(Contents {
        files,
        calls: 0,
        fails,
        kind: io::ErrorKind::PermissionDenied,
        is_held: false,
        events: Vec::new(alloc),
    }))
}

/// What a run of the program gives: the status, and what it wrote on both streams. A blank parts two of its words, which begin
/// with its own name.
pub(crate) fn run(
    alloc: Global,
    contents: &RefCell<Contents>,
    words: &str,
    input: &[u8],
) -> Result<(u8, Vec<u8>, Vec<u8>), AllocError> {
    let disk = Disk { alloc, contents };
    let words: Vec<&str> = words.split(' ').collect(alloc)?;
    let mut input: &[u8] = input;
    let mut output = Vec::new(alloc);
    let mut errors = Vec::new(alloc);
    let mut devices: Option<OpenDevice<Opened<'_>, Unknown>> = None;
    let status = program(
        &disk,
        &words,
        &mut devices,
        &mut input,
        &mut output,
        &mut errors,
    );
    Ok((status, output, errors))
}

/// The disk has these copies.
pub(crate) fn has_copies(
    rt: &impl Abort,
    contents: &RefCell<Contents>,
    first: [u8; 32],
    second: [u8; 32],
) -> Result<(), Fail> {
    let now = contents.try_borrow().ok().ok_or("lent")?;
    assert!(rt; now.bytes("first") == first.as_slice());
    assert!(rt; now.bytes("second") == second.as_slice());
    Ok(())
}

/// A run ends with status 1, and this is all that it says.
pub(crate) fn fails_with(
    rt: &(impl Abort + AllocGlobal),
    contents: &RefCell<Contents>,
    words: &str,
    said: &[u8],
) -> Result<(), Fail> {
    let (status, output, errors) = run(rt.alloc(), contents, words, b"")?;
    assert!(rt; errors.as_slice() == said, "of {words}");
    assert!(rt; output.is_empty() && status == 1, "of {words}");
    Ok(())
}

/// What is on a disk.
#[derive(Drop)]
pub(crate) struct Contents {
    /// Paths and bytes.
    pub(crate) files: Vec<(&'static str, Vec<u8>)>,
    /// How many calls of files were made.
    pub(crate) calls: usize,
    /// The call that fails, from 0.
    pub(crate) fails: usize,
    /// Of which kind its error is.
    pub(crate) kind: io::ErrorKind,
    /// Whether another program has a lock on the next file for a second.
    pub(crate) is_held: bool,
    /// What happened to locks and bytes, a letter each: `s` and `a` for a lock that is shared or held alone, and after it the
    /// first letter of the path, `u` where it is let go, `r` for a read and `w` for a write.
    pub(crate) events: Vec<u8>,
}

impl Contents {
    /// Counts a call, and fails where its turn has come.
    pub(crate) fn call(&mut self) -> io::Result<()> {
        let call = self.calls;
        self.calls = call.wrapping_add(1);
        if call == self.fails {
            return Err(io::Error::from(self.kind));
        }
        Ok(())
    }

    /// Keeps what happened.
    pub(crate) fn happened(&mut self, event: u8) -> bool {
        self.events.push(event).is_ok()
    }

    /// The bytes of a file.
    pub(crate) fn bytes(&self, path: &str) -> &[u8] {
        match self.files.iter().find(|file| file.0 == path) {
            Some(file) => &file.1,
            None => &[],
        }
    }
}
