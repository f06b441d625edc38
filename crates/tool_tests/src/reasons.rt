//! Why a file can't be had, over files in memory, and why the words of the command line can't.

use crate::disk::{disk_with, fails_with};
use fw_tools::words_failed;
use std::io::{self, ErrorKind};
use std::test::Fail;

/// Kinds of errors, and what is said of each.
const KINDS: [(ErrorKind, &str); 8] = [
    (ErrorKind::NotFound, ": no such file"),
    (ErrorKind::PermissionDenied, ": permission denied"),
    (ErrorKind::IsADirectory, ": it is a directory"),
    (
        ErrorKind::ReadOnlyFilesystem,
        ": the file system is read-only",
    ),
    (ErrorKind::StorageFull, ": no space is left"),
    (ErrorKind::NotADirectory, ""),
    (ErrorKind::FilesystemLoop, ""),
    (ErrorKind::Other, ""),
];

/// The calls of a restore, as in the tests of files, but the text is opened and read to its end by two reads before the devices are
/// opened again; and what can't be done where one of them fails.
const CALLS: [(usize, usize, &str); 8] = [
    (0, 3, "read config"),
    (8, 12, "read first"),
    (12, 16, "read second"),
    (16, 19, "read text"),
    (19, 21, "write first"),
    (21, 24, "write second"),
    (24, 26, "write first"),
    (26, 32, "write second"),
];

#[test]
fn each_call_says_why_it_failed(rt: HostRuntime) -> Result<(), Fail> {
    for (kind, reason) in KINDS {
        for (from, to, what) in CALLS {
            for call in from..to {
                let contents = disk_with(rt.alloc(), &[("text", b"a=2\n")], call)?;
                contents.try_borrow_mut().ok().ok_or("lent")?.kind = kind;
                let said = format!(in rt.alloc(); "fwenv: cannot {what}{reason}\n")?;
                fails_with(
                    &rt,
                    &contents,
                    "fwenv restore -c config text",
                    said.as_bytes(),
                )?;
            }
        }
    }
    Ok(())
}

#[test]
fn words_that_can_not_be_had(rt: HostRuntime) {
    let kinds: [(ErrorKind, &str); 3] = [
        (ErrorKind::OutOfMemory, "## Error: out of memory\n"),
        (
            ErrorKind::InvalidData,
            "fwenv: a word of the command line is not UTF-8\n",
        ),
        (ErrorKind::Other, "fwenv: cannot read the command line\n"),
    ];
    for (kind, text) in kinds {
        let mut errors = Vec::new(rt.alloc());
        assert_eq!(rt; words_failed(&io::Error::from(kind), &mut errors), 1);
        assert!(rt; errors.as_slice() == text.as_bytes());
    }
}
