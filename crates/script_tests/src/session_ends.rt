//! What a session over streams hands out if one of them fails, and how much it counts (docs/dry-runs.md, "The end").

use env_session::Side;
use fw_session::{SessionEnd, SessionEnding, session};
use hush_run::{Limits, Stubs};
use std::alloc::Global;
use std::io::{self, ErrorKind, Read, Write};
use std::process::Abort;
use std::test::Fail;
use test_support::erased_session;

const INPUT: &[u8] = b"setenv a 1; echo $a\n.save\nsetenv a 2\n.undo\n.print\n.x\necho \"\n";

const OUTPUT: &[u8] =
    b"1\n[Finished 0 2]\nSaved copy 1\n[Finished 0 1]\n[Undone]\n[Unknown]\n[Syntax]\n";

const ERASED: [u8; 16] = [0xFF; 16];

/// The image that the session saves.
const SAVED: [u8; 16] = *b"\x15\x09\xED\xACa=1\0\0\0\0\0\0\0\0\0";

/// What is handed out: the value of `a`, and the image.
type HandedOut = (Option<&'static [u8]>, [u8; 16]);

/// From how many bytes to how many, those not among them, that the writer takes before it takes no more; and what is handed out.
const WRITTEN: [(usize, usize, HandedOut); 4] = [
    (0, 17, (Some(b"1"), ERASED)),
    (17, 30, (Some(b"1"), SAVED)),
    (30, 45, (Some(b"2"), SAVED)),
    (45, 73, (None, ERASED)),
];

/// After how many bytes the reader fails, how many are written, and what is handed out.
const READ: [(usize, usize, HandedOut); 3] = [
    (25, 0, (None, ERASED)),
    (26, 30, (Some(b"1"), SAVED)),
    (60, 64, (None, ERASED)),
];

/// A reader that fails after these bytes.
#[derive(Drop)]
struct Failing<'a> {
    left: &'a [u8],
}

impl Read for Failing<'_> {
    fn read(&mut self, buf: &mut [u8]) -> io::Result<usize> {
        if self.left.is_empty() {
            return Err(io::Error::from(ErrorKind::Other));
        }
        self.left.read(buf)
    }
}

/// A reader of newlines that never ends.
#[derive(Drop)]
struct Newlines;

impl Read for Newlines {
    fn read(&mut self, buf: &mut [u8]) -> io::Result<usize> {
        buf.fill(b'\n');
        Ok(buf.len())
    }
}

/// A session over an image of 16 bytes that was never written.
fn ended<R: Read, W: Write>(
    alloc: Global,
    input: &mut R,
    output: &mut W,
) -> Result<SessionEnd, Fail> {
    let stubs = Stubs::parse(alloc, b"")?;
    let limits = Limits::new(1000, 4, 256, 4096).ok_or("no limits")?;
    let opened = erased_session(alloc, 16, "")?;
    Ok(session(alloc, opened, &stubs, &limits, input, output))
}

fn hands_out(rt: &impl Abort, end: &SessionEnd, (value, image): HandedOut) {
    assert_eq!(rt; end.session.vars().get(b"a"), value);
    assert_eq!(rt; end.session.copy(Side::First), Some(image.as_slice()));
}

#[test]
fn a_writer_that_takes_no_more(rt: HostRuntime) -> Result<(), Fail> {
    for (from, to, left) in WRITTEN {
        for taken in from..to {
            let mut room = b"\0".repeat(rt.alloc(), taken)?;
            let (mut input, mut output) = (INPUT, room.as_mut_slice());
            let end = ended(rt.alloc(), &mut input, &mut output)?;
            assert_eq!(rt;
                (end.ending, end.written),
                (SessionEnding::WriteFault, taken as u64)
            );
            hands_out(&rt, &end, left);
            assert!(rt; OUTPUT.starts_with(&room));
        }
    }
    Ok(())
}

#[test]
fn a_reader_that_fails(rt: HostRuntime) -> Result<(), Fail> {
    for (count, written, left) in READ {
        let mut input = Failing {
            left: INPUT.get(..count).ok_or("long enough")?,
        };
        let mut output = Vec::new(rt.alloc());
        let end = ended(rt.alloc(), &mut input, &mut output)?;
        assert_eq!(rt;
            (end.ending, end.read),
            (SessionEnding::ReadFault, count as u64)
        );
        assert_eq!(rt; (end.written, output.len()), (written as u64, written));
        hands_out(&rt, &end, left);
        assert!(rt; OUTPUT.starts_with(&output));
    }
    Ok(())
}

#[test]
fn an_input_that_never_ends(rt: HostRuntime) -> Result<(), Fail> {
    let mut output = Vec::new(rt.alloc());
    let end = ended(rt.alloc(), &mut Newlines, &mut output)?;
    assert_eq!(rt;
        (end.ending, end.read, end.written),
        (SessionEnding::TooLong, 16_777_216, 0)
    );
    hands_out(&rt, &end, (None, ERASED));
    Ok(())
}
