//! What a call has left, as a text that is written without taking memory.
ghost use Rattle.std.specs.Prelude.{◌≤◌};

use crate::names::name;
use env_session::{Session, Side};
use envimg_core::{Choice, crc32};
use envvars_core::Vars;
use std::io::{self, Write};

/// A text of which the first 1,024 bytes are kept, all are counted, and all are summed with numbers that it doesn't show.
#[derive(Clone, Copy)]
pub struct Page {
    bytes: [u8; 1024],
    len: usize,
    count: u32,
    sum: u32,
    noted: u32,
    ghost within: { len ≤ 1024 },
}

impl Page {
    /// An empty page.
    pub fn new() -> Page {
        Page {
            bytes: [0; 1024],
            len: 0,
            count: 0,
            sum: 0,
            noted: 0,
        }
    }

    /// So many lines `v000000=1`, `v000001=1` and so on.
    fn numbered(count: u32) -> Page {
        let mut page = Page::new();
        for i in 0..count {
            page.put_line(&name(i), Some(b"1"));
        }
        page
    }

    /// What was written, if it has at most 1,024 bytes.
    pub fn text(&self) -> &[u8] {
        &self.bytes[..self.len]
    }

    /// A number that is another if another text was written or other numbers noted, but for chance.
    pub fn sum(&self) -> u32 {
        self.sum ^ self.noted
    }

    /// Writes a text.
    pub fn put(&mut self, text: &[u8]) {
        let start = self.len;
        let count = text.len().min(1024 - start);
        self.bytes[start..start + count].copy_from_slice(&text[..count]);
        self.len = start + count;
        for byte in text {
            self.count = self.count.wrapping_add(1);
            self.sum = self.sum.wrapping_mul(0x0100_0193) ^ *byte as u32;
        }
    }

    /// Writes a line: a name and its value, or the name alone.
    pub fn put_line(&mut self, name: &[u8], value: Option<&[u8]>) {
        self.put(name);
        if let Some(value) = value {
            self.put(b"=");
            self.put(value);
        }
        self.put(b"\n");
    }

    /// Notes a number. Noughts alone leave the sum.
    pub fn note(&mut self, number: u32) {
        self.noted = self.noted.wrapping_add(number).wrapping_mul(0x0100_0193);
    }

    /// Each variable in a line; their attributes are noted.
    pub fn of_vars(vars: &Vars) -> Page {
        let mut page = Page::new();
        for line in vars.lines() {
            page.put_line(line, None);
        }
        for (name, _value) in vars.iter() {
            let given = vars.attributes(name);
            page.note(given.kind as u32);
            page.note(given.access as u32);
        }
        page
    }

    /// The variables of a session, and which copy is current; what else it shows is noted.
    pub fn of_session(session: &Session) -> Page {
        let mut page = Page::of_vars(session.vars());
        page.put(match session.current() {
            Choice::Neither => b"no copy\n".as_slice(),
            Choice::First => b"copy 1\n".as_slice(),
            Choice::Second => b"copy 2\n".as_slice(),
        });
        page.note(sum_of_copies(session));
        page.note(session.marks());
        page.note(u32::try_from(session.touched()).unwrap_or(u32::MAX));
        page
    }

    /// Prints the text as one line, a space before each of its own; or how many numbered lines it has, if they are many.
    pub fn print<W: Write>(&self, out: &mut W) -> io::Result<()> {
        let mut line = Page::new();
        let lines = self.count / 10;
        if self.count > 1000 && self.sum() == Page::numbered(lines).sum() {
            let digits = name(lines);
            let start = digits.iter().position(|byte| *byte > b'0' && *byte <= b'9');
            line.put(b" ");
            line.put(digits.get(start.unwrap_or(6)..).unwrap_or(b""));
            line.put(b" lines");
        } else {
            for text in self.text().split_inclusive(|byte| *byte == b'\n') {
                line.put(b" ");
                line.put(text.trim_ascii_end());
            }
        }
        line.put(b"\n");
        out.write_all(line.text())
    }
}

impl Write for Page {
    fn write(&mut self, text: &[u8]) -> io::Result<usize> {
        self.put(text);
        Ok(text.len())
    }

    fn flush(&mut self) -> io::Result<()> {
        Ok(())
    }
}

/// A number that is another if a byte of a copy is another, but for chance.
pub fn sum_of_copies(session: &Session) -> u32 {
    let first = crc32(session.copy(Side::First).unwrap_or(b""));
    let second = crc32(session.copy(Side::Second).unwrap_or(b""));
    first.wrapping_mul(0x0100_0193) ^ second
}
