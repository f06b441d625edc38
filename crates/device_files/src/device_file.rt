//! An open file: measured, read, written inside of its length, and flushed to storage.
ghost use Rattle.std.specs.Prelude.{◌≤◌, length, IfOk};

use std::fs::OpenFile;
use std::io::{self, Error, ErrorKind, Read, Seek, SeekFrom, Write};

/// An open file, as a part of a device.
#[derive(Drop)]
pub struct DeviceFile<F: Read + Write + Seek + OpenFile + Drop> {
    /// The file.
    pub file: F,
    /// How many bytes it has.
    pub length: usize,
    /// Whether what it shows is on its storage; of a file that is only read this is taken to be so.
    pub is_flushed: bool,
}

impl<F: Read + Write + Seek + OpenFile + Drop> DeviceFile<F> {
    /// How many bytes it has by now.
    pub(crate) fn measure(&mut self) -> io::Result<usize> {
        let length = self.file.seek(SeekFrom::End(0))?;
        Ok(length as usize)
    }

    /// Reads from `at` on until the room is full or the file ends, and answers how many bytes came.
    pub(crate) fn read(&mut self, at: usize, room: &mut [u8]) -> io::Result<usize>
        ensures { IfOk result (λ count. count ≤ length room.old) }
    {
        self.file.seek(SeekFrom::Start(at as u64))?;
        fill(&mut self.file, room)
    }

    /// Writes over what is there. A file that is too short by now is not written.
    pub(crate) fn write(&mut self, at: usize, bytes: &[u8]) -> io::Result<()> {
        let length = self.measure()?;
        if at > length || bytes.len() > length - at {
            return Err(Error::from(ErrorKind::UnexpectedEof));
        }
        self.is_flushed = false;
        self.file.seek(SeekFrom::Start(at as u64))?;
        self.file.write_all(bytes)
    }

    /// Flushes to storage what is not there yet.
    pub(crate) fn flush(&mut self) -> io::Result<()> {
        if !self.is_flushed {
            self.file.sync_all()?;
            self.is_flushed = true;
        }
        Ok(())
    }
}

/// Reads until the room is full or the reader ends, and answers how many bytes came.
fn fill<R: Read>(reader: &mut R, room: &mut [u8]) -> io::Result<usize>
    ensures { IfOk result (λ count. count ≤ length room.old) }
{
    let mut count = 0;
    while count < room.len() {
        let more = reader.read(&mut room[count..])?;
        if more == 0 {
            break;
        }
        count += more;
    }
    Ok(count)
}
