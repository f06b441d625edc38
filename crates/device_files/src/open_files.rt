//! One or two open files, the bytes of the second behind those of the first.
ghost use Rattle.std.specs.Prelude.{◌≡◌, IfErr};
ghost use Rattle.devices.specs.declared.device.Fault.TheVariants.{Failed};

use crate::device_file::DeviceFile;
use devices::Fault;
use std::fs::OpenFile;
use std::io::{self, Error, ErrorKind, Read, Seek, Write};

/// What the last call did: of which file it was, and how it failed, if it did.
#[derive(Clone, Copy)]
pub struct LastCall {
    /// It was a call of the second file.
    pub is_second: bool,
    /// What the system said.
    pub failure: Option<ErrorKind>,
}

/// One open file, or two.
#[derive(Drop)]
pub(crate) struct OpenFiles<F: Read + Write + Seek + OpenFile + Drop> {
    pub(crate) first: DeviceFile<F>,
    pub(crate) second: Option<DeviceFile<F>>,
    pub(crate) last: LastCall,
}

impl<F: Read + Write + Seek + OpenFile + Drop> OpenFiles<F> {
    /// These files, as they were opened.
    pub(crate) fn opened(first: DeviceFile<F>, second: Option<DeviceFile<F>>) -> Self {
        OpenFiles {
            first,
            second,
            last: LastCall {
                is_second: false,
                failure: None,
            },
        }
    }

    /// How many bytes there are.
    pub(crate) fn measure(&mut self) -> Result<usize, Fault>
        ensures { IfErr result (λ fault. fault ≡ Failed) }
    {
        match &mut self.second {
            None => self.last.told(false, self.first.measure()),
            Some(second) => {
                let length = self.last.told(true, second.measure())?;
                Ok(self.first.length.saturating_add(length))
            }
        }
    }

    /// Reads from `at` on until the room is full or the file ends, and answers how many bytes came; it fails if they lie in
    /// both files.
    pub(crate) fn read(&mut self, at: usize, room: &mut [u8]) -> Result<usize, Fault>
        ensures { IfErr result (λ fault. fault ≡ Failed) }
    {
        let seam = self.first.length;
        match &mut self.second {
            None => self.last.told(false, self.first.read(at, room)),
            Some(second) if at >= seam => self.last.told(true, second.read(at - seam, room)),
            Some(_) if room.len() > seam - at => self.last.told(false, in_both()),
            Some(_) => self.last.told(false, self.first.read(at, room)),
        }
    }

    /// Writes over what is there; it fails, and nothing is written, if that lies in both files or in none.
    pub(crate) fn write(&mut self, at: usize, bytes: &[u8]) -> Result<(), Fault>
        ensures { IfErr result (λ fault. fault ≡ Failed) }
    {
        let seam = self.first.length;
        match &mut self.second {
            None => self.last.told(false, self.first.write(at, bytes)),
            Some(second) if at >= seam => self.last.told(true, second.write(at - seam, bytes)),
            Some(_) if bytes.len() > seam - at => self.last.told(false, in_both()),
            Some(_) => self.last.told(false, self.first.write(at, bytes)),
        }
    }

    /// Flushes to storage what is not there yet.
    pub(crate) fn flush(&mut self) -> Result<(), Fault>
        ensures { IfErr result (λ fault. fault ≡ Failed) }
    {
        self.last.told(false, self.first.flush())?;
        match &mut self.second {
            None => Ok(()),
            Some(second) => self.last.told(true, second.flush()),
        }
    }
}

impl LastCall {
    /// Takes down what a call of a file came to.
    fn told<T: Drop>(&mut self, is_second: bool, outcome: io::Result<T>) -> Result<T, Fault>
        ensures { IfErr result (λ fault. fault ≡ Failed) }
    {
        match outcome {
            Ok(value) => {
                *self = LastCall {
                    is_second,
                    failure: None,
                };
                Ok(value)
            }
            Err(error) => {
                *self = LastCall {
                    is_second,
                    failure: Some(error.kind()),
                };
                Err(Fault::Failed)
            }
        }
    }
}

/// What is said of bytes that lie in both files, as no copy does.
fn in_both<T>() -> io::Result<T> {
    Err(Error::from(ErrorKind::InvalidInput))
}
