//! Open files as a device. Each method makes one call, and then notes it with its answer.
ghost use Rattle.std.specs.Prelude.{◌≡◌, List, ℕ, [], length, IfOk};
ghost use Rattle.device_files.specs.Calls.{seen_after, IsHonest, MayLeave, LeftSince, faults_of, counts_now, only_now};
ghost use Rattle.device_files.specs.Record.{calls_in};
ghost use Rattle.devices.specs.Device.{Only};

use crate::device_file::DeviceFile;
use crate::open_files::{LastCall, OpenFiles};
use crate::record::{Call, Record, text_of};
use devices::{Device, Fault};
use std::alloc::Global;
use std::fs::OpenFile;
use std::io::{Read, Seek, Write};
use std::marker::PhantomData;
use std::snapshot::Snapshot;

/// What a device holds when it is opened, which no code can read: code over any `S: Start` is proved for all contents.
pub trait Start: Drop {
    ghost contents: { List ℕ };
}

/// For a program to name.
#[derive(Drop)]
pub struct Unknown;

impl Start for Unknown {
    ghost contents = { [] };
}

/// Open files as one device.
#[derive(Drop)]
pub struct OpenDevice<F: Read + Write + Seek + OpenFile + Drop, S: Start> {
    files: OpenFiles<F>,
    calls: Record,
    start: PhantomData<S>,
}

impl<F: Read + Write + Seek + OpenFile + Drop, S: Start> OpenDevice<F, S> {
    /// These files, the bytes of the second behind those of the first, once what they show is on storage.
    pub fn settled(first: DeviceFile<F>, second: Option<DeviceFile<F>>) -> Result<Self, LastCall>
        ensures begins { IfOk result (λ device. calls_in device.calls ≡ []) }
        ensures durable { IfOk result (λ device.
            Only (seen_after S.contents (calls_in device.calls))
            (MayLeave S.contents (calls_in device.calls))) }
    {
        let mut files = OpenFiles::opened(first, second);
        match files.flush() {
            Ok(()) => Ok(OpenDevice::begun(files)),
            Err(_) => Err(files.last),
        }
    }

    /// A file that is only read.
    pub fn only_read(file: F) -> Self
        ensures { calls_in result.calls ≡ [] }
    {
        let first = DeviceFile {
            file,
            length: 0,
            is_flushed: true,
        };
        OpenDevice::begun(OpenFiles::opened(first, None))
    }

    /// What the last call did.
    pub fn last_call(&self) -> LastCall
        ensures { result ≡ self.now.files.last }
    {
        self.files.last
    }

    /// These files, of which no call was made yet.
    fn begun(files: OpenFiles<F>) -> Self
        ensures { calls_in result.calls ≡ [] }
    {
        OpenDevice {
            files,
            calls: Record::new(),
            start: PhantomData,
        }
    }
}

impl<F: Read + Write + Seek + OpenFile + Drop, S: Start> Device for OpenDevice<F, S> {
    ghost is_honest = { λ d. IsHonest S.contents (calls_in d.calls) };

    ghost seen = { λ d. seen_after S.contents (calls_in d.calls) };

    ghost may_leave = { λ d left. MayLeave S.contents (calls_in d.calls) left };

    ghost moment = { λ d. length (calls_in d.calls) };

    ghost left_since = { λ d t left. LeftSince S.contents (calls_in d.calls) t left };

    ghost faults = { λ d. faults_of (calls_in d.calls) };

    ghost counts_now = { λ d t left honest le now. counts_now S.contents (calls_in d.calls) t left now };

    ghost only_now = { λ d left honest since. only_now S.contents (calls_in d.calls) left since };

    fn length(&mut self) -> Result<usize, Fault> {
        let answer = self.files.measure();
        match answer {
            Ok(length) => self.calls.note(Call::Measured(length)),
            Err(_) => self.calls.note(Call::Failed),
        }
        answer
    }

    fn read_at(&mut self, alloc: Global, at: usize, len: usize) -> Result<Vec<u8>, Fault> {
        let mut bytes = vec![in alloc; 0u8; len]?;
        match self.files.read(at, &mut bytes) {
            Ok(count) => {
                bytes.truncate(count);
                self.calls.note(Call::Read(at, len, Snapshot::of(&bytes)));
                Ok(bytes)
            }
            Err(fault) => {
                self.calls.note(Call::Failed);
                Err(fault)
            }
        }
    }

    fn write_at(&mut self, at: usize, bytes: &[u8]) -> Result<(), Fault> {
        let answer = self.files.write(at, bytes);
        match answer {
            Ok(()) => self.calls.note(Call::Written(at, text_of(bytes))),
            Err(_) => self.calls.note(Call::WriteFailed(at, text_of(bytes))),
        }
        answer
    }

    fn sync(&mut self) -> Result<(), Fault> {
        let answer = self.files.flush();
        match answer {
            Ok(()) => self.calls.note(Call::Synced),
            Err(_) => self.calls.note(Call::Failed),
        }
        answer
    }
}
