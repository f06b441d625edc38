//! The calls of files that the program makes, over files in memory. Those that it never makes are refused.

use crate::disk::Contents;
use fw_tools::{Attempt, Hold, System};
use std::alloc::{Allocator, Global};
use std::cell::RefCell;
use std::fs::{Metadata, OpenFile, OpenOptions};
use std::io::{self, Read, Seek, SeekFrom, Write};
use std::rt::Files;
use std::time::Duration;

/// A disk, and the memory that its program uses.
#[derive(Drop)]
pub(crate) struct Disk<'a> {
    pub(crate) alloc: Global,
    pub(crate) contents: &'a RefCell<Contents>,
}

/// A file that is open.
pub(crate) struct Opened<'a> {
    contents: &'a RefCell<Contents>,
    index: usize,
    at: usize,
    locked: RefCell<bool>,
}

impl Drop for Opened<'_> {
    fn drop(self) {
        let Opened {
            contents,
            index: _,
            at: _,
            locked,
        } = self;
        if matches!(locked.try_borrow(), Ok(held) if *held) {
            if let Ok(mut contents) = contents.try_borrow_mut() {
                let _ = contents.happened(b'u');
            }
        }
    }
}

/// A folder, of which there is none.
#[derive(Drop)]
pub(crate) struct NoFolder;

fn refused() -> io::Error {
    io::Error::from(io::ErrorKind::Unsupported)
}

impl Read for NoFolder {
    fn read(&mut self, _buf: &mut [u8]) -> io::Result<usize> {
        Err(refused())
    }
}

impl Opened<'_> {
    /// Counts a call, and gives the file's length.
    fn len(&self) -> io::Result<usize> {
        let Ok(mut contents) = self.contents.try_borrow_mut() else {
            return Err(refused());
        };
        contents.call()?;
        match contents.files.get(self.index) {
            Some(file) => Ok(file.1.len()),
            None => Err(refused()),
        }
    }
}

impl Read for Opened<'_> {
    fn read(&mut self, buf: &mut [u8]) -> io::Result<usize> {
        self.len()?;
        let Ok(mut contents) = self.contents.try_borrow_mut() else {
            return Err(refused());
        };
        contents.happened(b'r');
        let Some(file) = contents.files.get(self.index) else {
            return Err(refused());
        };
        let mut rest = file.1.get(self.at..).unwrap_or(&[]);
        let count = rest.read(buf)?;
        self.at = self.at.saturating_add(count);
        Ok(count)
    }
}

impl Write for Opened<'_> {
    fn write(&mut self, buf: &[u8]) -> io::Result<usize> {
        self.len()?;
        let Ok(mut contents) = self.contents.try_borrow_mut() else {
            return Err(refused());
        };
        let Some(file) = contents.files.get_mut(self.index) else {
            return Err(refused());
        };
        let at = self.at.min(file.1.len());
        let (_, mut rest) = file.1.split_at_mut(at);
        let count = rest.write(buf)?;
        contents.happened(b'w');
        self.at = self.at.saturating_add(count);
        Ok(count)
    }

    fn flush(&mut self) -> io::Result<()> {
        Ok(())
    }
}

impl Seek for Opened<'_> {
    fn seek(&mut self, to: SeekFrom) -> io::Result<u64> {
        let length = self.len()?;
        self.at = match to {
            SeekFrom::Start(at) => at as usize,
            SeekFrom::End(0) => length,
            _ => return Err(refused()),
        };
        Ok(self.at as u64)
    }
}

impl OpenFile for Opened<'_> {
    fn metadata(&self) -> io::Result<Metadata> {
        Err(refused())
    }

    fn set_len(&self, _size: u64) -> io::Result<()> {
        Err(refused())
    }

    fn sync_all(&self) -> io::Result<()> {
        self.len()?;
        Ok(())
    }

    fn sync_data(&self) -> io::Result<()> {
        Err(refused())
    }
}

impl Alloc for Disk<'_> {
    type A = Global;

    fn alloc(&self) -> Global {
        self.alloc
    }
}

impl<'a> System for Disk<'a> {
    ghost holds = { λ _ _ _. Unit {0} };

    ghost wrote = { λ _ _ _. Unit {0} };

    fn open_to_read(&self, path: &str) -> io::Result<Opened<'a>> {
        self.open_file(OpenOptions::new().read(true), path)
    }

    fn open_emptied(&self, path: &str) -> io::Result<Opened<'a>> {
        self.open_file(OpenOptions::new().write(true), path)
    }

    fn try_lock(&self, file: &Opened<'a>, hold: Hold) -> Attempt {
        let Ok(mut contents) = self.contents.try_borrow_mut() else {
            return Attempt::Failed;
        };
        if contents.is_held {
            contents.is_held = false;
            return Attempt::Held;
        }
        let Ok(mut locked) = file.locked.try_borrow_mut() else {
            return Attempt::Failed;
        };
        *locked = true;
        let letter = match contents.files.get(file.index) {
            Some((path, _bytes)) => *path.as_bytes().first().unwrap_or(&b' '),
            None => b' ',
        };
        let event = match hold {
            Hold::Shared => b's',
            Hold::Alone => b'a',
        };
        if contents.happened(event) && contents.happened(letter) {
            Attempt::Locked
        } else {
            Attempt::Failed
        }
    }

    fn lock(&self, file: &Opened<'a>, hold: Hold) -> bool {
        self.try_lock(file, hold) == Attempt::Locked
    }

    type Screen = Vec<u8>;

    fn screen(&self) -> Option<Vec<u8>> {
        None
    }

    fn watched(&self) -> Option<Vec<u8>> {
        None
    }

    fn time(&self) -> Duration {
        Duration::ZERO
    }
}

impl<'a> Files for Disk<'a> {
    type File = Opened<'a>;

    type Dir = NoFolder;

    fn open_file(&self, _how: &OpenOptions, path: &str) -> io::Result<Opened<'a>> {
        let Ok(mut contents) = self.contents.try_borrow_mut() else {
            return Err(refused());
        };
        contents.call()?;
        match contents.files.iter().position(|file| file.0 == path) {
            Some(index) => Ok(Opened {
                contents: self.contents,
                index,
                at: 0,
                locked: RefCell::new(false),
            }),
            None => Err(io::Error::from(io::ErrorKind::NotFound)),
        }
    }

    fn open_dir(&self, _path: &str) -> io::Result<NoFolder> {
        Err(refused())
    }

    fn metadata(&self, _path: &str) -> io::Result<Metadata> {
        Err(refused())
    }

    fn symlink_metadata(&self, _path: &str) -> io::Result<Metadata> {
        Err(refused())
    }

    fn copy(&self, _from: &str, _to: &str) -> io::Result<u64> {
        Err(refused())
    }

    fn rename(&self, _from: &str, _to: &str) -> io::Result<()> {
        Err(refused())
    }

    fn remove_file(&self, _path: &str) -> io::Result<()> {
        Err(refused())
    }

    fn create_dir(&self, _path: &str) -> io::Result<()> {
        Err(refused())
    }

    fn remove_dir(&self, _path: &str) -> io::Result<()> {
        Err(refused())
    }

    fn remove_dir_all<B: Allocator>(&self, _alloc: B, _path: &str) -> io::Result<()> {
        Err(refused())
    }
}
