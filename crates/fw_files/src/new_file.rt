//! Files that are made, and written whole.
ghost use Rattle.std.specs.Prelude.{IfErr, OnOk};
ghost use Rattle.fw_files.specs.Files.{IsUnwritable};

use crate::device_access::is_flash;
use crate::file_fault::FileFault;
use crate::reasons::Reason;
use crate::system::System;
use std::io::{self, Write};

/// Writes a whole file, which is made if it isn't there. Raw flash isn't written: it has to be erased first.
pub fn write_file<X: System>(rt: &X, path: &str, bytes: &[u8]) -> Result<(), FileFault>
    ensures written { OnOk result (X.wrote rt.now path.now bytes.now) }
    ensures unwritable { IfErr result IsUnwritable }
{
    if is_flash(rt, path) {
        return Err(FileFault::CannotWrite(Reason::Unknown));
    }
    match write_whole(rt, path, bytes) {
        Ok(()) => Ok(()),
        Err(error) => Err(FileFault::CannotWrite(Reason::by(error.kind()))),
    }
}

/// The same, with the error of the system.
fn write_whole<X: System>(rt: &X, path: &str, bytes: &[u8]) -> io::Result<()>
    ensures { OnOk result (X.wrote rt.now path.now bytes.now) }
{
    let mut file = rt.open_emptied(path)?;
    file.write_all(bytes)
}
