//! How a lock is waited for.
ghost use Rattle.fw_engines.specs.Streams.{AppendsFront};
ghost use Rattle.fw_files.specs.Locks.{waiting_line};

use crate::system::{Attempt, Hold, System};
use fw_engines::streams::write_three;
use std::io::Write;

/// Locks an open file until it is closed, and answers whether it can be locked. If another program holds the lock for a
/// second, one line on `errors` says that it is waited for.
pub(crate) fn wait_for_lock<X: System, E: Write>(
    rt: &X,
    file: &X::File,
    path: &str,
    hold: Hold,
    errors: &mut E,
) -> bool
    ensures { AppendsFront (E.contents errors.old) (E.contents errors.new) (waiting_line path.now) }
{
    match rt.try_lock(file, hold) {
        Attempt::Locked => true,
        Attempt::Failed => false,
        Attempt::Held => {
            let _ = write_three(
                errors,
                b"fwenv: waiting for ",
                path.as_bytes(),
                b", which another program has locked\n",
            );
            rt.lock(file, hold)
        }
    }
}
