//! Why a file can't be read or written.
ghost use Rattle.std.specs.Prelude.{◌≡◌};
ghost use Rattle.fw_files.specs.Files.{reason_by, reason_in, reason_of};

use std::io::ErrorKind;

/// Why a file can't be read or written.
#[derive(Clone, Copy, Debug, PartialEq, Eq)]
pub enum Reason {
    /// It isn't there.
    NoSuchFile,
    /// The user may not do that.
    Denied,
    /// It is a directory.
    Directory,
    /// Nothing on its file system can be written.
    ReadOnly,
    /// There is no room on its file system.
    NoSpace,
    /// It is longer than a file that is read whole may be.
    TooLong,
    /// It is longer than a dump may be.
    LongerThanDump,
    /// Another program changed it between its reading and its writing.
    Changed,
    /// Something else, which is not reported.
    Unknown,
}

impl Reason {
    /// The reason for an error of this kind.
    pub(crate) fn by(kind: ErrorKind) -> Reason
        ensures reason { result ≡ reason_by kind }
        ensures text { reason_in result ≡ reason_of kind }
    {
        match kind {
            ErrorKind::NotFound => Reason::NoSuchFile,
            ErrorKind::PermissionDenied => Reason::Denied,
            ErrorKind::IsADirectory => Reason::Directory,
            ErrorKind::ReadOnlyFilesystem => Reason::ReadOnly,
            ErrorKind::StorageFull => Reason::NoSpace,
            _ => Reason::Unknown,
        }
    }
}
