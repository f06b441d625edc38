//! Laws over the definitions alone: each function does nothing, and its contract is the law.
ghost use Rattle.devices.specs.Laws.{OneCopyTorn, NoOtherByte};

/// Whatever a crash leaves while copies are written, at most one of them is torn.
pub fn one_copy_torn()
    ensures { OneCopyTorn }
{}

/// Each byte outside the copies is as it was.
pub fn no_other_byte()
    ensures { NoOtherByte }
{}
