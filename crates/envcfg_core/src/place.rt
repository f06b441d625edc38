//! Where a copy lies.
ghost use Rattle.std.specs.Prelude.{◌≡◌};
ghost use Rattle.envcfg_core.specs.Place.{start_of};

/// Where a copy of the environment lies.
#[derive(Debug, PartialEq, Eq, Drop)]
pub struct Place {
    /// The path of the file or device.
    pub device: String,
    /// Where the copy begins, in bytes: from the front of the device, or, if it is negative, back from its end.
    pub offset: i64,
}

impl Place {
    /// Where a copy of this size begins in a device of this length, both in bytes; `None` if the copy doesn't
    /// lie wholly inside.
    pub fn start(&self, size: u32, length: u64) -> Option<u64>
        ensures { result ≡ start_of self.now.offset size length }
    {
        let size = u64::from(size);
        let distance = self.offset.unsigned_abs();
        if distance > length {
            return None;
        }
        if self.offset < 0 {
            (size <= distance).then_some(length - distance)
        } else {
            (size <= length - distance).then_some(distance)
        }
    }
}
