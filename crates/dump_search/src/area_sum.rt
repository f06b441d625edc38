//! The checksum of the data area of a copy, which goes on from that of a smaller copy at the same place.
ghost use Rattle.std.specs.Prelude.{◌≡◌, ℕ, List, ◌≤◌, length, take, drop};
ghost use Rattle.envimg_core.specs.Checksum.{checksum};
ghost use Rattle.envimg_core.specs.Geometry.{head};
ghost use Rattle.dump_search.specs.AreaSums.{IsSumOf};

use crate::copy_search::head;
use envimg_core::{Digest, Layout};

/// The checksum of what follows the head of a copy, as far as it has come.
#[derive(Clone, Copy)]
pub(crate) struct AreaSum {
    digest: Digest,
    end: usize,
}

impl AreaSum {
    /// That of nothing: it has come to the end of the head.
    pub(crate) fn new(layout: Layout) -> AreaSum
        ensures sum { (bytes : List ℕ) → IsSumOf result layout bytes }
        ensures end { result.end ≡ head layout }
    {
        AreaSum {
            digest: Digest::new(),
            end: head(layout),
        }
    }

    /// The checksum of the data area of the copy that bytes begin with and that ends there. If it has come further, it
    /// begins anew.
    pub(crate) fn checksum_to(&mut self, layout: Layout, bytes: &[u8], end: usize) -> u32
        requires sum { IsSumOf self.old layout bytes.now }
        requires head { head layout ≤ end }
        requires inside { end ≤ length bytes.now }
        ensures checksum { result ≡ checksum (drop (head layout) (take end bytes.now)) }
        ensures sum { IsSumOf self.new layout bytes.now }
    {
        let AreaSum {
            mut digest,
            end: begin,
        } = self.before(layout, end);
        digest.update(&bytes[begin..end]);
        *self = AreaSum { digest, end };
        digest.finalize()
    }

    /// The same, or that of nothing if it has come further than there.
    fn before(self, layout: Layout, end: usize) -> AreaSum
        requires { head layout ≤ end }
        ensures sum { (bytes : List ℕ) → IsSumOf self layout bytes → IsSumOf result layout bytes }
        ensures end { result.end ≤ end }
    {
        if self.end <= end {
            self
        } else {
            AreaSum::new(layout)
        }
    }
}
