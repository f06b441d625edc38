//! A board that is powered on, and the session over what it stores.
ghost use Rattle.std.specs.Prelude.{◌≡◌, IfOk};
ghost use Rattle.fw_boots.specs.Boots.{session_of};

use crate::cuts::Cuts;
use env_requests::RunRules;
use env_session::{Session, Stored};
use envimg_core::Geometry;
use envvars_core::Vars;
use hush_syntax::Script;
use std::alloc::{AllocError, Global};

/// A board that is powered on, again and again (docs/boot.md).
#[derive(Drop)]
pub struct Boot<'a> {
    /// What a run follows.
    pub rules: RunRules<'a>,
    /// Where its power may fail.
    pub cuts: Cuts<'a>,
    /// Whether it counts its power-ons.
    pub counts: bool,
    /// What it runs when its power comes on: the script of `power_on_script`.
    pub script: &'a Script,
    /// What its system may run once it has booted, one of these or none.
    pub after: &'a [Script],
    /// The size of the one copy that it stores, and how that is laid out.
    pub geometry: Geometry,
    /// The default environment.
    pub defaults: &'a Vars,
    /// The copy that is stored before the first power-on.
    pub first: &'a [u8],
}

impl Boot<'_> {
    /// The session over a stored copy. `AllocError` if memory runs out, or if it isn't a copy of the size, or the defaults
    /// don't fit.
    pub(crate) fn session(&self, alloc: Global, stored: &[u8]) -> Result<Session, AllocError>
        ensures { IfOk result (λ session. session ≡ session_of self.now.geometry self.now.defaults.now stored.now) }
    {
        let copies = Stored {
            geometry: self.geometry,
            first: Vec::from_slice(alloc, stored)?,
            second: None,
        };
        // for the proof: the defaults fit their room
        let _used = self.defaults.used();
        let Ok(defaults) = self.defaults.copy(alloc, self.defaults.room()) else {
            return Err(AllocError);
        };
        match Session::start(alloc, copies, defaults) {
            Ok(session) => Ok(session),
            Err(_) => Err(AllocError),
        }
    }
}
