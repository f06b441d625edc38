//! Sessions that are just started.

use env_session::{Session, Stored};
use envimg_core::{Geometry, Layout};
use envvars_core::Vars;
use std::alloc::Global;
use std::test::Fail;

/// A session over a single image of so many bytes FF. Its default environment is that of lines `name=value`, with a `;` between two.
///
/// # Errors
///
/// No image has this size, the default environment is refused or doesn't fit, or memory ran out.
pub fn erased_session(alloc: Global, size: u32, lines: &str) -> Result<Session, Fail> {
    let geometry = Geometry::new(Layout::Single, size).ok_or("no geometry")?;
    let none = Vars::empty(alloc, 1);
    let mut defaults = Vars::empty(alloc, geometry.room());
    for line in lines.split(';') {
        if let Some((name, value)) = line.split_once('=') {
            defaults.write(name.as_bytes(), Some(value.as_bytes()), true, &none)?;
        }
    }
    let stored = Stored {
        geometry,
        first: b"\xFF".repeat(alloc, size as usize)?,
        second: None,
    };
    Ok(Session::start(alloc, stored, defaults).map_err(|_| "no start")?)
}
