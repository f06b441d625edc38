//! The bytes of a new image.
ghost use Rattle.std.specs.Prelude.{◌≡◌, ◌++◌, IfOk};
ghost use Rattle.env_session.specs.Session.{bytes_of};
ghost use Rattle.envimg_core.specs.Geometry.{room_of};
ghost use Rattle.fw_tools.specs.NewImages.{erased, erased_second, image_bytes, placed};
ghost use Rattle.fw_tools.specs.SavedOnce.{IsSavedBlank, IsSavedOnce};

use env_session::{Session, Stored};
use envimg_core::{Choice, Geometry, Layout};
use envvars_core::{Memory, Vars};
use std::alloc::{AllocError, Global};

/// What an erased place holds.
const ERASED: u8 = 0xFF;

/// The image of variables: one copy, or two, of which the first is erased unless `both` hold them.
pub(crate) fn new_image(
    alloc: Global,
    geometry: Geometry,
    both: bool,
    vars: Vars,
) -> Result<Vec<u8>, Memory>
    requires { vars.room ≡ room_of geometry }
    ensures { IfOk result (λ image. image.items ≡ image_bytes geometry both vars.env) }
{
    let Stored {
        geometry: _,
        first,
        second,
    } = saved_once(alloc, geometry, vars)?;
    placed(alloc, second, both, first)
}

/// A copy alone, or as the second after an erased place, or after the same copy if `both` hold it.
fn placed(
    alloc: Global,
    blank: Option<Vec<u8>>,
    both: bool,
    copy: Vec<u8>,
) -> Result<Vec<u8>, Memory>
    ensures { IfOk result (λ image. image.items ≡ placed (bytes_of blank) both copy.items) }
{
    match blank {
        None => Ok(copy),
        Some(blank) => {
            if both {
                joined(alloc, &copy, &copy)
            } else {
                joined(alloc, &blank, &copy)
            }
        }
    }
}

/// Erased copies over which the variables were saved once: into the first.
fn saved_once(alloc: Global, geometry: Geometry, vars: Vars) -> Result<Stored, Memory>
    requires { vars.room ≡ room_of geometry }
    ensures { IfOk result (IsSavedOnce geometry vars) }
{
    let erased = erased_copies(alloc, geometry)?;
    match Session::start(alloc, erased, vars) {
        Ok(session) => saved_blank(session),
        // never but for memory: the copies have their size, and the variables fit
        Err(_) => Err(Memory),
    }
}

/// The copies of a session once it is saved, if none of them was good.
fn saved_blank(opened: Session) -> Result<Stored, Memory>
    ensures { IfOk result (IsSavedBlank opened) }
{
    let mut session = opened;
    match session.current() {
        Choice::Neither => {
            session.save()?;
            Ok(session.close())
        }
        // never: the list of an erased copy has no end
        _ => Err(Memory),
    }
}

/// Copies that were never written.
fn erased_copies(alloc: Global, geometry: Geometry) -> Result<Stored, AllocError>
    ensures geometry { IfOk result (λ s. s.geometry ≡ geometry) }
    ensures first { IfOk result (λ s. s.first.items ≡ erased geometry) }
    ensures second { IfOk result (λ s. bytes_of s.second ≡ erased_second geometry) }
{
    let first = erased(alloc, geometry)?;
    let second = erased_second(alloc, geometry)?;
    Ok(Stored {
        geometry,
        first,
        second,
    })
}

/// The second of them, if there are two.
fn erased_second(alloc: Global, geometry: Geometry) -> Result<Option<Vec<u8>>, AllocError>
    ensures { IfOk result (λ s. bytes_of s ≡ erased_second geometry) }
{
    match geometry.layout() {
        Layout::Single => Ok(None),
        Layout::Redundant => Ok(Some(erased(alloc, geometry)?)),
    }
}

/// A copy that was never written.
fn erased(alloc: Global, geometry: Geometry) -> Result<Vec<u8>, AllocError>
    ensures { IfOk result (λ copy. copy.items ≡ erased geometry) }
{
    Ok(vec![in alloc; ERASED; geometry.size() as usize]?)
}

/// Two texts, one after the other.
fn joined(alloc: Global, front: &[u8], back: &[u8]) -> Result<Vec<u8>, Memory>
    ensures { IfOk result (λ text. text.items ≡ front.now ++ back.now) }
{
    let mut text = Vec::from_slice(alloc, front)?;
    text.extend_from_slice(back)?;
    Ok(text)
}
