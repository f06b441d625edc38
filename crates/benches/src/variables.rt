//! Calls over variables: an environment is loaded from an image, or is empty, and each line of a text is a call over it.

ghost use Rattle.std.specs.Prelude.{◌≤◌, IfOk, IsTrue, length};
ghost use Rattle.envimg_core.specs.Pieces.{is_terminated};

use envcfg_core::{TextEntry, parse_import};
use envimg_core::{CopyState, Geometry, Layout, check_copy};
use envvars_core::Vars;
use std::alloc::Global;
use std::io::{self, Error, ErrorKind};
use std::time::Instant;

/// More room than the calls of any text take.
const AMPLE_ROOM: u32 = 16_777_216;

/// Writes and a removal, two of them over the same name, of the short comparison.
const SHORT: &[u8] = b"b=2\na=1\nc=3\nb=22\na\n";

/// The data area of a good single image.
fn data_area(image: &[u8]) -> io::Result<&[u8]>
    ensures terminated { IfOk result (λ area. IsTrue (is_terminated area.now)) }
    ensures bounded { IfOk result (λ area. length area.now ≤ 1048576) }
{
    if image.len() <= 1_048_576 {
        if let Some(geometry) = Geometry::new(Layout::Single, image.len() as u32) {
            if let CopyState::Good(_) = check_copy(&geometry, image) {
                return Ok(&image[4..]);
            }
        }
    }
    Err(Error::from(ErrorKind::InvalidData))
}

/// The variables of a data area, or want of memory as an error of a stream.
fn load(alloc: Global, area: &[u8]) -> io::Result<Vars>
    requires terminated { IsTrue (is_terminated area.now) }
    requires bounded { length area.now ≤ 1048576 }
{
    Vars::load(alloc, area).map_err(|_| Error::from(ErrorKind::OutOfMemory))
}

/// The variables of an image, and none of no bytes.
fn load_image(alloc: Global, image: &[u8]) -> io::Result<Vars> {
    if image.is_empty() {
        return Ok(Vars::empty(alloc, AMPLE_ROOM));
    }
    load(alloc, data_area(image)?)
}

/// Makes a call for each entry, and counts those that are refused or find nothing.
fn make(vars: &mut Vars, part: &str, calls: &[TextEntry], defaults: &Vars) -> u32 {
    let mut refused = 0u32;
    for call in calls {
        let (name, value) = (call.name.as_slice(), call.value_bytes());
        let is_done = match part {
            "gets" => vars.get(name).is_some(),
            "checks" => vars.check(name, value, false, defaults).is_ok(),
            _ => vars.write(name, value, false, defaults).is_ok(),
        };
        refused = refused.wrapping_add(u32::from(!is_done));
    }
    refused
}

/// One part. The input is an image of so many bytes and, after it, the text of the calls, as an import has it. `load` is
/// the load of the image, and the others are made over what it has: `gets` and `checks` of the text's names and values,
/// `writes` and removals. Without `wanted` everything is made ready and the part itself left out. Prints the bytes that the
/// variables take at the end, how many calls were refused, and the nanoseconds.
pub fn measure(
    rt: &HostRuntime,
    input: &[u8],
    part: &str,
    size: u32,
    wanted: bool,
) -> io::Result<()> {
    let Some((image, text)) = input.split_at_checked(size as usize) else {
        return Err(Error::from(ErrorKind::InvalidInput));
    };
    let Ok(calls) = parse_import(rt.alloc(), text) else {
        return Err(Error::from(ErrorKind::InvalidInput));
    };
    if part == "load" {
        return measure_load(rt, image, wanted);
    }
    let defaults = Vars::empty(rt.alloc(), 1);
    let mut vars = load_image(rt.alloc(), image)?;
    let mut refused = 0;
    let start = Instant::now(rt)?;
    if wanted {
        refused = make(&mut vars, part, &calls, &defaults);
    }
    let taken = start.elapsed(rt)?.as_nanos();
    println!(rt; "{} {refused} {taken}", vars.used())
}

/// The load of an image's area, once the image is known to be good.
fn measure_load(rt: &HostRuntime, image: &[u8], wanted: bool) -> io::Result<()> {
    let area = data_area(image)?;
    let mut vars = Vars::empty(rt.alloc(), 1);
    let start = Instant::now(rt)?;
    if wanted {
        vars = load(rt.alloc(), area)?;
    }
    let taken = start.elapsed(rt)?.as_nanos();
    println!(rt; "{} 0 {taken}", vars.used())
}

/// Prints what a few writes leave, and how many look-ups then find nothing.
pub fn compare(rt: &HostRuntime) -> io::Result<()> {
    let Ok(calls) = parse_import(rt.alloc(), SHORT) else {
        return Err(Error::from(ErrorKind::OutOfMemory));
    };
    let defaults = Vars::empty(rt.alloc(), 1);
    let mut vars = Vars::empty(rt.alloc(), AMPLE_ROOM);
    let refused = make(&mut vars, "writes", &calls, &defaults);
    let missing = make(&mut vars, "gets", &calls, &defaults);
    println!(rt;
        "{} bytes, {refused} refused, {missing} missing",
        vars.used()
    )
}
