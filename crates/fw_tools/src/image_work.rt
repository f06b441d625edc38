//! `image`: the image of a text's variables is made, and printed or written into a file.
ghost use Rattle.std.specs.Prelude.{◌≡◌, IfOk, MatchResult, option_map};
ghost use Rattle.envimg_core.specs.Geometry.{room_of};
ghost use Rattle.fw_arguments.specs.ImageRequests.{image_request_view};
ghost use Rattle.fw_tools.specs.Said.{AreSame};
ghost use Rattle.fw_tools.specs.NewImages.{MakesImage, PutsOut, image_bytes};

use crate::halt::Halt;
use crate::new_image::new_image;
use crate::printing::print_text;
use crate::tool_messages::report;
use envimg_core::Geometry;
use envvars_core::Vars;
use fw_arguments::ImageRequest;
use fw_files::{Stop, System, read_variables, write_file};
use std::alloc::{AllocError, Global};
use std::io::Write;

/// Makes the image that is asked for, and answers the exit status.
pub(crate) fn make_image<'w, X: System + AllocGlobal, W: Write, E: Write>(
    rt: &X,
    asked: &ImageRequest<'w>,
    output: &mut W,
    errors: &mut E,
) -> Result<u8, Halt<'w>>
    ensures { MatchResult result (MakesImage (X.holds rt.now) (X.wrote rt.now) (image_request_view asked.now)
        (record { output = W.contents output.old; errors = E.contents errors.old })
        (record { output = W.contents output.new; errors = E.contents errors.new }))
        (λ _. AreSame (record { output = W.contents output.old; errors = E.contents errors.old })
        (record { output = W.contents output.new; errors = E.contents errors.new })) }
{
    let Some(geometry) = Geometry::with_order(asked.layout, asked.size, asked.order) else {
        // never: the size is one that the layout may have
        return Err(Halt::Files(Stop::Memory));
    };
    let vars = read_variables(rt, geometry.room(), asked.text)?;
    let image = image_of(rt.alloc(), geometry, asked.both, vars)?;
    put_out(rt, asked.output, &image, output, errors)
}

/// The bytes of the image.
fn image_of(
    alloc: Global,
    geometry: Geometry,
    both: bool,
    vars: Vars,
) -> Result<Vec<u8>, AllocError>
    requires { vars.room ≡ room_of geometry }
    ensures { IfOk result (λ image. image.items ≡ image_bytes geometry both vars.env) }
{
    match new_image(alloc, geometry, both, vars) {
        Ok(image) => Ok(image),
        Err(_) => Err(AllocError),
    }
}

/// Prints the image, or writes it into a file.
fn put_out<'w, X: System + AllocGlobal, W: Write, E: Write>(
    rt: &X,
    path: Option<&'w str>,
    image: &[u8],
    output: &mut W,
    errors: &mut E,
) -> Result<u8, Halt<'w>>
    ensures { MatchResult result (PutsOut (X.wrote rt.now) (option_map (λ p. p.now) path.entry) image.now
        (record { output = W.contents output.old; errors = E.contents errors.old })
        (record { output = W.contents output.new; errors = E.contents errors.new }))
        (λ _. AreSame (record { output = W.contents output.old; errors = E.contents errors.old })
        (record { output = W.contents output.new; errors = E.contents errors.new })) }
{
    match path {
        None => Ok(report(print_text(image, 0, output), errors)),
        Some(path) => match write_file(rt, path, image) {
            Ok(()) => Ok(0),
            Err(fault) => Err(Halt::at(path, fault)),
        },
    }
}
