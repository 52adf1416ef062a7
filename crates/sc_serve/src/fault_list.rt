//! The refusals of a system as lines, and what goes with them.

ghost use Rattle.std.specs.Prelude.{◌≡◌, ◌++◌, IfOk, None, OnOk};
ghost use Rattle.std.specs.List.{flat_map};
ghost use Rattle.sc_arguments.specs.declared.arguments.format.Format.TheVariants.{Text};
ghost use Rattle.sc_serve.specs.AllFaults as spec;
ghost use Rattle.sc_serve.specs.Refusal.{refused_line};

use crate::explaining::listing_notes;
use crate::json::{faults_array, made};
use crate::refusal::line_in;
use crate::serve::{Exit, root_if};
use crate::warned::warnings_of_text;
use sc_arguments::{CheckOptions, Format};
use sc_frontend::{Refused, Rejection};
use sc_places::Places;
use sc_source::source::Source;
use std::alloc::{AllocError, Global};

/// What goes with the lines of an answer: what is added on standard error, and the array that is written in place of the lines
/// if JSON is asked for.
#[derive(Drop)]
pub struct Beside {
    pub note: Result<Vec<u8>, AllocError>,
    pub array: Option<Vec<u8>>,
}

/// What goes with the lines on these refusals of a source text.
#[inline(never)]
pub fn write_beside(
    alloc: Global,
    options: &CheckOptions,
    places: &Places<'_>,
    refused: &[Refused],
) -> Result<Beside, AllocError>
    ensures { options.now.format ≡ Text → IfOk result (λ beside. beside.array ≡ None) }
{
    let explained = root_if(options.is_explained, &options.root);
    let warnings = warnings_of_text(alloc, places.source().text())?;
    let note = listing_notes(alloc, places, explained, refused, warnings.as_slice());
    let array = match options.format {
        Format::Text => None,
        Format::Json => {
            let root = &options.root;
            Some(faults_array(alloc, places, root, refused, warnings.as_slice())?)
        }
    };
    Ok(Beside { note, array })
}

/// The array that says why a source text is rejected, if JSON is asked for.
pub fn rejection_array(
    alloc: Global,
    options: &CheckOptions,
    source: &Source,
    rejection: &Rejection,
) -> Result<Option<Vec<u8>>, AllocError>
    ensures { options.now.format ≡ Text → IfOk result (λ array. array ≡ None) }
{
    match options.format {
        Format::Text => Ok(None),
        Format::Json => {
            let Some(refused) = Refused::by(rejection) else {
                return Ok(None);
            };
            let places = Places::of(alloc, source)?;
            made(faults_array(alloc, &places, &options.root, &[refused], &[]))
        }
    }
}

/// What the program ends with if these refusals are listed.
pub fn list_exit(refused: &[Refused]) -> Exit
    ensures { result ≡ spec.list_exit refused.now }
{
    match refused {
        [] => Exit::Done,
        [_, ..] => Exit::Refused,
    }
}

/// A line for each refusal, or `ok` if there is none.
pub fn list_text(
    alloc: Global,
    places: &Places<'_>,
    refused: &[Refused],
) -> Result<Vec<u8>, AllocError>
    ensures { IfOk result (λ text. text.items ≡ spec.list_text places.now refused.now) }
{
    match refused {
        [] => Vec::from_slice(alloc, b"ok\n"),
        [_, ..] => refused_lines(alloc, places, refused),
    }
}

/// A line for each refusal.
fn refused_lines(
    alloc: Global,
    places: &Places<'_>,
    refused: &[Refused],
) -> Result<Vec<u8>, AllocError>
    ensures { IfOk result (λ lines. lines.items ≡ flat_map (refused_line places.now) refused.now) }
{
    let mut lines = Vec::new(alloc);
    for one in refused {
        push_line(alloc, places, *one, &mut lines)?;
    }
    Ok(lines)
}

/// Adds the line that reports a refusal.
fn push_line(
    alloc: Global,
    places: &Places<'_>,
    refused: Refused,
    lines: &mut Vec<u8>,
) -> Result<(), AllocError>
    ensures { OnOk result (lines.new.items ≡ lines.old.items ++ refused_line places.now refused) }
{
    let line = line_in(alloc, refused, places)?;
    lines.extend_from_slice(line.as_bytes())
}
