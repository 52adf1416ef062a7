//! The line that reports a refusal of a source text.

ghost use Rattle.std.specs.Prelude.{◌≡◌, IfOk, Some, string_bytes};
ghost use Rattle.std.specs.Option.{option_map};
ghost use Rattle.sc_source.specs.Source.{seen};
ghost use Rattle.sc_serve.specs.Refusal as spec;

use sc_frontend::Refused;
use sc_places::Places;
use sc_source::source::{Place, Source};
use std::alloc::{AllocError, Global};

/// The line that reports a refusal, `refused CODE Name FILE:LINE:COLUMN`, with the place at which its part of the text
/// begins, or without a place.
pub fn line_of(alloc: Global, refused: Refused, source: &Source) -> Result<String, AllocError>
    ensures { IfOk result (λ line. string_bytes line ≡ spec.refused_line source.now refused) }
{
    let place = match refused.span {
        Some(span) => source.place_of(span.start as usize),
        None => None,
    };
    line_at(alloc, refused.code.code(), refused.code.name(), place)
}

/// The line that reports a refusal, as `line_of` returns it. The place is looked up in the table of the text's lines.
pub fn line_in(alloc: Global, refused: Refused, places: &Places<'_>) -> Result<String, AllocError>
    ensures { IfOk result (λ line. string_bytes line ≡ spec.refused_line places.now refused) }
{
    let place = match refused.span {
        Some(span) => places.place_of(span.start as usize),
        None => None,
    };
    line_at(alloc, refused.code.code(), refused.code.name(), place)
}

/// The line that reports a refusal of this code and name, at this place if there is one.
fn line_at(
    alloc: Global,
    code: &str,
    name: &str,
    place: Option<Place<'_>>,
) -> Result<String, AllocError>
    ensures { IfOk result (λ line. string_bytes line ≡ spec.refusal_line code.now name.now (option_map seen
        place.entry)) }
{
    match place {
        Some(Place { file, line, column }) => placed_line(alloc, code, name, file, line, column),
        None => format!(in alloc; "refused {code} {name}\n"),
    }
}

/// The line that reports a refusal of this code and name, at a place.
fn placed_line(
    alloc: Global,
    code: &str,
    name: &str,
    file: &str,
    line: usize,
    column: usize,
) -> Result<String, AllocError>
    ensures { IfOk result (λ text. string_bytes text ≡ spec.refusal_line code.now name.now
        (Some (record { file = file.now; line = line; column = column }))) }
{
    format!(in alloc; "refused {code} {name} {file}:{line}:{column}\n")
}
