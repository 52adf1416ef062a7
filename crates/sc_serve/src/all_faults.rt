//! What is answered to `check --all`.

ghost use Rattle.std.specs.Prelude.{◌≡◌, IfOk, None, map};
ghost use Rattle.sc_arguments.specs.declared.arguments.format.Format.TheVariants.{Text};
ghost use Rattle.sc_class.specs.View.{root_of};
ghost use Rattle.sc_serve.specs.AllFaults.{IsAllOf, IsAllOn, list_exit, list_text};
ghost use Rattle.sc_serve.specs.Answer.{IsRefusalOf};

use crate::fault_list::{Beside, list_exit, list_text, rejection_array, write_beside};
use crate::serve::{Answer, Fault, answer_explained, answer_unread, root_if};
use sc_arguments::CheckOptions;
use sc_frontend::{Refused, Rejection, check_parts};
use sc_places::Places;
use sc_source::files::{Files, read_source};
use sc_source::source::Source;
use sc_text::LexFault;
use std::alloc::Global;

/// Checks each part of the system of the named files on its own.
#[inline(never)]
pub fn answer_all_faults<'a, F: Files>(
    alloc: Global,
    options: &CheckOptions,
    files: &F,
    names: &[&'a str],
) -> Result<Answer<'a>, Fault<'a>>
    ensures answer { let named = map (λ name. name.now) names.now in
        let held = map (λ name. F.bytes_of files.now name.now) names.now in
        IfOk result (λ answer. IsAllOn options.now named held answer.text.items answer.exit) }
    ensures record { IfOk result (λ answer. answer.record ≡ None) }
    ensures object { options.now.format ≡ Text → IfOk result (λ answer. answer.object ≡ None) }
{
    match read_source(alloc, files, names) {
        Ok(source) => answer_parts(alloc, options, &source),
        Err(fault) => {
            let long = Rejection::Text(LexFault::SourceTooLong);
            let array = rejection_array(alloc, options, &Source::new(alloc), &long)?;
            let mut answer = answer_unread(alloc, names, fault, options.is_explained)?;
            answer.object = array;
            Ok(answer)
        }
    }
}

/// Checks each part of the system of a source text on its own.
fn answer_parts<'a>(
    alloc: Global,
    options: &CheckOptions,
    source: &Source,
) -> Result<Answer<'a>, Fault<'a>>
    ensures answer { IfOk result (λ answer.
        IsAllOf source.now (root_of options.now.root) answer.text.items answer.exit) }
    ensures record { IfOk result (λ answer. answer.record ≡ None) }
    ensures object { options.now.format ≡ Text → IfOk result (λ answer. answer.object ≡ None) }
{
    match check_parts(alloc, source.text(), &options.root) {
        Ok(refused) => answer_list(alloc, options, source, refused.as_slice()),
        Err(rejection) => answer_unreadable(alloc, options, source, &rejection),
    }
}

/// The answer if the source text spells a system, of which this is refused.
fn answer_list<'a>(
    alloc: Global,
    options: &CheckOptions,
    source: &Source,
    refused: &[Refused],
) -> Result<Answer<'a>, Fault<'a>>
    ensures answer { IfOk result (λ answer.
        (answer.text.items ≡ list_text source.now refused.now) × (answer.exit ≡ list_exit refused.now)) }
    ensures record { IfOk result (λ answer. answer.record ≡ None) }
    ensures object { options.now.format ≡ Text → IfOk result (λ answer. answer.object ≡ None) }
{
    let places = Places::of(alloc, source)?;
    let Beside { note, array } = write_beside(alloc, options, &places, refused)?;
    Ok(Answer {
        text: list_text(alloc, &places, refused)?,
        object: array,
        exit: list_exit(refused),
        note,
        record: None,
        beside: None,
    })
}

/// The answer if the source text spells no system.
fn answer_unreadable<'a>(
    alloc: Global,
    options: &CheckOptions,
    source: &Source,
    rejection: &Rejection,
) -> Result<Answer<'a>, Fault<'a>>
    ensures refused { IfOk result (λ answer. IsRefusalOf source.now rejection.now answer.text.items answer.exit) }
    ensures record { IfOk result (λ answer. answer.record ≡ None) }
    ensures object { options.now.format ≡ Text → IfOk result (λ answer. answer.object ≡ None) }
{
    let explained = root_if(options.is_explained, &options.root);
    let mut answer = answer_explained(alloc, source, rejection, explained)?;
    answer.object = rejection_array(alloc, options, source, rejection)?;
    Ok(answer)
}
