//! What is found in a system.

ghost use Rattle.std.specs.Prelude.{◌≡◌, ◌++◌, ◌<◌, ◌≤◌, [], ◌∷◌, IfOk, OnOk, length, map, string_bytes};
ghost use Rattle.sc_class.specs.View.{root_of};
ghost use Rattle.sc_language_server.specs.Findings as spec;

use crate::systems::{Joined, Part, Place};
use sc_class::Root;
use sc_explain_refusal::{Diagnosis, Related, diagnose, diagnose_all};
use sc_explain_text::{let_go, system_of};
use sc_frontend::{Refused, Rejection, check_parts};
use sc_parse::parse;
use sc_rules::RefusalCode;
use sc_text::{LexFault, Span, lex};
use sc_warnings::{Warning, warnings_of};
use std::alloc::{AllocError, Global};

/// A refusal or a warning.
#[derive(Drop)]
pub struct Finding {
    pub place: Place,
    /// The code of a refusal; none of a warning.
    pub code: Option<RefusalCode>,
    /// What is said of it, and the place that belongs to it.
    pub diagnosis: Diagnosis,
}

impl Finding {
    /// What is said of it.
    pub fn said(&self) -> &str {
        str::from_utf8(self.diagnosis.lines.as_slice())
            .unwrap_or("")
            .trim_end()
    }

    /// Whether no name of its document is known for it. A system without a root is run from one of its own.
    pub fn hides_names(&self) -> bool {
        match self.code {
            None | Some(RefusalCode::Rule(_) | RefusalCode::NoRoot) => false,
            Some(_) => true,
        }
    }

    /// Whether it has something of this part of a document, or touches it.
    pub fn touches(&self, place: Place) -> bool {
        self.place.touches(place)
    }
}

/// What is found in the system of a text: what is refused of it, then the warnings.
pub fn findings_in(alloc: Global, joined: &Joined, root: &Root) -> Result<Vec<Finding>, AllocError>
    ensures { IfOk result (λ findings. spec.AreFound (string_bytes joined.now.text) (root_of root.now) findings.items) }
{
    let mut findings = Vec::new(alloc);
    match check_parts(alloc, joined.text.as_str(), root) {
        Ok(refused) => push_all(alloc, &mut findings, joined, root, refused.as_slice())?,
        Err(rejection) => push_rejection(alloc, &mut findings, joined, root, &rejection)?,
    }
    push_warnings(alloc, &mut findings, joined)?;
    Ok(findings)
}

/// Adds each refusal, with what is said of it.
fn push_all(
    alloc: Global,
    findings: &mut Vec<Finding>,
    joined: &Joined,
    root: &Root,
    refused: &[Refused],
) -> Result<(), AllocError>
    ensures { OnOk result (spec.codes_of findings.new.items ≡ spec.codes_of findings.old.items ++ map spec.code_of refused.now) }
{
    let mut told = diagnose_all(alloc, joined.text.as_str(), root, refused)?.into_iter();
    for one in refused {
        let diagnosis = told.next().unwrap_or(Diagnosis {
            lines: Vec::new(alloc),
            related: None,
            edit: None,
        });
        push_refused(findings, joined, *one, diagnosis)?
    }
    Ok(())
}

/// Adds why a text isn't taken. If it can't be read, that is said of each of its documents that can't be read alone.
fn push_rejection(
    alloc: Global,
    findings: &mut Vec<Finding>,
    joined: &Joined,
    root: &Root,
    rejection: &Rejection,
) -> Result<(), AllocError>
    ensures { OnOk result (0 < length findings.new.items) }
{
    if is_unreadable(rejection) {
        push_unreadable(alloc, findings, joined, root)?;
        if !findings.is_empty() {
            return Ok(());
        }
    }
    let Some(refused) = Refused::by(rejection) else {
        return Err(AllocError);
    };
    let diagnosis = diagnose(alloc, joined.text.as_str(), root, refused)?;
    push_refused(findings, joined, refused, diagnosis)
}

/// Whether a text is rejected for what is written in a place of it.
fn is_unreadable(rejection: &Rejection) -> bool {
    match rejection {
        Rejection::Text(LexFault::SourceTooLong) => false,
        Rejection::Text(_) | Rejection::Grammar(_) => true,
        _ => false,
    }
}

/// Adds why the documents can't be read that can't be read alone.
fn push_unreadable(
    alloc: Global,
    findings: &mut Vec<Finding>,
    joined: &Joined,
    root: &Root,
) -> Result<(), AllocError> {
    for part in &joined.parts {
        if let Err(rejection) = read_alone(alloc, part.document.text()) {
            push_part(alloc, findings, joined, root, part, &rejection)?
        }
    }
    Ok(())
}

/// Adds why the text of a document isn't taken.
fn push_part(
    alloc: Global,
    findings: &mut Vec<Finding>,
    joined: &Joined,
    root: &Root,
    part: &Part,
    rejection: &Rejection,
) -> Result<(), AllocError> {
    let Some(refused) = Refused::by(rejection) else {
        return Err(AllocError);
    };
    let mut diagnosis = diagnose(alloc, part.document.text(), root, refused)?;
    if let Some(Related { what, span }) = diagnosis.related {
        let span = moved_on(span, part.start);
        diagnosis.related = Some(Related { what, span });
    }
    if let Some(edit) = &mut diagnosis.edit {
        edit.span = moved_on(edit.span, part.start);
    }
    let Refused { code, span } = refused;
    let span = match span {
        Some(span) => Some(moved_on(span, part.start)),
        None => None,
    };
    push_refused(findings, joined, Refused { code, span }, diagnosis)
}

/// A part of a document in the text of its system, if the document begins there.
fn moved_on(span: Span, start: usize) -> Span {
    let start = u32::try_from(start).unwrap_or(u32::MAX);
    Span {
        start: span.start.saturating_add(start),
        end: span.end.saturating_add(start),
    }
}

/// Reads a text: whether it can be read.
fn read_alone(alloc: Global, text: &str) -> Result<(), Rejection> {
    let tokens = lex(alloc, text)?;
    let_go(parse(alloc, tokens.as_slice())?);
    Ok(())
}

/// Adds a refusal of which this is said.
#[tactic(auto, using(crate::proofs::RefusalCodes::codes_last))]
fn push_refused(
    findings: &mut Vec<Finding>,
    joined: &Joined,
    refused: Refused,
    diagnosis: Diagnosis,
) -> Result<(), AllocError>
    ensures codes { OnOk result (spec.codes_of findings.new.items ≡ spec.codes_of findings.old.items ++ (refused.code ∷ [])) }
    ensures more { OnOk result (0 < length findings.new.items) }
{
    findings.push(Finding {
        place: joined.place_of(refused.span),
        code: Some(refused.code),
        diagnosis,
    })?;
    Ok(())
}

/// Adds the warnings of a text: none if it spells no system.
fn push_warnings(
    alloc: Global,
    findings: &mut Vec<Finding>,
    joined: &Joined,
) -> Result<(), AllocError>
    ensures codes { OnOk result (spec.codes_of findings.new.items ≡ spec.codes_of findings.old.items) }
    ensures more { OnOk result (length findings.old.items ≤ length findings.new.items) }
{
    let Some(system) = system_of(alloc, joined.text.as_str())? else {
        return Ok(());
    };
    let warnings = warnings_of(alloc, &system);
    let_go(system);
    for warning in &warnings? {
        push_warning(alloc, findings, joined, *warning)?
    }
    Ok(())
}

/// Adds a warning.
#[tactic(auto, using(crate::proofs::RefusalCodes::codes_last))]
fn push_warning(
    alloc: Global,
    findings: &mut Vec<Finding>,
    joined: &Joined,
    warning: Warning,
) -> Result<(), AllocError>
    ensures codes { OnOk result (spec.codes_of findings.new.items ≡ spec.codes_of findings.old.items) }
    ensures more { OnOk result (length findings.old.items ≤ length findings.new.items) }
{
    let lines = Vec::from_slice(alloc, warning.kind.message().as_bytes())?;
    findings.push(Finding {
        place: joined.place_of(Some(warning.span)),
        code: None,
        diagnosis: Diagnosis {
            lines,
            related: None,
            edit: None,
        },
    })?;
    Ok(())
}
