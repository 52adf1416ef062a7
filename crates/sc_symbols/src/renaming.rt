//! Another name for a symbol.

ghost use Rattle.std.specs.Prelude.{◌≡◌, true, IfOk, IfSome, OnOk, string_bytes};
ghost use Rattle.sc_class.specs.View.{root_of};
ghost use Rattle.sc_symbols.specs.Uses.{uses_of};
ghost use Rattle.sc_symbols.specs.Renaming as spec;
ghost use Rattle.sc_symbols.specs.Internal.{renamed_in};

use crate::meanings::Renaming;
use crate::reading::names_in;
use crate::symbol::Mention;
use crate::uses::uses_of;
use sc_class::Root;
use sc_frontend::{Rejection, check_text};
use sc_text::{LexFault, Span, TokenKind, lex};
use std::alloc::{AllocError, Global};

/// Why a symbol gets no other name.
#[derive(Clone, Copy)]
pub enum RenameFault {
    /// What is to be the new name is a reserved word, or no identifier.
    NotAName,
    /// With the new name the text would have a fault, as two names in one scope.
    Refused,
    /// With the new name some name of the text would mean something else.
    ChangesMeaning,
    OutOfMemory,
}

impl From<AllocError> for RenameFault {
    fn from(_error: AllocError) -> RenameFault {
        RenameFault::OutOfMemory
    }
}

/// The places at which the symbol with this origin is written in a text with these names, if it may have another name: then each
/// name of the text in which the new one stands at each of these places means what it meant before, and that text is accepted
/// if this one is.
///
/// # Errors
///
/// A [`RenameFault`].
pub fn rename(
    alloc: Global,
    text: &str,
    root: &Root,
    mentions: &[Mention],
    origin: Span,
    name: &str,
) -> Result<Vec<Span>, RenameFault>
    ensures places { IfOk result (λ uses. uses.items ≡ uses_of origin mentions.now) }
    ensures allowed { IfOk result (λ uses. spec.MayBeNamed text.now (root_of root.now) mentions.now
        (spec.renaming uses.items origin name.now) name.now) }
{
    let uses = uses_of(alloc, mentions, origin)?;
    let Ok(new_length) = u32::try_from(name.len()) else {
        return Err(RenameFault::NotAName);
    };
    let renaming = Renaming {
        uses: &uses,
        old_length: origin.end.saturating_sub(origin.start),
        new_length,
    };
    allow(alloc, text, root, mentions, &renaming, name)?;
    Ok(uses)
}

/// Whether a symbol may have this name.
#[tactic(auto, using(crate::proofs::NewNames::may_be_named))]
fn allow(
    alloc: Global,
    text: &str,
    root: &Root,
    mentions: &[Mention],
    renaming: &Renaming,
    name: &str,
) -> Result<(), RenameFault>
    ensures { OnOk result (spec.MayBeNamed text.now (root_of root.now) mentions.now (renamed_in renaming.now) name.now) }
{
    if !is_identifier(alloc, name)? {
        return Err(RenameFault::NotAName);
    }
    let Some(renamed) = renamed_text(alloc, text, renaming.uses, name)? else {
        return Err(RenameFault::Refused);
    };
    let Some(after) = names_in(alloc, renamed.as_str(), root)? else {
        return Err(RenameFault::Refused);
    };
    if !renaming.keeps_meaning(mentions, &after) {
        return Err(RenameFault::ChangesMeaning);
    }
    if !stays_accepted(alloc, text, renamed.as_str(), root)? {
        return Err(RenameFault::Refused);
    }
    Ok(())
}

/// Whether the text is one identifier, and no reserved word.
fn is_identifier(alloc: Global, text: &str) -> Result<bool, AllocError>
    ensures { IfOk result (λ is. is ≡ true → spec.IsIdentifier text.now) }
{
    let tokens = match lex(alloc, text) {
        Ok(tokens) => tokens,
        Err(LexFault::OutOfMemory) => return Err(AllocError),
        Err(_) => return Ok(false),
    };
    let [token] = tokens.as_slice() else {
        return Ok(false);
    };
    match &token.kind {
        TokenKind::Name(_) => Ok(token.span.start == 0 && token.span.end as usize == text.len()),
        _ => Ok(false),
    }
}

/// The text with this name at each of these places, if they are places of the text in its order.
#[tactic(auto, using(crate::proofs::NewNames::piece_next, crate::proofs::NewNames::piece_last))]
fn renamed_text(
    alloc: Global,
    text: &str,
    uses: &[Span],
    name: &str,
) -> Result<Option<String>, AllocError>
    ensures { IfOk result (λ changed. IfSome changed (λ text_now. string_bytes text_now ≡ spec.renamed text.now uses.now name.now)) }
{
    let mut renamed = String::new(alloc);
    let mut place = 0;
    for used in uses {
        let Some(before) = text.get(place..used.start as usize) else {
            return Ok(None);
        };
        renamed.push_str(before)?;
        renamed.push_str(name)?;
        place = used.end as usize;
    }
    let Some(rest) = text.get(place..) else {
        return Ok(None);
    };
    renamed.push_str(rest)?;
    Ok(Some(renamed))
}

/// Whether the new text is accepted, or the old one isn't.
fn stays_accepted(alloc: Global, text: &str, renamed: &str, root: &Root) -> Result<bool, AllocError>
    ensures { IfOk result (λ stays. stays ≡ true → spec.StaysAccepted text.now renamed.now (root_of root.now)) }
{
    match check_text(alloc, renamed, root) {
        Ok(()) => Ok(true),
        Err(Rejection::OutOfMemory) => Err(AllocError),
        Err(_) => is_refused(alloc, text, root),
    }
}

/// Whether a text isn't accepted.
#[tactic(auto, using(crate::proofs::NewNames::was_refused))]
fn is_refused(alloc: Global, text: &str, root: &Root) -> Result<bool, AllocError>
    ensures { IfOk result (λ is. is ≡ true → spec.WasRefused text.now (root_of root.now)) }
{
    match check_text(alloc, text, root) {
        Ok(()) => Ok(false),
        Err(Rejection::OutOfMemory) => Err(AllocError),
        Err(_) => Ok(true),
    }
}
