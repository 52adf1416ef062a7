//! The names of a source text.

ghost use Rattle.std.specs.Prelude.{IfOk, IfSome};
ghost use Rattle.sc_tree.specs.View.{system_of};
ghost use Rattle.sc_class.specs.View.{root_of};
ghost use Rattle.sc_frontend.specs.Texts.{IsRead};
ghost use Rattle.sc_symbols.specs.Texts.{AreNamesIn, AreNamesOf};

use crate::classes::mentions_of;
use crate::symbol::Mention;
use sc_class::{ClassFault, Root, tables};
use sc_parse::{ParseFault, let_go, parse};
use sc_text::{LexFault, lex};
use sc_tree::System;
use std::alloc::{AllocError, Global};

/// The names of a text, and what each means, if it spells a system in which nothing is at fault in the classes. Rules may fail in
/// it: a name after a target without a type means nothing then.
///
/// # Errors
///
/// Memory ran out.
#[tactic(auto, using(crate::proofs::Readings::read_named))]
pub fn names_in(alloc: Global, text: &str, root: &Root) -> Result<Option<Vec<Mention>>, AllocError>
    ensures { IfOk result (λ names. IfSome names (λ mentions.
        AreNamesIn text.now (root_of root.now) mentions.items)) }
{
    let Some(system) = read(alloc, text)? else {
        return Ok(None);
    };
    let names = names_of(alloc, &system, root);
    let_go(system);
    names
}

/// The system of a text, if it spells one.
fn read(alloc: Global, text: &str) -> Result<Option<System>, AllocError>
    ensures { IfOk result (λ read. IfSome read (λ system. IsRead text.now (system_of system))) }
{
    let tokens = match lex(alloc, text) {
        Ok(tokens) => tokens,
        Err(LexFault::OutOfMemory) => return Err(AllocError),
        Err(_) => return Ok(None),
    };
    match parse(alloc, tokens.as_slice()) {
        Ok(system) => Ok(Some(system)),
        Err(ParseFault::OutOfMemory) => Err(AllocError),
        Err(_) => Ok(None),
    }
}

/// The names of a system, if nothing is at fault in its classes.
#[tactic(auto, using(crate::proofs::Readings::system_named))]
fn names_of(alloc: Global, system: &System, root: &Root) -> Result<Option<Vec<Mention>>, AllocError>
    ensures { IfOk result (λ names. IfSome names (λ mentions.
        AreNamesOf (system_of system.now) (root_of root.now) mentions.items)) }
{
    match tables(alloc, system, root) {
        Ok(classes) => Ok(Some(mentions_of(alloc, &classes)?)),
        Err(ClassFault::OutOfMemory) => Err(AllocError),
        Err(_) => Ok(None),
    }
}
