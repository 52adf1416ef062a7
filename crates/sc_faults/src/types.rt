//! The faults of declared types.

ghost use Rattle.std.specs.Prelude.{◌≡◌, ◌++◌, OnOk, is_some, map};
ghost use Rattle.sc_tree.specs.View.{declaration_of, handler_tag_of, type_if_any, type_of};
ghost use Rattle.sc_class.specs.SystemIn.{system_in};
ghost use Rattle.sc_rules.specs.Types as types;
ghost use Rattle.sc_typing.specs.Judges.{Passes};
ghost use Rattle.sc_faults.specs.Internal.Listing as listing;

use crate::found::{add, add_alone};
use sc_class::Tables;
use sc_rules::{Fault, Rule};
use sc_tree::{Declaration, DeclaredType, HandlerTag};
use sc_typing::{CheckFault, judge_type, required};
use std::alloc::{AllocError, Global};

/// Whether it is written `separate`.
fn is_separate(tag: &HandlerTag) -> bool
    ensures { result ≡ types.is_separate (handler_tag_of tag.now) }
{
    match tag {
        HandlerTag::Separate => true,
        HandlerTag::Own | HandlerTag::HandlerOf(_) => false,
    }
}

/// Whether a tag may name the formal: it is attached and `separate`.
fn is_nameable(formal: &Declaration) -> bool
    ensures { result ≡ types.is_nameable (declaration_of formal.now) }
{
    !formal.declared_type.is_detachable && is_separate(&formal.declared_type.tag)
}

/// Whether a tag may name a formal of this name.
fn is_named(name: &str, formals: &[Declaration]) -> bool
    ensures { result ≡ is_some (types.number_of_named name.now (map declaration_of formals.now)) }
{
    for formal in formals {
        if formal.name.as_str() == name {
            return is_nameable(formal);
        }
    }
    false
}

/// Whether a declared type may be written with this tag, if its tag may name these formals.
fn is_tag_known(formals: &[Declaration], tag: &HandlerTag) -> bool
    ensures { result ≡ is_some (types.declared_tag (map declaration_of formals.now) (handler_tag_of tag.now)) }
{
    match tag {
        HandlerTag::Own | HandlerTag::Separate => true,
        HandlerTag::HandlerOf(name) => is_named(name.as_str(), formals),
    }
}

/// Judges the tag of a declared type, whatever its class is.
fn judge_tag(formals: &[Declaration], declared: &DeclaredType) -> Result<(), CheckFault>
    ensures { Passes (listing.judge_tag (map declaration_of formals.now) (type_of declared.now)) result }
{
    let is_known = is_tag_known(formals, &declared.tag);
    required(is_known, Rule::TagName, declared.span)
}

/// Adds the faults of a declared type, whose tag may name these formals: of its class, and of its tag.
pub fn add_type(
    alloc: Global,
    tables: &Tables,
    formals: &[Declaration],
    declared: &DeclaredType,
    faults: &mut Vec<Fault>,
) -> Result<(), AllocError>
    ensures { OnOk result (faults.new.items ≡ faults.old.items ++ listing.faults_of_type (system_in tables.now)
        (map declaration_of formals.now) (type_of declared.now)) }
{
    let mut of_tag = Vec::new(alloc);
    add_alone(judge_tag(formals, declared), &mut of_tag)?;
    let judged = judge_type(tables, formals, declared);
    add(&judged, &mut of_tag, faults)
}

/// Adds the faults of a declared type, if one is written, whose tag may name these formals.
pub fn add_type_if_any(
    alloc: Global,
    tables: &Tables,
    formals: &[Declaration],
    declared: &Option<DeclaredType>,
    faults: &mut Vec<Fault>,
) -> Result<(), AllocError>
    ensures { OnOk result (faults.new.items ≡ faults.old.items ++ listing.faults_of_type_if_any (system_in tables.now)
        (map declaration_of formals.now) (type_if_any declared.now)) }
{
    match declared {
        None => Ok(()),
        Some(declared) => add_type(alloc, tables, formals, declared, faults),
    }
}
