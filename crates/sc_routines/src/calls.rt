//! Calls.

ghost use Rattle.std.specs.Prelude.{◌≡◌, ◌++◌, OnOk, map};
ghost use Rattle.std.specs.Option.{option_map};
ghost use Rattle.sc_tree.specs.View.{declaration_of};
ghost use Rattle.sc_class.specs.SystemIn.{system_in};
ghost use Rattle.sc_rules.specs.Names as names;
ghost use Rattle.sc_rules.specs.Types as types;
ghost use Rattle.sc_model.specs.Calls as model;
ghost use Rattle.sc_typing.specs.Views.{formals_in, signature_in};
ghost use Rattle.sc_code.specs.Emitted as emitted;
ghost use Rattle.sc_code.specs.Places as places;
ghost use Rattle.sc_routines.specs.Parts.{formal_types, site_named};
ghost use Rattle.sc_routines.specs.Settings.{setting_in};
ghost use Rattle.sc_routines.specs.Unlinked.{unlinked_call};

use crate::code::Code;
use crate::setting::Setting;
use crate::unlinked::{UnlinkedCall, UnlinkedOperation};
use sc_class::Tables;
use sc_code::TextSite;
use sc_rules::entity_types::{EntityType, Tag};
use sc_tree::Declaration;
use sc_typing::{Formals, Meaning, Signature, declared_type};
use std::alloc::AllocError;

/// The type, if there is one.
pub fn known_type(given: Option<Option<EntityType>>) -> Option<EntityType>
    ensures { result ≡ places.known_type given }
{
    match given {
        None => None,
        Some(given) => given,
    }
}

/// Whether what is given is of an attached type, where something is.
pub fn gives_attached(given: Option<Option<EntityType>>) -> Option<bool>
    ensures { result ≡ emitted.gives_of given }
{
    match known_type(given) {
        None => None,
        Some(given) => Some(given.attached),
    }
}

/// Whether the tag is that of the current handler.
fn is_own(tag: Tag) -> bool
    ensures { result ≡ emitted.is_own tag }
{
    matches!(tag, Tag::Own)
}

/// Whether the type is attached and its handler the current one, or one that is reserved.
fn is_controlled(actual: EntityType) -> bool
    ensures { result ≡ types.is_controlled actual }
{
    actual.attached && matches!(actual.tag, Tag::Own | Tag::With(_))
}

/// Whether an actual of this type is a controlled reference that goes to an attached formal.
fn passes_one(formal: Option<EntityType>, actual: EntityType) -> bool
    ensures { result ≡ model.passes_one (names.formal_type formal) actual }
{
    match formal {
        None => false,
        Some(formal) => formal.attached && is_controlled(actual) && !actual.is_expanded(),
    }
}

/// Whether a call with actuals of these types passes locks to these formals.
fn declared_types_pass(tables: &Tables, formals: &[Declaration], actuals: &[EntityType]) -> bool
    ensures { result ≡ emitted.types_pass (formal_types (system_in tables.now) (map declaration_of formals.now)) actuals.now }
{
    for number in 0..formals.len() {
        if actuals.len() <= number {
            return false;
        }
        let formal = declared_type(tables, formals, &formals[number].declared_type);
        if passes_one(formal, actuals[number]) {
            return true;
        }
    }
    false
}

/// Whether a call with actuals of these types passes locks.
pub fn types_pass(tables: &Tables, formals: Formals, actuals: &[EntityType]) -> bool
    ensures { result ≡ emitted.types_pass (formals_in (system_in tables.now) formals.entry) actuals.now }
{
    match formals {
        Formals::Declared(formals) => declared_types_pass(tables, formals, actuals),
        Formals::Printed => false,
    }
}

/// A call of the feature with this signature after a target of this type.
fn site_of<'s>(
    tables: &Tables,
    name: &'s str,
    target: EntityType,
    signature: &Signature,
    actuals: &[EntityType],
    count: usize,
) -> UnlinkedCall<'s>
    ensures { unlinked_call result ≡ emitted.site_of name.now count target actuals.now (signature_in (system_in tables.now) signature.now) }
{
    UnlinkedCall {
        name,
        count,
        gives: gives_attached(signature.gives),
        is_own: is_own(target.tag),
        passes: types_pass(tables, signature.formals, actuals),
    }
}

impl<'t, 's> Setting<'t, 's> {
    /// A call of the feature of this name after a target of this type, if there is such a feature.
    fn call_site(
        &self,
        name: &'s str,
        target: EntityType,
        actuals: &[EntityType],
        count: usize,
    ) -> Option<UnlinkedCall<'s>>
        ensures { option_map unlinked_call result ≡ site_named (system_in self.now.context.tables.now) name.now count target actuals.now }
    {
        match self.context.qualified_meaning(target, name) {
            Meaning::Named(signature) => Some(site_of(
                self.context.tables,
                name,
                target,
                &signature,
                actuals,
                count,
            )),
            Meaning::Unknown | Meaning::TargetUntyped => None,
        }
    }

    /// Adds a call of a routine of Current, if the class has a feature of the name.
    pub fn push_routine_call(
        &self,
        code: &mut Code<'s>,
        site: TextSite,
        name: &'s str,
        actuals: &[EntityType],
        count: usize,
    ) -> Result<(), AllocError>
        ensures { OnOk result (code.new ≡ code.old ++ emitted.routine_call (setting_in self.now) name.now count actuals.now) }
    {
        match self.call_site(name, self.context.current(), actuals, count) {
            None => Ok(()),
            Some(call) => code.push(site, UnlinkedOperation::CallRoutine(call)),
        }
    }

    /// Adds a call of a feature of a target of this type, if there is one.
    pub fn push_feature_call(
        &self,
        code: &mut Code<'s>,
        site: TextSite,
        name: &'s str,
        target: Option<EntityType>,
        actuals: &[EntityType],
        count: usize,
    ) -> Result<(), AllocError>
        ensures { OnOk result (code.new ≡ code.old ++ emitted.feature_call (setting_in self.now) name.now count target actuals.now) }
    {
        let Some(target) = target else {
            return Ok(());
        };
        match self.call_site(name, target, actuals, count) {
            None => Ok(()),
            Some(call) => code.push(site, UnlinkedOperation::CallFeature(call)),
        }
    }
}
