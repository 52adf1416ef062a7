//! The meanings of the names of a text (ECMA-367, 8.5, 8.8, 8.19 and 8.23).

ghost use Rattle.std.specs.Prelude.{◌≡◌, map, string_bytes};
ghost use Rattle.std.specs.Option.{option_map};
ghost use Rattle.sc_tree.specs.View.{feature_of, kind_of, name_of, target_of, type_if_any, type_of};
ghost use Rattle.sc_class.specs.View.{entry_of};
ghost use Rattle.sc_class.specs.Tables.Features as features;
ghost use Rattle.sc_tree.specs.Properties as properties;
ghost use Rattle.sc_rules.specs.Names as spec;
ghost use Rattle.sc_typing.specs.Views.{entity_of, entry_if_any, routine_in, signature_in, meaning_in};
ghost use Rattle.sc_class.specs.SystemIn.{system_in};

use crate::declarations::names::{Entity, attached_if_any, entity_named};
use crate::declarations::types::{declared_type, given_type, given_type_if_any};
use crate::purity::Purity;
use sc_class::{ClassId, FeatureEntry, Tables};
use sc_rules::entity_types::{EntityType, Tag};
use sc_tree::{Declaration, DeclaredType, Expr, FeatureKind, Name};
use std::alloc::Global;

/// The routine, or the invariant, whose text is judged.
#[derive(Drop)]
pub struct RoutineContext<'t, 's> {
    pub alloc: Global,
    pub tables: &'t Tables<'s>,
    /// The number of the class that it belongs to.
    pub class: usize,
    pub formals: &'s [Declaration],
    /// The type of Result, if it is a function; it is none where the declaration is faulty.
    pub result: Option<Option<EntityType>>,
    /// Which functions are pure.
    pub purity: &'t Purity<'t, 's>,
}

/// The formals of what is called.
#[derive(Clone, Copy)]
pub enum Formals<'s> {
    /// Those that are declared.
    Declared(&'s [Declaration]),
    /// The one of `print`, which takes any value that is no reference.
    Printed,
}

/// What a call is judged by.
#[derive(Drop)]
pub struct Signature<'s> {
    /// The type of the target.
    pub target: EntityType,
    pub formals: Formals<'s>,
    /// The type that it gives, combined with the target's, if it isn't a procedure; it is none where the declaration is
    /// faulty.
    pub gives: Option<Option<EntityType>>,
    /// The routine that is called, if it is one.
    pub routine: Option<FeatureEntry<'s>>,
    /// Whether it is exported to no class.
    pub is_secret: bool,
}

/// What a name means.
#[derive(Drop)]
pub enum Meaning<'s> {
    /// Nothing.
    Unknown,
    /// Nothing that is known, since its target has no type.
    TargetUntyped,
    /// A feature or an entity.
    Named(Signature<'s>),
}

/// Whether a feature is exported to NONE, by the classes that it is exported to.
fn is_hidden(exports: &[Name]) -> bool
    ensures { result ≡ spec.is_hidden (map name_of exports.now) }
{
    match exports {
        [] => false,
        [first, ..] => first.as_str() == "none",
    }
}

/// Whether it is the name of the feature that every class has.
pub fn is_print(name: &str) -> bool
    ensures { result ≡ properties.is_print name.now }
{
    name == "print"
}

/// A feature after a target of this type.
#[tactic(auto, unfolding(sc_tree::specs::View::feature_of, sc_tree::specs::View::kind_of))]
fn signature_of<'s>(tables: &Tables, target: EntityType, entry: FeatureEntry<'s>) -> Signature<'s>
    ensures { signature_in (system_in tables.now) result
        ≡ spec.signature_of (system_in tables.now) target (entry_of entry.entry) }
{
    let is_secret = is_hidden(&entry.feature.exports);
    match &entry.feature.kind {
        FeatureKind::Attribute(declared) => Signature {
            target,
            formals: Formals::Declared(&[]),
            gives: Some(given_type(tables, target, declared)),
            routine: None,
            is_secret,
        },
        FeatureKind::Routine(routine) => Signature {
            target,
            formals: Formals::Declared(&routine.formals),
            gives: given_type_if_any(tables, target, &routine.result_type),
            routine: Some(entry),
            is_secret,
        },
    }
}

/// What a name means after a target of this type, by the feature that is found.
fn meaning_of_feature<'s>(
    tables: &Tables,
    target: EntityType,
    entry: Option<FeatureEntry<'s>>,
) -> Meaning<'s>
    ensures { meaning_in (system_in tables.now) result
        ≡ spec.meaning_of_feature (system_in tables.now) target (entry_if_any entry.entry) }
{
    match entry {
        None => Meaning::Unknown,
        Some(entry) => Meaning::Named(signature_of(tables, target, entry)),
    }
}

impl<'t, 's> RoutineContext<'t, 's> {
    /// The type of Current.
    pub fn current(&self) -> EntityType
        ensures { result ≡ spec.current (routine_in self.now) }
    {
        EntityType {
            attached: true,
            tag: Tag::Own,
            class: ClassId::Declared(self.class),
        }
    }

    /// The type of an object test's name: the one that is tested, or else that of the tested expression.
    pub fn test_type(
        &self,
        declared: &Option<DeclaredType>,
        tested: Option<EntityType>,
    ) -> Option<EntityType>
        ensures { result ≡ spec.test_type (routine_in self.now) (type_if_any declared.now) tested }
    {
        match declared {
            None => attached_if_any(tested),
            Some(declared) => attached_if_any(declared_type(self.tables, self.formals, declared)),
        }
    }

    /// What a call of `print` is judged by.
    fn print_signature(&self) -> Signature<'s>
        ensures { signature_in (system_in self.now.tables.now) result ≡ spec.print_signature (routine_in self.now) }
    {
        Signature {
            target: self.current(),
            formals: Formals::Printed,
            gives: None,
            routine: None,
            is_secret: false,
        }
    }

    /// What the use of an entity is judged by.
    fn entity_signature(&self, known: Entity) -> Signature<'s>
        ensures { signature_in (system_in self.now.tables.now) result
            ≡ spec.entity_signature (routine_in self.now) (entity_of known.entry) }
    {
        Signature {
            target: self.current(),
            formals: Formals::Declared(&[]),
            gives: Some(known.entity_type),
            routine: None,
            is_secret: false,
        }
    }

    /// What a name means that is no entity: `print`, or a feature of the class.
    fn feature_meaning(&self, name: &str) -> Meaning<'s>
        ensures { meaning_in (system_in self.now.tables.now) result
            ≡ spec.feature_meaning (routine_in self.now) name.now }
    {
        if is_print(name) {
            return Meaning::Named(self.print_signature());
        }
        let entry = self.tables.feature(ClassId::Declared(self.class), name);
        meaning_of_feature(self.tables, self.current(), entry)
    }

    /// What a name means without a target.
    fn unqualified_meaning(&self, names: &[Entity], name: &str) -> Meaning<'s>
        ensures { meaning_in (system_in self.now.tables.now) result
            ≡ spec.unqualified_meaning (routine_in self.now) (map entity_of names.now) name.now }
    {
        match entity_named(name, names) {
            None => self.feature_meaning(name),
            Some(known) => Meaning::Named(self.entity_signature(known)),
        }
    }

    /// What a name means after a target of this type.
    pub fn qualified_meaning(&self, target: EntityType, name: &str) -> Meaning<'s>
        ensures { meaning_in (system_in self.now.tables.now) result
            ≡ spec.qualified_meaning (routine_in self.now) target name.now }
    {
        let entry = self.tables.feature(target.class, name);
        meaning_of_feature(self.tables, target, entry)
    }

    /// What a name means in a call, after a target of this type if it has one.
    pub fn meaning_of(
        &self,
        names: &[Entity],
        target: &Option<Box<Expr>>,
        target_type: Option<EntityType>,
        name: &Name,
    ) -> Meaning<'s>
        ensures { meaning_in (system_in self.now.tables.now) result
            ≡ spec.meaning_of (routine_in self.now) (map entity_of names.now) (target_of target.now) target_type
            (name_of name.now) }
    {
        match target {
            None => self.unqualified_meaning(names, name.as_str()),
            Some(_) => match target_type {
                None => Meaning::TargetUntyped,
                Some(target) => self.qualified_meaning(target, name.as_str()),
            },
        }
    }
}
