//! What is assigned or created (ECMA-367, 8.20 and 8.22).

ghost use Rattle.std.specs.Prelude.{◌≡◌, map};
ghost use Rattle.sc_tree.specs.View.{kind_of, variable_of};
ghost use Rattle.sc_rules.specs.Names as spec;
ghost use Rattle.sc_typing.specs.Views.{assignee_in, entity_of, entry_if_any, routine_in};

use crate::declarations::names::{Entity, entity_named, is_local};
use crate::declarations::types::given_type;
use crate::routine_context::{RoutineContext, is_print};
use sc_class::{ClassId, FeatureEntry};
use sc_rules::entity_types::EntityType;
use sc_text::Span;
use sc_tree::{FeatureKind, Variable};

/// What a name on the left side means.
#[derive(Clone, Copy)]
pub enum Assignee {
    /// Nothing.
    Unknown,
    /// Something that can't be assigned.
    NotAssignable,
    /// A local or Result, of this type.
    Local(Option<EntityType>),
    /// An attribute, of this type.
    Attribute(Option<EntityType>),
}

/// The place of the left side.
pub fn variable_span(variable: &Variable) -> Span
    ensures { result ≡ spec.variable_span (variable_of variable.now) }
{
    match variable {
        Variable::Named(name) => name.span,
        Variable::Result(span) => *span,
    }
}

/// What a name in scope means on the left side.
fn assignee_of_entity(known: Entity) -> Assignee
    ensures { assignee_in result ≡ spec.assignee_of_entity (entity_of known.entry) }
{
    if is_local(known.role) {
        Assignee::Local(known.entity_type)
    } else {
        Assignee::NotAssignable
    }
}

/// What Result means on the left side, by the routine's result type.
fn assignee_of_result(result_type: Option<Option<EntityType>>) -> Assignee
    ensures { assignee_in result ≡ spec.assignee_of_result result_type }
{
    match result_type {
        None => Assignee::NotAssignable,
        Some(result_type) => Assignee::Local(result_type),
    }
}

impl<'t, 's> RoutineContext<'t, 's> {
    /// What a feature of the class means on the left side.
    #[tactic(auto, unfolding(sc_tree::specs::View::kind_of))]
    fn assignee_of_kind(&self, kind: &FeatureKind) -> Assignee
        ensures { assignee_in result ≡ spec.assignee_of_kind (routine_in self.now) (kind_of kind.now) }
    {
        match kind {
            FeatureKind::Attribute(declared) => {
                Assignee::Attribute(given_type(self.tables, self.current(), declared))
            }
            FeatureKind::Routine(_) => Assignee::NotAssignable,
        }
    }

    /// What the feature that is found means on the left side.
    #[tactic(auto, unfolding(sc_tree::specs::View::feature_of))]
    fn assignee_of_feature(&self, entry: Option<FeatureEntry>) -> Assignee
        ensures { assignee_in result ≡ spec.assignee_of_feature (routine_in self.now) (entry_if_any entry.entry) }
    {
        match entry {
            None => Assignee::Unknown,
            Some(entry) => self.assignee_of_kind(&entry.feature.kind),
        }
    }

    /// What a name means on the left side: an entity, or else a feature of the class.
    fn assignee_named(&self, names: &[Entity], name: &str) -> Assignee
        ensures { assignee_in result
            ≡ spec.assignee_or (routine_in self.now) name.now (spec.entity_named name.now (map entity_of names.now)) }
    {
        match entity_named(name, names) {
            Some(known) => assignee_of_entity(known),
            None => {
                if is_print(name) {
                    return Assignee::NotAssignable;
                }
                let entry = self.tables.feature(ClassId::Declared(self.class), name);
                self.assignee_of_feature(entry)
            }
        }
    }

    /// What the left side of an assignment, or the entity of a creation, means.
    pub fn assignee(&self, names: &[Entity], variable: &Variable) -> Assignee
        ensures { assignee_in result
            ≡ spec.assignee (routine_in self.now) (map entity_of names.now) (variable_of variable.now) }
    {
        match variable {
            Variable::Named(name) => self.assignee_named(names, name.as_str()),
            Variable::Result(_) => assignee_of_result(self.result),
        }
    }
}
