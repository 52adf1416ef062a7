//! The attributes of a class.

ghost use Rattle.std.specs.Prelude.{◌≡◌, ◌<◌, IfOk, IfSome, length, map, position};
ghost use Rattle.std.specs.Option.{option_map};
ghost use Rattle.sc_tree.specs.View.{feature_of};
ghost use Rattle.sc_class.specs.SystemIn.{system_in};
ghost use Rattle.sc_class.specs.Tables.Features.{declared_features, declared_in, features};
ghost use Rattle.sc_model.specs.Objects.{fresh_attribute, fresh_attributes};
ghost use Rattle.sc_model.specs.Values.{default_of};
ghost use Rattle.sc_model.specs.Invariants.{attribute_named};
ghost use Rattle.sc_lower.specs.AttributeBindings.{AreOwnAttributes, binding_of, is_named, own_attributes};

use sc_class::{ClassId, Tables};
use sc_rules::entity_types::EntityType;
use sc_text::Span;
use sc_tree::{Feature, FeatureKind};
use sc_typing::declared_type;
use std::alloc::{AllocError, Global};

/// An attribute of a class, inherited ones too.
#[derive(Clone, Copy)]
pub struct Attribute<'s> {
    pub name: &'s str,
    /// The place of its name.
    pub span: Span,
    pub entity_type: EntityType,
}

/// The place of the first attribute of the name.
fn place(attributes: &[Attribute<'_>], name: &str) -> Option<usize>
    ensures { result ≡ position (is_named name.now) attributes.now }
{
    attributes
        .iter()
        .position(|attribute| attribute.name == name)
}

/// The number of the first attribute of the name, and its class. It looks at each attribute at most once.
#[tactic(auto, using(crate::proofs::NamedAttributes::finding))]
pub fn find(attributes: &[Attribute<'_>], name: &str) -> Option<(usize, ClassId)>
    ensures found { option_map (λ found. (found.0, default_of found.1)) result ≡ attribute_named name.now (map binding_of attributes.now) }
    ensures within { IfSome result (λ found. found.0 < length attributes.now) }
{
    match place(attributes, name) {
        None => None,
        Some(place) => Some((place, attributes[place].entity_type.class)),
    }
}

/// The attribute that a feature declares.
#[tactic(auto, unfolding(sc_tree::specs::View::feature_of, sc_tree::specs::View::kind_of))]
fn declared_attribute<'s>(tables: &Tables<'s>, feature: &'s Feature) -> Option<Attribute<'s>>
    ensures { option_map binding_of result ≡ fresh_attribute (system_in tables.now) (feature_of feature.now).name.text (feature_of feature.now).kind }
{
    match &feature.kind {
        FeatureKind::Routine(_) => None,
        FeatureKind::Attribute(declared) => match declared_type(tables, &[], declared) {
            None => None,
            Some(entity_type) => Some(Attribute {
                name: feature.name.as_str(),
                span: feature.name.span,
                entity_type,
            }),
        },
    }
}

/// The features that the class at the number declares itself.
#[tactic(auto, unfolding(sc_tree::specs::View::class_of))]
fn own_features<'s>(tables: &Tables<'s>, class: usize) -> &'s [Feature]
    ensures { map (declared_in class) (map feature_of result.now) ≡ declared_features (system_in tables.now) class }
{
    match tables.class(class) {
        Some(text) => &text.features,
        None => &[],
    }
}

/// The attributes that the class at the number declares itself, in the order of its text.
fn attributes_declared<'s>(
    alloc: Global,
    tables: &Tables<'s>,
    class: usize,
) -> Result<Vec<Attribute<'s>>, AllocError>
    ensures { IfOk result (λ attributes. map binding_of attributes.items ≡ own_attributes (system_in tables.now) class) }
{
    let mut attributes = Vec::new(alloc);
    for feature in own_features(tables, class) {
        if let Some(attribute) = declared_attribute(tables, feature) {
            attributes.push(attribute)?;
        }
    }
    Ok(attributes)
}

/// The attributes that each class declares itself, by the number of the class.
#[tactic(auto, using(crate::proofs::Ranges::ranges))]
pub fn own_attributes<'s>(
    alloc: Global,
    tables: &Tables<'s>,
) -> Result<Vec<Vec<Attribute<'s>>>, AllocError>
    ensures { IfOk result (λ own. AreOwnAttributes (system_in tables.now) own.items) }
{
    let mut own = Vec::new(alloc);
    for class in 0..tables.classes().len() {
        own.push(attributes_declared(alloc, tables, class)?)?;
    }
    Ok(own)
}

/// The list of the class at the number; none if there is no such class. The classes declare these attributes themselves.
#[tactic(auto, using(crate::proofs::InheritedAttributes::own_lists))]
fn list_at<'a, 's>(
    tables: &Tables<'s>,
    own: &'a [Vec<Attribute<'s>>],
    class: usize,
) -> &'a [Attribute<'s>]
    requires { AreOwnAttributes (system_in tables.now) own.now }
    ensures { map binding_of result.now ≡ own_attributes (system_in tables.now) class }
{
    match own.get(class) {
        Some(declared) => declared,
        None => &[],
    }
}

/// The attributes of the class at the number: its own, then its parent's, and so on. The classes declare these
/// themselves.
pub fn class_attributes<'s>(
    alloc: Global,
    tables: &Tables<'s>,
    own: &[Vec<Attribute<'s>>],
    class: usize,
) -> Result<Vec<Attribute<'s>>, AllocError>
    requires own { AreOwnAttributes (system_in tables.now) own.now }
    requires there { class < length (system_in tables.now).classes }
    ensures { IfOk result (λ attributes. map binding_of attributes.items
        ≡ fresh_attributes (system_in tables.now) (features (system_in tables.now) class)) }
{
    let mut attributes = Vec::new(alloc);
    for ancestor in tables.ancestors(ClassId::Declared(class)) {
        attributes.extend_from_slice(list_at(tables, own, *ancestor))?;
    }
    Ok(attributes)
}
