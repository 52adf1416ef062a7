//! What names are in a class.

ghost use Rattle.std.specs.Prelude.{◌≡◌, IfOk, map, string_bytes};
ghost use Rattle.sc_class.specs.SystemIn.{system_in};
ghost use Rattle.sc_class.specs.Tables.Features.{features};
ghost use Rattle.sc_class.specs.View.{entry_of};
ghost use Rattle.sc_model.specs.Objects.{fresh_attributes};
ghost use Rattle.sc_lower.specs.AttributeBindings.{binding_of};
ghost use Rattle.sc_code.specs.Programs.{entry_of_kind, version_entry};

use crate::program::attributes::{Attribute, find};
use sc_class::{ClassId, FeatureEntry};
use sc_code::FeatureCode;
use sc_tree::FeatureKind;
use sc_typing::Numbering;
use std::alloc::{AllocError, Global};

/// What a feature is in the class at the number, which has these attributes.
#[tactic(auto, unfolding(sc_tree::specs::View::feature_of, sc_tree::specs::View::kind_of))]
fn feature_version(
    numbering: &Numbering,
    attributes: &[Attribute],
    class: usize,
    entry: FeatureEntry,
) -> Option<FeatureCode>
    requires { map binding_of attributes.now ≡ fresh_attributes (system_in numbering.now.tables.now) (features (system_in numbering.now.tables.now) class) }
    ensures { result ≡ entry_of_kind (system_in numbering.now.tables.now) class (entry_of entry.entry) (entry_of entry.entry).feature.kind }
{
    let name = entry.feature.name.as_str();
    match &entry.feature.kind {
        FeatureKind::Attribute(_) => match find(attributes, name) {
            None => None,
            Some((number, _)) => Some(FeatureCode::Attribute(number)),
        },
        FeatureKind::Routine(_) => match numbering.number(entry.class, name) {
            None => None,
            Some(number) => Some(FeatureCode::Routine(number)),
        },
    }
}

/// What a name is in the class at the number, which has these attributes.
fn version_named(
    numbering: &Numbering,
    attributes: &[Attribute],
    class: usize,
    name: &str,
) -> Option<FeatureCode>
    requires { map binding_of attributes.now ≡ fresh_attributes (system_in numbering.now.tables.now) (features (system_in numbering.now.tables.now) class) }
    ensures { result ≡ version_entry (system_in numbering.now.tables.now) class name.now }
{
    match numbering.tables.feature(ClassId::Declared(class), name) {
        None => None,
        Some(feature) => feature_version(numbering, attributes, class, feature),
    }
}

/// What each of the names is in the class at the number, which has these attributes.
pub fn versions(
    alloc: Global,
    numbering: &Numbering,
    attributes: &[Attribute],
    class: usize,
    names: &[String],
) -> Result<Vec<Option<FeatureCode>>, AllocError>
    requires { map binding_of attributes.now ≡ fresh_attributes (system_in numbering.now.tables.now) (features (system_in numbering.now.tables.now) class) }
    ensures { IfOk result (λ versions. versions.items ≡ map (version_entry (system_in numbering.now.tables.now) class) (map string_bytes names.now)) }
{
    let mut versions = Vec::with_capacity(alloc, names.len())?;
    for name in names {
        versions.push(version_named(numbering, attributes, class, name.as_str()))?;
    }
    Ok(versions)
}
