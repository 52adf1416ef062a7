//! The tables of classes.

ghost use Rattle.std.specs.Prelude.{◌≡◌, ◌<◌, ◌≤◌, IfOk, length, map, string_bytes};
ghost use Rattle.sc_formula.specs.Plain.{plain_formula};
ghost use Rattle.std.specs.Prelude.{None};
ghost use Rattle.sc_tree.specs.View.{clause_of};
ghost use Rattle.sc_class.specs.SystemIn.{system_in};
ghost use Rattle.sc_class.specs.Tables.Features.{declared_invariant};
ghost use Rattle.sc_model.specs.Environments.{Binding};
ghost use Rattle.sc_lower.specs.AttributeBindings.{AreOwnAttributes, binding_of};
ghost use Rattle.sc_lower.specs.ClassCodes.{conforming};
ghost use Rattle.sc_lower.specs.Formulas.{clauses_over};
ghost use Rattle.sc_code.specs.Attributes.{has_clauses, known_formulas, with_clauses};
ghost use Rattle.sc_code.specs.Programs.{attribute_in, class_in, class_code_of, class_codes_of};

use crate::program::attributes::{Attribute, class_attributes, own_attributes};
use crate::program::class_text::class_text;
use crate::program::invariant;
use crate::program::versions::versions;
use sc_class::{ClassId, Tables};
use sc_code::{AttributeCode, ClassCode, DefaultValue};
use sc_formula::Formula;
use sc_tree::Clause;
use sc_typing::Numbering;
use std::alloc::{AllocError, Global};

/// The defaults of the attributes.
fn attribute_codes(
    alloc: Global,
    attributes: &[Attribute],
) -> Result<Vec<AttributeCode>, AllocError>
    ensures { IfOk result (λ codes. map attribute_in codes.items ≡ map (λ (b : Binding). (b.value, b.type.attached)) (map binding_of attributes.now)) }
{
    let mut codes = Vec::with_capacity(alloc, attributes.len())?;
    for attribute in attributes {
        codes.push(AttributeCode {
            default: DefaultValue::of(attribute.entity_type.class),
            is_attached: attribute.entity_type.attached,
            name: attribute.span,
        })?;
    }
    Ok(codes)
}

/// Whether the class at the number conforms to each class.
#[tactic(auto, using(crate::proofs::Ranges::ranges))]
fn conforms(alloc: Global, tables: &Tables, class: usize) -> Result<Vec<bool>, AllocError>
    ensures { IfOk result (λ conforms. conforms.items
        ≡ conforming (system_in tables.now) class) }
{
    let mut conforms = Vec::new(alloc);
    for other in 0..tables.classes().len() {
        conforms.push(tables.class_conforms(ClassId::Declared(class), ClassId::Declared(other)))?;
    }
    Ok(conforms)
}

/// The clauses of an invariant over these attributes; `False` if one of them is no formula.
fn formulas(
    alloc: Global,
    attributes: &[Attribute],
    clauses: &[Clause],
) -> Result<Vec<Formula>, AllocError>
    requires { length attributes.now ≤ 256 }
    ensures { IfOk result (λ formulas. map plain_formula formulas.items ≡ known_formulas (clauses_over attributes.now clauses.now)) }
{
    match invariant::clauses(alloc, attributes, clauses)? {
        Some(formulas) => Ok(formulas),
        None => never_met(alloc),
    }
}

/// An invariant that no object meets.
#[tactic(auto, using(sc_formula::proofs::Plain::plain_trees))]
fn never_met(alloc: Global) -> Result<Vec<Formula>, AllocError>
    ensures { IfOk result (λ formulas. map plain_formula formulas.items ≡ known_formulas None) }
{
    let mut formulas = Vec::new(alloc);
    formulas.push(Formula::Constant(false))?;
    Ok(formulas)
}

/// The clauses that the class at the number declares itself.
#[tactic(auto, unfolding(sc_tree::specs::View::class_of))]
fn own_clauses<'s>(tables: &Tables<'s>, class: usize) -> &'s [Clause]
    ensures { map clause_of result.now ≡ declared_invariant (system_in tables.now) class }
{
    match tables.class(class) {
        Some(text) => &text.invariant,
        None => &[],
    }
}

/// Whether it declares any.
fn has_clauses(tables: &Tables, class: usize) -> bool
    ensures { result ≡ has_clauses (system_in tables.now) class }
{
    !own_clauses(tables, class).is_empty()
}

/// Those of the classes that declare clauses.
fn with_clauses(alloc: Global, tables: &Tables, classes: &[usize]) -> Result<Vec<usize>, AllocError>
    ensures { IfOk result (λ kept. kept.items ≡ with_clauses (system_in tables.now) classes.now) }
{
    classes
        .iter()
        .copied()
        .filter(|class| has_clauses(tables, *class))
        .collect(alloc)
}

/// The tables of the class at the number. Names have these numbers, and the classes declare these attributes
/// themselves.
fn class_code(
    alloc: Global,
    numbering: &Numbering,
    own: &[Vec<Attribute<'_>>],
    names: &[String],
    class: usize,
) -> Result<ClassCode, AllocError>
    requires own { AreOwnAttributes (system_in numbering.now.tables.now) own.now }
    requires there { class < length (system_in numbering.now.tables.now).classes }
    ensures { IfOk result (λ code. class_in code ≡ class_code_of (system_in numbering.now.tables.now) (map string_bytes names.now) class) }
{
    let tables = numbering.tables;
    let attributes = class_attributes(alloc, tables, own, class)?;
    let ancestors = tables.ancestors(ClassId::Declared(class));
    Ok(ClassCode {
        attributes: attribute_codes(alloc, &attributes)?,
        features: versions(alloc, numbering, &attributes, class, names)?,
        conforms: conforms(alloc, tables, class)?,
        invariant: formulas(alloc, &attributes, own_clauses(tables, class))?,
        invariant_classes: with_clauses(alloc, tables, ancestors)?,
        text: class_text(alloc, tables, class)?,
    })
}

/// The tables of each class. Names have these numbers.
#[tactic(auto, using(crate::proofs::Ranges::ranges))]
pub fn class_codes(
    alloc: Global,
    numbering: &Numbering,
    names: &[String],
) -> Result<Vec<ClassCode>, AllocError>
    ensures { IfOk result (λ codes. map class_in codes.items
        ≡ class_codes_of (system_in numbering.now.tables.now) (map string_bytes names.now)) }
{
    let own = own_attributes(alloc, numbering.tables)?;
    let mut codes = Vec::new(alloc);
    for class in 0..numbering.tables.classes().len() {
        codes.push(class_code(alloc, numbering, &own, names, class)?)?;
    }
    Ok(codes)
}
