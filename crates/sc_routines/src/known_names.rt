//! The slot of each name, and the handler that a tested object must have.

ghost use Rattle.std.specs.Prelude.{◌≡◌, map, slice_get};
ghost use Rattle.std.specs.Option.{option_map};
ghost use Rattle.sc_model.specs.Environments as environments;
ghost use Rattle.sc_rules.specs.Names as rules;
ghost use Rattle.sc_typing.specs.Views.{entity_of};
ghost use Rattle.sc_code.specs.Emitted as emitted;
ghost use Rattle.sc_code.specs.Places as places;
ghost use Rattle.sc_code.specs.View.{residence_of, tested_of};

use sc_code::{Residence, TestedType};
use sc_rules::Role;
use sc_rules::entity_types::{EntityType, Reserved, Tag};
use sc_typing::Entity;

/// The slot of the first entity of this name, with its type.
pub fn slot_named(name: &str, names: &[Entity]) -> Option<(usize, Option<EntityType>)>
    ensures { result ≡ places.slot_named name.now (map entity_of names.now) }
{
    for slot in 0..names.len() {
        if names[slot].name == name {
            return Some((slot, names[slot].entity_type));
        }
    }
    None
}

/// Whether it is a formal argument.
pub fn is_formal(role: Role) -> bool
    ensures { result ≡ environments.is_formal role }
{
    matches!(role, Role::Formal)
}

/// Whether it is the name of a separate block.
fn is_block(role: Role) -> bool
    ensures { result ≡ rules.is_block role }
{
    matches!(role, Role::Block)
}

/// The number, if the entity there is a formal.
fn formal_at(names: &[Entity], number: usize) -> Option<usize>
    ensures { result ≡ emitted.formal_at number (slice_get (map entity_of names.now) number) }
{
    match names.get(number) {
        None => None,
        Some(known) => {
            if is_formal(known.role) {
                Some(number)
            } else {
                None
            }
        }
    }
}

/// The slot of the name of a separate block, by its number among those.
fn block_slot(names: &[Entity], number: usize) -> Option<usize>
    ensures { result ≡ slice_get (emitted.block_slots (map entity_of names.now)) number }
{
    let mut left = number;
    for slot in 0..names.len() {
        if is_block(names[slot].role) {
            if left == 0 {
                return Some(slot);
            }
            left -= 1;
        }
    }
    None
}

/// On the handler of the object in the slot, if there is one.
fn with_slot(slot: Option<usize>) -> Residence
    ensures { residence_of result ≡ emitted.with_slot slot }
{
    match slot {
        None => Residence::Nowhere,
        Some(slot) => Residence::WithSlot(slot),
    }
}

/// Where an object with this tag lies.
fn residence(names: &[Entity], tag: Tag) -> Residence
    ensures { residence_of result ≡ emitted.residence (map entity_of names.now) tag }
{
    match tag {
        Tag::Own => Residence::OnCurrent,
        Tag::Any => Residence::Anywhere,
        Tag::None => Residence::Nowhere,
        Tag::With(Reserved::Formal(number)) => with_slot(formal_at(names, number)),
        Tag::With(Reserved::BlockName(number)) => with_slot(block_slot(names, number)),
    }
}

/// What an object test asks for by a type.
pub fn tested_type(names: &[Entity], asked: EntityType) -> TestedType
    ensures { tested_of result ≡ emitted.tested_type (map entity_of names.now) asked }
{
    TestedType {
        class: asked.class,
        residence: residence(names, asked.tag),
    }
}
