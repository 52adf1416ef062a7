//! The names that are known in a part of a routine (ECMA-367, 8.8, 8.19 and 8.24).

ghost use Rattle.std.specs.Prelude.{◌≡◌, ◌++◌, OnOk, map};
ghost use Rattle.std.specs.Option.{option_map};
ghost use Rattle.sc_tree.specs.View.{declaration_of};
ghost use Rattle.sc_rules.specs.entity_types.Tags as tags;
ghost use Rattle.sc_rules.specs.Names as spec;
ghost use Rattle.sc_typing.specs.Views.{entity_of};
ghost use Rattle.sc_class.specs.SystemIn.{system_in};

use crate::declarations::types::declared_type;
use sc_class::Tables;
use sc_rules::Role;
use sc_rules::entity_types::{EntityType, Reserved, Tag};
use sc_tree::Declaration;
use std::alloc::AllocError;

/// A name that is known.
#[derive(Clone, Copy)]
pub struct Entity<'s> {
    pub name: &'s str,
    /// Its type, or none where its declaration is faulty.
    pub entity_type: Option<EntityType>,
    /// What it is.
    pub role: Role,
}

/// The first entity of this name.
pub fn entity_named<'s>(name: &str, names: &[Entity<'s>]) -> Option<Entity<'s>>
    ensures { option_map entity_of result ≡ spec.entity_named name.now (map entity_of names.now) }
{
    for known in names {
        if known.name == name {
            return Some(*known);
        }
    }
    None
}

/// Whether it is the tag of any handler.
fn is_any(tag: Tag) -> bool
    ensures { result ≡ tags.is_any tag }
{
    matches!(tag, Tag::Any)
}

/// The type that a formal has in its routine.
fn reserved(number: usize, declared: EntityType) -> EntityType
    ensures { result ≡ spec.reserved number declared }
{
    let tag = if declared.attached && is_any(declared.tag) {
        Tag::With(Reserved::Formal(number))
    } else {
        declared.tag
    };
    EntityType {
        attached: declared.attached,
        tag,
        class: declared.class,
    }
}

/// The type that a formal has in its routine, if its declaration is without fault.
fn reserved_if_any(number: usize, declared: Option<EntityType>) -> Option<EntityType>
    ensures { result ≡ option_map (spec.reserved number) declared }
{
    match declared {
        None => None,
        Some(declared) => Some(reserved(number, declared)),
    }
}

/// Makes the formals known.
pub fn add_formals<'s>(
    tables: &Tables,
    formals: &'s [Declaration],
    names: &mut Vec<Entity<'s>>,
) -> Result<(), AllocError>
    ensures { OnOk result (map entity_of names.new.items ≡ map entity_of names.old.items
        ++ spec.formals_known (system_in tables.now) (map declaration_of formals.now)) }
{
    for index in 0..formals.len() {
        let formal = &formals[index];
        let declared = declared_type(tables, formals, &formal.declared_type);
        names.push(Entity {
            name: formal.name.as_str(),
            entity_type: reserved_if_any(index, declared),
            role: Role::Formal,
        })?;
    }
    Ok(())
}

/// Makes the locals of a routine with these formals known.
pub fn add_locals<'s>(
    tables: &Tables,
    formals: &[Declaration],
    locals: &'s [Declaration],
    names: &mut Vec<Entity<'s>>,
) -> Result<(), AllocError>
    ensures { OnOk result (map entity_of names.new.items ≡ map entity_of names.old.items
        ++ spec.locals_known (system_in tables.now) (map declaration_of formals.now) (map declaration_of locals.now)) }
{
    for local in locals {
        names.push(Entity {
            name: local.name.as_str(),
            entity_type: declared_type(tables, formals, &local.declared_type),
            role: Role::Local,
        })?;
    }
    Ok(())
}

/// The type without Void.
fn attached(tested: EntityType) -> EntityType
    ensures { result ≡ spec.attached tested }
{
    EntityType {
        attached: true,
        tag: tested.tag,
        class: tested.class,
    }
}

/// The type of what is known to be no Void.
pub fn attached_if_any(tested: Option<EntityType>) -> Option<EntityType>
    ensures { result ≡ option_map spec.attached tested }
{
    match tested {
        None => None,
        Some(tested) => Some(attached(tested)),
    }
}

/// Whether it is the name of a separate block.
fn is_block(role: Role) -> bool
    ensures { result ≡ spec.is_block role }
{
    matches!(role, Role::Block)
}

/// Whether the name can be assigned.
pub fn is_local(role: Role) -> bool
    ensures { result ≡ spec.is_local role }
{
    matches!(role, Role::Local)
}

/// How many names of separate blocks are known.
pub fn blocks(names: &[Entity]) -> usize
    ensures { result ≡ spec.blocks (map entity_of names.now) }
{
    let mut count = 0;
    for known in names {
        if is_block(known.role) {
            count += 1;
        }
    }
    count
}

/// The type of a block's name, with this number of names in scope around the block and this type of its head.
pub fn block_type(number: usize, head: Option<EntityType>) -> Option<EntityType>
    ensures { result ≡ spec.block_type number head }
{
    match head {
        None => None,
        Some(head) => Some(EntityType {
            attached: true,
            tag: Tag::With(Reserved::BlockName(number)),
            class: head.class,
        }),
    }
}
