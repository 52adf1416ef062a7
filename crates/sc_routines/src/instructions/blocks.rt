//! Separate blocks: the heads, and the names that they give.

ghost use Rattle.std.specs.Prelude.{◌≡◌, ◌++◌, [], IfOk, OnOk, map};
ghost use Rattle.sc_tree.specs.View.{head_of};
ghost use Rattle.sc_typing.specs.Views.{entity_of};
ghost use Rattle.sc_code.specs.Places.{head_types, with_heads};
ghost use Rattle.sc_code.specs.Emitted.{heads_code, heads_depth, names_of};
ghost use Rattle.sc_routines.specs.Settings.{setting_in};

use crate::code::Code;
use crate::leaves::push_type;
use crate::setting::Setting;
use crate::sums::sum;
use sc_rules::Role;
use sc_rules::entity_types::EntityType;
use sc_tree::Head;
use sc_typing::{Entity, block_type, blocks};
use std::alloc::AllocError;

/// What is found of the heads of a block.
#[derive(Drop)]
pub struct LoweredHeads {
    /// The static types of their values.
    pub types: Vec<EntityType>,
    /// How many operands they need at most.
    pub depth: usize,
}

/// Lowers the heads of a block, whose values stay among the operands.
#[tactic(auto, unfolding(sc_tree::specs::View::head_of))]
pub fn lower_heads<'s>(
    setting: &Setting<'_, 's>,
    names: &mut Vec<Entity<'s>>,
    code: &mut Code<'s>,
    heads: &'s [Head],
) -> Result<LoweredHeads, AllocError>
    ensures code { OnOk result (code.new ≡ code.old ++ heads_code (setting_in setting.now) (map entity_of names.old.items) (map head_of heads.now)) }
    ensures names { OnOk result (map entity_of names.new.items ≡ map entity_of names.old.items) }
    ensures types { IfOk result (λ l. l.types.items ≡ head_types (setting_in setting.now) (map entity_of names.old.items) (map head_of heads.now)) }
    ensures depth { IfOk result (λ l. l.depth ≡ heads_depth (setting_in setting.now) (map entity_of names.old.items) (map head_of heads.now)) }
{
    let mut types = Vec::new(setting.context.alloc);
    let mut depth = heads.len();
    for (place, head) in heads.iter().enumerate() {
        let value = setting.lower_expr(names, 0, code, &head.value)?;
        push_type(&mut types, value.value)?;
        depth = sum(place, value.depth)?.max(depth);
    }
    Ok(LoweredHeads { types, depth })
}

/// Makes the names of heads known whose values have these types.
#[tactic(auto, unfolding(sc_tree::specs::View::head_of))]
pub fn add_heads<'s>(
    names: &mut Vec<Entity<'s>>,
    heads: &'s [Head],
    types: &[EntityType],
) -> Result<(), AllocError>
    ensures { OnOk result (map entity_of names.new.items ≡ with_heads (names_of (map head_of heads.now)) types.now (map entity_of names.old.items)) }
{
    for place in 0..heads.len().min(types.len()) {
        names.push(Entity {
            name: heads[place].name.as_str(),
            entity_type: block_type(blocks(names), Some(types[place])),
            role: Role::Block,
        })?;
    }
    Ok(())
}
