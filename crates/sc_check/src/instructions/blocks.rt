//! Separate blocks: the heads, and the names that they give.

ghost use Rattle.std.specs.Prelude.{◌≡◌, map};
ghost use Rattle.sc_tree.specs.View.{head_of};
ghost use Rattle.sc_rules.specs.TextRules as text;
ghost use Rattle.sc_rules.specs.JudgingText as judging_text;
ghost use Rattle.sc_typing.specs.Views.{routine_in, entity_of};
ghost use Rattle.sc_typing.specs.Judges.{Judges, Knows};
ghost use Rattle.sc_check.specs.BlockHeads as block_heads;

use crate::instructions::conforms_if_any;
use sc_class::ClassId;
use sc_rules::entity_types::{EntityType, Tag};
use sc_rules::{Context, Position, Role, Rule};
use sc_tree::Head;
use sc_typing::{CheckFault, Entity, RoutineContext, block_type, blocks, required};

/// The type that the head of a separate block has.
fn separate_any() -> EntityType
    ensures { result ≡ text.separate_any }
{
    EntityType {
        attached: true,
        tag: Tag::Any,
        class: ClassId::Any,
    }
}

/// Judges a head of a block, with this number of block names in scope in its body, and returns the name that it has
/// there.
#[tactic(auto, unfolding(sc_tree::specs::View::head_of))]
pub fn judge_head<'s>(
    routine: &RoutineContext<'_, 's>,
    names: &[Entity<'s>],
    number: usize,
    head: &'s Head,
) -> Result<Entity<'s>, CheckFault>
    ensures { Judges entity_of (block_heads.judge_head (routine_in routine.now) (map entity_of names.now) number
        (head_of head.now)) result }
{
    let value = routine.expression(Context::Body, Position::Plain, names, &head.value)?;
    let conforms = conforms_if_any(routine.tables, value.entity_type, Some(separate_any()));
    required(conforms, Rule::ArgumentType, head.value.span())?;
    Ok(Entity {
        name: head.name.as_str(),
        entity_type: block_type(number, value.entity_type),
        role: Role::Block,
    })
}

/// Judges the heads of a block, each where its own names aren't known, and makes these names known.
pub fn judge_heads<'s>(
    routine: &RoutineContext<'_, 's>,
    names: &mut Vec<Entity<'s>>,
    heads: &'s [Head],
) -> Result<(), CheckFault>
    ensures { Knows (judging_text.judge_heads (routine_in routine.now) (map entity_of names.old.items)
        (map entity_of names.old.items) (map head_of heads.now)) result (map entity_of names.new.items) }
{
    let known = names.len();
    for head in heads {
        let entity = judge_head(routine, &names[..known], blocks(names), head)?;
        names.push(entity)?;
    }
    Ok(())
}
