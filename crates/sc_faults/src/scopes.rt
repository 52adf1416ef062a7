//! The names that are known in a part of a routine, also where a rule fails around it.

ghost use Rattle.std.specs.Prelude.{◌≡◌, map};
ghost use Rattle.sc_tree.specs.View.{expr_of, head_of};
ghost use Rattle.sc_rules.specs.Judging as judging;
ghost use Rattle.sc_typing.specs.Views.{entity_of, routine_in};
ghost use Rattle.sc_typing.specs.Judges.{Knows};
ghost use Rattle.sc_faults.specs.Internal.Listing as listing;

use sc_rules::{Context, Position, Role};
use sc_tree::{Expr, Head};
use sc_typing::{CheckFault, Entity, RoutineContext, block_type, blocks};

/// Makes the names known that a condition gives where it holds, if the expressions that it tests have types.
#[tactic(auto, unfolding(sc_rules::specs::Judging::judge, sc_tree::specs::View::expr_of))]
pub fn give_names<'s>(
    routine: &RoutineContext<'_, 's>,
    context: Context,
    names: &mut Vec<Entity<'s>>,
    e: &'s Expr,
) -> Result<(), CheckFault>
    ensures { Knows (judging.judge_given (routine_in routine.now) context (map entity_of names.old.items)
        (expr_of e.now)) result (map entity_of names.new.items) }
{
    match e {
        Expr::Binary(_, operator, left, right) => {
            if !operator.is_and_then() {
                return Ok(());
            }
            give_names(routine, context, names, left)?;
            give_names(routine, context, names, right)
        }
        Expr::ObjectTest(_, declared, tested, name) => {
            let tested = routine.expression(context, Position::Plain, names, tested)?;
            names.push(Entity {
                name: name.as_str(),
                entity_type: routine.test_type(declared, tested.entity_type),
                role: Role::Test,
            })?;
            Ok(())
        }
        Expr::Integer(_, _) => Ok(()),
        Expr::Boolean(_, _) => Ok(()),
        Expr::Void(_) => Ok(()),
        Expr::Current(_) => Ok(()),
        Expr::Result(_) => Ok(()),
        Expr::Call(_) => Ok(()),
        Expr::Unary(_, _, _) => Ok(()),
    }
}

/// Makes the names of a block's heads known, if the expressions of the heads have types where these names are known.
#[tactic(auto, unfolding(sc_tree::specs::View::head_of))]
pub fn reserve_names<'s>(
    routine: &RoutineContext<'_, 's>,
    names: &[Entity<'s>],
    known: &mut Vec<Entity<'s>>,
    heads: &'s [Head],
) -> Result<(), CheckFault>
    ensures { Knows (listing.judge_reserved (routine_in routine.now) (map entity_of names.now)
        (map entity_of known.old.items) (map head_of heads.now)) result (map entity_of known.new.items) }
{
    for head in heads {
        let value = routine.expression(Context::Body, Position::Plain, names, &head.value)?;
        let number = blocks(known);
        known.push(Entity {
            name: head.name.as_str(),
            entity_type: block_type(number, value.entity_type),
            role: Role::Block,
        })?;
    }
    Ok(())
}
