//! The names in expressions, conditions and clauses.

ghost use Rattle.std.specs.Prelude.{◌≡◌, ◌++◌, IfOk, OnOk, map};
ghost use Rattle.std.specs.List.{flat_map};
ghost use Rattle.sc_tree.specs.View.{clause_of, expr_of, exprs_of, name_of, target_of, type_if_any};
ghost use Rattle.sc_typing.specs.Views.{entity_of, routine_in};
ghost use Rattle.sc_symbols.specs.Mentions as spec;
ghost use Rattle.sc_symbols.specs.Scopes as scopes;
ghost use Rattle.sc_symbols.specs.Internal.{judged, scope_of};

use crate::names::{add_entity, add_name, add_name_after, add_type_if_any};
use crate::scope::Scope;
use crate::symbol::Mention;
use sc_rules::entity_types::EntityType;
use sc_rules::{Context, Position, Role};
use sc_tree::{Call, Clause, DeclaredType, Expr, Name};
use sc_typing::{CheckFault, Entity, RoutineContext, operand_context};
use std::alloc::AllocError;

/// The type of an expression, if it has one.
pub fn type_of<'s>(
    routine: &RoutineContext<'_, 's>,
    context: Context,
    names: &[Entity<'s>],
    e: &Expr,
) -> Result<Option<EntityType>, AllocError>
    ensures { IfOk result (λ given. given
        ≡ judged (routine_in routine.now) context (map entity_of names.now) (expr_of e.now)) }
{
    match routine.expression(context, Position::Plain, names, e) {
        Ok(typing) => Ok(typing.entity_type),
        Err(CheckFault::Refused(_)) => Ok(None),
        Err(CheckFault::OutOfMemory) => Err(AllocError),
    }
}

/// Adds the names in an expression that is no condition of an `if`.
#[cycle(expressions)]
#[tactic(auto, unfolding(crate::specs::Mentions::mentions_in, sc_tree::specs::View::expr_of), using(crate::proofs::Added::mentioned_two))]
pub fn add_expression<'s>(
    routine: &RoutineContext<'_, 's>,
    context: Context,
    scope: &Scope<'s>,
    e: &Expr,
    mentions: &mut Vec<Mention>,
) -> Result<(), AllocError>
    ensures { OnOk result (mentions.new.items ≡ mentions.old.items
        ++ spec.mentions_in judged (routine_in routine.now) context (scope_of scope.now) (expr_of e.now)) }
{
    match e {
        Expr::Integer(_, _) | Expr::Boolean(_, _) => Ok(()),
        Expr::Void(_) | Expr::Current(_) | Expr::Result(_) => Ok(()),
        Expr::Call(call) => add_call(routine, context, scope, call, mentions),
        Expr::Unary(_, operator, operand) => {
            let inside = operand_context(*operator, context);
            add_expression(routine, inside, scope, operand, mentions)
        }
        Expr::Binary(_, _, left, right) => {
            add_expression(routine, context, scope, left, mentions)?;
            add_expression(routine, context, scope, right, mentions)
        }
        Expr::ObjectTest(_, _, tested, _) => {
            add_expression(routine, context, scope, tested, mentions)
        }
    }
}

/// Adds the names in a call.
#[cycle(expressions)]
#[tactic(auto, using(crate::proofs::Added::mentioned_two))]
pub fn add_call<'s>(
    routine: &RoutineContext<'_, 's>,
    context: Context,
    scope: &Scope<'s>,
    call: &Call,
    mentions: &mut Vec<Mention>,
) -> Result<(), AllocError>
    ensures { OnOk result (mentions.new.items ≡ mentions.old.items
        ++ spec.mentions_in_call judged (routine_in routine.now) context (scope_of scope.now) (target_of call.now.target)
        (name_of call.now.name) (exprs_of call.now.actuals.items)) }
{
    add_target(routine, context, scope, &call.target, &call.name, mentions)?;
    add_actuals(routine, context, scope, &call.actuals, mentions)
}

/// Adds the names in the target of a call, if it has one, and the name that is called.
#[cycle(expressions)]
#[tactic(auto, unfolding(crate::specs::Mentions::mentions_in), using(crate::proofs::Added::mentioned_two))]
fn add_target<'s>(
    routine: &RoutineContext<'_, 's>,
    context: Context,
    scope: &Scope<'s>,
    target: &Option<Box<Expr>>,
    name: &Name,
    mentions: &mut Vec<Mention>,
) -> Result<(), AllocError>
    ensures { OnOk result (mentions.new.items ≡ mentions.old.items
        ++ spec.mentions_in_target judged (routine_in routine.now) context (scope_of scope.now) (target_of target.now)
        (name_of name.now)) }
{
    match target {
        None => add_name(routine, scope, name, mentions),
        Some(target) => {
            add_expression(routine, context, scope, target, mentions)?;
            let given = type_of(routine, context, &scope.names, target)?;
            add_name_after(routine.tables, given, name, mentions)
        }
    }
}

/// Adds the names in actuals.
#[cycle(expressions)]
pub fn add_actuals<'s>(
    routine: &RoutineContext<'_, 's>,
    context: Context,
    scope: &Scope<'s>,
    actuals: &[Expr],
    mentions: &mut Vec<Mention>,
) -> Result<(), AllocError>
    ensures { OnOk result (mentions.new.items ≡ mentions.old.items
        ++ spec.mentions_in_each judged (routine_in routine.now) context (scope_of scope.now) (exprs_of actuals.now)) }
{
    for actual in actuals {
        add_expression(routine, context, scope, actual, mentions)?;
    }
    Ok(())
}

/// Adds the names in an object test, and makes the name known that it gives.
#[tactic(auto, using(crate::proofs::Added::mentioned_three))]
fn add_test<'s>(
    routine: &RoutineContext<'_, 's>,
    context: Context,
    scope: &mut Scope<'s>,
    declared: &Option<DeclaredType>,
    tested: &Expr,
    name: &'s Name,
    mentions: &mut Vec<Mention>,
) -> Result<(), AllocError>
    ensures listed { OnOk result (mentions.new.items ≡ mentions.old.items
        ++ spec.mentions_in_test judged (routine_in routine.now) context (scope_of scope.old) (type_if_any declared.now)
        (expr_of tested.now) (name_of name.now)) }
    ensures known { OnOk result (scope_of scope.new ≡ scopes.known_too (scope_of scope.old)
        (scopes.tested judged (routine_in routine.now) context (scope_of scope.old).entities (type_if_any declared.now)
        (expr_of tested.now) (name_of name.now)) name.now.span) }
{
    add_type_if_any(routine.tables, scope, declared, mentions)?;
    add_expression(routine, context, scope, tested, mentions)?;
    let given = type_of(routine, context, &scope.names, tested)?;
    let known = Entity {
        name: name.as_str(),
        entity_type: routine.test_type(declared, given),
        role: Role::Test,
    };
    add_entity(name, known, name.span, mentions)?;
    scope.push(known, name.span)
}

/// Adds the names in a condition, and makes the names known that its object tests give.
#[tactic(auto, unfolding(crate::specs::Mentions::mentions_in_condition, crate::specs::Mentions::mentions_in, crate::specs::Scopes::scope_given, sc_tree::specs::View::expr_of), using(crate::proofs::Added::mentioned_two))]
pub fn add_condition<'s>(
    routine: &RoutineContext<'_, 's>,
    context: Context,
    scope: &mut Scope<'s>,
    e: &'s Expr,
    mentions: &mut Vec<Mention>,
) -> Result<(), AllocError>
    ensures listed { OnOk result (mentions.new.items ≡ mentions.old.items
        ++ spec.mentions_in_condition judged (routine_in routine.now) context (scope_of scope.old) (expr_of e.now)) }
    ensures known { OnOk result (scope_of scope.new
        ≡ scopes.scope_given judged (routine_in routine.now) context (scope_of scope.old) (expr_of e.now)) }
{
    match e {
        Expr::Binary(_, operator, left, right) => {
            if !operator.is_and_then() {
                return add_expression(routine, context, scope, e, mentions);
            }
            add_condition(routine, context, scope, left, mentions)?;
            add_condition(routine, context, scope, right, mentions)
        }
        Expr::ObjectTest(_, declared, tested, name) => {
            add_test(routine, context, scope, declared, tested, name, mentions)
        }
        Expr::Integer(_, _) | Expr::Boolean(_, _) => Ok(()),
        Expr::Void(_) | Expr::Current(_) | Expr::Result(_) => Ok(()),
        Expr::Call(_) => add_expression(routine, context, scope, e, mentions),
        Expr::Unary(_, _, _) => add_expression(routine, context, scope, e, mentions),
    }
}

/// Adds the names in clauses.
#[tactic(auto, unfolding(sc_tree::specs::View::clause_of))]
pub fn add_clauses<'s>(
    routine: &RoutineContext<'_, 's>,
    context: Context,
    scope: &Scope<'s>,
    clauses: &[Clause],
    mentions: &mut Vec<Mention>,
) -> Result<(), AllocError>
    ensures { OnOk result (mentions.new.items ≡ mentions.old.items
        ++ flat_map (spec.mentions_in_clause judged (routine_in routine.now) context (scope_of scope.now))
        (map clause_of clauses.now)) }
{
    for clause in clauses {
        add_expression(routine, context, scope, &clause.condition, mentions)?;
    }
    Ok(())
}
