//! The formals that a clause of a precondition names.

ghost use Rattle.std.specs.Prelude.{◌≡◌, ◌++◌, [], ◌∷◌, IfOk, OnOk, map};
ghost use Rattle.sc_tree.specs.View.{clause_of, expr_of, exprs_of};
ghost use Rattle.sc_typing.specs.Views.{entity_of};
ghost use Rattle.sc_model.specs.Preconditions.{names_in, names_in_each};
ghost use Rattle.sc_code.specs.Emitted as emitted;
ghost use Rattle.sc_routines.specs.Parts.{slots_of};

use crate::known_names::is_formal;
use sc_tree::{Call, Clause, Expr};
use sc_typing::Entity;
use std::alloc::{AllocError, Global};

/// The slot of the first entity of the name, where that is a formal.
fn formal_slot(names: &[Entity], name: &str) -> Option<usize>
    ensures { result ≡ emitted.formal_slot name.now (map entity_of names.now) }
{
    for slot in 0..names.len() {
        if names[slot].name == name {
            return if is_formal(names[slot].role) {
                Some(slot)
            } else {
                None
            };
        }
    }
    None
}

/// Adds the slot of the first entity of the name, where that is a formal.
fn add_formal(names: &[Entity], slots: &mut Vec<usize>, name: &str) -> Result<(), AllocError>
    ensures { OnOk result (slots.new.items ≡ slots.old.items ++ slots_of (map entity_of names.now) (name.now ∷ [])) }
{
    if let Some(slot) = formal_slot(names, name) {
        slots.push(slot)?;
    }
    Ok(())
}

/// Adds the slots of the formals that an expression names.
#[cycle(names)]
#[tactic(auto, using(crate::proofs::FormalNames::formals_joined), unfolding(sc_tree::specs::View::expr_of))]
fn add_formals_in(names: &[Entity], slots: &mut Vec<usize>, e: &Expr) -> Result<(), AllocError>
    ensures { OnOk result (slots.new.items ≡ slots.old.items ++ slots_of (map entity_of names.now) (names_in (expr_of e.now))) }
{
    match e {
        Expr::Integer(_, _) | Expr::Boolean(_, _) => Ok(()),
        Expr::Void(_) | Expr::Current(_) | Expr::Result(_) => Ok(()),
        Expr::Call(call) => add_formals_in_call(names, slots, call),
        Expr::Unary(_, _, operand) => add_formals_in(names, slots, operand),
        Expr::Binary(_, _, left, right) => {
            add_formals_in(names, slots, left)?;
            add_formals_in(names, slots, right)
        }
        Expr::ObjectTest(_, _, tested, _) => add_formals_in(names, slots, tested),
    }
}

/// Adds those that a call names, also its own name if it has no target.
#[cycle(names)]
#[tactic(auto, using(crate::proofs::FormalNames::formals_joined, crate::proofs::FormalNames::names_in_own, crate::proofs::FormalNames::names_in_qualified))]
fn add_formals_in_call(
    names: &[Entity],
    slots: &mut Vec<usize>,
    call: &Call,
) -> Result<(), AllocError>
    ensures { OnOk result (slots.new.items ≡ slots.old.items ++ slots_of (map entity_of names.now) (names_in (expr_of (Expr.Call call.now)))) }
{
    match &call.target {
        None => {
            add_formal(names, slots, call.name.as_str())?;
            add_formals_in_each(names, slots, &call.actuals)
        }
        Some(target) => {
            add_formals_in(names, slots, target)?;
            add_formals_in_each(names, slots, &call.actuals)
        }
    }
}

/// Adds those that actuals name.
#[cycle(names)]
#[tactic(auto, using(crate::proofs::FormalNames::formals_joined))]
fn add_formals_in_each(
    names: &[Entity],
    slots: &mut Vec<usize>,
    actuals: &[Expr],
) -> Result<(), AllocError>
    ensures { OnOk result (slots.new.items ≡ slots.old.items ++ slots_of (map entity_of names.now) (names_in_each (exprs_of actuals.now))) }
{
    for actual in actuals {
        add_formals_in(names, slots, actual)?;
    }
    Ok(())
}

/// The slots of the formals that a clause names.
#[tactic(auto, unfolding(sc_tree::specs::View::clause_of))]
pub fn formals_in(
    alloc: Global,
    names: &[Entity],
    clause: &Clause,
) -> Result<Vec<usize>, AllocError>
    ensures { IfOk result (λ slots. slots.items ≡ emitted.formals_in (map entity_of names.now) (clause_of clause.now)) }
{
    let mut slots = Vec::new(alloc);
    add_formals_in(names, &mut slots, &clause.condition)?;
    Ok(slots)
}
