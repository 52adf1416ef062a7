//! Formulas that are nested deeper than those of a text.

ghost use Rattle.std.specs.Prelude.{[], IfOk};
ghost use Rattle.sc_formula.specs.Fit.{IsFit};
ghost use Rattle.sc_formula.specs.Plain.{plain_formula};

use crate::rows::expect_equal;
use sc_formula::{Formula, eval};
use std::alloc::{AllocError, Global};
use std::test::Fail;

/// `not` this many times before `True`.
#[tactic(auto, unfolding(sc_formula::specs::Plain::plain_formula, sc_formula::specs::Plain::plain_term))]
fn nested(alloc: Global, depth: u32) -> Result<Formula, AllocError>
    ensures { IfOk result (λ formula. IsFit (plain_formula formula) []) }
{
    let mut formula = Formula::Constant(true);
    for _ in 0..depth {
        formula = Formula::not(alloc, formula)?;
    }
    Ok(formula)
}

#[test]
fn deep_formulas(rt: HostRuntime) -> Result<(), Fail> {
    for &(depth, want, of) in &[
        (64, true, "64 levels"),
        (3_000, true, "3,000 levels"),
        (3_001, false, "3,001 levels"),
    ] {
        let formula = nested(rt.alloc(), depth)?;
        expect_equal(&rt, eval(&formula, &[]), Some(want), of);
    }
    Ok(())
}
