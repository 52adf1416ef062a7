//! The checker: whether a system of classes is well formed, or else which rule fails and where.
//!
//! [`check`] returns a [`Checked`], which lends the tables of a system in which no rule fails, or a [`CheckFault`]:
//! a rule that fails, and where. The rules are those of `sc_rules`; `sc_typing` judges expressions by them, and
//! [`pure_functions`] finds the pure functions.
//!
//! Parts of a system are judged on their own by [`ClassText`], [`judge_clause`], [`judge_condition`],
//! [`judge_if_condition`], [`judge_head`] and [`judge_instruction`]. [`may_be_formula`] says whether a clause of an
//! invariant has its form, and [`clause_span`] where it stands.
#![tactic(auto)]

mod checked;
mod declarations;
mod instructions;
mod purity;

pub use checked::{Checked, check};
pub use declarations::ClassText;
pub use declarations::formulas::{clause_span, is_same_span, may_be_formula};
pub use instructions::blocks::judge_head;
pub use instructions::conditions::{judge_clause, judge_condition, judge_if_condition};
pub use instructions::judge_instruction;
pub use purity::pure_functions;
pub use sc_typing::CheckFault;
