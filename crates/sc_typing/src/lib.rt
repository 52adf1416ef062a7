//! Typing: the meaning of a name in the text of a routine, and the type of an expression there, or the first rule
//! that fails in it. The rules are those of `sc_rules`.
//!
//! A [`RoutineContext`] is the routine, or the invariant, whose text is judged: [`RoutineContext::expression`],
//! [`RoutineContext::call`] and [`RoutineContext::condition`] judge a part of it, with the names in scope given as
//! [`Entity`]s.
#![tactic(auto)]

mod declarations;
mod expressions;
mod fault;
mod purity;
mod routine_context;

pub use declarations::assignee::{Assignee, variable_span};
pub use declarations::names::{Entity, add_formals, add_locals, block_type, blocks};
pub use declarations::types::{declared_type, is_own, judge_type, result_type};
pub use expressions::actuals::{known_handler, named_formal, names_untyped};
pub use expressions::calls::{CallContext, judge_receiver};
pub use expressions::operators::is_boolean;
pub use expressions::positions::{operand_context, operand_position};
pub use expressions::typing::{
    JudgedActual, Typing, as_check_result, is_foreign_type, judge_binary, judge_result,
    judge_unary, judged_type, keep_fault, may_pass, simple_typing,
};
pub use fault::{CheckFault, refusal, required};
pub use purity::{Marks, Numbering, Purity};
pub use routine_context::{Formals, Meaning, RoutineContext, Signature};
