//! Expressions: what is found, or the first rule that fails (ECMA-367, 8.23, 8.24 and 8.28).

ghost use Rattle.std.specs.Prelude.{◌≡◌, false, IfOk, Ok, map};
ghost use Rattle.sc_tree.specs.View.{expr_of, exprs_of, name_of, target_of, type_if_any};
ghost use Rattle.sc_rules.specs.Positions as positions;
ghost use Rattle.sc_rules.specs.Judging as judging;
ghost use Rattle.sc_rules.specs.declared.position.Position.TheVariants.{Condition};
ghost use Rattle.sc_typing.specs.Views.{routine_in, entity_of, typing_of};
ghost use Rattle.sc_typing.specs.Judges.{Judges, Passes, JudgesActuals, judge_call};

use crate::declarations::names::Entity;
use crate::declarations::types::judge_type;
use crate::expressions::calls::{CallContext, judge_receiver};
use crate::expressions::operators::test_result;
use crate::expressions::positions::{operand_context, operand_position, takes_void};
use crate::expressions::typing::{
    JudgedActual, Typing, judge_binary, judge_result, judge_unary, keep_fault, simple_typing,
};
use crate::fault::{CheckFault, refusal, required};
use crate::routine_context::RoutineContext;
use sc_rules::entity_types::EntityType;
use sc_rules::{Context, Position, Role, Rule, Use};
use sc_tree::{Call, DeclaredType, Expr};

pub mod actuals;
pub mod calls;
pub mod operators;
pub mod positions;
pub mod typing;

impl<'t, 's> RoutineContext<'t, 's> {
    /// Judges the type that an object test tests for, if one is written.
    pub fn judge_tested(&self, declared: &Option<DeclaredType>) -> Result<(), CheckFault>
        ensures { Passes (judging.judge_tested (routine_in self.now) (type_if_any declared.now)) result }
    {
        match declared {
            None => Ok(()),
            Some(declared) => judge_type(self.tables, self.formals, declared),
        }
    }

    /// Judges an expression that is no condition of an `if`.
    #[cycle(expressions)]
    #[tactic(auto, unfolding(sc_rules::specs::Judging::judge, sc_tree::specs::View::expr_of))]
    pub fn expression(
        &self,
        context: Context,
        position: Position,
        names: &[Entity<'s>],
        e: &Expr,
    ) -> Result<Typing, CheckFault>
        requires { positions.is_condition position ≡ false }
        ensures { Judges typing_of (judging.judge (routine_in self.now) context position (map entity_of names.now)
            (expr_of e.now)) result }
    {
        match e {
            Expr::Integer(_, _) => Ok(simple_typing(EntityType::integer())),
            Expr::Boolean(_, _) => Ok(simple_typing(EntityType::boolean())),
            Expr::Void(span) => {
                required(takes_void(position), Rule::VoidUse, *span)?;
                Ok(simple_typing(EntityType::void()))
            }
            Expr::Current(_) => Ok(simple_typing(self.current())),
            Expr::Result(span) => {
                let entity_type = judge_result(*span, self.result)?;
                Ok(Typing {
                    entity_type,
                    is_separate: false,
                })
            }
            Expr::Call(call) => self.call(context, Use::Value, names, call),
            Expr::Unary(span, operator, operand) => {
                let inside = operand_context(*operator, context);
                let operand = self.expression(inside, Position::Plain, names, operand)?;
                judge_unary(context, *span, *operator, operand)
            }
            Expr::Binary(span, operator, left, right) => {
                let left = self.expression(context, operand_position(*operator), names, left)?;
                let right = self.expression(context, operand_position(*operator), names, right)?;
                judge_binary(*span, *operator, left, right)
            }
            Expr::ObjectTest(span, declared, tested, _) => {
                self.judge_tested(declared)?;
                self.expression(context, Position::Plain, names, tested)?;
                Err(refusal(Rule::ObjectTestPlace, *span))
            }
        }
    }

    /// Judges what is before the dot of a call, or Current if there is no dot.
    #[cycle(expressions)]
    #[tactic(auto, unfolding(sc_rules::specs::Judging::judge, sc_tree::specs::View::expr_of))]
    fn receiver(
        &self,
        context: Context,
        names: &[Entity<'s>],
        target: &Option<Box<Expr>>,
    ) -> Result<Typing, CheckFault>
        ensures { Judges typing_of (judging.judge_receiver (routine_in self.now) context (map entity_of names.now)
            (target_of target.now)) result }
    {
        match target {
            None => Ok(simple_typing(self.current())),
            Some(target) => {
                let typing = self.expression(context, Position::Plain, names, target)?;
                judge_receiver(target.span(), typing)
            }
        }
    }

    /// What is found of the actuals of a call.
    #[cycle(expressions)]
    #[tactic(auto, unfolding(sc_rules::specs::Judging::judge, sc_tree::specs::View::expr_of))]
    pub fn judged_actuals(
        &self,
        context: Context,
        names: &[Entity<'s>],
        actuals: &[Expr],
    ) -> Result<Vec<JudgedActual>, CheckFault>
        ensures { JudgesActuals (judging.judged_actuals (routine_in self.now) context (map entity_of names.now)
            (exprs_of actuals.now)) result }
    {
        let mut found = Vec::with_capacity(self.alloc, actuals.len())?;
        for actual in actuals {
            let judged = keep_fault(self.expression(context, Position::Source, names, actual))?;
            found.push(JudgedActual {
                span: actual.span(),
                judged,
            })?;
        }
        Ok(found)
    }

    /// Judges a call.
    #[cycle(expressions)]
    #[tactic(auto, unfolding(sc_rules::specs::Judging::judge, sc_tree::specs::View::expr_of))]
    pub fn call(
        &self,
        context: Context,
        usage: Use,
        names: &[Entity<'s>],
        call: &Call,
    ) -> Result<Typing, CheckFault>
        ensures { Judges typing_of (judge_call (routine_in self.now) context (map entity_of names.now) usage
            (target_of call.now.target) (name_of call.now.name) (exprs_of call.now.actuals.items)) result }
    {
        let receiver = self.receiver(context, names, &call.target)?;
        let meaning = self.meaning_of(names, &call.target, receiver.entity_type, &call.name);
        let found = self.judged_actuals(context, names, &call.actuals)?;
        let site = CallContext {
            context,
            usage,
            target: &call.target,
            span: call.name.span,
        };
        self.judge_actuals_and_name(&site, &meaning, &found, receiver)
    }

    /// Judges the condition of an `if` or an operand of the `and then`s at its top. The names that its object tests
    /// give join those that are known.
    #[tactic(auto, unfolding(sc_rules::specs::Judging::judge, sc_tree::specs::View::expr_of))]
    pub fn condition(
        &self,
        context: Context,
        names: &mut Vec<Entity<'s>>,
        e: &'s Expr,
    ) -> Result<Typing, CheckFault>
        ensures judged { Judges typing_of (judging.judge (routine_in self.now) context Condition
            (map entity_of names.old.items) (expr_of e.now)) result }
        ensures given { IfOk result (λ _. judging.judge_given (routine_in self.now) context
            (map entity_of names.old.items) (expr_of e.now) ≡ Ok (map entity_of names.new.items)) }
    {
        match e {
            Expr::Binary(span, operator, left, right) => {
                if !operator.is_and_then() {
                    return self.expression(context, Position::Plain, names, e);
                }
                let left = self.condition(context, names, left)?;
                let right = self.condition(context, names, right)?;
                judge_binary(*span, *operator, left, right)
            }
            Expr::ObjectTest(_, declared, tested, name) => {
                self.judge_tested(declared)?;
                let tested = self.expression(context, Position::Plain, names, tested)?;
                names.push(Entity {
                    name: name.as_str(),
                    entity_type: self.test_type(declared, tested.entity_type),
                    role: Role::Test,
                })?;
                Ok(Typing {
                    entity_type: test_result(tested.entity_type),
                    is_separate: tested.is_separate,
                })
            }
            Expr::Integer(_, _) => self.expression(context, Position::Plain, names, e),
            Expr::Boolean(_, _) => self.expression(context, Position::Plain, names, e),
            Expr::Void(_) => self.expression(context, Position::Plain, names, e),
            Expr::Current(_) => self.expression(context, Position::Plain, names, e),
            Expr::Result(_) => self.expression(context, Position::Plain, names, e),
            Expr::Call(_) => self.expression(context, Position::Plain, names, e),
            Expr::Unary(_, _, _) => self.expression(context, Position::Plain, names, e),
        }
    }
}
