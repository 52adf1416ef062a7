//! The code of expressions.

ghost use Rattle.std.specs.Prelude.{◌≡◌, ◌+◌, ◌++◌, IfOk, OnOk, length, map};
ghost use Rattle.sc_tree.specs.View.{expr_of, exprs_of};
ghost use Rattle.sc_model.specs.Olds.{olds_in, olds_of_each};
ghost use Rattle.sc_typing.specs.Views.{entity_of};
ghost use Rattle.sc_code.specs.Emitted.{expr_code, expr_depth, expr_slots, exprs_code, exprs_depth};
ghost use Rattle.sc_code.specs.Places.{expr_type, exprs_types, names_given};
ghost use Rattle.sc_routines.specs.Parts.{call_in};
ghost use Rattle.sc_routines.specs.Settings.{setting_in};

use crate::code::Code;
use crate::leaves::{push_boolean, push_integer, push_type, push_void};
use crate::lowered::{Lowered, LoweredActuals};
use crate::operator_code::{BinaryOperands, close_binary, close_unary, open_right};
use crate::setting::Setting;
use crate::sums::sum;
use sc_tree::{Call, Expr};
use sc_typing::Entity;
use std::alloc::AllocError;

impl<'t, 's> Setting<'t, 's> {
    /// Adds the code of the condition of an `if`, or of an operand of the `and then`s at its top. The names become
    /// those in scope where it holds.
    #[cycle(expressions)]
    #[tactic(auto, unfolding(sc_tree::specs::View::expr_of))]
    pub fn lower_condition(
        &self,
        names: &mut Vec<Entity<'s>>,
        olds: usize,
        code: &mut Code<'s>,
        e: &'s Expr,
    ) -> Result<Lowered, AllocError>
        ensures code { OnOk result (code.new ≡ code.old ++ expr_code (setting_in self.now) (map entity_of names.old.items) olds (expr_of e.now)) }
        ensures names { OnOk result (map entity_of names.new.items ≡ names_given (setting_in self.now) (map entity_of names.old.items) olds (expr_of e.now)) }
        ensures value { IfOk result (λ l. l.value ≡ expr_type (setting_in self.now) (map entity_of names.old.items) olds (expr_of e.now)) }
        ensures depth { IfOk result (λ l. l.depth ≡ expr_depth (setting_in self.now) (map entity_of names.old.items) olds (expr_of e.now)) }
        ensures olds { IfOk result (λ l. l.olds ≡ olds + olds_in (expr_of e.now)) }
        ensures slots { IfOk result (λ l. l.slots ≡ expr_slots (setting_in self.now) (map entity_of names.old.items) olds (expr_of e.now)) }
    {
        let count = names.len();
        match e {
            Expr::Integer(span, value) => push_integer(code, *span, *value, olds),
            Expr::Boolean(span, value) => push_boolean(code, *span, *value, olds),
            Expr::Void(span) => push_void(code, *span, olds),
            Expr::Current(span) => self.push_current(olds, code, *span),
            Expr::Result(span) => self.lower_result(olds, code, *span),
            Expr::Call(call) => self.lower_call(names, olds, code, call),
            Expr::Unary(span, operator, operand) => {
                if operator.is_old() {
                    return self.lower_old(olds, code, *span);
                }
                let operand = self.lower_condition(names, olds, code, operand)?;
                names.truncate(count);
                close_unary(code, *span, *operator, operand)
            }
            Expr::Binary(span, operator, left, right) => {
                let left = self.lower_condition(names, olds, code, left)?;
                let place = code.len();
                open_right(code, *span, *operator)?;
                let right = self.lower_condition(names, left.olds, code, right)?;
                let operands = BinaryOperands { left, place, right };
                close_binary(names, count, code, *span, *operator, operands)
            }
            Expr::ObjectTest(span, declared, tested, name) => {
                let tested = self.lower_condition(names, olds, code, tested)?;
                names.truncate(count);
                self.close_test(names, code, *span, declared, name, tested)
            }
        }
    }

    /// Adds the code of a call.
    #[cycle(expressions)]
    fn lower_call(
        &self,
        names: &mut Vec<Entity<'s>>,
        olds: usize,
        code: &mut Code<'s>,
        call: &'s Call,
    ) -> Result<Lowered, AllocError>
        ensures code { OnOk result (code.new ≡ code.old ++ expr_code (setting_in self.now) (map entity_of names.old.items) olds (call_in call.now)) }
        ensures names { OnOk result (map entity_of names.new.items ≡ map entity_of names.old.items) }
        ensures value { IfOk result (λ l. l.value ≡ expr_type (setting_in self.now) (map entity_of names.old.items) olds (call_in call.now)) }
        ensures depth { IfOk result (λ l. l.depth ≡ expr_depth (setting_in self.now) (map entity_of names.old.items) olds (call_in call.now)) }
        ensures olds { IfOk result (λ l. l.olds ≡ olds + olds_in (call_in call.now)) }
        ensures slots { IfOk result (λ l. l.slots ≡ 0) }
    {
        let Some(target) = &call.target else {
            let Some(value) = self.routine_named(names, call.name.as_str()) else {
                return self.lower_read(names, olds, code, call);
            };
            let passed = self.lower_actuals(names, olds, code, &call.actuals)?;
            return self.close_routine_call(code, call, value, &passed);
        };
        let count = names.len();
        let target = self.lower_condition(names, olds, code, target)?;
        names.truncate(count);
        let actuals = self.lower_actuals(names, target.olds, code, &call.actuals)?;
        self.close_feature_call(code, call, target, &actuals)
    }

    /// Adds the code of expressions one after the other, whose values stay.
    #[cycle(expressions)]
    pub fn lower_actuals(
        &self,
        names: &mut Vec<Entity<'s>>,
        olds: usize,
        code: &mut Code<'s>,
        actuals: &'s [Expr],
    ) -> Result<LoweredActuals, AllocError>
        ensures code { OnOk result (code.new ≡ code.old ++ exprs_code (setting_in self.now) (map entity_of names.old.items) olds (exprs_of actuals.now)) }
        ensures names { OnOk result (map entity_of names.new.items ≡ map entity_of names.old.items) }
        ensures types { IfOk result (λ l. l.types.items ≡ exprs_types (setting_in self.now) (map entity_of names.old.items) olds (exprs_of actuals.now)) }
        ensures depth { IfOk result (λ l. l.depth ≡ exprs_depth (setting_in self.now) (map entity_of names.old.items) olds (exprs_of actuals.now)) }
        ensures olds { IfOk result (λ l. l.olds ≡ olds + length (olds_of_each (exprs_of actuals.now))) }
    {
        let count = names.len();
        let mut types = Vec::new(self.context.alloc);
        let mut depth = 0;
        let mut passed = olds;
        for number in 0..actuals.len() {
            let actual = self.lower_condition(names, passed, code, &actuals[number])?;
            names.truncate(count);
            depth = depth.max(sum(number, actual.depth)?);
            passed = actual.olds;
            push_type(&mut types, actual.value)?;
        }
        Ok(LoweredActuals {
            types,
            depth: depth.max(actuals.len()),
            olds: passed,
        })
    }

    /// Adds the code of an expression. The names of its object tests leave scope after it.
    pub fn lower_expr(
        &self,
        names: &mut Vec<Entity<'s>>,
        olds: usize,
        code: &mut Code<'s>,
        e: &'s Expr,
    ) -> Result<Lowered, AllocError>
        ensures code { OnOk result (code.new ≡ code.old ++ expr_code (setting_in self.now) (map entity_of names.old.items) olds (expr_of e.now)) }
        ensures names { OnOk result (map entity_of names.new.items ≡ map entity_of names.old.items) }
        ensures value { IfOk result (λ l. l.value ≡ expr_type (setting_in self.now) (map entity_of names.old.items) olds (expr_of e.now)) }
        ensures depth { IfOk result (λ l. l.depth ≡ expr_depth (setting_in self.now) (map entity_of names.old.items) olds (expr_of e.now)) }
        ensures olds { IfOk result (λ l. l.olds ≡ olds + olds_in (expr_of e.now)) }
        ensures slots { IfOk result (λ l. l.slots ≡ expr_slots (setting_in self.now) (map entity_of names.old.items) olds (expr_of e.now)) }
    {
        let count = names.len();
        let lowered = self.lower_condition(names, olds, code, e)?;
        names.truncate(count);
        Ok(lowered)
    }
}
