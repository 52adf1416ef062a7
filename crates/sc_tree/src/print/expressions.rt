//! Types and expressions in canonical text.

ghost use Rattle.std.specs.Prelude.{◌≡◌, ◌++◌, ◌∷◌, [], map, OnOk};
ghost use Rattle.sc_text.specs.declared.token.Terminal.TheVariants as terminal;
ghost use Rattle.sc_tree.specs.Canonical.Layout.{word};
ghost use Rattle.sc_tree.specs.Canonical.Expressions.{actuals_parts, attachment_parts, call_parts, class_of_expr, expr_parts, handler_tag_parts, in_class, tested_type_parts, type_parts};
ghost use Rattle.sc_tree.specs.Grammar.{terminals_of};
ghost use Rattle.sc_tree.specs.Internal.Printer.{PutsParts};
ghost use Rattle.sc_tree.specs.View.{expr_of, exprs_of, handler_tag_of, name_of, target_of, type_if_any, type_of};

use crate::declaration::{DeclaredType, HandlerTag};
use crate::expression::{BinaryOperator, Call, Expr};
use crate::print::Printer;
use crate::print::operators::{class_below, class_of, left_class, prefix, terminals};
use sc_text::Terminal;
use std::alloc::AllocError;

impl Printer {
    /// Writes what a type says about its objects' handler, if it says anything.
    fn handler_tag(&mut self, tag: &HandlerTag) -> Result<(), AllocError>
        ensures { OnOk result (PutsParts self.old self.new (handler_tag_parts (handler_tag_of tag.now))) }
    {
        match tag {
            HandlerTag::Own => Ok(()),
            HandlerTag::Separate => self.word(Terminal::Separate),
            HandlerTag::HandlerOf(name) => {
                self.word(Terminal::Separate)?;
                self.handler_of(name)
            }
        }
    }

    /// `detachable` before a detachable type.
    fn attachment(&mut self, is_detachable: bool) -> Result<(), AllocError>
        ensures { OnOk result (PutsParts self.old self.new (attachment_parts is_detachable)) }
    {
        if is_detachable {
            self.word(Terminal::Detachable)
        } else {
            Ok(())
        }
    }

    /// A type, with its marks.
    #[tactic(auto, using(crate::proofs::PrintingLines::putting), unfolding(crate::specs::Canonical::Expressions::type_parts))]
    pub fn declared_type(&mut self, declared: &DeclaredType) -> Result<(), AllocError>
        ensures { OnOk result (PutsParts self.old self.new (type_parts (type_of declared.now))) }
    {
        self.attachment(declared.is_detachable)?;
        self.handler_tag(&declared.tag)?;
        self.class_name(&declared.class)
    }

    /// Writes the type of an object test in braces, if it has one.
    #[tactic(auto, using(crate::proofs::PrintingLines::putting))]
    fn tested_type(&mut self, tested: &Option<DeclaredType>) -> Result<(), AllocError>
        ensures { OnOk result (PutsParts self.old self.new (tested_type_parts (type_if_any tested.now))) }
    {
        let Some(declared) = tested else {
            return Ok(());
        };
        self.word(Terminal::OpenBrace)?;
        self.declared_type(declared)?;
        self.word(Terminal::CloseBrace)
    }

    /// The operator between two operands.
    pub fn operator(&mut self, operator: BinaryOperator) -> Result<(), AllocError>
        ensures { OnOk result (PutsParts self.old self.new (map word (terminals_of operator))) }
    {
        for terminal in terminals(operator) {
            self.word(*terminal)?;
        }
        Ok(())
    }

    /// An expression, with the parentheses that its operands need.
    #[cycle(printing)]
    #[tactic(auto, using(crate::proofs::PrintingLines::putting), unfolding(crate::specs::Canonical::Expressions::expr_parts, crate::specs::View::expr_of))]
    pub fn expr(&mut self, expr: &Expr) -> Result<(), AllocError>
        ensures { OnOk result (PutsParts self.old self.new (expr_parts (expr_of expr.now))) }
    {
        match expr {
            Expr::Integer(_, value) => self.integer(*value),
            Expr::Boolean(_, value) => {
                self.word(if *value {
                    Terminal::True
                } else {
                    Terminal::False
                })
            }
            Expr::Void(_) => self.word(Terminal::Void),
            Expr::Current(_) => self.word(Terminal::Current),
            Expr::Result(_) => self.word(Terminal::Result),
            Expr::Call(call) => self.call(call),
            Expr::Unary(_, operator, operand) => {
                self.word(prefix(*operator))?;
                self.operand(operand, 0)
            }
            Expr::Binary(_, operator, left, right) => {
                self.operand(left, left_class(*operator))?;
                self.operator(*operator)?;
                self.operand(right, class_below(*operator))
            }
            Expr::ObjectTest(_, tested, value, name) => {
                self.word(Terminal::Attached)?;
                self.tested_type(tested)?;
                self.expr(value)?;
                self.word(Terminal::As)?;
                self.name(name)
            }
        }
    }

    /// An operand, in parentheses where its class is above the one that is allowed.
    #[cycle(printing)]
    #[tactic(auto, using(crate::proofs::PrintingLines::putting))]
    fn operand(&mut self, operand: &Expr, allowed: u8) -> Result<(), AllocError>
        ensures { OnOk result (PutsParts self.old self.new
            (in_class (class_of_expr (expr_of operand.now)) allowed (expr_parts (expr_of operand.now)))) }
    {
        if class_of(operand) <= allowed {
            return self.expr(operand);
        }
        self.word(Terminal::OpenParenthesis)?;
        self.expr(operand)?;
        self.word(Terminal::CloseParenthesis)
    }

    /// Writes a call after its target, if it has one.
    #[cycle(printing)]
    #[tactic(auto, using(crate::proofs::PrintingLines::putting), unfolding(crate::specs::Canonical::Expressions::expr_parts))]
    pub fn call(&mut self, call: &Call) -> Result<(), AllocError>
        ensures { OnOk result (PutsParts self.old self.new
            (call_parts (target_of call.now.target) (name_of call.now.name) (exprs_of call.now.actuals.items))) }
    {
        if let Some(target) = &call.target {
            self.expr(target)?;
            self.word(Terminal::Dot)?;
        }
        self.name(&call.name)?;
        self.actuals(&call.actuals)
    }

    /// Writes the actual arguments in parentheses, if there are any.
    #[cycle(printing)]
    #[tactic(auto, using(crate::proofs::PrintingLines::putting), unfolding(crate::specs::Canonical::Expressions::expr_parts))]
    pub fn actuals(&mut self, actuals: &[Expr]) -> Result<(), AllocError>
        ensures { OnOk result (PutsParts self.old self.new (actuals_parts (exprs_of actuals.now))) }
    {
        let [first, rest @ ..] = actuals else {
            return Ok(());
        };
        self.word(Terminal::OpenParenthesis)?;
        self.expr(first)?;
        for actual in rest {
            self.word(Terminal::Comma)?;
            self.expr(actual)?;
        }
        self.word(Terminal::CloseParenthesis)
    }
}
