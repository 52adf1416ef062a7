//! The part of a text that a rule fails at.

use crate::words::Spot;
use sc_rules::{Context, Rule};
use sc_text::Span;
use sc_tree::{
    BinaryOperator, Call, Clause, CreationCall, Expr, Head, Instr, UnaryOperator, Variable,
};
use sc_typing::{operand_context, variable_span};

/// A position in a body.
#[derive(Clone, Copy)]
pub(crate) enum Place {
    /// In an instruction, outside of the conditions of ifs and loops.
    Instruction,
    /// In the condition of an `if` or an `elseif`.
    Condition,
    /// In the condition that a loop ends by.
    Until,
}

/// A part of a text at which a rule may fail.
#[derive(Clone, Copy)]
pub(crate) enum Part<'s> {
    /// The name of a call, or its actual at a number.
    Call(&'s Call, Option<usize>),
    /// The name of the call that this entity is created by, or the actual of that call at a number.
    Creation(&'s Variable, &'s CreationCall, Option<usize>),
    /// The entity that is created, or assigned this.
    Assignee(&'s Variable, Option<&'s Expr>),
    /// What is assigned to this.
    Assigned(&'s Variable, &'s Expr),
    /// The head of a separate block.
    Head(&'s Expr),
    /// A condition or a clause.
    Condition(&'s Expr),
    /// An operator with its operand.
    Unary(UnaryOperator, &'s Expr),
    /// An operator with its operands.
    Binary(BinaryOperator, &'s Expr, &'s Expr),
    /// The target of a call.
    Target(&'s Expr),
}

/// What a search has found.
#[derive(Clone, Copy)]
pub(crate) enum Found<'s> {
    /// Nothing as yet.
    Nothing,
    /// This part is the one at fault, at this position in a body.
    At(Part<'s>, Place),
    /// A part in front of it is faulty, so what is known at it isn't found.
    Faulty,
    /// Memory ran out.
    OutOfMemory,
}

/// Whether the rule is one that fails at such a part.
fn fails_at(rule: Rule, part: Part<'_>) -> bool {
    match part {
        Part::Call(_, None) | Part::Creation(_, _, None) | Part::Assignee(..) => matches!(
            rule,
            Rule::UnknownName
                | Rule::WrongArity
                | Rule::ResultType
                | Rule::NotAssignable
                | Rule::NotCreation
                | Rule::ImpureContract
        ),
        Part::Call(..) | Part::Creation(..) | Part::Head(_) => {
            matches!(rule, Rule::ArgumentType)
        }
        Part::Assigned(..) => matches!(rule, Rule::AssignType),
        Part::Condition(_) => matches!(rule, Rule::NotBoolean),
        Part::Unary(..) | Part::Binary(..) => {
            matches!(rule, Rule::OperatorType | Rule::OldPlace)
        }
        Part::Target(_) => matches!(rule, Rule::TargetDetachable | Rule::TargetUncontrolled),
    }
}

/// Whether the rule fails at parts of instructions and clauses of which more is said than by the rule alone.
pub(crate) fn is_of_parts(rule: Rule) -> bool {
    !matches!(
        rule,
        Rule::CreationTag
            | Rule::TagName
            | Rule::InvariantForm
            | Rule::PreconditionArgument
            | Rule::NotExported
            | Rule::ObjectTestPlace
            | Rule::VoidUse
    )
}

/// A search for the part of a text at which a rule fails.
#[derive(Clone, Copy)]
pub(crate) struct Search<'s> {
    pub rule: Rule,
    /// The part at fault, at the position that the search has reached.
    pub spot: Spot<'s>,
    pub found: Found<'s>,
}

impl<'s> Search<'s> {
    /// Passes a part: it is the one at fault if it has the place of the fault, and the rule may fail at it.
    pub(crate) fn pass(&mut self, context: Context, span: Span, part: Part<'s>) {
        if let Found::Nothing = self.found
            && self.spot.span == span
            && fails_at(self.rule, part)
        {
            self.spot.context = context;
            self.found = Found::At(part, self.spot.place);
        }
    }

    /// Whether the part at fault may be in this part.
    fn is_in(&self, span: Span) -> bool {
        span.start <= self.spot.span.start && self.spot.span.end <= span.end
    }

    /// Passes an expression.
    #[cycle(expressions)]
    pub(crate) fn pass_expression(&mut self, context: Context, e: &'s Expr) {
        if !self.is_in(e.span()) {
            return;
        }
        match e {
            Expr::Call(call) => self.pass_call(context, call),
            Expr::Unary(span, operator, operand) => {
                self.pass(context, *span, Part::Unary(*operator, operand));
                self.pass_expression(operand_context(*operator, context), operand)
            }
            Expr::Binary(span, operator, left, right) => {
                self.pass(context, *span, Part::Binary(*operator, left, right));
                self.pass_expression(context, left);
                self.pass_expression(context, right)
            }
            Expr::ObjectTest(_, _, tested, _) => self.pass_expression(context, tested),
            _ => {}
        }
    }

    /// Passes a call: its name, its target and its actuals.
    #[cycle(expressions)]
    fn pass_call(&mut self, context: Context, call: &'s Call) {
        self.pass(context, call.name.span, Part::Call(call, None));
        if let Some(target) = &call.target {
            self.pass(context, target.span(), Part::Target(target));
            self.pass_expression(context, target);
        }
        for (number, actual) in call.actuals.iter().enumerate() {
            self.pass(context, actual.span(), Part::Call(call, Some(number)));
            self.pass_expression(context, actual);
        }
    }

    /// Passes the call that an entity is created by.
    fn pass_creation(&mut self, created: &'s Variable, call: &'s CreationCall) {
        let part = Part::Creation(created, call, None);
        self.pass(Context::Body, call.name.span, part);
        for (number, actual) in call.actuals.iter().enumerate() {
            let part = Part::Creation(created, call, Some(number));
            self.pass(Context::Body, actual.span(), part);
            self.pass_expression(Context::Body, actual);
        }
    }

    /// Passes clauses, in which no more names are known than around them.
    pub(crate) fn pass_clauses(&mut self, context: Context, clauses: &'s [Clause]) {
        for clause in clauses {
            self.pass_condition(context, &clause.condition);
        }
    }

    /// Passes a condition that gives no names.
    pub(crate) fn pass_condition(&mut self, context: Context, e: &'s Expr) {
        self.pass(context, e.span(), Part::Condition(e));
        self.pass_expression(context, e)
    }

    /// Passes an instruction that has no others in it.
    pub(crate) fn pass_simple(&mut self, instruction: &'s Instr) {
        if !self.is_in(span_of(instruction)) {
            return;
        }
        match instruction {
            Instr::Assign(_, variable, value) => {
                let part = Part::Assigned(variable, value);
                self.pass(Context::Body, value.span(), part);
                self.pass(
                    Context::Body,
                    variable_span(variable),
                    Part::Assignee(variable, Some(value)),
                );
                self.pass_expression(Context::Body, value)
            }
            Instr::Call(call) => self.pass_call(Context::Body, call),
            Instr::Create(_, variable, call) => {
                self.pass(
                    Context::Body,
                    variable_span(variable),
                    Part::Assignee(variable, None),
                );
                if let Some(call) = call {
                    self.pass_creation(variable, call)
                }
            }
            Instr::Check(_, clauses) => self.pass_clauses(Context::Check, clauses),
            _ => {}
        }
    }

    /// Passes the heads of a separate block. None of the block's names is in scope in them.
    pub(crate) fn pass_heads(&mut self, heads: &'s [Head]) {
        for head in heads {
            let value = &head.value;
            self.pass(Context::Body, value.span(), Part::Head(value));
            self.pass_expression(Context::Body, value);
        }
    }
}

/// The place of an instruction.
pub(crate) fn span_of(instruction: &Instr) -> Span {
    match instruction {
        Instr::Assign(span, _, _) | Instr::PrintText(span, _) => *span,
        Instr::Call(call) => call.span,
        Instr::Create(span, _, _) | Instr::Check(span, _) => *span,
        Instr::If(span, _, _, _, _) | Instr::Loop(span, _, _, _) => *span,
        Instr::Block(span, _, _) => *span,
    }
}
