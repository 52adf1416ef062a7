//! What can be said about a part that a rule fails at: a sentence with the types that are compared or the numbers
//! that differ, and what helps. Nothing, if the types and numbers that are found there don't explain the fault.

use crate::declared::routine_of;
use crate::helps::{Between, Maker};
use crate::impurity::impurity_of;
use crate::site::Part;
use crate::types::{Compared, Mismatch, type_found, type_of_actual};
use crate::walk::Walk;
use crate::words::{NamedType, class_name, handler_name, push_type};
use sc_class::{ClassId, Tables};
use sc_explain_text::{Lines, Related, binary_spelling};
use sc_rules::entity_types::{EntityType, Tag, conforms};
use sc_rules::{Context, Position, Role, Rule};
use sc_tree::{BinaryOperator, Call, CreationCall, Expr, UnaryOperator, Variable};
use sc_typing::{
    Entity, Formals, JudgedActual, Meaning, Signature, is_boolean, judge_binary, judge_unary,
    operand_context, operand_position, simple_typing,
};

impl<'s> Walk<'s> {
    /// The place that goes with the part that was found, if one does: what isn't pure in the function that is called.
    pub(crate) fn related_to(&self, lines: &mut Lines, part: Part<'s>) -> Option<Related> {
        match (self.search.rule, part) {
            (Rule::ImpureContract, Part::Call(call, None)) => {
                match self.meaning_of_call(lines, call) {
                    Meaning::Named(
                        Signature {
                            routine: Some(entry),
                            ..
                        },
                    ) => match routine_of(entry.feature) {
                        Some(routine) => impurity_of(routine),
                        None => None,
                    },
                    _ => None,
                }
            }
            _ => None,
        }
    }

    /// Adds what can be said about the part that was found.
    pub(crate) fn tell(&mut self, lines: &mut Lines, part: Part<'s>) {
        let spot = self.search.spot;
        match part {
            Part::Call(call, actual) => self.tell_call(lines, call, actual),
            Part::Creation(created, call, actual) => {
                self.tell_creation(lines, created, call, actual)
            }
            Part::Assignee(variable, value) => self.tell_assignee(lines, variable, value),
            Part::Assigned(variable, value) => {
                let mismatch = self.assigned_types(lines, variable, value);
                self.push_mismatch(lines, mismatch, ", and `~` takes ")
            }
            Part::Head(value) => {
                if let Some(types) = self.head_types(lines, value) {
                    spot.push_head(lines, self.named(types.given))
                }
            }
            Part::Condition(e) => {
                if let Some(given) = self.type_of_condition(lines, e)
                    && !is_boolean(given.class)
                {
                    spot.push_no_boolean(lines, self.named(given))
                }
            }
            Part::Unary(operator, operand) => self.tell_unary(lines, operator, operand),
            Part::Binary(operator, left, right) => self.tell_binary(lines, operator, left, right),
            Part::Target(target) => {
                if let Some(given) = self.type_of(lines, spot.context, Position::Plain, target) {
                    spot.push_target(lines, self.named(given))
                }
            }
        }
    }

    /// A type with the names that are in it.
    fn named(&self, given: EntityType) -> NamedType<'s> {
        let text = self.search.spot.text;
        let routine = &self.routine;
        NamedType {
            entity_type: given,
            class: class_name(text, routine.tables, given.class),
            handler: handler_name(text, routine.formals, &self.names, given.tag),
        }
    }

    /// Adds which types don't fit, if they don't, with this text on what would be taken.
    fn push_mismatch(&self, lines: &mut Lines, mismatch: Option<Mismatch>, taking: &str) {
        if let Some(mismatch) = mismatch {
            let Compared { given, taken } = mismatch.types;
            self.search.spot.push_unfit(
                lines,
                mismatch,
                self.named(given),
                self.named(taken),
                between(self.routine.tables, given, taken),
                taking,
            )
        }
    }

    fn tell_unary(&self, lines: &mut Lines, operator: UnaryOperator, operand: &Expr) {
        let spot = self.search.spot;
        if let Rule::OldPlace = self.search.rule {
            return spot.say(lines, text_of_old(spot.context));
        }
        let around = operand_context(operator, spot.context);
        if let Some(given) = self.type_of(lines, around, Position::Plain, operand) {
            let judged = judge_unary(spot.context, spot.span, operator, simple_typing(given));
            if type_found(lines, judged).is_none() {
                lines.push(text_of_unary(operator));
                push_type(lines, self.named(given), "\n")
            }
        }
    }

    fn tell_binary(
        &mut self,
        lines: &mut Lines,
        operator: BinaryOperator,
        left: &'s Expr,
        right: &'s Expr,
    ) {
        if let Some(left) = self.type_of_operand(lines, operator, left)
            && let Some(right) = self.type_of_operand(lines, operator, right)
        {
            let judged = judge_binary(
                self.search.spot.span,
                operator,
                simple_typing(left),
                simple_typing(right),
            );
            if type_found(lines, judged).is_none() {
                lines.fill_name(text_of_binary(operator), binary_spelling(operator));
                push_type(lines, self.named(left), " and of type ");
                push_type(lines, self.named(right), "\n")
            }
        }
    }

    /// The type of a condition, if it has one; the names that it binds are in scope after it.
    fn type_of_condition(&mut self, lines: &mut Lines, e: &'s Expr) -> Option<EntityType> {
        let context = self.search.spot.context;
        let judged = self.routine.condition(context, &mut self.names, e);
        type_found(lines, judged)
    }

    /// The type of an operand, if it has one; the names that it binds, in a condition, are in scope after it.
    fn type_of_operand(
        &mut self,
        lines: &mut Lines,
        operator: BinaryOperator,
        operand: &'s Expr,
    ) -> Option<EntityType> {
        if operator.is_and_then() {
            self.type_of_condition(lines, operand)
        } else {
            let context = self.search.spot.context;
            self.type_of(lines, context, operand_position(operator), operand)
        }
    }

    /// Of what is created, or assigned this value, by the rule that fails.
    fn tell_assignee(&self, lines: &mut Lines, variable: &Variable, value: Option<&Expr>) {
        match self.search.rule {
            Rule::NotAssignable => {
                let role = role_of(&self.names, variable);
                self.search.spot.push_fixed(lines, role)
            }
            Rule::NotCreation => {
                if let Some(created) = self.type_of_variable(variable) {
                    let maker = self.maker_of(created.class);
                    self.search.spot.push_unmade(lines, maker)
                }
            }
            Rule::UnknownName => {
                if !self.push_unknown(lines)
                    && let Some(value) = value
                {
                    self.push_declaration(lines, value)
                }
            }
            _ => {}
        }
    }

    /// Adds how what is assigned this value is declared, if the value has a type that may be declared there.
    fn push_declaration(&self, lines: &mut Lines, value: &Expr) {
        if let Some(given) = self.type_of(lines, Context::Body, Position::Plain, value)
            && !matches!(given.class, ClassId::None)
            && matches!(given.tag, Tag::Own | Tag::Any)
        {
            self.search.spot.push_local(lines, self.named(given))
        }
    }

    /// A class, as it makes its objects.
    fn maker_of(&self, class: ClassId) -> Maker<'s> {
        let tables = self.routine.tables;
        let first = match class {
            ClassId::Declared(number) => tables.creators(number).first(),
            _ => None,
        };
        Maker {
            class,
            name: class_name(self.search.spot.text, tables, class),
            first: match first {
                Some(first) => Some(first.as_str()),
                None => None,
            },
        }
    }

    /// The type of the target of a call, if it has one.
    fn type_of_target(&self, lines: &mut Lines, call: &Call) -> Option<EntityType> {
        match &call.target {
            None => None,
            Some(target) => {
                self.type_of(lines, self.search.spot.context, Position::Plain, target)
            }
        }
    }

    /// What the name of a call means.
    fn meaning_of_call(&self, lines: &mut Lines, call: &Call) -> Meaning<'s> {
        let target = self.type_of_target(lines, call);
        self.routine
            .meaning_of(&self.names, &call.target, target, &call.name)
    }

    /// Of the name of a call, or of its actual at a number.
    fn tell_call(&self, lines: &mut Lines, call: &Call, actual: Option<usize>) {
        let target = self.type_of_target(lines, call);
        let meaning = self
            .routine
            .meaning_of(&self.names, &call.target, target, &call.name);
        match actual {
            None => self.tell_name(lines, &meaning, target, call.actuals.len(), false),
            Some(number) => self.tell_actual(lines, &meaning, &call.actuals, number),
        }
    }

    /// Of the name of the call that an entity is created by, or of its actual at a number.
    fn tell_creation(
        &self,
        lines: &mut Lines,
        created: &Variable,
        call: &CreationCall,
        actual: Option<usize>,
    ) {
        let Some(created) = self.type_of_variable(created) else {
            return;
        };
        let meaning = self.routine.qualified_meaning(created, call.name.as_str());
        match actual {
            None => self.tell_name(lines, &meaning, Some(created), call.actuals.len(), true),
            Some(number) => self.tell_actual(lines, &meaning, &call.actuals, number),
        }
    }

    /// By the rule that fails, of the name of a call with this number of actuals, after a target of this type if it has
    /// one, or of the call by which an object of this type is created.
    fn tell_name(
        &self,
        lines: &mut Lines,
        meaning: &Meaning<'s>,
        target: Option<EntityType>,
        actuals: usize,
        is_creation: bool,
    ) {
        let spot = self.search.spot;
        match (self.search.rule, meaning, target) {
            (Rule::NotCreation, _, Some(created)) if is_creation => {
                spot.push_unlisted(lines, self.maker_of(created.class))
            }
            (Rule::UnknownName, Meaning::Unknown, None) => {
                self.push_unknown(lines);
            }
            (Rule::UnknownName, Meaning::Unknown, Some(target)) => {
                self.push_lacking(lines, target.class)
            }
            (Rule::WrongArity, Meaning::Named(called), _) => {
                spot.push_arity(lines, called.formals, actuals)
            }
            (Rule::ResultType, Meaning::Named(called), _) => {
                spot.say(lines, text_of_result(called.gives.is_some(), is_creation))
            }
            _ => {}
        }
    }

    /// Of the actual at a number of what is called.
    fn tell_actual(
        &self,
        lines: &mut Lines,
        called: &Meaning<'s>,
        actuals: &[Expr],
        number: usize,
    ) {
        let Meaning::Named(called) = called else {
            return;
        };
        match self
            .routine
            .judged_actuals(self.search.spot.context, &self.names, actuals)
        {
            Ok(found) => self.tell_found(lines, called, &found, number),
            Err(fault) => {
                type_found(lines, Err(fault));
            }
        }
    }

    /// Of the actual at a number of those that were judged.
    fn tell_found(
        &self,
        lines: &mut Lines,
        called: &Signature<'s>,
        found: &[JudgedActual],
        number: usize,
    ) {
        let Some(given) = type_of_actual(found, number) else {
            return;
        };
        match called.formals {
            Formals::Printed if given.is_expanded() => {}
            Formals::Printed => self.search.spot.push_given(
                lines,
                self.named(given),
                ", and `print` takes an INTEGER or a BOOLEAN\n",
            ),
            Formals::Declared(formals) => {
                let mismatch = self.passed_types(
                    lines,
                    found,
                    called.target,
                    formals,
                    number,
                    given,
                );
                self.push_mismatch(lines, mismatch, ", and here the formal `~` takes ")
            }
        }
    }
}

/// What alone is between a type and another to which it doesn't conform.
fn between(tables: &Tables<'_>, given: EntityType, taken: EntityType) -> Between {
    let attached = EntityType {
        attached: true,
        ..given
    };
    let tagged = EntityType {
        tag: taken.tag,
        ..given
    };
    if matches!(given.class, ClassId::None) && !taken.is_expanded() {
        Between::Void
    } else if !given.attached && conforms(tables, attached, taken) {
        Between::Mark
    } else if !matches!(taken.tag, Tag::Any) && conforms(tables, tagged, taken) {
        Between::Tag
    } else {
        Between::More
    }
}

/// The role of the first of these entities that has this name, if it is one's.
fn role_of(names: &[Entity<'_>], variable: &Variable) -> Option<Role> {
    let Variable::Named(name) = variable else {
        return None;
    };
    for known in names {
        if known.name == name.as_str() {
            return Some(known.role);
        }
    }
    None
}

/// What is said of an `old` that stands in this part of a class's text, and what helps.
fn text_of_old(context: Context) -> &'static str {
    match context {
        Context::Ensure => {
            "`~` asks an object of another handler, whose state of before isn't kept\n\
             help: ask before in the body, keep the answer in a local, and compare in a `check`\n"
        }
        Context::Old => {
            "`~` stands in another `old`, and one is enough\n\
             help: leave this one out\n"
        }
        Context::Require => {
            "`~` stands outside of a postcondition\n\
             help: leave it out: a precondition is asked before the body\n"
        }
        Context::Invariant => {
            "`~` stands outside of a postcondition\n\
             help: leave it out: an invariant speaks of one state\n"
        }
        Context::Body | Context::Check => {
            "`~` stands outside of a postcondition\n\
             help: keep the value in a local before\n"
        }
    }
}

/// Which operand an operator takes, before the type of the one that it has.
fn text_of_unary(operator: UnaryOperator) -> &'static str {
    match operator {
        UnaryOperator::Not => "`not` takes a BOOLEAN, and its operand is of type ",
        UnaryOperator::Old => "`old` takes a value, and its operand is of type ",
        UnaryOperator::Plus => "`+` takes an INTEGER, and its operand is of type ",
        UnaryOperator::Minus => "`-` takes an INTEGER, and its operand is of type ",
    }
}

/// Which operands an operator takes, before the types of those that it has.
fn text_of_binary(operator: BinaryOperator) -> &'static str {
    match operator {
        BinaryOperator::Equal | BinaryOperator::NotEqual => {
            "`~` takes two INTEGERs, two BOOLEANs or two references, and its operands are of type "
        }
        BinaryOperator::And
        | BinaryOperator::AndThen
        | BinaryOperator::Or
        | BinaryOperator::OrElse
        | BinaryOperator::Xor
        | BinaryOperator::Implies => "`~` takes two BOOLEANs, and its operands are of type ",
        _ => "`~` takes two INTEGERs, and its operands are of type ",
    }
}

/// What is said of a name that gives a value, or that gives none, where that is wrong.
fn text_of_result(is_function: bool, is_creation: bool) -> &'static str {
    match (is_function, is_creation) {
        (true, true) => "`~` gives a value, and a procedure creates\n",
        (true, false) => {
            "`~` gives a value, and an instruction has none\n\
             help: keep the value in a local, or ask it in a condition\n"
        }
        (false, _) => {
            "`~` is a procedure, and gives no value\n\
             help: call it as an instruction of its own\n"
        }
    }
}
