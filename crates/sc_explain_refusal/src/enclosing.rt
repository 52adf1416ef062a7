//! What is asked or reserved before an instruction or an operand: the smallest one around the part at fault.

use crate::declared::{both_around, routine_of};
use crate::edits::Said;
use crate::site::span_of;
use sc_explain_text::Lines;
use sc_text::Span;
use sc_tree::{BinaryOperator, Class, Expr, Instr};

impl<'s> Said<'s> {
    /// Adds what the help writes around the part at fault: around its operand if the help ends in `and then`, or else around its
    /// instruction. A loop isn't put into another instruction, since what is asked before it would be asked once.
    pub(crate) fn push_asked(self, lines: &mut Lines, classes: &[Class]) -> Option<Span> {
        let Some(instruction) = instruction_in(classes, self.span) else {
            return None;
        };
        let Some((way, form)) = self.help.split_once(": `") else {
            return None;
        };
        if let Instr::Loop(..) = instruction {
            return None;
        }
        match way {
            "ask first" if form.starts_with("attached ") => {
                self.push_operand(lines, form, instruction)
            }
            "ask first"
            | "ask first, and reserve it"
            | "reserve it"
            | "reserve it, and ask inside" => {
                self.push_around(lines, form, ["", ""], span_of(instruction))
            }
            _ => None,
        }
    }

    /// Adds the operand around the part at fault in a condition of an `if`, after what the help asks.
    fn push_operand(self, lines: &mut Lines, form: &str, instruction: &Instr) -> Option<Span> {
        let Some(condition) = condition_around(instruction, self.span) else {
            return None;
        };
        let operand = operand_around(condition, self.span);
        let parentheses = if is_looser(operand) {
            ["(", ")"]
        } else {
            ["", ""]
        };
        self.push_around(lines, form, parentheses, operand.span())
    }

    /// Adds this form with what is around the part at fault, between these signs, in place of its two dots, and there the last
    /// name of the form in place of the part. None if something else is left out in the form, or if names are given before the part.
    fn push_around(
        self,
        lines: &mut Lines,
        form: &str,
        [opening, closing]: [&str; 2],
        around: Span,
    ) -> Option<Span> {
        let Some((before, behind)) = form.rsplit_once("..") else {
            return None;
        };
        let Some((_, name)) = before.rsplit_once(" as ") else {
            return None;
        };
        let Some(around) = self.with_parentheses(around) else {
            return None;
        };
        let name = name.split_whitespace().next().unwrap_or("");
        let behind = behind.trim_end_matches('`');
        let Span { start, end } = self.span;
        let front = self.between(around.start, start);
        let rest = self.between(end, around.end);
        if before.contains("..") || front.contains(" as ") {
            return None;
        }
        lines.push_all(&[before, opening, front, name, rest, closing, behind]);
        Some(around)
    }

    /// A part with the closing parentheses after it that it opens. (The place of an expression leaves them out.) None if it closes
    /// others.
    fn with_parentheses(self, part: Span) -> Option<Span> {
        let mut depth = 0_usize;
        let mut end = part.start;
        for byte in self
            .text
            .as_bytes()
            .get(part.start as usize..)
            .unwrap_or(&[])
        {
            if end >= part.end && depth == 0 {
                break;
            }
            match *byte {
                b'(' => depth = depth.saturating_add(1),
                b')' if depth == 0 => return None,
                b')' => depth -= 1,
                other if end >= part.end && !other.is_ascii_whitespace() => return None,
                _ => {}
            }
            end = end.saturating_add(1);
        }
        Some(Span {
            start: part.start,
            end,
        })
    }
}

/// The innermost instruction around a part of these classes.
fn instruction_in(classes: &[Class], part: Span) -> Option<&Instr> {
    let Some((_, feature)) = both_around(classes, part) else {
        return None;
    };
    match routine_of(feature) {
        Some(routine) => instruction_around(&routine.body, part),
        None => None,
    }
}

/// The innermost of these instructions, and of those in them, around a part.
#[cycle(instructions)]
fn instruction_around(instructions: &[Instr], part: Span) -> Option<&Instr> {
    for instruction in instructions {
        if encloses(span_of(instruction), part) {
            let inner = instruction_inside(instruction, part);
            if inner.is_some() {
                return inner;
            }
            return Some(instruction);
        }
    }
    None
}

/// The innermost instruction around a part in this one.
#[cycle(instructions)]
fn instruction_inside(instruction: &Instr, part: Span) -> Option<&Instr> {
    match instruction {
        Instr::If(_, _, body, branches, other) => {
            let found = instruction_around(body, part);
            if found.is_some() {
                return found;
            }
            for branch in branches.iter() {
                let found = instruction_around(&branch.body, part);
                if found.is_some() {
                    return found;
                }
            }
            instruction_around(other, part)
        }
        Instr::Loop(_, initial, _, body) => {
            let found = instruction_around(initial, part);
            if found.is_some() {
                return found;
            }
            instruction_around(body, part)
        }
        Instr::Block(_, _, body) => instruction_around(body, part),
        _ => None,
    }
}

/// Whether a part of a text has another one in it.
fn encloses(around: Span, part: Span) -> bool {
    around.start <= part.start && part.end <= around.end
}

/// The condition around a part in an `if`.
fn condition_around(instruction: &Instr, part: Span) -> Option<&Expr> {
    let Instr::If(_, condition, _, branches, _) = instruction else {
        return None;
    };
    if encloses(condition.span(), part) {
        return Some(condition);
    }
    for branch in branches.iter() {
        if encloses(branch.condition.span(), part) {
            return Some(&branch.condition);
        }
    }
    None
}

/// The operand around a part among those of the `and then`s at the top of a condition.
fn operand_around(condition: &Expr, part: Span) -> &Expr {
    match condition {
        Expr::Binary(_, operator, left, right) if operator.is_and_then() => {
            if encloses(left.span(), part) {
                operand_around(left, part)
            } else {
                operand_around(right, part)
            }
        }
        _ => condition,
    }
}

/// Whether an expression needs parentheses as an operand of `and then`.
fn is_looser(e: &Expr) -> bool {
    matches!(
        e,
        Expr::Binary(
            _,
            BinaryOperator::And
                | BinaryOperator::Or
                | BinaryOperator::OrElse
                | BinaryOperator::Xor
                | BinaryOperator::Implies,
            _,
            _
        )
    )
}
