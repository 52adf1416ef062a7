//! Why a function isn't pure, if it does itself what no pure function does.

use sc_explain_text::Related;
use sc_text::Span;
use sc_tree::{Declaration, HandlerTag, Instr, Name, Routine, Variable};
use sc_typing::variable_span;

/// What the routine does that no pure function does, and its place: the first in the text, if it can be seen without
/// the types of its expressions.
pub fn impurity_of(routine: &Routine) -> Option<Related> {
    match reserved_formal(&routine.formals) {
        Some(span) => Some(Related {
            what: "it reserves the handler of this formal",
            span,
        }),
        None => side_effect(&routine.locals, &routine.body),
    }
}

/// The place of the first formal whose handler is reserved.
fn reserved_formal(formals: &[Declaration]) -> Option<Span> {
    for formal in formals {
        let declared = &formal.declared_type;
        if !declared.is_detachable && !matches!(declared.tag, HandlerTag::Own) {
            return Some(formal.name.span);
        }
    }
    None
}

/// The first side effect of these instructions, in a routine with these locals.
#[cycle(instructions)]
fn side_effect(locals: &[Declaration], instructions: &[Instr]) -> Option<Related> {
    for instruction in instructions {
        let found = side_effect_of(locals, instruction);
        if found.is_some() {
            return found;
        }
    }
    None
}

/// The first side effect of an instruction.
#[cycle(instructions)]
fn side_effect_of(locals: &[Declaration], instruction: &Instr) -> Option<Related> {
    let (what, span) = match instruction {
        Instr::Assign(_, Variable::Named(name), _) if !is_declared(locals, name) => {
            ("it assigns this attribute", name.span)
        }
        Instr::Create(_, variable, _) => ("it creates an object", variable_span(variable)),
        Instr::PrintText(span, _) => ("it prints", *span),
        Instr::Call(call) => ("it calls this procedure", call.name.span),
        Instr::Block(span, _, _) => ("it reserves a handler", *span),
        Instr::If(_, _, body, branches, other) => {
            let found = side_effect(locals, body);
            if found.is_some() {
                return found;
            }
            for branch in branches.iter() {
                let found = side_effect(locals, &branch.body);
                if found.is_some() {
                    return found;
                }
            }
            return side_effect(locals, other);
        }
        Instr::Loop(_, initial, _, body) => {
            let found = side_effect(locals, initial);
            if found.is_some() {
                return found;
            }
            return side_effect(locals, body);
        }
        _ => return None,
    };
    Some(Related { what, span })
}

/// Whether one of these declares the name.
fn is_declared(declarations: &[Declaration], name: &Name) -> bool {
    for declaration in declarations {
        if declaration.name.text == name.text {
            return true;
        }
    }
    false
}
