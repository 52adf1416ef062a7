//! What helps where the classes of a system are at fault.

use crate::declared::class_around;
use sc_explain_text::{Lines, is_slip, push_instead_of, push_meant, push_near_built_in, word_at};
use sc_text::Span;
use sc_tree::{Class, ClassMark};

/// Adds what is written in place of a part of Eiffel that is left out.
pub fn push_left_out(lines: &mut Lines, text: &str, classes: &[Class], span: Span) {
    let Some((_, class)) = class_around(classes, span) else {
        return;
    };
    match &class.mark {
        Some(ClassMark::Deferred(mark) | ClassMark::Expanded(mark) | ClassMark::Frozen(mark))
            if class.name.span == span => {
            push_instead_of(lines, word_at(text, *mark));
        }
        _ => lines.push(help_of_left_out(class, span)),
    }
}

/// What helps with a name that a class may not have there: a second parent's, or one of an export list.
fn help_of_left_out(class: &Class, span: Span) -> &'static str {
    for parent in class.parents.iter() {
        if parent.name.span == span {
            return "help: a class has one parent: another is an attribute of this class\n";
        }
    }
    "help: features are for all, below `feature`, or for no other, below `feature {NONE}`\n"
}

/// Adds a line that asks whether another class was meant, or else what is written in place of what this name shows: the
/// first class in the text whose name one slip of the pen makes this one.
pub fn push_near_class(lines: &mut Lines, text: &str, classes: &[Class], name: &str) {
    if push_instead_of(lines, name) {
        return;
    }
    for class in classes {
        if is_slip(class.name.text.as_bytes(), name.as_bytes()) {
            return push_meant(lines, word_at(text, class.name.span));
        }
    }
    push_near_built_in(lines, name);
}
