//! Why a system can't be run from a root, and from which it can.

use crate::declared::feature_named;
use sc_class::Root;
use sc_explain_text::{Lines, word_at};
use sc_tree::{Class, Feature, FeatureKind};

/// Adds why the system of a text isn't run from this root, and what helps.
pub fn explain_root(lines: &mut Lines, text: &str, classes: &[Class], root: &Root) {
    for class in classes {
        if class.name.text.eq_ignore_ascii_case(&root.class) {
            return push_unfit(lines, text, classes, class, root);
        }
    }
    let template = "no class is called `~`, in any letter case\n";
    lines.fill_name(template, root.class.as_str());
    push_other_root(lines, text, classes, root)
}

/// How a name that a class may have stands to the root of a run.
#[derive(Clone, Copy)]
enum Standing {
    /// No feature has it.
    Missing,
    /// The feature gives a value.
    Value,
    /// The procedure has formals.
    Formals,
    /// It is a procedure without formals.
    Procedure,
}

fn standing_of(feature: Option<&Feature>) -> Standing {
    let Some(feature) = feature else {
        return Standing::Missing;
    };
    match &feature.kind {
        FeatureKind::Routine(routine) if routine.result_type.is_none() => {
            if routine.formals.is_empty() {
                Standing::Procedure
            } else {
                Standing::Formals
            }
        }
        _ => Standing::Value,
    }
}

/// Adds why this class isn't run from the root's procedure, and what helps.
fn push_unfit<'s>(
    lines: &mut Lines,
    text: &str,
    classes: &'s [Class],
    class: &'s Class,
    root: &Root,
) {
    let procedure = root.procedure.as_str();
    let standing = standing_of(feature_named(classes, class, procedure));
    let names = [procedure, word_at(text, class.name.span)];
    lines.fill(text_of(standing), &names);
    if !push_other_procedure(lines, text, classes, class) {
        lines.push(help_of(standing))
    }
}

/// What is said of a feature that is no root, or of one that is missing.
fn text_of(standing: Standing) -> &'static str {
    match standing {
        Standing::Missing => "`~` of the class `~` isn't there\n",
        Standing::Value =>
            "`~` of the class `~` gives a value, and a run begins with a procedure\n",
        Standing::Formals => "`~` of the class `~` has formals, and a run begins without actuals\n",
        Standing::Procedure => "`~` of the class `~` isn't listed under `create`\n",
    }
}

/// What helps with it where its class has no other.
fn help_of(standing: Standing) -> &'static str {
    match standing {
        Standing::Missing => "help: declare it, as `make do .. end`, and list it under `create`\n",
        Standing::Value | Standing::Formals => {
            "help: declare a procedure without formals, and list it under `create`\n"
        }
        Standing::Procedure => "help: list it before the first `feature`, as `create make`\n",
    }
}

/// Adds another procedure of the class that it can be run from, and whether there is one.
fn push_other_procedure<'s>(
    lines: &mut Lines,
    text: &str,
    classes: &'s [Class],
    class: &'s Class,
) -> bool {
    for creator in class.creators.iter() {
        let feature = feature_named(classes, class, creator.as_str());
        if let Standing::Procedure = standing_of(feature) {
            let names = [word_at(text, class.name.span), word_at(text, creator.span)];
            lines.fill("help: `--root ~.~` runs it from there\n", &names);
            return true;
        }
    }
    false
}

/// Adds the first class that the system can be run from, or how one is declared.
fn push_other_root(lines: &mut Lines, text: &str, classes: &[Class], root: &Root) {
    for class in classes {
        if push_other_procedure(lines, text, classes, class) {
            return;
        }
    }
    let procedure = root.procedure.as_str();
    lines.fill(
        "help: declare it: `class ~ create ~ feature ~ do .. end end`\n",
        &[root.class.as_str(), procedure, procedure],
    )
}
