//! The names that a system declares.

use sc_text::Span;
use sc_tree::{Class, Declaration, Feature, FeatureKind, Name, Routine};

/// The place of another class of the name at fault.
pub fn other_class(classes: &[Class], name: &str, span: Span) -> Option<Span> {
    for class in classes {
        let found = other_name(&class.name, name, span);
        if found.is_some() {
            return found;
        }
    }
    None
}

/// The place of another declaration of the name at fault: that of a feature of the class, an ancestor or an heir, or
/// of a formal or a local of the routine, or of any routine of these classes if the fault is at a feature.
pub fn other_entity(classes: &[Class], name: &str, span: Span) -> Option<Span> {
    let Some((_, class)) = class_around(classes, span) else {
        return None;
    };
    let named = other_in_family(classes, class, name, span, false);
    if named.is_some() {
        return named;
    }
    match feature_around(class, span) {
        None => None,
        Some(around) if around.name.span == span => {
            other_in_family(classes, class, name, span, true)
        }
        Some(around) => other_in_routine(around, name, span),
    }
}

/// The place of another feature of the name in the class, its ancestors and heirs; or else inside of features, that of a
/// formal or a local in the class and its heirs.
fn other_in_family(
    classes: &[Class],
    class: &Class,
    name: &str,
    span: Span,
    is_inside: bool,
) -> Option<Span> {
    for other in classes {
        if inherits(classes, other, class) || !is_inside && inherits(classes, class, other) {
            for feature in other.features.iter() {
                let found = if is_inside {
                    other_in_routine(feature, name, span)
                } else {
                    other_name(&feature.name, name, span)
                };
                if found.is_some() {
                    return found;
                }
            }
        }
    }
    None
}

/// Whether one class is the other, or its first parent inherits from it so.
pub fn inherits(classes: &[Class], heir: &Class, ancestor: &Class) -> bool {
    let mut class = heir;
    for _ in classes {
        if class.name.text == ancestor.name.text {
            return true;
        }
        let Some(parent) = parent_of(classes, class) else {
            return false;
        };
        class = parent;
    }
    false
}

/// The last feature that begins no later than the span.
pub fn feature_around(class: &Class, span: Span) -> Option<&Feature> {
    let features = &class.features;
    let count = features.partition_point(|feature| feature.name.span.start <= span.start);
    match count.checked_sub(1) {
        Some(last) => features.get(last),
        None => None,
    }
}

/// The class and the feature around a part of the text.
pub fn both_around(classes: &[Class], span: Span) -> Option<(&Class, &Feature)> {
    let Some((_, class)) = class_around(classes, span) else {
        return None;
    };
    match feature_around(class, span) {
        Some(feature) => Some((class, feature)),
        None => None,
    }
}

/// The routine that a feature is, if it is one.
pub fn routine_of(feature: &Feature) -> Option<&Routine> {
    match &feature.kind {
        FeatureKind::Attribute(_) => None,
        FeatureKind::Routine(routine) => Some(routine),
    }
}

/// The place of another formal or local of the name.
fn other_in_routine(feature: &Feature, name: &str, span: Span) -> Option<Span> {
    let Some(routine) = routine_of(feature) else {
        return None;
    };
    let found = other_declared(&routine.formals, name, span);
    if found.is_some() {
        return found;
    }
    other_declared(&routine.locals, name, span)
}

fn other_declared(declarations: &[Declaration], name: &str, span: Span) -> Option<Span> {
    for declaration in declarations {
        let found = other_name(&declaration.name, name, span);
        if found.is_some() {
            return found;
        }
    }
    None
}

/// The place of a name, if it equals the one at fault and has another place.
fn other_name(declared: &Name, name: &str, span: Span) -> Option<Span> {
    if declared.span != span && declared.text.eq_ignore_ascii_case(name) {
        Some(declared.span)
    } else {
        None
    }
}

/// The class that contains a part of the text, with its number.
pub fn class_around(classes: &[Class], span: Span) -> Option<(usize, &Class)> {
    let number = classes.partition_point(|class| class.span.end <= span.start);
    match classes.get(number) {
        Some(class) if class.span.start <= span.start => Some((number, class)),
        _ => None,
    }
}

/// The class that a class names as its first parent, if the system has it.
pub fn parent_of<'s>(classes: &'s [Class], class: &Class) -> Option<&'s Class> {
    let Some(parent) = class.parents.first() else {
        return None;
    };
    for other in classes {
        if other.name.text == parent.name.text {
            return Some(other);
        }
    }
    None
}

/// The feature of this name that a class declares.
pub fn declared_in<'s>(class: &'s Class, name: &str) -> Option<&'s Feature> {
    for feature in class.features.iter() {
        if feature.name.as_str() == name {
            return Some(feature);
        }
    }
    None
}

/// The feature of this name that a class declares or inherits.
pub fn feature_named<'s>(
    classes: &'s [Class],
    class: &'s Class,
    name: &str,
) -> Option<&'s Feature> {
    let mut class = class;
    for _ in classes {
        let declared = declared_in(class, name);
        if declared.is_some() {
            return declared;
        }
        let Some(parent) = parent_of(classes, class) else {
            return None;
        };
        class = parent;
    }
    None
}
