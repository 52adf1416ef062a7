//! Values, as sentences show them.

use crate::listing::Listing;
use crate::naming::Named;
use sc_explain_text::Lines;
use sc_region::Value;

/// Adds a value. A reference is shown as the class of its object and the handler of that.
pub fn push_shown(lines: &mut Lines, listing: &Listing<'_>, value: Value) {
    match value {
        Value::Attached(object) => {
            Named::of(listing, object.handler, Some(object.class)).push_class_first(lines)
        }
        _ => push_expanded(lines, value),
    }
}

/// Adds a value, unless it is a reference to an object.
pub fn push_expanded(lines: &mut Lines, value: Value) {
    let word = match value {
        Value::Integer(value) => {
            let template = if value < 0 { "-~" } else { "~" };
            return lines.fill_number(template, value.unsigned_abs());
        }
        Value::Boolean(true) => "True",
        Value::Boolean(false) => "False",
        Value::Void => "Void",
        Value::Attached(_) => "",
    };
    lines.push(word)
}

/// Adds a call of a feature with these actuals.
pub fn push_call(lines: &mut Lines, listing: &Listing<'_>, feature: &str, actuals: &[Value]) {
    lines.push(feature);
    let mut separator = " (";
    for actual in actuals {
        lines.push(separator);
        push_shown(lines, listing, *actual);
        separator = ", ";
    }
    if !actuals.is_empty() {
        lines.push(")")
    }
}
