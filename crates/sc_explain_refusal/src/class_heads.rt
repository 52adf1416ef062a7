//! Heads of classes that a help changes.

use crate::declared::class_around;
use crate::declaring::keyword_in;
use crate::edits::Said;
use sc_explain_text::{Lines, word_at};
use sc_text::Span;
use sc_tree::{Class, ClassMark, Name, Parent};

impl<'s> Said<'s> {
    /// Adds the name at fault to those that the heir redefines, as the help says.
    pub(crate) fn push_redefinition(self, lines: &mut Lines, classes: &[Class]) -> Option<Span> {
        let Some((heir, _)) = self.help.split_once(" says so") else {
            return None;
        };
        let Some((_, heir)) = heir.rsplit_once(' ') else {
            return None;
        };
        let Some(heir) = class_named(classes, heir) else {
            return None;
        };
        let Some(Parent { name, redefined }) = heir.parents.first() else {
            return None;
        };
        let old = word_at(self.text, self.span);
        match redefined.first() {
            Some(first) => {
                lines.fill_name("~, ", old);
                Some(beginning_of(first.span))
            }
            None => {
                let parent = word_at(self.text, name.span);
                lines.fill("~ redefine ~ end", &[parent, old]);
                Some(name.span)
            }
        }
    }

    /// The name at fault under `redefine` with its comma, or all of that list, if the help says to leave it out.
    pub(crate) fn listed_in_vain(self, classes: &[Class]) -> Option<Span> {
        if !self.help.starts_with("the parent has no such")
            && !self.help.starts_with("a name stands once")
        {
            return None;
        }
        let Some((_, class)) = class_around(classes, self.span) else {
            return None;
        };
        let Some(Parent { name, redefined }) = class.parents.first() else {
            return None;
        };
        if redefined.len() > 1 {
            return self.with_comma(redefined);
        }
        let rest = Span {
            start: self.span.end,
            end: class.span.end,
        };
        match keyword_in(self.text, rest, &["end"]) {
            Some(last) => Some(Span {
                start: name.span.end,
                end: last.end,
            }),
            None => None,
        }
    }

    /// The name at fault in a list of more, with the comma before it, or after it if it is the first.
    fn with_comma(self, names: &[Name]) -> Option<Span> {
        let mut start = self.span.start;
        for name in names {
            if name.span.start > self.span.start {
                return Some(Span {
                    start: self.span.start,
                    end: name.span.start,
                });
            }
            if name.span.start < self.span.start {
                start = name.span.end;
            }
        }
        Some(Span {
            start,
            end: self.span.end,
        })
    }

    /// Adds the root's procedure to the `create` list of its class, or such a list before the first `feature`, as the help says.
    pub(crate) fn push_creator(self, lines: &mut Lines, classes: &[Class]) -> Option<Span> {
        if !self.help.starts_with("list it before the first `feature`") {
            return None;
        }
        let mut quoted = self.message.split('`');
        let (_, procedure) = (quoted.next(), quoted.next());
        let (_, class) = (quoted.next(), quoted.next());
        let Some(class) = class_named(classes, class.unwrap_or("")) else {
            return None;
        };
        let procedure = procedure.unwrap_or("");
        if let Some(Name { span, .. }) = class.creators.first() {
            lines.fill_name("~, ", procedure);
            return Some(beginning_of(*span));
        }
        let body = Span {
            start: class.name.span.end,
            end: class.span.end,
        };
        let Some(section) = keyword_in(self.text, body, &["feature"]) else {
            return None;
        };
        lines.fill_name("create ~", procedure);
        self.push_break(lines, section.start);
        Some(beginning_of(section))
    }

    /// The mark of the class at fault, with the blanks after it, if the help says that a class has none.
    pub(crate) fn class_mark(self, classes: &[Class]) -> Option<Span> {
        if !self.help.starts_with("a class has no mark") {
            return None;
        }
        let Some((_, class)) = class_around(classes, self.span) else {
            return None;
        };
        match &class.mark {
            Some(ClassMark::Deferred(mark) | ClassMark::Expanded(mark) | ClassMark::Frozen(mark)) =>
                Some(Span {
                    start: mark.start,
                    end: self.next_token(mark.end),
                }),
            None => None,
        }
    }
}

/// The class of this name.
fn class_named<'s>(classes: &'s [Class], name: &str) -> Option<&'s Class> {
    for class in classes {
        if class.name.text.eq_ignore_ascii_case(name) {
            return Some(class);
        }
    }
    None
}

/// The place before a part.
pub(crate) fn beginning_of(part: Span) -> Span {
    Span {
        start: part.start,
        end: part.start,
    }
}
