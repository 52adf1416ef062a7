//! What is declared at a place of a text, as it stands there.

use sc_class::ClassId;
use sc_explain_text::{Lines, word_at};
use sc_rules::Role;
use sc_rules::entity_types::{EntityType, Tag};
use sc_symbols::{Mention, Symbol};
use sc_text::{Span, Terminal, Token, TokenKind};
use sc_tree::{Declaration, Feature, FeatureKind, Routine, System};

/// A text that is read.
#[derive(Drop)]
pub struct ReadText<'t> {
    pub text: &'t str,
    pub tokens: &'t [Token],
    pub system: &'t System,
}

impl<'t> ReadText<'t> {
    /// Adds what a name means: a class, a feature with its contract, or an entity with its type. Of a name of an object test or of a
    /// separate block its line follows.
    pub fn push_meaning(&self, lines: &mut Lines, mention: Mention) {
        let name = mention.declaration;
        match mention.symbol {
            Symbol::Entity(Role::Test, given) => self.push_named(lines, name, Role::Test, given),
            Symbol::Entity(Role::Block, given) => self.push_named(lines, name, Role::Block, given),
            _ => self.push_declared(lines, name),
        }
    }

    /// Adds the name at a place, with its type if it has one, and its line.
    fn push_named(&self, lines: &mut Lines, name: Span, role: Role, given: Option<EntityType>) {
        if let Some(given) = given {
            let word = word_at(self.text, name);
            lines.push(word);
            self.push_type(lines, word, role, given);
            lines.push("\n")
        }
        lines.push(line_at(self.text, name))
    }

    /// Adds what follows the name of an entity of this type: of a formal that is on a handler of its own the tag, and else the type. A
    /// block's name is on a handler of its own, too; the name in the tag of an object test is left out.
    pub fn push_type(&self, lines: &mut Lines, name: &str, role: Role, given: EntityType) {
        let class = self.class_name(given.class);
        let mark = if given.attached { "" } else { "detachable " };
        match (role, given.tag) {
            (_, Tag::Own | Tag::None) => lines.fill(": ~~", &[mark, class]),
            (Role::Block, Tag::With(_)) => {
                lines.fill(": ~separate <~.handler> ~", &[mark, name, class])
            }
            (Role::Formal, Tag::With(_)) => lines.fill_name(" <~.handler>", name),
            _ => lines.fill(": ~separate ~", &[mark, class]),
        }
    }

    /// The name of a class.
    fn class_name(&self, class: ClassId) -> &'t str {
        match class {
            ClassId::Declared(number) => match self.system.classes.get(number) {
                Some(class) => word_at(self.text, class.name.span),
                None => "",
            },
            ClassId::Any => "ANY",
            ClassId::None => "NONE",
            ClassId::Integer => "INTEGER",
            ClassId::Boolean => "BOOLEAN",
        }
    }

    /// Adds what has its name at this place: a class, a feature or an entity.
    fn push_declared(&self, lines: &mut Lines, name: Span) {
        for class in &self.system.classes {
            if class.name.span == name {
                return lines.fill_name("class ~", word_at(self.text, name));
            }
            for feature in &class.features {
                if self.push_of_feature(lines, feature, name) {
                    return;
                }
            }
        }
    }

    /// Adds a feature or an entity of it, if it has its name at this place.
    fn push_of_feature(&self, lines: &mut Lines, feature: &Feature, name: Span) -> bool {
        match &feature.kind {
            FeatureKind::Attribute(declared) if feature.name.span == name => {
                let (start, end) = (name.start, declared.span.end);
                lines.push(word_at(self.text, Span { start, end }));
                true
            }
            FeatureKind::Attribute(_) => false,
            FeatureKind::Routine(routine) if feature.name.span == name => {
                self.push_routine(lines, routine, name);
                true
            }
            FeatureKind::Routine(routine) => {
                self.push_entity(lines, &routine.formals, name)
                    || self.push_entity(lines, &routine.locals, name)
            }
        }
    }

    /// Adds the entity among these that has its name at this place, if there is one.
    fn push_entity(&self, lines: &mut Lines, among: &[Declaration], name: Span) -> bool {
        for declaration in among {
            if declaration.name.span == name {
                let declared = word_at(self.text, declaration.declared_type.span);
                lines.fill("~: ~", &[word_at(self.text, name), declared]);
                return true;
            }
        }
        false
    }

    /// Adds a routine up to its locals or its instructions, and its postcondition.
    fn push_routine(&self, lines: &mut Lines, routine: &Routine, name: Span) {
        let start = name.start;
        let end = self.next(start, &[Terminal::Local, Terminal::Do]);
        lines.push(word_at(self.text, Span { start, end }).trim_end());
        if !routine.postcondition.is_empty() {
            let start = self.next(end, &[Terminal::Ensure]);
            let end = self.next(start, &[Terminal::End]);
            lines.push("\n");
            lines.push(word_at(self.text, Span { start, end }).trim_end());
        }
    }

    /// Where the next one of these words begins, from this offset on; there if none does.
    fn next(&self, from: u32, words: &[Terminal]) -> u32 {
        for token in self.tokens {
            if token.span.start >= from
                && let TokenKind::Terminal(word) = &token.kind
                && words.contains(word)
            {
                return token.span.start;
            }
        }
        from
    }
}

/// The line of a text that a place begins in, without its indentation.
fn line_at(text: &str, place: Span) -> &str {
    let Some((before, behind)) = text.split_at_checked(place.start as usize) else {
        return "";
    };
    let start = match before.rfind('\n') {
        Some(index) => index.saturating_add(1),
        None => 0,
    };
    let length = behind.find('\n').unwrap_or(behind.len());
    let end = before.len().saturating_add(length);
    text.get(start..end).unwrap_or("").trim()
}
