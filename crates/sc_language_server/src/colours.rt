//! What each part of a document is, as an editor colours it.

use crate::failure::Failure;
use crate::naming::{NamedText, named_text};
use crate::systems::{Joined, Part};
use crate::tokens::lexed;
use sc_documents::{Document, Position};
use sc_explain_text::{Lines, let_go, system_of};
use sc_rules::Role;
use sc_symbols::Symbol;
use sc_text::{Terminal, Token, TokenKind};
use sc_tree::{FeatureKind, System};
use std::alloc::{AllocError, Global};

/// What a part of a text is, in the order of the kinds that `initialize` lists.
#[derive(Clone, Copy)]
enum Colour {
    Class,
    Property,
    Method,
    Parameter,
    Variable,
    Keyword,
    ManifestString,
    Number,
    Comment,
    Operator,
}

/// Adds what each part of a document is. Of a name that is known only if the names of the system are.
pub fn push_colours(
    alloc: Global,
    lines: &mut Lines,
    joined: &Joined,
    part: &Part,
) -> Result<(), Failure> {
    lines.push(r#"{"data":["#);
    if push_parts(alloc, lines, joined, part).is_err() {
        return Err(Failure::OutOfMemory);
    }
    lines.push("]}");
    Ok(())
}

/// Adds the parts of a document, if it has tokens.
fn push_parts(
    alloc: Global,
    lines: &mut Lines,
    joined: &Joined,
    part: &Part,
) -> Result<(), AllocError> {
    let text = part.document.text();
    let Some(tokens) = lexed(alloc, text)? else {
        return Ok(());
    };
    let colours = colours_of_names(alloc, joined, part)?;
    let mut painter = Painter {
        document: &part.document,
        last: Position {
            line: 0,
            character: 0,
        },
        before: "",
    };
    let mut done = 0;
    for token in &tokens {
        let (start, end) = (token.span.start as usize, token.span.end as usize);
        painter.push_comments(lines, text, done, start);
        let named = match colours.get(start) {
            Some(named) => *named,
            None => None,
        };
        painter.push(lines, colour_of(token, named), start, end);
        done = end;
    }
    painter.push_comments(lines, text, done, text.len());
    Ok(())
}

/// What the names of a document are: for each of its bytes, what the name is that begins there, if one does and it is known.
fn colours_of_names(
    alloc: Global,
    joined: &Joined,
    part: &Part,
) -> Result<Vec<Option<Colour>>, AllocError> {
    let mut colours = vec![in alloc; None; part.document.text().len()]?;
    let Some(named) = named_text(alloc, joined.text.as_str())? else {
        return Ok(colours);
    };
    if let Some(system) = system_of(alloc, named.text.as_str())? {
        colour_names(&mut colours, part.start, &named, &system);
        let_go(system)
    }
    Ok(colours)
}

/// Notes what each name is, in a document that begins at this offset of the text.
fn colour_names(colours: &mut [Option<Colour>], start: usize, named: &NamedText, system: &System) {
    for mention in &named.mentions {
        if let Some(offset) = (mention.span.start as usize).checked_sub(start)
            && let Some(colour) = colours.get_mut(offset)
        {
            *colour = colour_of_symbol(system, mention.symbol);
        }
    }
}

/// What a name is that means this.
fn colour_of_symbol(system: &System, symbol: Symbol) -> Option<Colour> {
    match symbol {
        Symbol::Class(_) => Some(Colour::Class),
        Symbol::Entity(Role::Formal, _) => Some(Colour::Parameter),
        Symbol::Entity(_, _) => Some(Colour::Variable),
        Symbol::Feature(class, number) => colour_of_feature(system, class, number),
    }
}

/// What the name of the feature of this number of a class is.
fn colour_of_feature(system: &System, class: usize, number: usize) -> Option<Colour> {
    if let Some(class) = system.classes.get(class)
        && let Some(feature) = class.features.get(number)
    {
        return match &feature.kind {
            FeatureKind::Attribute(_) => Some(Colour::Property),
            FeatureKind::Routine(_) => Some(Colour::Method),
        };
    }
    None
}

/// What a token is, if its name is known to be this.
fn colour_of(token: &Token, named: Option<Colour>) -> Option<Colour> {
    match &token.kind {
        TokenKind::Name(_) => named,
        TokenKind::Integer(_) => Some(Colour::Number),
        TokenKind::ManifestString(_) => Some(Colour::ManifestString),
        TokenKind::Terminal(terminal) => colour_of_terminal(*terminal),
    }
}

/// What a reserved word or a symbol is.
fn colour_of_terminal(terminal: Terminal) -> Option<Colour> {
    match terminal {
        Terminal::Dot | Terminal::Comma | Terminal::Colon | Terminal::Semicolon => None,
        Terminal::OpenParenthesis | Terminal::CloseParenthesis => None,
        Terminal::OpenBrace | Terminal::CloseBrace => None,
        Terminal::Question | Terminal::Exclamation => None,
        Terminal::Becomes | Terminal::Equal | Terminal::NotEqual => Some(Colour::Operator),
        Terminal::Less | Terminal::LessEqual => Some(Colour::Operator),
        Terminal::Greater | Terminal::GreaterEqual => Some(Colour::Operator),
        Terminal::Plus | Terminal::Minus | Terminal::Times => Some(Colour::Operator),
        Terminal::Quotient | Terminal::Remainder => Some(Colour::Operator),
        _ => Some(Colour::Keyword),
    }
}

/// Writes the parts of a document in their order, each by how far it is from the one before.
#[derive(Clone, Copy)]
struct Painter<'d> {
    document: &'d Document,
    /// Where the last part begins.
    last: Position,
    /// What separates the next part from it.
    before: &'static str,
}

impl<'d> Painter<'d> {
    /// Adds the comments between two offsets, which have no token between them.
    fn push_comments(&mut self, lines: &mut Lines, text: &str, start: usize, end: usize) {
        let mut start = start;
        for line in text.get(start..end).unwrap_or("").split('\n') {
            if let Some(index) = line.find("--") {
                let length = line.trim_end().len();
                let (from, to) = (start.saturating_add(index), start.saturating_add(length));
                self.push(lines, Some(Colour::Comment), from, to);
            }
            start = start.saturating_add(line.len()).saturating_add(1);
        }
    }

    /// Adds the part between two offsets, if it is anything and on one line.
    fn push(&mut self, lines: &mut Lines, colour: Option<Colour>, start: usize, end: usize) {
        let Some(colour) = colour else {
            return;
        };
        let from = self.document.position_of(start);
        let to = self.document.position_of(end);
        if from.line != to.line {
            return;
        }
        let down = from.line.saturating_sub(self.last.line);
        let last = if down == 0 { self.last.character } else { 0 };
        lines.push(self.before);
        lines.push_number(down as u64);
        lines.fill_number(",~", from.character.saturating_sub(last) as u64);
        lines.fill_number(",~", to.character.saturating_sub(from.character) as u64);
        lines.fill_number(",~,0", colour as u64);
        self.last = from;
        self.before = ",";
    }
}
