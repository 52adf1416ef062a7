//! Which construct is still open at a place, how far a text is settled, and which instructions before the place are whole.

use crate::lines::Lines;
use crate::margin::Margin;
use crate::reading::word_at;
use crate::related::Related;
use sc_text::{Span, Terminal, Token, TokenKind};
use std::alloc::Global;

/// What tokens have opened and ended.
#[derive(Drop)]
pub struct Layout {
    /// The innermost construct that is open.
    innermost: Option<Opening>,
    /// Those around it, the outermost first.
    outer: Vec<Opening>,
    /// The first construct that was ended by an `end` further left than its own would be.
    early: Option<Span>,
    /// The first `if` after an `else` in the same line, since the end of the last routine.
    else_if: Option<Span>,
    /// How many tokens there are up to the end of the last class, or of the last routine in it.
    pub settled: usize,
    /// Whether that is a routine's end.
    pub is_in_class: bool,
    /// The whole instructions after that, in their order: after each of these another one follows or may begin.
    pub whole: Vec<Part>,
    /// Whether memory was refused to some of it.
    is_lacking: bool,
}

/// Tokens in a row: the number of the first, and of the one after the last.
#[derive(Clone, Copy)]
pub struct Part {
    pub start: usize,
    pub end: usize,
}

/// The word that a construct began with.
#[derive(Clone, Copy)]
struct Opening {
    span: Span,
    /// The whole ones of the instructions that it is in, if it is in some.
    whole: Option<Part>,
    /// Whether it is a separate block whose `do` is still to come.
    waits_for_do: bool,
    /// The least column, from 0, at which its `end` is expected, if that is the first word of its line.
    least: usize,
}

/// What a token does to the constructs that are open.
enum Step {
    Opens(bool),
    Does,
    Ends,
    GoesOn,
}

/// The innermost construct that has begun in these tokens of a text and hasn't ended there, or one whose `end` was taken
/// for another's, where the layout shows it. The lines lack something where memory runs out.
pub fn open_construct(lines: &mut Lines, text: &str, tokens: &[Token]) -> Option<Related> {
    Layout::of(lines, text, tokens).still_open()
}

impl Layout {
    /// That of these tokens of a text. The lines lack something where memory runs out.
    pub fn of(lines: &mut Lines, text: &str, tokens: &[Token]) -> Self {
        let mut layout = Self::new(lines.alloc());
        layout.take_all(text, tokens);
        if layout.is_lacking {
            lines.lack();
        }
        layout
    }

    /// Takes these tokens of a text.
    fn take_all(&mut self, text: &str, tokens: &[Token]) {
        let mut margin = Margin::new();
        let mut last = None;
        let mut is_value = false;
        for (number, token) in tokens.iter().enumerate() {
            margin.go_on(text, token.span.start as usize);
            if is_value && begins_behind_value(token) {
                self.reach(number);
            }
            let terminal = terminal_of(token);
            if let Some(terminal) = terminal {
                let step = step_of(terminal, last, self.innermost);
                self.note_else_if(terminal, last, margin, token.span);
                self.take(step, text, margin, number, token.span);
                self.turn(terminal, last, number);
            }
            last = terminal;
            is_value = ends_value(token);
        }
        self.close()
    }

    /// That of no token.
    fn new(alloc: Global) -> Self {
        Layout {
            innermost: None,
            outer: Vec::new(alloc),
            early: None,
            else_if: None,
            settled: 0,
            is_in_class: false,
            whole: Vec::new(alloc),
            is_lacking: false,
        }
    }

    /// Notes an `if` after an `else`, if it is the first in one line with that.
    fn note_else_if(
        &mut self,
        terminal: Terminal,
        last: Option<Terminal>,
        margin: Margin,
        span: Span,
    ) {
        if let (Terminal::If, Some(Terminal::Else), None) = (terminal, last, self.else_if)
            && !margin.is_blank
        {
            self.else_if = Some(span);
        }
    }

    /// The construct that hasn't ended.
    fn still_open(&self) -> Option<Related> {
        if let Some(span) = self.else_if
            && (self.early.is_some() || self.depth() == 1)
        {
            return Some(Related {
                what: "`else if` begins an `if` that needs an `end` of its own; `elseif` needs none",
                span,
            });
        }
        match (self.innermost, self.early) {
            (None, _) => None,
            (Some(_), Some(span)) => Some(Related {
                what: "what begins here has no `end` of its own, as the lines stand",
                span,
            }),
            (Some(opening), None) => Some(Related {
                what: "what begins here hasn't ended",
                span: opening.span,
            }),
        }
    }

    /// The instructions of the innermost construct are whole up to the token of this number, if it is in some.
    fn reach(&mut self, number: usize) {
        if let Some(opening) = self.innermost
            && let Some(Part { start, .. }) = opening.whole
        {
            self.set_whole(Some(Part { start, end: number }))
        }
    }

    /// Takes a word between the parts of a construct, or one that begins or ends an instruction: the token of this
    /// number, after this one.
    fn turn(&mut self, terminal: Terminal, last: Option<Terminal>, number: usize) {
        let behind = number.saturating_add(1);
        match (terminal, last) {
            (Terminal::Then, Some(Terminal::And)) | (Terminal::Else, Some(Terminal::Or)) => {}
            (Terminal::Do | Terminal::From | Terminal::Loop | Terminal::Then, _) => {
                self.begin(behind)
            }
            (Terminal::Else, _) => {
                self.close();
                self.begin(behind)
            }
            (Terminal::Elseif | Terminal::Until | Terminal::Ensure, _) => self.close(),
            (Terminal::Create, _) => self.reach(number),
            (Terminal::Semicolon, _) => self.reach(behind),
            _ => {}
        }
    }

    /// The instructions of the innermost construct begin with the token of this number.
    fn begin(&mut self, number: usize) {
        self.set_whole(Some(Part {
            start: number,
            end: number,
        }))
    }

    /// The innermost construct is in no instructions from here on.
    fn close(&mut self) {
        self.note_whole();
        self.set_whole(None)
    }

    /// These are the whole ones of the instructions that the innermost construct is in.
    fn set_whole(&mut self, whole: Option<Part>) {
        if let Some(opening) = &mut self.innermost {
            opening.whole = whole;
        }
    }

    /// Notes the whole ones of the instructions that the innermost construct is in. Those of constructs that have ended in
    /// them are among them.
    fn note_whole(&mut self) {
        if let Some(opening) = self.innermost
            && let Some(part) = opening.whole
        {
            self.forget_from(part.start);
            if part.start < part.end && self.whole.push(part).is_err() {
                self.is_lacking = true;
            }
        }
    }

    /// Forgets the instructions from the token of this number on.
    fn forget_from(&mut self, start: usize) {
        let mut kept = 0_usize;
        for part in self.whole.iter() {
            if part.start < start {
                kept = kept.saturating_add(1);
            }
        }
        self.whole.truncate(kept)
    }

    /// Takes the token of this number, at this place.
    fn take(&mut self, step: Step, text: &str, margin: Margin, number: usize, span: Span) {
        match step {
            Step::Opens(waits_for_do) => {
                self.reach(number);
                self.note_whole();
                self.open(margin, span, waits_for_do)
            }
            Step::Does => {
                if let Some(opening) = &mut self.innermost {
                    opening.waits_for_do = false;
                }
            }
            Step::Ends => self.end(text, margin, number),
            Step::GoesOn => {}
        }
    }

    /// Begins a construct.
    fn open(&mut self, margin: Margin, span: Span, waits_for_do: bool) {
        let least = if self.depth() == 1 {
            margin.indent.min(1)
        } else {
            margin.indent
        };
        if let Some(around) = self.innermost
            && self.outer.push(around).is_err()
        {
            self.is_lacking = true;
        }
        self.innermost = Some(Opening {
            span,
            whole: None,
            waits_for_do,
            least,
        })
    }

    /// How many constructs are open.
    fn depth(&self) -> usize {
        match self.innermost {
            None => 0,
            Some(_) => self.outer.len().saturating_add(1),
        }
    }

    /// Ends the innermost construct by an `end`, the token of this number.
    fn end(&mut self, text: &str, margin: Margin, number: usize) {
        let Some(opening) = self.innermost else {
            return;
        };
        self.innermost = self.outer.pop();
        let behind = number.saturating_add(1);
        self.reach(behind);
        let is_early = margin.is_blank && margin.indent < opening.least;
        if is_early && self.early.is_none() {
            self.early = Some(opening.span);
        }
        let depth = self.depth();
        if depth == 0 || depth == 1 && !is_early && is_routine(text, opening.span) {
            self.settle(behind, depth == 1);
        }
    }

    fn settle(&mut self, settled: usize, is_in_class: bool) {
        self.settled = settled;
        self.is_in_class = is_in_class;
        self.early = None;
        self.else_if = None;
        self.forget_from(0);
    }
}

/// Whether what began there is a routine's body.
fn is_routine(text: &str, span: Span) -> bool {
    word_at(text, span).eq_ignore_ascii_case("do")
}

fn terminal_of(token: &Token) -> Option<Terminal> {
    match &token.kind {
        TokenKind::Terminal(terminal) => Some(*terminal),
        _ => None,
    }
}

/// Whether a value may end with this token.
fn ends_value(token: &Token) -> bool {
    match &token.kind {
        TokenKind::Name(_) | TokenKind::Integer(_) | TokenKind::ManifestString(_) => true,
        TokenKind::Terminal(
            Terminal::CloseParenthesis
            | Terminal::Current
            | Terminal::Result
            | Terminal::True
            | Terminal::False
            | Terminal::Void,
        ) => true,
        TokenKind::Terminal(_) => false,
    }
}

/// Whether an instruction begins with this token where a value ends before it.
fn begins_behind_value(token: &Token) -> bool {
    match &token.kind {
        TokenKind::Name(_) | TokenKind::Terminal(Terminal::Current | Terminal::Result) => true,
        _ => false,
    }
}

fn step_of(terminal: Terminal, last: Option<Terminal>, open: Option<Opening>) -> Step {
    match terminal {
        Terminal::Class | Terminal::If | Terminal::From | Terminal::Check => Step::Opens(false),
        Terminal::Redefine => Step::Opens(false),
        Terminal::Separate => match last {
            Some(last) if is_before_type(last) => Step::GoesOn,
            _ => Step::Opens(true),
        },
        Terminal::Do => match open {
            Some(opening) if opening.waits_for_do => Step::Does,
            _ => Step::Opens(false),
        },
        Terminal::End => Step::Ends,
        _ => Step::GoesOn,
    }
}

/// Whether a `separate` after this token belongs to a type and begins no block.
fn is_before_type(last: Terminal) -> bool {
    match last {
        Terminal::Colon | Terminal::OpenBrace | Terminal::Question => true,
        Terminal::Exclamation | Terminal::Attached | Terminal::Detachable => true,
        _ => false,
    }
}
