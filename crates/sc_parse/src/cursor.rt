//! The tokens that are still to be read, and how they are read one by one.

ghost use Rattle.std.specs.Prelude.{◌≡◌, ◌∷◌, [], Ok, Err, IfOk, MatchOption, MatchResult};
ghost use Rattle.sc_parse.specs.Reading.Looks as spec;

use crate::fault::ParseFault;
use crate::look::{begins_with, is_word};
use sc_text::{Span, Terminal, Token, TokenKind};
use sc_tree::Name;
use std::alloc::Global;
use std::rc::Rc;

/// The tokens that are still to be read, and the place of the one before them.
#[derive(Drop)]
pub struct Parser<'a> {
    pub alloc: Global,
    pub rest: &'a [Token],
    /// The place of the last token that was read, or the end of the tokens if none was left.
    pub last: Span,
}

impl<'a> Parser<'a> {
    ghost use Rattle.sc_parse.specs.Reading.Classes.{opening};
    ghost use Rattle.sc_parse.specs.Reading.Reads.{ahead, name_in, named_ahead, text_in, Fails, Takes};

    /// The parser of these tokens.
    pub fn new(alloc: Global, tokens: &'a [Token]) -> Parser<'a>
        ensures { ahead result ≡ opening tokens.now }
    {
        Parser {
            alloc,
            rest: tokens,
            last: Span { start: 0, end: 0 },
        }
    }

    /// Where the next token begins, or the last ends where none is left.
    pub fn next_start(&self) -> u32
        ensures { result ≡ spec.begin (ahead self.now) }
    {
        match self.rest.first() {
            Some(token) => token.span.start,
            None => self.last.end,
        }
    }

    /// The place of the next token, or an empty span at the end of the last if none is left.
    pub fn next_span(&self) -> Span
        ensures { result ≡ (spec.past (ahead self.now)).last }
    {
        match self.rest.first() {
            Some(token) => token.span,
            None => self.span_from(self.last.end),
        }
    }

    /// From where something began to the end of the last token.
    pub fn span_from(&self, start: u32) -> Span
        ensures { result ≡ spec.up_to start (ahead self.now) }
    {
        Span {
            start,
            end: self.last.end,
        }
    }

    /// Reads a token, if one is left.
    pub fn take(&mut self) -> Option<&'a Token>
        ensures found { MatchOption result ((self.old.rest.now ≡ []) × (self.new.rest.now ≡ []))
            (λ t. (self.old.rest.now ≡ t.now ∷ self.new.rest.now) × (self.new.last ≡ t.now.span)) }
        ensures past { ahead self.new ≡ spec.past (ahead self.old) }
    {
        match self.rest.split_first() {
            Some((first, rest)) => {
                self.rest = rest;
                self.last = first.span;
                Some(first)
            }
            None => {
                self.last = self.span_from(self.last.end);
                None
            }
        }
    }

    /// Whether the next token is this terminal.
    pub fn sees(&self, terminal: Terminal) -> bool
        ensures { result ≡ spec.sees terminal (ahead self.now) }
    {
        begins_with(self.rest, terminal)
    }

    /// Reads this terminal.
    #[tactic(auto, unfolding(crate::specs::Reading::Looks::expect))]
    pub fn expect(&mut self, terminal: Terminal) -> Result<(), ParseFault>
        ensures { MatchResult result (λ _. spec.expect terminal (ahead self.old) ≡ Ok (ahead self.new))
            (Fails (spec.expect terminal (ahead self.old))) }
    {
        if self.sees(terminal) {
            self.take();
            Ok(())
        } else {
            Err(ParseFault::NotInGrammar {
                span: self.next_span(),
            })
        }
    }

    /// A part that was read, if this terminal follows it, which is read too.
    pub fn closed_by<T: Drop>(&mut self, part: T, terminal: Terminal) -> Result<T, ParseFault>
        ensures same { IfOk result (λ same. same ≡ part) }
        ensures read { MatchResult result (λ _. spec.expect terminal (ahead self.old) ≡ Ok (ahead self.new))
            (Fails (spec.expect terminal (ahead self.old))) }
    {
        self.expect(terminal)?;
        Ok(part)
    }

    /// Reads the name that is spelled so.
    #[tactic(auto, unfolding(crate::specs::Reading::Looks::expect_word))]
    pub fn expect_word(&mut self, word: &str) -> Result<(), ParseFault>
        ensures { MatchResult result (λ _. spec.expect_word word.now (ahead self.old) ≡ Ok (ahead self.new))
            (Fails (spec.expect_word word.now (ahead self.old))) }
    {
        if is_word(self.rest, word) {
            self.take();
            Ok(())
        } else {
            Err(ParseFault::NotInGrammar {
                span: self.next_span(),
            })
        }
    }

    /// Reads this terminal, if it is the next token.
    pub fn skip(&mut self, terminal: Terminal)
        ensures { ahead self.new ≡ spec.skip terminal (ahead self.old) }
    {
        if self.sees(terminal) {
            self.take();
        }
    }

    /// Reads the semicolons ahead.
    #[tactic(auto, unfolding(sc_tree::specs::Internal::Reading::Looks::same_terminal))]
    pub fn skip_semicolons(&mut self)
        ensures { ahead self.new ≡ spec.skip_semicolons (ahead self.old) }
    {
        while self.sees(Terminal::Semicolon) {
            self.take();
        }
    }

    /// Reads a name.
    pub fn name(&mut self) -> Result<Name, ParseFault>
        ensures { Takes name_in (spec.name (ahead self.old)) result (ahead self.new) }
    {
        match self.take() {
            Some(
                Token {
                    kind: TokenKind::Name(text),
                    span,
                },
            ) => {
                let text = text.clone()?;
                Ok(Name { text, span: *span })
            }
            _ => Err(ParseFault::NotInGrammar { span: self.last }),
        }
    }

    /// Reads `as` and a name.
    pub fn named(&mut self) -> Result<Name, ParseFault>
        ensures { Takes name_in (named_ahead (ahead self.old)) result (ahead self.new) }
    {
        self.expect(Terminal::As)?;
        self.name()
    }

    /// A part that was read, with the name that it has after `as`.
    pub fn named_part<T: Drop>(&mut self, part: T) -> Result<(T, Name), ParseFault>
        ensures same { IfOk result (λ named. named.0 ≡ part) }
        ensures read { MatchResult result (λ named. named_ahead (ahead self.old) ≡ Ok (name_in named.1, ahead self.new))
            (Fails (named_ahead (ahead self.old))) }
    {
        let name = self.named()?;
        Ok((part, name))
    }

    /// Reads a manifest string.
    pub fn text(&mut self) -> Result<Rc<String>, ParseFault>
        ensures { Takes text_in (spec.text (ahead self.old)) result (ahead self.new) }
    {
        match self.take() {
            Some(
                Token {
                    kind: TokenKind::ManifestString(text),
                    ..
                },
            ) => {
                let text = text.clone()?;
                Ok(text)
            }
            _ => Err(ParseFault::NotInGrammar { span: self.last }),
        }
    }
}
