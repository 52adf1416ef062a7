//! Assertions (ECMA-367, 8.9).

ghost use Rattle.std.specs.Prelude.{◌≡◌, ℕ, [], IfOk, length};
ghost use Rattle.sc_parse.specs.Reading.Assertions as spec;
ghost use Rattle.sc_parse.specs.Reading.Reads.{ahead, tag_in, clause_in, clauses_in, Gives};

use crate::cursor::Parser;
use crate::expression::TOP;
use crate::fault::ParseFault;
use crate::list::{fitted, with_last};
use crate::look::begins_with;
use sc_text::{Terminal, Token, TokenKind};
use sc_tree::{Clause, Name};
use std::alloc::AllocError;

impl<'a> Parser<'a> {
    /// Reads a clause's tag, if it has one.
    pub fn tag(&mut self) -> Result<Option<Name>, AllocError>
        ensures { IfOk result (λ tag. (spec.tag_ahead (ahead self.old) ≡ tag_in tag)
            × (ahead self.new ≡ spec.past_tag (tag_in tag) (ahead self.old))) }
    {
        match self.rest.split_first() {
            Some(
                (
                    Token {
                        kind: TokenKind::Name(text),
                        span,
                    },
                    rest,
                ),
            ) if begins_with(rest, Terminal::Colon) => {
                let text = text.clone()?;
                self.take();
                self.take();
                Ok(Some(Name { text, span: *span }))
            }
            _ => Ok(None),
        }
    }

    /// A condition with its tag.
    #[tactic(auto, unfolding(crate::specs::Reading::Assertions::clause, sc_tree::specs::View::clause_of))]
    fn clause(&mut self, room: u8) -> Result<Clause, ParseFault>
        ensures { Gives clause_in (spec.clause room (ahead self.old)) result (ahead self.new) }
    {
        let tag = self.tag()?;
        let (condition, _) = self.expr(TOP, room)?;
        Ok(Clause { tag, condition })
    }

    /// Clauses, each with the semicolons after it. Right after one no other begins with `(`, `+` or `-`.
    pub fn clauses(&mut self, room: u8) -> Result<Vec<Clause>, ParseFault>
        ensures { Gives clauses_in (spec.clauses room (ahead self.old)) result (ahead self.new) }
    {
        self.skip_semicolons();
        let mut found = Vec::new(self.alloc);
        for _turn in 0..self.rest.len() {
            if !self.begins_expression() {
                return Ok(fitted(found));
            }
            let clause = self.clause(room)?;
            found = with_last(found, clause)?;
            if self.goes_on() {
                return Err(ParseFault::NotInGrammar {
                    span: self.next_span(),
                });
            }
            self.skip_semicolons();
        }
        Ok(found)
    }

    /// The clauses after this word, if it is there.
    #[tactic(auto, unfolding(crate::specs::Reading::Assertions::assertion))]
    pub fn assertion(&mut self, word: Terminal, room: u8) -> Result<Vec<Clause>, ParseFault>
        ensures { Gives clauses_in (spec.assertion room word (ahead self.old)) result (ahead self.new) }
    {
        if !self.sees(word) {
            return Ok(Vec::new(self.alloc));
        }
        self.take();
        self.clauses(room)
    }
}
