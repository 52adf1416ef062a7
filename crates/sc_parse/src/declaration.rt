//! Formal arguments, locals and result types (ECMA-367, 8.5 and 8.8).

ghost use Rattle.std.specs.Prelude.{◌≡◌, [], MatchResult, map};
ghost use Rattle.sc_parse.specs.Reading.Looks.{left};
ghost use Rattle.sc_tree.specs.Grammar.Classes as grammar;
ghost use Rattle.sc_parse.specs.Reading.Classes as spec;
ghost use Rattle.sc_parse.specs.Reading.Reads.{ahead, declarations_in, names_in, type_in, type_if_any_in, Takes};
ghost use Rattle.sc_parse.specs.declared.fault.ParseFault.TheVariants.{OutOfMemory};

use crate::cursor::Parser;
use crate::fault::ParseFault;
use crate::list::{fitted, with_all, with_last};
use crate::types::copied_type;
use sc_text::Terminal;
use sc_tree::{Declaration, DeclaredType, Name};
use std::alloc::Global;

/// Each name, declared with the type.
fn declared_with(
    alloc: Global,
    names: Vec<Name>,
    declared: &DeclaredType,
) -> Result<Vec<Declaration>, ParseFault>
    ensures { MatchResult result (λ ds. declarations_in ds
        ≡ map (grammar.declared_as (type_in declared.now)) (names_in names))
        (λ e. e ≡ OutOfMemory) }
{
    let mut declarations = Vec::new(alloc);
    for name in names {
        let declared_type = copied_type(declared)?;
        let declaration = Declaration {
            name,
            declared_type,
        };
        declarations = with_last(declarations, declaration)?;
    }
    Ok(declarations)
}

impl<'a> Parser<'a> {
    /// Names with their type.
    #[tactic(auto, unfolding(crate::specs::Reading::Classes::declaration))]
    fn declaration(&mut self) -> Result<Vec<Declaration>, ParseFault>
        ensures { Takes declarations_in (spec.declaration (ahead self.old)) result (ahead self.new) }
    {
        let names = self.names()?;
        self.expect(Terminal::Colon)?;
        let declared = self.declared_type()?;
        declared_with(self.alloc, names, &declared)
    }

    /// The formals of the first declaration and those of each that follows.
    fn more_declarations(&mut self, first: Vec<Declaration>) -> Result<Vec<Declaration>, ParseFault>
        ensures { Takes declarations_in (spec.more_declarations (left (ahead self.old)) (declarations_in first)
            (ahead self.old)) result (ahead self.new) }
    {
        let mut found = first;
        for _turn in 0..self.rest.len() {
            if !(self.sees(Terminal::Semicolon) || self.sees_name()) {
                return Ok(fitted(found));
            }
            self.skip(Terminal::Semicolon);
            let declarations = self.declaration()?;
            found = with_all(found, declarations)?;
        }
        Ok(found)
    }

    /// The formals in parentheses, if they are there.
    #[tactic(auto, unfolding(crate::specs::Reading::Classes::formals))]
    pub fn formals(&mut self) -> Result<Vec<Declaration>, ParseFault>
        ensures { Takes declarations_in (spec.formals (ahead self.old)) result (ahead self.new) }
    {
        if !self.sees(Terminal::OpenParenthesis) {
            return Ok(Vec::new(self.alloc));
        }
        self.take();
        let first = self.declaration()?;
        let formals = self.more_declarations(first)?;
        self.expect(Terminal::CloseParenthesis)?;
        Ok(formals)
    }

    /// The locals after `local`, if it is there.
    pub fn locals(&mut self) -> Result<Vec<Declaration>, ParseFault>
        ensures { Takes declarations_in (spec.locals (ahead self.old)) result (ahead self.new) }
    {
        let mut found = Vec::new(self.alloc);
        if !self.sees(Terminal::Local) {
            return Ok(found);
        }
        self.take();
        for _turn in 0..self.rest.len() {
            if !self.sees_name() {
                return Ok(fitted(found));
            }
            let declarations = self.declaration()?;
            found = with_all(found, declarations)?;
            self.skip(Terminal::Semicolon);
        }
        Ok(found)
    }

    /// The type after a colon, if it is there.
    #[tactic(auto, unfolding(crate::specs::Reading::Classes::result_type))]
    pub fn result_type(&mut self) -> Result<Option<DeclaredType>, ParseFault>
        ensures { Takes type_if_any_in (spec.result_type (ahead self.old)) result (ahead self.new) }
    {
        if !self.sees(Terminal::Colon) {
            return Ok(None);
        }
        self.take();
        let declared = self.declared_type()?;
        Ok(Some(declared))
    }
}
