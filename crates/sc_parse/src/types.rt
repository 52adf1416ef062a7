//! Names, and the types that entities are declared with (ECMA-367, 8.8 and 8.11).

ghost use Rattle.std.specs.Prelude.{◌≡◌, ◌∷◌, [], IfOk};
ghost use Rattle.sc_parse.specs.Reading.Looks.{left};
ghost use Rattle.sc_parse.specs.Reading.Types as spec;
ghost use Rattle.sc_parse.specs.Reading.Reads.{ahead, name_in, names_in, handler_tag_in, type_in, type_if_any_in, Takes};

use crate::cursor::Parser;
use crate::fault::ParseFault;
use crate::list::{alone, with_last};
use sc_text::Terminal;
use sc_tree::{DeclaredType, HandlerTag, Name};
use std::alloc::AllocError;
use std::rc::Rc;

/// A copy of the tag, which shares its name.
fn copied_tag(tag: &HandlerTag) -> Result<HandlerTag, AllocError>
    ensures { IfOk result (λ copy. handler_tag_in copy ≡ handler_tag_in tag.now) }
{
    match tag {
        HandlerTag::Own => Ok(HandlerTag::Own),
        HandlerTag::Separate => Ok(HandlerTag::Separate),
        HandlerTag::HandlerOf(name) => {
            let name = name.clone()?;
            Ok(HandlerTag::HandlerOf(name))
        }
    }
}

/// A copy of the type, its place included. It shares its names, so that a long type takes no more memory.
pub fn copied_type(declared: &DeclaredType) -> Result<DeclaredType, AllocError>
    ensures { IfOk result (λ copy. type_in copy ≡ type_in declared.now) }
{
    let tag = copied_tag(&declared.tag)?;
    let class = declared.class.clone()?;
    Ok(DeclaredType {
        span: declared.span,
        is_detachable: declared.is_detachable,
        tag,
        class,
    })
}

impl<'a> Parser<'a> {
    /// Names with a comma between each two.
    #[tactic(auto, unfolding(crate::specs::Reading::Types::names))]
    pub fn names(&mut self) -> Result<Vec<Name>, ParseFault>
        ensures { Takes names_in (spec.names (ahead self.old)) result (ahead self.new) }
    {
        let first = self.name()?;
        self.more_names(first)
    }

    /// The first name and those that follow it, with a comma before each.
    pub fn more_names(&mut self, first: Name) -> Result<Vec<Name>, ParseFault>
        ensures { Takes names_in (spec.more_names (left (ahead self.old)) (name_in first ∷ []) (ahead self.old))
            result (ahead self.new) }
    {
        let mut names = alone(self.alloc, first)?;
        for _turn in 0..self.rest.len() {
            if !self.sees(Terminal::Comma) {
                return Ok(names);
            }
            self.take();
            let name = self.name()?;
            names = with_last(names, name)?;
        }
        Ok(names)
    }

    /// Reads a type's mark, if it has one: whether the type is detachable.
    #[tactic(auto, unfolding(crate::specs::Reading::Types::attachment))]
    fn attachment(&mut self) -> bool
        ensures { spec.attachment (ahead self.old) ≡ (result, ahead self.new) }
    {
        if self.sees(Terminal::Detachable) || self.sees(Terminal::Question) {
            self.take();
            return true;
        }
        if self.sees(Terminal::Attached) || self.sees(Terminal::Exclamation) {
            self.take();
        }
        false
    }

    /// What a type says of handlers, from `separate` on.
    #[tactic(auto, unfolding(crate::specs::Reading::Types::handler_tag))]
    fn handler_tag(&mut self) -> Result<HandlerTag, ParseFault>
        ensures { Takes handler_tag_in (spec.handler_tag (ahead self.old)) result (ahead self.new) }
    {
        if !self.sees(Terminal::Separate) {
            return Ok(HandlerTag::Own);
        }
        self.take();
        self.handler_of()
    }

    /// What follows `separate`: a handler, if one is named.
    #[tactic(auto, unfolding(crate::specs::Reading::Types::handler_of))]
    fn handler_of(&mut self) -> Result<HandlerTag, ParseFault>
        ensures { Takes handler_tag_in (spec.handler_of (ahead self.old)) result (ahead self.new) }
    {
        if !self.sees(Terminal::Less) {
            return Ok(HandlerTag::Separate);
        }
        self.take();
        let name = self.name()?;
        self.expect(Terminal::Dot)?;
        self.expect_word("handler")?;
        self.expect(Terminal::Greater)?;
        let name = Rc::new(self.alloc, name)?;
        Ok(HandlerTag::HandlerOf(name))
    }

    /// A type, from its mark to its class.
    #[tactic(auto, unfolding(crate::specs::Reading::Types::declared_type))]
    pub fn declared_type(&mut self) -> Result<DeclaredType, ParseFault>
        ensures { Takes type_in (spec.declared_type (ahead self.old)) result (ahead self.new) }
    {
        let start = self.next_start();
        let is_detachable = self.attachment();
        let tag = self.handler_tag()?;
        let class = self.name()?;
        let class = Rc::new(self.alloc, class)?;
        Ok(DeclaredType {
            span: self.span_from(start),
            is_detachable,
            tag,
            class,
        })
    }

    /// The type in braces that an object test asks for, if it is there.
    #[tactic(auto, unfolding(crate::specs::Reading::Types::tested_type))]
    pub fn tested_type(&mut self) -> Result<Option<DeclaredType>, ParseFault>
        ensures { Takes type_if_any_in (spec.tested_type (ahead self.old)) result (ahead self.new) }
    {
        if !self.sees(Terminal::OpenBrace) {
            return Ok(None);
        }
        self.take();
        let declared = self.declared_type()?;
        self.expect(Terminal::CloseBrace)?;
        Ok(Some(declared))
    }
}
