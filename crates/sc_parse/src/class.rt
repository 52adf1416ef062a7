//! Classes (ECMA-367, 8.4, 8.6, 8.10 and 8.20).

ghost use Rattle.std.specs.Prelude.{◌≡◌, ◌∷◌, [], IfOk, IsTrue};
ghost use Rattle.sc_parse.specs.Reading.Classes as spec;
ghost use Rattle.sc_parse.specs.Reading.Looks.{left, skip};
ghost use Rattle.sc_tree.specs.Sections.{share_lists};
ghost use Rattle.sc_parse.specs.Reading.Reads.{ahead, mark_in, parent_in, parents_in, names_in, header_ahead, members_in, members_ahead, class_in, classes_in, Gives, Takes};

use crate::cursor::Parser;
use crate::fault::ParseFault;
use crate::look::ends_note;
use sc_text::Terminal;
use sc_tree::{Class, ClassMark, Clause, Feature, Name, Parent};

/// The part of a class before its features.
#[derive(Drop)]
struct Header {
    name: Name,
    parents: Vec<Parent>,
    creators: Vec<Name>,
}

impl<'a> Parser<'a> {
    ghost use Rattle.sc_parse.specs.Reading.Header.{header_in};
    ghost use Rattle.sc_parse.specs.Reading.Reads.{ends_note};

    /// Reads a note before a class or, if that is not meant, before its `end`, if there is one.
    fn skip_note(&mut self, is_first: bool)
        ensures { ahead self.new ≡ spec.past_note (ends_note is_first) (ahead self.old) }
    {
        if !self.sees_note() {
            return;
        }
        self.take();
        while let Some(token) = self.rest.first() {
            if ends_note(token, is_first) {
                return;
            }
            self.take();
        }
    }

    /// Reads the word before `class`, if there is one.
    #[tactic(auto, unfolding(crate::specs::Reading::Classes::mark))]
    fn mark(&mut self) -> Option<ClassMark>
        ensures { spec.mark (ahead self.old) ≡ (mark_in result, ahead self.new) }
    {
        if self.sees(Terminal::Deferred) {
            self.take();
            return Some(ClassMark::Deferred(self.last));
        }
        if self.sees(Terminal::Expanded) {
            self.take();
            return Some(ClassMark::Expanded(self.last));
        }
        if self.sees(Terminal::Frozen) {
            self.take();
            return Some(ClassMark::Frozen(self.last));
        }
        None
    }

    /// One parent, with the names that it redefines.
    #[tactic(auto, unfolding(crate::specs::Reading::Classes::parent))]
    fn parent(&mut self) -> Result<Parent, ParseFault>
        ensures { Takes parent_in (spec.parent (ahead self.old)) result (ahead self.new) }
    {
        let name = self.name()?;
        let mut redefined = Vec::new(self.alloc);
        if self.sees(Terminal::Redefine) {
            self.take();
            redefined = self.names()?;
            self.expect(Terminal::End)?;
        }
        Ok(Parent { name, redefined })
    }

    /// The classes after `inherit`, if it is there.
    #[tactic(auto, unfolding(crate::specs::Reading::Classes::parents))]
    fn parents(&mut self) -> Result<Vec<Parent>, ParseFault>
        ensures { Takes parents_in (spec.parents (ahead self.old)) result (ahead self.new) }
    {
        if !self.sees(Terminal::Inherit) {
            return Ok(Vec::new(self.alloc));
        }
        self.take();
        let first = self.parent()?;
        self.more_parents(first)
    }

    /// The first parent and those that follow it, each with or without a semicolon after it.
    fn more_parents(&mut self, first: Parent) -> Result<Vec<Parent>, ParseFault>
        ensures { Takes parents_in (spec.parents_from (left (ahead self.old)) (parent_in first ∷ [])
            (skip Terminal.Semicolon (ahead self.old))) result (ahead self.new) }
    {
        let mut found = Vec::new(self.alloc);
        found.push(first)?;
        let count = self.rest.len();
        self.skip(Terminal::Semicolon);
        for _turn in 0..count {
            if !self.sees_name() {
                return Ok(found);
            }
            let parent = self.parent()?;
            found.push(parent)?;
            self.skip(Terminal::Semicolon);
        }
        Ok(found)
    }

    /// The names after `create`, if it is there.
    #[tactic(auto, unfolding(crate::specs::Reading::Classes::creators))]
    fn creators(&mut self) -> Result<Vec<Name>, ParseFault>
        ensures { Takes names_in (spec.creators (ahead self.old)) result (ahead self.new) }
    {
        if !self.sees(Terminal::Create) {
            return Ok(Vec::new(self.alloc));
        }
        self.take();
        self.names()
    }

    /// A class from the word `class` up to its features.
    fn header(&mut self) -> Result<Header, ParseFault>
        ensures { Takes header_in (header_ahead (ahead self.old)) result (ahead self.new) }
    {
        self.expect(Terminal::Class)?;
        let name = self.name()?;
        let parents = self.parents()?;
        let creators = self.creators()?;
        Ok(Header {
            name,
            parents,
            creators,
        })
    }

    /// The features and the invariant of a class, up to its `end`.
    fn members(&mut self, room: u8) -> Result<(Vec<Feature>, Vec<Clause>), ParseFault>
        ensures read { Gives members_in (members_ahead room (ahead self.old)) result (ahead self.new) }
        ensures shared { IfOk result (λ members. IsTrue (share_lists members.0.items)) }
    {
        let features = self.sections(room)?;
        let invariant = self.assertion(Terminal::Invariant, room)?;
        self.skip_note(false);
        self.expect(Terminal::End)?;
        Ok((features, invariant))
    }

    /// One class, from the note before it to its `end`.
    #[tactic(auto, using(crate::proofs::Parts::class_is), unfolding(crate::specs::Reading::Classes::class))]
    fn class(&mut self, room: u8) -> Result<Class, ParseFault>
        ensures { Gives class_in (spec.class room (ahead self.old)) result (ahead self.new) }
    {
        self.skip_note(true);
        let start = self.next_start();
        let mark = self.mark();
        let header = self.header()?;
        let members = self.members(room)?;
        Ok(Class {
            span: self.span_from(start),
            mark,
            name: header.name,
            parents: header.parents,
            creators: header.creators,
            features: members.0,
            invariant: members.1,
        })
    }

    /// Classes, one after the other, up to the end of the tokens.
    pub fn classes(&mut self, room: u8) -> Result<Vec<Class>, ParseFault>
        ensures { Gives classes_in (spec.classes_from room (left (ahead self.old)) [] 0 (ahead self.old))
            result (ahead self.new) }
    {
        let mut found = Vec::new(self.alloc);
        for _turn in 0..self.rest.len() {
            if self.is_done() {
                return Ok(found);
            }
            let class = self.class(room)?;
            found.push(class)?;
        }
        Ok(found)
    }
}
