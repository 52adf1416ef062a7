//! Features, and whom they are exported to (ECMA-367, 8.5, 8.7 and 8.8).

ghost use Rattle.std.specs.Prelude.{◌≡◌, ◌∷◌, ℕ, [], IfOk, IsTrue, MatchResult, map};
ghost use Rattle.sc_parse.specs.Reading.Looks.{left};
ghost use Rattle.sc_tree.specs.Grammar.Classes as grammar;
ghost use Rattle.sc_parse.specs.Reading.Classes as spec;
ghost use Rattle.sc_tree.specs.Sections.{share_lists};
ghost use Rattle.sc_tree.specs.View.{feature_of};
ghost use Rattle.sc_parse.specs.Reading.Reads.{ahead, opening_in, opening_ahead, closing_in, closing_ahead, feature_with, declarations_in, features_in, name_in, names_in, type_in, type_if_any_in, Gives, Takes};
ghost use Rattle.sc_parse.specs.Reading.Sections.{AddsExported, begun_at};
ghost use Rattle.sc_parse.specs.declared.fault.ParseFault.TheVariants.{OutOfMemory};

use crate::cursor::Parser;
use crate::fault::ParseFault;
use crate::list::{alone, with_last};
use crate::types::copied_type;
use sc_text::Terminal;
use sc_tree::{Clause, Declaration, DeclaredType, Feature, FeatureKind, Instr, Name, Routine};
use std::alloc::{AllocError, Global};
use std::rc::Rc;

/// The classes that may use a feature with this export list; `ANY` alone means no list.
fn exported_to(alloc: Global, names: Vec<Name>) -> Vec<Name>
    ensures { names_in result ≡ grammar.exported_to (names_in names) }
{
    match names.as_slice() {
        [name] if name.as_str() == "any" => Vec::new(alloc),
        _ => names,
    }
}

/// The feature that shares the list of the classes that it is exported to.
fn exported(exports: &Rc<Vec<Name>>, name: Name, kind: FeatureKind) -> Result<Feature, AllocError>
    ensures { IfOk result (λ feature. feature_of feature ≡ feature_with (names_in exports.now.value) (name_in name) kind) }
{
    let exports = exports.clone()?;
    Ok(Feature {
        exports,
        is_further: true,
        name,
        kind,
    })
}

/// Each name as an attribute of the type.
fn attributes_of(
    alloc: Global,
    exports: &Rc<Vec<Name>>,
    names: Vec<Name>,
    declared: &DeclaredType,
) -> Result<Vec<Feature>, ParseFault>
    ensures { MatchResult result (λ features. features_in features
        ≡ map (grammar.attribute_of (names_in exports.now.value) (type_in declared.now)) (names_in names))
        (λ e. e ≡ OutOfMemory) }
{
    let mut features = Vec::new(alloc);
    for name in names {
        let kind = FeatureKind::Attribute(copied_type(declared)?);
        let feature = exported(exports, name, kind)?;
        features = with_last(features, feature)?;
    }
    Ok(features)
}

/// One feature, exported to the classes.
fn one_feature(
    alloc: Global,
    exports: &Rc<Vec<Name>>,
    name: Name,
    kind: FeatureKind,
) -> Result<Vec<Feature>, ParseFault>
    ensures { MatchResult result (λ features. features_in features
        ≡ feature_with (names_in exports.now.value) (name_in name) kind ∷ [])
        (λ e. e ≡ OutOfMemory) }
{
    let feature = exported(exports, name, kind)?;
    let features = alone(alloc, feature)?;
    Ok(features)
}

/// Marks the feature of this number, if there is one, as the first under its `feature`.
fn begin_section(features: &mut Vec<Feature>, number: usize)
    ensures { features.new.items ≡ begun_at number features.old.items }
{
    if number < features.len() {
        features[number].is_further = false;
    }
}

impl<'a> Parser<'a> {
    /// The classes in braces that features are exported to, if they are there.
    #[tactic(auto, unfolding(crate::specs::Reading::Classes::exports))]
    fn exports(&mut self) -> Result<Vec<Name>, ParseFault>
        ensures { Takes names_in (spec.exports (ahead self.old)) result (ahead self.new) }
    {
        if !self.sees(Terminal::OpenBrace) {
            return Ok(Vec::new(self.alloc));
        }
        self.take();
        self.export_list()
    }

    /// The rest of an export list after its opening brace. An empty one means `{NONE}`.
    #[tactic(auto, unfolding(crate::specs::Reading::Classes::export_list))]
    fn export_list(&mut self) -> Result<Vec<Name>, ParseFault>
        ensures { Takes names_in (spec.export_list (ahead self.old)) result (ahead self.new) }
    {
        let start = self.last.start;
        if self.sees(Terminal::CloseBrace) {
            self.take();
            let text = Rc::new(self.alloc, String::from_str(self.alloc, "none")?)?;
            let span = self.span_from(start);
            let mut names = Vec::new(self.alloc);
            names.push(Name { text, span })?;
            return Ok(names);
        }
        let names = self.names()?;
        self.expect(Terminal::CloseBrace)?;
        Ok(exported_to(self.alloc, names))
    }

    /// The part of a routine before its body: its precondition and its locals.
    fn opening(&mut self, room: u8) -> Result<(Vec<Clause>, Vec<Declaration>), ParseFault>
        ensures { Gives opening_in (opening_ahead room (ahead self.old)) result (ahead self.new) }
    {
        self.skip(Terminal::Is);
        let precondition = self.assertion(Terminal::Require, room)?;
        let locals = self.locals()?;
        self.closed_by((precondition, locals), Terminal::Do)
    }

    /// A routine's body and its postcondition, up to its `end`.
    fn closing(&mut self, room: u8) -> Result<(Vec<Instr>, Vec<Clause>), ParseFault>
        ensures { Gives closing_in (closing_ahead room (ahead self.old)) result (ahead self.new) }
    {
        let body = self.instructions(room)?;
        let postcondition = self.assertion(Terminal::Ensure, room)?;
        self.closed_by((body, postcondition), Terminal::End)
    }

    /// What follows the formals and the result type of a routine.
    fn routine(
        &mut self,
        exports: &Rc<Vec<Name>>,
        name: Name,
        formals: Vec<Declaration>,
        result_type: Option<DeclaredType>,
        room: u8,
    ) -> Result<Vec<Feature>, ParseFault>
        ensures { Gives features_in (spec.routine room (names_in exports.now.value) (name_in name)
            (declarations_in formals) (type_if_any_in result_type) (ahead self.old)) result (ahead self.new) }
    {
        let opening = self.opening(room)?;
        let closing = self.closing(room)?;
        let routine = Routine {
            formals,
            result_type,
            precondition: opening.0,
            locals: opening.1,
            body: closing.0,
            postcondition: closing.1,
        };
        one_feature(self.alloc, exports, name, FeatureKind::Routine(routine))
    }

    /// What follows the name, the formals and the result type of a feature.
    fn attribute_or_routine(
        &mut self,
        exports: &Rc<Vec<Name>>,
        name: Name,
        formals: Vec<Declaration>,
        result_type: Option<DeclaredType>,
        room: u8,
    ) -> Result<Vec<Feature>, ParseFault>
        ensures { Gives features_in (spec.attribute_or_routine room (names_in exports.now.value) (name_in name)
            (declarations_in formals) (type_if_any_in result_type) (ahead self.old)) result (ahead self.new) }
    {
        let Some(declared) = result_type else {
            return self.routine(exports, name, formals, None, room);
        };
        if !formals.is_empty() {
            return self.routine(exports, name, formals, Some(declared), room);
        }
        if self.begins_routine() {
            return self.routine(exports, name, formals, Some(declared), room);
        }
        one_feature(self.alloc, exports, name, FeatureKind::Attribute(declared))
    }

    /// What follows the first name of attributes.
    #[tactic(auto, unfolding(crate::specs::Reading::Classes::attributes))]
    fn attributes(
        &mut self,
        exports: &Rc<Vec<Name>>,
        first: Name,
        room: u8,
    ) -> Result<Vec<Feature>, ParseFault>
        ensures { Gives features_in (spec.attributes room (names_in exports.now.value) (name_in first)
            (ahead self.old)) result (ahead self.new) }
    {
        let names = self.more_names(first)?;
        self.expect(Terminal::Colon)?;
        let declared = self.declared_type()?;
        attributes_of(self.alloc, exports, names, &declared)
    }

    /// A routine, or attributes of one type.
    #[tactic(auto, unfolding(crate::specs::Reading::Classes::feature))]
    fn feature(&mut self, exports: &Rc<Vec<Name>>, room: u8) -> Result<Vec<Feature>, ParseFault>
        ensures { Gives features_in (spec.feature room (names_in exports.now.value) (ahead self.old))
            result (ahead self.new) }
    {
        let name = self.name()?;
        if self.sees(Terminal::Comma) {
            return self.attributes(exports, name, room);
        }
        let formals = self.formals()?;
        let result_type = self.result_type()?;
        self.attribute_or_routine(exports, name, formals, result_type, room)
    }

    /// The features under one `feature`, after those that were found.
    fn section(
        &mut self,
        exports: &Rc<Vec<Name>>,
        earlier: Vec<Feature>,
        room: u8,
    ) -> Result<Vec<Feature>, ParseFault>
        ensures read { (high : ℕ) → Gives features_in
            (spec.features_from room (names_in exports.now.value) (left (ahead self.old)) (features_in earlier) high
            (ahead self.old))
            result (ahead self.new) }
        ensures added { IfOk result (λ found. AddsExported (names_in exports.now.value) earlier.items found.items) }
    {
        let mut found = earlier;
        for _turn in 0..self.rest.len() {
            if !self.sees_name() {
                return Ok(found);
            }
            let mut features = self.feature(exports, room)?;
            found.append(&mut features)?;
            self.skip_semicolons();
        }
        Ok(found)
    }

    /// The features under each `feature`.
    pub fn sections(&mut self, room: u8) -> Result<Vec<Feature>, ParseFault>
        ensures read { Gives features_in (spec.sections room (ahead self.old)) result (ahead self.new) }
        ensures shared { IfOk result (λ found. IsTrue (share_lists found.items)) }
    {
        let mut found = Vec::new(self.alloc);
        for _turn in 0..self.rest.len() {
            if !self.sees(Terminal::Feature) {
                return Ok(found);
            }
            self.take();
            let exports = self.exports()?;
            let shared = Rc::new(self.alloc, exports)?;
            let number = found.len();
            found = self.section(&shared, found, room)?;
            begin_section(&mut found, number);
        }
        Ok(found)
    }
}
