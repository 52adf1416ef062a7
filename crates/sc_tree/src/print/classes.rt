//! Features and classes in canonical text.

ghost use Rattle.std.specs.Prelude.{◌≡◌, ◌∷◌, [], map, IsTrue, OnOk};
ghost use Rattle.sc_tree.specs.Canonical.Layout.{line};
ghost use Rattle.sc_tree.specs.Canonical.Classes.{attribute_line, class_lines, classes_lines, creators_lines, declaration_parts, exports_parts, feature_lines, formals_parts, further_feature_lines, heading_line, locals_lines, mark_parts, parent_line, parents_lines, redefined_parts, result_type_parts, routine_lines, same_names, section_line, sections_lines, signature_line};
ghost use Rattle.sc_tree.specs.Canonical.Expressions.{class_names_parts, names_parts};
ghost use Rattle.sc_tree.specs.Internal.Printer.{PutsLine, PutsLines, PutsParts};
ghost use Rattle.sc_tree.specs.Sections.{share_lists, shares_list};
ghost use Rattle.sc_tree.specs.View.{class_of, declaration_of, feature_of, mark_if_any, name_of, parent_of, routine_of, type_if_any, type_of};

use crate::declaration::{Declaration, DeclaredType};
use crate::expression::Name;
use crate::print::Printer;
use crate::system::{Class, ClassMark, Feature, FeatureKind, Parent, Routine};
use sc_text::Terminal;
use std::alloc::AllocError;

/// Whether two lists have equal names.
fn same_names(names: &[Name], others: &[Name]) -> bool
    ensures { result ≡ same_names (map name_of names.now) (map name_of others.now) }
{
    if names.len() != others.len() {
        return false;
    }
    for (name, other) in names.iter().zip(others) {
        if name.text.as_str() != other.text.as_str() {
            return false;
        }
    }
    true
}

/// Whether a feature has this export list, which is that of the one before it.
fn has_exports(exports: &[Name], feature: &Feature) -> bool
    requires { IsTrue (shares_list exports.now feature.now) }
    ensures { result ≡ same_names (map name_of exports.now) (map name_of feature.now.exports.value.items) }
{
    feature.is_further || same_names(exports, &feature.exports)
}

impl Printer {
    /// Names with commas between them.
    #[tactic(auto, using(crate::proofs::PrintingLines::putting))]
    fn names(&mut self, names: &[Name]) -> Result<(), AllocError>
        ensures { OnOk result (PutsParts self.old self.new (names_parts (map name_of names.now))) }
    {
        let [first, rest @ ..] = names else {
            return Ok(());
        };
        self.name(first)?;
        for name in rest {
            self.word(Terminal::Comma)?;
            self.name(name)?;
        }
        Ok(())
    }

    /// Names of classes with commas between them.
    #[tactic(auto, using(crate::proofs::PrintingLines::putting))]
    fn class_names(&mut self, names: &[Name]) -> Result<(), AllocError>
        ensures { OnOk result (PutsParts self.old self.new (class_names_parts (map name_of names.now))) }
    {
        let [first, rest @ ..] = names else {
            return Ok(());
        };
        self.class_name(first)?;
        for name in rest {
            self.word(Terminal::Comma)?;
            self.class_name(name)?;
        }
        Ok(())
    }

    /// A name and the type that it is declared with.
    #[tactic(auto, using(crate::proofs::PrintingLines::putting), unfolding(crate::specs::Canonical::Classes::declaration_parts))]
    fn declaration(&mut self, declaration: &Declaration) -> Result<(), AllocError>
        ensures { OnOk result (PutsParts self.old self.new (declaration_parts (declaration_of declaration.now))) }
    {
        self.name(&declaration.name)?;
        self.word(Terminal::Colon)?;
        self.declared_type(&declaration.declared_type)
    }

    /// Writes the formal arguments in parentheses, if there are any.
    #[tactic(auto, using(crate::proofs::PrintingLines::putting))]
    fn formals(&mut self, formals: &[Declaration]) -> Result<(), AllocError>
        ensures { OnOk result (PutsParts self.old self.new (formals_parts (map declaration_of formals.now))) }
    {
        let [first, rest @ ..] = formals else {
            return Ok(());
        };
        self.word(Terminal::OpenParenthesis)?;
        self.declaration(first)?;
        for formal in rest {
            self.word(Terminal::Semicolon)?;
            self.declaration(formal)?;
        }
        self.word(Terminal::CloseParenthesis)
    }

    /// Writes a result's colon and type, if there is one.
    fn result_type(&mut self, result_type: &Option<DeclaredType>) -> Result<(), AllocError>
        ensures { OnOk result (PutsParts self.old self.new (result_type_parts (type_if_any result_type.now))) }
    {
        let Some(declared) = result_type else {
            return Ok(());
        };
        self.word(Terminal::Colon)?;
        self.declared_type(declared)
    }

    /// Writes `local` and a line for each local, if there are any.
    #[tactic(auto, using(crate::proofs::PrintingLines::putting))]
    fn locals(&mut self, locals: &[Declaration]) -> Result<(), AllocError>
        ensures { OnOk result (PutsLines self.old self.new (locals_lines (map declaration_of locals.now))) }
    {
        if locals.is_empty() {
            return Ok(());
        }
        self.word_line(2, Terminal::Local)?;
        for local in locals {
            self.begin_line(3)?;
            self.declaration(local)?;
            self.end_line()?;
        }
        Ok(())
    }

    /// The line that a routine begins with.
    #[tactic(auto, using(crate::proofs::PrintingLines::putting))]
    fn signature(&mut self, name: &Name, routine: &Routine) -> Result<(), AllocError>
        ensures { OnOk result (PutsLine self.old self.new
            (signature_line (name_of name.now) (routine_of routine.now))) }
    {
        self.begin_line(1)?;
        self.name(name)?;
        self.formals(&routine.formals)?;
        self.result_type(&routine.result_type)?;
        self.end_line()
    }

    /// A routine, from its name to its `end`.
    #[tactic(auto, using(crate::proofs::PrintingLines::putting))]
    fn routine(&mut self, name: &Name, routine: &Routine) -> Result<(), AllocError>
        ensures { OnOk result (PutsLines self.old self.new
            (routine_lines (name_of name.now) (routine_of routine.now))) }
    {
        self.signature(name, routine)?;
        self.assertion(2, Terminal::Require, &routine.precondition)?;
        self.locals(&routine.locals)?;
        self.word_line(2, Terminal::Do)?;
        self.instrs(3, &routine.body)?;
        self.assertion(2, Terminal::Ensure, &routine.postcondition)?;
        self.word_line(2, Terminal::End)
    }

    /// An attribute, with its type.
    #[tactic(auto, using(crate::proofs::PrintingLines::putting))]
    fn attribute(&mut self, name: &Name, declared: &DeclaredType) -> Result<(), AllocError>
        ensures { OnOk result (PutsLine self.old self.new (attribute_line (name_of name.now) (type_of declared.now))) }
    {
        self.begin_line(1)?;
        self.name(name)?;
        self.word(Terminal::Colon)?;
        self.declared_type(declared)?;
        self.end_line()
    }

    /// A feature with no export list.
    #[tactic(auto, using(crate::proofs::PrintingLines::putting), unfolding(crate::specs::View::feature_of, crate::specs::View::kind_of, crate::specs::Canonical::Classes::feature_lines))]
    fn feature(&mut self, feature: &Feature) -> Result<(), AllocError>
        ensures { OnOk result (PutsLines self.old self.new (feature_lines (feature_of feature.now))) }
    {
        match &feature.kind {
            FeatureKind::Attribute(declared) => self.attribute(&feature.name, declared),
            FeatureKind::Routine(routine) => self.routine(&feature.name, routine),
        }
    }

    /// The classes that a feature is exported to, in braces, where some are named.
    #[tactic(auto, using(crate::proofs::PrintingLines::putting))]
    fn exports(&mut self, exports: &[Name]) -> Result<(), AllocError>
        ensures { OnOk result (PutsParts self.old self.new (exports_parts (map name_of exports.now))) }
    {
        if exports.is_empty() {
            return Ok(());
        }
        self.word(Terminal::OpenBrace)?;
        self.class_names(exports)?;
        self.word(Terminal::CloseBrace)
    }

    /// `feature`, with the classes that the features below are exported to.
    #[tactic(auto, using(crate::proofs::PrintingLines::putting), unfolding(crate::specs::Canonical::Classes::section_line))]
    fn section(&mut self, exports: &[Name]) -> Result<(), AllocError>
        ensures { OnOk result (PutsLine self.old self.new (section_line (map name_of exports.now))) }
    {
        self.begin_line(0)?;
        self.word(Terminal::Feature)?;
        self.exports(exports)?;
        self.end_line()
    }

    /// Writes a feature that shares its export list with the one before.
    #[tactic(auto, using(crate::proofs::PrintingLines::putting), unfolding(crate::specs::View::feature_of))]
    fn further_feature(&mut self, exports: &[Name], feature: &Feature) -> Result<(), AllocError>
        requires { IsTrue (shares_list exports.now feature.now) }
        ensures { OnOk result (PutsLines self.old self.new
            (further_feature_lines (map name_of exports.now) (feature_of feature.now))) }
    {
        if !has_exports(exports, feature) {
            self.section(&feature.exports)?;
        }
        self.feature(feature)
    }

    /// Writes features; those in a row with equal export lists share one `feature`.
    #[tactic(auto, using(crate::proofs::PrintingLines::putting), unfolding(crate::specs::View::feature_of))]
    fn features(&mut self, features: &[Feature]) -> Result<(), AllocError>
        requires { IsTrue (share_lists features.now) }
        ensures { OnOk result (PutsLines self.old self.new (sections_lines (map feature_of features.now))) }
    {
        let [first, rest @ ..] = features else {
            return Ok(());
        };
        self.section(&first.exports)?;
        self.feature(first)?;
        let mut before = first;
        for feature in rest {
            self.further_feature(&before.exports, feature)?;
            before = feature;
        }
        Ok(())
    }

    /// Writes the word before `class`, if there is one.
    fn mark(&mut self, mark: &Option<ClassMark>) -> Result<(), AllocError>
        ensures { OnOk result (PutsParts self.old self.new (mark_parts (mark_if_any mark.now))) }
    {
        match mark {
            None => Ok(()),
            Some(ClassMark::Deferred(_)) => self.word(Terminal::Deferred),
            Some(ClassMark::Expanded(_)) => self.word(Terminal::Expanded),
            Some(ClassMark::Frozen(_)) => self.word(Terminal::Frozen),
        }
    }

    /// Writes `redefine` and its names, if there are any.
    #[tactic(auto, using(crate::proofs::PrintingLines::putting))]
    fn redefined(&mut self, names: &[Name]) -> Result<(), AllocError>
        ensures { OnOk result (PutsParts self.old self.new (redefined_parts (map name_of names.now))) }
    {
        if names.is_empty() {
            return Ok(());
        }
        self.word(Terminal::Redefine)?;
        self.names(names)?;
        self.word(Terminal::End)
    }

    /// A parent on a line of its own.
    #[tactic(auto, using(crate::proofs::PrintingLines::putting), unfolding(crate::specs::Canonical::Classes::parent_line))]
    fn parent(&mut self, parent: &Parent) -> Result<(), AllocError>
        ensures { OnOk result (PutsLine self.old self.new (parent_line (parent_of parent.now))) }
    {
        self.begin_line(1)?;
        self.class_name(&parent.name)?;
        self.redefined(&parent.redefined)?;
        self.end_line()
    }

    /// Writes `inherit` and a line for each parent, if there are any.
    #[tactic(auto, using(crate::proofs::PrintingLines::putting))]
    fn parents(&mut self, parents: &[Parent]) -> Result<(), AllocError>
        ensures { OnOk result (PutsLines self.old self.new (parents_lines (map parent_of parents.now))) }
    {
        if parents.is_empty() {
            return Ok(());
        }
        self.word_line(0, Terminal::Inherit)?;
        for parent in parents {
            self.parent(parent)?;
        }
        Ok(())
    }

    /// Writes `create` and the names of the creation procedures, if there are any.
    #[tactic(auto, using(crate::proofs::PrintingLines::putting))]
    fn creators(&mut self, creators: &[Name]) -> Result<(), AllocError>
        ensures { OnOk result (PutsLines self.old self.new (creators_lines (map name_of creators.now))) }
    {
        if creators.is_empty() {
            return Ok(());
        }
        self.word_line(0, Terminal::Create)?;
        self.begin_line(1)?;
        self.names(creators)?;
        self.end_line()
    }

    /// The line that a class begins with.
    #[tactic(auto, using(crate::proofs::PrintingLines::putting))]
    fn heading(&mut self, mark: &Option<ClassMark>, name: &Name) -> Result<(), AllocError>
        ensures { OnOk result (PutsLine self.old self.new (heading_line (mark_if_any mark.now) (name_of name.now))) }
    {
        self.begin_line(0)?;
        self.mark(mark)?;
        self.word(Terminal::Class)?;
        self.class_name(name)?;
        self.end_line()
    }

    /// A class, from its heading to its `end`.
    #[tactic(auto, using(crate::proofs::PrintingLines::putting), unfolding(crate::specs::View::class_of, crate::specs::Canonical::Classes::class_lines))]
    fn class(&mut self, class: &Class) -> Result<(), AllocError>
        ensures { OnOk result (PutsLines self.old self.new (class_lines (class_of class.now))) }
    {
        self.heading(&class.mark, &class.name)?;
        self.parents(&class.parents)?;
        self.creators(&class.creators)?;
        self.features(&class.features)?;
        self.assertion(0, Terminal::Invariant, &class.invariant)?;
        self.word_line(0, Terminal::End)
    }

    /// Classes, with an empty line between two.
    #[tactic(auto, using(crate::proofs::PrintingLines::putting))]
    pub fn classes(&mut self, classes: &[Class]) -> Result<(), AllocError>
        ensures { OnOk result (PutsLines self.old self.new (classes_lines (map class_of classes.now))) }
    {
        let [first, rest @ ..] = classes else {
            return Ok(());
        };
        self.class(first)?;
        for class in rest {
            self.begin_line(0)?;
            self.end_line()?;
            self.class(class)?;
        }
        Ok(())
    }
}
