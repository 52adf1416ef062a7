//! Systems, classes and features (ECMA-367, 8.3 to 8.8, 8.10 and 8.20).

ghost use Rattle.std.specs.Prelude.{IsTrue};
ghost use Rattle.sc_tree.specs.Sections.{share_lists};

use crate::declaration::{Declaration, DeclaredType};
use crate::expression::Name;
use crate::instruction::{Clause, Instr};
use sc_text::Span;
use std::rc::Rc;

/// The classes of a source text, in order.
#[derive(Drop)]
pub struct System {
    pub classes: Vec<Class>,
}

/// A word before `class`, and its place.
#[derive(Drop)]
pub enum ClassMark {
    Deferred(Span),
    Expanded(Span),
    Frozen(Span),
}

/// A class: its mark, its parents, the procedures that create its objects, its features and the clauses
/// of its invariant, in the order of the text.
#[derive(Drop)]
pub struct Class {
    pub span: Span,
    pub mark: Option<ClassMark>,
    pub name: Name,
    pub parents: Vec<Parent>,
    pub creators: Vec<Name>,
    pub features: Vec<Feature>,
    pub invariant: Vec<Clause>,

    // Each feature that stands under the same `feature` as the one before it has the same export list.
    ghost shared: { IsTrue (share_lists features.items) },
}

/// A class that another inherits from, and the names of the features that it redefines.
#[derive(Drop)]
pub struct Parent {
    pub name: Name,
    pub redefined: Vec<Name>,
}

/// A feature. Of `a, b: INTEGER` each name is a feature of its own.
#[derive(Drop)]
pub struct Feature {
    /// The classes that may use it: every class if this is empty. `{ANY}` is empty here, and `{}` is `NONE`. Features
    /// under one `feature` share their list.
    pub exports: Rc<Vec<Name>>,
    /// Whether it is under the same `feature` as the one before it.
    pub is_further: bool,
    pub name: Name,
    pub kind: FeatureKind,
}

/// What a feature is.
#[derive(Drop)]
pub enum FeatureKind {
    Attribute(DeclaredType),
    Routine(Routine),
}

/// A routine: a function if it has a result type, else a procedure.
#[derive(Drop)]
pub struct Routine {
    pub formals: Vec<Declaration>,
    pub result_type: Option<DeclaredType>,
    pub precondition: Vec<Clause>,
    pub locals: Vec<Declaration>,
    pub body: Vec<Instr>,
    pub postcondition: Vec<Clause>,
}
