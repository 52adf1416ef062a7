//! Types, and the entities that are declared with them (ECMA-367, 8.8 and 8.11).

use crate::expression::Name;
use sc_text::Span;
use std::rc::Rc;

/// What a type says of the handler of its objects.
#[derive(Drop)]
pub enum HandlerTag {
    /// Nothing: they are objects of the current object's own handler.
    Own,
    /// `separate`: they may be any handler's.
    Separate,
    /// `separate <x.handler>`: they belong to the handler of this name's object.
    HandlerOf(Rc<Name>),
}

/// The type that something is declared with. What is declared together shares the names in its type.
#[derive(Drop)]
pub struct DeclaredType {
    pub span: Span,
    /// Whether `Void` is allowed, too; a type with no mark is attached.
    pub is_detachable: bool,
    pub tag: HandlerTag,
    pub class: Rc<Name>,
}

/// A formal argument or a local. Of `a, b: INTEGER` each name is one of its own.
#[derive(Drop)]
pub struct Declaration {
    pub name: Name,
    pub declared_type: DeclaredType,
}
