//! Instructions (ECMA-367, 8.17, 8.20, 8.22 and 8.23) and assertion clauses (8.9).

use crate::expression::{Call, Expr, Name};
use sc_text::Span;
use std::rc::Rc;

/// What an assignment or a creation changes.
#[derive(Drop)]
pub enum Variable {
    Named(Name),
    Result(Span),
}

/// The call that an object is created by.
#[derive(Drop)]
pub struct CreationCall {
    pub name: Name,
    pub actuals: Vec<Expr>,
}

/// An assertion clause, with its tag if it has one.
#[derive(Drop)]
pub struct Clause {
    pub tag: Option<Name>,
    pub condition: Expr,
}

/// A head of a separate block: what is reserved, and the name that it has in the block.
#[derive(Drop)]
pub struct Head {
    pub value: Expr,
    pub name: Name,
}

/// An instruction.
#[cycle(instructions)]
#[derive(Drop)]
pub enum Instr {
    /// `variable := value`
    Assign(Span, Variable, Expr),
    /// `print` of a manifest string, whose marks are read
    PrintText(Span, Rc<String>),
    /// A call of a procedure, as `print` of an expression is.
    Call(Call),
    /// `create variable`, with the call that follows it
    Create(Span, Variable, Option<CreationCall>),
    /// `if`: its condition, the instructions under `then`, each `elseif`, and the instructions under `else`
    If(Span, Expr, Vec<Instr>, Vec<Branch>, Vec<Instr>),
    /// A loop: the instructions under `from`, the condition that ends it, and the instructions under `loop`
    Loop(Span, Vec<Instr>, Expr, Vec<Instr>),
    /// `check`, with its clauses
    Check(Span, Vec<Clause>),
    /// A separate block: its heads and its body
    Block(Span, Vec<Head>, Vec<Instr>),
}

/// An `elseif` and the instructions under it.
#[cycle(instructions)]
#[derive(Drop)]
pub struct Branch {
    pub condition: Expr,
    pub body: Vec<Instr>,
}
