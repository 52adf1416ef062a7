//! Names and expressions (ECMA-367, 8.23, 8.24 and 8.28).

ghost use Rattle.std.specs.Prelude.{◌≡◌, string_bytes};
ghost use Rattle.sc_tree.specs.Properties as properties;
ghost use Rattle.sc_tree.specs.View.{expr_of};

use crate::declaration::DeclaredType;
use sc_text::Span;
use std::rc::Rc;

/// A name in lower case, and its place.
#[derive(Drop)]
pub struct Name {
    pub text: Rc<String>,
    pub span: Span,
}

impl Name {
    /// Its text.
    pub fn as_str(&self) -> &str
        ensures value { result.now ≡ string_bytes self.now.text.value }
    {
        self.text.as_str()
    }

    /// Whether it is `print`, the name of the feature that every class has.
    pub fn is_print(&self) -> bool
        ensures { result ≡ properties.is_print (string_bytes self.now.text.value) }
    {
        self.text.as_str() == "print"
    }
}

/// An operator before its operand.
#[derive(Clone, Copy)]
pub enum UnaryOperator {
    Not,
    Old,
    Plus,
    Minus,
}

impl UnaryOperator {
    /// Whether it is `old`.
    pub fn is_old(self) -> bool
        ensures { result ≡ properties.is_old self }
    {
        matches!(self, UnaryOperator::Old)
    }
}

/// An operator between two operands.
#[derive(Clone, Copy)]
pub enum BinaryOperator {
    Times,
    Quotient,
    Remainder,
    Plus,
    Minus,
    Equal,
    NotEqual,
    Less,
    Greater,
    LessEqual,
    GreaterEqual,
    And,
    AndThen,
    Or,
    OrElse,
    Xor,
    Implies,
}

impl BinaryOperator {
    /// Whether it is `and then`.
    pub fn is_and_then(self) -> bool
        ensures { result ≡ properties.is_and_then self }
    {
        matches!(self, BinaryOperator::AndThen)
    }

    /// Whether it is `=` or `/=`.
    pub fn is_equality(self) -> bool
        ensures { result ≡ properties.is_equality self }
    {
        matches!(self, BinaryOperator::Equal | BinaryOperator::NotEqual)
    }
}

/// A call of a feature, with its target and its actual arguments. With no target it is of the current
/// object, or its name is that of a formal argument, a local, an object test or a block's head.
#[cycle(expressions)]
#[derive(Drop)]
pub struct Call {
    pub span: Span,
    pub target: Option<Box<Expr>>,
    pub name: Name,
    pub actuals: Vec<Expr>,
}

/// An expression. Parentheses leave nothing in the tree: the place of `(a + b) * c` begins at `a`.
#[cycle(expressions)]
#[derive(Drop)]
pub enum Expr {
    /// An integer's value, which is not negative.
    Integer(Span, i64),
    /// `True` or `False`
    Boolean(Span, bool),
    Void(Span),
    Current(Span),
    Result(Span),
    Call(Call),
    Unary(Span, UnaryOperator, Box<Expr>),
    Binary(Span, BinaryOperator, Box<Expr>, Box<Expr>),
    /// `attached {type} expression as name`
    ObjectTest(Span, Option<DeclaredType>, Box<Expr>, Name),
}

impl Expr {
    /// The place of its text, without parentheses around it.
    #[tactic(auto, unfolding(crate::specs::View::expr_of))]
    pub fn span(&self) -> Span
        ensures { result ≡ properties.span_of (expr_of self.now) }
    {
        match self {
            Expr::Integer(span, _) | Expr::Boolean(span, _) => *span,
            Expr::Void(span) | Expr::Current(span) | Expr::Result(span) => *span,
            Expr::Call(call) => call.span,
            Expr::Unary(span, _, _) => *span,
            Expr::Binary(span, _, _, _) => *span,
            Expr::ObjectTest(span, _, _, _) => *span,
        }
    }
}
