//! The position of an expression, and the meaning of a name.

/// The part of a class's text that an expression belongs to.
#[derive(Clone, Copy)]
pub enum Context {
    /// A routine's body.
    Body,
    /// A precondition.
    Require,
    /// A postcondition.
    Ensure,
    /// A clause of a `check`.
    Check,
    /// A clause of a class's invariant.
    Invariant,
    /// The operand of an `old` outside preconditions.
    Old,
}

/// What an expression is used as, where that matters.
#[derive(Clone, Copy)]
pub enum Position {
    /// Nothing special: neither of the others.
    Plain,
    /// The condition of an `if` or `elseif`, or an operand of the `and then`s at its top: an object test is allowed
    /// here.
    Condition,
    /// A right side, an actual, or an operand of `=` or `/=`: `Void` is allowed here.
    Source,
}

/// What a call is used as.
#[derive(Clone, Copy)]
pub enum Use {
    /// As an expression.
    Value,
    /// As an instruction.
    Instruction,
}

/// What a name of a routine is.
#[derive(Clone, Copy, PartialEq, Eq)]
pub enum Role {
    /// A formal argument.
    Formal,
    /// A local.
    Local,
    /// The name of an object test.
    Test,
    /// A name of a separate block.
    Block,
}
