//! What visible operations are, with what they name.
use sc_code::{ClassNumber, NameNumber};
use sc_region::Reference;

/// How a routine of the same handler is called.
#[derive(Clone, Copy)]
pub enum Calling {
    Unqualified,
    Qualified,
}

/// A call on an object of another handler. Its actuals are the last operands, and the target lies under them.
#[derive(Clone, Copy)]
pub struct RemoteCall {
    pub object: Reference,
    pub name: NameNumber,
    /// How many actuals there are.
    pub count: usize,
    pub gives: bool,
    pub passes: bool,
}

/// The creation of a handler, with its first object. The actuals are the last operands.
#[derive(Clone, Copy)]
pub struct RemoteCreation {
    pub class: ClassNumber,
    /// The number of the creation procedure's name, if it has one.
    pub procedure: Option<NameNumber>,
    /// How many actuals there are.
    pub count: usize,
    pub passes: bool,
}

/// A visible operation that a routine has reached, with what it names. Its actuals are the last operands, and the
/// target of a qualified call or a request is below them.
#[derive(Clone, Copy)]
pub enum Act {
    /// The last operand is printed.
    PrintInteger(i64),
    /// The last operand is printed.
    PrintBoolean(bool),
    /// The text of the number is printed.
    PrintText(usize),
    /// An `until` whose value is the last operand: the loop ends, or the routine goes this number of operations back.
    Until(Option<usize>),
    /// A routine of an object of this handler is called.
    Enter {
        calling: Calling,
        object: Reference,
        name: NameNumber,
        count: usize,
        gives: bool,
    },
    /// A feature of an object of another handler is called.
    Request(RemoteCall),
    /// An object of this handler is created, by the procedure of the name or without one.
    Create {
        class: ClassNumber,
        procedure: Option<NameNumber>,
        count: usize,
    },
    /// A handler is created, with an object of the class.
    CreateHandler(RemoteCreation),
    /// Each clause of the precondition holds.
    Start,
    /// A clause of the precondition is false, which names the formals of this list of the program.
    Refuse(usize),
    /// A separate block begins, whose heads are the last operands.
    Open {
        first: usize,
        count: usize,
    },
    /// A separate block ends.
    Leave,
    /// The routine ends.
    Exit,
}
