//! Operations as they are lowered from the trees: they contain what they name, and no table has it yet.

use sc_code::{DefaultValue, TestedType};
use sc_model::Cause;
use sc_tree::{BinaryOperator, UnaryOperator};

/// A call.
#[derive(Clone, Copy)]
pub struct UnlinkedCall<'s> {
    /// The feature's name.
    pub name: &'s str,
    /// How many actuals it has.
    pub count: usize,
    /// Whether its value has an attached type; None if it has no value.
    pub gives: Option<bool>,
    /// Whether the target's type says that it is of the current handler.
    pub is_own: bool,
    /// Whether a request passes locks.
    pub passes: bool,
}

/// A creation.
#[derive(Clone, Copy)]
pub struct UnlinkedCreation<'s> {
    /// The number of the class.
    pub class: usize,
    /// The creation procedure's name, if it has one.
    pub procedure: Option<&'s str>,
    /// How many actuals it has.
    pub count: usize,
    /// Whether the creation request passes locks.
    pub passes: bool,
}

/// An [`Operation`](sc_code::Operation) whose names, texts and sites have no numbers yet.
#[derive(Drop)]
pub enum UnlinkedOperation<'s> {
    PushInteger(i64),
    PushBoolean(bool),
    PushVoid,
    PushCurrent,
    PushResult {
        is_attached: bool,
    },
    PushSlot {
        slot: usize,
        is_attached: bool,
    },
    PushAttribute {
        name: &'s str,
        is_attached: bool,
    },
    PushOld(usize),
    ApplyUnary(UnaryOperator),
    ApplyBinary(BinaryOperator),
    Decide {
        operator: BinaryOperator,
        passed: usize,
    },
    Conclude,
    Test {
        tested: Option<TestedType>,
        slot: usize,
    },
    CallRoutine(UnlinkedCall<'s>),
    CallFeature(UnlinkedCall<'s>),
    StoreSlot(usize),
    StoreAttribute(&'s str),
    StoreResult,
    Initialize {
        slot: usize,
        value: DefaultValue,
    },
    KeepOld,
    Print,
    PrintText(&'s str),
    SkipIfFalse(usize),
    Jump(usize),
    EndLoop(usize),
    Expect(Cause),
    /// A clause of a precondition, with the slots of the formals that it names.
    Demand(Vec<usize>),
    Start,
    Create(UnlinkedCreation<'s>),
    CreateHandler(UnlinkedCreation<'s>),
    /// A separate block, with the first slot of its heads, and how many they are.
    Open {
        first: usize,
        count: usize,
    },
    Leave,
    Exit,
}
