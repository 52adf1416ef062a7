//! Operations of flat code.

ghost use Rattle.std.specs.Prelude.{◌≡◌};
ghost use Rattle.sc_model.specs.Values.{default_of};
ghost use Rattle.sc_code.specs.View.{default_value};

use crate::numbers::NameNumber;
use sc_class::ClassId;
use sc_model::Cause;
use sc_tree::{BinaryOperator, UnaryOperator};

/// What an entity of the language holds before anything is assigned to it.
#[derive(Clone, Copy)]
pub enum DefaultValue {
    /// 0, of INTEGER.
    Zero,
    /// False, of BOOLEAN.
    False,
    /// Void, of every other class.
    Void,
}

impl DefaultValue {
    /// What an entity of the class holds before anything is assigned to it.
    pub fn of(class: ClassId) -> DefaultValue
        ensures { default_value result ≡ default_of class }
    {
        match class {
            ClassId::Integer => DefaultValue::Zero,
            ClassId::Boolean => DefaultValue::False,
            ClassId::Any | ClassId::None | ClassId::Declared(_) => DefaultValue::Void,
        }
    }
}

/// One operation, of 16 bytes at most.
///
/// Slots are numbered from 0, the formals first; names, texts, sites, tests, clauses and blocks by their place in the
/// tables of the [`ConstantPool`](crate::ConstantPool). A number of operations that are passed counts from the next one.
#[derive(Clone, Copy)]
pub enum Operation {
    PushInteger(i64),
    PushBoolean(bool),
    PushVoid,
    PushCurrent,
    /// Result is read; one of an attached type that is still Void is F7.
    PushResult {
        is_attached: bool,
    },
    /// A formal, a local or the name of an object test or of a separate block is read; F7 as for Result.
    PushSlot {
        is_attached: bool,
        slot: usize,
    },
    /// An attribute of Current is read; F7 as for Result.
    PushAttribute {
        is_attached: bool,
        name: NameNumber,
    },
    /// The kept value of the `old` of this number of the routine.
    PushOld(usize),
    ApplyUnary(UnaryOperator),
    ApplyBinary(BinaryOperator),
    /// Where the left operand of a semistrict operator decides, its decision is pushed and the right operand passed.
    Decide {
        operator: BinaryOperator,
        passed: usize,
    },
    /// The right operand of a semistrict operator is the whole's value.
    Conclude,
    /// An object test, by its number.
    Test(usize),
    /// A routine of Current is called, by the number of the call's site.
    CallRoutine(usize),
    /// A feature of a target is called, by the number of the call's site.
    CallFeature(usize),
    StoreSlot(usize),
    /// An attribute of Current, by the number of its name.
    StoreAttribute(NameNumber),
    StoreResult,
    /// A local gets its default.
    Initialize {
        value: DefaultValue,
        slot: usize,
    },
    /// The value of the next `old` is kept.
    KeepOld,
    Print,
    /// A text is printed, by its number.
    PrintText(usize),
    /// Skips this number of operations if the last value is False.
    SkipIfFalse(usize),
    /// Skips this number of operations.
    Jump(usize),
    /// Ends the loop if the last value is True; else goes this number of operations back, to the loop's body.
    EndLoop(usize),
    /// A clause of a postcondition or of a `check`: if it is false, the handler fails with this cause.
    Expect(Cause),
    /// A clause of a precondition, by the number of its list of formals.
    Demand(usize),
    /// Each clause of the precondition holds.
    Start,
    /// An object of the current handler is made, by the number of the creation's site.
    Create(usize),
    /// A handler is made, by the number of the creation's site.
    CreateHandler(usize),
    /// A separate block begins, by its number.
    Open(usize),
    /// A separate block ends.
    Leave,
    /// The routine ends.
    Exit,
}

const _: () = prove!(std::mem::size_of::<Operation>() <= 16);
