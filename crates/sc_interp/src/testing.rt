//! Object tests: what they ask of a value, and the slot that they fill.
ghost use Rattle.std.specs.Prelude.{◌≡◌, ◌<◌, true, length, slice_get};
ghost use Rattle.std.specs.Option.{option_and_then};
ghost use Rattle.sc_class.specs.declared.identity.ClassId.TheVariants as class_id;
ghost use Rattle.sc_class.specs.Tables.Conformance.{class_conforms};
ghost use Rattle.sc_tree.specs.Plain.{System};
ghost use Rattle.sc_model.specs.ObjectTests.{is_number};
ghost use Rattle.sc_model.specs.Values.{handler_of};
ghost use Rattle.sc_code.specs.declared.operation.Operation.TheVariants as coded;
ghost use Rattle.sc_code.specs.Machine as flat;
ghost use Rattle.sc_code.specs.Programs.{pool_of};
ghost use Rattle.sc_code.specs.View.{residence_of, tested_of};
ghost use Rattle.sc_region.specs.Frames.{activation_of};
ghost use Rattle.sc_interp.specs.Serving.{TellsConformance, conforms_in};
ghost use Rattle.sc_interp.specs.Standing.{BindsIf, Follows, IsTestOf, Stays, Tested};
ghost use Rattle.sc_interp.specs.Values.{value_of, values_of};
ghost use Rattle.sc_interp.specs.Told.{IsDone};

use crate::hops::{Hop, stepped};
use crate::passing::{put_past, store};
use sc_class::ClassId;
use sc_code::{ObjectTest, Program, Residence, TestedType};
use sc_lockpass::HandlerNumber;
use sc_model::Cause;
use sc_region::{Activation, Reference, Value};

/// Whether the class of the first number is that of the second, or conforms to it by its table.
fn conforms(program: &Program, class: usize, other: usize) -> bool
    ensures { result ≡ conforms_in program.now.image class other }
{
    if class == other {
        return true;
    }
    match program.classes().get(class) {
        Some(code) => match code.conforms.get(other) {
            Some(conforms) => *conforms,
            None => false,
        },
        None => false,
    }
}

/// Whether the declared class of the number conforms to this class.
fn is_of_class(program: &Program, class: usize, other: ClassId) -> bool
    ensures { (s : System) → TellsConformance s program.now.image → result ≡ class_conforms s (class_id.Declared class) other }
{
    match other {
        ClassId::Declared(number) => conforms(program, class, number),
        ClassId::Any => true,
        ClassId::None | ClassId::Integer | ClassId::Boolean => false,
    }
}

/// Whether the object in the slot is of this handler.
#[tactic(auto, using(crate::proofs::GoingOn::values_get))]
fn lies_with(slots: &[Value], slot: usize, handler: HandlerNumber) -> bool
    ensures { result ≡ is_number (option_and_then handler_of (slice_get (values_of slots.now) slot)) handler }
{
    match slots.get(slot) {
        Some(Value::Attached(object)) => handler == object.handler,
        Some(Value::Integer(_) | Value::Boolean(_) | Value::Void) | None => false,
    }
}

/// Whether an object of a handler has the handler that it must have, seen from the handler `me`.
fn resides(residence: Residence, me: HandlerNumber, slots: &[Value], handler: HandlerNumber) -> bool
    ensures { result ≡ flat.resides (residence_of residence) me (values_of slots.now) handler }
{
    match residence {
        Residence::OnCurrent => handler == me,
        Residence::WithSlot(slot) => lies_with(slots, slot, handler),
        Residence::Anywhere => true,
        Residence::Nowhere => false,
    }
}

/// Whether a value is of the type that is asked for.
fn is_of_type(
    program: &Program,
    me: HandlerNumber,
    slots: &[Value],
    value: Value,
    tested: TestedType,
) -> bool
    ensures { (s : System) → TellsConformance s program.now.image → result ≡ flat.is_of_type s me (values_of slots.now) (value_of value) (tested_of tested) }
{
    match value {
        Value::Integer(_) => matches!(tested.class, ClassId::Integer),
        Value::Boolean(_) => matches!(tested.class, ClassId::Boolean),
        Value::Void => false,
        Value::Attached(object) => {
            is_of_class(program, usize::from(object.class), tested.class)
                && resides(tested.residence, me, slots, object.handler)
        }
    }
}

/// Whether a value passes an object test.
fn is_tested(
    program: &Program,
    me: HandlerNumber,
    slots: &[Value],
    value: Value,
    tested: Option<TestedType>,
) -> bool
    ensures { IsTestOf program.now.image me slots.now value tested result }
{
    match tested {
        None => !matches!(value, Value::Void),
        Some(tested) => is_of_type(program, me, slots, value, tested),
    }
}

/// The object test is true, and the slot gets the value.
#[inline(always)]
fn bind(activation: &mut Activation, count: usize, slot: usize, value: Value) -> Hop
    requires { length (activation_of activation.old).operands.values < (activation_of activation.old).operands.depth }
    ensures passes { BindsIf count true slot value result (activation_of activation.old) (activation_of activation.new) }
    ensures stays { Stays (activation_of activation.old) (activation_of activation.new) }
    ensures done { IsDone result }
{
    activation.operands.push(Value::Boolean(true));
    stepped(store(activation, count, slot, value))
}

/// Makes the answer of an object test the last operand; if it is True, writes the value to the slot.
#[inline(always)]
fn bind_if(
    activation: &mut Activation,
    count: usize,
    is_tested: bool,
    slot: usize,
    value: Value,
) -> Hop
    requires { length (activation_of activation.old).operands.values < (activation_of activation.old).operands.depth }
    ensures passes { BindsIf count is_tested slot value result (activation_of activation.old) (activation_of activation.new) }
    ensures stays { Stays (activation_of activation.old) (activation_of activation.new) }
    ensures done { IsDone result }
{
    if is_tested {
        bind(activation, count, slot, value)
    } else {
        stepped(put_past(activation, count, Value::Boolean(false), 0))
    }
}

/// The object test of the number.
#[inline(always)]
fn test_at(program: &Program, number: usize) -> Option<ObjectTest>
    ensures { result ≡ slice_get (pool_of program.now.image.pool).tests number }
{
    program.pool().tests.get(number).copied()
}

/// The last operand is tested by the object test.
#[inline(always)]
fn test_by(
    program: &Program,
    activation: &mut Activation,
    me: Reference,
    count: usize,
    test: ObjectTest,
) -> Hop
    ensures tests { Tested program.now.image me count test result (activation_of activation.old) (activation_of activation.new) }
    ensures stays { Stays (activation_of activation.old) (activation_of activation.new) }
    ensures done { IsDone result }
{
    match activation.operands.pop() {
        Some(value) => {
            let holds = is_tested(program, me.handler, &activation.slots, value, test.tested);
            bind_if(activation, count, holds, test.slot, value)
        }
        None => Hop::Failed(Cause::BadCode),
    }
}

/// An object test, by its number.
#[inline(always)]
pub fn test(
    program: &Program,
    activation: &mut Activation,
    me: Reference,
    count: usize,
    number: usize,
) -> Hop
    ensures follows { Follows program.now.image me count (coded.Test number) result (activation_of activation.old) (activation_of activation.new) }
    ensures stays { Stays (activation_of activation.old) (activation_of activation.new) }
    ensures done { IsDone result }
{
    match test_at(program, number) {
        Some(test) => test_by(program, activation, me, count, test),
        None => Hop::Failed(Cause::BadCode),
    }
}
