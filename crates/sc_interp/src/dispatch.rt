//! One operation that asks nothing of the attributes of objects.
ghost use Rattle.std.specs.Prelude.{◌≡◌, IfNone, IfOk, IfSome, OnErr, false, is_some, true};
ghost use Rattle.sc_region.specs.Frames.{activation_of};
ghost use Rattle.sc_interp.specs.Standing.{Follows, FollowsInEach, Stays, is_simple, is_step, stepped};
ghost use Rattle.sc_interp.specs.Told.{OnComes, Tells};

use crate::blocks::open;
use crate::calling::{call_routine, create, create_handler};
use crate::hops::Hop;
use crate::passing::{push, skip};
use crate::reading::{initialize, keep_old, push_old, push_result, push_slot};
use crate::silent::{
    apply_binary, apply_unary, conclude, decide, expect, skip_if_false, store_result, store_slot,
};
use crate::testing::test;
use crate::visible::{demand, end_loop, print, print_text};
use sc_acts::Act;
use sc_code::{Operation, Program};
use sc_model::Cause;
use sc_region::{Activation, Reference, Value};
use std::alloc::AllocError;

/// Executes the operation of the routine that runs on `me`, whose code has `count` operations, if it is silent, needs
/// no memory, and reads nothing but the routine itself. None if it is another one, and nothing has changed then.
#[inline(always)]
pub fn step_on(
    activation: &mut Activation,
    me: Reference,
    count: usize,
    operation: Operation,
) -> Option<Result<(), Cause>>
    ensures follows { IfSome result (λ step. FollowsInEach me count operation (stepped step) (activation_of activation.old) (activation_of activation.new)) }
    ensures stays { Stays (activation_of activation.old) (activation_of activation.new) }
    ensures none { IfNone result (activation_of activation.new ≡ activation_of activation.old) }
    ensures taken { is_some result ≡ is_step operation }
{
    match operation {
        Operation::PushInteger(value) => Some(push(activation, count, Value::Integer(value))),
        Operation::PushBoolean(value) => Some(push(activation, count, Value::Boolean(value))),
        Operation::PushVoid => Some(push(activation, count, Value::Void)),
        Operation::PushCurrent => Some(push(activation, count, Value::Attached(me))),
        Operation::PushResult { is_attached } => Some(push_result(activation, count, is_attached)),
        Operation::PushSlot { is_attached, slot } => Some(push_slot(
            activation,
            count,
            slot,
            is_attached,
        )),
        Operation::PushOld(number) => Some(push_old(activation, count, number)),
        Operation::ApplyUnary(operator) => Some(apply_unary(activation, count, operator)),
        Operation::ApplyBinary(operator) => Some(apply_binary(activation, count, operator)),
        Operation::Decide { operator, passed } => Some(decide(activation, count, operator, passed)),
        Operation::Conclude => Some(conclude(activation, count)),
        Operation::StoreSlot(slot) => Some(store_slot(activation, count, slot)),
        Operation::StoreResult => Some(store_result(activation, count)),
        Operation::Initialize { value, slot } => Some(initialize(activation, count, slot, value)),
        Operation::SkipIfFalse(passed) => Some(skip_if_false(activation, count, passed)),
        Operation::Jump(passed) => Some(skip(activation, count, passed)),
        Operation::Expect(why) => Some(expect(activation, count, why)),
        _ => None,
    }
}

/// Executes an operation that reads no attributes of objects, and that `step_on` doesn't execute. Its error says that
/// memory ran out, and nothing has changed then.
pub fn hop_on(
    program: &Program,
    activation: &mut Activation,
    me: Reference,
    count: usize,
    operation: Operation,
) -> Result<Hop, AllocError>
    requires simple { is_simple operation ≡ true }
    requires other { is_step operation ≡ false }
    ensures follows { IfOk result (λ hop. Follows program.now.image me count operation hop (activation_of activation.old) (activation_of activation.new)) }
    ensures stays { Stays (activation_of activation.old) (activation_of activation.new) }
    ensures err { OnErr result (activation_of activation.new ≡ activation_of activation.old) }
    ensures told { IfOk result (λ hop. Tells program.now.image hop (activation_of activation.new)) }
    ensures kept { IfOk result (λ hop. OnComes hop (activation_of activation.new ≡ activation_of activation.old)) }
{
    match operation {
        Operation::KeepOld => keep_old(activation, count),
        Operation::Print => Ok(print(activation)),
        Operation::PrintText(text) => Ok(print_text(program, text)),
        Operation::EndLoop(back) => Ok(end_loop(activation, back)),
        Operation::Start => Ok(Hop::Comes(Act::Start)),
        Operation::Leave => Ok(Hop::Comes(Act::Leave)),
        Operation::Exit => Ok(Hop::Comes(Act::Exit)),
        Operation::CallRoutine(number) => Ok(call_routine(program, activation, me, number)),
        Operation::Create(number) => Ok(create(program, activation, me, number)),
        Operation::CreateHandler(number) => Ok(create_handler(program, activation, me, number)),
        Operation::Test(number) => Ok(test(program, activation, me, count, number)),
        Operation::Open(number) => Ok(open(program, activation, number)),
        Operation::Demand(number) => Ok(demand(program, activation, count, number)),
        _ => unreachable!(),
    }
}
