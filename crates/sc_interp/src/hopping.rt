//! The silent operations of the topmost routine of a store, up to its next visible one.
ghost use Rattle.std.specs.Prelude.{◌≡◌, ◌<◌, IfNone, IfOk, IfSome, OnErr, Some, false, true, length, slice_get};
ghost use Rattle.std.specs.Option.{option_map, option_and_then};
ghost use Rattle.sc_region.specs.Classes as at;
ghost use Rattle.sc_region.specs.Frames.{PlainActivation, top_activation, top_current};
ghost use Rattle.sc_interp.specs.Hopping.{ComesTo, HasCode, IsNext, LeadsTo};
ghost use Rattle.sc_interp.specs.Playing.{Plays, Remains};
ghost use Rattle.sc_interp.specs.Standing.{is_simple, is_step, is_step_in, stepped};
ghost use Rattle.sc_interp.specs.Told.{IsTold, OnComes};

use crate::attributes::{push_attribute, store_attribute};
use crate::dispatch::{hop_on, step_on};
use crate::features::call_feature;
use crate::hops::Hop;
use sc_code::{Operation, RoutineCode};
use sc_model::Cause;
use sc_region::{Reference, Store};
use std::alloc::AllocError;

// ---- operations

/// Executes the operation of the topmost routine, which runs on `me` and whose code has `count` operations, if it is
/// silent, needs no memory, and reads nothing but the routine itself. None if it is another one, and nothing has
/// changed then.
fn step_in_place(
    store: &mut Store<'_>,
    me: Reference,
    count: usize,
    operation: Operation,
) -> Option<Result<(), Cause>>
    ensures plays { IfSome result (λ step. Plays me count operation (stepped step) store.old store.new) }
    ensures remains { Remains store.old store.new }
    ensures none { IfNone result (store.new ≡ store.old) }
    ensures other { IfNone result (is_step operation ≡ false) }
{
    match store.top_mut() {
        Some(activation) => step_on(activation, me, count, operation),
        None => Some(Err(Cause::BadCode)),
    }
}

/// Executes the operation of the topmost routine as `step_in_place` does, also if it reads the attributes of Current.
fn step_by(
    store: &mut Store<'_>,
    me: Reference,
    count: usize,
    operation: Operation,
) -> Option<Result<(), Cause>>
    ensures plays { IfSome result (λ step. Plays me count operation (stepped step) store.old store.new) }
    ensures remains { Remains store.old store.new }
    ensures none { IfNone result (store.new ≡ store.old) }
    ensures other { IfNone result (is_step_in operation ≡ false) }
{
    match operation {
        Operation::PushAttribute { is_attached, name } => Some(push_attribute(
            store,
            me,
            count,
            name,
            is_attached,
        )),
        Operation::StoreAttribute(name) => Some(store_attribute(store, me, count, name)),
        _ => step_in_place(store, me, count, operation),
    }
}

/// An operation that asks nothing of the attributes of objects, and that `step_in_place` leaves.
fn hop_in_place(
    store: &mut Store<'_>,
    me: Reference,
    count: usize,
    operation: Operation,
) -> Result<Hop, AllocError>
    requires simple { is_simple operation ≡ true }
    requires other { is_step operation ≡ false }
    ensures plays { IfOk result (λ hop. Plays me count operation hop store.old store.new) }
    ensures remains { Remains store.old store.new }
    ensures err { OnErr result (store.new ≡ store.old) }
    ensures told { IfOk result (λ hop. IsTold hop store.new) }
    ensures kept { IfOk result (λ hop. OnComes hop (store.new ≡ store.old)) }
{
    let program = store.program();
    match store.top_mut() {
        Some(activation) => hop_on(program, activation, me, count, operation),
        None => Ok(Hop::Failed(Cause::BadCode)),
    }
}

/// An operation of the topmost routine that `step_by` leaves.
fn hop_by(
    store: &mut Store<'_>,
    me: Reference,
    count: usize,
    operation: Operation,
) -> Result<Hop, AllocError>
    requires { is_step_in operation ≡ false }
    ensures plays { IfOk result (λ hop. Plays me count operation hop store.old store.new) }
    ensures remains { Remains store.old store.new }
    ensures err { OnErr result (store.new ≡ store.old) }
    ensures told { IfOk result (λ hop. IsTold hop store.new) }
    ensures kept { IfOk result (λ hop. OnComes hop (store.new ≡ store.old)) }
{
    match operation {
        Operation::CallFeature(number) => Ok(call_feature(store, me, count, number)),
        _ => hop_in_place(store, me, count, operation),
    }
}

// ---- the code of the topmost routine

/// The code of the topmost routine.
fn top_code<'p>(store: &Store<'p>) -> Option<&'p RoutineCode>
    ensures { option_map (λ code. code.now) result
        ≡ option_and_then (λ (a : PlainActivation). at.routine_at store.now.program a.routine) (top_activation store.now.frames) }
{
    let activation = store.top()?;
    store.program().routine(activation.routine)
}

/// How many operations a code has.
pub fn operation_count(code: &RoutineCode) -> usize
    ensures count { result ≡ length code.now.operations.items }
    ensures few { result < 18446744073709551615 }
{
    code.operations.len()
}

/// The operation at the place of a code.
pub fn operation_at(code: &RoutineCode, place: usize) -> Option<Operation>
    ensures { result ≡ slice_get code.now.operations.items place }
{
    code.operations.get(place).copied()
}

/// How many operations the topmost routine's code has, which is this, and the next of them, if there is one.
fn next_in(store: &Store<'_>, code: &RoutineCode) -> Option<(usize, Operation)>
    requires { HasCode store.now code.now }
    ensures { IsNext store.now result }
{
    let activation = store.top()?;
    match operation_at(code, activation.place) {
        Some(operation) => Some((operation_count(code), operation)),
        None => None,
    }
}

// ---- silent operations

/// The silent operations of the topmost routine, which runs on `me` and has this code, are done, up to one that isn't
/// silent. Each goes ahead in the code, so they are fewer than its operations.
fn moves_in(store: &mut Store<'_>, me: Reference, code: &RoutineCode) -> Result<Hop, AllocError>
    requires current { top_current store.old.frames ≡ Some me }
    requires code { HasCode store.old code.now }
    ensures comes { IfOk result (λ hop. ComesTo hop store.old store.new) }
    ensures remains { Remains store.old store.new }
    ensures err { OnErr result (LeadsTo store.old store.new) }
    ensures told { IfOk result (λ hop. IsTold hop store.new) }
    ensures leads { IfOk result (λ hop. OnComes hop (LeadsTo store.old store.new)) }
{
    let count = operation_count(code);
    for passed in 0..count + 1 {
        let Some((count, operation)) = next_in(store, code) else {
            return Ok(Hop::Failed(Cause::BadCode));
        };
        match step_by(store, me, count, operation) {
            Some(Ok(())) => (),
            Some(Err(why)) => return Ok(Hop::Failed(why)),
            None => match hop_by(store, me, count, operation)? {
                Hop::Passed => (),
                Hop::Failed(why) => return Ok(Hop::Failed(why)),
                Hop::Comes(act) => return Ok(Hop::Comes(act)),
            },
        }
    }
    Ok(Hop::Failed(Cause::BadCode))
}

/// Executes the silent operations of the topmost routine, up to one that isn't silent, which is returned: it is still
/// to be executed, and only the silent ones have changed anything. F16 if there is none. Its error says that memory ran
/// out; as many silent operations are executed then as there was memory for.
pub fn moves(store: &mut Store<'_>) -> Result<Hop, AllocError>
    ensures comes { IfOk result (λ hop. ComesTo hop store.old store.new) }
    ensures remains { Remains store.old store.new }
    ensures err { OnErr result (LeadsTo store.old store.new) }
    ensures told { IfOk result (λ hop. IsTold hop store.new) }
    ensures leads { IfOk result (λ hop. OnComes hop (LeadsTo store.old store.new)) }
{
    match store.current() {
        None => Ok(Hop::Failed(Cause::BadCode)),
        Some(me) => match top_code(store) {
            None => Ok(Hop::Failed(Cause::BadCode)),
            Some(code) => moves_in(store, me, code),
        },
    }
}
