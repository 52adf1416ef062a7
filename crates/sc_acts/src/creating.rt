//! Creations of objects of this handler.
ghost use Rattle.std.specs.Prelude.{◌≡◌, ◌<◌, OnOk, OnErr, Some, false, true, length};
ghost use Rattle.sc_region.specs.Frames.{PlainActivation, activation_of, top_activation};
ghost use Rattle.sc_region.specs.Stores.{made_for};
ghost use Rattle.sc_region.specs.declared.job.Want.TheVariants as want;
ghost use Rattle.sc_acts.specs.Creating.{created, created_by, given, has_room_in, with_reference, without_last};
ghost use Rattle.sc_acts.specs.CreatingObjects.{asks_created, created_by_name, nearest_reference, object_created};
ghost use Rattle.sc_region.specs.Calls.{in_call, on_top};
ghost use Rattle.sc_acts.specs.Entering.{Calls, asks_beginning};
ghost use Rattle.sc_acts.specs.Turning.{unless_failed};

use crate::beginning::ask_beginning;
use crate::caller::{Caller, look, no_caller, resume, suspend};
use crate::steps::{pass, unless_failed};
use crate::versions::routine_of;
use sc_code::{ClassNumber, NameNumber};
use sc_lockpass::HandlerNumber;
use sc_model::Cause;
use sc_region::{Activation, ObjectNumber, Reference, Store, Value, Want};
use std::alloc::AllocError;

/// How many objects a handler has at most.
const MAX_OBJECTS: usize = 65_536;

/// Whether the topmost routine, if there is one, has room for one more operand after `count` are removed.
fn has_room(store: &Store<'_>, count: usize) -> bool
    ensures { result ≡ has_room_in count (top_activation store.now.frames) }
{
    match store.top() {
        None => true,
        Some(activation) => activation.operands.has_room_under(count),
    }
}

/// One more operand, the reference.
fn add_on(activation: &mut Activation, reference: Reference)
    requires { length (activation_of activation.old).operands.values < (activation_of activation.old).operands.depth }
    ensures { activation_of activation.new ≡ with_reference reference (activation_of activation.old) }
{
    activation.operands.push(Value::Attached(reference));
}

/// Adds the reference to the operands of the topmost routine.
fn add(store: &mut Store<'_>, reference: Reference)
    requires { (a : PlainActivation) → top_activation store.old.frames ≡ Some a → length a.operands.values < a.operands.depth }
    ensures { store.new ≡ on_top (with_reference reference) store.old }
{
    match store.top_mut() {
        Some(activation) => add_on(activation, reference),
        None => (),
    }
}

fn drop_on(activation: &mut Activation)
    ensures { activation_of activation.new ≡ without_last (activation_of activation.old) }
{
    activation.operands.drop_last(1);
}

/// The last operand of the topmost routine goes.
fn drop_last(store: &mut Store<'_>)
    ensures { store.new ≡ on_top without_last store.old }
{
    match store.top_mut() {
        Some(activation) => drop_on(activation),
        None => (),
    }
}

// ---- without a procedure

/// Replaces the last `count` operands by the reference.
fn give(store: &mut Store<'_>, count: usize, reference: Reference)
    ensures { store.new ≡ given count reference store.old }
{
    if has_room(store, count) {
        pass(store, count);
        add(store, reference);
    } else {
        store.fail(Cause::BadCode);
    }
}

/// Creates an object of the class of the reference, which is to name it: F10 if the handler has as many objects as it
/// may, F1 if the object breaks its invariant. Its error says that memory ran out, and nothing has changed then.
fn create(
    store: &mut Store<'_>,
    reference: Reference,
    count: usize,
    asked: &mut Want,
) -> Result<(), AllocError>
    requires { asked.old ≡ want.Continue }
    ensures ok { OnOk result (store.new ≡ created reference count store.old) }
    ensures want { OnOk result (asked.new ≡ unless_failed store.new.failure want.Continue) }
    ensures err { OnErr result (store.new ≡ store.old) }
    ensures kept { OnErr result (asked.new ≡ asked.old) }
{
    store.make_object(reference.class)?;
    give(store, count, reference);
    unless_failed(store, asked);
    Ok(())
}

// ---- by a procedure

/// Creates the object by the routine of the number. Its error says that memory ran out, and nothing has changed then.
fn create_from(
    store: &mut Store<'_>,
    caller: &Caller,
    reference: Reference,
    routine: usize,
    count: usize,
) -> Result<(), AllocError>
    requires stands { Calls count caller.now.values.items caller.now.place caller.now.stage (top_activation store.old.frames) }
    requires room { has_room_in count (top_activation store.old.frames) ≡ true }
    ensures ok { OnOk result (store.new ≡ made_for reference.handler reference.class routine caller.now.values.items
        (on_top (with_reference reference) (on_top (in_call count false) store.old))) }
    ensures err { OnErr result (store.new ≡ store.old) }
{
    suspend(store, count, false);
    add(store, reference);
    let actuals = caller.values.as_slice();
    match store.make_object_with(reference.handler, reference.class, routine, actuals) {
        Ok(()) => Ok(()),
        Err(error) => {
            drop_last(store);
            resume(store, caller);
            Err(error)
        }
    }
}

/// The object is created by the procedure of the name.
fn make(
    store: &mut Store<'_>,
    reference: Reference,
    name: NameNumber,
    count: usize,
) -> Result<(), AllocError>
    ensures ok { OnOk result (store.new ≡ created_by reference name count store.old) }
    ensures err { OnErr result (store.new ≡ store.old) }
{
    let found = routine_of(store.program(), reference.class, name);
    let has_room = has_room(store, count);
    let mut caller = no_caller();
    if !look(&mut caller, store, count) {
        store.fail(Cause::BadCode);
        return Ok(());
    }
    let Some(routine) = found else {
        store.fail(Cause::BadCode);
        return Ok(());
    };
    if !has_room {
        store.fail(Cause::BadCode);
        return Ok(());
    }
    create_from(store, &caller, reference, routine, count)
}

/// Creates an object of the class of the reference, which is to name it, and calls its procedure of this name with
/// the last `count` operands as actuals: F10 if the handler has as many objects as it may; F16 and F11 as in `enter`.
/// Its error says that memory ran out, and nothing has changed then.
fn create_by(
    store: &mut Store<'_>,
    reference: Reference,
    name: NameNumber,
    count: usize,
    asked: &mut Want,
) -> Result<(), AllocError>
    requires { asked.old ≡ want.Continue }
    ensures ok { OnOk result (store.new ≡ created_by reference name count store.old) }
    ensures want { OnOk result (asked.new ≡ unless_failed store.new.failure (asks_beginning store.new.program (top_activation store.new.frames))) }
    ensures err { OnErr result (store.new ≡ store.old) }
    ensures kept { OnErr result (asked.new ≡ asked.old) }
{
    make(store, reference, name, count)?;
    ask_beginning(store, asked);
    unless_failed(store, asked);
    Ok(())
}

// ---- of a class

/// The reference to the next object of this handler, or to the last possible one if no number is left.
fn next_reference(store: &Store<'_>, handler: HandlerNumber, class: ClassNumber) -> Reference
    ensures { result ≡ nearest_reference handler class store.now }
{
    let number = store.object_count().min(u32::MAX as usize - 1) as ObjectNumber + 1;
    Reference {
        handler,
        number,
        class,
    }
}

/// Creates an object by the procedure of the name. If the handler has too many objects, it fails for that, whatever
/// the procedure is. Its error says that memory ran out, and nothing has changed then.
fn create_by_name(
    store: &mut Store<'_>,
    object: Reference,
    name: NameNumber,
    count: usize,
    asked: &mut Want,
) -> Result<(), AllocError>
    requires { asked.old ≡ want.Continue }
    ensures ok { OnOk result (store.new ≡ created_by_name object name count store.old) }
    ensures want { OnOk result (asked.new ≡ unless_failed store.new.failure (asks_beginning store.new.program (top_activation store.new.frames))) }
    ensures err { OnErr result (store.new ≡ store.old) }
    ensures kept { OnErr result (asked.new ≡ asked.old) }
{
    if store.object_count() < MAX_OBJECTS {
        create_by(store, object, name, count, asked)
    } else {
        store.fail(Cause::TooManyObjects);
        *asked = Want::Fail(Cause::TooManyObjects);
        Ok(())
    }
}

/// Creates an object of the class, by its procedure of the name or without one, with the last `count` operands as
/// actuals: F1, F10, F11 and F16 as in `create` and `create_by`. Its error says that memory ran out, and nothing has
/// changed then.
pub fn create_object(
    store: &mut Store<'_>,
    handler: HandlerNumber,
    class: ClassNumber,
    procedure: Option<NameNumber>,
    count: usize,
    asked: &mut Want,
) -> Result<(), AllocError>
    requires { asked.old ≡ want.Continue }
    ensures ok { OnOk result (store.new ≡ object_created handler class procedure count store.old) }
    ensures want { OnOk result (asked.new ≡ unless_failed store.new.failure (asks_created procedure store.new)) }
    ensures err { OnErr result (store.new ≡ store.old) }
    ensures kept { OnErr result (asked.new ≡ asked.old) }
{
    let object = next_reference(store, handler, class);
    match procedure {
        None => create(store, object, count, asked),
        Some(name) => create_by_name(store, object, name, count, asked),
    }
}
