//! Answers, granted reservations, and handlers that were made.
ghost use Rattle.std.specs.Prelude.{◌≡◌, OnOk, OnErr};
ghost use Rattle.sc_region.specs.Frames.{activation_of};
ghost use Rattle.sc_acts.specs.Exiting.{handed_as};
ghost use Rattle.sc_region.specs.declared.job.Want.TheVariants as want;
ghost use Rattle.sc_region.specs.Calls.{on_top};
ghost use Rattle.sc_play.specs.Turns.{Becomes};
ghost use Rattle.sc_play.specs.Answering.{block_granted, entry_granted, granted, replied, runs, told, told_on, top_stage};

use arrayvec::ArrayVec;
use sc_acts::{copy_handlers, unless_failed};
use sc_lockpass::HandlerNumber;
use sc_model::Cause;
use sc_region::{Activation, Reference, Stage, Store, Value, Want};
use std::alloc::AllocError;

/// The stage of the topmost routine, if there is one.
pub fn top_stage(store: &Store<'_>) -> Option<Stage>
    ensures { result ≡ top_stage store.now }
{
    Some(store.top()?.stage)
}

// ---- an answer

/// Lets the routine go on, with the value, if it takes one and there is one.
fn hand_to(activation: &mut Activation, gives: bool, value: Option<Value>)
    ensures { activation_of activation.new ≡ handed_as gives value (runs (activation_of activation.old)) }
{
    activation.stage = Stage::Runs;
    if let Some(value) = value {
        if gives && !activation.operands.is_full() {
            activation.operands.push(value);
        }
    }
}

/// Lets the topmost routine go on, with the value, if it takes one and there is one.
fn hand_over(store: &mut Store<'_>, gives: bool, value: Option<Value>)
    ensures { store.new ≡ on_top (λ a. handed_as gives value (runs a)) store.old }
{
    match store.top_mut() {
        Some(activation) => hand_to(activation, gives, value),
        None => (),
    }
}

/// The topmost routine takes an answer, in its stage.
fn answer(store: &mut Store<'_>, value: Option<Value>)
    ensures { store.new ≡ replied value store.old }
{
    match top_stage(store) {
        Some(Stage::Awaits { gives, .. }) => hand_over(store, gives, value),
        Some(Stage::Runs) => (),
        Some(Stage::Reserves | Stage::ReservesBlock | Stage::InCall { .. }) | None => {
            store.fail(Cause::BadCode);
        }
    }
}

/// Gives the topmost routine an answer: if it waits for one it goes on, with the value if it takes one. One that goes
/// on already takes the end of a callback that it posted as a command. F16 in any other stage.
pub fn reply(store: &mut Store<'_>, value: Option<Value>, asked: &mut Want)
    requires { asked.old ≡ want.Continue }
    ensures { Becomes (replied value store.old) want.Continue store.new asked.new }
{
    answer(store, value);
    unless_failed(store, asked);
}

// ---- a reserve step

/// The entry of the routine has newly reserved these handlers.
fn grant_entry_on(activation: &mut Activation, handlers: &ArrayVec<HandlerNumber, 16>)
    ensures { activation_of activation.new ≡ entry_granted handlers.now.items (activation_of activation.old) }
{
    activation.stage = Stage::Runs;
    activation.reserved = copy_handlers(handlers);
}

/// Gives the topmost routine's entry the handlers that it newly reserved.
fn grant_entry(store: &mut Store<'_>, handlers: &ArrayVec<HandlerNumber, 16>)
    ensures { store.new ≡ on_top (entry_granted handlers.now.items) store.old }
{
    match store.top_mut() {
        Some(activation) => grant_entry_on(activation, handlers),
        None => (),
    }
}

/// Gives a separate block of the routine the handlers that it newly reserved. Its error says that memory ran out, and
/// nothing has changed then.
fn grant_block_on(
    activation: &mut Activation,
    handlers: &ArrayVec<HandlerNumber, 16>,
) -> Result<(), AllocError>
    ensures ok { OnOk result (activation_of activation.new ≡ block_granted handlers.now.items (activation_of activation.old)) }
    ensures err { OnErr result (activation_of activation.new ≡ activation_of activation.old) }
{
    activation.blocks.push(copy_handlers(handlers))?;
    activation.stage = Stage::Runs;
    Ok(())
}

/// Gives a separate block of the topmost routine the handlers that it newly reserved. Its error says that memory ran
/// out, and nothing has changed then.
fn grant_block(
    store: &mut Store<'_>,
    handlers: &ArrayVec<HandlerNumber, 16>,
) -> Result<(), AllocError>
    ensures ok { OnOk result (store.new ≡ on_top (block_granted handlers.now.items) store.old) }
    ensures err { OnErr result (store.new ≡ store.old) }
{
    match store.top_mut() {
        Some(activation) => grant_block_on(activation, handlers),
        None => Ok(()),
    }
}

/// Gives the topmost routine, in its stage, the handlers that it newly reserved. Its error says that memory ran out,
/// and nothing has changed then.
fn grant_in(store: &mut Store<'_>, handlers: &ArrayVec<HandlerNumber, 16>) -> Result<(), AllocError>
    ensures ok { OnOk result (store.new ≡ granted handlers.now.items store.old) }
    ensures err { OnErr result (store.new ≡ store.old) }
{
    match top_stage(store) {
        Some(Stage::Reserves) => {
            grant_entry(store, handlers);
            Ok(())
        }
        Some(Stage::ReservesBlock) => grant_block(store, handlers),
        Some(Stage::Runs | Stage::InCall { .. } | Stage::Awaits { .. }) | None => {
            store.fail(Cause::BadCode);
            Ok(())
        }
    }
}

/// Gives the topmost routine, or its separate block that begins, the handlers that its reserve step newly reserved:
/// it goes on. F16 if it has no reserve step. Its error says that memory ran out, and nothing has changed then.
pub fn grant(
    store: &mut Store<'_>,
    handlers: &ArrayVec<HandlerNumber, 16>,
    asked: &mut Want,
) -> Result<(), AllocError>
    requires { asked.old ≡ want.Continue }
    ensures ok { OnOk result (Becomes (granted handlers.now.items store.old) want.Continue store.new asked.new) }
    ensures err { OnErr result (store.new ≡ store.old) }
    ensures kept { OnErr result (asked.new ≡ asked.old) }
{
    grant_in(store, handlers)?;
    unless_failed(store, asked);
    Ok(())
}

// ---- a handler that was made

/// The last operand of the routine refers to an object of this handler.
fn tell_on(activation: &mut Activation, handler: HandlerNumber)
    ensures { activation_of activation.new ≡ told_on handler (activation_of activation.old) }
{
    match activation.operands.pop() {
        Some(Value::Attached(object)) => activation
            .operands
            .push(Value::Attached(Reference { handler, ..object })),
        Some(value) => activation.operands.push(value),
        None => (),
    }
}

/// Writes the new handler's number into the topmost routine's reference.
pub fn tell(store: &mut Store<'_>, handler: HandlerNumber)
    ensures { store.new ≡ told handler store.old }
{
    match store.top_mut() {
        Some(activation) => tell_on(activation, handler),
        None => (),
    }
}

/// The routine goes on.
fn resume_on(activation: &mut Activation)
    ensures { activation_of activation.new ≡ runs (activation_of activation.old) }
{
    activation.stage = Stage::Runs;
}

/// Lets the topmost routine go on.
fn resume_top(store: &mut Store<'_>)
    ensures { store.new ≡ on_top runs store.old }
{
    match store.top_mut() {
        Some(activation) => resume_on(activation),
        None => (),
    }
}

/// The topmost routine, which waited, goes on.
pub fn resume(store: &mut Store<'_>, asked: &mut Want)
    requires { asked.old ≡ want.Continue }
    ensures { Becomes (on_top runs store.old) want.Continue store.new asked.new }
{
    resume_top(store);
    unless_failed(store, asked);
}
