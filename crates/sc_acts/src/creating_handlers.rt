//! Creations of handlers.
ghost use Rattle.std.specs.Prelude.{◌≡◌, Some, true};
ghost use Rattle.sc_region.specs.Frames.{PlainActivation, activation_of, top_activation};
ghost use Rattle.sc_acts.specs.Creating.{has_room};
ghost use Rattle.sc_region.specs.Calls.{on_top};
ghost use Rattle.sc_acts.specs.CreatingHandlers.{asks_creating, creating, creation_in, creation_of, handler_created, may_create};

use crate::act::RemoteCreation;
use crate::going_on::{go_past, misfit};
use crate::operands::{has_actuals, last_values};
use crate::stages::await_if;
use sc_lockpass::HandlerNumber;
use sc_region::{Activation, Reference, Store, Value, Want};

/// Whether the routine has the operands of the creation, and room for the reference in their place.
fn may_create(activation: &Activation, count: usize) -> bool
    ensures { result ≡ may_create count (activation_of activation.now) }
{
    has_actuals(activation, count) && activation.operands.has_room_under(count)
}

/// What the creation asks, where its operands are there.
fn creation_of(activation: &Activation, creation: RemoteCreation) -> Option<Want>
    ensures { result ≡ creation_of creation (activation_of activation.now) }
{
    if !may_create(activation, creation.count) {
        return None;
    }
    Some(Want::Create {
        class: creation.class,
        procedure: creation.procedure,
        actuals: last_values(activation, creation.count),
        passes: creation.passes,
    })
}

/// The creation that the topmost routine wants, if it has the operands.
fn creation_in(store: &Store<'_>, creation: RemoteCreation) -> Option<Want>
    ensures { result ≡ creation_in creation (top_activation store.now.frames) }
{
    match store.top() {
        Some(activation) => creation_of(activation, creation),
        None => None,
    }
}

/// The operands of the creation go, the reference comes in their place, and with lock passing the routine waits.
fn begin_on(activation: &mut Activation, first: Reference, creation: RemoteCreation)
    requires { has_room creation.count (activation_of activation.old) ≡ true }
    ensures { activation_of activation.new ≡ creating first creation (activation_of activation.old) }
{
    go_past(activation, creation.count);
    activation.operands.push(Value::Attached(first));
    await_if(activation, creation.passes, first.handler, false, true);
}

/// Lets the topmost routine go on after the creation with a reference to the new object.
fn begin(store: &mut Store<'_>, first: Reference, creation: RemoteCreation)
    requires { (a : PlainActivation) → top_activation store.old.frames ≡ Some a → has_room creation.count a ≡ true }
    ensures { store.new ≡ on_top (creating first creation) store.old }
{
    match store.top_mut() {
        Some(activation) => begin_on(activation, first, creation),
        None => (),
    }
}

/// Creates a handler, with an object of the class, by the procedure of the name or without one: F16 if there are
/// fewer operands than the creation takes, or more than a request has room for. The creator goes on with a reference
/// to the object, which has the creator's number until the new handler's is known; with lock passing it waits for the
/// answer.
///
/// It isn't inlined, for the reason that `request` isn't.
#[inline(never)]
pub fn create_handler(
    store: &mut Store<'_>,
    handler: HandlerNumber,
    creation: RemoteCreation,
    asked: &mut Want,
)
    ensures store { store.new ≡ handler_created handler creation store.old }
    ensures want { asked.new ≡ asks_creating creation (top_activation store.old.frames) }
{
    let Some(want) = creation_in(store, creation) else {
        misfit(store, asked);
        return;
    };
    let first = Reference {
        handler,
        number: 1,
        class: creation.class,
    };
    begin(store, first, creation);
    *asked = want;
}
