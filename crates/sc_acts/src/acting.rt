//! What a visible operation is.
ghost use Rattle.std.specs.Prelude.{◌≡◌, OnOk, OnErr};
ghost use Rattle.sc_region.specs.declared.job.Want.TheVariants as want;
ghost use Rattle.sc_acts.specs.Acting.{acted, asks_acting};
ghost use Rattle.sc_acts.specs.Turning.{unless_failed};

use crate::act::Act;
use crate::blocks::open;
use crate::creating::create_object;
use crate::creating_handlers::create_handler;
use crate::entering::enter;
use crate::exiting::exit;
use crate::leaving::leave;
use crate::printing::{print_boolean, print_integer, print_text};
use crate::refusing::refuse;
use crate::requesting::request;
use crate::steps::{end_round, start, unless_failed};
use sc_lockpass::HandlerNumber;
use sc_region::{Store, Want};
use std::alloc::AllocError;

/// Executes the operation, and writes what it wants unless the handler fails.
#[tactic(auto, using(crate::proofs::Failed::asked_twice))]
fn dispatch(
    store: &mut Store<'_>,
    handler: HandlerNumber,
    act: Act,
    asked: &mut Want,
) -> Result<(), AllocError>
    requires { asked.old ≡ want.Continue }
    ensures ok { OnOk result (store.new ≡ acted handler act store.old) }
    ensures want { OnOk result (asks_acting handler act store.old store.new ≡ unless_failed store.new.failure asked.new) }
    ensures err { OnErr result (store.new ≡ store.old) }
    ensures kept { OnErr result (asked.new ≡ asked.old) }
{
    match act {
        Act::PrintInteger(value) => print_integer(store, value),
        Act::PrintBoolean(value) => print_boolean(store, value),
        Act::PrintText(text) => print_text(store, text),
        Act::Until(back) => {
            end_round(store, back);
            Ok(())
        }
        Act::Enter {
            calling,
            object,
            name,
            count,
            gives,
        } => enter(store, calling, object, name, count, gives, asked),
        Act::Request(call) => {
            request(store, handler, call, asked);
            Ok(())
        }
        Act::Create {
            class,
            procedure,
            count,
        } => create_object(store, handler, class, procedure, count, asked),
        Act::CreateHandler(creation) => {
            create_handler(store, handler, creation, asked);
            Ok(())
        }
        Act::Start => {
            start(store);
            Ok(())
        }
        Act::Refuse(formals) => {
            refuse(store, formals, asked);
            Ok(())
        }
        Act::Open { first, count } => {
            open(store, first, count, asked);
            Ok(())
        }
        Act::Leave => {
            leave(store, asked);
            Ok(())
        }
        Act::Exit => {
            exit(store, asked);
            Ok(())
        }
    }
}

/// Executes a visible operation that the topmost routine has reached, for the handler of this number, and returns
/// what the turn wants. Its error says that memory ran out, and nothing has changed then.
pub fn act_on(
    store: &mut Store<'_>,
    handler: HandlerNumber,
    act: Act,
    asked: &mut Want,
) -> Result<(), AllocError>
    requires { asked.old ≡ want.Continue }
    ensures ok { OnOk result (store.new ≡ acted handler act store.old) }
    ensures want { OnOk result (asked.new ≡ asks_acting handler act store.old store.new) }
    ensures err { OnErr result (store.new ≡ store.old) }
    ensures kept { OnErr result (asked.new ≡ asked.old) }
{
    dispatch(store, handler, act, asked)?;
    unless_failed(store, asked);
    Ok(())
}
