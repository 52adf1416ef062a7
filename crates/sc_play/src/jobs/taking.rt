//! Requests that a handler takes.
ghost use Rattle.std.specs.Prelude.{◌≡◌, OnOk, OnErr};
ghost use Rattle.sc_region.specs.Objects.{attribute_of};
ghost use Rattle.sc_region.specs.declared.job.Want.TheVariants as want;
ghost use Rattle.sc_play.specs.Turns.{Becomes};
ghost use Rattle.sc_play.specs.Taking.{answered, asks_answering, asks_call, asks_creation, asks_taking, asks_version, attribute_at, born_by, taken, taken_call, taken_creation, taken_version};

use arrayvec::ArrayVec;
use sc_acts::{ask_beginning, routine_of, unless_failed, version_in};
use sc_code::{AttributeCode, ClassNumber, FeatureCode, NameNumber, Program};
use sc_lockpass::HandlerNumber;
use sc_model::Cause;
use sc_region::{Errand, Origin, Reference, Request, Store, Value, Want};
use std::alloc::AllocError;

// ---- a query of an attribute

/// The request ends with this value, or with none.
///
/// It stays a call: each request that is taken would clear what is asked here, if it stood where requests are taken.
#[inline(never)]
fn ask_done(value: Option<Value>, asked: &mut Want)
    ensures { asked.new ≡ asks_answering value }
{
    *asked = Want::Done {
        reply: value,
        released: ArrayVec::new(),
        refused: false,
    };
}

/// The attribute at the number of the class of a number.
fn attribute_at(program: &Program, class: ClassNumber, number: usize) -> Option<AttributeCode>
    ensures { result ≡ attribute_at program.now.image class number }
{
    let code = program.classes().get(usize::from(class))?;
    code.attributes.get(number).copied()
}

/// An attribute with this value is answered: F7 where its type is attached and it is still Void.
fn answer(store: &mut Store<'_>, attribute: Option<AttributeCode>, value: Option<Value>)
    ensures { store.new ≡ answered attribute value store.old }
{
    match (attribute, value) {
        (Some(attribute), Some(value)) => {
            if attribute.is_attached && value == Value::Void {
                store.fail(Cause::UnsetEntity);
            }
        }
        _ => store.fail(Cause::BadCode),
    }
}

// ---- a call

/// The attribute of the number of the target is answered.
fn answer_at(store: &mut Store<'_>, target: Reference, number: usize, asked: &mut Want)
    ensures store { store.new ≡ answered (attribute_at store.old.program target.class number) (attribute_of target.number number store.old.objects) store.old }
    ensures want { asked.new ≡ asks_answering (attribute_of target.number number store.old.objects) }
{
    let attribute = attribute_at(store.program(), target.class, number);
    let value = store.read(target.number, number);
    answer(store, attribute, value);
    ask_done(value, asked);
}

/// Calls the version of the feature. Its error says that memory ran out, and nothing has changed then.
fn call_version(
    store: &mut Store<'_>,
    request: &Request,
    version: Option<FeatureCode>,
    asked: &mut Want,
) -> Result<(), AllocError>
    requires { asked.old ≡ want.Continue }
    ensures ok { OnOk result (store.new ≡ taken_version request.now version store.old) }
    ensures want { OnOk result (asked.new ≡ asks_version request.now version store.old store.new) }
    ensures err { OnErr result (store.new ≡ store.old) }
    ensures kept { OnErr result (asked.new ≡ asked.old) }
{
    match version {
        Some(FeatureCode::Routine(routine)) => {
            let actuals = request.actuals.as_slice();
            store.push(request.target, routine, Origin::Requested, actuals)?;
            ask_beginning(store, asked);
            Ok(())
        }
        Some(FeatureCode::Attribute(number)) => {
            answer_at(store, request.target, number, asked);
            Ok(())
        }
        None => {
            store.fail(Cause::BadCode);
            Ok(())
        }
    }
}

/// Calls the feature of the number on the target: F14 if that is no object of this handler, F16 if there is no such
/// object or feature. Its error says that memory ran out, and nothing has changed then.
fn call(
    store: &mut Store<'_>,
    handler: HandlerNumber,
    request: &Request,
    name: NameNumber,
    asked: &mut Want,
) -> Result<(), AllocError>
    requires { asked.old ≡ want.Continue }
    ensures ok { OnOk result (store.new ≡ taken_call handler request.now name store.old) }
    ensures want { OnOk result (asked.new ≡ asks_call handler request.now name store.old store.new) }
    ensures err { OnErr result (store.new ≡ store.old) }
    ensures kept { OnErr result (asked.new ≡ asked.old) }
{
    let target = request.target;
    if target.handler != handler {
        store.fail(Cause::ForeignObject);
        return Ok(());
    }
    if store.class_of(target.number).is_none() {
        store.fail(Cause::BadCode);
        return Ok(());
    }
    let version = version_in(store.program(), target.class, name);
    call_version(store, request, version, asked)
}

// ---- a creation

/// Makes an object, and enters the routine of the number on it, if one is given. Its error says that memory ran out,
/// and nothing has changed then.
fn bear(store: &mut Store<'_>, request: &Request, routine: Option<usize>) -> Result<(), AllocError>
    ensures ok { OnOk result (store.new ≡ born_by routine request.now store.old) }
    ensures err { OnErr result (store.new ≡ store.old) }
{
    match routine {
        Some(routine) => { store.birth_with(request.target, routine, request.actuals.as_slice()) }
        None => {
            store.birth(request.target.class)?;
            store.fail(Cause::BadCode);
            Ok(())
        }
    }
}

/// Makes an object by the procedure of the number, or without one. Its error says that memory ran out, and nothing
/// has changed then.
fn make(
    store: &mut Store<'_>,
    request: &Request,
    procedure: Option<NameNumber>,
    asked: &mut Want,
) -> Result<(), AllocError>
    requires { asked.old ≡ want.Continue }
    ensures ok { OnOk result (store.new ≡ taken_creation procedure request.now store.old) }
    ensures want { OnOk result (asked.new ≡ asks_creation procedure store.new) }
    ensures err { OnErr result (store.new ≡ store.old) }
    ensures kept { OnErr result (asked.new ≡ asked.old) }
{
    match procedure {
        None => {
            store.birth(request.target.class)?;
            ask_done(None, asked);
            Ok(())
        }
        Some(name) => {
            let routine = routine_of(store.program(), request.target.class, name);
            bear(store, request, routine)?;
            ask_beginning(store, asked);
            Ok(())
        }
    }
}

// ---- requests

/// Takes the request. Its error says that memory ran out, and nothing has changed then.
fn take_errand(
    store: &mut Store<'_>,
    handler: HandlerNumber,
    request: &Request,
    asked: &mut Want,
) -> Result<(), AllocError>
    requires { asked.old ≡ want.Continue }
    ensures ok { OnOk result (store.new ≡ taken handler request.now store.old) }
    ensures want { OnOk result (asked.new ≡ asks_taking handler request.now store.old store.new) }
    ensures err { OnErr result (store.new ≡ store.old) }
    ensures kept { OnErr result (asked.new ≡ asked.old) }
{
    match request.errand {
        Errand::Calls(name) => call(store, handler, request, name, asked),
        Errand::Makes(procedure) => make(store, request, procedure, asked),
    }
}

/// Takes the request. A call: F14 if the target is an object of another handler, F16 if there is no such object or
/// feature; an attribute is answered at once, F7 if it is unset; a routine is entered, F16 and F11 as in
/// [`Store::push`]. A creation: F1 if the object breaks its invariant; F16 and F11 as in [`Store::birth_with`]. Its
/// error says that memory ran out, and nothing has changed then.
pub fn take(
    store: &mut Store<'_>,
    handler: HandlerNumber,
    request: &Request,
    asked: &mut Want,
) -> Result<(), AllocError>
    requires { asked.old ≡ want.Continue }
    ensures ok { OnOk result (Becomes (taken handler request.now store.old) (asks_taking handler request.now store.old store.new) store.new asked.new) }
    ensures err { OnErr result (store.new ≡ store.old) }
    ensures kept { OnErr result (asked.new ≡ asked.old) }
{
    take_errand(store, handler, request, asked)?;
    unless_failed(store, asked);
    Ok(())
}
