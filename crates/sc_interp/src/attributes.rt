//! Operations that read and write attributes.
ghost use Rattle.std.specs.Prelude.{◌≡◌, Some, None, slice_get, if◌then◌else◌};
ghost use Rattle.std.specs.Option.{option_and_then};
ghost use Rattle.sc_code.specs.declared.operation.Operation.TheVariants as coded;
ghost use Rattle.sc_code.specs.Programs.{pool_of};
ghost use Rattle.sc_region.specs.Frames.{PlainActivation, top_activation};
ghost use Rattle.sc_interp.specs.Playing.{IsAttribute, IsLast, Plays, Remains, named_attribute, written_if};
ghost use Rattle.sc_acts.specs.Tables.{version_in, listed};
ghost use Rattle.sc_interp.specs.Standing.{stepped};

use crate::calling::has_name;
use crate::evaluation::read;
use crate::passing::{pass_last, push_found};
use sc_acts::version_in;
use sc_code::{FeatureCode, NameNumber};
use sc_model::Cause;
use sc_region::{ObjectNumber, Reference, Store, Value};

/// The number of the attribute of this name of the object.
#[inline(always)]
fn attribute_number(store: &Store<'_>, object: ObjectNumber, name: NameNumber) -> Option<usize>
    ensures { result ≡ named_attribute store.now object name }
{
    let class = store.class_of(object)?;
    match version_in(store.program(), class, name)? {
        FeatureCode::Attribute(number) => Some(number),
        FeatureCode::Routine(_) => None,
    }
}

/// The attribute of this name of the object.
#[inline(always)]
pub fn attribute_value(store: &Store<'_>, object: ObjectNumber, name: NameNumber) -> Option<Value>
    ensures { IsAttribute store.now object name result }
{
    match attribute_number(store, object, name) {
        Some(number) => store.read(object, number),
        None => None,
    }
}

/// Whether the program of the store has a name of the number.
pub fn is_name(store: &Store<'_>, name: NameNumber) -> bool
    ensures { slice_get (pool_of store.now.program.pool).names name ≡ (if result then Some (listed (pool_of store.now.program.pool).names name) else None) }
{
    has_name(store.program().pool(), name)
}

/// An attribute of Current, which is `me`, is read: F7 where its type is attached and it is still Void.
pub fn push_attribute(
    store: &mut Store<'_>,
    me: Reference,
    count: usize,
    name: NameNumber,
    is_attached: bool,
) -> Result<(), Cause>
    ensures plays { Plays me count (coded.PushAttribute is_attached name) (stepped result) store.old store.new }
    ensures remains { Remains store.old store.new }
{
    if !is_name(store, name) {
        return Err(Cause::BadCode);
    }
    let value = attribute_value(store, me.number, name);
    match store.top_mut() {
        Some(activation) => push_found(activation, count, read(is_attached, value)),
        None => Err(Cause::BadCode),
    }
}

/// The operand of the topmost routine below the last `count`, if there is one.
#[inline(always)]
pub fn value_under(store: &Store<'_>, count: usize) -> Option<Value>
    ensures { result ≡ option_and_then (λ (a : PlainActivation). slice_get a.operands.values count) (top_activation store.now.frames) }
{
    store.top()?.operands.under(count)
}

/// The attribute of Current at the number, if one is given, gets the value.
fn write_if(store: &mut Store<'_>, number: Option<usize>, value: Value)
    ensures { store.new ≡ written_if number value store.old }
{
    match number {
        Some(number) => store.write_current(number, value),
        None => (),
    }
}

/// The value, which is the last operand, goes into the attribute of Current, which is `me`.
fn assign(
    store: &mut Store<'_>,
    me: Reference,
    count: usize,
    name: NameNumber,
    value: Value,
) -> Result<(), Cause>
    requires last { IsLast store.old value }
    requires named { slice_get (pool_of store.old.program.pool).names name ≡ Some (listed (pool_of store.old.program.pool).names name) }
    ensures plays { Plays me count (coded.StoreAttribute name) (stepped result) store.old store.new }
    ensures remains { Remains store.old store.new }
{
    let number = attribute_number(store, me.number, name);
    match store.top_mut() {
        Some(activation) => {
            let step = pass_last(activation, count);
            write_if(store, number, value);
            step
        }
        None => Err(Cause::BadCode),
    }
}

/// The last operand goes into an attribute of Current, which is `me`.
pub fn store_attribute(
    store: &mut Store<'_>,
    me: Reference,
    count: usize,
    name: NameNumber,
) -> Result<(), Cause>
    ensures plays { Plays me count (coded.StoreAttribute name) (stepped result) store.old store.new }
    ensures remains { Remains store.old store.new }
{
    if !is_name(store, name) {
        return Err(Cause::BadCode);
    }
    match value_under(store, 0) {
        Some(value) => assign(store, me, count, name, value),
        None => Err(Cause::BadCode),
    }
}
