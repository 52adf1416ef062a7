//! Calls with a target.
ghost use Rattle.std.specs.Prelude.{◌≡◌, ◌<◌, ◌+◌, ◌||◌, IfSome, Some, drop, length, nat_lt, not, slice_get};
ghost use Rattle.std.specs.Option.{option_and_then};
ghost use Rattle.sc_code.specs.declared.operation.Operation.TheVariants as coded;
ghost use Rattle.sc_code.specs.declared.program.Image.{Image};
ghost use Rattle.sc_code.specs.Programs.{pool_of};
ghost use Rattle.sc_region.specs.Frames.{PlainActivation, activation_of, top_activation};
ghost use Rattle.sc_interp.specs.Features.{CallsFound, CallsSeen, EntersRoutine, IsFeature, IsFeatureAt, IsSite, IsUnder, ReadsAttribute, ReadsInPlace, RequestsFeature};
ghost use Rattle.sc_interp.specs.Playing.{Plays, Remains};
ghost use Rattle.sc_interp.specs.Standing.{Stays, stepped};
ghost use Rattle.sc_acts.specs.Tables.{listed};
ghost use Rattle.sc_interp.specs.Told.{IsCallIn, IsDone, IsTold, OnComes, Tells};

use crate::attributes::{attribute_value, value_under};
use crate::calling::{call_at, has_room};
use crate::evaluation::read;
use crate::hops::{Hop, stepped};
use crate::passing::replace;
use sc_acts::{Act, Calling, RemoteCall, version_in};
use sc_code::{CallSite, FeatureCode, NameNumber};
use sc_model::Cause;
use sc_region::{Activation, Reference, Store, Value};

/// What a feature of an object is.
#[derive(Clone, Copy)]
pub enum FoundFeature {
    /// An attribute, with its value, where the object has one.
    Attribute(Option<Value>),
    Routine,
}

/// What the feature of this name of an object of this handler is, if there are both.
#[inline(always)]
fn feature_of(store: &Store<'_>, object: Reference, name: NameNumber) -> Option<FoundFeature>
    ensures { IsFeature store.now object name result }
{
    match store.class_of(object.number) {
        None => None,
        Some(_) => match version_in(store.program(), object.class, name) {
            None => None,
            Some(FeatureCode::Routine(_)) => Some(FoundFeature::Routine),
            Some(FeatureCode::Attribute(_)) => Some(FoundFeature::Attribute(attribute_value(
                store,
                object.number,
                name,
            ))),
        },
    }
}

/// How many operands a call takes, with its target.
#[inline(always)]
fn past(activation: &Activation, site: CallSite) -> usize
    requires { site.count < length (activation_of activation.now).operands.values }
    ensures { result ≡ site.count + 1 }
{
    if site.count < activation.operands.len() {
        site.count + 1
    } else {
        unreachable!()
    }
}

/// The handler fails, where the operands of the call are gone.
#[inline(never)]
fn refuse(activation: &mut Activation, site: CallSite, why: Cause) -> Hop
    requires { site.count < length (activation_of activation.old).operands.values }
    ensures gone { activation_of activation.new ≡ record (activation_of activation.old) {
      operands = record (activation_of activation.old).operands { values = drop (site.count + 1) (activation_of activation.old).operands.values };
    } }
    ensures failed { result ≡ Hop.Failed why }
{
    let number = past(activation, site);
    activation.operands.drop_last(number);
    Hop::Failed(why)
}

/// Whether there is room for what comes where the operands of the call are gone, if anything comes.
#[inline(always)]
fn has_room_past(activation: &Activation, site: CallSite, gives: bool) -> bool
    requires { site.count < length (activation_of activation.now).operands.values }
    ensures { let operands = (activation_of activation.now).operands in
        result ≡ (not gives || nat_lt (length (drop (site.count + 1) operands.values)) operands.depth) }
{
    has_room(activation, past(activation, site), gives)
}

/// Replaces the call's operands by the value of an attribute: F7 if it is still Void and may not be.
#[inline(always)]
pub fn read_target(
    activation: &mut Activation,
    count: usize,
    site: CallSite,
    is_attached: bool,
    value: Option<Value>,
) -> Result<(), Cause>
    requires { site.count < length (activation_of activation.old).operands.values }
    ensures calls { ReadsInPlace count site is_attached value (stepped result) (activation_of activation.old) (activation_of activation.new) }
    ensures stays { Stays (activation_of activation.old) (activation_of activation.new) }
{
    activation.operands.drop_last(site.count);
    match activation.operands.pop() {
        Some(_target) => replace(activation, count, read(is_attached, value)),
        None => Err(Cause::BadCode),
    }
}

/// An attribute of the target is read.
#[inline(always)]
fn read_on(activation: &mut Activation, count: usize, site: CallSite, value: Option<Value>) -> Hop
    requires { site.count < length (activation_of activation.old).operands.values }
    ensures calls { ReadsAttribute count site value result (activation_of activation.old) (activation_of activation.new) }
    ensures stays { Stays (activation_of activation.old) (activation_of activation.new) }
    ensures done { IsDone result }
{
    match site.gives {
        None => refuse(activation, site, Cause::BadCode),
        Some(is_attached) => stepped(read_target(activation, count, site, is_attached, value)),
    }
}

/// A routine of the target is entered.
#[inline(always)]
fn enter_on(activation: &mut Activation, object: Reference, site: CallSite) -> Hop
    requires { site.count < length (activation_of activation.old).operands.values }
    ensures calls { EntersRoutine object site result (activation_of activation.old) (activation_of activation.new) }
    ensures stays { Stays (activation_of activation.old) (activation_of activation.new) }
    ensures told { (p : Image) → IsCallIn p site → Tells p result (activation_of activation.new) }
    ensures kept { OnComes result (activation_of activation.new ≡ activation_of activation.old) }
{
    let gives = site.gives.is_some();
    if !has_room_past(activation, site, gives) {
        return refuse(activation, site, Cause::BadCode);
    }
    Hop::Comes(Act::Enter {
        calling: Calling::Qualified,
        object,
        name: site.name,
        count: site.count,
        gives,
    })
}

/// A feature of an object of another handler is asked for.
#[inline(never)]
fn request_on(activation: &mut Activation, object: Reference, site: CallSite) -> Hop
    requires { site.count < length (activation_of activation.old).operands.values }
    ensures calls { RequestsFeature object site result (activation_of activation.old) (activation_of activation.new) }
    ensures stays { Stays (activation_of activation.old) (activation_of activation.new) }
    ensures told { (p : Image) → IsCallIn p site → Tells p result (activation_of activation.new) }
    ensures kept { OnComes result (activation_of activation.new ≡ activation_of activation.old) }
{
    if site.is_own {
        return refuse(activation, site, Cause::ForeignObject);
    }
    let gives = site.gives.is_some();
    if !has_room_past(activation, site, gives) {
        return refuse(activation, site, Cause::BadCode);
    }
    Hop::Comes(Act::Request(RemoteCall {
        object,
        name: site.name,
        count: site.count,
        gives,
        passes: site.passes,
    }))
}

/// The feature of the target, which is of this handler, is called.
#[inline(always)]
fn call_found(
    activation: &mut Activation,
    count: usize,
    object: Reference,
    site: CallSite,
    found: Option<FoundFeature>,
) -> Hop
    requires { site.count < length (activation_of activation.old).operands.values }
    ensures calls { CallsFound count object site found result (activation_of activation.old) (activation_of activation.new) }
    ensures stays { Stays (activation_of activation.old) (activation_of activation.new) }
    ensures told { (p : Image) → IsCallIn p site → Tells p result (activation_of activation.new) }
    ensures kept { OnComes result (activation_of activation.new ≡ activation_of activation.old) }
{
    match found {
        None => refuse(activation, site, Cause::BadCode),
        Some(FoundFeature::Attribute(value)) => read_on(activation, count, site, value),
        Some(FoundFeature::Routine) => enter_on(activation, object, site),
    }
}

/// The target, whose object has this feature, is called from the object `me`.
#[inline(always)]
fn call_on(
    activation: &mut Activation,
    me: Reference,
    count: usize,
    target: Value,
    site: CallSite,
    found: Option<FoundFeature>,
) -> Hop
    requires { site.count < length (activation_of activation.old).operands.values }
    ensures calls { CallsSeen count me target site found result (activation_of activation.old) (activation_of activation.new) }
    ensures stays { Stays (activation_of activation.old) (activation_of activation.new) }
    ensures told { (p : Image) → IsCallIn p site → Tells p result (activation_of activation.new) }
    ensures kept { OnComes result (activation_of activation.new ≡ activation_of activation.old) }
{
    match target {
        Value::Attached(object) => {
            if object.handler == me.handler {
                call_found(activation, count, object, site, found)
            } else {
                request_on(activation, object, site)
            }
        }
        Value::Void => refuse(activation, site, Cause::VoidTarget),
        Value::Integer(_) => refuse(activation, site, Cause::BadCode),
        Value::Boolean(_) => refuse(activation, site, Cause::BadCode),
    }
}

/// What the feature of this name of the target is, where that is an object.
#[inline(always)]
fn feature_at(store: &Store<'_>, target: Value, name: NameNumber) -> Option<FoundFeature>
    ensures { IsFeatureAt store.now target name result }
{
    match target {
        Value::Attached(object) => feature_of(store, object, name),
        Value::Integer(_) | Value::Boolean(_) | Value::Void => None,
    }
}

/// The call site of the number, if it and its name exist.
#[inline(always)]
pub fn site_at(store: &Store<'_>, number: usize) -> Option<CallSite>
    ensures site { IsSite store.now number result }
    ensures there { IfSome result (λ site. IsCallIn store.now.program site) }
{
    call_at(store.program(), number)
}

/// The call is made on the target, which lies under its actuals.
#[inline(always)]
fn call_target(
    store: &mut Store<'_>,
    me: Reference,
    count: usize,
    number: usize,
    site: CallSite,
    target: Value,
) -> Hop
    requires site { IsSite store.old number (Some site) }
    requires there { IsCallIn store.old.program site }
    requires target { IsUnder store.old site.count target }
    ensures plays { Plays me count (coded.CallFeature number) result store.old store.new }
    ensures remains { Remains store.old store.new }
    ensures told { IsTold result store.new }
    ensures kept { OnComes result (store.new ≡ store.old) }
{
    let found = feature_at(store, target, site.name);
    match store.top_mut() {
        Some(activation) => call_on(activation, me, count, target, site, found),
        None => Hop::Failed(Cause::BadCode),
    }
}

/// A feature of a target is called from the object `me`, by the number of the call's site.
#[inline(always)]
pub fn call_feature(store: &mut Store<'_>, me: Reference, count: usize, number: usize) -> Hop
    ensures plays { Plays me count (coded.CallFeature number) result store.old store.new }
    ensures remains { Remains store.old store.new }
    ensures told { IsTold result store.new }
    ensures kept { OnComes result (store.new ≡ store.old) }
{
    match site_at(store, number) {
        None => Hop::Failed(Cause::BadCode),
        Some(site) => match value_under(store, site.count) {
            Some(target) => call_target(store, me, count, number, site, target),
            None => Hop::Failed(Cause::BadCode),
        },
    }
}
