//! Calls, creations and separate blocks: what they name is returned, and the routine stays as it is.
ghost use Rattle.std.specs.Prelude.{◌≡◌, ℕ, IfSome, Some, None, ◌||◌, not, drop, length, nat_lt, slice_get, if◌then◌else◌};
ghost use Rattle.std.specs.Option.{option_map, option_and_then};
ghost use Rattle.sc_region.specs.Frames.{activation_of};
ghost use Rattle.sc_code.specs.declared.operation.Operation.TheVariants as coded;
ghost use Rattle.sc_code.specs.Programs.{pool_of};
ghost use Rattle.sc_code.specs.View.{call_of, creation_of, named};
ghost use Rattle.sc_interp.specs.Standing.{Follows, Stays, call_in, creation_in};
ghost use Rattle.sc_acts.specs.Tables.{listed};
ghost use Rattle.sc_interp.specs.Told.{IsCallIn, IsCreationIn, OnComes, Tells};

use crate::hops::Hop;
use sc_acts::{Act, Calling, RemoteCreation};
use sc_code::{CallSite, ConstantPool, CreationSite, NameNumber, Program};
use sc_model::Cause;
use sc_region::{Activation, Reference};

/// Whether there is a name of the number.
#[inline(always)]
pub fn has_name(pool: &ConstantPool, name: NameNumber) -> bool
    ensures { slice_get (pool_of pool.now).names name ≡ (if result then Some (listed (pool_of pool.now).names name) else None) }
{
    (name as usize) < pool.names.len()
}

/// Whether there is a name of the number, where a number is given.
fn has_procedure(pool: &ConstantPool, procedure: Option<NameNumber>) -> bool
    ensures { named (pool_of pool.now).names procedure ≡ (if result then Some (option_map (listed (pool_of pool.now).names) procedure) else None) }
{
    match procedure {
        None => true,
        Some(name) => has_name(pool, name),
    }
}

/// The call site of the number, if it and its name exist.
#[inline(always)]
pub fn call_at(program: &Program, number: usize) -> Option<CallSite>
    ensures site { let pool = pool_of program.now.image.pool in
        option_map (call_in pool) result ≡ option_and_then (call_of pool) (slice_get pool.calls number) }
    ensures there { IfSome result (λ site. IsCallIn program.now.image site) }
{
    let pool = program.pool();
    let site = *pool.calls.get(number)?;
    if has_name(pool, site.name) {
        Some(site)
    } else {
        None
    }
}

/// The creation site of the number, if it and the name of its procedure exist.
fn creation_at(program: &Program, number: usize) -> Option<CreationSite>
    ensures site { let pool = pool_of program.now.image.pool in
        option_map (creation_in pool) result ≡ option_and_then (creation_of pool) (slice_get pool.creations number) }
    ensures there { IfSome result (λ site. IsCreationIn program.now.image site) }
{
    let pool = program.pool();
    let site = *pool.creations.get(number)?;
    if has_procedure(pool, site.procedure) {
        Some(site)
    } else {
        None
    }
}

/// Whether there is room for the result, if there is one, after the last `count` operands are removed.
#[inline(always)]
pub fn has_room(activation: &Activation, count: usize, gives: bool) -> bool
    ensures { let operands = (activation_of activation.now).operands in
        result ≡ (not gives || nat_lt (length (drop count operands.values)) operands.depth) }
{
    !gives || activation.operands.has_room_under(count)
}

/// Fails with F16, with this number of operands removed.
fn misfit(activation: &mut Activation, count: usize) -> Hop
    ensures gone { activation_of activation.new ≡ record (activation_of activation.old) {
      operands = record (activation_of activation.old).operands { values = drop count (activation_of activation.old).operands.values };
    } }
    ensures failed { result ≡ Hop.Failed Cause.BadCode }
{
    activation.operands.drop_last(count);
    Hop::Failed(Cause::BadCode)
}

/// A routine of Current is called, by the number of the call's site.
pub fn call_routine(
    program: &Program,
    activation: &mut Activation,
    me: Reference,
    number: usize,
) -> Hop
    ensures follows { (count : ℕ) → Follows program.now.image me count (coded.CallRoutine number)
        result (activation_of activation.old) (activation_of activation.new) }
    ensures stays { Stays (activation_of activation.old) (activation_of activation.new) }
    ensures told { Tells program.now.image result (activation_of activation.new) }
    ensures kept { OnComes result (activation_of activation.new ≡ activation_of activation.old) }
{
    let Some(site) = call_at(program, number) else {
        return Hop::Failed(Cause::BadCode);
    };
    let (count, gives) = (site.count, site.gives.is_some());
    if count > activation.operands.len() {
        return Hop::Failed(Cause::BadCode);
    }
    if !has_room(activation, count, gives) {
        return misfit(activation, count);
    }
    Hop::Comes(Act::Enter {
        calling: Calling::Unqualified,
        object: me,
        name: site.name,
        count,
        gives,
    })
}

/// An object of this handler is created, by the number of the creation's site.
pub fn create(program: &Program, activation: &mut Activation, me: Reference, number: usize) -> Hop
    ensures follows { (count : ℕ) → Follows program.now.image me count (coded.Create number)
        result (activation_of activation.old) (activation_of activation.new) }
    ensures stays { Stays (activation_of activation.old) (activation_of activation.new) }
    ensures told { Tells program.now.image result (activation_of activation.new) }
    ensures kept { OnComes result (activation_of activation.new ≡ activation_of activation.old) }
{
    let Some(site) = creation_at(program, number) else {
        return Hop::Failed(Cause::BadCode);
    };
    let (class, procedure, count) = (site.class, site.procedure, site.count);
    if count > activation.operands.len() {
        return Hop::Failed(Cause::BadCode);
    }
    Hop::Comes(Act::Create {
        class,
        procedure,
        count,
    })
}

/// A handler is created, by the number of the creation's site.
pub fn create_handler(
    program: &Program,
    activation: &mut Activation,
    me: Reference,
    number: usize,
) -> Hop
    ensures follows { (count : ℕ) → Follows program.now.image me count (coded.CreateHandler number) result
        (activation_of activation.old) (activation_of activation.new) }
    ensures stays { Stays (activation_of activation.old) (activation_of activation.new) }
    ensures told { Tells program.now.image result (activation_of activation.new) }
    ensures kept { OnComes result (activation_of activation.new ≡ activation_of activation.old) }
{
    let Some(site) = creation_at(program, number) else {
        return Hop::Failed(Cause::BadCode);
    };
    let (class, procedure, count, passes) = (site.class, site.procedure, site.count, site.passes);
    if count > activation.operands.len() {
        return Hop::Failed(Cause::BadCode);
    }
    if !has_room(activation, count, true) {
        return misfit(activation, count);
    }
    Hop::Comes(Act::CreateHandler(RemoteCreation {
        class,
        procedure,
        count,
        passes,
    }))
}
