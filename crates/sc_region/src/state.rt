//! What a store is made of, and what its calls do, whatever its objects meet.
ghost use Rattle.std.specs.Prelude.{◌≡◌, ◌<◌, ◌≤◌, ◌+◌, ◌-◌, ◌^◌, ◌++◌, [], ◌∷◌, IfOk, OnOk, OnErr, IsTrue, Some, false, drop, length, slice_get, take};
ghost use Rattle.sc_code.specs.JoinedInvariants.{kept_from};
ghost use Rattle.sc_region.specs.Objects.{object_of, object_numbered};
ghost use Rattle.sc_region.specs.Classes.{all_hold, classes_of, joined_of, meets_invariant, object_meets, object_breaks, routine_at};
ghost use Rattle.sc_region.specs.Calls.{calls, top_operands};
ghost use Rattle.sc_region.specs.Stores.{failed, is_settled, settled, written, entered, left, with_new, born, born_for, made, made_for, max_frames, printed};
ghost use Rattle.sc_region.specs.States.{state_of};
ghost use Rattle.sc_region.specs.Values.{atoms_of};
ghost use Rattle.sc_model.specs.declared.cause.Cause.TheVariants as cause;

use crate::breakdown::{Breakdown, BrokenInvariant, Point};
use crate::frame::{Activation, Origin, OwnCall};
use crate::object::{Object, Objects};
use crate::program::{class_at, class_numbered, routine_at};
use crate::stack::Stack;
use crate::value::{ObjectNumber, Reference, Value};
use sc_code::{ClassCode, ClassNumber, Program, RoutineCode};
use sc_formula::{Atom, Formula};
use sc_lockpass::HandlerNumber;
use sc_model::Cause;
use std::alloc::{AllocError, Global};

/// The most objects of a handler.
const MAX_OBJECTS: usize = 65_536;

/// The most frames of a handler.
pub const MAX_FRAMES: usize = 1024;

/// The objects, frames and output of a handler, and its failure.
#[derive(Drop)]
pub struct State<'p> {
    pub alloc: Global,
    pub program: &'p Program,
    pub objects: Objects,
    pub stack: Stack,
    pub output: Vec<u8>,
    pub failure: Option<Cause>,
    /// Where it failed, to be shown to people. Nothing else depends on it.
    pub breakdown: Breakdown,
}

/// A copy, which takes its memory from this allocator. Its error says that memory ran out.
pub fn copy<'p>(state: &State<'p>, alloc: Global) -> Result<State<'p>, AllocError>
    ensures { IfOk result (λ copy. state_of copy ≡ state_of state.now) }
{
    Ok(State {
        alloc,
        program: state.program,
        objects: state.objects.copy(alloc)?,
        stack: state.stack.copy(alloc)?,
        output: Vec::from_slice(alloc, &state.output)?,
        failure: state.failure,
        breakdown: state.breakdown,
    })
}

// ---- failure, and settled objects

/// The operation that the routine is at.
fn point_of(activation: &Activation) -> Point {
    Point {
        routine: activation.routine,
        place: activation.place,
    }
}

/// Where the handler is, or was as it failed.
pub fn breakdown(state: &State<'_>) -> Breakdown {
    match state.stack.top() {
        Some(activation) => Breakdown {
            point: Some(point_of(activation)),
            invariant: state.breakdown.invariant,
        },
        None => state.breakdown,
    }
}

/// Keeps where the handler is, so that a failure can be explained.
fn keep_breakdown(state: &mut State<'_>, why: Cause)
    ensures { state_of state.new ≡ state_of state.old }
{
    let Some(current) = state.stack.current() else {
        return;
    };
    state.breakdown = breakdown(state);
    if matches!(why, Cause::Invariant) && state.breakdown.invariant.is_none() {
        state.breakdown.invariant = broken_invariant(state, current.number as usize);
    }
}

/// A failure: the frames are dropped.
pub fn fail(state: &mut State<'_>, why: Cause)
    ensures { state_of state.new ≡ failed why (state_of state.old) }
{
    keep_breakdown(state, why);
    state.stack.clear();
    state.failure = Some(why);
}

/// Whether the object of the number is settled.
pub fn is_settled(state: &State<'_>, number: usize) -> bool
    ensures { result ≡ is_settled number (state_of state.now) }
{
    state.failure.is_none() && !state.stack.have_current(number)
}

/// Whether there is an object of the number, and it meets its class invariant.
#[inline(always)]
pub fn object_meets(state: &State<'_>, number: usize) -> bool
    ensures { result ≡ object_meets state.now.program.now.image (object_numbered number state.now.objects) }
{
    match state.objects.get(number) {
        Some(object) => meets_invariant(state.program, object),
        None => false,
    }
}

/// Whether there is an object of the number, and it breaks its class invariant.
fn object_breaks(state: &State<'_>, number: usize) -> bool
    ensures { result ≡ object_breaks state.now.program.now.image (object_numbered number state.now.objects) }
{
    match state.objects.get(number) {
        Some(object) => !meets_invariant(state.program, object),
        None => false,
    }
}

#[inline(always)]
fn meets_invariant(program: &Program, object: &Object) -> bool
    ensures { result ≡ meets_invariant program.now.image (object_of object.now) }
{
    match class_at(program, object.class) {
        Some(class) => meets_joined(program, class, &object.attributes),
        None => true,
    }
}

/// Whether each clause of the joined invariant of a class is true of the attributes: at most 256.
#[inline(always)]
fn meets_joined(program: &Program, class: &ClassCode, attributes: &[Value]) -> bool
    requires { length attributes.now ≤ 256 }
    ensures { result ≡ all_hold (joined_of program.now.image class.now) (atoms_of attributes.now) }
{
    class.invariant_classes.is_empty() || meets_some(program, class, attributes)
}

/// Whether each clause is true of the attributes, if there are clauses. (A function of its own, since it clears room
/// for what an invariant may see; this one has room for few attributes.)
#[inline(never)]
fn meets_some(program: &Program, class: &ClassCode, attributes: &[Value]) -> bool
    requires { length attributes.now ≤ 256 }
    ensures { result ≡ all_hold (joined_of program.now.image class.now) (atoms_of attributes.now) }
{
    if attributes.len() <= 8 {
        let mut atoms = [Atom::Boolean(false); 8];
        meets_in(&mut atoms, program, class, attributes)
    } else {
        meets_many(program, class, attributes)
    }
}

/// Whether each clause is true of the attributes, with room for as many attributes as there may be.
#[inline(never)]
fn meets_many(program: &Program, class: &ClassCode, attributes: &[Value]) -> bool
    requires { length attributes.now ≤ 256 }
    ensures { result ≡ all_hold (joined_of program.now.image class.now) (atoms_of attributes.now) }
{
    if attributes.len() <= 32 {
        let mut atoms = [Atom::Boolean(false); 32];
        meets_in(&mut atoms, program, class, attributes)
    } else {
        let mut atoms = [Atom::Boolean(false); 256];
        meets_in(&mut atoms, program, class, attributes)
    }
}

/// Whether each clause is true of the attributes, with this room for what the clauses see.
#[inline(always)]
fn meets_in(atoms: &mut [Atom], program: &Program, class: &ClassCode, attributes: &[Value]) -> bool
    requires { length attributes.now ≤ length atoms.old }
    ensures { result ≡ all_hold (joined_of program.now.image class.now) (atoms_of attributes.now) }
{
    fill(atoms, attributes);
    meets_each(program, class, &atoms[..attributes.len()])
}

/// Whether the atoms meet the invariant of each class whose clauses make up the joined one.
fn meets_each(program: &Program, class: &ClassCode, atoms: &[Atom]) -> bool
    ensures { result ≡ all_hold (joined_of program.now.image class.now) atoms.now }
{
    let count = class.attributes.len();
    class
        .invariant_classes
        .iter()
        .all(|declarer| meets_own(program, *declarer, count, atoms))
}

/// Whether an object with this number of attributes meets the clauses that the class of the number declares itself.
#[inline(always)]
fn meets_own(program: &Program, declarer: usize, count: usize, atoms: &[Atom]) -> bool
    ensures { result ≡ all_hold (kept_from count (slice_get (classes_of program.now.image) declarer)) atoms.now }
{
    match class_numbered(program, declarer) {
        Some(class) => sc_formula::meets(&class.invariant, seen_by(class, count, atoms)),
        None => true,
    }
}

/// What the clauses of a class see of an object with this number of attributes: the last ones, as many as the class
/// has.
#[inline(always)]
fn seen_by<'a>(class: &ClassCode, count: usize, atoms: &'a [Atom]) -> &'a [Atom]
    ensures { result.now ≡ drop (count - length class.now.attributes.items) atoms.now }
{
    let first = count.saturating_sub(class.attributes.len());
    &atoms[first.min(atoms.len())..]
}

/// Writes what an invariant sees of each attribute.
fn fill(atoms: &mut [Atom], attributes: &[Value])
    requires { length attributes.now ≤ length atoms.old }
    ensures { take (length attributes.now) atoms.new ≡ atoms_of attributes.now }
{
    for (place, value) in attributes.iter().enumerate() {
        atoms[place] = value.atom();
    }
}

/// The class invariant that the object of the number breaks, if it breaks one.
fn broken_invariant(state: &State<'_>, number: usize) -> Option<BrokenInvariant> {
    let object = state.objects.get(number)?;
    let class = class_at(state.program, object.class)?;
    let mut atoms = [Atom::Boolean(false); 256];
    fill(&mut atoms, &object.attributes);
    let atoms = &atoms[..object.attributes.len()];
    for declarer in class.invariant_classes.iter().rev() {
        let declared = class_numbered(state.program, *declarer)?;
        let seen = seen_by(declared, class.attributes.len(), atoms);
        if let Some(clause) = broken_clause(&declared.invariant, seen) {
            return Some(BrokenInvariant {
                class: object.class,
                declarer: *declarer,
                clause,
            });
        }
    }
    None
}

/// The first of the clauses that isn't true, counted from 0.
fn broken_clause(clauses: &[Formula], atoms: &[Atom]) -> Option<usize> {
    clauses
        .iter()
        .position(|clause| sc_formula::eval(clause, atoms) != Some(true))
}

/// Where the object of the number is settled now and breaks its invariant, the store fails.
pub fn settle(state: &mut State<'_>, number: usize)
    ensures { state_of state.new ≡ settled number (state_of state.old) }
{
    // The cheapest first: a routine that exits mostly leaves its object to its caller, or in order.
    if !is_on_top(state, number) && object_breaks(state, number) && is_settled(state, number) {
        state.breakdown.invariant = broken_invariant(state, number);
        fail(state, Cause::Invariant);
    }
}

/// Whether the topmost frame has the object of the number as Current.
fn is_on_top(state: &State<'_>, number: usize) -> bool
    ensures { IsTrue result → is_settled number (state_of state.now) ≡ false }
{
    match state.stack.current() {
        Some(current) => current.number as usize == number,
        None => false,
    }
}

// ---- attributes

/// The attribute of Current at the number gets the value.
pub fn write_current(state: &mut State<'_>, slot: usize, value: Value)
    ensures { state_of state.new ≡ written slot value (state_of state.old) }
{
    if let Some(current) = state.stack.current() {
        let number = current.number as usize;
        state.objects.write(number, slot, value);
    }
}

// ---- frames

/// The routine of the number is entered on an object.
pub fn enter(
    state: &mut State<'_>,
    current: Reference,
    routine: usize,
    origin: Origin,
    actuals: &[Value],
) -> Result<(), AllocError>
    ensures ok { OnOk result (state_of state.new ≡ entered current routine origin actuals.now (state_of state.old)) }
    ensures err { OnErr result (state_of state.new ≡ state_of state.old) }
{
    let Some(code) = routine_at(state.program, routine) else {
        fail(state, Cause::BadCode);
        return Ok(());
    };
    if actuals.len() != code.formals {
        fail(state, Cause::BadCode);
        return Ok(());
    }
    if state.stack.height() >= MAX_FRAMES {
        fail(state, Cause::StackFull);
        return Ok(());
    }
    state
        .stack
        .enter(state.alloc, current, routine, code, origin, actuals)
}

/// The topmost routine calls that of the number on an object.
#[inline(always)]
pub fn call(
    state: &mut State<'_>,
    current: Reference,
    routine: usize,
    call: OwnCall,
) -> Result<(), AllocError>
    requires caller { 0 < length state.old.stack }
    requires actuals { call.actuals ≤ length (top_operands state.old.stack) }
    ensures ok { OnOk result (state_of state.new ≡ calls current routine call (state_of state.old)) }
    ensures err { OnErr result (state_of state.new ≡ state_of state.old) }
{
    let Some(code) = routine_at(state.program, routine) else {
        fail(state, Cause::BadCode);
        return Ok(());
    };
    if call.actuals != code.formals {
        fail(state, Cause::BadCode);
        return Ok(());
    }
    if state.stack.height() >= MAX_FRAMES {
        overflow(state, call);
        return Ok(());
    }
    call_code(state, current, routine, code, call)
}

/// Calls a routine whose code is at hand and that takes this number of actuals, if the stack isn't full.
#[inline(always)]
pub fn call_code(
    state: &mut State<'_>,
    current: Reference,
    routine: usize,
    code: &RoutineCode,
    call: OwnCall,
) -> Result<(), AllocError>
    requires caller { 0 < length state.old.stack }
    requires actuals { call.actuals ≤ length (top_operands state.old.stack) }
    requires code { routine_at state.old.program.now.image routine ≡ Some code.now }
    requires formals { call.actuals ≡ code.now.formals }
    requires room { length state.old.stack < max_frames }
    ensures ok { OnOk result (state_of state.new ≡ calls current routine call (state_of state.old)) }
    ensures err { OnErr result (state_of state.new ≡ state_of state.old) }
{
    state.stack.call(state.alloc, current, routine, code, call)
}

/// The stack is full: the topmost routine fails in its call, not at it.
#[inline(never)]
fn overflow(state: &mut State<'_>, call: OwnCall)
    ensures { state_of state.new ≡ failed cause.StackFull (state_of state.old) }
{
    if let Some(activation) = state.stack.top_mut() {
        activation.suspend(call.operands, call.gives);
    }
    fail(state, Cause::StackFull);
}

/// The topmost frame goes, and the one below it is the topmost now.
#[inline(always)]
pub fn leave(state: &mut State<'_>)
    ensures { state_of state.new ≡ left (state_of state.old) }
{
    let Some(current) = state.stack.pop() else {
        return;
    };
    let number = current.number as usize;
    if !is_on_top(state, number) {
        settle_exited(state, number);
    }
}

/// Settles the object of a routine that has exited, as [`settle`] does: a failure names that routine.
#[inline(never)]
fn settle_exited(state: &mut State<'_>, number: usize)
    ensures { state_of state.new ≡ settled number (state_of state.old) }
{
    let height = state.stack.height();
    settle(state, number);
    if state.failure.is_some() {
        // what has exited still stands over the frames that there were below it
        state.breakdown.point = state.stack.over(height).map(point_of);
    }
}

// ---- new objects

fn add_object(state: &mut State<'_>, class: ClassNumber) -> Result<(), AllocError>
    ensures ok { OnOk result (state_of state.new ≡ with_new class (state_of state.old)) }
    ensures err { OnErr result (state_of state.new ≡ state_of state.old) }
{
    let object = Object::fresh(state.alloc, state.program, class)?;
    state.objects.push(object)?;
    Ok(())
}

/// An object is made by a request, without a procedure.
pub fn bear(state: &mut State<'_>, class: ClassNumber) -> Result<(), AllocError>
    ensures ok { OnOk result (state_of state.new ≡ born class (state_of state.old)) }
    ensures err { OnErr result (state_of state.new ≡ state_of state.old) }
{
    add_object(state, class)?;
    let number = state.objects.len();
    settle(state, number);
    Ok(())
}

/// An object is made, and its procedure entered on the object that is named.
pub fn bear_for(
    state: &mut State<'_>,
    current: Reference,
    routine: usize,
    origin: Origin,
    actuals: &[Value],
) -> Result<(), AllocError>
    ensures ok { OnOk result (state_of state.new ≡ born_for current routine origin actuals.now (state_of state.old)) }
    ensures err { OnErr result (state_of state.new ≡ state_of state.old) }
{
    add_object(state, current.class)?;
    if enter(state, current, routine, origin, actuals).is_err() {
        state.objects.pop();
        return Err(AllocError);
    }
    let number = state.objects.len();
    settle(state, number);
    Ok(())
}

/// An object is made by a routine of this handler, without a procedure.
pub fn make(state: &mut State<'_>, class: ClassNumber) -> Result<(), AllocError>
    ensures ok { OnOk result (state_of state.new ≡ made class (state_of state.old)) }
    ensures err { OnErr result (state_of state.new ≡ state_of state.old) }
{
    if state.objects.len() >= MAX_OBJECTS {
        fail(state, Cause::TooManyObjects);
        return Ok(());
    }
    bear(state, class)
}

/// An object is made by a routine of this handler, and its procedure entered on it.
pub fn make_for(
    state: &mut State<'_>,
    handler: HandlerNumber,
    class: ClassNumber,
    routine: usize,
    actuals: &[Value],
) -> Result<(), AllocError>
    ensures ok { OnOk result (state_of state.new ≡ made_for handler class routine actuals.now (state_of state.old)) }
    ensures err { OnErr result (state_of state.new ≡ state_of state.old) }
{
    let count = state.objects.len();
    if count >= MAX_OBJECTS {
        fail(state, Cause::TooManyObjects);
        return Ok(());
    }
    let number = count as ObjectNumber + 1;
    let current = Reference {
        handler,
        number,
        class,
    };
    bear_for(state, current, routine, Origin::Creation, actuals)
}

// ---- output

/// Bytes are added to the output.
pub fn print(state: &mut State<'_>, text: &[u8]) -> Result<(), AllocError>
    ensures ok { OnOk result (state_of state.new ≡ printed text.now (state_of state.old)) }
    ensures err { OnErr result (state_of state.new ≡ state_of state.old) }
{
    state.output.extend_from_slice(text)?;
    Ok(())
}
