//! The stack of a handler.
ghost use Rattle.std.specs.List.{list_any};
ghost use Rattle.std.specs.Option.{option_map};
ghost use Rattle.std.specs.Prelude.{◌≡◌, ◌<◌, ◌≤◌, ◌==◌, ◌↔◌, [], ◌∷◌, IfOk, IsTrue, OnOk, OnErr, drop, length, map, vec_capacity};
ghost use Rattle.sc_region.specs.Calls.{called_on, top_operands};
ghost use Rattle.sc_region.specs.Frames.{activation_of, frames_onto, is_current, top_activation, top_current};
ghost use Rattle.sc_region.specs.Stores.{entry};

use crate::equality::{same_activations, same_references};
use crate::frame::{Activation, Origin, OwnCall};
use crate::value::{Reference, Value};
use sc_code::RoutineCode;
use std::alloc::{AllocError, Global};
use std::marker::Model;

/// The frames of a handler: routines in the middle of their run. Each stays at its place until it exits.
#[derive(Drop)]
pub struct Stack {
    /// The object that each frame runs on, that of the topmost one last.
    currents: Vec<Reference>,
    /// The activation of each frame, in the same order. After them come those of routines that have exited: their
    /// memory serves the next ones.
    activations: Vec<Activation>,
}

impl Model for Stack {
    ghost use Rattle.std.specs.Prelude.{◌≤◌, List, [], length};
    ghost use Rattle.sc_region.specs.Frames as m;

    ghost Value = { List m.PlainFrame };

    ghost use Rattle.sc_region.specs.Frames.{frames_onto};

    ghost view = { λ stack. frames_onto stack.currents.items stack.activations.items [] };

    ghost invariant = { λ stack. length stack.currents.items ≤ length stack.activations.items };
}

impl Stack {
    ghost use Rattle.std.specs.Borrow.{sem};
    ghost use Rattle.sc_region.specs.Lending.{LendsTopOfStack};

    pub fn new(alloc: Global) -> Stack
        ensures { result ≡ [] }
    {
        Stack {
            currents: Vec::new(alloc),
            activations: Vec::new(alloc),
        }
    }

    /// A copy, without memory of routines that have exited. Its error says that memory ran out.
    pub fn copy(&self, alloc: Global) -> Result<Stack, AllocError>
        ensures { IfOk result (λ stack. stack ≡ self.now) }
    {
        let height = self.currents.len();
        Ok(Stack {
            currents: Vec::from_slice(alloc, &self.currents)?,
            activations: copy_activations(alloc, &self.activations[..height])?,
        })
    }

    /// How many frames there are.
    #[inline(always)]
    pub fn height(&self) -> usize
        ensures { result ≡ length self.now }
    {
        self.currents.len()
    }

    /// Enters a routine on an object. Its error says that memory ran out, and nothing has changed then.
    pub fn enter(
        &mut self,
        alloc: Global,
        current: Reference,
        routine: usize,
        code: &RoutineCode,
        origin: Origin,
        actuals: &[Value],
    ) -> Result<(), AllocError>
        ensures ok { OnOk result (self.new ≡ entry current routine code.now origin actuals.now ∷ self.old) }
        ensures err { OnErr result (self.new ≡ self.old) }
    {
        let place = place_above(&mut self.currents, &mut self.activations, alloc)?;
        self.activations[place].begin(routine, code, origin, actuals)?;
        self.currents.push_reserved(current);
        Ok(())
    }

    /// Calls a routine on an object from the topmost one. Its error says that memory ran out, and nothing has changed
    /// then.
    #[inline(always)]
    pub fn call(
        &mut self,
        alloc: Global,
        current: Reference,
        routine: usize,
        code: &RoutineCode,
        call: OwnCall,
    ) -> Result<(), AllocError>
        requires caller { 0 < length self.old }
        requires actuals { call.actuals ≤ length (top_operands self.old) }
        ensures ok { OnOk result (self.new ≡ called_on current routine code.now call self.old) }
        ensures err { OnErr result (self.new ≡ self.old) }
    {
        let place = place_above(&mut self.currents, &mut self.activations, alloc)?;
        let (frames, above) = self.activations.split_at_mut(place);
        let caller = &mut frames[place - 1];
        let actuals = caller.operands.last_values(call.actuals);
        above[0].begin(routine, code, call.origin, actuals)?;
        caller.suspend(call.operands, call.gives);
        self.currents.push_reserved(current);
        Ok(())
    }

    /// The topmost frame goes, if there is one: the object that it ran on.
    #[inline(always)]
    pub fn pop(&mut self) -> Option<Reference>
        ensures current { result ≡ top_current self.old }
        ensures below { self.new ≡ drop 1 self.old }
    {
        self.currents.pop()
    }

    /// All frames go.
    pub fn clear(&mut self)
        ensures { self.new ≡ [] }
    {
        self.currents.clear();
    }

    /// Whether one of the frames has the object of the number as Current.
    pub fn have_current(&self, number: usize) -> bool
        ensures { result ≡ is_current number self.now }
    {
        any_is(&self.currents, number)
    }

    /// The object that the topmost frame runs on, if there is one.
    #[inline(always)]
    pub fn current(&self) -> Option<Reference>
        ensures { result ≡ top_current self.now }
    {
        self.currents.last().copied()
    }

    /// The object that the frame under the topmost one runs on, if there is one.
    #[inline(always)]
    pub fn below(&self) -> Option<Reference>
        ensures { result ≡ top_current (drop 1 self.now) }
    {
        let height = self.currents.len();
        if height < 2 {
            None
        } else {
            Some(self.currents[height - 2])
        }
    }

    /// The activation of the topmost frame, if there is one.
    #[inline(always)]
    pub fn top(&self) -> Option<&Activation>
        ensures { option_map (λ activation. activation_of activation.now) result ≡ top_activation self.now }
    {
        self.activations.get(self.currents.len().wrapping_sub(1))
    }

    /// The activation of the frame below `count` others, if there is one, to be shown to people. It has no contract:
    /// no turn depends on it.
    pub fn under(&self, count: usize) -> Option<&Activation> {
        let place = self.currents.len().checked_sub(count)?;
        self.activations.get(place.checked_sub(1)?)
    }

    /// The activation of the topmost frame, to be changed.
    #[inline(always)]
    pub fn top_mut(&mut self) -> Option<&mut Activation>
        ensures* writes_back { sem 𝓛 (LendsTopOfStack self.entry result) }
        ensures value { option_map (λ activation. activation_of activation.now) result ≡ top_activation self.old }
    {
        let place = self.currents.len().wrapping_sub(1);
        self.activations.get_mut(place)
    }

    /// The activation of the frame above `height` others, also if it has exited, to be shown to people.
    pub fn over(&self, height: usize) -> Option<&Activation> {
        self.activations.get(height)
    }

    /// Whether the frames are equal. Memory of routines that have exited makes no difference.
    pub fn is_same(&self, other: &Stack) -> bool
        ensures { IsTrue result ↔ self.now ≡ other.now }
    {
        let height = self.currents.len();
        let other_height = other.currents.len();
        same_references(&self.currents, &other.currents)
            && same_activations(
                &self.activations[..height],
                &other.activations[..other_height],
            )
    }
}

/// The place above the topmost frame, if there is room for one more, and for an object. Its error says that memory
/// ran out.
#[inline(always)]
fn place_above(
    currents: &mut Vec<Reference>,
    activations: &mut Vec<Activation>,
    alloc: Global,
) -> Result<usize, AllocError>
    requires { length currents.old.items ≤ length activations.old.items }
    ensures place { IfOk result (λ place. place ≡ length currents.old.items) }
    ensures above { IfOk result (λ place. place < length activations.new.items) }
    ensures room { IfOk result (λ place. place < vec_capacity currents.new) }
    ensures currents { currents.new.items ≡ currents.old.items }
    ensures frames { frames_onto currents.old.items activations.new.items [] ≡ frames_onto currents.old.items activations.old.items [] }
    ensures fit { length currents.old.items ≤ length activations.new.items }
{
    let place = currents.len();
    if place == currents.capacity() || place == activations.len() {
        add_place(currents, activations, alloc)?;
    }
    Ok(place)
}

/// Makes room for one more object, and a place for its routine if there is none above the frames. Its error says that
/// memory ran out. (A function of its own, since it is called only if the stack is higher than ever before.)
#[inline(never)]
fn add_place(
    currents: &mut Vec<Reference>,
    activations: &mut Vec<Activation>,
    alloc: Global,
) -> Result<(), AllocError>
    requires { length currents.old.items ≤ length activations.old.items }
    ensures above { OnOk result (length currents.old.items < length activations.new.items) }
    ensures room { OnOk result (length currents.old.items < vec_capacity currents.new) }
    ensures currents { currents.new.items ≡ currents.old.items }
    ensures frames { frames_onto currents.old.items activations.new.items [] ≡ frames_onto currents.old.items activations.old.items [] }
    ensures fit { length currents.old.items ≤ length activations.new.items }
{
    currents.reserve(1)?;
    if currents.len() == activations.len() {
        activations.push(Activation::empty(alloc))?;
    }
    Ok(())
}

/// Whether one of the objects has the number.
fn any_is(currents: &[Reference], number: usize) -> bool
    ensures { result ≡ list_any (λ current. current.number == number) currents.now }
{
    currents
        .iter()
        .any(|current| current.number as usize == number)
}

/// Copies of the activations. Its error says that memory ran out.
fn copy_activations(
    alloc: Global,
    activations: &[Activation],
) -> Result<Vec<Activation>, AllocError>
    ensures { IfOk result (λ copy. map activation_of copy.items ≡ map activation_of activations.now) }
{
    let mut copy = Vec::with_capacity(alloc, activations.len())?;
    for activation in activations {
        copy.push(activation.copy(alloc)?)?;
    }
    Ok(copy)
}
