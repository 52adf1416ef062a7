//! The store of a handler.
ghost use Rattle.std.specs.Prelude.{◌≡◌, ◌<◌, ◌≤◌, ◌↔◌, ◌&&◌, IfNone, IfOk, IfSome, OnOk, OnErr, IsTrue, Some, is_some, length, nat_lt, not};
ghost use Rattle.sc_region.specs.Calls.{calls, top_operands};
ghost use Rattle.sc_region.specs.Objects.{PlainObject, object_numbered, attribute_of};
ghost use Rattle.sc_region.specs.Classes.{MeetsAt, routine_at};
ghost use Rattle.sc_region.specs.Stores.{AreSame, SettledObjectsMeet, new_store, is_settled, failed, written, entered, left, born, born_for, made, made_for, max_frames, printed};
ghost use Rattle.sc_region.specs.declared.frame.Origin.TheVariants as origin;

use crate::breakdown::Breakdown;
use crate::frame::{Activation, Origin, OwnCall};
use crate::object::Objects;
use crate::stack::Stack;
use crate::state::{self, MAX_FRAMES, State};
use crate::value::{ObjectNumber, Reference, Value};
use sc_code::{ClassNumber, Program, RoutineCode};
use sc_lockpass::HandlerNumber;
use sc_model::Cause;
use std::alloc::{AllocError, Global};
use std::marker::Model;

/// The store of a handler: its objects, its frames, the topmost first, its output, and the failure that it has ended
/// in.
///
/// Each settled object meets its class invariant: one that no frame has as Current, as long as the store hasn't ended
/// in a failure. There may be 65,536 objects and 1,024 frames. An object takes 32 bytes and 16 for each attribute; a
/// frame takes 220 bytes, 16 for each slot, for each `old` and for each operand that its routine may have at once,
/// and 40 for each separate block. A frame stays at its place until its routine exits, so that a call moves nothing
/// but its actuals; its memory serves later ones, so that calls take no memory once the stack has been as high.
#[derive(Drop)]
pub struct Store<'p> {
    state: State<'p>,
}

impl<'p> Model for Store<'p> {
    ghost use Rattle.std.specs.Coded.{codes};
    ghost use Rattle.sc_formula.specs.contracts.formula.Formula as formula;
    ghost use Rattle.sc_formula.specs.contracts.term.Term as term;
    ghost use Rattle.sc_region.specs.Stores as m;

    ghost Value = { m.PlainStore };

    ghost coded = { Prim.hlevel (codes, term.the_row.coded, formula.the_row.coded) };

    ghost use Rattle.sc_region.specs.States.{state_of};

    ghost view = { λ s. state_of s.state };

    ghost invariant = { λ s. m.SettledObjectsMeet (state_of s.state) };
}

impl<'p> Store<'p> {
    ghost use Rattle.std.specs.Option.{option_map};
    ghost use Rattle.std.specs.Borrow.{sem};
    ghost use Rattle.sc_region.specs.Frames.{activation_of, top_current, top_activation};
    ghost use Rattle.sc_region.specs.Lending.{KeepsCurrents, LendsTop, Ran, current_object};

    /// A store of a program, with no objects and no frames. What grows later takes its memory from this allocator.
    pub fn new(alloc: Global, program: &'p Program) -> Store<'p>
        ensures { result ≡ new_store program.now.image }
    {
        Store {
            state: State {
                alloc,
                program,
                objects: Objects::new(alloc),
                stack: Stack::new(alloc),
                output: Vec::new(alloc),
                failure: None,
                breakdown: Breakdown::none(),
            },
        }
    }

    /// A copy, which takes its memory from this allocator.
    ///
    /// # Errors
    /// Memory ran out.
    pub fn copy(&self, alloc: Global) -> Result<Store<'p>, AllocError>
        ensures { IfOk result (λ store. store ≡ self.now) }
    {
        let state = state::copy(&self.state, alloc)?;
        Ok(Store { state })
    }

    /// The program that the store is of.
    #[inline(always)]
    pub fn program(&self) -> &'p Program
        ensures { result.now.image ≡ self.now.program }
    {
        self.state.program
    }

    /// The allocator that what grows takes its memory from.
    #[inline(always)]
    pub fn alloc(&self) -> Global {
        self.state.alloc
    }

    /// The number of the class of an object, or None if there is no object. It takes constant time.
    #[inline(always)]
    pub fn class_of(&self, number: ObjectNumber) -> Option<ClassNumber>
        ensures { result ≡ option_map (λ (o : PlainObject). o.class) (object_numbered number self.now.objects) }
    {
        self.state.objects.class_of(number as usize)
    }

    /// How many objects there are. It takes constant time.
    pub fn object_count(&self) -> usize
        ensures { result ≡ length self.now.objects }
    {
        self.state.objects.len()
    }

    /// The attribute with the number `slot` of an object, or None if there is none. It takes constant time.
    #[inline(always)]
    pub fn read(&self, number: ObjectNumber, slot: usize) -> Option<Value>
        ensures { result ≡ attribute_of number slot self.now.objects }
    {
        self.state.objects.read(number as usize, slot)
    }

    /// Writes the value to the attribute with the number `slot` of Current. If there is no frame, or Current has no
    /// such attribute, nothing changes. It takes constant time.
    pub fn write_current(&mut self, slot: usize, value: Value)
        ensures { self.new ≡ written slot value self.old }
    {
        state::write_current(&mut self.state, slot, value);
    }

    /// Makes an object for a request that names no procedure: F1 if it breaks its invariant. Its error says that
    /// memory ran out, and nothing has changed then.
    pub fn birth(&mut self, class: ClassNumber) -> Result<(), AllocError>
        ensures ok { OnOk result (self.new ≡ born class self.old) }
        ensures err { OnErr result (self.new ≡ self.old) }
    {
        state::bear(&mut self.state, class)
    }

    /// Makes an object of the class of `target` for a request, and enters its procedure on `target`, with these
    /// actuals: F16 if there is no such routine, or it has another number of formals; F11 if the stack is full; F1 if
    /// an object that is settled now breaks its invariant. Its error says that memory ran out, and nothing has
    /// changed then.
    pub fn birth_with(
        &mut self,
        target: Reference,
        routine: usize,
        actuals: &[Value],
    ) -> Result<(), AllocError>
        ensures ok { OnOk result (self.new ≡ born_for target routine origin.RequestedCreation actuals.now self.old) }
        ensures err { OnErr result (self.new ≡ self.old) }
    {
        state::bear_for(
            &mut self.state,
            target,
            routine,
            Origin::RequestedCreation,
            actuals,
        )
    }

    /// Makes an object for a routine of this handler, without a procedure: F10 if the handler has as many objects as
    /// it may; F1 if it breaks its invariant. Its error says that memory ran out, and nothing has changed then.
    pub fn make_object(&mut self, class: ClassNumber) -> Result<(), AllocError>
        ensures ok { OnOk result (self.new ≡ made class self.old) }
        ensures err { OnErr result (self.new ≡ self.old) }
    {
        state::make(&mut self.state, class)
    }

    /// Makes an object for a routine of this handler, whose number is `handler`, and enters its procedure on it: F10
    /// if the handler has as many objects as it may; F16 and F11 as in `push`. Its error says that memory ran out,
    /// and nothing has changed then.
    pub fn make_object_with(
        &mut self,
        handler: HandlerNumber,
        class: ClassNumber,
        routine: usize,
        actuals: &[Value],
    ) -> Result<(), AllocError>
        ensures ok { OnOk result (self.new ≡ made_for handler class routine actuals.now self.old) }
        ensures err { OnErr result (self.new ≡ self.old) }
    {
        state::make_for(&mut self.state, handler, class, routine, actuals)
    }

    /// Enters a routine on an object, with these actuals, and all memory that its operands will need: F16 if there is
    /// no such routine, or it has another number of formals; F11 if the stack is full. Its error says that memory ran
    /// out, and nothing has changed then.
    pub fn push(
        &mut self,
        current: Reference,
        routine: usize,
        origin: Origin,
        actuals: &[Value],
    ) -> Result<(), AllocError>
        ensures ok { OnOk result (self.new ≡ entered current routine origin actuals.now self.old) }
        ensures err { OnErr result (self.new ≡ self.old) }
    {
        state::enter(&mut self.state, current, routine, origin, actuals)
    }

    /// Calls the routine with the number on an object from the topmost one: its last operands are the actuals, in
    /// place. F16 if there is no such routine, or it has another number of formals; F11 if the stack is full. Its
    /// error says that memory ran out, and nothing has changed then.
    #[inline(always)]
    pub fn call(
        &mut self,
        current: Reference,
        routine: usize,
        call: OwnCall,
    ) -> Result<(), AllocError>
        requires caller { 0 < length self.old.frames }
        requires actuals { call.actuals ≤ length (top_operands self.old.frames) }
        ensures ok { OnOk result (self.new ≡ calls current routine call self.old) }
        ensures err { OnErr result (self.new ≡ self.old) }
    {
        state::call(&mut self.state, current, routine, call)
    }

    /// Calls a routine whose code is at hand and that takes this number of actuals, if the stack isn't full.
    #[inline(always)]
    pub fn call_code(
        &mut self,
        current: Reference,
        routine: usize,
        code: &RoutineCode,
        call: OwnCall,
    ) -> Result<(), AllocError>
        requires caller { 0 < length self.old.frames }
        requires actuals { call.actuals ≤ length (top_operands self.old.frames) }
        requires code { routine_at self.old.program routine ≡ Some code.now }
        requires formals { call.actuals ≡ code.now.formals }
        requires room { length self.old.frames < max_frames }
        ensures ok { OnOk result (self.new ≡ calls current routine call self.old) }
        ensures err { OnErr result (self.new ≡ self.old) }
    {
        state::call_code(&mut self.state, current, routine, code, call)
    }

    /// Whether there are as many frames as there may be.
    #[inline(always)]
    pub fn is_full(&self) -> bool
        ensures { result ≡ not (nat_lt (length self.now.frames) max_frames) }
    {
        self.state.stack.height() >= MAX_FRAMES
    }

    /// Removes the topmost frame, if there is one: F1 if its object is settled now and breaks its invariant.
    #[inline(always)]
    pub fn pop(&mut self)
        ensures { self.new ≡ left self.old }
    {
        state::leave(&mut self.state);
    }

    /// Removes the topmost frame, whose object meets its class invariant and isn't tested again.
    #[inline(always)]
    pub fn pop_in_order(&mut self)
        requires { MeetsAt self.old.program (current_object self.old) }
        ensures { self.new ≡ left self.old }
    {
        self.state.stack.pop();
    }

    /// Adds bytes to the output. Its error says that memory ran out, and nothing has changed then.
    pub fn print(&mut self, text: &[u8]) -> Result<(), AllocError>
        ensures ok { OnOk result (self.new ≡ printed text.now self.old) }
        ensures err { OnErr result (self.new ≡ self.old) }
    {
        state::print(&mut self.state, text)
    }

    /// The store ends in a failure: its frames are dropped, its objects and its output stay.
    pub fn fail(&mut self, why: Cause)
        ensures { self.new ≡ failed why self.old }
    {
        state::fail(&mut self.state, why);
    }

    /// Whether there is an object of the number, and it is settled: the store hasn't ended in a failure, and no frame
    /// has it as Current. It meets its class invariant then. Looks at each frame at most once.
    pub fn settled(&self, number: ObjectNumber) -> bool
        ensures settled { result ≡ (is_settled number self.now && is_some (object_numbered number self.now.objects)) }
        ensures meets { IsTrue result → MeetsAt self.now.program (object_numbered number self.now.objects) }
    {
        let number = number as usize;
        self.state.objects.get(number).is_some() && state::is_settled(&self.state, number)
    }

    /// Each settled object of a store meets its class invariant. The type keeps it, so nothing is done.
    pub fn settled_objects_meet(&self)
        ensures { SettledObjectsMeet self.now }
    {
        let _ = &self.state;
    }

    /// Whether there is an object of the number, and it meets its class invariant.
    #[inline(always)]
    pub fn test_invariant(&self, number: ObjectNumber) -> bool
        ensures { IsTrue result ↔ MeetsAt self.now.program (object_numbered number self.now.objects) }
    {
        state::object_meets(&self.state, number as usize)
    }

    /// The object on which the topmost routine runs, if there is a frame.
    #[inline(always)]
    pub fn current(&self) -> Option<Reference>
        ensures { result ≡ top_current self.now.frames }
    {
        self.state.stack.current()
    }

    /// The activation of the topmost routine, if there is a frame.
    #[inline(always)]
    pub fn top(&self) -> Option<&Activation>
        ensures { option_map (λ activation. activation_of activation.now) result ≡ top_activation self.now.frames }
    {
        self.state.stack.top()
    }

    /// The activation of the routine below `count` others, if there is one, to be shown to people. It has no
    /// contract: no turn depends on it.
    pub fn under(&self, count: usize) -> Option<&Activation> {
        self.state.stack.under(count)
    }

    /// The activation of the topmost routine, to be changed.
    #[inline(always)]
    pub fn top_mut(&mut self) -> Option<&mut Activation>
        ensures* writes_back { sem 𝓛 (LendsTop self.entry result) }
        ensures value { option_map (λ activation. activation_of activation.now) result ≡ top_activation self.old.frames }
    {
        self.state.stack.top_mut()
    }

    /// Lends the stack and the attributes of Current at once, if there is a frame and Current exists: returns the
    /// function's result. The function changes no object that a frame has as Current for another.
    #[inline(always)]
    pub fn with_current<R, F: FnOnce(&mut Stack, &mut [Value]) -> R>(&mut self, run: F) -> Option<R>
        requires callable { F.IsAlwaysCallable run }
        requires keeps { KeepsCurrents F.FnOnce run self.old }
        ensures there { is_some result ≡ is_some (current_object self.old) }
        ensures some { IfSome result (λ r. Ran F.FnOnce run self.old r self.new) }
        ensures none { IfNone result (self.new ≡ self.old) }
    {
        let state = &mut self.state;
        let current = state.stack.current()?;
        let object = state.objects.get_mut(current.number as usize)?;
        Some(run(&mut state.stack, &mut object.attributes))
    }

    /// What was printed.
    pub fn output(&self) -> &[u8]
        ensures { result.now ≡ self.now.output }
    {
        self.state.output.as_slice()
    }

    /// The output alone: the rest of the store is dropped. It takes no memory.
    pub fn into_output(self) -> Vec<u8>
        ensures { result.items ≡ self.entry.output }
    {
        self.state.output
    }

    /// The failure that the store has ended in.
    #[inline(always)]
    pub fn failure(&self) -> Option<Cause>
        ensures { result ≡ self.now.failure }
    {
        self.state.failure
    }

    /// Whether two stores hold equal objects, frames, output and failure, whatever their programs are. It looks at
    /// each at most once.
    pub fn is_same(&self, other: &Store<'_>) -> bool
        ensures { IsTrue result ↔ AreSame self.now other.now }
    {
        self.state.objects.is_same(&other.state.objects)
            && self.state.stack.is_same(&other.state.stack)
            && self.state.output.as_slice() == other.state.output.as_slice()
            && self.state.failure == other.state.failure
    }

    /// Where the store was as it ended in a failure, or else is now, to be shown to people. It has no contract: no
    /// turn depends on it.
    pub fn breakdown(&self) -> Breakdown {
        state::breakdown(&self.state)
    }
}
