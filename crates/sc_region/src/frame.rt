//! The activation of a frame's routine.
ghost use Rattle.std.specs.Prelude.{◌≡◌, ◌≤◌, ◌+◌, ◌++◌, ◌-◌, [], IfOk, IsTrue, OnOk, length, replicate, vec_capacity, vec_len};
ghost use Rattle.sc_region.specs.Calls.{BeginsPlainly, in_call};
ghost use Rattle.sc_region.specs.Stores.{beginning};
ghost use Rattle.sc_region.specs.declared.value.Value.TheVariants.{Void};
ghost use Rattle.sc_region.specs.Frames.{activation_of};

use crate::operands::{Olds, Operands, add_voids, empty_for};
use crate::value::Value;
use arrayvec::ArrayVec;
use sc_code::RoutineCode;
use sc_lockpass::HandlerNumber;
use std::alloc::{AllocError, Global};

/// What began a routine.
#[derive(Clone, Copy, Debug, PartialEq, Eq)]
pub enum Origin {
    /// A call without a target, on Current.
    Unqualified,
    /// A call on an object of the same handler.
    Qualified,
    /// The creation of an object of the same handler.
    Creation,
    /// A request for a feature.
    Requested,
    /// A request to create an object.
    RequestedCreation,
}

/// What a frame does in its next turn.
#[derive(Clone, Copy, Debug, PartialEq, Eq)]
pub enum Stage {
    /// It goes on.
    Runs,
    /// It reserves the handlers of its formals.
    Reserves,
    /// It reserves the handlers of a separate block's names.
    ReservesBlock,
    /// It is in a call on its own handler, which gives a value or none.
    InCall {
        gives: bool,
    },
    /// It waits for the answer of a supplier, which gives a value or none, perhaps to a creation.
    Awaits {
        supplier: HandlerNumber,
        gives: bool,
        is_creation: bool,
    },
}

/// How a routine calls another one of the same handler.
#[derive(Clone, Copy)]
pub struct OwnCall {
    pub origin: Origin,
    /// How many of the last operands are the actuals.
    pub actuals: usize,
    /// How many operands the call takes, with a target that lies under the actuals.
    pub operands: usize,
    /// Whether the call gives a value.
    pub gives: bool,
}

/// The part of a frame that its routine's turns change: the next operation, and the values of entities and operands.
#[derive(Drop)]
pub struct Activation {
    /// The routine's number.
    pub routine: usize,
    pub origin: Origin,
    pub stage: Stage,
    /// The place of its next instruction.
    pub place: usize,
    /// The values of its formals and locals, and of names of object tests and separate blocks.
    pub slots: Vec<Value>,
    /// Its Result, if it is a function.
    pub result: Option<Value>,
    pub olds: Olds,
    pub operands: Operands,
    /// The handlers that its entry newly reserved.
    pub reserved: ArrayVec<HandlerNumber, 16>,
    /// The handlers that each of its open separate blocks newly reserved, the innermost last.
    pub blocks: Vec<ArrayVec<HandlerNumber, 16>>,
}

impl Activation {
    /// No routine, and no memory.
    pub(crate) fn empty(alloc: Global) -> Activation {
        Activation {
            routine: 0,
            origin: Origin::Unqualified,
            stage: Stage::Runs,
            place: 0,
            slots: Vec::new(alloc),
            result: None,
            olds: Olds::empty(alloc),
            operands: Operands::empty(alloc),
            reserved: ArrayVec::new(),
            blocks: Vec::new(alloc),
        }
    }

    /// A copy. Its error says that memory ran out.
    pub(crate) fn copy(&self, alloc: Global) -> Result<Activation, AllocError>
        ensures { IfOk result (λ activation. activation_of activation ≡ activation_of self.now) }
    {
        Ok(Activation {
            routine: self.routine,
            origin: self.origin,
            stage: self.stage,
            place: self.place,
            slots: Vec::from_slice(alloc, &self.slots)?,
            result: self.result,
            olds: self.olds.copy(alloc)?,
            operands: self.operands.copy(alloc)?,
            reserved: copy_handlers(&self.reserved),
            blocks: copy_blocks(alloc, &self.blocks)?,
        })
    }

    /// Begins a routine in the memory of an earlier one, with all the memory that its operands will need. Its error
    /// says that memory ran out.
    #[inline(always)]
    pub(crate) fn begin(
        &mut self,
        routine: usize,
        code: &RoutineCode,
        origin: Origin,
        actuals: &[Value],
    ) -> Result<(), AllocError>
        ensures { OnOk result (activation_of self.new ≡ beginning routine code.now origin actuals.now) }
    {
        if self.has_place(code, actuals.len())
            && self.olds.reset_in_place(code.olds)
            && self.operands.reset_in_place(code.depth)
        {
            self.begin_in_place(routine, code, origin, actuals);
            Ok(())
        } else {
            self.begin_otherwise(routine, code, origin, actuals)
        }
    }

    /// Whether the routine takes this number of actuals and reserves nothing, and the earlier routine has reserved
    /// nothing and leaves memory for its slots.
    #[inline(always)]
    fn has_place(&self, code: &RoutineCode, actuals: usize) -> bool
        ensures begins { IsTrue result → BeginsPlainly code.now actuals (activation_of self.now) }
        ensures room { IsTrue result → code.now.slots ≤ vec_capacity self.now.slots }
    {
        actuals == code.formals
            && actuals <= code.slots
            && code.slots <= self.slots.capacity()
            && code.separate_formals.is_empty()
            && self.reserved.is_empty()
            && self.blocks.is_empty()
            && code.blocks <= self.blocks.capacity()
    }

    /// A routine begins in the memory of what stood here, whose operands and kept values are gone.
    #[inline(always)]
    fn begin_in_place(
        &mut self,
        routine: usize,
        code: &RoutineCode,
        origin: Origin,
        actuals: &[Value],
    )
        requires begins { BeginsPlainly code.now (length actuals.now) (activation_of self.old) }
        requires room { code.now.slots ≤ vec_capacity self.old.slots }
        requires olds { (activation_of self.old).olds ≡ record { room = code.now.olds; values = [] } }
        requires operands { (activation_of self.old).operands ≡ record { depth = code.now.depth; values = [] } }
        ensures { activation_of self.new ≡ beginning routine code.now origin actuals.now }
    {
        self.routine = routine;
        self.origin = origin;
        self.stage = Stage::Runs;
        self.place = 0;
        self.result = code.result.map(|(default, _)| Value::of_default(default));
        fit(&mut self.slots, code.slots);
        set_slots(&mut self.slots, actuals);
    }

    /// A routine begins, whatever stood here. (A call of its own: most routines begin in place.)
    #[inline(never)]
    fn begin_otherwise(
        &mut self,
        routine: usize,
        code: &RoutineCode,
        origin: Origin,
        actuals: &[Value],
    ) -> Result<(), AllocError>
        ensures { OnOk result (activation_of self.new ≡ beginning routine code.now origin actuals.now) }
    {
        self.routine = routine;
        self.origin = origin;
        self.stage = if code.separate_formals.is_empty() {
            Stage::Runs
        } else {
            Stage::Reserves
        };
        self.place = 0;
        self.result = code.result.map(|(default, _)| Value::of_default(default));
        self.reserved.clear();
        empty_blocks(&mut self.blocks, code.blocks)?;
        self.olds.reset(code.olds)?;
        self.operands.reset(code.depth)?;
        fill_slots(&mut self.slots, code, actuals)
    }

    /// Suspends the routine during a call that takes this number of operands.
    #[inline(always)]
    pub(crate) fn suspend(&mut self, operands: usize, gives: bool)
        ensures { activation_of self.new ≡ in_call operands gives (activation_of self.old) }
    {
        self.operands.drop_last(operands);
        self.place = self.place.saturating_add(1);
        self.stage = Stage::InCall { gives };
    }
}

/// Sets the number of slots, for which there is room; their values are any.
#[inline(always)]
fn fit(slots: &mut Vec<Value>, count: usize)
    requires { count ≤ vec_capacity slots.old }
    ensures { vec_len slots.new ≡ count }
{
    if slots.len() < count {
        let more = count - slots.len();
        add_voids(slots, more);
    } else {
        slots.truncate(count);
    }
}

/// Writes the actuals to the slots, and Void to the others.
#[inline(always)]
#[tactic(auto, using(crate::proofs::FilledSlots::copied, crate::proofs::FilledSlots::voided))]
fn set_slots(slots: &mut [Value], actuals: &[Value])
    requires { length actuals.now ≤ length slots.old }
    ensures { slots.new ≡ actuals.now ++ replicate (length slots.old - length actuals.now) Void }
{
    for place in 0..actuals.len() {
        slots[place] = actuals[place];
    }
    for other in actuals.len()..slots.len() {
        slots[other] = Value::Void;
    }
}

/// The slots of a routine that begins: the actuals, and Void in the others.
fn fill_slots(
    slots: &mut Vec<Value>,
    code: &RoutineCode,
    actuals: &[Value],
) -> Result<(), AllocError>
    ensures { OnOk result (slots.new.items ≡ actuals.now ++ replicate (code.now.slots - code.now.formals) Void) }
{
    let others = code.slots.saturating_sub(code.formals);
    let count = actuals.len().checked_add(others).ok_or(AllocError)?;
    empty_for(slots, count)?;
    add_actuals(slots, actuals);
    add_voids(slots, others);
    Ok(())
}

/// The actuals come into the first slots, for which there is room.
fn add_actuals(slots: &mut Vec<Value>, actuals: &[Value])
    requires { vec_len slots.old + length actuals.now ≤ vec_capacity slots.old }
    ensures items { slots.new.items ≡ slots.old.items ++ actuals.now }
    ensures capacity { vec_capacity slots.new ≡ vec_capacity slots.old }
{
    for actual in actuals {
        slots.push_reserved(*actual);
    }
}

/// Closes all blocks, and makes room for this number. Its error says that memory ran out.
fn empty_blocks(
    blocks: &mut Vec<ArrayVec<HandlerNumber, 16>>,
    count: usize,
) -> Result<(), AllocError>
    ensures { OnOk result (blocks.new.items ≡ []) }
{
    blocks.clear();
    if blocks.capacity() < count {
        grow_blocks(blocks, count)?;
    }
    Ok(())
}

/// Makes room for this number of blocks. Its error says that memory ran out. (A function of its own, since it is
/// seldom called.)
#[inline(never)]
fn grow_blocks(
    blocks: &mut Vec<ArrayVec<HandlerNumber, 16>>,
    count: usize,
) -> Result<(), AllocError>
    ensures { blocks.new.items ≡ blocks.old.items }
{
    blocks.reserve(count)
}

/// A copy of what blocks newly reserved. Its error says that memory ran out.
fn copy_blocks(
    alloc: Global,
    blocks: &[ArrayVec<HandlerNumber, 16>],
) -> Result<Vec<ArrayVec<HandlerNumber, 16>>, AllocError>
    ensures { IfOk result (λ copy. copy.items ≡ blocks.now) }
{
    let mut copy = Vec::with_capacity(alloc, blocks.len())?;
    for block in blocks {
        copy.push(copy_handlers(block))?;
    }
    Ok(copy)
}

/// A copy of the handlers.
fn copy_handlers(handlers: &ArrayVec<HandlerNumber, 16>) -> ArrayVec<HandlerNumber, 16>
    ensures { result ≡ handlers.now }
{
    let mut copy = ArrayVec::new();
    let _ = copy.try_extend_from_slice(handlers.as_slice());
    copy
}
