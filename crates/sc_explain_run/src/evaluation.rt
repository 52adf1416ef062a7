//! The code of a routine, evaluated once more from its present place: without any effect, on the objects as they
//! are.

use crate::scene::Scene;
use sc_code::{CallSite, FeatureCode, NameNumber, ObjectTest, Operation, Program};
use sc_explain_text::Lines;
use sc_lockpass::HandlerNumber;
use sc_region::{Activation, Point, Reference, Value};
use sc_text::Span;
use std::alloc::Global;

/// How many operations are gone through at most.
const MOST_OPERATIONS: usize = 100_000;

/// How many routines are in the middle of their run at most.
const MOST_FRAMES: usize = 64;

/// The value of what was read or called by the operation at a place.
#[derive(Clone, Copy)]
pub struct Seen {
    pub place: usize,
    pub value: Value,
}

/// From where a routine is gone through.
#[derive(Clone, Copy)]
pub enum Start {
    /// From its present place. It takes this answer first, if one has come.
    Here(Option<Value>),
    /// From the operation at this place, before which nothing was read that is needed.
    Place(usize),
}

/// How far a routine is gone through, and what is said of it there.
#[derive(Clone, Copy)]
pub enum Goal {
    /// To the first clause of a precondition that is false: which one it is, and the values of what it names.
    FalseClause,
    /// To that, and since when a handler is held that the clause names.
    RefusedClause,
    /// To the operation at this place: the values of what this part of the text names.
    Place(usize, Span),
}

/// A routine in the middle of its run. Its slots and then its operands are some of the values of all routines.
#[derive(Clone, Copy)]
pub struct Frame {
    pub routine: usize,
    pub current: Reference,
    /// The place of its next operation.
    pub place: usize,
    /// How many values are left after its end.
    pub floor: usize,
    /// Where its slots begin.
    pub slots: usize,
    /// Where the values of before begin that its postcondition keeps.
    pub olds: usize,
    pub result: Option<Value>,
}

/// An attribute that got a value on the way.
#[derive(Clone, Copy)]
pub struct Write {
    pub object: Reference,
    pub name: NameNumber,
    pub value: Value,
}

/// A feature that is called on an object. The values from `floor` on are those that the call takes, and from `slots` on
/// the actuals.
#[derive(Clone, Copy)]
struct Call {
    object: Reference,
    name: NameNumber,
    floor: usize,
    slots: usize,
}

/// Routines that are gone through, without the objects that they read.
#[derive(Drop)]
pub struct Evaluation {
    /// The routine that runs.
    pub frame: Frame,
    /// Those that wait for it to end, the outermost first.
    pub callers: Vec<Frame>,
    /// The values of all routines, those of the outermost first.
    pub values: Vec<Value>,
    /// Those that routines keep for their postconditions.
    pub olds: Vec<Value>,
    /// What the outermost routine has read and called, as far as it is no object.
    pub seen: Vec<Seen>,
    pub writes: Vec<Write>,
    /// Whether memory was refused on the way.
    pub is_lacking: bool,
}

/// Evaluates the topmost routine of a handler from its start to a goal, and adds what is said of it there: nothing if
/// the handler has no routine, or the routine doesn't get there without asking other handlers. If memory is refused on
/// the way, the lines are incomplete.
pub fn push_evaluated(
    scene: &Scene<'_>,
    lines: &mut Lines,
    handler: HandlerNumber,
    start: Start,
    goal: Goal,
) {
    let Some(store) = scene.store(handler) else {
        return;
    };
    let (Some(top), Some(current)) = (store.top(), store.current()) else {
        return;
    };
    let Some(text) = scene.listing.text_of(top.routine) else {
        return;
    };
    let mut evaluation = Evaluation::of(lines.alloc(), top, current);
    evaluation.begin(scene.listing.program, top, start);
    if evaluation.reaches(scene, goal) {
        evaluation.tell(lines, scene.listing.source, text, goal);
        if let Goal::RefusedClause = goal {
            let Frame { routine, place, .. } = evaluation.frame;
            scene.push_held_since(lines, current.handler, Point { routine, place })
        }
    }
    if evaluation.is_lacking {
        lines.lack()
    }
}

impl Evaluation {
    /// Of the topmost routine of a handler, without any values.
    fn of(alloc: Global, top: &Activation, current: Reference) -> Evaluation {
        Evaluation {
            frame: Frame {
                routine: top.routine,
                current,
                place: top.place,
                floor: 0,
                slots: 0,
                olds: 0,
                result: top.result,
            },
            callers: Vec::new(alloc),
            values: Vec::new(alloc),
            olds: Vec::new(alloc),
            seen: Vec::new(alloc),
            writes: Vec::new(alloc),
            is_lacking: false,
        }
    }

    /// Puts the outermost routine at its start, with its values.
    fn begin(&mut self, program: &Program, top: &Activation, start: Start) {
        for slot in top.slots.iter() {
            self.push(*slot);
        }
        for number in 0..HandlerNumber::MAX {
            match top.olds.get(number as usize) {
                Some(value) => self.keep(value),
                None => break,
            };
        }
        match start {
            Start::Place(place) => self.frame.place = place,
            Start::Here(answer) => {
                let is_behind_call = match top.place.checked_sub(1) {
                    Some(place) => is_call(operation_at(program, top.routine, place)),
                    None => false,
                };
                self.take_operands(top, answer, is_behind_call)
            }
        }
    }

    /// The outermost routine gets its operands, and an answer that has come. If it is after a call, the last of them is
    /// the call's result.
    fn take_operands(&mut self, top: &Activation, answer: Option<Value>, is_behind_call: bool) {
        let mut last = None;
        for below in (0..top.operands.len()).rev() {
            last = top.operands.under(below);
            self.give(last);
        }
        if let Some(value) = answer {
            last = answer;
            self.push(value);
        }
        if let Some(value) = last
            && is_behind_call
        {
            self.note(value)
        }
    }

    /// Evaluates the outermost routine up to the goal. Returns whether it gets there.
    fn reaches(&mut self, scene: &Scene<'_>, goal: Goal) -> bool {
        for _operation in 0..MOST_OPERATIONS {
            let Frame { routine, place, .. } = self.frame;
            let operation = operation_at(scene.listing.program, routine, place);
            if self.is_at(goal, operation) {
                return true;
            }
            let Some(operation) = operation else {
                return false;
            };
            if self.is_lacking || !self.advance(scene, operation) {
                return false;
            }
        }
        false
    }

    /// Whether the outermost routine runs and is at the goal, before this operation.
    fn is_at(&self, goal: Goal, operation: Option<Operation>) -> bool {
        match (goal, operation, self.values.last()) {
            _ if !self.callers.is_empty() => false,
            (Goal::Place(goal, _), _, _) => self.frame.place == goal,
            (_, Some(Operation::Demand(_)), Some(Value::Boolean(holds))) => !*holds,
            _ => false,
        }
    }

    /// Executes the next operation, which is this one. Returns whether the evaluation can go on.
    fn advance(&mut self, scene: &Scene<'_>, operation: Operation) -> bool {
        let pool = scene.listing.program.pool();
        self.pass(1);
        match operation {
            Operation::PushAttribute { name, .. } => {
                let count = self.values.len();
                let object = self.frame.current;
                self.make(
                    scene,
                    Call {
                        object,
                        name,
                        floor: count,
                        slots: count,
                    },
                )
            }
            Operation::CallRoutine(number) | Operation::CallFeature(number) => {
                let has_target = matches!(operation, Operation::CallFeature(_));
                match self.call_of(pool.calls.get(number), has_target) {
                    Some(call) => self.make(scene, call),
                    None => false,
                }
            }
            Operation::Test(number) => match pool.tests.get(number) {
                Some(ObjectTest { tested: None, slot }) => self.test(*slot),
                _ => false,
            },
            operation => self.execute(operation),
        }
    }

    /// The call at a site, on a target or on Current, if there is one.
    fn call_of(&self, site: Option<&CallSite>, has_target: bool) -> Option<Call> {
        let Some(site) = site else {
            return None;
        };
        let name = site.name;
        let Some(slots) = self.values.len().checked_sub(site.count) else {
            return None;
        };
        if !has_target {
            let object = self.frame.current;
            return Some(Call {
                object,
                name,
                floor: slots,
                slots,
            });
        }
        if let Some(floor) = slots.checked_sub(1)
            && let Some(Value::Attached(object)) = self.values.get(floor).copied()
        {
            Some(Call {
                object,
                name,
                floor,
                slots,
            })
        } else {
            None
        }
    }

    /// Makes a call. Returns whether the evaluation can go on.
    fn make(&mut self, scene: &Scene<'_>, call: Call) -> bool {
        let Call { object, name, .. } = call;
        match scene.listing.feature_in(object.class as usize, name) {
            Some(FeatureCode::Attribute(number)) => {
                let value = self
                    .written_last(object, name)
                    .or(scene.stored(object, number));
                self.values.truncate(call.floor);
                self.read(value)
            }
            Some(FeatureCode::Routine(routine)) => match scene.listing.program.routine(routine) {
                Some(code) => {
                    let initial = match code.result {
                        Some((default, _)) => Some(Value::of_default(default)),
                        None => None,
                    };
                    self.enter(call, routine, code.slots, initial)
                }
                None => false,
            },
            None => false,
        }
    }

    /// What the attribute of this name of an object got on the way, if it got something.
    fn written_last(&self, object: Reference, name: NameNumber) -> Option<Value> {
        let mut value = None;
        for write in self.writes.iter() {
            if write.object == object && write.name == name {
                value = Some(write.value);
            }
        }
        value
    }

    /// Enters a routine with this number of slots, whose Result begins so. Returns whether the evaluation can go on.
    fn enter(&mut self, call: Call, routine: usize, slots: usize, initial: Option<Value>) -> bool {
        if let Err(_) = self.callers.push(self.frame) {
            self.is_lacking = true
        }
        self.frame = Frame {
            routine,
            current: call.object,
            place: 0,
            floor: call.floor,
            slots: call.slots,
            olds: self.olds.len(),
            result: initial,
        };
        for _slot in self.values.len()..call.slots.saturating_add(slots) {
            self.push(Value::Void);
        }
        self.callers.len() < MOST_FRAMES
    }

    /// Ends the routine, and gives its result to its caller. Returns whether there are both.
    pub fn exit(&mut self) -> bool {
        let ended = self.frame;
        match self.callers.pop() {
            Some(caller) => {
                self.values.truncate(ended.floor);
                self.olds.truncate(ended.olds);
                self.frame = caller;
                self.read(ended.result)
            }
            None => false,
        }
    }

    /// Notes what the operation before the present one has read or called, if the outermost routine did and it is no
    /// object.
    fn note(&mut self, value: Value) {
        let place = self.frame.place.saturating_sub(1);
        if let Value::Attached(_) = value {
            return;
        }
        if self.callers.is_empty()
            && let Err(_) = self.seen.push(Seen { place, value })
        {
            self.is_lacking = true
        }
    }

    /// Adds an operand. Returns True.
    pub fn push(&mut self, value: Value) -> bool {
        if let Err(_) = self.values.push(value) {
            self.is_lacking = true
        }
        true
    }

    /// Adds an operand, if there is one: whether there is.
    pub fn give(&mut self, value: Option<Value>) -> bool {
        match value {
            Some(value) => self.push(value),
            None => false,
        }
    }

    /// Adds an operand that was read or that a call gives, if there is one: whether there is.
    pub fn read(&mut self, value: Option<Value>) -> bool {
        match value {
            Some(value) => {
                self.note(value);
                self.push(value)
            }
            None => false,
        }
    }

    /// Keeps a value for an `old`. Returns True.
    pub fn keep(&mut self, value: Value) -> bool {
        if let Err(_) = self.olds.push(value) {
            self.is_lacking = true
        }
        true
    }
}

/// The operation at a place of a routine.
fn operation_at(program: &Program, routine: usize, place: usize) -> Option<Operation> {
    match program.routine(routine) {
        Some(routine) => routine.operations.get(place).copied(),
        None => None,
    }
}

/// Whether this is an operation that calls.
fn is_call(operation: Option<Operation>) -> bool {
    match operation {
        Some(Operation::CallFeature(_) | Operation::CallRoutine(_)) => true,
        _ => false,
    }
}
