//! The operations of a routine, one by one.

use crate::evaluation::{Evaluation, Write};
use crate::operators::{binary_value, decided_by, unary_value};
use sc_code::{NameNumber, Operation};
use sc_region::Value;

impl Evaluation {
    /// Executes an operation that calls nothing. Returns whether the evaluation can go on.
    pub fn execute(&mut self, operation: Operation) -> bool {
        let value = match operation {
            Operation::PushInteger(value) => Value::Integer(value),
            Operation::PushBoolean(value) => Value::Boolean(value),
            Operation::PushVoid => Value::Void,
            Operation::PushCurrent => Value::Attached(self.frame.current),
            operation => return self.read_entity(operation),
        };
        self.push(value)
    }

    /// Executes an operation that isn't a constant. Returns whether the evaluation can go on.
    fn read_entity(&mut self, operation: Operation) -> bool {
        let value = match operation {
            Operation::PushResult { .. } => self.frame.result,
            Operation::PushSlot { slot, .. } => value_at(&self.values, self.frame.slots, slot),
            Operation::PushOld(number) => value_at(&self.olds, self.frame.olds, number),
            operation => return self.go_on(operation),
        };
        self.read(value)
    }

    /// Executes an operation that reads no entity of the routine. Returns whether the evaluation can go on.
    fn go_on(&mut self, operation: Operation) -> bool {
        match operation {
            Operation::Initialize { value, slot } => self.put(slot, Value::of_default(value)),
            Operation::Conclude => true,
            Operation::Jump(passed) => self.pass(passed),
            Operation::Start => !self.callers.is_empty(),
            Operation::Exit => self.exit(),
            operation => match self.values.pop() {
                Some(value) => self.take(operation, value),
                None => false,
            },
        }
    }

    /// Executes an operation with the operand that it takes. Returns whether the evaluation can go on.
    fn take(&mut self, operation: Operation, value: Value) -> bool {
        match (operation, value) {
            (Operation::ApplyUnary(operator), _) => self.give(unary_value(operator, value)),
            (Operation::ApplyBinary(operator), _) => match self.values.pop() {
                Some(left) => self.give(binary_value(operator, left, value)),
                None => false,
            },
            (Operation::Decide { operator, passed }, _) => match decided_by(operator, value) {
                Some(value) => self.push(value) && self.pass(passed),
                None => true,
            },
            (Operation::StoreSlot(slot), _) => self.put(slot, value),
            (Operation::StoreAttribute(name), _) => self.write(name, value),
            (Operation::StoreResult, _) => {
                self.frame.result = Some(value);
                true
            }
            (Operation::KeepOld, _) => self.keep(value),
            (_, Value::Boolean(holds)) => self.branch(operation, holds),
            _ => false,
        }
    }

    /// Executes an operation that takes a truth value. Returns whether the evaluation can go on.
    fn branch(&mut self, operation: Operation, holds: bool) -> bool {
        match operation {
            Operation::SkipIfFalse(passed) => holds || self.pass(passed),
            Operation::EndLoop(_) if holds => true,
            Operation::EndLoop(back) => {
                self.frame.place = self.frame.place.saturating_sub(1).saturating_sub(back);
                true
            }
            Operation::Demand(_) | Operation::Expect(_) => holds,
            _ => false,
        }
    }

    /// Skips this number of operations. Returns True.
    pub fn pass(&mut self, passed: usize) -> bool {
        self.frame.place = self.frame.place.saturating_add(passed);
        true
    }

    /// A slot of the routine gets a value: whether there is such a slot.
    fn put(&mut self, slot: usize, value: Value) -> bool {
        let place = self.frame.slots.saturating_add(slot);
        match self.values.get_mut(place) {
            Some(place) => {
                *place = value;
                true
            }
            None => false,
        }
    }

    /// An attribute of Current gets a value. Returns True.
    fn write(&mut self, name: NameNumber, value: Value) -> bool {
        let object = self.frame.current;
        if let Err(_) = self.writes.push(Write {
            object,
            name,
            value,
        }) {
            self.is_lacking = true
        }
        true
    }

    /// Tests whether the value that it takes is Void. If it isn't, it is written to this slot. Returns whether the
    /// evaluation can go on.
    pub fn test(&mut self, slot: usize) -> bool {
        match self.values.pop() {
            Some(Value::Void) => self.push(Value::Boolean(false)),
            Some(value) => self.put(slot, value) && self.push(Value::Boolean(true)),
            None => false,
        }
    }
}

/// The value at a number, from 0, of those from a place on.
fn value_at(values: &[Value], first: usize, number: usize) -> Option<Value> {
    values.get(first.saturating_add(number)).copied()
}
