//! Hashes of stores.

use sc_region::{Activation, ObjectNumber, Stage, Store, Value};
use std::hash::{FoldHasher, Hasher};

/// A hash of the store: of the objects, the topmost routine's place and values, and the length of the output. No
/// contract says which number it is.
pub fn hash_store(store: &Store<'_>) -> u64 {
    let mut hasher = FoldHasher::default();
    write_objects(&mut hasher, store);
    if let Some(activation) = store.top() {
        write_activation(&mut hasher, activation);
    }
    hasher.write_usize(store.output().len());
    hasher.write_u8(store.failure().is_some() as u8);
    hasher.finish()
}

fn write_objects(hasher: &mut FoldHasher, store: &Store<'_>) {
    for place in 0..store.object_count().min(MAX_OBJECTS) {
        let number = place as ObjectNumber + 1;
        hasher.write_u8(store.class_of(number).unwrap_or(0));
        for slot in 0..256 {
            let Some(value) = store.read(number, slot) else {
                break;
            };
            hasher.write_u64(value_word(value));
        }
    }
}

/// The most objects of a handler.
const MAX_OBJECTS: usize = 65_536;

fn write_activation(hasher: &mut FoldHasher, activation: &Activation) {
    hasher.write_usize(activation.routine);
    hasher.write_usize(activation.place);
    hasher.write_u64(stage_word(activation.stage));
    for value in activation.slots.iter() {
        hasher.write_u64(value_word(*value));
    }
    hasher.write_u64(option_word(activation.result));
    hasher.write_u64(option_word(activation.operands.last()));
    for handler in activation.reserved.as_slice() {
        hasher.write_u16(*handler);
    }
}

// ---- words

fn stage_word(stage: Stage) -> u64 {
    match stage {
        Stage::Runs => 0,
        Stage::Reserves => 1,
        Stage::ReservesBlock => 2,
        Stage::InCall { gives: _ } => 3,
        Stage::Awaits {
            supplier,
            gives: _,
            is_creation: _,
        } => 4 | (supplier as u64) << 8,
    }
}

fn option_word(value: Option<Value>) -> u64 {
    match value {
        Some(value) => value_word(value).rotate_left(8),
        None => 1,
    }
}

fn value_word(value: Value) -> u64 {
    match value {
        Value::Integer(integer) => integer.cast_unsigned(),
        Value::Boolean(boolean) => 1 << 62 | boolean as u64,
        Value::Void => 3 << 62,
        Value::Attached(reference) => {
            let number = reference.number as u64;
            1 << 63 | number | (reference.handler as u64) << 32
        }
    }
}
