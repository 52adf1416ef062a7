//! Whether the objects of two stores, and the routines of their frames, are equal.
ghost use Rattle.std.specs.Prelude.{◌≡◌, ◌↔◌, IsTrue, map};
ghost use Rattle.sc_region.specs.Frames.{activation_of};
ghost use Rattle.sc_region.specs.Objects.{object_of};

use crate::frame::Activation;
use crate::object::Object;
use crate::value::{Reference, Value};
use arrayvec::ArrayVec;
use sc_lockpass::HandlerNumber;

/// Whether two lists have equal values.
pub(crate) fn same_values(values: &[Value], others: &[Value]) -> bool
    ensures { IsTrue result ↔ values.now ≡ others.now }
{
    values == others
}

/// Whether two lists have equal references.
pub(crate) fn same_references(references: &[Reference], others: &[Reference]) -> bool
    ensures { IsTrue result ↔ references.now ≡ others.now }
{
    references == others
}

fn same_handlers(
    handlers: &ArrayVec<HandlerNumber, 16>,
    others: &ArrayVec<HandlerNumber, 16>,
) -> bool
    ensures { IsTrue result ↔ handlers.now.items ≡ others.now.items }
{
    handlers.as_slice() == others.as_slice()
}

// ---- objects

fn same_object(object: &Object, other: &Object) -> bool
    ensures { IsTrue result ↔ object_of object.now ≡ object_of other.now }
{
    object.class == other.class && same_values(&object.attributes, &other.attributes)
}

/// Whether the lists are equally long and each object equals the one at its place.
pub(crate) fn same_objects(objects: &[Object], others: &[Object]) -> bool
    ensures { IsTrue result ↔ map object_of objects.now ≡ map object_of others.now }
{
    if objects.len() != others.len() {
        return false;
    }
    for place in 0..objects.len() {
        if !same_object(&objects[place], &others[place]) {
            return false;
        }
    }
    true
}

// ---- routines

/// Whether there are equally many blocks, each with the same newly reserved handlers.
fn same_blocks(
    blocks: &[ArrayVec<HandlerNumber, 16>],
    others: &[ArrayVec<HandlerNumber, 16>],
) -> bool
    ensures { IsTrue result ↔ map (λ block. block.items) blocks.now ≡ map (λ block. block.items) others.now }
{
    if blocks.len() != others.len() {
        return false;
    }
    for place in 0..blocks.len() {
        if !same_handlers(&blocks[place], &others[place]) {
            return false;
        }
    }
    true
}

/// Whether two frames are of the same routine, begun in the same way, at the same operation.
fn same_place(activation: &Activation, other: &Activation) -> bool
    ensures { IsTrue result ↔ ((activation.now.routine ≡ other.now.routine) × (activation.now.origin ≡ other.now.origin)
        × (activation.now.stage ≡ other.now.stage) × (activation.now.place ≡ other.now.place)) }
{
    activation.routine == other.routine
        && activation.origin == other.origin
        && activation.stage == other.stage
        && activation.place == other.place
}

/// Whether two frames newly reserved the same handlers, for their entry and for each block.
fn same_reserved(activation: &Activation, other: &Activation) -> bool
    ensures { IsTrue result ↔ ((activation.now.reserved.items ≡ other.now.reserved.items)
        × (map (λ block. block.items) activation.now.blocks.items ≡ map (λ block. block.items) other.now.blocks.items)) }
{
    same_handlers(&activation.reserved, &other.reserved)
        && same_blocks(&activation.blocks, &other.blocks)
}

/// Whether two frames have equal values and newly reserved the same handlers.
fn same_contents(activation: &Activation, other: &Activation) -> bool
    ensures { IsTrue result ↔ ((activation.now.slots.items ≡ other.now.slots.items) × (activation.now.result ≡ other.now.result)
        × (activation.now.olds ≡ other.now.olds) × (activation.now.operands ≡ other.now.operands)
        × (activation.now.reserved.items ≡ other.now.reserved.items)
        × (map (λ block. block.items) activation.now.blocks.items ≡ map (λ block. block.items) other.now.blocks.items)) }
{
    same_values(&activation.slots, &other.slots)
        && activation.result == other.result
        && activation.olds.is_same(&other.olds)
        && activation.operands.is_same(&other.operands)
        && same_reserved(activation, other)
}

fn same_activation(activation: &Activation, other: &Activation) -> bool
    ensures { IsTrue result ↔ activation_of activation.now ≡ activation_of other.now }
{
    same_place(activation, other) && same_contents(activation, other)
}

/// Whether the lists are equally long and each frame is at the same operation as the one at its place, with equal
/// values.
pub(crate) fn same_activations(activations: &[Activation], others: &[Activation]) -> bool
    ensures { IsTrue result ↔ map activation_of activations.now ≡ map activation_of others.now }
{
    if activations.len() != others.len() {
        return false;
    }
    for place in 0..activations.len() {
        if !same_activation(&activations[place], &others[place]) {
            return false;
        }
    }
    true
}
