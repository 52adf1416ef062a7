//! The memory that the regions and parts take that are kept once.
//!
//! It is an estimate, by how many objects, attributes, frames and requests there are. No contract says how exact it is.

use crate::store::{Sizes, Store};
use sc_lockpass::HandlerNumber;
use sc_play::Region;
use sc_region::{MAX_FRAMES, ObjectNumber, Store as Objects};
use sc_request::Core;

/// How many bytes are counted for each region, object, frame and value, and for each part and request.
const BYTES_A_REGION: u64 = 600;

const BYTES_AN_OBJECT: u64 = 64;

const BYTES_A_FRAME: u64 = 400;

const BYTES_A_VALUE: u64 = 16;

const BYTES_A_PART: u64 = 1_600;

const BYTES_A_REQUEST: u64 = 600;

/// The most objects of a handler.
const MAX_OBJECTS: usize = 65_536;

/// The most handlers.
const MAX_HANDLERS: HandlerNumber = 512;

/// How many bytes the regions and parts take that are kept since there were so many, if the tuple is that of the state of this core.
pub(crate) fn bytes_since(before: Sizes, store: &Store<'_>, tuple: &[u32], core: &Core) -> u64 {
    regions_since(before.regions as usize, store.regions()).saturating_add(parts_since(
        before.parts,
        tuple,
        core,
    ))
}

fn regions_since(before: usize, regions: &[Region<'_>]) -> u64 {
    let mut bytes = 0u64;
    for number in before..regions.len() {
        bytes = bytes.saturating_add(region_bytes(&regions[number]));
    }
    bytes
}

/// How many bytes the parts of this number and later ones take. A tuple has the number of handlers, and then as many regions as parts.
fn parts_since(before: u32, tuple: &[u32], core: &Core) -> u64 {
    let first = 1 + tuple.len() / 2;
    let mut bytes = 0u64;
    for handler in 0..MAX_HANDLERS {
        let Some(number) = tuple.get(first.saturating_add(handler as usize)) else {
            break;
        };
        if *number >= before {
            let requests = BYTES_A_REQUEST.saturating_mul(core.queue_len(handler) as u64);
            bytes = bytes.saturating_add(BYTES_A_PART).saturating_add(requests);
        }
    }
    bytes
}

fn region_bytes(region: &Region<'_>) -> u64 {
    let store = region.store();
    BYTES_A_REGION
        .saturating_add(object_bytes(store))
        .saturating_add(frame_bytes(store))
        .saturating_add(store.output().len() as u64)
}

fn object_bytes(store: &Objects<'_>) -> u64 {
    let mut bytes = 0u64;
    for place in 0..store.object_count().min(MAX_OBJECTS) {
        let number = place as ObjectNumber + 1;
        bytes = bytes.saturating_add(BYTES_AN_OBJECT);
        for slot in 0..256 {
            if store.read(number, slot).is_none() {
                break;
            }
            bytes = bytes.saturating_add(BYTES_A_VALUE);
        }
    }
    bytes
}

fn frame_bytes(store: &Objects<'_>) -> u64 {
    let mut bytes = 0u64;
    for count in 0..MAX_FRAMES {
        let Some(activation) = store.under(count) else {
            break;
        };
        let values = activation
            .slots
            .len()
            .saturating_add(activation.operands.len());
        let taken = BYTES_A_VALUE.saturating_mul(values as u64);
        bytes = bytes.saturating_add(BYTES_A_FRAME).saturating_add(taken);
    }
    bytes
}
