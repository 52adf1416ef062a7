//! A request in a handler's queue.
ghost use Rattle.std.specs.Prelude.{◌≡◌, ◌≤◌, ◌+◌, [], IfOk, length, vec_len};

use crate::copy::write_values;
use arrayvec::ArrayVec;
use sc_lockpass::HandlerNumber;
use sc_region::{Errand, Reference, Request, Value};
use smallvec::SmallVec;
use std::alloc::{AllocError, Global};
use std::marker::Model;
use std::mem::replace;

/// Memory for the actuals of a request that has more than one: it has room for 16.
#[derive(Drop)]
pub(crate) struct Block {
    values: SmallVec<Value, 1>,
}

impl Model for Block {
    ghost use Rattle.std.specs.Prelude.{◌≤◌};
    ghost use Rattle.smallvec.specs.SmallVec.{SmallVec};
    ghost use Rattle.sc_region.specs.declared.value.Value as actual;

    ghost Value = { SmallVec actual.Value };

    ghost view = { λ b. b.values };

    ghost invariant = { λ b. 16 ≤ b.values.capacity };
}

impl Block {
    /// An empty block. Its error says that memory ran out.
    pub(crate) fn new(alloc: Global) -> Result<Block, AllocError>
        ensures { IfOk result (λ block. block.items ≡ []) }
    {
        Ok(Block {
            values: SmallVec::with_capacity(alloc, 16)?,
        })
    }
}

/// A request in a handler's queue. It takes 64 bytes, and a further block of memory if it has more than one actual.
#[derive(Drop)]
pub struct PostedRequest {
    pub(crate) poster: Option<HandlerNumber>,
    pub(crate) target: Reference,
    pub(crate) errand: Errand,
    pub(crate) is_waited: bool,
    actuals: SmallVec<Value, 1>,
}

impl Model for PostedRequest {
    ghost use Rattle.sc_region.specs.declared.job.Request.{Request};

    ghost Value = { Request };

    ghost view = { λ r. record { poster = r.poster; target = r.target; errand = r.errand; actuals = record { items = r.actuals.items }; is_waited = r.is_waited } };

    ghost use Rattle.std.specs.Prelude.{◌≤◌, length};

    ghost invariant = { λ r. length r.actuals.items ≤ 16 };
}

impl PostedRequest {
    /// A place for a request.
    pub(crate) fn blank(alloc: Global) -> PostedRequest {
        PostedRequest {
            poster: None,
            target: Reference {
                handler: 0,
                number: 0,
                class: 0,
            },
            errand: Errand::Makes(None),
            is_waited: false,
            actuals: SmallVec::new(alloc),
        }
    }

    /// This request. Its error says that memory ran out.
    pub(crate) fn new(alloc: Global, request: &Request) -> Result<PostedRequest, AllocError>
        ensures { IfOk result (λ r. r ≡ request.now) }
    {
        Ok(PostedRequest {
            poster: request.poster,
            target: request.target,
            errand: request.errand,
            is_waited: request.is_waited,
            actuals: new_actuals(alloc, request.actuals.as_slice())?,
        })
    }

    /// Makes it equal to another one, except for whether it is waited for. More than one actual takes a block.
    pub(crate) fn write(&mut self, request: &Request, is_waited: bool, blocks: &mut Vec<Block>)
        requires { 1 ≤ vec_len blocks.old }
        ensures request { self.new ≡ record request.now { is_waited = is_waited } }
        ensures blocks { vec_len blocks.old ≤ vec_len blocks.new + 1 }
    {
        self.poster = request.poster;
        self.target = request.target;
        self.errand = request.errand;
        self.is_waited = is_waited;
        write_actuals(&mut self.actuals, request.actuals.as_slice(), blocks);
    }

    /// Gives the block of its actuals back, if it has one.
    pub(crate) fn give_back(&mut self, blocks: &mut Vec<Block>)
        ensures { vec_len blocks.old ≤ vec_len blocks.new }
    {
        if self.actuals.capacity() >= 16 {
            give_back(&mut self.actuals, blocks);
        }
    }

    /// The handler that asks, but for the creation of the root object.
    pub fn poster(&self) -> Option<HandlerNumber>
        ensures { result ≡ self.now.poster }
    {
        self.poster
    }

    /// Whether the poster waits for the answer.
    pub fn is_waited(&self) -> bool
        ensures { result ≡ self.now.is_waited }
    {
        self.is_waited
    }

    /// The actuals: at most 16.
    pub(crate) fn actuals(&self) -> &[Value]
        ensures actuals { result.now ≡ self.now.actuals.items }
        ensures few { length result.now ≤ 16 }
    {
        self.actuals.as_slice()
    }

    /// A copy. Its error says that memory ran out.
    pub(crate) fn copy(&self, alloc: Global) -> Result<PostedRequest, AllocError>
        ensures { IfOk result (λ request. request ≡ self.now) }
    {
        PostedRequest::new(alloc, &self.to_request())
    }

    /// A copy of the request.
    pub fn to_request(&self) -> Request
        ensures { result ≡ self.now }
    {
        let mut actuals = ArrayVec::new();
        copy_actuals(self.actuals.as_slice(), &mut actuals);
        Request {
            poster: self.poster,
            target: self.target,
            errand: self.errand,
            actuals,
            is_waited: self.is_waited,
        }
    }

    /// Makes a request equal to this one.
    pub(crate) fn write_to(&self, place: &mut Request)
        ensures { place.new ≡ self.now }
    {
        place.poster = self.poster;
        place.target = self.target;
        place.errand = self.errand;
        place.is_waited = self.is_waited;
        copy_actuals(self.actuals.as_slice(), &mut place.actuals);
    }
}

// ---- actuals

/// These actuals. Its error says that memory ran out.
fn new_actuals(alloc: Global, values: &[Value]) -> Result<SmallVec<Value, 1>, AllocError>
    ensures { IfOk result (λ actuals. actuals.items ≡ values.now) }
{
    let mut actuals = SmallVec::new(alloc);
    if values.len() > 1 {
        actuals.reserve_exact(16)?;
    }
    actuals.extend_from_slice(values)?;
    Ok(actuals)
}

/// Makes values equal to these actuals.
fn copy_actuals(actuals: &[Value], values: &mut ArrayVec<Value, 16>)
    requires { length actuals.now ≤ 16 }
    ensures { values.new ≡ record { items = actuals.now } }
{
    match actuals.len() {
        0 => values.clear(),
        1 => {
            values.clear();
            values.push(actuals[0]);
        }
        _ => write_values(values, actuals),
    }
}

/// Writes these actuals. More than one take a block.
fn write_actuals(place: &mut SmallVec<Value, 1>, values: &[Value], blocks: &mut Vec<Block>)
    requires few { length values.now ≤ 16 }
    requires blocks { 1 ≤ vec_len blocks.old }
    ensures actuals { place.new.items ≡ values.now }
    ensures blocks { vec_len blocks.old ≤ vec_len blocks.new + 1 }
{
    match values.len() {
        0 => *place = SmallVec::new(*place.allocator()),
        1 => *place = SmallVec::from_buf(*place.allocator(), [values[0]]),
        _ => write_block(place, values, blocks),
    }
}

/// Writes these actuals into a block.
#[inline(never)]
fn write_block(place: &mut SmallVec<Value, 1>, values: &[Value], blocks: &mut Vec<Block>)
    requires few { length values.now ≤ 16 }
    requires blocks { 1 ≤ vec_len blocks.old }
    ensures actuals { place.new.items ≡ values.now }
    ensures blocks { vec_len blocks.old ≤ vec_len blocks.new + 1 }
{
    let Some(block) = blocks.pop() else {
        unreachable!();
    };
    *place = block.values;
    place.clear();
    let _ = place.extend_from_slice(values);
}

/// Gives the block of actuals back. The block is dropped if there is no place for it, since this takes no memory.
#[inline(never)]
fn give_back(place: &mut SmallVec<Value, 1>, blocks: &mut Vec<Block>)
    requires { 16 ≤ place.old.capacity }
    ensures actuals { place.new.items ≡ [] }
    ensures blocks { vec_len blocks.old ≤ vec_len blocks.new }
{
    let none = SmallVec::new(*place.allocator());
    let values = replace(place, none);
    if blocks.len() < blocks.capacity() {
        blocks.push_reserved(Block { values });
    }
}
