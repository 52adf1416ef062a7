//! Places for what is posted, and the memory that it may take.
ghost use Rattle.std.specs.Prelude.{◌≡◌, ◌<◌, ◌≤◌, ◌+◌, ◌∷◌, [], OnErr, OnOk, length, vec_len};
ghost use Rattle.sc_handler.specs.InMemory.{sent};

use crate::handler::{HandlerStage, Posting};
use crate::passing::PassedPlace;
use crate::posted_request::Block;
use crate::postings::take_first;
use sc_lockpass::Passed;
use sc_region::Request;
use std::alloc::{AllocError, Global};
use std::collections::LinkedList;
use std::marker::Model;

/// Places for what is posted: a node for each, and memory for actuals and for what is passed, which few need.
///
/// Contracts see how many there are.
#[derive(Drop)]
pub struct SparePlaces {
    nodes: LinkedList<Posting>,
    /// Memory for the actuals of a request with more than one.
    blocks: Vec<Block>,
    /// Memory for what is passed.
    passed: Vec<Box<PassedPlace>>,
}

impl Model for SparePlaces {
    ghost use Rattle.std.specs.Prelude.{ℕ, length, min, vec_len};

    ghost Value = { ℕ };

    ghost view = { λ s. min (length s.nodes) (min (vec_len s.blocks) (vec_len s.passed)) };
}

impl SparePlaces {
    /// No places. Those that are added later take their memory from this allocator.
    pub fn new(alloc: Global) -> SparePlaces
        ensures { result ≡ 0 }
    {
        SparePlaces {
            nodes: LinkedList::new(alloc),
            blocks: Vec::new(alloc),
            passed: Vec::new(alloc),
        }
    }

    /// Takes a place, with this request in it and what is passed with that.
    pub(crate) fn take(
        &mut self,
        request: &Request,
        is_waited: bool,
        passed: &mut Option<Passed>,
    ) -> LinkedList<Posting>
        requires { 1 ≤ self.old }
        ensures node { result ≡ sent request.now is_waited passed.old ∷ [] }
        ensures places { self.old ≤ self.new + 1 }
    {
        let mut node = take_first(&mut self.nodes);
        if let Some(posting) = node.front_mut() {
            posting.request.write(request, is_waited, &mut self.blocks);
            posting.passed.put(passed, &mut self.passed);
            posting.over = HandlerStage::Idle;
        }
        node
    }

    /// A place that is no longer needed comes back, in its node. Takes no memory.
    pub fn recycle(&mut self, mut node: LinkedList<Posting>)
        ensures { self.old ≤ self.new }
    {
        if let Some(posting) = node.front_mut() {
            posting.request.give_back(&mut self.blocks);
            posting.passed.give_back(&mut self.passed);
        }
        let _ = self.nodes.append(&mut node);
    }

    /// Adds places until there are this many. Its error says that memory ran out.
    ///
    /// It is inlined as a test, and seldom makes a call.
    #[inline(always)]
    pub fn add_places(&mut self, wanted: usize) -> Result<(), AllocError>
        ensures ok { OnOk result (wanted ≤ self.new) }
        ensures kept { self.old ≤ self.new }
        ensures err { OnErr result (self.old < wanted) }
    {
        if wanted <= self.nodes.len()
            && wanted <= self.blocks.len()
            && wanted <= self.passed.len()
        {
            return Ok(());
        }
        self.push_places(wanted)
    }

    /// Adds places until there are this many.
    #[inline(never)]
    fn push_places(&mut self, wanted: usize) -> Result<(), AllocError>
        ensures ok { OnOk result (wanted ≤ self.new) }
        ensures kept { self.old ≤ self.new }
        ensures err { OnErr result (self.old < wanted) }
    {
        push_nodes(&mut self.nodes, wanted)?;
        push_blocks(&mut self.blocks, wanted)?;
        push_passed(&mut self.passed, wanted)
    }
}

fn push_nodes(nodes: &mut LinkedList<Posting>, wanted: usize) -> Result<(), AllocError>
    ensures ok { OnOk result (wanted ≤ length nodes.new) }
    ensures kept { length nodes.old ≤ length nodes.new }
    ensures err { OnErr result (length nodes.old < wanted) }
{
    let alloc = *nodes.allocator();
    for _place in nodes.len()..wanted {
        nodes.push_back(Posting::blank(alloc))?;
    }
    Ok(())
}

fn push_blocks(blocks: &mut Vec<Block>, wanted: usize) -> Result<(), AllocError>
    ensures ok { OnOk result (wanted ≤ vec_len blocks.new) }
    ensures kept { vec_len blocks.old ≤ vec_len blocks.new }
    ensures err { OnErr result (vec_len blocks.old < wanted) }
{
    let alloc = *blocks.allocator();
    for _place in blocks.len()..wanted {
        blocks.push(Block::new(alloc)?)?;
    }
    Ok(())
}

fn push_passed(passed: &mut Vec<Box<PassedPlace>>, wanted: usize) -> Result<(), AllocError>
    ensures ok { OnOk result (wanted ≤ vec_len passed.new) }
    ensures kept { vec_len passed.old ≤ vec_len passed.new }
    ensures err { OnErr result (vec_len passed.old < wanted) }
{
    let alloc = *passed.allocator();
    for _place in passed.len()..wanted {
        passed.push(Box::new(alloc, None)?)?;
    }
    Ok(())
}
