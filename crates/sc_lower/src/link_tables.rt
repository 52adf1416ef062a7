//! Gives the names, texts and sites of operations their numbers.

ghost use Rattle.std.specs.Prelude.{◌≡◌, [], IfOk};
ghost use Rattle.sc_code.specs.Programs.{pool_of};
ghost use Rattle.sc_code.specs.RequestRoom.{AreDistinct, BlocksFit, CallsFit, CreationsFit};

use crate::link_names::Names;
use sc_code::{CallSite, ConstantPool, CreationSite, Heads, ObjectTest};
use std::alloc::{AllocError, Global};

/// The tables of a program while its code is linked. They grow at their ends alone, and requests have room for what they
/// hold.
#[derive(Drop)]
pub struct Linker<'s> {
    pub alloc: Global,
    pub names: Names<'s>,
    pub texts: Vec<String>,
    pub calls: Vec<CallSite>,
    pub creations: Vec<CreationSite>,
    pub tests: Vec<ObjectTest>,
    pub demands: Vec<Vec<usize>>,
    pub blocks: Vec<Heads>,
    ghost distinct: { AreDistinct names },
    ghost calls_fit: { CallsFit calls.items },
    ghost creations_fit: { CreationsFit creations.items },
    ghost blocks_fit: { BlocksFit blocks.items },
}

impl<'s> Linker<'s> {
    ghost use Rattle.sc_lower.specs.Pools.{pool_in};

    /// Tables without entries.
    pub fn new(alloc: Global) -> Linker<'s>
        ensures { pool_in result ≡ record { names = []; texts = []; calls = []; creations = []; tests = []; demands = []; blocks = [] } }
    {
        Linker {
            alloc,
            names: Names::new(alloc),
            texts: Vec::new(alloc),
            calls: Vec::new(alloc),
            creations: Vec::new(alloc),
            tests: Vec::new(alloc),
            demands: Vec::new(alloc),
            blocks: Vec::new(alloc),
        }
    }

    /// The tables, once all is linked.
    pub fn into_pool(self) -> Result<ConstantPool, AllocError>
        ensures { IfOk result (λ pool. pool_of pool ≡ pool_in self.entry) }
    {
        let names = self.names.texts(self.alloc)?;
        Ok(ConstantPool {
            names,
            texts: self.texts,
            calls: self.calls,
            creations: self.creations,
            tests: self.tests,
            demands: self.demands,
            blocks: self.blocks,
        })
    }
}
