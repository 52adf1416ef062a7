//! A run that is played once more.

use crate::listing::Listing;
use crate::scene::Scene;
use crate::waits::count_of;
use sc_audit::RecordLine;
use sc_code::Program;
use sc_lockpass::Version;
use sc_source::source::Source;
use sc_world::{Turned, World};
use std::alloc::{AllocError, Global};

/// A run of the program of a source text that is played once more, each of its turns settled by itself, so that the
/// log has each.
#[derive(Drop)]
pub struct Replay<'r> {
    pub alloc: Global,
    listing: Listing<'r>,
    pub world: World<'r>,
    /// The line of its record that is played, and how many turns of it are made.
    line: usize,
    made: u32,
    /// The turns that changed nothing.
    pub idle: Idle,
}

/// Turns of a record that change nothing: how many, and the line of the first of them, from 0.
#[derive(Clone, Copy)]
pub struct Idle {
    pub turns: u64,
    pub line: usize,
}

impl Idle {
    /// Counts these turns of a line, since its handler has nothing to do any more.
    fn add(&mut self, line: usize, turns: u32) {
        if self.turns == 0 {
            self.line = line
        }
        self.turns = self.turns.saturating_add(turns as u64)
    }
}

impl<'r> Replay<'r> {
    /// At the opening, with the version's limit on handlers.
    ///
    /// # Errors
    /// Memory ran out.
    pub fn open(
        alloc: Global,
        source: &'r Source,
        program: &'r Program,
        version: Version,
    ) -> Result<Replay<'r>, AllocError> {
        match World::open(alloc, program, version) {
            Ok(world) => Ok(Replay {
                alloc,
                listing: Listing { source, program },
                world,
                line: 0,
                made: 0,
                idle: Idle { turns: 0, line: 0 },
            }),
            Err(error) => Err(error),
        }
    }

    /// The run as it stands.
    pub fn scene(&self) -> Scene<'_> {
        let core = self.world.core();
        Scene {
            listing: self.listing,
            world: &self.world,
            core,
            log: self.world.log(),
            handlers: count_of(core),
        }
    }

    /// Plays on these lines of the record until this number of turns are made in all, or the record ends.
    ///
    /// # Errors
    /// Memory ran out.
    pub fn advance(&mut self, record: &[RecordLine], place: usize) -> Result<(), AllocError> {
        for _line in self.line..record.len() {
            let Some(line) = record.get(self.line) else {
                break;
            };
            for _turn in self.made..line.turns {
                if self.world.log().len() >= place {
                    return Ok(());
                }
                match self.world.turn(line.handler) {
                    Ok(Turned::Moved) => {}
                    Ok(Turned::Nothing) => {
                        let turns = line.turns.saturating_sub(self.made);
                        self.idle.add(self.line, turns);
                        break;
                    }
                    Err(error) => return Err(error),
                }
                self.made = self.made.saturating_add(1);
            }
            self.line = self.line.saturating_add(1);
            self.made = 0;
        }
        Ok(())
    }
}
