//! A run that is described as it goes on.

use crate::made_turn::{Earlier, MadeTurn};
use crate::replay::Replay;
use crate::scene::Scene;
use crate::waiting::Waiting;
use sc_audit::RecordLine;
use sc_code::Program;
use sc_explain_text::Lines;
use sc_lockpass::{HandlerNumber, Version};
use sc_source::source::Source;
use sc_world::Turned;
use std::alloc::{AllocError, Global};

/// Which turns are reported.
#[derive(Clone, Copy)]
pub enum Told {
    /// Those that print or concern other handlers.
    All,
    /// Those that print.
    Printed,
}

/// Makes the turns of a run once more, as its record goes on, and describes each for a person who follows it. It has
/// a world of its own, so the run is what it would be without it.
#[derive(Drop)]
pub struct Tracer<'r> {
    pub replay: Replay<'r>,
    told: Told,
    waiting: Waiting,
    /// How many turns were made.
    turns: u64,
}

impl<'r> Tracer<'r> {
    /// At the opening of the program of a source text, with the version's limit on handlers.
    ///
    /// # Errors
    /// Memory ran out.
    pub fn open(
        alloc: Global,
        source: &'r Source,
        program: &'r Program,
        version: Version,
        told: Told,
    ) -> Result<Tracer<'r>, AllocError> {
        let waiting = match Waiting::none(alloc) {
            Ok(waiting) => waiting,
            Err(error) => return Err(error),
        };
        match Replay::open(alloc, source, program, version) {
            Ok(replay) => Ok(Tracer {
                replay,
                told,
                waiting,
                turns: 0,
            }),
            Err(error) => Err(error),
        }
    }

    /// Makes the turns of a line of the record, and returns their description. A turn of a handler that has no job is
    /// none.
    ///
    /// # Errors
    /// Memory ran out.
    pub fn play(&mut self, line: RecordLine) -> Result<Vec<u8>, AllocError> {
        let mut lines = Lines::new(self.replay.alloc);
        for _turn in 0..line.turns {
            if !self.turn(&mut lines, line.handler) {
                break;
            }
        }
        lines.finish()
    }

    /// Makes a turn of a handler, if it has a job, and adds its description. Returns whether it did.
    pub fn turn(&mut self, lines: &mut Lines, handler: HandlerNumber) -> bool {
        let earlier = Earlier::of(&self.replay.scene(), handler);
        match self.replay.world.turn(handler) {
            Ok(Turned::Moved) => {}
            Ok(Turned::Nothing) => return false,
            Err(_) => {
                lines.lack();
                return false;
            }
        }
        self.turns = self.turns.saturating_add(1);
        self.tell(lines, handler, earlier);
        true
    }

    /// Adds the description of a turn of a handler that was just made.
    fn tell(&mut self, lines: &mut Lines, handler: HandlerNumber, earlier: Earlier) {
        tell_turn(
            lines,
            &self.replay.scene(),
            (handler, self.turns),
            earlier,
            self.told,
            &mut self.waiting,
        )
    }
}

/// Adds what a handler printed in its turn of this number, after which the run stands so, and all else of the turn if that
/// is reported, too.
fn tell_turn<'o>(
    lines: &mut Lines,
    scene: &Scene<'o>,
    (handler, number): (HandlerNumber, u64),
    earlier: Earlier,
    told: Told,
    waiting: &mut Waiting,
) {
    let made = MadeTurn::of(scene, handler, number, earlier);
    made.tell_printed(lines);
    if let Told::All = told {
        made.tell_settled(lines, scene, waiting)
    }
}
