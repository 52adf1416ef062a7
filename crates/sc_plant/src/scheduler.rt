//! Which handler a worker plays next: what lies under the lock of the core.
ghost use Rattle.std.specs.Prelude.{◌≡◌};

use crate::granularity::Granularity;
use crate::task::{Played, Task};
use sc_audit::RecordLine;
use sc_lockpass::HandlerNumber;
use sc_recording::{MOST_LINES, OfProgram, RecordedCore, Stop, Undue, is_granting};

/// The most turns of a task.
pub const MOST_TURNS: u32 = 256;

/// What a worker does next.
#[derive(Clone, Copy)]
pub enum Next {
    /// It plays its task.
    Play,
    /// It plays the turn that was granted, and settles it, before the lock is let go.
    Grant,
    /// There is nothing to do, until some handler that is out comes back.
    Wait,
    /// There is nothing to do, and no handler is out; or nothing more may be done.
    End,
}

/// The core with its record, how many turns are left to be picked, how many workers sleep, how long the tasks are that come
/// back, and why all workers end, if they are to.
#[derive(Drop)]
pub struct Scheduler<P: OfProgram> {
    pub recorded: RecordedCore<P>,
    pub turns: u32,
    pub asleep: u32,
    pub granularity: Granularity,
    pub stop: Option<Stop>,
}

impl<P: OfProgram> Scheduler<P> {
    /// Before the first task.
    pub fn new(recorded: RecordedCore<P>, turns: u32) -> Scheduler<P>
        ensures { result.recorded ≡ recorded }
    {
        Scheduler {
            recorded,
            turns,
            asleep: 0,
            granularity: Granularity::new(),
            stop: None,
        }
    }

    /// The workers are to end. Where something was refused, it is for that.
    pub fn stop_for(&mut self, why: Stop) {
        if let None | Some(Stop::FineGrained) = self.stop {
            self.stop = Some(why);
        }
    }

    /// What a task came to is taken in.
    pub fn take_in(&mut self, task: &Task, played: Played) {
        match played {
            Played::Nothing => {}
            Played::Made(turns) => self.settle(task, turns),
            Played::CutShort(turns) => {
                self.settle(task, turns);
                self.stop_for(Stop::OutOfMemory);
            }
            Played::Refused => {
                self.recorded.put_back(task.handler);
                self.give_back(task.turns);
                self.stop_for(Stop::OutOfMemory);
            }
        }
    }

    /// Counts a task by how long it was.
    pub fn weigh(&mut self, task: &Task, played: Played) {
        let Played::Made(turns) = played else {
            return;
        };
        self.granularity.note(RecordLine {
            handler: task.handler,
            turns,
        });
        if self.granularity.pays_alone(self.recorded.lines.len()) {
            self.stop_for(Stop::FineGrained);
        }
    }

    /// Settles this number of turns of the job of a task. If its handler has no job, or there is no memory, which
    /// there is since it was picked, they aren't settled: then its region's log is longer than its settlements, which
    /// the comparison of the logs finds.
    fn settle(&mut self, task: &Task, turns: u32) {
        match self.recorded.settle(task.handler, turns, &task.asked) {
            Ok(()) => self.give_back(task.turns.saturating_sub(turns)),
            Err(Undue::Idle) => self.give_back(task.turns),
            Err(Undue::OutOfMemory) => self.stop_for(Stop::OutOfMemory),
        }
    }

    fn give_back(&mut self, turns: u32) {
        self.turns = self.turns.saturating_add(turns);
    }

    /// Whether no more may be picked, as where the record is full once all that are out are settled.
    fn is_full(&self) -> bool {
        let out = self.recorded.core.out_count();
        self.turns == 0 || self.recorded.lines.len().saturating_add(out) >= MOST_LINES
    }

    /// What comes next for a worker, whose task is written over.
    pub fn next(&mut self, task: &mut Task) -> Next {
        if self.stop.is_none() && self.granularity.is_fine() && self.recorded.core.out_count() > 0 {
            return Next::Wait;
        }
        if self.stop.is_none() && !self.is_full() {
            match self.recorded.pick(&mut task.job) {
                Ok(Some(handler)) => return self.send(handler, task),
                Ok(None) => {}
                Err(_) => self.stop_for(Stop::OutOfMemory),
            }
        }
        if self.stop.is_none() && self.recorded.core.out_count() > 0 {
            Next::Wait
        } else {
            Next::End
        }
    }

    /// Completes the task of a handler that was picked. What its reserve step was granted is one turn.
    fn send(&mut self, handler: HandlerNumber, task: &mut Task) -> Next {
        let is_granted = is_granting(&task.job);
        task.handler = handler;
        task.turns = if is_granted {
            1
        } else {
            self.turns.min(MOST_TURNS)
        };
        self.turns = self.turns.saturating_sub(task.turns);
        if is_granted { Next::Grant } else { Next::Play }
    }

    /// Whether a worker that sleeps may find something to do, beside the handler that goes out, and it pays to wake it.
    pub fn wakes(&mut self, handler: HandlerNumber) -> bool {
        self.asleep > 0 && !self.granularity.is_fine() && !self.recorded.is_idle(handler)
    }

    /// A worker goes to sleep.
    pub fn falls_asleep(&mut self) {
        self.asleep = self.asleep.saturating_add(1);
    }

    /// A worker has slept.
    pub fn wakes_up(&mut self) {
        self.asleep = self.asleep.saturating_sub(1);
    }
}
