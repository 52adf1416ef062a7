//! The workers: threads that play the handlers.
use crate::gate::Gate;
use crate::scheduler::{Next, Scheduler};
use crate::slot::Slot;
use crate::task::{Played, Task};
use sc_recording::{OfProgram, Stop};
use std::sync::{Condvar, Mutex, Wait};
use std::thread;
use std::thread::Threads;

/// What a task came to is taken in, and the next task picked: whether there is one. The lock is taken once, unless there is
/// nothing to do now. What a reserve step was granted is played and settled there, so that nothing changes in between.
fn exchange<'p, P: OfProgram, R: Wait>(
    rt: &R,
    scheduler: &Mutex<Scheduler<P>>,
    changed: &Condvar,
    slots: &Vec<Mutex<Slot<'p, P>>>,
    task: &mut Task,
    played: Played,
) -> bool {
    let mut held = scheduler.lock(rt);
    held.weigh(task, played);
    held.take_in(task, played);
    for _ in rt.forever() {
        match held.next(task) {
            Next::Grant => {
                let granted = play_granted(rt, slots, task);
                held.take_in(task, granted);
            }
            Next::Play => {
                let wakes = held.wakes(task.handler);
                drop(held);
                if wakes {
                    changed.notify_one();
                }
                return true;
            }
            Next::End => {
                let wakes = held.asleep > 0;
                drop(held);
                if wakes {
                    changed.notify_all();
                }
                return false;
            }
            Next::Wait => {
                held.falls_asleep();
                held = changed.wait(rt, held);
                held.wakes_up();
            }
        }
    }
    unreachable!()
}

/// Plays a turn that was granted, under the lock of its region. No other worker holds that: the handler isn't out.
fn play_granted<'p, P: OfProgram, R: Wait>(
    rt: &R,
    slots: &Vec<Mutex<Slot<'p, P>>>,
    task: &mut Task,
) -> Played {
    let Some(slot) = slots.get(task.handler as usize) else {
        return Played::Refused;
    };
    let mut held = slot.lock(rt);
    held.play(task)
}

/// Plays a task under the lock of its region.
fn play<'p, P: OfProgram, R: Wait, G: Gate>(
    rt: &R,
    slots: &Vec<Mutex<Slot<'p, P>>>,
    gate: &G,
    task: &mut Task,
) -> Played {
    let Some(slot) = slots.get(task.handler as usize) else {
        return Played::Refused;
    };
    let mut held = slot.lock(rt);
    gate.began(task.handler);
    let played = held.play(task);
    gate.ended(task.handler);
    played
}

/// A worker: plays tasks as long as there are any.
fn work<'p, P: OfProgram, R: Wait, G: Gate>(
    rt: &R,
    scheduler: &Mutex<Scheduler<P>>,
    changed: &Condvar,
    slots: &Vec<Mutex<Slot<'p, P>>>,
    gate: &G,
) {
    let mut task = Task::new();
    let mut played = Played::Nothing;
    for _ in rt.forever() {
        if !exchange(rt, scheduler, changed, slots, &mut task, played) {
            return;
        }
        played = play(rt, slots, gate, &mut task);
    }
}

/// All workers are to end, since a thread was refused.
fn stop<P: OfProgram, R: Wait>(rt: &R, scheduler: &Mutex<Scheduler<P>>, changed: &Condvar) {
    scheduler.lock(rt).stop_for(Stop::ThreadRefused);
    changed.notify_all();
}

/// Starts the workers and joins them.
pub fn start_and_join<'p, P: OfProgram + Send + Sync, R: Threads + Wait + Sync, G: Gate>(
    rt: &R,
    scheduler: &Mutex<Scheduler<P>>,
    slots: &Vec<Mutex<Slot<'p, P>>>,
    workers: u8,
    gate: &G,
) {
    let waits = Condvar::new();
    let changed = &waits;
    thread::scope(thread::scope_env(), rt, |scope| {
        for _ in 1..workers {
            if scope
                .spawn(move || work(rt, scheduler, changed, slots, gate))
                .is_err()
            {
                stop(rt, scheduler, changed);
                return;
            }
        }
        work(rt, scheduler, changed, slots, gate);
    });
}
