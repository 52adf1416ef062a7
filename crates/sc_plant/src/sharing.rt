//! What one thread has is put under locks, for several workers.
ghost use Rattle.std.specs.Prelude.{◌≡◌, ◌≤◌, ◌++◌, ◌∷◌, [], ℕ, List, IfErr, IfOk, OnOk, length, vec_capacity, vec_len};
ghost use Rattle.sc_handler.specs.declared.settlement.Settlement.{Settlement};
ghost use Rattle.sc_handler.specs.Logged.{settlements_of};
ghost use Rattle.sc_plant.specs.Sharing.{AreFit, AreLogs, IsOnWayIn};

use crate::left::Left;
use crate::opening::MAX_HANDLERS;
use crate::slot::Slot;
use sc_handler::{Log, Settlement};
use sc_play::Region;
use sc_recording::{OfProgram, RecordedCore};
use sc_worklog::LoggedRegion;
use std::alloc::{AllocError, Global};
use std::marker::PhantomData;
use std::sync::Mutex;

/// What workers share, and room for the regions that they leave.
#[derive(Drop)]
pub struct Shared<'p, P: OfProgram> {
    pub recorded: RecordedCore<P>,
    pub slots: Vec<Mutex<Slot<'p, P>>>,
    pub logged: Vec<LoggedRegion<'p>>,
    pub bare: Vec<Region<'p>>,
}

/// Room for regions: under locks, with their logs, and without.
#[derive(Drop)]
struct Rooms<'p, P: OfProgram> {
    slots: Vec<Mutex<Slot<'p, P>>>,
    logged: Vec<LoggedRegion<'p>>,
    bare: Vec<Region<'p>>,
}

/// Puts a core with its record under one lock, and each region under one of its own, with the log of its handler.
///
/// # Errors
/// Where memory is refused: what there was.
#[inline(never)]
pub fn share<'p, P: OfProgram>(alloc: Global, left: Left<'p>) -> Result<Shared<'p, P>, Left<'p>>
    requires { IsOnWayIn P.image left }
    ensures slots { IfOk result (λ shared. vec_len shared.slots ≡ 512) }
    ensures logged { IfOk result (λ shared. (512 ≤ vec_capacity shared.logged) × (shared.logged.items ≡ [])) }
    ensures bare { IfOk result (λ shared. (512 ≤ vec_capacity shared.bare) × (shared.bare.items ≡ [])) }
    ensures same { IfErr result (λ same. same ≡ left.entry) }
{
    let Ok(rooms) = rooms_of::<P>(alloc) else {
        return Err(left);
    };
    let Ok(logs) = logs_of(alloc, left.core.log()) else {
        return Err(left);
    };
    let Left {
        regions,
        core,
        lines,
        version: _,
    } = left;
    let recorded = RecordedCore {
        core,
        lines,
        of: PhantomData,
    };
    Ok(Shared {
        recorded,
        slots: slots_of(regions, logs, rooms.slots),
        logged: rooms.logged,
        bare: rooms.bare,
    })
}

fn rooms_of<'p, P: OfProgram>(alloc: Global) -> Result<Rooms<'p, P>, AllocError>
    ensures slots { IfOk result (λ rooms. (512 ≤ vec_capacity rooms.slots) × (rooms.slots.items ≡ [])) }
    ensures logged { IfOk result (λ rooms. (512 ≤ vec_capacity rooms.logged) × (rooms.logged.items ≡ [])) }
    ensures bare { IfOk result (λ rooms. (512 ≤ vec_capacity rooms.bare) × (rooms.bare.items ≡ [])) }
{
    Ok(Rooms {
        slots: Vec::with_capacity(alloc, MAX_HANDLERS as usize)?,
        logged: Vec::with_capacity(alloc, MAX_HANDLERS as usize)?,
        bare: Vec::with_capacity(alloc, MAX_HANDLERS as usize)?,
    })
}

/// The log of each handler that there may be.
fn logs_of(alloc: Global, settlements: &Log) -> Result<Vec<Log>, AllocError>
    ensures count { IfOk result (λ logs. vec_len logs ≡ 512) }
    ensures logs { IfOk result (λ logs. AreLogs logs.items (settlements_of settlements.now)) }
{
    let mut logs = new_logs(alloc)?;
    for place in 0..settlements.len() {
        let Some(settlement) = settlements.get(place) else {
            continue;
        };
        note(&mut logs, &settlement)?;
    }
    Ok(logs)
}

fn new_logs(alloc: Global) -> Result<Vec<Log>, AllocError>
    ensures count { IfOk result (λ logs. vec_len logs ≡ 512) }
    ensures logs { IfOk result (λ logs. AreLogs logs.items []) }
{
    let mut logs = Vec::with_capacity(alloc, MAX_HANDLERS as usize)?;
    for _ in 0..MAX_HANDLERS {
        logs.push_reserved(Log::new(alloc));
    }
    Ok(logs)
}

/// Adds a settlement to the log of its handler.
fn note(logs: &mut Vec<Log>, settlement: &Settlement) -> Result<(), AllocError>
    ensures count { vec_len logs.new ≡ vec_len logs.old }
    ensures logs { OnOk result ((es : List Settlement) → AreLogs logs.old.items es → AreLogs logs.new.items (es ++ settlement.now ∷ [])) }
{
    let at = settlement.handler as usize;
    if at >= logs.len() {
        return Ok(());
    }
    let log = &mut logs[at];
    log.reserve(1)?;
    log.push(
        settlement.handler,
        &settlement.job,
        settlement.turns,
        &settlement.want,
    );
    Ok(())
}

/// Each region with its log under a lock, by number.
fn slots_of<'p, P: OfProgram>(
    mut regions: Vec<Region<'p>>,
    mut logs: Vec<Log>,
    mut slots: Vec<Mutex<Slot<'p, P>>>,
) -> Vec<Mutex<Slot<'p, P>>>
    requires regions { vec_len regions ≡ 512 }
    requires logs { vec_len logs ≡ 512 }
    requires room { (512 ≤ vec_capacity slots) × (slots.items ≡ []) }
    requires fit { AreFit P.image regions.items logs.items }
    ensures { vec_len result ≡ 512 }
{
    let mut handler = MAX_HANDLERS;
    while let Some(region) = regions.pop() {
        let Some(log) = logs.pop() else {
            unreachable!();
        };
        handler -= 1;
        slots.push_reserved(Mutex::new(Slot::new(region, handler, log)));
    }
    slots.reverse();
    slots
}
