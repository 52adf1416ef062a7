//! Worlds that are played anew.
ghost use Rattle.std.specs.Prelude.{◌≡◌, ◌<◌, ℕ, IfNone, IfOk, IfSome, Some, false, length, slice_get, true};
ghost use Rattle.sc_world.specs.Kept.{kept_of};
ghost use Rattle.sc_world.specs.Turning.{Runs};
ghost use Rattle.sc_world.specs.Views.{world_of};
ghost use Rattle.sc_world.specs.Worlds.{opened};
ghost use Rattle.sc_search.specs.declared.limits.Limits.{Limits};
ghost use Rattle.sc_search.specs.Aims.{IsMet};
ghost use Rattle.sc_search.specs.Found.{IsFirst, IsFound, RunsUnmet, turns_of};
ghost use Rattle.sc_search.specs.Limits.{SaysWhyFor};
ghost use Rattle.sc_search.specs.Stops.{HasReached, IsOrdered, MissesAfter};
ghost use Rattle.sc_search.specs.Views.{states_of};
ghost use Rattle.sc_search.specs.Waiting.{HasStuck, seeks_stuck};

use crate::aims::Aim;
use crate::judging::{is_met, tells_failure, tells_refusal};
use crate::lines::lines_of;
use crate::progress::Progress;
use crate::verdict::{Finding, GivenUp, Order, Reason};
use sc_audit::RecordLine;
use sc_code::Program;
use sc_lockpass::{HandlerNumber, Version};
use sc_world::{KeptWorld, Turned, World};
use std::alloc::{AllocError, Global};

/// What is searched: a program, with the version's limit on handlers, and the aim.
#[derive(Clone, Copy)]
pub(crate) struct Subject<'p> {
    pub(crate) alloc: Global,
    pub(crate) program: &'p Program,
    pub(crate) version: Version,
    pub(crate) aim: Aim,
}

/// What turns show that are played once more, and why the search gives up if they show nothing.
#[derive(Drop)]
pub(crate) struct Shown {
    pub(crate) finding: Finding,
    pub(crate) why: Option<GivenUp>,
}

/// The world after these turns, from the opening on.
///
/// # Errors
/// Memory ran out.
pub(crate) fn world_after<'p>(
    subject: Subject<'p>,
    turns: &[HandlerNumber],
) -> Result<World<'p>, AllocError>
    ensures { IfOk result (λ world. Runs turns.now (opened subject.entry.program.now.image subject.entry.version) (world_of world)) }
{
    let lines = lines_of(subject.alloc, turns)?;
    world_after_lines(subject, &lines)
}

/// The world after the turns of these lines, from the opening on. Those of a line are made at once.
fn world_after_lines<'p>(
    subject: Subject<'p>,
    lines: &[RecordLine],
) -> Result<World<'p>, AllocError>
    ensures { IfOk result (λ world. Runs (turns_of lines.now) (opened subject.entry.program.now.image subject.entry.version) (world_of world)) }
{
    let mut world = World::open(subject.alloc, subject.program, subject.version)?;
    for line in lines {
        world.turns_of(line.handler, line.turns)?;
    }
    Ok(world)
}

/// What is found if a handler waits for good in the state with the number.
///
/// # Errors
/// Memory ran out.
pub(crate) fn stuck_after<'p>(
    subject: Subject<'p>,
    progress: Progress<'p>,
    number: u32,
) -> Result<Shown, AllocError>
    requires stuck { HasStuck subject.program.now.image subject.version (states_of progress) number }
    requires reached { HasReached subject.program.now.image subject.version subject.aim progress }
    requires seeks { seeks_stuck subject.aim ≡ true }
    ensures found { IfOk result (λ shown. IsFound subject.entry.program.now.image subject.entry.version shown.finding) }
    ensures first { IfOk result (λ shown. IsFirst subject.entry.program.now.image subject.entry.version subject.entry.aim shown.finding) }
    ensures why { IfOk result (λ shown. (limits : Limits) → SaysWhyFor subject.entry limits false shown.finding shown.why) }
{
    let worlds = progress.give_up(Reason::Worlds);
    let turns = progress.store.order(number)?;
    let state = state_at(subject, progress, number)?;
    let (world, made) = play_until_met(subject, &turns)?;
    if let Some(finding) = finding_in(subject, &world, &made)? {
        return Ok(Shown { finding, why: None });
    }
    if !state.is_same(&world) {
        return Ok(Shown {
            finding: Finding::Undecided,
            why: Some(worlds),
        });
    }
    let lines = lines_of(subject.alloc, &made)?;
    Ok(Shown {
        finding: Finding::Stuck(Order { lines }),
        why: None,
    })
}

/// The state with the number. Nothing else of what was met is left.
///
/// # Errors
/// Memory ran out.
fn state_at<'p>(
    subject: Subject<'p>,
    mut progress: Progress<'p>,
    number: u32,
) -> Result<KeptWorld<'p>, AllocError>
    requires there { number < length (states_of progress) }
    requires reached { HasReached subject.program.now.image subject.version subject.aim progress }
    ensures { IfOk result (λ world. slice_get (states_of progress.entry) number ≡ Some (kept_of world)) }
{
    progress.load(subject, number)?;
    progress.world.keep()
}

/// The finding of these turns, if they meet what is looked for. The order that is reported ends there.
///
/// # Errors
/// Memory ran out.
pub(crate) fn finding_after(
    subject: Subject<'_>,
    turns: &[HandlerNumber],
) -> Result<Option<Finding>, AllocError>
    ensures found { IfOk result (λ found. IfSome found (IsFound subject.entry.program.now.image subject.entry.version)) }
    ensures first { IfOk result (λ found. IfSome found (IsFirst subject.entry.program.now.image subject.entry.version subject.entry.aim)) }
    ensures ordered { IfOk result (λ found. IfSome found IsOrdered) }
    ensures none { IfOk result (λ found. IfNone found (MissesAfter subject.entry.program.now.image subject.entry.version subject.entry.aim turns.now)) }
{
    let (world, made) = play_until_met(subject, turns)?;
    finding_in(subject, &world, &made)
}

/// What the world shows that these turns led to, if it is looked for.
fn finding_in(
    subject: Subject<'_>,
    world: &World<'_>,
    made: &[HandlerNumber],
) -> Result<Option<Finding>, AllocError>
    requires { RunsUnmet subject.aim made.now (opened subject.program.now.image subject.version) (world_of world.now) }
    ensures found { IfOk result (λ found. IfSome found (IsFound subject.entry.program.now.image subject.entry.version)) }
    ensures first { IfOk result (λ found. IfSome found (IsFirst subject.entry.program.now.image subject.entry.version subject.entry.aim)) }
    ensures ordered { IfOk result (λ found. IfSome found IsOrdered) }
    ensures none { IfOk result (λ found. IfNone found (IsMet subject.entry.aim (world_of world.now) → ⊥)) }
{
    let statuses = world.statuses()?;
    let core = world.core();
    if !is_met(subject.aim, &statuses, core) {
        return Ok(None);
    }
    let lines = lines_of(subject.alloc, made)?;
    if tells_failure(subject.aim, &statuses) {
        return Ok(Some(Finding::Fails(Order { lines })));
    }
    if tells_refusal(subject.aim, core) {
        return Ok(Some(Finding::Refused(Order { lines })));
    }
    Ok(Some(Finding::Stuck(Order { lines })))
}

/// Plays these turns from the opening on, as far as what is looked for is met: where that is, and the turns that led there. Those of
/// handlers that had nothing to do are none.
fn play_until_met<'p>(
    subject: Subject<'p>,
    turns: &[HandlerNumber],
) -> Result<(World<'p>, Vec<HandlerNumber>), AllocError>
    ensures runs { IfOk result (λ reached. RunsUnmet subject.entry.aim reached.1.items
        (opened subject.entry.program.now.image subject.entry.version) (world_of reached.0)) }
    ensures all { IfOk result (λ reached. (IsMet subject.entry.aim (world_of reached.0) → ⊥) →
        Runs turns.now (opened subject.entry.program.now.image subject.entry.version) (world_of reached.0)) }
{
    let mut world = World::open(subject.alloc, subject.program, subject.version)?;
    let mut made = Vec::new(subject.alloc);
    for handler in turns {
        if is_met(subject.aim, &world.statuses()?, world.core()) {
            return Ok((world, made));
        }
        match world.turn(*handler)? {
            Turned::Moved => made.push(*handler)?,
            Turned::Nothing => {}
        }
    }
    Ok((world, made))
}
