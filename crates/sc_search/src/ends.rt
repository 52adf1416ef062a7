//! The ends of orders.
ghost use Rattle.std.specs.Prelude.{IfOk, IfSome, OnOk};
ghost use Rattle.sc_world.specs.Turning.{Runs};
ghost use Rattle.sc_world.specs.Views.{world_of};
ghost use Rattle.sc_world.specs.Worlds.{opened};
ghost use Rattle.sc_search.specs.Ends.{AreEnds, IsEnd};

use crate::judging::{Kind, some_is_in};
use crate::lines::lines_of;
use crate::replay::{Subject, world_after};
use crate::verdict::{End, Order};
use sc_lockpass::HandlerNumber;
use sc_world::{Configuration, World};
use std::alloc::{AllocError, Global};

/// Turns from the opening on, after which no handler has a job, and the report of what they leave.
#[derive(Drop)]
pub(crate) struct FoundEnd {
    turns: Vec<HandlerNumber>,
    report: Vec<u8>,
}

/// Adds the outcome of these turns, which led to the world, unless another one has an equal report.
///
/// # Errors
/// Memory ran out.
pub(crate) fn push_outcome(
    alloc: Global,
    outcomes: &mut Vec<FoundEnd>,
    world: &Configuration<'_>,
    turns: &[HandlerNumber],
) -> Result<(), AllocError> {
    let report = world.report()?;
    if outcomes
        .iter()
        .any(|outcome| outcome.report.as_slice() == report.as_slice())
    {
        return Ok(());
    }
    let turns = Vec::from_slice(alloc, turns)?;
    outcomes.push(FoundEnd { turns, report })?;
    Ok(())
}

/// The ends that these outcomes are, each played once more.
///
/// # Errors
/// Memory ran out.
pub(crate) fn ends_after(
    subject: Subject<'_>,
    outcomes: &[FoundEnd],
) -> Result<Vec<End>, AllocError>
    ensures { IfOk result (λ ends. AreEnds subject.entry.program.now.image subject.entry.version ends.items) }
{
    let mut ends = Vec::new(subject.alloc);
    for outcome in outcomes {
        push_end(subject, &mut ends, &outcome.turns)?;
    }
    Ok(ends)
}

/// Adds the end that these turns lead to, if no handler has anything to do there.
fn push_end(
    subject: Subject<'_>,
    ends: &mut Vec<End>,
    turns: &[HandlerNumber],
) -> Result<(), AllocError>
    requires { AreEnds subject.program.now.image subject.version ends.old.items }
    ensures { OnOk result (AreEnds subject.entry.program.now.image subject.entry.version ends.new.items) }
{
    if let Some(end) = end_after(subject, turns)? {
        ends.push(end)?;
    }
    Ok(())
}

/// What these turns lead to, if no handler has anything to do there.
fn end_after(subject: Subject<'_>, turns: &[HandlerNumber]) -> Result<Option<End>, AllocError>
    ensures { IfOk result (λ end. IfSome end (IsEnd subject.entry.program.now.image subject.entry.version)) }
{
    let world = world_after(subject, turns)?;
    end_in(subject, &world, turns)
}

/// What the world is that these turns led to, if no handler has anything to do there.
fn end_in(
    subject: Subject<'_>,
    world: &World<'_>,
    turns: &[HandlerNumber],
) -> Result<Option<End>, AllocError>
    requires { Runs turns.now (opened subject.program.now.image subject.version) (world_of world.now) }
    ensures { IfOk result (λ end. IfSome end (IsEnd subject.entry.program.now.image subject.entry.version)) }
{
    if some_is_in(Kind::IsBusy, world)? {
        return Ok(None);
    }
    let report = world.report()?;
    let lines = lines_of(subject.alloc, turns)?;
    Ok(Some(End {
        order: Order { lines },
        report,
    }))
}
