//! The search.
ghost use Rattle.std.specs.Prelude.{◌≡◌, ◌≤◌, ℕ, IfOk, None, false, length, min, true};
ghost use Rattle.sc_search.specs.Closed.{IsClosedFor};
ghost use Rattle.sc_search.specs.Ends.{AreEnds};
ghost use Rattle.sc_search.specs.Found.{IsFirst, IsFound};
ghost use Rattle.sc_search.specs.Lengths.{IsLength, length_from};
ghost use Rattle.sc_search.specs.Limits.{LacksMemory, SaysWhy, SaysWhyFor, StaysWithin, has_given_up};
ghost use Rattle.sc_search.specs.Memory.{bytes_of};
ghost use Rattle.sc_search.specs.Steps.{IsExplored};
ghost use Rattle.sc_search.specs.Stops.{HasReached, MeetsAfter, SaysWhyAt, goes_on, is_undecided};
ghost use Rattle.sc_search.specs.Verdicts.{IsShown};
ghost use Rattle.sc_search.specs.Views.{met_of, states_of};
ghost use Rattle.sc_search.specs.Waiting.{HasStuck, seeks_stuck};

use crate::aims::Aim;
use crate::choices::play_choices;
use crate::closing::play_all;
use crate::ends::ends_after;
use crate::judging::seeks_stuck;
use crate::limits::Limits;
use crate::progress::{Progress, Stop};
use crate::replay::{Shown, Subject, finding_after, stuck_after};
use crate::verdict::{Finding, GivenUp, Length, Pass, Reason, Verdict};
use crate::waiting::{all_may_move, first_stuck};
use crate::watch::Watch;
use sc_code::Program;
use sc_lockpass::{HandlerNumber, Version};
use sc_orders::length_of;
use sc_world::laws::{
    kept_alike_read_alike, openings_are_of_their_program, runs_stay_of_their_program,
};
use std::alloc::{AllocError, Global};

/// How many turns that may follow at once are joined with the one before them.
const MOST_JOINED: u32 = 1_000;

/// Looks for an order of turns of a program, with the version's limit on handlers, that meets the aim. It gives up if
/// it would have to keep more states than the limits allow, or has played 2,000 turns for each of them, or if what it
/// keeps of them takes more bytes.
///
/// First, orders that differ only in turns that touch nothing of others are played once. If nothing is found so, all
/// are played. A turn that asks nothing of others but of a free handler, releases what is its handler's own, or takes a request where
/// none can be posted, then follows the one before it at once.
/// If memory runs out meanwhile, the verdict is what the first pass has found.
///
/// # Errors
/// Memory ran out in the first pass.
pub fn search<W: Watch>(
    alloc: Global,
    program: &Program,
    version: Version,
    aim: Aim,
    limits: Limits,
    watch: &mut W,
) -> Result<Verdict, AllocError>
    ensures found { IfOk result (λ verdict. IsFound program.now.image version verdict.finding) }
    ensures first { IfOk result (λ verdict. IsFirst program.now.image version aim verdict.finding) }
    ensures ends { IfOk result (λ verdict. AreEnds program.now.image version verdict.ends.items) }
    ensures whole { IfOk result (IsShown program.now.image version aim) }
    ensures why { IfOk result (λ verdict. SaysWhy program.now.image version aim limits verdict.is_whole verdict.finding verdict.why) }
    ensures memory { IfOk result (StaysWithin limits) }
{
    let subject = Subject {
        alloc,
        program,
        version,
        aim,
    };
    let mut progress = Progress::new(subject, Pass::Choices)?;
    let stop = play_choices(subject, &mut progress, limits, watch)?;
    let may_go_on = goes_on(&stop);
    let mut found = verdict_of(subject, progress, stop, false)?;
    if !may_go_on {
        return Ok(found);
    }
    let mut far = Far {
        states: 0,
        turns: 0,
        bytes: 0,
    };
    let whole = match search_all(subject, limits, watch, &mut far) {
        Ok(whole) => whole,
        Err(_) => {
            found.why = why_of(&found, Some(want_of_memory(far)));
            return Ok(found);
        }
    };
    if is_undecided(&whole.finding) {
        found.why = why_of(&found, whole.why);
        return Ok(found);
    }
    Ok(whole)
}

/// How far the search over all turns came.
#[derive(Clone, Copy)]
struct Far {
    states: u32,
    turns: u64,
    bytes: u64,
}

/// That the search gives up since memory ran out, when it had come so far.
fn want_of_memory(far: Far) -> GivenUp
    ensures { LacksMemory result }
{
    GivenUp {
        pass: Pass::AllTurns,
        reason: Reason::Memory,
        states: far.states,
        turns: far.turns,
        bytes: far.bytes,
    }
}

/// Why the search gave up that has this verdict, if it did.
fn why_of(verdict: &Verdict, why: Option<GivenUp>) -> Option<GivenUp>
    ensures given_up { has_given_up verdict.now.is_whole verdict.now.finding ≡ true → result ≡ why }
    ensures decided { has_given_up verdict.now.is_whole verdict.now.finding ≡ false → result ≡ None }
{
    match verdict.finding {
        Finding::Nothing if verdict.is_whole => None,
        Finding::Nothing | Finding::Undecided => why,
        Finding::Stuck(_) | Finding::Fails(_) | Finding::Refused(_) => None,
    }
}

/// Whether the search over all turns follows one over choices that stopped so.
fn goes_on(stop: &Option<Stop>) -> bool
    ensures { result ≡ goes_on stop.now }
{
    matches!(stop, None | Some(Stop::Endless))
}

fn is_undecided(finding: &Finding) -> bool
    ensures { result ≡ is_undecided finding.now }
{
    matches!(finding, Finding::Undecided)
}

/// The search over all turns, joined with turns that may follow at once. If that doesn't show that each handler may go on, each
/// turn is tried by itself. It says how far it came, also if memory runs out.
fn search_all<W: Watch>(
    subject: Subject<'_>,
    limits: Limits,
    watch: &mut W,
    far: &mut Far,
) -> Result<Verdict, AllocError>
    ensures found { IfOk result (λ verdict. IsFound subject.entry.program.now.image subject.entry.version verdict.finding) }
    ensures first { IfOk result (λ verdict. IsFirst subject.entry.program.now.image subject.entry.version subject.entry.aim verdict.finding) }
    ensures ends { IfOk result (λ verdict. AreEnds subject.entry.program.now.image subject.entry.version verdict.ends.items) }
    ensures whole { IfOk result (IsShown subject.entry.program.now.image subject.entry.version subject.entry.aim) }
    ensures why { IfOk result (λ verdict. SaysWhyFor subject.entry limits verdict.is_whole verdict.finding verdict.why) }
    ensures memory { IfOk result (StaysWithin limits) }
{
    let mut progress = Progress::new(subject, Pass::AllTurns)?;
    let played = play_all(subject, &mut progress, MOST_JOINED, limits, watch);
    *far = Far {
        states: progress.store.len(),
        turns: progress.turns(),
        bytes: progress.bytes(),
    };
    if let Some(stop) = played? {
        return verdict_of(subject, progress, Some(stop), true);
    }
    if all_may_move(subject, &progress)? {
        return verdict_of(subject, progress, None, true);
    }
    search_singly(subject, limits, watch, far)
}

/// The search over all turns, each by itself. It says how far it came, also if memory runs out.
fn search_singly<W: Watch>(
    subject: Subject<'_>,
    limits: Limits,
    watch: &mut W,
    far: &mut Far,
) -> Result<Verdict, AllocError>
    ensures found { IfOk result (λ verdict. IsFound subject.entry.program.now.image subject.entry.version verdict.finding) }
    ensures first { IfOk result (λ verdict. IsFirst subject.entry.program.now.image subject.entry.version subject.entry.aim verdict.finding) }
    ensures ends { IfOk result (λ verdict. AreEnds subject.entry.program.now.image subject.entry.version verdict.ends.items) }
    ensures whole { IfOk result (IsShown subject.entry.program.now.image subject.entry.version subject.entry.aim) }
    ensures why { IfOk result (λ verdict. SaysWhyFor subject.entry limits verdict.is_whole verdict.finding verdict.why) }
    ensures memory { IfOk result (StaysWithin limits) }
{
    let mut progress = Progress::new(subject, Pass::AllTurns)?;
    let played = play_all(subject, &mut progress, 0, limits, watch);
    *far = Far {
        states: progress.store.len(),
        turns: progress.turns(),
        bytes: progress.bytes(),
    };
    if let Some(stop) = played? {
        return verdict_of(subject, progress, Some(stop), true);
    }
    if seeks_stuck(subject.aim) {
        return closed_verdict(subject, progress);
    }
    verdict_of(subject, progress, None, true)
}

/// The verdict on states of which all turns are tried, each by itself, if stuck handlers are looked for.
fn closed_verdict<'p>(subject: Subject<'p>, progress: Progress<'p>) -> Result<Verdict, AllocError>
    requires closed { IsClosedFor subject (states_of progress) }
    requires explored { IsExplored subject.program.now.image subject.version 0 (met_of progress) }
    requires reached { HasReached subject.program.now.image subject.version subject.aim progress }
    requires seeks { seeks_stuck subject.aim ≡ true }
    ensures found { IfOk result (λ verdict. IsFound subject.entry.program.now.image subject.entry.version verdict.finding) }
    ensures first { IfOk result (λ verdict. IsFirst subject.entry.program.now.image subject.entry.version subject.entry.aim verdict.finding) }
    ensures ends { IfOk result (λ verdict. AreEnds subject.entry.program.now.image subject.entry.version verdict.ends.items) }
    ensures whole { IfOk result (IsShown subject.entry.program.now.image subject.entry.version subject.entry.aim) }
    ensures why { IfOk result (λ verdict. (limits : Limits) → SaysWhyFor subject.entry limits verdict.is_whole verdict.finding verdict.why) }
    ensures memory { (limits : Limits) → bytes_of progress.entry ≤ limits.bytes → IfOk result (StaysWithin limits) }
{
    match first_stuck(subject, &progress)? {
        Some(number) => stuck_verdict(subject, progress, number),
        None => verdict_of(subject, progress, None, true),
    }
}

/// The verdict if a handler waits for good in the state of the number.
fn stuck_verdict<'p>(
    subject: Subject<'p>,
    progress: Progress<'p>,
    number: u32,
) -> Result<Verdict, AllocError>
    requires stuck { HasStuck subject.program.now.image subject.version (states_of progress) number }
    requires reached { HasReached subject.program.now.image subject.version subject.aim progress }
    requires seeks { seeks_stuck subject.aim ≡ true }
    ensures found { IfOk result (λ verdict. IsFound subject.entry.program.now.image subject.entry.version verdict.finding) }
    ensures first { IfOk result (λ verdict. IsFirst subject.entry.program.now.image subject.entry.version subject.entry.aim verdict.finding) }
    ensures ends { IfOk result (λ verdict. AreEnds subject.entry.program.now.image subject.entry.version verdict.ends.items) }
    ensures whole { IfOk result (λ verdict. verdict.is_whole ≡ false) }
    ensures why { IfOk result (λ verdict. (limits : Limits) → SaysWhyFor subject.entry limits verdict.is_whole verdict.finding verdict.why) }
{
    let met = progress.store.len();
    let bytes = progress.bytes();
    let length = orders_length(subject, &progress, true)?;
    let ends = ends_after(subject, &progress.outcomes)?;
    let Shown { finding, why } = stuck_after(subject, progress, number)?;
    Ok(Verdict {
        finding,
        states: met,
        bytes,
        is_whole: false,
        ends,
        length,
        why,
    })
}

/// How long orders are, if all turns of all states were played, or choices alone. The first state of all turns is the opening.
///
/// # Errors
/// Memory ran out.
fn orders_length(
    subject: Subject<'_>,
    progress: &Progress<'_>,
    is_all: bool,
) -> Result<Length, AllocError>
    ensures { is_all ≡ true → (joined : ℕ) → IsExplored subject.entry.program.now.image subject.entry.version joined (met_of progress.now) →
        HasReached subject.entry.program.now.image subject.entry.version subject.entry.aim progress.now →
        IfOk result (IsLength subject.entry.program.now.image subject.entry.version joined) }
{
    kept_alike_read_alike();
    openings_are_of_their_program();
    runs_stay_of_their_program();
    if progress.store.len() == 0 {
        return Ok(Length::Unknown);
    }
    let first = progress.store.order(0)?.len();
    if is_all && first > 0 {
        return Ok(Length::Unknown);
    }
    let length = length_of(
        subject.alloc,
        first.min(u32::MAX as usize) as u32,
        progress.store.len() as usize,
        &progress.edges,
    )?;
    Ok(length_from(length))
}

/// How long orders are, if edges lead on so. The largest number may be that of an edge that doesn't count all its turns.
fn length_from(length: sc_orders::Length) -> Length
    ensures { result ≡ length_from length }
{
    match length {
        sc_orders::Length::AtMost(most) if most < u32::MAX => Length::AtMost(most),
        sc_orders::Length::Endless => Length::Endless,
        sc_orders::Length::AtMost(_) | sc_orders::Length::Unknown => Length::Unknown,
    }
}

/// The verdict of a search that stopped so, and played all turns or choices alone.
fn verdict_of(
    subject: Subject<'_>,
    progress: Progress<'_>,
    stop: Option<Stop>,
    is_all: bool,
) -> Result<Verdict, AllocError>
    ensures found { IfOk result (λ verdict. IsFound subject.entry.program.now.image subject.entry.version verdict.finding) }
    ensures first { IfOk result (λ verdict. IsFirst subject.entry.program.now.image subject.entry.version subject.entry.aim verdict.finding) }
    ensures ends { IfOk result (λ verdict. AreEnds subject.entry.program.now.image subject.entry.version verdict.ends.items) }
    ensures states { IfOk result (λ verdict. verdict.states ≡ min (length (states_of progress.entry)) 4294967295) }
    ensures bytes { IfOk result (λ verdict. verdict.bytes ≡ bytes_of progress.entry) }
    ensures whole { IfOk result (λ verdict. verdict.is_whole ≡ true → (is_all ≡ true) × (stop ≡ None) × (verdict.finding ≡ Finding.Nothing)) }
    ensures long { is_all ≡ true → (joined : ℕ) → IsExplored subject.entry.program.now.image subject.entry.version joined (met_of progress.entry) →
        HasReached subject.entry.program.now.image subject.entry.version subject.entry.aim progress.entry →
        IfOk result (λ verdict. IsLength subject.entry.program.now.image subject.entry.version joined verdict.length) }
    ensures done { stop ≡ None → IfOk result (λ verdict. (verdict.finding ≡ Finding.Nothing) × (verdict.is_whole ≡ is_all) × (verdict.why ≡ None)) }
    ensures why { IfOk result (λ verdict. SaysWhyAt subject.entry stop verdict.is_whole verdict.finding verdict.why) }
{
    let states = progress.store.len();
    let bytes = progress.bytes();
    let worlds = progress.give_up(Reason::Worlds);
    let is_whole = is_all && stop.is_none();
    let length = match stop {
        None => orders_length(subject, &progress, is_all)?,
        Some(_) => Length::Unknown,
    };
    let Shown { finding, why } = shown_at(subject, stop, worlds)?;
    let ends = ends_after(subject, &progress.outcomes)?;
    Ok(Verdict {
        finding,
        states,
        bytes,
        is_whole,
        ends,
        length,
        why,
    })
}

/// What is found where a search stopped so, and why it gives up if that is nothing. `worlds` is why it does if turns
/// don't lead to the same world again.
fn shown_at(subject: Subject<'_>, stop: Option<Stop>, worlds: GivenUp) -> Result<Shown, AllocError>
    requires worlds { worlds.reason ≡ Reason.Worlds }
    ensures found { IfOk result (λ shown. IsFound subject.entry.program.now.image subject.entry.version shown.finding) }
    ensures first { IfOk result (λ shown. IsFirst subject.entry.program.now.image subject.entry.version subject.entry.aim shown.finding) }
    ensures none { stop ≡ None → IfOk result (λ shown. (shown.finding ≡ Finding.Nothing) × (shown.why ≡ None)) }
    ensures why { IfOk result (λ shown. SaysWhyAt subject.entry stop false shown.finding shown.why) }
{
    match stop {
        None => Ok(Shown {
            finding: Finding::Nothing,
            why: None,
        }),
        Some(Stop::Met(turns)) => shown_after(subject, &turns, worlds),
        Some(Stop::Cut(why)) => Ok(Shown {
            finding: Finding::Undecided,
            why: Some(why),
        }),
        Some(Stop::Endless) => Ok(Shown {
            finding: Finding::Undecided,
            why: None,
        }),
    }
}

/// What is found after these turns, which led to what is looked for. `worlds` is why the search gives up if they don't lead there
/// again.
fn shown_after(
    subject: Subject<'_>,
    turns: &[HandlerNumber],
    worlds: GivenUp,
) -> Result<Shown, AllocError>
    requires worlds { worlds.reason ≡ Reason.Worlds }
    ensures found { IfOk result (λ shown. IsFound subject.entry.program.now.image subject.entry.version shown.finding) }
    ensures first { IfOk result (λ shown. IsFirst subject.entry.program.now.image subject.entry.version subject.entry.aim shown.finding) }
    ensures why { IfOk result (λ shown. (limits : Limits) →
        MeetsAfter subject.entry.program.now.image subject.entry.version subject.entry.aim turns.now →
        SaysWhyFor subject.entry limits false shown.finding shown.why) }
{
    match finding_after(subject, turns)? {
        Some(finding) => Ok(Shown { finding, why: None }),
        None => Ok(Shown {
            finding: Finding::Undecided,
            why: Some(worlds),
        }),
    }
}
