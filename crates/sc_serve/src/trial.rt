//! How one test is played: run once, or in every order of its turns.

ghost use Rattle.std.specs.Prelude.{◌≡◌, IfOk, string_bytes};
ghost use Rattle.sc_class.specs.View.{root_of};
ghost use Rattle.sc_lower.specs.Lowerings.{image_of};
ghost use Rattle.sc_request.specs.Cores.{center_of};
ghost use Rattle.sc_test_cases.specs.Lines as lines;
ghost use Rattle.sc_serve.specs.Replaced.{MayBeWritten};
ghost use Rattle.sc_serve.specs.Search.{limits_by};
ghost use Rattle.sc_serve.specs.Tests as spec;
ghost use Rattle.sc_serve.specs.Tests.{HasOutcome, IsOutcomeOf, IsOutcomeOfRun, IsOutcomeOfSearch, lines_in};

use crate::folder::Folder;
use crate::progress::Tell;
use crate::running::{explained_run, fault_of};
use crate::searching::{found_note, limits_by};
use crate::serve::Fault;
use crate::tracing::Tracing;
use crate::verdict::{lacks_memory, turns_of};
use crate::watching::RunWatch;
use sc_arguments::TestOptions;
use sc_audit::RecordLine;
use sc_class::Root;
use sc_code::Program;
use sc_driver::{Ended, run_program};
use sc_explain_run::{Limit, Played};
use sc_lockpass::Version;
use sc_model::Status;
use sc_plant::{Bounds, Left};
use sc_search::{Aim, Finding, Length, Verdict, Watch, search};
use sc_source::files::Files;
use sc_source::source::Source;
use sc_test_cases::{Outcome, TestResult, passes, test_name};
use std::alloc::{AllocError, Global};
use std::sync::Wait;
use std::thread::Threads;
use std::time::Clock;

/// How a test came out, the record of an order in which it fails, and why, as far as that is asked for.
#[derive(Drop)]
struct Trial {
    outcome: Outcome,
    order: Option<Vec<RecordLine>>,
    note: Result<Vec<u8>, AllocError>,
}

/// Plays the program of a test that is run from this root, and keeps the record of an order in which it fails.
#[inline(never)]
pub fn try_test<'a, R: Threads + Wait + Clock + Sync, F: Files, W: Watch + Tell>(
    rt: &R,
    alloc: Global,
    program: &Program,
    options: &TestOptions<'_>,
    source: &Source,
    root: &Root,
    folder: &Folder<'_, 'a, F>,
    watch: &mut W,
) -> Result<TestResult, Fault<'a>>
    ensures played { IfOk result (λ result. HasOutcome (image_of program.now) options.now result.outcome) }
    ensures named { IfOk result (λ result. string_bytes result.name ≡ lines.name_of (root_of root.now)) }
    ensures target { let written = spec.record_in folder.now.name (lines.name_of (root_of root.now)) in
        IfOk result (λ _. MayBeWritten (F.replaced_by folder.now.files.now) written) }
{
    let name = test_name(alloc, root)?;
    folder.check(alloc, name.as_str())?;
    let Trial {
        outcome,
        order,
        note,
    } = play(rt, alloc, program, options, source, watch)?;
    let note = note?;
    if let Some(lines) = &order {
        folder.keep(alloc, name.as_str(), lines.as_slice())?;
    }
    Ok(TestResult {
        name,
        outcome,
        note,
    })
}

/// Plays the program of a test.
fn play<'a, R: Threads + Wait + Clock + Sync, W: Watch + Tell>(
    rt: &R,
    alloc: Global,
    program: &Program,
    options: &TestOptions<'_>,
    source: &Source,
    watch: &mut W,
) -> Result<Trial, Fault<'a>>
    ensures { IfOk result (λ trial.
        IsOutcomeOf options.now.is_searched (image_of program.now) options.now trial.outcome (lines_in trial.order)) }
{
    if options.is_searched {
        Ok(search_test(alloc, program, options, source, watch)?)
    } else {
        run_test(rt, alloc, program, options, source, watch)
    }
}

/// Runs the program of a test once.
#[inline(never)]
fn run_test<'a, R: Threads + Wait + Clock + Sync, T: Tell>(
    rt: &R,
    alloc: Global,
    program: &Program,
    options: &TestOptions<'_>,
    source: &Source,
    teller: &mut T,
) -> Result<Trial, Fault<'a>>
    ensures { IfOk result (λ trial.
        IsOutcomeOfRun (image_of program.now) options.now.turns trial.outcome (lines_in trial.order)) }
{
    let bounds = Bounds {
        turns: options.turns,
        output: None,
    };
    let mut watch = RunWatch::new(rt, Tracing::new(teller, None), options.is_explained);
    let ended = run_program(rt, alloc, program, options.workers, bounds, &mut watch);
    drop(watch);
    match ended {
        Ok(Ended { left, statuses, .. }) => {
            let statuses = statuses.as_slice();
            Ok(trial_of(alloc, program, options, source, left, statuses))
        }
        Err(fault) => Err(fault_of(fault)),
    }
}

/// How a test came out whose run left this, with the handlers in these states.
fn trial_of(
    alloc: Global,
    program: &Program,
    options: &TestOptions<'_>,
    source: &Source,
    left: Left<'_>,
    statuses: &[Status],
) -> Trial
    ensures outcome { result.outcome ≡ spec.outcome_of_run (center_of left.entry.core) left.entry.lines.items }
    ensures order { lines_in result.order ≡ spec.order_of_run (center_of left.entry.core) left.entry.lines.items }
{
    if passes(&left.core) {
        return Trial {
            outcome: Outcome::Passes,
            order: None,
            note: Ok(Vec::new(alloc)),
        };
    }
    let Left { lines, .. } = left;
    let played = Played {
        source,
        program,
        version: Version::Two,
        lines: lines.as_slice(),
        limit: Limit::Turns(options.turns),
        may_refuse: true,
    };
    let note = explained_run(alloc, played, statuses, options.is_explained);
    Trial {
        outcome: Outcome::FailsAfter(turns_of(lines.as_slice())),
        order: Some(lines),
        note,
    }
}

/// Plays the program of a test in every order of its turns.
#[inline(never)]
fn search_test<W: Watch>(
    alloc: Global,
    program: &Program,
    options: &TestOptions<'_>,
    source: &Source,
    watch: &mut W,
) -> Result<Trial, AllocError>
    ensures { IfOk result (λ trial.
        IsOutcomeOfSearch (image_of program.now) (limits_by options.now.states options.now.memory) trial.outcome (lines_in trial.order)) }
{
    let verdict = search(
        alloc,
        program,
        Version::Two,
        Aim::Any,
        limits_by(options.states, options.memory),
        watch,
    )?;
    if lacks_memory(verdict.why) {
        return Err(AllocError);
    }
    let note = found_note(
        alloc,
        program,
        source,
        &verdict.finding,
        options.is_explained,
    );
    Ok(Trial {
        outcome: outcome_of(&verdict),
        order: order_of(verdict.finding),
        note,
    })
}

/// How a test came out whose search has this verdict.
fn outcome_of(verdict: &Verdict) -> Outcome
    ensures { result ≡ spec.outcome_of_search verdict.now.is_whole verdict.now.length verdict.now.finding }
{
    match &verdict.finding {
        Finding::Nothing => outcome_of_nothing(verdict.is_whole, verdict.length),
        Finding::Stuck(order) | Finding::Fails(order) | Finding::Refused(order) => {
            Outcome::FailsAfter(turns_of(order.lines.as_slice()))
        }
        Finding::Undecided => Outcome::Undecided,
    }
}

/// How a test came out in which nothing was found.
fn outcome_of_nothing(is_whole: bool, length: Length) -> Outcome
    ensures { result ≡ spec.outcome_of_nothing is_whole length }
{
    if is_whole {
        outcome_of_whole(length)
    } else {
        Outcome::Undecided
    }
}

/// How a test came out of which every order was played, and nothing was found: it passes if each of them ends.
fn outcome_of_whole(length: Length) -> Outcome
    ensures { result ≡ spec.outcome_of_whole length }
{
    match length {
        Length::AtMost(_) => Outcome::AlwaysPasses,
        Length::Endless => Outcome::GoesOn,
        Length::Unknown => Outcome::Undecided,
    }
}

/// The order that was found, if one was.
fn order_of(finding: Finding) -> Option<Vec<RecordLine>>
    ensures { lines_in result ≡ spec.order_of_search finding }
{
    match finding {
        Finding::Stuck(order) | Finding::Fails(order) | Finding::Refused(order) => {
            Some(order.lines)
        }
        Finding::Nothing | Finding::Undecided => None,
    }
}
