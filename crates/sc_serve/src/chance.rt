//! What is answered to runs by chance.

ghost use Rattle.std.specs.Prelude.{◌≡◌, ◌++◌, IfErr, IfOk, None, map};
ghost use Rattle.std.specs.Option.{option_map};
ghost use Rattle.sc_chance.specs.Found.{IsFoundRun, IsReported};
ghost use Rattle.sc_chance.specs.Outcomes.{AreOfRuns, reports_of};
ghost use Rattle.sc_lower.specs.Lowerings.{image_of};
ghost use Rattle.sc_serve.specs.Answer.{IsUnansweredOn, out_of_memory};
ghost use Rattle.sc_serve.specs.Chance as spec;
ghost use Rattle.sc_serve.specs.Chance.{IsChanceOf, IsChanceOfSource, IsChanceOn, TellsReports};

use crate::json::{reports_object, run_object};
use crate::numbered::push_number;
use crate::running::{explained_run, recording_of};
use crate::serve::{Answer, Exit, Fault, answer_explained, answer_unread, exit_of, root_if};
use sc_arguments::{ChanceOptions, Format, Until};
use sc_chance::{ChanceRun, Found, Outcomes, Seeds, Sought, play_until};
use sc_code::Program;
use sc_explain_run::{Limit, Played};
use sc_explain_text::Lines;
use sc_frontend::load_text;
use sc_lockpass::Version;
use sc_source::files::{Files, read_source};
use sc_source::source::Source;
use std::alloc::{AllocError, Global};

/// Runs the system of the named files by chance.
#[inline(never)]
pub fn answer_chance<'a, F: Files>(
    alloc: Global,
    options: &ChanceOptions<'a>,
    files: &F,
    names: &[&'a str],
) -> Result<Answer<'a>, Fault<'a>>
    ensures answer { let named = map (λ name. name.now) names.now in
        let held = map (λ name. F.bytes_of files.now name.now) names.now in
        IfOk result (λ answer. IsChanceOn options.now named held answer.text.items answer.exit answer.record) }
    ensures object { options.now.format ≡ Format.Text → IfOk result (λ answer. answer.object ≡ None) }
    ensures unanswered { let held = map (λ name. F.bytes_of files.now name.now) names.now in
        IfErr result (IsUnansweredOn (map (λ name. name.now) names.now) held) }
{
    match read_source(alloc, files, names) {
        Ok(source) => play_source(alloc, options, &source),
        Err(fault) => answer_unread(alloc, names, fault, options.is_explained),
    }
}

/// Runs the system of a source text by chance.
fn play_source<'a>(
    alloc: Global,
    options: &ChanceOptions<'a>,
    source: &Source,
) -> Result<Answer<'a>, Fault<'a>>
    ensures answer { IfOk result (λ answer.
        IsChanceOfSource options.now source.now answer.text.items answer.exit answer.record) }
    ensures object { options.now.format ≡ Format.Text → IfOk result (λ answer. answer.object ≡ None) }
    ensures unanswered { IfErr result (λ fault. fault ≡ out_of_memory) }
{
    match load_text(alloc, source.text(), &options.root) {
        Ok(program) => {
            let answer = play_loaded(alloc, &program, options, source);
            drop(program);
            answer
        }
        Err(rejection) => {
            let explained = root_if(options.is_explained, &options.root);
            answer_explained(alloc, source, &rejection, explained)
        }
    }
}

/// Runs the program of a source text by chance.
#[tactic(auto, using(crate::proofs::ChanceLemmas::run_told, crate::proofs::ChanceLemmas::reports_told))]
fn play_loaded<'a>(
    alloc: Global,
    program: &Program,
    options: &ChanceOptions<'a>,
    source: &Source,
) -> Result<Answer<'a>, Fault<'a>>
    ensures answer { IfOk result (λ answer.
        IsChanceOf (image_of program.now) options.now answer.text.items answer.exit answer.record) }
    ensures object { options.now.format ≡ Format.Text → IfOk result (λ answer. answer.object ≡ None) }
    ensures unanswered { IfErr result (λ fault. fault ≡ out_of_memory) }
{
    let seeds = Seeds {
        first: options.seed,
        times: options.times,
    };
    let sought = sought_of(options.until);
    match play_until(alloc, program, options.turns, seeds, sought)? {
        Found::Run(seed, run) => answer_found(alloc, program, options, source, seed, run),
        Found::Nothing(outcomes) => answer_nothing(alloc, options, &outcomes),
    }
}

fn sought_of(until: Until) -> Sought
    ensures { result ≡ spec.sought_of until }
{
    match until {
        Until::Fails => Sought::Fails,
        Until::Stuck => Sought::Stuck,
        Until::Refused => Sought::Refused,
        Until::Differs => Sought::Differs,
        Until::First => Sought::Any,
        Until::Never => Sought::Nothing,
    }
}

// ---- a run that was found

/// The answer with a run that shows what is looked for.
#[inline(never)]
fn answer_found<'a>(
    alloc: Global,
    program: &Program,
    options: &ChanceOptions<'a>,
    source: &Source,
    seed: u64,
    run: ChanceRun,
) -> Result<Answer<'a>, Fault<'a>>
    ensures answer { IfOk result (λ answer. spec.TellsRun options.now run answer.text.items answer.exit answer.record) }
    ensures object { options.now.format ≡ Format.Text → IfOk result (λ answer. answer.object ≡ None) }
    ensures unanswered { IfErr result (λ fault. fault ≡ out_of_memory) }
{
    let text = run_text(alloc, seed, &run)?;
    let object = match options.format {
        Format::Json => Some(run_object(alloc, seed, run.report.as_slice())?),
        Format::Text => None,
    };
    let played = Played {
        source,
        program,
        version: Version::Two,
        lines: run.lines.as_slice(),
        limit: Limit::Turns(options.turns),
        may_refuse: run.has_refused,
    };
    let note = explained_run(alloc, played, run.statuses.as_slice(), options.is_explained);
    let exit = exit_of(run.statuses.as_slice());
    let ChanceRun { lines, .. } = run;
    Ok(Answer {
        text,
        object,
        exit,
        note,
        record: recording_of(options.record, lines),
        beside: None,
    })
}

/// The seed of a run, and its report.
fn run_text(alloc: Global, seed: u64, run: &ChanceRun) -> Result<Vec<u8>, AllocError>
    ensures { IfOk result (λ text. text.items ≡ spec.seed_line seed ++ run.now.report.items) }
{
    let mut text = Vec::new(alloc);
    push_number(alloc, &mut text, "seed ", seed, "\n")?;
    text.extend_from_slice(run.report.as_slice())?;
    Ok(text)
}

// ---- no such run

/// The answer if no run shows what is looked for.
fn answer_nothing<'a>(
    alloc: Global,
    options: &ChanceOptions<'a>,
    outcomes: &Outcomes,
) -> Result<Answer<'a>, Fault<'a>>
    ensures answer { IfOk result (λ answer. spec.TellsNoRun (reports_of outcomes.now) answer.text.items answer.exit answer.record) }
    ensures object { options.now.format ≡ Format.Text → IfOk result (λ answer. answer.object ≡ None) }
    ensures unanswered { IfErr result (λ fault. fault ≡ out_of_memory) }
{
    let text = reports_text(alloc, outcomes)?;
    let object = match options.format {
        Format::Json => Some(reports_object(alloc, outcomes)?),
        Format::Text => None,
    };
    Ok(Answer {
        text,
        object,
        exit: Exit::Done,
        note: unrecorded_note(alloc, options.record),
        record: None,
        beside: None,
    })
}

/// How many different reports there are, and each of them.
fn reports_text(alloc: Global, outcomes: &Outcomes) -> Result<Vec<u8>, AllocError>
    ensures { IfOk result (λ text. TellsReports (reports_of outcomes.now) text.items) }
{
    let mut text = Vec::new(alloc);
    push_number(alloc, &mut text, "reports ", outcomes.len() as u64, "\n")?;
    let listed = listed_reports(alloc, outcomes)?;
    text.extend_from_slice(listed.as_slice())?;
    Ok(text)
}

/// Each report, after a line with the first seed that led to it and the number of runs that ended so.
fn listed_reports(alloc: Global, outcomes: &Outcomes) -> Result<Vec<u8>, AllocError> {
    let mut lines = Lines::new(alloc);
    for number in 0..outcomes.len() {
        let outcome = outcomes.outcome(number);
        lines.fill_number("report ~", number as u64 + 1);
        lines.fill_number(" by seed ~", outcome.seed);
        match outcome.runs {
            1 => lines.push(" in 1 run\n"),
            runs => lines.fill_number(" in ~ runs\n", runs as u64),
        }
        lines.push_bytes(outcome.report);
    }
    lines.finish()
}

/// That there is no run for the record, if a file is named for it.
fn unrecorded_note(alloc: Global, record: Option<&str>) -> Result<Vec<u8>, AllocError> {
    let Some(name) = record else {
        return Ok(Vec::new(alloc));
    };
    let mut lines = Lines::new(alloc);
    lines.fill_name("no run was found, so nothing is written to ~\n", name);
    lines.finish()
}
