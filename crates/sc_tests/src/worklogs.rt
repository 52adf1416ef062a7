//! A handler with its log: what jobs leave of it, and what is noted of them.

use crate::programs::program_of;
use crate::rows::{expect_equal, expect_lines, halves_of, object_state};
use arrayvec::ArrayVec;
use sc_code::Program;
use sc_explain_text::Lines;
use sc_region::{Errand, Job, Reference, Request, Value, Want};
use sc_worklog::LoggedRegion;
use std::alloc::Global;
use std::process::Abort;
use std::test::Fail;

/// A class whose root counts to 2 by a routine of its own and prints, and one of another handler.
const SOURCE: &str = "class APPLICATION create make
feature
    n: INTEGER
    make local c: separate CELL do from n := 0 until n = 2 loop step end print (n) create c ask (c) end
    step do n := n + 1 end
    ask (c: separate CELL) do print (c.item) end
invariant n < 8 end

class CELL feature item: INTEGER end";

/// Jobs of a handler that was asked for nothing yet, each with the most turns that it may take, and what is noted of them;
/// then what was printed, and of the first object whether it is settled and meets its invariant.
///
/// The request to create the root object is the first turn, and the loop's first test the next one. Each round takes three:
/// the routine begins, it ends, and the loop tests. What was granted or answered is taken by a turn of its own. A job ends
/// early only where other handlers are asked for something, or the handler fails.
const LOGS: &str = "|; ; no object
make 1|0 Take 1 Continue; ; open meets
make 1, go 1|0 Take 1 Continue, 0 Go 1 Continue; ; open meets
make 4|0 Take 4 Continue; ; open meets
make 1, go 100|0 Take 1 Continue, 0 Go 9 Create; 2; open meets
make 100|0 Take 10 Create; 2; open meets
make 100, made, granted, reply 7|0 Take 10 Create, 0 Made 1 Reserve, 0 Granted 2 Ask, 0 Reply 3 Release; 27; open meets
make 100, failed|0 Take 10 Create, 0 Failed 1 Fail; 2; open meets
go 5|0 Go 5 Continue; ; no object
reply 7|0 Reply 1 Fail; ; no object
make 1, make 1|0 Take 1 Continue, 0 Take 1 Continue; ; open meets";

// ---- jobs

/// The job of a name. `make` is the request to create an object of the first class on handler 0, by the root's procedure. Made
/// and granted is handler 1, and a reply is this number.
fn job_of(program: &Program, name: &str, number: u32) -> Result<Job, Fail> {
    match name {
        "make" => Ok(Job::Take(Request {
            poster: None,
            target: Reference {
                handler: 0,
                number: 1,
                class: 0,
            },
            errand: Errand::Makes(Some(program.root_procedure())),
            actuals: ArrayVec::new(),
            is_waited: false,
        })),
        "go" => Ok(Job::Go),
        "made" => Ok(Job::Made(1)),
        "granted" => {
            let mut handlers = ArrayVec::new();
            handlers.push(1);
            Ok(Job::Granted(handlers))
        }
        "reply" => Ok(Job::Reply(Some(Value::Integer(i64::from(number))))),
        "failed" => Ok(Job::Failed),
        _ => Err(Fail::new("an unknown job")),
    }
}

// ---- what is noted

fn job_name(job: &Job) -> &'static str {
    match job {
        Job::Take(_) => "Take",
        Job::Reply(_) => "Reply",
        Job::Failed => "Failed",
        Job::Refused => "Refused",
        Job::Granted(_) => "Granted",
        Job::Made(_) => "Made",
        Job::Go => "Go",
    }
}

fn want_name(want: &Want) -> &'static str {
    match want {
        Want::Continue => "Continue",
        Want::Reserve(_) => "Reserve",
        Want::Post(_) => "Post",
        Want::Ask { .. } => "Ask",
        Want::Create { .. } => "Create",
        Want::Release(_) => "Release",
        Want::Wait(_) => "Wait",
        Want::Done { .. } => "Done",
        Want::Fail(_) => "Fail",
    }
}

fn told(alloc: Global, region: &LoggedRegion<'_>) -> Lines {
    let mut told = Lines::new(alloc);
    let log = region.log();
    for place in 0..log.len() {
        let Some(entry) = log.get(place) else {
            told.push("no entry");
            break;
        };
        let handler = if place > 0 { ", ~ " } else { "~ " };
        told.fill_number(handler, entry.handler as u64);
        told.push(job_name(&entry.job));
        told.fill_number(" ~ ", entry.turns as u64);
        told.push(want_name(&entry.want));
    }
    told.push("; ");
    told.push_bytes(region.output());
    told.push("; ");
    told.push(match region.object_count() {
        0 => "no object",
        _ => object_state(region.settled(1), region.test_invariant(1)),
    });
    told
}

/// Plays the job that these words name. It takes at most as many turns as they say, or a hundred. If memory is refused to its
/// first turn, nothing is noted, and it is played once more. If it is refused to a later one, the job ends before that, and the
/// row is out of memory.
fn play<R: Abort>(
    rt: &R,
    program: &Program,
    region: &mut LoggedRegion<'_>,
    words: &str,
) -> Result<(), Fail> {
    let (name, number) = words.split_once(' ').unwrap_or((words, "100"));
    let number: u32 = number.parse()?;
    let limit = if name == "reply" { 100 } else { number };
    if limit == 0 {
        return Err(Fail::new("a job without turns"));
    }
    let job = job_of(program, name, number)?;
    let before = region.log().len();
    let outcome = match region.play(&job, limit) {
        Ok(outcome) => outcome,
        Err(_) => {
            expect_equal(rt, region.log().len(), before, "jobs that are noted");
            region.play(&job, limit)?
        }
    };
    if outcome.turns < limit && matches!(outcome.want, Want::Continue) {
        return Err(Fail::new("out of memory"));
    }
    Ok(())
}

/// Plays the jobs of a row, one after the other, and compares the text on the handler with what the row wants.
fn expect_row<R: Abort + AllocGlobal>(
    rt: &R,
    program: &Program,
    region: &mut LoggedRegion<'_>,
    row: &str,
) -> Result<(), Fail> {
    let (steps, wanted) = halves_of(row)?;
    for words in steps.split(", ") {
        if words.is_empty() {
            break;
        }
        play(rt, program, region, words)?;
    }
    expect_lines(rt, told(rt.alloc(), region), wanted, steps)
}

#[test]
fn jobs_are_noted(rt: HostRuntime) -> Result<(), Fail> {
    let program = program_of(rt.alloc(), SOURCE)?;
    for row in LOGS.lines() {
        let mut region = LoggedRegion::new(rt.alloc(), &program, 0);
        expect_row(&rt, &program, &mut region, row)?;
    }
    Ok(())
}
