//! The calls of the library that the program itself doesn't make: whoever builds on a crate may.

use crate::programs::{application, program_of};
use crate::rows::{expect_equal, expect_that};
use sc_check::check;
use sc_class::{ClassId, Tables, tables};
use sc_lockpass::Version;
use sc_lockpass::wait_conditions::{ClauseKind, ClauseResult, Entry, EntryVerdict, Release};
use sc_lower::{Lowering, lower_within};
use sc_parse::{let_go, parse};
use sc_request::Core;
use sc_source::{SourceFault, join_sources};
use sc_text::lex;
use sc_tree::System;
use std::alloc::Global;
use std::process::Abort;
use std::test::Fail;

/// A class whose root counts to 1 by a routine of its own: nine instructions.
const SMALL: &str = "class APPLICATION create make
feature
    n: INTEGER
    make do raise print (n) end
    raise do n := n + 1 end
invariant n >= 0
end
";

/// A class and its heir, each with an invariant.
const HEIR: &str = "class APPLICATION create make
feature n: INTEGER make do n := 1 end
invariant n >= 0
end
class HEIR inherit APPLICATION create make
invariant n < 4
end
";

// ---- entries

/// A clause that was evaluated, and what its entry does if it is false.
fn clause(kind: ClauseKind, holds: bool) -> ClauseResult {
    ClauseResult { kind, holds }
}

/// A clause is waited for if it names a handler that was newly reserved; the first false one decides. The entry is one of handler 0
/// that has newly reserved handler 1.
#[test]
fn clauses_decide(rt: HostRuntime) {
    let mut entry = Entry::new(0);
    entry.reserved.push(1);
    let with_reserved = entry.clause_kind(&[None, Some(1)]);
    let is_waited = matches!(with_reserved, ClauseKind::WaitCondition);
    expect_that(
        &rt,
        is_waited,
        "a clause on a reserved handler is waited for",
    );
    let with_others = entry.clause_kind(&[Some(0), None, Some(2)]);
    let is_tested = matches!(with_others, ClauseKind::CorrectnessCondition);
    expect_that(&rt, is_tested, "a clause on others is tested at once");
    let waits = ClauseKind::WaitCondition;
    let refuses = ClauseKind::CorrectnessCondition;
    let all_hold = [clause(waits, true), clause(refuses, true)];
    let starts = matches!(Entry::verdict(&all_hold), EntryVerdict::Start);
    expect_that(&rt, starts, "it starts if all clauses hold");
    let one_waits = [
        clause(refuses, true),
        clause(waits, false),
        clause(refuses, false),
    ];
    let waits_on = matches!(Entry::verdict(&one_waits), EntryVerdict::Wait);
    expect_that(
        &rt,
        waits_on,
        "it waits if the first false clause is waited for",
    );
    let one_refuses = [clause(refuses, false), clause(waits, false)];
    let is_refused = matches!(Entry::verdict(&one_refuses), EntryVerdict::Refuse);
    expect_that(
        &rt,
        is_refused,
        "it is refused if the first false clause is tested at once",
    );
}

/// A session ends with each release but that of an entry that waits.
#[test]
fn sessions_end(rt: HostRuntime) {
    expect_that(&rt, Release::Exit.ends_session(), "an exit ends a session");
    let waits_on = !Release::FalseWaitCondition.ends_session();
    expect_that(&rt, waits_on, "an entry that waits ends no session");
}

/// At the opening the first handler holds itself alone.
#[test]
fn handlers_hold_themselves(rt: HostRuntime) -> Result<(), Fail> {
    let core = Core::opening(rt.alloc(), 0, 0, Version::Two)?;
    expect_that(&rt, core.held(0, 0), "handler 0 holds itself");
    expect_that(&rt, !core.held(0, 1), "it doesn't hold another");
    expect_that(&rt, !core.held(1, 0), "another doesn't hold it");
    Ok(())
}

// ---- programs

/// How long the code is, and how many operands each routine has at most. An attribute is no routine.
#[test]
fn code_is_counted(rt: HostRuntime) -> Result<(), Fail> {
    let program = program_of(rt.alloc(), SMALL)?;
    expect_equal(&rt, program.instructions(), 9, "instructions");
    expect_equal(&rt, program.depth(0), 0, "operands of n");
    expect_equal(&rt, program.depth(1), 1, "operands of make");
    expect_equal(&rt, program.depth(2), 2, "operands of raise");
    expect_equal(&rt, program.depth(3), 0, "operands of no feature");
    Ok(())
}

/// The tables of a system's classes.
fn tables_of<'s>(alloc: Global, system: &'s System) -> Result<Tables<'s>, Fail> {
    let root = application(alloc)?;
    Ok(tables(alloc, system, &root)?)
}

/// Code that is too long hands the system back, which can then be lowered within more.
fn expect_too_long<R: Abort + AllocGlobal>(rt: &R, system: &System) -> Result<(), Fail> {
    let alloc = rt.alloc();
    let checked = check(alloc, tables_of(alloc, system)?)?;
    match lower_within(alloc, checked, 8) {
        Err(Lowering::CodeTooLong(checked)) => {
            let program = lower_within(alloc, checked, 9)?;
            expect_equal(rt, program.instructions(), 9, "instructions within nine");
            Ok(())
        }
        Err(fault) => Err(Fail::from(fault)),
        Ok(_) => Err(Fail::new("nine instructions within eight")),
    }
}

#[test]
fn long_code_is_refused(rt: HostRuntime) -> Result<(), Fail> {
    let system = system_of(rt.alloc(), SMALL)?;
    let answer = expect_too_long(&rt, &system);
    let_go(system);
    answer
}

/// An heir's invariant has the clauses of its parent, too.
fn expect_joined<R: Abort + AllocGlobal>(rt: &R, system: &System) -> Result<(), Fail> {
    let alloc = rt.alloc();
    let tables = tables_of(alloc, system)?;
    for &(class, wanted, of) in &[
        (ClassId::Declared(0), 1, "clauses of the parent"),
        (ClassId::Declared(1), 2, "clauses of the heir"),
        (ClassId::Any, 0, "clauses of ANY"),
    ] {
        let clauses = tables.invariant_of(alloc, class)?;
        expect_equal(rt, clauses.len(), wanted, of);
    }
    Ok(())
}

#[test]
fn invariants_are_joined(rt: HostRuntime) -> Result<(), Fail> {
    let system = system_of(rt.alloc(), HEIR)?;
    let answer = expect_joined(&rt, &system);
    let_go(system);
    answer
}

/// The system of a source text.
fn system_of(alloc: Global, text: &str) -> Result<System, Fail> {
    let tokens = lex(alloc, text)?;
    Ok(parse(alloc, tokens.as_slice())?)
}

// ---- sources

/// Each text is without its byte order mark and ends with a line feed. The first file at fault is named.
#[test]
fn sources_are_joined(rt: HostRuntime) -> Result<(), Fail> {
    let mut marked: [&[u8]; 2] = [b"\xef\xbb\xbfa", b"b"];
    let text = join_sources(rt.alloc(), &mut marked)?;
    expect_equal(&rt, text.as_str(), "a\nb\n", "two files");
    let mut broken: [&[u8]; 2] = [b"a", b"\xff"];
    match join_sources(rt.alloc(), &mut broken) {
        Err(SourceFault::NotUtf8 { file: 1 }) => Ok(()),
        Err(fault) => Err(Fail::from(fault)),
        Ok(_) => Err(Fail::new("a byte that is no UTF-8")),
    }
}
