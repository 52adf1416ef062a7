//! Audits of what a run left with its own record, with records of other lines, and with each text that differs from a record in
//! one byte.
//!
//! The numbers of these are counted by hand. In a line of one digit, a space and one digit, nine other handlers and eight
//! other numbers of turns make other records; in the first line the other version does; elsewhere no byte may be another.

use crate::programs::program_of;
use crate::rows::{expect_lines, halves_of};
use crate::runs::{NEVER, left_by};
use crate::together::RELAY;
use sc_audit::{ReadFault, Record, RecordLine, read_record};
use sc_code::Program;
use sc_driver::{AuditFault, audit};
use sc_explain_text::Lines;
use sc_lockpass::Version;
use sc_plant::Left;
use std::alloc::{AllocError, Global};
use std::process::Abort;
use std::sync::Wait;
use std::test::Fail;
use std::thread::Threads;
use std::time::Clock;

/// What an audit answers.
type Answer = Result<(), AuditFault>;

/// What rows have to the left of the bar.
#[derive(Clone, Copy)]
enum Says {
    /// Lines of a record, each a handler and its turns. A row is a line.
    Lines(Version),
    /// The text of a record, which gets a yes. Its answers are those to the texts in which one byte is another. A line with a
    /// sign is between two rows.
    Altered,
}

// ---- answers

/// How many handlers, and lines, an answer may name.
const NAMED: usize = 32;

/// How many texts have each answer: first a yes, then by the handler that differs, and by the line at fault.
type Counts = [[u32; NAMED]; 3];

/// Counts an answer.
fn count(counts: &mut Counts, answer: Answer) -> Result<(), Fail> {
    let (kind, named) = match answer {
        Ok(()) => (0, 0),
        Err(AuditFault::Differs { handler }) => (1, handler as usize),
        Err(AuditFault::BadRecord { line }) => (2, line as usize),
        Err(AuditFault::OutOfMemory) => return Err(Fail::from(AllocError)),
    };
    if let Some(numbers) = counts.get_mut(kind)
        && let Some(number) = numbers.get_mut(named)
    {
        *number = number.saturating_add(1);
        return Ok(());
    }
    Err(Fail::new("an answer that names too much"))
}

/// Adds the answers that some text has, each with how many have it.
fn tell_each(lines: &mut Lines, answer: &str, numbers: &[u32]) {
    for (named, number) in numbers.iter().enumerate() {
        if *number > 0 {
            lines.fill_number(answer, named as u64);
            lines.push_number(*number as u64);
        }
    }
}

/// Adds the lines that these words name.
fn add_lines(lines: &mut Vec<RecordLine>, words: &str) -> Result<(), Fail> {
    for line in words.split(", ") {
        let Some((handler, turns)) = line.split_once(' ') else {
            return Err(Fail::new("a line without turns"));
        };
        lines.push(RecordLine {
            handler: handler.parse()?,
            turns: turns.parse()?,
        })?;
    }
    Ok(())
}

/// What the audit of a run answers with the record that a text is, or the line at which it is none.
fn answer_to(alloc: Global, program: &Program, left: &mut Left<'_>, mut text: &[u8]) -> Answer {
    match read_record(alloc, &mut text) {
        Ok(Record { version, lines }) => {
            left.version = version;
            left.lines = lines;
            audit(alloc, program, left)
        }
        Err(ReadFault::BadRecord { line }) => {
            let line = u32::try_from(line).unwrap_or(u32::MAX);
            Err(AuditFault::BadRecord { line })
        }
        Err(_) => Err(AuditFault::OutOfMemory),
    }
}

/// Changes the bits of the byte at a place, if there is one.
fn flip(text: &mut [u8], place: usize, bits: u8) {
    if let Some(byte) = text.get_mut(place) {
        *byte ^= bits;
    }
}

/// Counts the answers to the texts that are this one but for a byte. It gets a yes itself.
fn count_altered(
    alloc: Global,
    program: &Program,
    left: &mut Left<'_>,
    counts: &mut Counts,
    text: &mut [u8],
) -> Result<(), Fail> {
    answer_to(alloc, program, left, &*text)?;
    for place in 0..text.len() {
        for bits in 1..=u8::MAX {
            flip(text, place, bits);
            count(counts, answer_to(alloc, program, left, &*text))?;
            flip(text, place, bits);
        }
    }
    Ok(())
}

// ---- rows

/// Compares what is answered to a row with what it wants.
fn expect_row<R: Abort>(
    rt: &R,
    alloc: Global,
    program: &Program,
    left: &mut Left<'_>,
    says: Says,
    row: &str,
) -> Result<(), Fail> {
    let (words, wanted) = halves_of(row)?;
    let mut counts = [[0; NAMED]; 3];
    match says {
        Says::Lines(version) => {
            left.version = version;
            left.lines.clear();
            add_lines(&mut left.lines, words)?;
            count(&mut counts, audit(alloc, program, left))?;
        }
        Says::Altered => {
            let mut text = Vec::from_slice(alloc, words.as_bytes())?;
            count_altered(alloc, program, left, &mut counts, &mut text)?;
        }
    }
    let mut told = Lines::new(alloc);
    told.fill_number("yes: ~", counts[0][0] as u64);
    tell_each(&mut told, ", differs ~: ", &counts[1]);
    tell_each(&mut told, ", bad ~: ", &counts[2]);
    expect_lines(rt, told, wanted, words)
}

/// The audit of what a run of the system left answers so to the rows of a table.
fn expect<R: Abort + AllocGlobal + Threads + Wait + Clock + Sync>(
    rt: &R,
    source: &str,
    says: Says,
    rows: &str,
) -> Result<(), Fail> {
    let alloc = rt.alloc();
    let between = match says {
        Says::Lines(_) => "\n",
        Says::Altered => "\n#\n",
    };
    let program = program_of(alloc, source)?;
    let mut left = left_by(rt, alloc, &program, 1, NEVER)?;
    for row in rows.split(between) {
        expect_row(rt, alloc, &program, &mut left, says, row)?;
    }
    Ok(())
}

/// A system whose run is five turns of handler 0.
const FIVE_TURNS: &str = "class APPLICATION create make
feature
    n: INTEGER
    make do raise print (n) end
    raise do n := n + 1 end
invariant n >= 0
end";

/// Lines of records, and what the audit of that run answers. Further turns change nothing.
const ROWS: &str = "0 1|yes: 0, differs 0: 1
0 2|yes: 0, differs 0: 1
0 3|yes: 0, differs 0: 1
0 4|yes: 0, differs 0: 1
0 5|yes: 1
0 6|yes: 1
0 7|yes: 1
0 8|yes: 1
0 9|yes: 1
1 5|yes: 0, differs 0: 1
2 5|yes: 0, differs 0: 1
3 5|yes: 0, differs 0: 1
4 5|yes: 0, differs 0: 1
5 5|yes: 0, differs 0: 1
6 5|yes: 0, differs 0: 1
7 5|yes: 0, differs 0: 1
8 5|yes: 0, differs 0: 1
9 5|yes: 0, differs 0: 1
0 2, 511 1, 0 3|yes: 1
0 0|yes: 0, bad 2: 1
0 10000001|yes: 0, bad 2: 1
0 5, 512 1|yes: 0, bad 3: 1
0 5, 0 9999996|yes: 0, bad 3: 1";

/// The first rows in the first version.
const FIRST_ROWS: &str = "0 4|yes: 0, differs 0: 1
0 5|yes: 1
0 6|yes: 1
0 5, 63 1|yes: 1
0 5, 64 1|yes: 0, bad 3: 1";

#[test]
fn other_records(rt: HostRuntime) -> Result<(), Fail> {
    expect(&rt, FIVE_TURNS, Says::Lines(Version::Two), ROWS)?;
    expect(&rt, FIVE_TURNS, Says::Lines(Version::One), FIRST_ROWS)
}

/// 6 to 9 turns are as good as 5: the others change nothing. In both versions the first line has one byte that may be
/// the other version's.
const FIVE_TURNS_ANSWERS: &str = "scoop record 1
0 5
end 1
|yes: 5, differs 0: 13, bad 1: 3824, bad 2: 1003, bad 3: 1530
#
scoop record 2
0 5
end 1
|yes: 5, differs 0: 13, bad 1: 3824, bad 2: 1003, bad 3: 1530";

#[test]
fn altered_records_of_the_smallest_run(rt: HostRuntime) -> Result<(), Fail> {
    expect(&rt, FIVE_TURNS, Says::Altered, FIVE_TURNS_ANSWERS)
}

/// The record of the run of RELAY on one worker: handlers take turns in the order of their numbers, and each goes on until it
/// asks something. How many of the texts that differ from it in one byte have each answer.
const RELAY_ALTERED: &str = "scoop record 2
0 2
1 1
0 1
2 1
0 1
3 1
0 1
4 1
0 1
4 2
1 2
4 1
1 1
4 3
0 2
2 1
2 2
3 1
3 2
2 1
0 1
end 21
|yes: 122, differs 0: 195, differs 1: 41, bad 1: 3824, \
    bad 2: 1003, bad 3: 1003, bad 4: 1003, bad 5: 1003, bad 6: 1003, bad 7: 1003, bad 8: 1003, \
    bad 9: 1003, bad 10: 1003, bad 11: 1003, bad 12: 1003, bad 13: 1003, bad 14: 1003, bad 15: 1003, \
    bad 16: 1003, bad 17: 1003, bad 18: 1003, bad 19: 1003, bad 20: 1003, bad 21: 1003, bad 22: 1003, \
    bad 23: 1785";

#[test]
fn altered_records_of_a_failure_in_a_chain(rt: HostRuntime) -> Result<(), Fail> {
    expect(&rt, RELAY, Says::Altered, RELAY_ALTERED)
}

// ---- other orders of turns that leave the same report

/// Two that set one cell.
const WRITERS: &str = "class APPLICATION create make
feature
    c: separate CELL
    a, b: separate WRITER
    make do create c create a.make (c, 1) create b.make (c, 2) end
end
class CELL
feature
    item: INTEGER
    set (v: INTEGER) do item := v end
end
class WRITER create make
feature
    make (x: separate CELL; v: INTEGER) do x.set (v) end
end";

/// The cell, handler 1, holds what was set last: an attribute is another.
const WRITERS_ROWS: &str = "0 9, 1 9, 2 9, 1 9, 3 9, 1 9|yes: 1
0 9, 1 9, 3 9, 1 9, 2 9, 1 9|yes: 0, differs 1: 1";

/// Two that draw a number each and keep it in a local, as they wait for what never comes.
const DRAWERS: &str = "class APPLICATION create make
feature
    c: separate CELL
    a, b: separate DRAWER
    make do create c create a.make (c) create b.make (c) end
end
class CELL
feature
    count: INTEGER
    next: INTEGER do count := count + 1 Result := count end
end
class DRAWER create make
feature
    make (x: detachable separate CELL)
        local v: INTEGER
        do if attached x as c then v := draw (c) wait (c) end end
    draw (c: separate CELL): INTEGER do Result := c.next end
    wait (c: separate CELL) require c.count = 9 do end
end";

/// One waits, the other draws and waits, and the first tries again: a local in a frame is another, of handler 2 first.
const DRAWERS_ROWS: &str =
    "0 9, 1 9, 2 9, 1 9, 2 9, 1 9, 2 9, 3 9, 1 9, 3 9, 1 9, 3 9, 2 9, 1 9, 2 9|yes: 1
0 9, 1 9, 3 9, 1 9, 3 9, 1 9, 3 9, 2 9, 1 9, 2 9, 1 9, 2 9, 3 9, 1 9, 3 9|yes: 0, differs 2: 1";

/// Two that draw a number each. One posts its own to a handler that waits for what never comes.
const POSTER: &str = "class APPLICATION create make
feature
    c: separate CELL
    d: separate STALLED
    p: separate POSTER
    o: separate OTHER
    make do create c create d.make (c) create p.make (c, d) create o.make (c) end
end
class CELL
feature
    count: INTEGER
    next: INTEGER do count := count + 1 Result := count end
end
class STALLED create make
feature
    item: INTEGER
    c: detachable separate CELL
    make (x: detachable separate CELL) do c := x end
    stall do if attached c as x then wait (x) end end
    wait (x: separate CELL) require x.count = 9 do end
    set (v: INTEGER) do item := v end
end
class POSTER create make
feature
    make (x: separate CELL; y: separate STALLED) do y.stall y.set (x.next) end
end
class OTHER create make
feature
    make (x: separate CELL) local v: INTEGER do v := x.next end
end";

/// The one that posts comes first, and then the other, so that who waits tries again; or the other way round. An actual in the
/// queue of handler 2 is another.
const POSTER_ROWS: &str =
    "0 9, 1 9, 2 9, 3 9, 1 9, 3 9, 2 9, 1 9, 2 9, 4 9, 1 9, 4 9, 2 9, 1 9, 2 9|yes: 1
0 9, 1 9, 2 9, 4 9, 1 9, 4 9, 3 9, 1 9, 3 9, 2 9, 1 9, 2 9|yes: 0, differs 2: 1";

/// Two that reserve one handler, and ask it for what never comes.
const HOLDERS: &str = "class APPLICATION create make
feature
    c: separate CELL
    d: separate STALLED
    a, b: separate HOLDER
    make do create c create d.make (c) create a.make (d) create b.make (d) end
end
class CELL feature count: INTEGER end
class STALLED create make
feature
    c: detachable separate CELL
    make (x: detachable separate CELL) do c := x end
    answer: INTEGER do if attached c as x then wait (x) end end
    wait (x: separate CELL) require x.count = 9 do end
end
class HOLDER create make
feature
    make (y: separate STALLED) local v: INTEGER do v := y.answer end
end";

/// One asks and waits for the answer, the other to reserve: handler 2 is another's.
const HOLDERS_ROWS: &str = "0 9, 1 9, 2 9, 3 9, 2 9, 1 9, 2 9, 4 9|yes: 1
0 9, 1 9, 2 9, 4 9, 2 9, 1 9, 2 9, 3 9|yes: 0, differs 2: 1";

/// In the run each of these systems is played in the first order, in which the lower number comes first. In the other order each
/// handler has as many objects, frames, requests and rights, and has printed and refused the same: an audit says yes to both if it
/// compares these numbers, or outputs, alone.
const ORDERS: [(&str, &str); 4] = [
    (WRITERS, WRITERS_ROWS),
    (DRAWERS, DRAWERS_ROWS),
    (POSTER, POSTER_ROWS),
    (HOLDERS, HOLDERS_ROWS),
];

#[test]
fn other_orders_with_the_same_report(rt: HostRuntime) -> Result<(), Fail> {
    for (source, rows) in &ORDERS {
        expect(&rt, source, Says::Lines(Version::Two), rows)?;
    }
    Ok(())
}
