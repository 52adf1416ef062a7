//! Stores of a handler: what calls leave of one, step by step.

use crate::programs::program_of;
use crate::rows::{expect_equal, expect_lines, halves_of, object_state, push_debug};
use sc_explain_text::Lines;
use sc_model::Cause;
use sc_region::{ObjectNumber, Origin, Reference, Store, Value};
use std::alloc::AllocError;
use std::process::Abort;
use std::test::Fail;

/// Three classes, with a routine without formals and a function of one in the first, and the root.
const SOURCE: &str = "class LOW
feature
    n: INTEGER
    run do end
    ask (x: separate LOW): BOOLEAN local i: INTEGER do ensure n = old n end
invariant n < 8 end

class SET feature n: INTEGER invariant n /= 0 end

class FREE feature i: INTEGER b: BOOLEAN a: detachable FREE end

class APPLICATION create make feature make do end end";

/// Calls of a store without objects, and what they leave: the failure that it has ended in, if any, and the number of
/// Current, if there is a frame; of each object whether it is settled, whether it meets its invariant, and its
/// attributes; and the output.
///
/// An object that a request makes comes first, without a procedure and by one, then one that a routine makes. At the
/// end of a routine its object is settled if no other routine runs on it. If no routine runs, nothing is written and
/// nothing ends. An attribute is no routine, and a function of one formal takes one actual.
const STORES: &str = "|runs
born LOW|runs; settled meets 0
born FREE|runs; settled meets 0 Boolean(false) Void
born SET|Invariant; open breaks 0
born LOW, born SET|Invariant; open meets 0; open breaks 0
born LOW run|runs on 1; open meets 0
born LOW run, pop|runs; settled meets 0
born SET run|runs on 1; open breaks 0
born SET run, set 5, pop|runs; settled meets 5
born SET run, pop|Invariant; open breaks 0
born LOW run, make LOW|runs on 1; open meets 0; settled meets 0
born LOW run, make SET|Invariant; open meets 0; open breaks 0
born LOW run, make SET run|runs on 2; open meets 0; open breaks 0
born LOW run, make SET run, set 5, pop|runs on 1; open meets 0; settled meets 5
born LOW run, make SET run, pop|Invariant; open meets 0; open breaks 0
born LOW, push 1 run, set 9|runs on 1; open breaks 9
born LOW, push 1 run, set 9, pop|Invariant; open breaks 9
born LOW, push 1 run, push 1 run, set 9, pop|runs on 1; open breaks 9
born LOW, push 1 run, push 1 run, set 9, pop, set 7, pop|runs; settled meets 7
born LOW, born LOW, push 1 run, push 2 run, push 1 run, set 9, pop|runs on 2; open breaks 9; open meets 0
born LOW, born LOW, push 1 run, push 2 run, push 1 run, set 9, pop, pop|runs on 1; open breaks 9; settled meets 0
born LOW, born LOW, push 1 run, push 2 run, push 1 run, set 9, pop, pop, pop|Invariant; open breaks 9; open meets 0
born LOW, set 9, pop|runs; settled meets 0
born LOW, push 1 n|BadCode; open meets 0
born LOW run, make LOW ask|BadCode; open meets 0; open meets 0
born LOW, push 1 run 3|BadCode; open meets 0
born LOW, push 1 ask 3|runs on 1; open meets 0
born LOW run, set 7, fail|Check; open meets 7
print a, print bc|runs; printed abc
born LOW run, print a, print bc, fail|Check; open meets 0; printed abc";

/// Calls of a store without objects, and the topmost routine after them: its number, what began it, what it does, its
/// slots, its Result, and whether there is room for an `old` and for an operand.
const FRAMES: &str = "|none
born LOW run|1 RequestedCreation Runs at 0 [] None false false
born LOW run, make LOW run|1 Creation Runs at 0 [] None false false
born LOW, push 1 ask 3|2 Qualified Reserves at 0 [Integer(3), Void] Some(Boolean(false)) true true
born LOW run, push 1 ask 3, pop|1 RequestedCreation Runs at 0 [] None false false";

// ---- calls

/// The number that a word stands for, if there is one: that of a class, that of a feature of the first class, or its own.
fn number_if_any(word: Option<&str>) -> Result<Option<u8>, Fail> {
    match word {
        None | Some("") => Ok(None),
        Some("LOW" | "n") => Ok(Some(0)),
        Some("SET" | "run") => Ok(Some(1)),
        Some("FREE" | "ask") => Ok(Some(2)),
        Some(word) => Ok(Some(word.parse()?)),
    }
}

/// The numbers that at most three words stand for.
fn numbers_of(words: &str) -> Result<[Option<u8>; 3], Fail> {
    let mut words = words.split(' ');
    let first = number_if_any(words.next())?;
    let second = number_if_any(words.next())?;
    let third = number_if_any(words.next())?;
    Ok([first, second, third])
}

/// Makes a call of the store of handler 0, by its verb and the numbers after it. `born` makes an object of a class by a request,
/// and `make` by a routine, and both enter a routine on it if it is named. `push` enters a routine on an object, with an actual
/// if there is one. `set` gives the first attribute of Current a value. Returns whether there was memory.
fn call(store: &mut Store<'_>, words: &str) -> Result<bool, Fail> {
    let (verb, rest) = words.split_once(' ').unwrap_or((words, ""));
    if verb == "print" {
        return Ok(store.print(rest.as_bytes()).is_ok());
    }
    let [noun, routine, actual] = numbers_of(rest)?;
    let made = match (verb, noun, routine) {
        ("born", Some(class), None) => store.birth(class),
        ("born", Some(class), Some(routine)) => {
            let made = u32::try_from(store.object_count()).unwrap_or(0);
            let target = Reference {
                handler: 0,
                number: made.saturating_add(1),
                class,
            };
            store.birth_with(target, routine as usize, &[])
        }
        ("make", Some(class), None) => store.make_object(class),
        ("make", Some(class), Some(routine)) => {
            store.make_object_with(0, class, routine as usize, &[])
        }
        ("push", Some(number), Some(routine)) => {
            let number = number as ObjectNumber;
            let current = Reference {
                handler: 0,
                number,
                class: store.class_of(number).unwrap_or(0),
            };
            match actual {
                None => store.push(current, routine as usize, Origin::Qualified, &[]),
                Some(actual) => {
                    let actual = Value::Integer(actual as i64);
                    store.push(current, routine as usize, Origin::Qualified, &[actual])
                }
            }
        }
        ("set", Some(value), None) => {
            store.write_current(0, Value::Integer(value as i64));
            Ok(())
        }
        ("pop", None, None) => {
            store.pop();
            Ok(())
        }
        ("fail", None, None) => {
            store.fail(Cause::Check);
            Ok(())
        }
        _ => return Err(Fail::new("an unknown call")),
    };
    Ok(made.is_ok())
}

// ---- what they leave

/// The text on a store.
fn told_store(store: &Store<'_>) -> Lines {
    let alloc = store.alloc();
    let mut lines = Lines::new(alloc);
    match store.failure() {
        Some(why) => push_debug(alloc, &mut lines, "", &why),
        None => lines.push("runs"),
    }
    if let Some(current) = store.current() {
        lines.fill_number(" on ~", current.number as u64);
    }
    for number in 1..10 {
        if store.class_of(number).is_none() {
            continue;
        }
        lines.push("; ");
        lines.push(object_state(store.settled(number), store.test_invariant(number)));
        for slot in 0..4 {
            match store.read(number, slot) {
                Some(Value::Integer(number)) => push_debug(alloc, &mut lines, " ", &number),
                Some(value) => push_debug(alloc, &mut lines, " ", &value),
                None => {}
            }
        }
    }
    if !store.output().is_empty() {
        lines.push("; printed ");
        lines.push_bytes(store.output());
    }
    lines
}

/// The text on the topmost routine of a store.
fn told_frame(store: &Store<'_>) -> Lines {
    let alloc = store.alloc();
    let mut lines = Lines::new(alloc);
    match store.top() {
        Some(top) => {
            push_debug(alloc, &mut lines, "", &top.routine);
            push_debug(alloc, &mut lines, " ", &top.origin);
            push_debug(alloc, &mut lines, " ", &top.stage);
            push_debug(alloc, &mut lines, " at ", &top.place);
            push_debug(alloc, &mut lines, " ", &top.slots);
            push_debug(alloc, &mut lines, " ", &top.result);
            push_debug(alloc, &mut lines, " ", &!top.olds.is_full());
            push_debug(alloc, &mut lines, " ", &!top.operands.is_full());
        }
        None => lines.push("none"),
    }
    lines
}

/// Makes a call. One that is refused memory has changed nothing, so it is made once more.
fn expect_call<R: Abort>(rt: &R, store: &mut Store<'_>, words: &str) -> Result<(), Fail> {
    let before = told_store(store).finish()?;
    if call(store, words)? {
        return Ok(());
    }
    let after = told_store(store).finish()?;
    expect_equal(rt, after.as_slice(), before.as_slice(), words);
    if call(store, words)? {
        return Ok(());
    }
    Err(Fail::from(AllocError))
}

/// Makes the calls of a row, one after the other, and compares what they leave with what the row wants.
fn expect_row<R: Abort>(
    rt: &R,
    store: &mut Store<'_>,
    row: &str,
    is_of_frame: bool,
) -> Result<(), Fail> {
    let (steps, wanted) = halves_of(row)?;
    for words in steps.split(", ") {
        if words.is_empty() {
            break;
        }
        expect_call(rt, store, words)?;
    }
    let told = if is_of_frame {
        told_frame(store)
    } else {
        told_store(store)
    };
    expect_lines(rt, told, wanted, steps)
}

fn expect_rows<R: Abort + AllocGlobal>(
    rt: &R,
    rows: &str,
    are_of_frames: bool,
) -> Result<(), Fail> {
    let program = program_of(rt.alloc(), SOURCE)?;
    for row in rows.lines() {
        let mut store = Store::new(rt.alloc(), &program);
        expect_row(rt, &mut store, row, are_of_frames)?;
    }
    Ok(())
}

#[test]
fn calls_leave_stores(rt: HostRuntime) -> Result<(), Fail> {
    expect_rows(&rt, STORES, false)
}

#[test]
fn routines_begin(rt: HostRuntime) -> Result<(), Fail> {
    expect_rows(&rt, FRAMES, true)
}
