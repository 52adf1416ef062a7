//! What is answered to a run beside its report: its numbers, and pictures of it.

use crate::delivery::finish_file;
use crate::serve::{Beside, Drawing, Fault};
use crate::target::{fault_of, is_read, probe, probed_fault, unreadable};
use sc_arguments::{Drawings, Format, Invocation};
use sc_audit::write_whole;
use sc_explain_run::{Played, history_of, tally_of};
use sc_explain_text::Lines;
use sc_source::files::Files;
use sc_source::reading::{FileFault, read_beginning};
use sc_time_line::{
    History, TIMELINE_HEADING, TRACE_EVENTS_HEADING, stats_lines, stats_member, timeline,
    trace_events,
};
use std::alloc::{AllocError, Global};

// ---- what is made

/// What is answered to a run beside its report, if something is: its numbers as a member of JSON, and the pictures that are
/// asked for.
#[inline(never)]
pub fn beside_of<'a>(
    alloc: Global,
    played: Played<'_>,
    drawings: &Drawings<'a>,
    has_member: bool,
) -> Result<Option<Beside<'a>>, AllocError> {
    let mut beside = Beside {
        stats: Vec::new(alloc),
        drawings: Vec::new(alloc),
    };
    if has_member {
        beside.stats = member_of(alloc, played)?;
    }
    if drawings.trace_events.is_some() || drawings.timeline.is_some() {
        let history = history_of(alloc, played)?;
        draw(alloc, played, drawings, &history, &mut beside.drawings)?;
    }
    Ok(Some(beside))
}

/// The numbers of the handlers of a run as a member of JSON.
fn member_of(alloc: Global, played: Played<'_>) -> Result<Vec<u8>, AllocError> {
    match tally_of(alloc, played) {
        Ok(tally) => stats_member(alloc, played.source, &tally),
        Err(error) => Err(error),
    }
}

/// Adds the pictures of a run that are asked for.
fn draw<'a>(
    alloc: Global,
    played: Played<'_>,
    drawings: &Drawings<'a>,
    history: &History,
    drawn: &mut Vec<Drawing<'a>>,
) -> Result<(), AllocError> {
    if let Some(name) = drawings.trace_events {
        let bytes = trace_events(alloc, played.source, history)?;
        drawn.push(Drawing { name, bytes })?;
    }
    if let Some(name) = drawings.timeline {
        let bytes = timeline(alloc, played.source, history)?;
        drawn.push(Drawing { name, bytes })?;
    }
    Ok(())
}

/// Adds the numbers of the handlers of a run to the note on it, if they are asked for as lines.
#[inline(never)]
pub fn push_stats(lines: &mut Lines, played: Played<'_>, format: Format, has_stats: bool) {
    if !has_stats || matches!(format, Format::Json) {
        return;
    }
    match told_stats(lines.alloc(), played) {
        Ok(told) => lines.push_bytes(told.as_slice()),
        Err(_) => lines.lack(),
    }
}

/// The numbers of the handlers of a run, as lines.
fn told_stats(alloc: Global, played: Played<'_>) -> Result<Vec<u8>, AllocError> {
    match tally_of(alloc, played) {
        Ok(tally) => stats_lines(alloc, played.source, &tally),
        Err(error) => Err(error),
    }
}

// ---- where it may be written

/// Sees to it that the pictures that are asked for can be written, and that each replaces nothing but an empty file or
/// another one of its kind, which isn't one of the files that are read or written otherwise.
#[inline(never)]
pub fn check_drawings<'a, F: Files>(
    alloc: Global,
    files: &F,
    invocation: &Invocation<'a>,
) -> Result<(), Fault<'a>> {
    match invocation {
        Invocation::Run(options, names) => {
            check_each(
                alloc,
                files,
                &options.drawings,
                options.record,
                names.as_slice(),
            )
        }
        Invocation::Replay(options, names) => {
            check_each(
                alloc,
                files,
                &options.drawings,
                Some(options.record),
                names.as_slice(),
            )
        }
        Invocation::Search(options, names) => {
            check_each(
                alloc,
                files,
                &options.drawings,
                options.record,
                names.as_slice(),
            )
        }
        _ => Ok(()),
    }
}

/// Checks the files of these pictures, beside a record and files that are read.
fn check_each<'a, F: Files>(
    alloc: Global,
    files: &F,
    drawings: &Drawings<'a>,
    record: Option<&'a str>,
    names: &[&'a str],
) -> Result<(), Fault<'a>> {
    if let Some(name) = drawings.trace_events {
        if is_taken(files, name, record, names) {
            return Err(Fault::NoDrawing(name));
        }
        check_drawing(alloc, files, name, TRACE_EVENTS_HEADING)?;
    }
    match drawings.timeline {
        Some(name) if is_taken(files, name, record, names) => Err(Fault::NoDrawing(name)),
        Some(name) if is_taken(files, name, drawings.trace_events, &[]) => {
            Err(Fault::NoDrawing(name))
        }
        Some(name) => check_drawing(alloc, files, name, TIMELINE_HEADING),
        None => Ok(()),
    }
}

/// Whether a picture of this name would replace this file, or one of those that are read.
fn is_taken<F: Files>(files: &F, name: &str, other: Option<&str>, names: &[&str]) -> bool {
    match other {
        Some(other) if name == other || files.is_replaced(name, other) => true,
        _ => is_read(files, name, names),
    }
}

/// Checks that a picture that begins so can be written to the file of this name.
fn check_drawing<'a, F: Files>(
    alloc: Global,
    files: &F,
    name: &'a str,
    heading: &str,
) -> Result<(), Fault<'a>> {
    match may_redraw(alloc, files, name, heading) {
        Ok(true) => probe(files, name),
        Ok(false) => Err(Fault::NoDrawing(name)),
        Err(FileFault::OutOfMemory) => Err(Fault::OutOfMemory),
        Err(fault) => Err(probed_fault(files, name, fault)),
    }
}

/// Whether a picture that begins so may replace the file of this name: it is empty or begins so, too.
fn may_redraw<F: Files>(
    alloc: Global,
    files: &F,
    name: &str,
    heading: &str,
) -> Result<bool, FileFault> {
    match files.replaced(name) {
        Ok(None) => Ok(true),
        Ok(Some(mut reader)) => {
            let beginning = read_beginning(alloc, &mut reader, heading.len())?;
            Ok(beginning.is_empty() || beginning.as_slice() == heading.as_bytes())
        }
        Err(error) => Err(unreadable(error)),
    }
}

// ---- how it is written

/// Writes the pictures of a run, each in place of what its file held.
pub fn write_drawings<'a, F: Files>(
    files: &F,
    beside: &Option<Beside<'a>>,
) -> Result<(), Fault<'a>> {
    let Some(beside) = beside else {
        return Ok(());
    };
    for drawing in beside.drawings.iter() {
        if let Err(fault) = write_drawing(files, drawing) {
            return Err(fault);
        }
    }
    Ok(())
}

fn write_drawing<'a, F: Files>(files: &F, drawing: &Drawing<'a>) -> Result<(), Fault<'a>> {
    match files.writer(drawing.name) {
        Ok(mut writer) => {
            let written = write_whole(&mut writer, drawing.bytes.as_slice());
            finish_file(files, drawing.name, writer, written)
        }
        Err(error) => Err(fault_of(drawing.name, error, None)),
    }
}
