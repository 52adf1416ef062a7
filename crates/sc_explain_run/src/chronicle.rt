//! The turns of a run with what each did in words, as a list.

use crate::failure::Played;
use crate::scene::Scene;
use crate::tallying::{Before, class_name, turn_made};
use crate::tracer::{Told, Tracer};
use sc_audit::RecordLine;
use sc_explain_text::Lines;
use sc_lockpass::HandlerNumber;
use sc_model::Status;
use sc_time_line::History;
use std::alloc::{AllocError, Global};

/// What happened in a run, as far as that is found where the turns of its record are played once more.
///
/// # Errors
/// Memory ran out.
pub fn history_of(alloc: Global, played: Played<'_>) -> Result<History, AllocError> {
    let mut history = match History::new(alloc) {
        Ok(history) => history,
        Err(error) => return Err(error),
    };
    match Tracer::open(
        alloc,
        played.source,
        played.program,
        played.version,
        Told::All,
    ) {
        Ok(mut tracer) => {
            for line in played.lines {
                add_line(&mut history, &mut tracer, *line)
            }
            end_history(&mut history, &tracer.replay.scene());
            Ok(history)
        }
        Err(error) => Err(error),
    }
}

/// Plays a line of the record, and adds its turns, as long as there is room for them.
fn add_line(history: &mut History, tracer: &mut Tracer<'_>, line: RecordLine) {
    for _turn in 0..line.turns {
        if history.is_full() || !add_turn(history, tracer, line.handler) {
            break;
        }
    }
}

/// Makes a turn of a handler and adds it. Returns whether the handler had something to do.
fn add_turn(history: &mut History, tracer: &mut Tracer<'_>, handler: HandlerNumber) -> bool {
    let mut lines = Lines::new(tracer.replay.alloc);
    let before = Before::of(&tracer.replay, handler);
    let is_made = tracer.turn(&mut lines, handler);
    let told = lines.finish();
    if told.is_err() {
        history.lack()
    }
    if is_made {
        add_made(history, &tracer.replay.scene(), handler, before, told)
    }
    is_made
}

/// Adds the turn of a handler that was just made, with what it did in words.
fn add_made(
    history: &mut History,
    scene: &Scene<'_>,
    handler: HandlerNumber,
    before: Before,
    told: Result<Vec<u8>, AllocError>,
) {
    if let Some(turn) = turn_made(scene, handler, before) {
        history.add(turn, told);
        note_all(history, scene)
    }
}

/// Notes for each handler which one it is reserved for, and whether it waits.
fn note_all(history: &mut History, scene: &Scene<'_>) {
    for handler in 0..scene.handlers {
        history.hold(handler, scene.core.holder(handler));
        let is_waiting = matches!(scene.core.status(handler), Some(Status::Waiting));
        history.wait(handler, is_waiting)
    }
}

/// Notes the class of each handler.
fn end_history(history: &mut History, scene: &Scene<'_>) {
    for handler in 0..scene.handlers {
        history.end_handler(class_name(scene, handler))
    }
}
