//! Turns as the lines of a record.
ghost use Rattle.std.specs.Prelude.{◌≡◌, ◌++◌, ◌∷◌, [], IfOk, IfSome};
ghost use Rattle.sc_search.specs.Found.{line_turns, turns_of};

use sc_audit::RecordLine;
use sc_lockpass::HandlerNumber;
use std::alloc::{AllocError, Global};

/// The lines of these turns. Turns of one handler in a row are one line.
///
/// # Errors
/// Memory ran out.
pub(crate) fn lines_of(
    alloc: Global,
    turns: &[HandlerNumber],
) -> Result<Vec<RecordLine>, AllocError>
    ensures { IfOk result (λ lines. turns_of lines.items ≡ turns.now) }
{
    let mut lines = Vec::new(alloc);
    let mut last = RecordLine {
        handler: 0,
        turns: 0,
    };
    for handler in turns {
        last = add_turn(&mut lines, last, *handler)?;
    }
    if last.turns > 0 {
        lines.push(last)?;
    }
    Ok(lines)
}

/// Adds a turn after the lines and the last one, which isn't among them yet. Returns the new last one.
fn add_turn(
    lines: &mut Vec<RecordLine>,
    last: RecordLine,
    handler: HandlerNumber,
) -> Result<RecordLine, AllocError>
    ensures { IfOk result (λ line. turns_of lines.new.items ++ line_turns line ≡ (turns_of lines.old.items ++ line_turns last) ++ handler ∷ []) }
{
    if let Some(line) = extended(last, handler) {
        return Ok(line);
    }
    lines.push(last)?;
    Ok(RecordLine { handler, turns: 1 })
}

/// The line with one more turn, if that may be.
fn extended(line: RecordLine, handler: HandlerNumber) -> Option<RecordLine>
    ensures { IfSome result (λ longer. line_turns longer ≡ line_turns line ++ handler ∷ []) }
{
    if line.turns == 0 {
        return Some(RecordLine { handler, turns: 1 });
    }
    if line.handler != handler || line.turns == u32::MAX {
        return None;
    }
    Some(RecordLine {
        handler,
        turns: line.turns + 1,
    })
}
