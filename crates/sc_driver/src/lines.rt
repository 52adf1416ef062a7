//! Whether lines are those of a record.
ghost use Rattle.std.specs.Prelude.{◌↔◌, IfNone, IfSome, IsTrue};
ghost use Rattle.sc_audit.specs.Records.{IsRecord};
ghost use Rattle.sc_driver.specs.Misfits.{IsFirstMisfit, IsLine};

use sc_audit::RecordLine;
use sc_lockpass::Version;

/// The most lines of a record.
const MOST_LINES: usize = 1_000_000;

/// The most turns of a record, all its lines together.
const MOST_TURNS: u32 = 10_000_000;

/// The lines of a record's text come after its first one, and are counted from 1.
const FIRST_LINE: u32 = 2;

/// The number of the first line that doesn't fit, where the lines are no record's.
pub fn first_misfit(version: Version, lines: &[RecordLine]) -> Option<u32>
    ensures some { IfSome result (λ number. IsFirstMisfit version lines.now number) }
    ensures none { IfNone result (IsRecord version lines.now) }
{
    let mut turns_left = MOST_TURNS;
    for (place, line) in lines.iter().enumerate() {
        if place >= MOST_LINES || !is_line(version, line, turns_left) {
            return Some(place as u32 + FIRST_LINE);
        }
        turns_left -= line.turns;
    }
    None
}

/// Whether a record of the version may have this line, with this number of turns left.
fn is_line(version: Version, line: &RecordLine, turns_left: u32) -> bool
    ensures { IsTrue result ↔ IsLine version turns_left line.now }
{
    line.handler < version.most_handlers() && line.turns > 0 && line.turns <= turns_left
}
