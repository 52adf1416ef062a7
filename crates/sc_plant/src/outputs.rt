//! How much the handlers of a run have printed.
ghost use Rattle.std.specs.Prelude.{◌≡◌, ◌<◌, IfSome};
ghost use Rattle.std.specs.Bool.{OnTrue};
ghost use Rattle.sc_plant.specs.Bounded.{ArePast, printed_by};

use crate::left::Left;
use sc_play::Region;

/// Whether the handlers have printed more bytes together than they may.
pub fn are_past(left: &Left<'_>, most: Option<u64>) -> bool
    ensures { OnTrue result (ArePast most left.now.regions.items) }
{
    match most {
        Some(most) => have_printed_more(left.regions.as_slice(), most),
        None => false,
    }
}

/// Whether they have printed more bytes than this, if that can be counted.
fn have_printed_more(regions: &[Region<'_>], most: u64) -> bool
    ensures { OnTrue result (most < printed_by regions.now) }
{
    let Some(printed) = printed_by(regions) else {
        return false;
    };
    if most < printed {
        return true;
    }
    false
}

/// How many bytes the handlers have printed together, where that is below 2^64.
fn printed_by(regions: &[Region<'_>]) -> Option<u64>
    ensures { IfSome result (λ n. n ≡ printed_by regions.now) }
{
    let mut printed = 0u64;
    for region in regions {
        printed = printed.checked_add(region.output().len() as u64)?;
    }
    Some(printed)
}

/// How much each handler had printed after its last task, so that not all have to be looked at after each task.
#[derive(Drop)]
pub struct Tally {
    lengths: [usize; 512],
    printed: u64,
}

impl Tally {
    /// What was printed so far.
    pub fn of(left: &Left<'_>) -> Tally {
        let mut tally = Tally {
            lengths: [0; 512],
            printed: 0,
        };
        for (handler, region) in left.regions.iter().enumerate() {
            tally.note_at(handler, region.output().len());
        }
        tally
    }

    /// Notes the last task: whether the handlers seem to have printed more than they may.
    pub fn is_past(&mut self, left: &Left<'_>, most: Option<u64>) -> bool {
        let Some(most) = most else {
            return false;
        };
        self.note(left);
        self.printed > most
    }

    fn note(&mut self, left: &Left<'_>) {
        if let Some(line) = left.lines.last()
            && let Some(region) = left.regions.get(line.handler as usize)
        {
            self.note_at(line.handler as usize, region.output().len())
        }
    }

    /// Notes the number of bytes that a handler has printed.
    fn note_at(&mut self, handler: usize, printed: usize) {
        if let Some(length) = self.lengths.get_mut(handler) {
            let more = printed.saturating_sub(*length);
            self.printed = self.printed.saturating_add(more as u64);
            *length = printed;
        }
    }
}
