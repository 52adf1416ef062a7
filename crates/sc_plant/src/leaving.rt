//! What a run leaves, by value.
ghost use Rattle.std.specs.Prelude.{◌≡◌, ◌≤◌, ◌<◌, ℕ, [], All, IfNone, IfSome, Some, false, length, map, vec_capacity, vec_len};
ghost use Rattle.sc_code.specs.declared.program.Image.{Image};
ghost use Rattle.sc_worklog.specs.LoggedRegions.{region_of};
ghost use Rattle.sc_plant.specs.Left.{AgreesAt, IsLeftLogged};
ghost use Rattle.sc_recording.specs.Regions.{IsMadeByLog};

use crate::left::{Left, LoggedLeft};
use crate::slot::Slot;
use sc_lockpass::{HandlerNumber, Version};
use sc_play::Region;
use sc_recording::{OfProgram, RecordedCore, bare_regions, first_difference};
use sc_worklog::LoggedRegion;
use std::sync::Mutex;

/// What lies under the locks, and whether memory was refused to a turn.
#[inline(never)]
pub fn left_of<'p, P: OfProgram>(
    recorded: RecordedCore<P>,
    slots: Vec<Mutex<Slot<'p, P>>>,
    room: Vec<LoggedRegion<'p>>,
) -> (LoggedLeft<'p>, bool)
    requires count { vec_len slots ≡ 512 }
    requires room { 512 ≤ vec_capacity room }
    requires empty { room.items ≡ [] }
    ensures count { length result.0.regions.items ≡ 512 }
    ensures left { (p : Image) → P.image ≡ Some p → IsLeftLogged p result.0 }
    ensures core { result.0.core ≡ recorded.core }
    ensures lines { result.0.lines ≡ recorded.lines }
    ensures made { result.1 ≡ false → All (λ r. ∥ IsMadeByLog r ∥₁) result.0.regions.items }
{
    let (regions, is_refused) = regions_of(slots, room);
    let RecordedCore { core, lines, of: _ } = recorded;
    let left = LoggedLeft {
        regions,
        core,
        lines,
        version: Version::Two,
    };
    (left, is_refused)
}

/// The regions after those that are there, in order, and whether memory was refused to a turn of one.
fn regions_of<'p, P: OfProgram>(
    mut slots: Vec<Mutex<Slot<'p, P>>>,
    mut regions: Vec<LoggedRegion<'p>>,
) -> (Vec<LoggedRegion<'p>>, bool)
    requires room { vec_len slots ≤ vec_capacity regions }
    requires empty { regions.items ≡ [] }
    ensures count { length result.0.items ≡ vec_len slots.entry }
    ensures programs { All (λ r. P.image ≡ Some (region_of r).store.program) result.0.items }
    ensures made { result.1 ≡ false → All (λ r. ∥ IsMadeByLog r ∥₁) result.0.items }
{
    let mut is_refused = false;
    slots.reverse();
    while let Some(slot) = slots.pop() {
        let Slot {
            region,
            is_refused: refused,
            ..
        } = slot.into_inner();
        is_refused = is_refused || refused;
        regions.push_reserved(region);
    }
    (regions, is_refused)
}

/// The least handler whose region's log isn't that of its settlements.
pub fn difference(left: &LoggedLeft<'_>) -> Option<HandlerNumber>
    requires { length left.now.regions.items ≡ 512 }
    ensures some { IfSome result (λ h. (AgreesAt left.now h → ⊥) × ((k : ℕ) → k < h → AgreesAt left.now k)) }
    ensures none { IfNone result ((h : ℕ) → AgreesAt left.now h) }
{
    first_difference(left.regions.as_slice(), left.core.log())
}

/// What a run leaves, without its logs.
#[inline(never)]
pub fn without_logs<'p>(left: LoggedLeft<'p>, room: Vec<Region<'p>>) -> Left<'p>
    requires room { vec_len left.regions ≤ vec_capacity room }
    requires empty { room.items ≡ [] }
    ensures regions { result.regions.items ≡ map region_of left.entry.regions.items }
    ensures core { result.core ≡ left.entry.core }
    ensures lines { result.lines ≡ left.entry.lines }
    ensures version { result.version ≡ left.entry.version }
{
    let LoggedLeft {
        regions,
        core,
        lines,
        version,
    } = left;
    Left {
        regions: bare_regions(regions, room),
        core,
        lines,
        version,
    }
}
