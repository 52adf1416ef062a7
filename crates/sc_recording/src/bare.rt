//! Regions without their logs, once these were compared.
ghost use Rattle.std.specs.Prelude.{◌≡◌, ◌≤◌, [], map, vec_capacity, vec_len};
ghost use Rattle.sc_worklog.specs.LoggedRegions.{region_of};

use sc_play::Region;
use sc_worklog::LoggedRegion;

/// The regions after those that are there, in order, without their logs.
pub fn bare_regions<'p>(
    mut logged: Vec<LoggedRegion<'p>>,
    mut regions: Vec<Region<'p>>,
) -> Vec<Region<'p>>
    requires room { vec_len logged ≤ vec_capacity regions }
    requires empty { regions.items ≡ [] }
    ensures { result.items ≡ map region_of logged.entry.items }
{
    logged.reverse();
    while let Some(region) = logged.pop() {
        regions.push_reserved(region.into_region());
    }
    regions
}
