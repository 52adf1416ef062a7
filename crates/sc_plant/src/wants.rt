//! Wants that are written over others, so that no large value is moved.
ghost use Rattle.std.specs.Prelude.{◌≡◌};
ghost use Rattle.sc_region.specs.declared.job.Want.TheVariants as want;

use sc_region::Want;

/// Makes a want one that asks nothing.
pub fn clear_want(place: &mut Want)
    ensures { place.new ≡ want.Continue }
{
    match place {
        Want::Continue => {}
        _ => renew_want(place),
    }
}

#[inline(never)]
fn renew_want(place: &mut Want)
    ensures { place.new ≡ want.Continue }
{
    *place = Want::Continue;
}
