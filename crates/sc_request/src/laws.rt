//! Laws of the core, each the contract of a function that does nothing.
ghost use Rattle.std.specs.Prelude.{◌≡◌, ◌<◌, ℕ};
ghost use Rattle.sc_request.specs.Candidates.{LeavesUntouched};
ghost use Rattle.sc_request.specs.Same.{AreSameAt};
ghost use Rattle.sc_request.specs.Cores.{center_of, state_of};
ghost use Rattle.sc_request.specs.Laws.{OpensAsHalf, PicksWhereTurns};
ghost use Rattle.sc_request.specs.Steps.{HalvesStep};

use crate::center::Core;

/// The core opens as the half of the machine's opening.
pub fn core_opens_as_half()
    ensures { OpensAsHalf }
{}

/// A handler has something to do exactly where the machine gives it a turn.
pub fn core_picks_where_the_machine_turns()
    ensures { PicksWhereTurns }
{}

/// What the core settles is its half of the machine's step: where a handler takes its job, makes one turn, and asks only what a turn may ask, the
/// settlement leaves the half of the state that the machine steps to.
pub fn core_settles_as_half()
    ensures { HalvesStep }
{}

/// A settlement leaves whom it doesn't touch as it is, but for the count of its sessions, unless the settled handler has failed.
pub fn core_leaves_untouched()
    ensures { LeavesUntouched }
{}

/// Cores that are alike at each handler that there may be have equal states.
pub fn same_at_each_is_same_state(core: &Core, other: &Core)
    ensures { ((h : ℕ) → h < 512 → AreSameAt h (center_of core.now) (center_of other.now)) → state_of core.now ≡ state_of other.now }
{
    let _ = core.state.rights.reach();
    let _ = other.state.rights.reach();
}
