//! Room for settlements, so that one that was made room for takes no memory.
ghost use Rattle.std.specs.Prelude.{◌≡◌, ◌≤◌, ◌+◌, ℕ, OnErr, OnOk};
ghost use Rattle.sc_handler.specs.Logged.{HasPlaces};
ghost use Rattle.sc_request.specs.Rooms.{HasRoomFor};

use crate::center::Core;
use std::alloc::AllocError;

impl Core {
    ghost use Rattle.sc_request.specs.Cores.{center_of, log_of};

    /// Makes room to settle each handler that is out, and one more: after this and a pick, the settlement of the
    /// handler that was picked finds room, whatever is settled before it. Its error says that memory ran out.
    pub fn make_room(&mut self) -> Result<(), AllocError>
        ensures room { OnOk result (HasRoomFor 1 self.new) }
        ensures center { center_of self.new ≡ center_of self.old }
        ensures log { log_of self.new ≡ log_of self.old }
        ensures outs { self.new.outs ≡ self.old.outs }
        ensures kept { (n : ℕ) → HasRoomFor n self.old → HasRoomFor n self.new }
        ensures version { self.new.state.rights.version ≡ self.old.state.rights.version }
    {
        let wanted = self.outs + 1;
        self.log.reserve(wanted)?;
        self.spare.add_places(wanted)
    }

    /// Makes room for one settlement, if there is none.
    pub(crate) fn make_room_for_one(&mut self) -> Result<(), AllocError>
        ensures places { OnOk result (1 ≤ self.new.spare) }
        ensures entries { OnOk result (HasPlaces 1 self.new.log) }
        ensures room { OnErr result (1 ≤ self.old.spare → HasPlaces 1 self.old.log → ⊥) }
        ensures center { center_of self.new ≡ center_of self.old }
        ensures log { log_of self.new ≡ log_of self.old }
        ensures outs { self.new.outs ≡ self.old.outs }
        ensures kept { (n : ℕ) → HasRoomFor n self.old → HasRoomFor n self.new }
        ensures version { self.new.state.rights.version ≡ self.old.state.rights.version }
    {
        self.log.reserve(1)?;
        self.spare.add_places(1)
    }
}
