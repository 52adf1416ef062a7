//! Jumps that are written before it is known how far they go.

ghost use Rattle.std.specs.Prelude.{◌≡◌, ◌<◌, All, length};
ghost use Rattle.sc_routines.specs.Jumps.{landed};

use crate::code::Code;
use crate::unlinked::UnlinkedOperation;

/// Makes the operations at these places jumps to the end of the code.
pub fn land_jumps(code: &mut Code, places: &[usize])
    requires { All (λ place. place < length code.old) places.now }
    ensures { code.new ≡ landed places.now code.old }
{
    for place in places {
        let passed = code.len() - *place - 1;
        code.set(*place, UnlinkedOperation::Jump(passed));
    }
}
