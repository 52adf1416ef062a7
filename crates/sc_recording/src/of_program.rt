//! Whose run it is, for values under a lock.
use std::marker::Brand;

/// The program of a run, in proofs alone.
///
/// Of what lies under a lock nothing is known but its type. So the types of what lies there have the program of the run as a
/// parameter, and each run picks its own.
pub trait OfProgram {
    ghost use Rattle.std.specs.Prelude.{Option};
    ghost use Rattle.sc_code.specs.declared.program.Image.{Image};

    ghost image: { Option Image };
}

impl OfProgram for Brand {
    ghost use Rattle.std.specs.Prelude.{None};

    ghost image = { None };
}
