//! How many classes and features there are.

ghost use Rattle.std.specs.Prelude.{◌≡◌, ◌↔◌, IfOk, IsTrue};
ghost use Rattle.sc_class.specs.Faults.Limits as limits;
ghost use Rattle.sc_class.specs.Internal.Systems.{in_outline};

use crate::class_tables::found_features::{features_at, found_features};
use crate::class_tables::outline::Outline;
use crate::faults::routine_limits::has_large_routine;
use std::alloc::{AllocError, Global};

/// How many classes a system may have.
const MAX_CLASSES: usize = 256;
/// How many features a class may have, inherited ones too.
const MAX_FEATURES: usize = 256;

/// Whether one of the first `count` classes has too many features.
fn has_large_class(alloc: Global, outline: &Outline, count: usize) -> Result<bool, AllocError>
    ensures { IfOk result (λ large. limits.TellsLargeClass (in_outline outline.now) count large) }
{
    let found = found_features(alloc, outline)?;
    for number in 0..count {
        let features = features_at(alloc, outline, &found, number)?;
        if features.len() > MAX_FEATURES {
            return Ok(true);
        }
    }
    Ok(false)
}

/// Whether a limit is passed.
pub fn passes_limit(alloc: Global, outline: &Outline) -> Result<bool, AllocError>
    ensures { IfOk result (λ passed. IsTrue passed ↔ limits.PassesLimit (in_outline outline.now)) }
{
    let classes = outline.hierarchy.classes();
    let count = classes.len();
    if count > MAX_CLASSES {
        return Ok(true);
    }
    if has_large_routine(&outline.hierarchy) {
        return Ok(true);
    }
    has_large_class(alloc, outline, count)
}
