//! What the operations of a routine were made of.

ghost use Rattle.std.specs.Prelude.{◌≡◌, IfOk, map};
ghost use Rattle.sc_routines.specs.declared.code.SitedOperation.{SitedOperation};

use sc_code::TextSite;
use sc_routines::SitedOperation;
use std::alloc::{AllocError, Global};

/// The sites of operations, in their order.
pub fn sites_of(alloc: Global, code: &[SitedOperation<'_>]) -> Result<Vec<TextSite>, AllocError>
    ensures { IfOk result (λ sites. sites.items ≡ map (λ (sited : SitedOperation). sited.site) code.now) }
{
    let mut sites = Vec::with_capacity(alloc, code.len())?;
    for sited in code {
        sites.push(sited.site)?;
    }
    Ok(sites)
}
