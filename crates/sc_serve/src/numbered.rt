//! Lines with a number.

ghost use Rattle.std.specs.Prelude.{◌≡◌, ◌++◌, IfOk, OnOk, decimal, string_bytes};

use std::alloc::{AllocError, Global};

/// A number between these words.
pub fn numbered(alloc: Global, before: &str, number: u64, after: &str) -> Result<String, AllocError>
    ensures { IfOk result (λ text. string_bytes text ≡ before.now ++ (decimal number ++ after.now)) }
{
    format!(in alloc; "{before}{number}{after}")
}

/// Adds a number between these words.
pub fn push_number(
    alloc: Global,
    lines: &mut Vec<u8>,
    before: &str,
    number: u64,
    after: &str,
) -> Result<(), AllocError>
    ensures { OnOk result (lines.new.items ≡ lines.old.items ++ (before.now ++ (decimal number ++ after.now))) }
{
    let text = numbered(alloc, before, number, after)?;
    lines.extend_from_slice(text.as_bytes())
}
