//! What is given to a command: what is left of the words after it without its options.

ghost use Rattle.std.specs.Prelude.{◌≡◌, IfOk, false, map};
ghost use Rattle.sc_arguments.specs.Words as spec;

use crate::arguments::words::{ends_options, has_value, is_option};
use std::alloc::{AllocError, Global};
use std::convert::AsStr;

/// The arguments that these words give to a command, in order: those that are no options and no values of options.
/// After `--` all of them are.
pub fn given_in<'a, S: AsStr>(alloc: Global, words: &'a [S]) -> Result<Vec<&'a str>, AllocError>
    ensures { IfOk result (λ given. map (λ text. text.now) given.items ≡ spec.given_in false (map S.text words.entry.now)) }
{
    let mut given = Vec::new(alloc);
    let mut is_value = false;
    let mut is_all = false;
    for word in words {
        let word = word.as_str();
        if is_all {
            given.push(word)?;
        } else if is_value {
            is_value = false;
        } else if ends_options(word) {
            is_all = true;
        } else if has_value(word) {
            is_value = true;
        } else if !is_option(word) {
            given.push(word)?;
        }
    }
    Ok(given)
}
