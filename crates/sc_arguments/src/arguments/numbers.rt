//! Numbers that words write.

ghost use Rattle.std.specs.Prelude.{IfOk, IfSome, option_map};
ghost use Rattle.sc_arguments.specs.Words.{WritesUpTo};
ghost use Rattle.sc_arguments.specs.Asked.{IsLimitBy};

use crate::arguments::UsageFault;

/// The number that a text writes, if it is one from 1 to `most`.
pub fn number_up_to(most: u32, text: &str) -> Option<u32>
    ensures { IfSome result (WritesUpTo most text.now) }
{
    match text.parse::<u32>() {
        Ok(number) if number != 0 && number <= most => Some(number),
        _ => None,
    }
}

/// The number that a text writes, if it is one from 1 to `most`, which is at most 255.
pub fn small_number_up_to(most: u8, text: &str) -> Option<u8>
    ensures { IfSome result (WritesUpTo most text.now) }
{
    match text.parse::<u8>() {
        Ok(small) if small != 0 && small <= most => Some(small),
        _ => None,
    }
}

/// The most bytes that may be printed before a run ends, if that is limited.
const MOST_OUTPUT: u64 = 1_000_000_000_000;

/// The limit that the value of an option writes, if it is used.
pub fn limit_by(value: Option<&str>) -> Result<Option<u64>, UsageFault>
    ensures { IfOk result (IsLimitBy (option_map (λ text. text.now) value.entry)) }
{
    let Some(text) = value else {
        return Ok(None);
    };
    match text.parse::<u64>() {
        Ok(number) if number <= MOST_OUTPUT => Ok(Some(number)),
        _ => Err(UsageFault::TwoReadings),
    }
}
