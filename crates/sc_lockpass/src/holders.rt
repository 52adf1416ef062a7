//! Tables of holders: for each handler the one that holds it, if any.
ghost use Rattle.std.specs.Prelude.{◌≡◌, ◌<◌, ◌≤◌, ℕ, false, None, length, if◌then◌else◌};
ghost use Rattle.std.specs.List.{All};
ghost use Rattle.sc_lockpass.specs.Rights.{is_among, is_handler};
ghost use Rattle.sc_lockpass.specs.Tables.{IsNobodysFrom, IsBelow, holder_at, is_member, replaced};

use crate::handler_number::HandlerNumber;
use crate::handler_set::HandlerSet;

/// Whose number this holder has.
pub(crate) fn holds(handler: HandlerNumber, holder: Option<HandlerNumber>) -> bool
    ensures { result ≡ is_handler handler holder }
{
    match holder {
        Some(held_by) => held_by == handler,
        None => false,
    }
}

/// A table in which no handler is held.
pub(crate) fn nobody() -> [Option<HandlerNumber>; 512]
    ensures { (k : ℕ) → holder_at result k ≡ None }
{
    [None; 512]
}

/// Which handlers this one holds, in a table that has no holders from `reach` on.
pub(crate) fn held_by(
    handler: HandlerNumber,
    holders: &[Option<HandlerNumber>],
    reach: usize,
) -> HandlerSet
    requires within { reach ≤ length holders.now }
    requires most { reach ≤ 512 }
    requires beyond { IsNobodysFrom reach holders.now }
    ensures { (k : ℕ) → is_member result.words k ≡ is_handler handler (holder_at holders.now k) }
{
    let mut held = HandlerSet::new();
    for k in 0..reach {
        if holds(handler, holders[k]) {
            held.insert(k);
        }
    }
    held
}

/// Gives what a handler holds to another one, or frees it, in a table that has no holders from `reach` on.
pub(crate) fn replace(
    holders: &mut [Option<HandlerNumber>],
    reach: usize,
    from: HandlerNumber,
    to: Option<HandlerNumber>,
)
    requires within { reach ≤ length holders.old }
    requires beyond { IsNobodysFrom reach holders.old }
    ensures { (k : ℕ) → holder_at holders.new k ≡ replaced from to (holder_at holders.old k) }
{
    for k in 0..reach {
        if holds(from, holders[k]) {
            holders[k] = to;
        }
    }
}

/// Gives the handlers of a set to a holder. None of the set is at `reach` or beyond.
pub(crate) fn restore(
    holders: &mut [Option<HandlerNumber>],
    reach: usize,
    set: &HandlerSet,
    holder: Option<HandlerNumber>,
)
    requires within { reach ≤ length holders.old }
    requires most { reach ≤ 512 }
    requires below { IsBelow reach set.now.words }
    ensures { (k : ℕ) → holder_at holders.new k ≡ (if is_member set.now.words k then holder else holder_at holders.old k) }
{
    for k in 0..reach {
        if set.contains(k) {
            holders[k] = holder;
        }
    }
}

/// Gives these handlers to a holder.
pub(crate) fn assign(
    holders: &mut [Option<HandlerNumber>],
    handlers: &[HandlerNumber],
    holder: Option<HandlerNumber>,
)
    requires { All (λ k. k < length holders.old) handlers.now }
    ensures { (k : ℕ) → holder_at holders.new k ≡ (if is_among k handlers.now then holder else holder_at holders.old k) }
{
    for handler in handlers {
        holders[*handler as usize] = holder;
    }
}

/// The least number that is at least `reach` and above these handlers.
pub(crate) fn reach_with(reach: usize, handlers: &[HandlerNumber]) -> usize
    ensures least { reach ≤ result }
    ensures above { (k : ℕ) → result ≤ k → is_among k handlers.now ≡ false }
    ensures most { (n : ℕ) → reach ≤ n → All (λ k. k < n) handlers.now → result ≤ n }
{
    let mut least = reach;
    for handler in handlers {
        least = least.max(*handler as usize + 1);
    }
    least
}
