//! Lists of requests. Nodes go from one list to another, and no memory is taken.
ghost use Rattle.std.specs.Prelude.{◌≡◌, ◌<◌, ◌+◌, ◌^◌, ◌++◌, [], drop, take, length};
ghost use Rattle.sc_handler.specs.InMemory.{over_first};

use crate::handler::{HandlerStage, Posting};
use std::collections::LinkedList;
use std::mem::replace;

/// Takes the first of a list, with its node.
pub fn take_first(list: &mut LinkedList<Posting>) -> LinkedList<Posting>
    ensures first { result ≡ take 1 list.old }
    ensures rest { list.new ≡ drop 1 list.old }
{
    let first = list.len().min(1);
    let Ok(rest) = list.split_off(first) else {
        unreachable!();
    };
    replace(list, rest)
}

/// Adds what a list has to another one.
pub(crate) fn append(list: &mut LinkedList<Posting>, others: &mut LinkedList<Posting>)
    requires { length list.old + length others.old < 2 ^ 63 }
    ensures items { list.new ≡ list.old ++ others.old }
{
    if list.append(others).is_err() {
        unreachable!();
    }
}

/// Writes over which stage the first request of a list was taken.
pub(crate) fn stand_over(list: &mut LinkedList<Posting>, over: HandlerStage)
    ensures { list.new ≡ over_first over list.old }
{
    if let Some(first) = list.front_mut() {
        first.over = over;
    }
}

/// Takes all of a list.
pub(crate) fn take_all(list: &mut LinkedList<Posting>) -> LinkedList<Posting>
    ensures all { result ≡ list.old }
    ensures rest { list.new ≡ [] }
{
    let Ok(rest) = list.split_off(list.len()) else {
        unreachable!();
    };
    replace(list, rest)
}
