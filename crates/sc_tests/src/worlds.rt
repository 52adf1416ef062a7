//! Worlds that one thread plays, number by number, where memory is refused to a turn.

use crate::programs::program_of;
use crate::rows::expect_bytes;
use crate::together::{RELAY, RELAY_REPORT};
use sc_lockpass::{HandlerNumber, Version};
use sc_world::World;
use std::process::Abort;
use std::test::Fail;

/// A call back to the caller's handler.
const CALLBACK: &str = "class APPLICATION create make
feature
    n: INTEGER
    w: separate WORKER
    make do create w go (w) print (n) end
    go (x: separate WORKER) do x.serve (Current) end
    bump do n := n + 1 print (n) end
invariant n >= 0
end
class WORKER
feature
    serve (a: separate APPLICATION) do a.bump print (a.n) end
end
";

/// Its turns.
const CALLBACK_TURNS: [HandlerNumber; 22] = [
    0, 0, 0, 1, 0, 0, 1, 1, 1, 0, 0, 0, 1, 1, 0, 1, 1, 1, 0, 0, 0, 0,
];

const CALLBACK_REPORT: &str = "handler 0 free refused 0 output 2
11
handler 1 free refused 0 output 1
1
stopped idle
";

/// A handler that calls a routine of its own.
const RAISING: &str = "class APPLICATION create make
feature
    n: INTEGER
    make do raise print (n) end
    raise do n := n + 1 end
invariant n >= 0
end
";

const RAISING_TURNS: [HandlerNumber; 5] = [0; 5];

const RAISING_REPORT: &str = "handler 0 free refused 0 output 1
1
stopped idle
";

/// A buffer of one place, with a consumer that waits for the producer.
const BUFFER: &str = "class APPLICATION create make
feature
    b: separate BUFFER
    p: separate PRODUCER
    c: separate CONSUMER
    make do create b create c.make (b) create p.make (b) end
end
class BUFFER
feature
    item, count: INTEGER
    put (v: INTEGER) require count = 0 do item := v count := 1 end
    remove require count = 1 do count := 0 end
invariant count = 0 or count = 1
end
class CONSUMER create make
feature
    make (x: separate BUFFER)
        require x.count = 1
        do print (x.item) x.remove end
end
class PRODUCER create make
feature
    make (x: separate BUFFER) require x.count = 0 do x.put (7) end
end
";

const BUFFER_TURNS: [HandlerNumber; 38] = [
    0, 0, 0, 0, 0, 1, 2, 2, 2, 1, 2, 2, 2, 3, 3, 3, 1, 3, 3, 3, 3, 1, 1, 1, 2, 2, 1, 2, 2, 2, 1, 2,
    2, 2, 2, 1, 1, 1,
];

const BUFFER_REPORT: &str = "handler 0 free refused 0 output 0

handler 1 free refused 0 output 0

handler 2 free refused 0 output 1
7
handler 3 free refused 0 output 0

stopped idle
";

/// The turns of these handlers lead a system to this report. Where memory is refused to one of them, so do the turns before it
/// and then the rest.
fn expect_report<R: Abort + AllocGlobal>(
    rt: &R,
    text: &str,
    handlers: &[HandlerNumber],
    report: &str,
) -> Result<(), Fail> {
    let program = program_of(rt.alloc(), text)?;
    let mut world = World::open(rt.alloc(), &program, Version::One)?;
    expect_reported(rt, &mut world, handlers, report)
}

fn expect_reported<R: Abort>(
    rt: &R,
    world: &mut World<'_>,
    handlers: &[HandlerNumber],
    report: &str,
) -> Result<(), Fail> {
    let (made, result) = world.turns_until(handlers);
    if result.is_err() {
        world.turns(handlers.get(made..).unwrap_or(&[]))?;
    }
    expect_bytes(rt, &world.report()?, report, "the turns")
}

#[test]
fn goes_on_where_memory_was_refused(rt: HostRuntime) -> Result<(), Fail> {
    expect_report(&rt, RAISING, &RAISING_TURNS, RAISING_REPORT)?;
    expect_report(&rt, BUFFER, &BUFFER_TURNS, BUFFER_REPORT)?;
    expect_report(&rt, CALLBACK, &CALLBACK_TURNS, CALLBACK_REPORT)?;
    // Locks that are passed twice, then a failure: more rounds of the five handlers than there are turns.
    let mut handlers = Vec::new(rt.alloc());
    for turn in 0..200_u16 {
        handlers.push(turn % 5)?;
    }
    expect_report(&rt, RELAY, handlers.as_slice(), RELAY_REPORT)
}
