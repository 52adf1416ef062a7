//! Workers that play at the same time, and one that waits for another.

use crate::runs::{Waits, expect_report};
use std::test::Fail;

/// Two handlers that a third one makes.
const TWO: &str = "class APPLICATION create make
feature
    s, t: separate CELL
    make do create s.set (1) create t.set (2) end
end
class CELL create set
feature
    item: INTEGER
    set (v: INTEGER) do item := v end
end
";

const TWO_REPORT: &str = "handler 0 free refused 0 output 0

handler 1 free refused 0 output 0

handler 2 free refused 0 output 0

stopped idle
";

/// Handlers 1 and 2 wait for each other.
#[test]
fn two_at_once(rt: HostRuntime) -> Result<(), Fail> {
    expect_report(
        &rt,
        TWO,
        2,
        Waits {
            handlers: 0x6,
            ends: 0,
        },
        TWO_REPORT,
    )
}

/// Eight handlers that a ninth one makes.
const EIGHT: &str = "class APPLICATION create make
feature
    a, b, c, d, e, f, g, h: separate CELL
    make
        do
            create a.set (1) create b.set (2) create c.set (3) create d.set (4)
            create e.set (5) create f.set (6) create g.set (7) create h.set (8)
        end
end
class CELL create set
feature
    item: INTEGER
    set (v: INTEGER) do item := v end
end
";

const EIGHT_REPORT: &str = "handler 0 free refused 0 output 0

handler 1 free refused 0 output 0

handler 2 free refused 0 output 0

handler 3 free refused 0 output 0

handler 4 free refused 0 output 0

handler 5 free refused 0 output 0

handler 6 free refused 0 output 0

handler 7 free refused 0 output 0

handler 8 free refused 0 output 0

stopped idle
";

/// Handlers 1 to 8 wait for each other.
#[test]
fn eight_at_once(rt: HostRuntime) -> Result<(), Fail> {
    expect_report(
        &rt,
        EIGHT,
        8,
        Waits {
            handlers: 0x1fe,
            ends: 0,
        },
        EIGHT_REPORT,
    )
}

/// Locks that are passed twice, then a failure; and a handler that comes late.
pub const RELAY: &str = "class APPLICATION create make
feature
    b, c, d: separate NODE
    e: separate LATE
    make do create d create b create c create e.run (d) go (b, c, d) end
    go (x, y, z: separate NODE) do x.relay (Current, y) end
end
class NODE
feature
    hits: INTEGER
    hit do hits := hits + 1 end
    relay (p: separate APPLICATION; q: separate NODE) do q.fall (p) end
    fall (p: separate APPLICATION) do check False end end
end
class LATE create run
feature
    run (x: separate NODE) do x.hit print (x.hits) end
end
";

pub const RELAY_REPORT: &str = "handler 0 failed F8 refused 0 output 0

handler 1 free refused 0 output 0

handler 2 failed F8 refused 0 output 0

handler 3 failed F3 refused 0 output 0

handler 4 free refused 0 output 1
1
stopped idle
";

/// Handler 4 waits until handler 3 has ended twice.
#[test]
fn one_comes_late(rt: HostRuntime) -> Result<(), Fail> {
    expect_report(
        &rt,
        RELAY,
        2,
        Waits {
            handlers: 0x10,
            ends: 2,
        },
        RELAY_REPORT,
    )
}
