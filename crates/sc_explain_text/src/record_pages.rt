//! What a record is refused for, and what an audit finds: A1 and A2. Why a run isn't done: U1 to U3.

/// A page for each code.
pub fn pages() -> &'static [&'static str] {
    PAGES
}

const PAGES: &[&str] = &[
    r#"A1 BadRecord

A text isn't that of a record: `scoop record` and its version, 1 or 2, then any
number of lines with a handler's number and how many turns it is given, one at
least, then `end` and how many of these lines there are. Nothing else stands in
it, each line ends with a line feed, numbers have no zeros in front, and one
space stands between them. Handlers are at most 63 in version 1, and 511 in
version 2. There are at most 1,000,000 such lines, and 10,000,000 turns in all.

This is refused, without a place:

    scoop record 2
    0 5
    end 2

This is accepted:

    scoop record 2
    0 5
    end 1

Why: A record that was cut off or changed would be taken for another one. So each
record has one text alone, and a text that is nearly one is none.
"#,
    r#"A2 Differs

An audit doesn't end in what the run left: of the handler that is named, the
least one, an object, a frame, a request, a right, a count or the output differs.

No run was seen to end so, and no text or option brings it about: a run writes
down who made how many turns, and one thread that makes these turns comes to the
same, whatever the workers did at the same time.

This makes 5 turns:

    class APPLICATION create make
    feature
        n: INTEGER
        make do raise print (n) end
        raise do n := n + 1 end
    end

Its record has the line `0 5`. If it had `0 4`, the audit of what the run left
would be `audit A2 Differs 0`: the turn that ends `make` is missing, so handler 0
is free in what was left, and busy in what the audit comes to.

Why: That both come to the same is proved. The audit tests it besides, of this
very run.
"#,
    r#"U1 OutOfMemory

Memory was refused to a run: `out of memory`, with status 5, and no report.

This ends so by `(ulimit -v 8000; scoop run a.e)`:

    class APPLICATION create make feature
        c: CELL
        n: INTEGER
        make do from until n = 65000 loop create c n := n + 1 end end
    end
    class CELL feature item: INTEGER end

Why: Objects live until a run ends. A run that makes less of them, or fewer
`--turns`, needs less.
"#,
    r#"U2 ThreadRefused

A thread was refused to a run: `no thread`, with status 5, and no report.

This ends so by `(ulimit -v 8000; scoop run --workers 8 a.e)`:

    class APPLICATION create make feature make do end end

Why: `--workers 4` starts three threads beside the one that is there, and the
machine may allow fewer. `--workers 1` starts none.
"#,
    r#"U3 LogsDiffer

What the turns of a handler came to isn't what was settled of it: `logs differ`,
with status 5, and no report.

No run was seen to end so, and there is no example: no text, option or file, and
no want of memory, brings it about. When all threads have ended, the log of each
handler is compared with the settlements of its turns, and a report is written
only where they are the same. Where they aren't, a worker has carried something
else to a handler, or back, than it was given.

Why: What a run promises rests on this comparison, and not on the workers.
"#,
];
