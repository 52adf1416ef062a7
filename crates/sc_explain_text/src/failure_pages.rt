//! What a handler fails for in a run: F1 to F16.

/// A page for each code.
pub fn pages() -> &'static [&'static str] {
    PAGES
}

const PAGES: &[&str] = &[
    r#"F1 Invariant

The class invariant doesn't hold where it is tested: at the end of a creation,
and at the end of a call with a target. A clause that overflows or divides by
zero doesn't hold.

This fails by F1:

    class APPLICATION create make feature n: INTEGER make do n := -1 end invariant n >= 0 end

This doesn't:

    class APPLICATION create make feature n: INTEGER make do n := 1 end invariant n >= 0 end

Why: An object with a broken invariant would be taken for a sound one by all
that use it.
"#,
    r#"F2 Postcondition

A clause of a postcondition is false where the routine ends.

This fails by F2:

    class APPLICATION create make feature n: INTEGER make do ensure n = 1 end end

This doesn't:

    class APPLICATION create make feature n: INTEGER make do n := 1 ensure n = 1 end end

Why: The routine hasn't done what it promises its callers, who rely on it.
"#,
    r#"F3 Check

A clause of a `check` is false.

This fails by F3:

    class APPLICATION create make feature n: INTEGER make do check n = 1 end end end

This doesn't:

    class APPLICATION create make feature n: INTEGER make do check n = 0 end end end

Why: The text says that it holds at this point, and what follows relies on it.
"#,
    r#"F4 Precondition

A precondition that can't be waited for is false in a call whose end the caller
waits for. The caller fails; a handler that was asked stays as it was.

This fails by F4:

    class APPLICATION create make feature make do f (0) end f (n: INTEGER) require n > 0 do end end

This doesn't:

    class APPLICATION create make feature make do f (1) end f (n: INTEGER) require n > 0 do end end

Why: The routine may do anything if its precondition doesn't hold, and only the
caller could make it hold. If a clause names a formal on a handler that this very
call reserves, it is waited for instead, since others may make it hold:
`scoop explain waiting` says more.
"#,
    r#"F5 Overflow

A result is outside of the 64 bits of an INTEGER.

This fails by F5:

    class APPLICATION create make feature n: INTEGER make do n := 9223372036854775807 n := n + 1 end end

This doesn't:

    class APPLICATION create make feature n: INTEGER make do n := 9223372036854775806 n := n + 1 end end

Why: A number that wrapped would be a wrong one that nobody sees.
"#,
    r#"F6 DivideByZero

A divisor is zero.

This fails by F6:

    class APPLICATION create make feature n: INTEGER make do n := 1 // n end end

This doesn't:

    class APPLICATION create make feature n: INTEGER make do n := 1 // (n + 1) end end

Why: There is no such quotient and no such remainder.
"#,
    r#"F7 UnsetEntity

An attribute, a local or a Result of an attached type is read, or a function
ends with it, before it is set.

This fails by F7:

    class APPLICATION create make feature a: APPLICATION make do a.f end f do end end

This doesn't:

    class APPLICATION create make feature a: APPLICATION make do a := Current a.f end f do end end

Why: A type without `detachable` promises an object, and there is none yet: what
is attached isn't checked to be set before it is read.
"#,
    r#"F8 SupplierFailed

A handler that is waited for fails, or a call is made on a handler that has
failed.

This fails by F8:

    class APPLICATION create make
    feature
        w: separate WORKER
        n: INTEGER
        make
            do
                create w
                separate w as x do n := x.share (0) end
            end
    end
    class WORKER
    feature
        share (among: INTEGER): INTEGER do Result := 12 // among end
    end

This doesn't:

    class APPLICATION create make
    feature
        w: separate WORKER
        n: INTEGER
        make
            do
                create w
                separate w as x do n := x.share (3) end
            end
    end
    class WORKER
    feature
        share (among: INTEGER): INTEGER do Result := 12 // among end
    end

Why: What was asked for will never come. There is no rescue, so a failure goes
from handler to handler to all that wait.
"#,
    r#"F9 TooManyHandlers

A run would have more than 512 handlers; where a record of version 1 is
replayed, more than 64.

This fails by F9:

    class APPLICATION create make
    feature
        n: INTEGER
        w: separate WORKER
        make do from until n = 512 loop create w n := n + 1 end end
    end
    class WORKER end

This doesn't:

    class APPLICATION create make
    feature
        n: INTEGER
        w: separate WORKER
        make do from until n = 511 loop create w n := n + 1 end end
    end
    class WORKER end

Why: Limits bound the memory that a run takes.
"#,
    r#"F10 TooManyObjects

A handler would have more than 65,536 objects.

This fails by F10:

    class APPLICATION create make
    feature
        n: INTEGER
        c: CELL
        make do from until n = 65_536 loop create c n := n + 1 end end
    end
    class CELL end

This doesn't:

    class APPLICATION create make
    feature
        n: INTEGER
        c: CELL
        make do from until n = 65_535 loop create c n := n + 1 end end
    end
    class CELL end

Why: Objects live until the run ends, and limits bound the memory that it takes.
"#,
    r#"F11 StackFull

More than 1,024 routines would be running on one handler at once.

This fails by F11:

    class APPLICATION create make feature make do f end f do f end end

This doesn't:

    class APPLICATION create make feature make do f end f do end end

Why: A routine that calls itself without an end would use up all memory.
"#,
    r#"F12 QueueFull

A queue would hold more than 4,096 requests.

This fails by F12:

    class APPLICATION create make
    feature
        w: separate WORKER
        f: separate FLAG
        n: INTEGER
        make
            do
                create f
                create w
                separate w as x do
                    x.hold (f)
                    from until n = 4_097 loop x.rest n := n + 1 end
                end
            end
    end
    class FLAG feature is_up: BOOLEAN end
    class WORKER
    feature
        hold (g: separate FLAG) require g.is_up do end
        rest do end
    end

This doesn't:

    class APPLICATION create make
    feature
        w: separate WORKER
        f: separate FLAG
        n: INTEGER
        make
            do
                create f
                create w
                separate w as x do
                    x.hold (f)
                    from until n = 4_096 loop x.rest n := n + 1 end
                end
            end
    end
    class FLAG feature is_up: BOOLEAN end
    class WORKER
    feature
        hold (g: separate FLAG) require g.is_up do end
        rest do end
    end

Why: A handler that is asked faster than it works would use up all memory. The
one who asks fails, not the one who is asked.
"#,
    r#"F13 NotHeld

A call is made on a handler that the caller holds no right on.

Why: The machine tests for it all the same: V6 is there to refuse each system in
which it could come.
"#,
    r#"F14 ForeignObject

An object that is typed as the current handler's is another one's.

Why: The machine tests for it all the same: V3, V4 and V6 are there to refuse
each system in which it could come.
"#,
    r#"F15 VoidTarget

A call is made on Void.

Why: The machine tests for it all the same: V5 is there to refuse each system in
which it could come.
"#,
    r#"F16 BadCode

A step fits no case of the machine.

Why: The machine tests for it all the same: the rules together are there to
refuse each system in which it could come.
"#,
];
