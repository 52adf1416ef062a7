//! What handlers wait for in a run, and how that ends: pages that no code has.

/// A page for each subject.
pub fn pages() -> &'static [&'static str] {
    PAGES
}

const PAGES: &[&str] = &[
    r#"Waiting

A handler waits in three cases: it reserves handlers that others hold, a
precondition that it waits for is false, or it has asked a query of another
handler and has no answer yet.

A routine reserves the handlers of all its attached separate formals together
before it begins, and a separate block those of its heads. A clause of `require`
is waited for if it asks such a formal whose handler this very call reserves: a
false clause gives everything back, and is tried again after another handler
has changed the one that it asks.

This waits until the other handler has filled the box:

    class APPLICATION create make
    feature
        box: separate BOX
        filler: separate FILLER
        make do create box create filler separate filler as f do f.fill (box) end take (box) end
        take (b: separate BOX) require b.is_full do print (b.item) end
    end
    class BOX feature is_full: BOOLEAN item: INTEGER put do item := 7 is_full := True end end
    class FILLER feature fill (b: separate BOX) do b.put end end

If the caller has reserved the handler already, no other handler can make the
clause true. So it isn't waited for: if it is false, the call fails by F4.

This ends by F4 at once, since `make` holds the box while it calls `take`:

    class APPLICATION create make
    feature
        box: separate BOX
        make do create box separate box as b do take (b) end end
        take (b: separate BOX) require b.is_full do print (b.item) end
    end
    class BOX feature is_full: BOOLEAN item: INTEGER end

Why: A precondition on another handler's object is no mistake of the caller, who
can't make it true. It says when the routine may begin. `scoop check --all` warns
of a clause that can't be waited for, and `scoop run --explain` says what each
handler waits for at the end of a run.
"#,
    r#"Deadlock

Handlers wait for each other in a ring: each holds what the next one waits for.
No rule refuses that, and such a run ends by itself: the report says `waiting`
for these handlers, and the status is 4. `scoop run --explain` says who holds
what, and where each one waits.

This ends so if each friend takes its first fork before the other takes it as its
second:

    class APPLICATION create make
    feature
        one, two: separate FORK
        make
            local a, b: separate FRIEND
            do
                create one create two
                create a.make (one, two) create b.make (two, one)
                separate a as x, b as y do x.eat y.eat end
            end
    end
    class FORK feature uses: INTEGER use do uses := uses + 1 end end
    class FRIEND create make
    feature
        first, second: separate FORK
        make (f, s: separate FORK) do first := f second := s end
        eat do separate first as f do f.use separate second as s do s.use end end end
    end

This doesn't, since a friend takes both forks together:

    class APPLICATION create make
    feature
        one, two: separate FORK
        make
            local a, b: separate FRIEND
            do
                create one create two
                create a.make (one, two) create b.make (two, one)
                separate a as x, b as y do x.eat y.eat end
            end
    end
    class FORK feature uses: INTEGER use do uses := uses + 1 end end
    class FRIEND create make
    feature
        first, second: separate FORK
        make (f, s: separate FORK) do first := f second := s end
        eat do separate first as f, second as s do f.use s.use end end
    end

Why: To find such rings before a run is as hard as to play it. `scoop search`
plays every order of a system's turns, and finds one that ends so or proves that
there is none.
"#,
];
