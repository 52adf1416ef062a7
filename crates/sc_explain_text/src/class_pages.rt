//! What the classes of a system are refused for: C1 to C8.

/// A page for each code.
pub fn pages() -> &'static [&'static str] {
    PAGES
}

const PAGES: &[&str] = &[
    r#"C1 DuplicateClass

A class has the name of an earlier one, or is called ANY, NONE, INTEGER or
BOOLEAN.

Its place is its name.

This is refused at a.e:1:19:

    class A end class a end
    class APPLICATION create make feature make do end end

This is accepted:

    class A end class B end
    class APPLICATION create make feature make do end end

Why: A type names its class by the name alone, and letter case is ignored: with
two of one name it would say neither.
"#,
    r#"C2 UnknownParent

A parent is no class, or is INTEGER, BOOLEAN or NONE.

Its place is the parent's name.

This is refused at a.e:1:17:

    class A inherit B end
    class APPLICATION create make feature make do end end

This is accepted:

    class A inherit B end class B end
    class APPLICATION create make feature make do end end

Why: There would be nothing to inherit; and values have no heirs.
"#,
    r#"C3 Cycle

A class inherits from itself, over others or at once.

Its place is of the first such class, the name of the first parent that leads
back.

This is refused at a.e:1:17:

    class A inherit B end class B inherit A end
    class APPLICATION create make feature make do end end

This is accepted:

    class A inherit B end class B end
    class APPLICATION create make feature make do end end

Why: Each of the classes would have the features of the next one first, so none
would ever be settled.
"#,
    r#"C4 DuplicateFeature

Two features of a class, inherited ones that it doesn't redefine included, have
one name, or one is called `print`.

Its place is of the two names the one that stands later in the text.

This is refused at a.e:1:26:

    class A feature f do end f do end end
    class APPLICATION create make feature make do end end

This is accepted:

    class A feature f do end g do end end
    class APPLICATION create make feature make do end end

A formal, a local, an object test's or a block's name is like a feature of its
class, or like another name where both are known.

Its place is of the two names the one that stands later in the text.

This is refused at a.e:1:31:

    class A feature n: INTEGER f (n: INTEGER) do end end
    class APPLICATION create make feature make do end end

This is accepted:

    class A feature n: INTEGER f (m: INTEGER) do end end
    class APPLICATION create make feature make do end end

Why: Wherever a name is known it means one thing: no declaration hides another
one.
"#,
    r#"C5 BadRedefinition

A name under `redefine` isn't inherited, or the class doesn't declare it again.

Its place is that name.

This is refused at a.e:1:30:

    class A inherit ANY redefine f end end
    class APPLICATION create make feature make do end end

This is accepted:

    class A inherit ANY end
    class APPLICATION create make feature make do end end

What redefines isn't a routine or doesn't redefine one, has formals of other
names or types or a result that doesn't conform, or has a contract of its own.

Its place is the name of what redefines.

This is refused at a.e:1:71:

    class A feature f do end end class B inherit A redefine f end feature f: A do end end
    class APPLICATION create make feature make do end end

This is accepted:

    class A feature f do end end class B inherit A redefine f end feature f do end end
    class APPLICATION create make feature make do end end

Why: Who calls the parent's routine may get the heir's: so it is called in the
same way, gives what conforms, and keeps the one contract.
"#,
    r#"C6 NoRoot

There is no class of the root's name, or its `create` list has no procedure of
that name without formals.

This is refused, without a place:

    class APPLICATION feature make do end end

This is accepted:

    class APPLICATION create make feature make do end end

Why: A run begins with the creation of one object: of APPLICATION by `make`, or
of the class and by the procedure that `--root CLASS.PROCEDURE` names. Nobody is
there to give it actuals.
"#,
    r#"C7 Limit

There are more than 256 classes, 256 features of a class with those that it
inherits, 16 formals of a routine, 256 locals of it (names of blocks count,
those of object tests don't), or 16 names of a block.

This is refused, without a place:

    class A feature f (a, b, c, d, e, g, h, i, j, k, l, m, n, o, p, q, r: INTEGER) do end end
    class APPLICATION create make feature make do end end

This is accepted:

    class A feature f (a, b, c, d, e, g, h, i, j, k, l, m, n, o, p, q: INTEGER) do end end
    class APPLICATION create make feature make do end end

Why: Limits bound what a check keeps and what a run's frames hold.
"#,
    r#"C8 LeftOut

A class is `deferred`, `expanded` or `frozen`.

Its place is its name.

This is refused at a.e:1:16:

    deferred class A end
    class APPLICATION create make feature make do end end

This is accepted:

    class A end
    class APPLICATION create make feature make do end end

A class has a second parent.

Its place is the second parent's name.

This is refused at a.e:1:22:

    class A inherit ANY; ANY end
    class APPLICATION create make feature make do end end

This is accepted:

    class A inherit ANY end
    class APPLICATION create make feature make do end end

An export list is another one than `{ANY}`, `{NONE}` and `{}`.

Its place is its first name.

This is refused at a.e:1:18:

    class A feature {B} f do end end
    class APPLICATION create make feature make do end end

This is accepted:

    class A feature {NONE} f do end end
    class APPLICATION create make feature make do end end

Why: These parts of Eiffel are left out of the language. They are read, so that
the answer names them.
"#,
];
