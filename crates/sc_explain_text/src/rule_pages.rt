//! What is refused in the classes of a system: V1 to V20.

/// A page for each code.
pub fn pages() -> &'static [&'static str] {
    PAGES
}

const PAGES: &[&str] = &[
    r#"V1 UnknownName

No class, no feature and no entity in scope has the name. NONE is no class for a
type.

Its place is the name.

This is refused at a.e:1:22:

    class A feature f do g end end
    class APPLICATION create make feature make do end end

This is accepted:

    class A feature f do g end g do end end
    class APPLICATION create make feature make do end end

A type names no class.

Its place is the class's name.

This is refused at a.e:1:20:

    class A feature n: B end
    class APPLICATION create make feature make do end end

This is accepted:

    class A feature n: A end
    class APPLICATION create make feature make do end end

An object test's name stands outside of its scope.

Its place is the name.

This is refused at a.e:1:57:

    class A feature f (x: A) do if attached x as y then end y.g end g do end end
    class APPLICATION create make feature make do end end

This is accepted:

    class A feature f (x: A) do if attached x as y then y.g end end g do end end
    class APPLICATION create make feature make do end end

Why: A name that nothing declares means nothing. Nothing is declared by being
used.
"#,
    r#"V2 WrongArity

A call has another number of actuals than the feature has formals.

Its place is the feature's name.

This is refused at a.e:1:22:

    class A feature f do f (1) end end
    class APPLICATION create make feature make do end end

This is accepted:

    class A feature f do f end end
    class APPLICATION create make feature make do end end

Why: Each formal gets the value of the actual at its place: one too many would
go nowhere, and one too few would leave it without a value.
"#,
    r#"V3 ArgumentType

An actual doesn't conform to its formal as the caller sees it; or `print` is
given a reference.

Its place is the actual.

This is refused at a.e:1:41:

    class A feature f (x: separate A) do g (x) end g (y: A) do end end
    class APPLICATION create make feature make do end end

This is accepted:

    class A feature f (x: separate A) do g (x) end g (y: separate A) do end end
    class APPLICATION create make feature make do end end

A head of a separate block may be Void, or isn't a reference.

Its place is the head.

This is refused at a.e:1:37:

    class A feature d: ?A f do separate d as x do end end end
    class APPLICATION create make feature make do end end

This is accepted:

    class A feature d: A f do separate d as x do end end end
    class APPLICATION create make feature make do end end

Why: The routine relies on its formals: an object of another handler in place of
one of its own would be used without being reserved, by two handlers at once;
Void would be called.
"#,
    r#"V4 AssignType

The right side of an assignment doesn't conform to the left.

Its place is the right side.

This is refused at a.e:1:46:

    class A feature c: A s: separate A f do c := s end end
    class APPLICATION create make feature make do end end

This is accepted:

    class A feature c: A s: separate A f do s := c end end
    class APPLICATION create make feature make do end end

Why: What reads the left side relies on its type: an object of another handler
would be taken for one of the current handler, and Void for an object.
"#,
    r#"V5 TargetDetachable

The target of a call may be Void.

Its place is the target.

This is refused at a.e:1:28:

    class A feature d: ?A f do d.f end end
    class APPLICATION create make feature make do end end

This is accepted:

    class A feature d: ?A f do if attached d as x then x.f end end end
    class APPLICATION create make feature make do end end

Why: Void has no features. `if attached x as y then` asks, and gives the object
a name that isn't Void.
"#,
    r#"V6 TargetUncontrolled

The target of a call may be another handler's, and that isn't reserved.

Its place is the target.

This is refused at a.e:1:36:

    class A feature s: separate A f do s.f end end
    class APPLICATION create make feature make do end end

This is accepted:

    class A feature s: separate A f do separate s as x do x.f end end end
    class APPLICATION create make feature make do end end

Why: Other handlers could call the object between two calls on it, so nothing
that was just seen would still hold. A handler is reserved by a routine that
takes the object as an attached separate formal, or by a separate block.
"#,
    r#"V7 ResultType

A procedure stands as a value, a query as an instruction, `Result` where there
is none, or a query in a `create` list.

Its place is the name.

This is refused at a.e:1:38:

    class A feature n: INTEGER f do n := f end end
    class APPLICATION create make feature make do end end

This is accepted:

    class A feature n: INTEGER f do n := n end end
    class APPLICATION create make feature make do end end

Why: A procedure gives no value, and the value of a query that stands alone
would be lost.
"#,
    r#"V8 NotBoolean

A condition or a clause isn't BOOLEAN.

Its place is the expression.

This is refused at a.e:1:25:

    class A feature f do if 1 then end end end
    class APPLICATION create make feature make do end end

This is accepted:

    class A feature f do if 1 = 1 then end end end
    class APPLICATION create make feature make do end end

Why: Only True and False decide. There is no number or object that counts as one
of them.
"#,
    r#"V9 OperatorType

An operator has operands that it doesn't take.

Its place is the operator's expression.

This is refused at a.e:1:29:

    class A feature f do print (1 + True) end end
    class APPLICATION create make feature make do end end

This is accepted:

    class A feature f do print (1 + 1) end end
    class APPLICATION create make feature make do end end

Why: Arithmetic and `<` take INTEGERs, `and` and `not` BOOLEANs, and `=` two
values of one kind. Nothing is converted.
"#,
    r#"V10 NotAssignable

The left side, or the entity of a `create`, is no attribute, no local and no
`Result` of a function.

Its place is that name.

This is refused at a.e:1:35:

    class A feature f (x: INTEGER) do x := 1 end end
    class APPLICATION create make feature make do end end

This is accepted:

    class A feature f local x: INTEGER do x := 1 end end
    class APPLICATION create make feature make do end end

Why: Formals and the names of object tests and blocks keep the value that they
were given, for whoever reads on; an attribute of another object is changed by
that object's features alone.
"#,
    r#"V11 NotCreation

The class doesn't list the procedure that creates; or it is ANY, INTEGER or
BOOLEAN.

Its place is the procedure's name, else the entity.

This is refused at a.e:1:36:

    class A feature c: A f do create c.f end end
    class APPLICATION create make feature make do end end

This is accepted:

    class A feature c: A f do create c end end
    class APPLICATION create make feature make do end end

No procedure is given where the class lists some.

Its place is the entity.

This is refused at a.e:1:43:

    class A create f feature c: A f do create c end end
    class APPLICATION create make feature make do end end

This is accepted:

    class A create f feature c: A f do create c.f end end
    class APPLICATION create make feature make do end end

Why: The class says by its `create` list how its objects begin, so that each of
them begins with its invariant.
"#,
    r#"V12 CreationTag

An object would be made on the handler of a formal.

Its place is the entity.

This is refused at a.e:1:77:

    class A feature f (x: separate A) local y: separate <x.handler> A do create y end end
    class APPLICATION create make feature make do end end

This is accepted:

    class A feature f (x: separate A) local y: separate A do create y end end
    class APPLICATION create make feature make do end end

Why: A handler's objects are made by that handler alone. Make it by a call of
one of its features, or on a new handler, for an entity of a type `separate C`.
"#,
    r#"V13 TagName

`<x.handler>` stands in the type of an attribute or a result, or names no
attached formal of a type `separate C` of the same routine.

Its place is the type.

This is refused at a.e:1:29:

    class A feature f (x: A; y: separate <x.handler> A) do end end
    class APPLICATION create make feature make do end end

This is accepted:

    class A feature f (x: separate A; y: separate <x.handler> A) do end end
    class APPLICATION create make feature make do end end

INTEGER or BOOLEAN has a mark or a tag.

Its place is the type.

This is refused at a.e:1:20:

    class A feature n: ?INTEGER end
    class APPLICATION create make feature make do end end

This is accepted:

    class A feature n: !INTEGER end
    class APPLICATION create make feature make do end end

Why: A tag by a formal says something while that formal's handler is reserved,
and an attribute or a result lives longer. Values are copied and belong to no
handler.
"#,
    r#"V14 InvariantForm

A clause of an invariant isn't a formula over the class's own attributes.

Its place is the clause's tag, else its expression.

This is refused at a.e:1:45:

    class A feature b: BOOLEAN do end invariant b end
    class APPLICATION create make feature make do end end

This is accepted:

    class A feature b: BOOLEAN invariant b end
    class APPLICATION create make feature make do end end

Why: The invariant is tested while its object is the current one, and running
nothing. So it can neither wait, nor change anything, nor depend on other
objects.
"#,
    r#"V15 ImpureContract

A contract, a `check` or `old` calls what isn't pure.

Its place is the feature's name.

This is refused at a.e:1:27:

    class A feature f require g do end g: BOOLEAN do print (1) end end
    class APPLICATION create make feature make do end end

This is accepted:

    class A feature f require g do end g: BOOLEAN do end end
    class APPLICATION create make feature make do end end

Why: A contract looks, and must not change what it looks at: with or without it
the program has to do the same.
"#,
    r#"V16 PreconditionArgument

A separate call in a precondition passes a reference.

Its place is the actual.

This is refused at a.e:1:48:

    class A feature f (x: separate A) require x.g (x) do end g (y: A): BOOLEAN do end end
    class APPLICATION create make feature make do end end

This is accepted:

    class A feature f (x: separate A) do check x.g (x) end end g (y: A): BOOLEAN do end end
    class APPLICATION create make feature make do end end

Why: Who is asked could ask back over the reference, while the one who asks
waits for its precondition.
"#,
    r#"V17 NotExported

A call with a target is of a feature that is exported to no class.

Its place is the feature's name.

This is refused at a.e:1:37:

    class A feature {NONE} f do Current.f end end
    class APPLICATION create make feature make do end end

This is accepted:

    class A feature {NONE} f do f end end
    class APPLICATION create make feature make do end end

Why: `feature {NONE}` keeps a feature for calls without a target, within the
objects of the class and its heirs.
"#,
    r#"V18 ObjectTestPlace

An object test is neither the condition of an `if` or `elseif`, nor an operand
of the `and then`s at its top.

Its place is the object test.

This is refused at a.e:1:36:

    class A feature f (x: A) do print (attached x as y) end end
    class APPLICATION create make feature make do end end

This is accepted:

    class A feature f (x: A) do if attached x as y then end end end
    class APPLICATION create make feature make do end end

Why: Elsewhere there would be no text in which the name is sure to have an
object.
"#,
    r#"V19 OldPlace

`old` stands outside of `ensure`, inside of another `old`, or over a separate
call.

Its place is the `old` expression.

This is refused at a.e:1:29:

    class A feature f do print (old 1) end end
    class APPLICATION create make feature make do end end

This is accepted:

    class A feature f do ensure old 1 = 1 end end
    class APPLICATION create make feature make do end end

Why: The value is kept when the body begins, and is had where it has ended. What
another handler's objects say in between is that handler's.
"#,
    r#"V20 VoidUse

`Void` is no right side, no actual and no operand of `=` or `/=`.

Its place is the `Void`.

This is refused at a.e:1:25:

    class A feature f do if Void then end end end
    class APPLICATION create make feature make do end end

This is accepted:

    class A feature f do if Void = Void then end end end
    class APPLICATION create make feature make do end end

Why: Void is no object and no value that operators or conditions take.
"#,
];
