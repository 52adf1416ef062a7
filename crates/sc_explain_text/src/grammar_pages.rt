//! What a list of tokens is refused for: P1 and P2.

/// A page for each code.
pub fn pages() -> &'static [&'static str] {
    PAGES
}

const PAGES: &[&str] = &[
    r#"P1 NotInGrammar

The text isn't of the grammar.

Its place is the first token such that no program begins with the tokens up to
and including it; where there is none, just after the last token.

This is refused at a.e:1:19:

    class A feature f end
    class APPLICATION create make feature make do end end

This is accepted:

    class A feature f do end end
    class APPLICATION create make feature make do end end

Why: What is no program has no meaning that could be checked or run. The place
is the first one at which it is clear that no program begins so: the fault may
stand earlier.
"#,
    r#"P2 TooDeep

A token has more than 64 constructs around it: parentheses, lists of actuals,
operators, dots, conditionals, loops, checks and blocks.

Its place is the first token such that no program which nests at most 64 deep
begins with the tokens up to and including it.

This is refused at a.e:1:83:

    class A invariant (((((((((((((((((((((((((((((((((((((((((((((((((((((((((((((((((True))))))))))))))))))))))))))))))))))))))))))))))))))))))))))))))))) end
    class APPLICATION create make feature make do end end

This is accepted:

    class A invariant ((((((((((((((((((((((((((((((((((((((((((((((((((((((((((((((((True)))))))))))))))))))))))))))))))))))))))))))))))))))))))))))))))) end
    class APPLICATION create make feature make do end end

Why: The limit bounds the stack that reading, checking and running a text take.
Where P1's place comes first, P1 is answered.
"#,
];
