//! What a system is refused for after the rules: its code is too long.

/// A page for what has a name and no code.
pub fn pages() -> &'static [&'static str] {
    PAGES
}

const PAGES: &[&str] = &[
    r#"CodeTooLong

The code to which `scoop run` and `scoop replay` lower a system has more than
16,777,216 instructions. This has a name and no code, and is answered without a
place. `scoop check` doesn't tell it, since it lowers nothing.

Each version of a routine has code of its own, with all clauses that the version
inherits. So what helps is a shorter contract of a routine that many heirs
redefine: its clauses can be functions that are written once.

Why: With a limit on the code there is one on the time and the memory that
lowering takes. What is accepted has at most 1,048,576 bytes of text, but heirs
may repeat a contract many times.
"#,
];
