//! What a text is refused for before its grammar: L1 to L5.

/// A page for each code.
pub fn pages() -> &'static [&'static str] {
    PAGES
}

const PAGES: &[&str] = &[
    r#"L1 BadCharacter

A character begins no token.

Its place is the character.

This is refused at a.e:1:9:

    class A # end
    class APPLICATION create make feature make do end end

This is accepted:

    class A end
    class APPLICATION create make feature make do end end

Why: Outside of comments and strings a text is made of names, numbers, strings
and the symbols of the language alone.
"#,
    r#"L2 UnclosedString

A string has no closing quote before the line's end.

Its place is the opening quote.

This is refused at a.e:1:29:

    class A feature f do print ("abc
    class APPLICATION create make feature make do end end

This is accepted:

    class A feature f do print ("abc") end end
    class APPLICATION create make feature make do end end

Why: A string stands on one line, so that a forgotten quote is found where it is
missing and doesn't swallow the text behind it. A line feed in a string is
written `%N`.
"#,
    r#"L3 BadEscape

In a string, `%` stands before another mark than `N`, `T`, `%`, `"` or `'`.

Its place is the `%`.

This is refused at a.e:1:30:

    class A feature f do print ("%Q") end end
    class APPLICATION create make feature make do end end

This is accepted:

    class A feature f do print ("%%Q") end end
    class APPLICATION create make feature make do end end

Why: A mark that stands for nothing would be printed as something that nobody
wrote. A percent sign itself is written `%%`.
"#,
    r#"L4 IntegerTooLarge

An integer is above 9223372036854775807.

Its place is its first digit.

This is refused at a.e:1:19:

    class A invariant 9223372036854775808 > 0 end
    class APPLICATION create make feature make do end end

This is accepted:

    class A invariant 9223372036854775807 > 0 end
    class APPLICATION create make feature make do end end

Why: INTEGER has 64 bits with a sign: a greater number has no value.
"#,
    r#"L5 SourceTooLong

All files together have more than 1,048,576 bytes, with one line feed after each
and without the byte order marks at their starts.

Why: With a limit on the text there is one on the time and the memory that
reading it takes. No more of a file is read than is needed to see it.
"#,
];
