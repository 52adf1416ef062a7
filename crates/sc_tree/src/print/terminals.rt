//! Reserved words and special symbols in canonical text.

ghost use Rattle.std.specs.Prelude.{◌≡◌};
ghost use Rattle.sc_tree.specs.Canonical.Layout.{is_closing, is_opening};
ghost use Rattle.sc_tree.specs.Canonical.Terminals.{terminal_text};

use sc_text::Terminal;

/// The text of a reserved word or a special symbol.
#[tactic(auto, unfolding(crate::specs::Canonical::Terminals::terminal_text))]
pub fn terminal_text(terminal: Terminal) -> &'static [u8]
    ensures { result.now ≡ terminal_text terminal }
{
    match terminal {
        Terminal::And => b"and",
        Terminal::As => b"as",
        Terminal::Attached => b"attached",
        Terminal::Check => b"check",
        Terminal::Class => b"class",
        Terminal::Create => b"create",
        Terminal::Current => b"Current",
        Terminal::Deferred => b"deferred",
        Terminal::Detachable => b"detachable",
        Terminal::Do => b"do",
        Terminal::Else => b"else",
        Terminal::Elseif => b"elseif",
        Terminal::End => b"end",
        Terminal::Ensure => b"ensure",
        Terminal::Expanded => b"expanded",
        Terminal::False => b"False",
        Terminal::Feature => b"feature",
        Terminal::From => b"from",
        Terminal::Frozen => b"frozen",
        Terminal::If => b"if",
        Terminal::Implies => b"implies",
        Terminal::Indexing => b"indexing",
        Terminal::Inherit => b"inherit",
        Terminal::Invariant => b"invariant",
        Terminal::Is => b"is",
        Terminal::Local => b"local",
        Terminal::Loop => b"loop",
        Terminal::Not => b"not",
        Terminal::Note => b"note",
        Terminal::Old => b"old",
        Terminal::Or => b"or",
        Terminal::Redefine => b"redefine",
        Terminal::Require => b"require",
        Terminal::Result => b"Result",
        Terminal::Separate => b"separate",
        Terminal::Then => b"then",
        Terminal::True => b"True",
        Terminal::Until => b"until",
        Terminal::Void => b"Void",
        Terminal::Xor => b"xor",
        Terminal::Across => b"across",
        Terminal::Agent => b"agent",
        Terminal::Alias => b"alias",
        Terminal::Assign => b"assign",
        Terminal::Debug => b"debug",
        Terminal::Export => b"export",
        Terminal::External => b"external",
        Terminal::Inspect => b"inspect",
        Terminal::Like => b"like",
        Terminal::Once => b"once",
        Terminal::Rename => b"rename",
        Terminal::Rescue => b"rescue",
        Terminal::Retry => b"retry",
        Terminal::Select => b"select",
        Terminal::Undefine => b"undefine",
        Terminal::Variant => b"variant",
        Terminal::When => b"when",
        Terminal::Becomes => b":=",
        Terminal::NotEqual => b"/=",
        Terminal::LessEqual => b"<=",
        Terminal::GreaterEqual => b">=",
        Terminal::Quotient => b"//",
        Terminal::Remainder => b"\\\\",
        Terminal::Dot => b".",
        Terminal::Comma => b",",
        Terminal::Colon => b":",
        Terminal::Semicolon => b";",
        Terminal::OpenParenthesis => b"(",
        Terminal::CloseParenthesis => b")",
        Terminal::OpenBrace => b"{",
        Terminal::CloseBrace => b"}",
        Terminal::Question => b"?",
        Terminal::Exclamation => b"!",
        Terminal::Equal => b"=",
        Terminal::Less => b"<",
        Terminal::Greater => b">",
        Terminal::Plus => b"+",
        Terminal::Minus => b"-",
        Terminal::Times => b"*",
    }
}

/// Whether the next token follows with no space.
pub fn opens(terminal: Terminal) -> bool
    ensures { result ≡ is_opening terminal }
{
    matches!(
        terminal,
        Terminal::OpenParenthesis | Terminal::OpenBrace | Terminal::Dot
    )
}

/// Whether the token follows the one before it with no space.
pub fn closes(terminal: Terminal) -> bool
    ensures { result ≡ is_closing terminal }
{
    match terminal {
        Terminal::CloseParenthesis | Terminal::CloseBrace | Terminal::Dot => true,
        Terminal::Comma | Terminal::Semicolon | Terminal::Colon => true,
        _ => false,
    }
}
