//! Systems of classes (ECMA-367, 8.3).

ghost use Rattle.std.specs.Prelude.{ℕ, ◌≤◌, IfOk};
ghost use Rattle.sc_text.specs.Kind.{kinds_of};
ghost use Rattle.sc_text.specs.Spelling.{lexemes_of};
ghost use Rattle.sc_tree.specs.Grammar.Classes.{IsSystem};
ghost use Rattle.sc_tree.specs.Plain as plain;
ghost use Rattle.sc_tree.specs.View.{system_of};
ghost use Rattle.sc_parse.specs.Places.{IsPlaced};
ghost use Rattle.sc_parse.specs.Reading.Classes as spec;
ghost use Rattle.sc_parse.specs.Parses.{Parses, ParsesWithin, IsParsedTo};
ghost use Rattle.sc_parse.specs.Reading.Reads.{ParsesAs};

use crate::cursor::Parser;
use crate::fault::ParseFault;
use sc_text::Token;
use sc_tree::System;
use std::alloc::Global;

/// How many constructs may be around a token, counted from the routine's body or the clause: pairs of parentheses,
/// lists of actuals, operators whose operand it is in, dots whose target it is in, `if`s, loops, `check`s and
/// separate blocks.
pub const MAX_NESTING: u8 = 64;

/// The system that the tokens spell, where its nesting is at most `room`.
#[tactic(auto, unfolding(crate::specs::Reading::Classes::system, sc_tree::specs::View::system_of))]
fn read_within(alloc: Global, tokens: &[Token], room: u8) -> Result<System, ParseFault>
    ensures { ParsesAs (spec.system room tokens.now) result }
{
    let mut parser = Parser::new(alloc, tokens);
    let classes = parser.classes(room)?;
    if parser.is_done() {
        Ok(System { classes })
    } else {
        Err(ParseFault::NotInGrammar {
            span: parser.next_span(),
        })
    }
}

/// The system that the tokens spell, if its nesting is at most `room`. [`parse`] does this with [`MAX_NESTING`].
///
/// # Errors
///
/// `NotInGrammar` if the tokens spell no system, `TooDeep` if they spell only systems with deeper nesting than
/// `room`, and `OutOfMemory`. The fault is at the first token that no system of this nesting has there, after the
/// tokens before it; it is `TooDeep` if a system of deeper nesting has that token.
pub fn parse_within(alloc: Global, tokens: &[Token], room: u8) -> Result<System, ParseFault>
    ensures answer { ParsesWithin room (kinds_of tokens.now) result }
    ensures found { (t : plain.System) (h : ℕ) → h ≤ room → IsSystem t (kinds_of tokens.now) h → IsParsedTo t result }
    ensures placed { IfOk result (λ s. IsPlaced (system_of s) (lexemes_of tokens.now)) }
{
    read_within(alloc, tokens, room)
}

/// The system that the tokens spell. The place of each part goes from its first token to its last, without
/// parentheses around an expression: that of `(a + b) * c` begins at `a`.
///
/// # Errors
///
/// `NotInGrammar` if the tokens spell no system, `TooDeep` if they spell only systems with deeper nesting than
/// [`MAX_NESTING`], and `OutOfMemory`. The fault is at the first token that no system of this nesting has there,
/// after the tokens before it; it is `TooDeep` if a system of deeper nesting has that token.
pub fn parse(alloc: Global, tokens: &[Token]) -> Result<System, ParseFault>
    ensures answer { Parses (kinds_of tokens.now) result }
    ensures found { (t : plain.System) (h : ℕ) → h ≤ 64 → IsSystem t (kinds_of tokens.now) h → IsParsedTo t result }
    ensures placed { IfOk result (λ s. IsPlaced (system_of s) (lexemes_of tokens.now)) }
{
    parse_within(alloc, tokens, MAX_NESTING)
}

/// Lets a system go. Each crate in which one goes proves once more that all of it may, as is proved here anyway.
pub fn let_go(_system: System) {}
