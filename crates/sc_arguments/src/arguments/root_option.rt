//! The value of `--root`: a class and a procedure, with a dot between.

ghost use Rattle.std.specs.Prelude.{◌≡◌, ◌≤◌, ◌↔◌, List, ℕ, length, map, IfOk, IfSome, IsSome, option_map, string_bytes};
ghost use Rattle.std.specs.Char.{to_ascii_lowercase};
ghost use Rattle.sc_text.specs.Spelling.{lexemes_of, max_source_bytes};
ghost use Rattle.sc_arguments.specs.Asked.{IsRootIn};
ghost use Rattle.sc_arguments.specs.Internal.SoleName as internal;
ghost use Rattle.sc_arguments.specs.RootOption.{IsName, NamesRoot};

use crate::arguments::UsageFault;
use crate::arguments::words::value_or;
use sc_class::Root;
use sc_text::{LexFault, Token, TokenKind, lex};
use std::alloc::{AllocError, Global};
use std::convert::AsStr;

pub const DEFAULT_ROOT: &str = "APPLICATION.make";

/// The root that the words after a command name.
pub fn read_root<S: AsStr>(alloc: Global, words: &[S]) -> Result<Root, UsageFault>
    ensures { IfOk result (IsRootIn (map S.text words.now)) }
{
    let text = value_or(words, "--root", DEFAULT_ROOT);
    root_of(alloc, text)?.ok_or(UsageFault::BadRoot)
}

/// The root that a text names: two names in any letter case, with one dot between and nothing else. None
/// of any other text, and where a name is longer than a source text may be.
pub fn root_of(alloc: Global, text: &str) -> Result<Option<Root>, AllocError>
    ensures named { IfOk result (λ found. IfSome found (λ root.
        NamesRoot text.now (string_bytes root.class) (string_bytes root.procedure))) }
    ensures complete { (class procedure : List ℕ) → NamesRoot text.now class procedure
        → length text.now ≤ max_source_bytes → IfOk result (λ found. IsSome found) }
{
    let Some((class, procedure)) = text.split_once('.') else {
        return Ok(None);
    };
    let Some(class) = name_of(alloc, class)? else {
        return Ok(None);
    };
    let Some(procedure) = name_of(alloc, procedure)? else {
        return Ok(None);
    };
    Ok(Some(Root { class, procedure }))
}

/// The name that a text is, in lower case. None of any other text, and of a name that is longer than a
/// source text may be.
fn name_of(alloc: Global, text: &str) -> Result<Option<String>, AllocError>
    ensures named { IfOk result (λ found. IfSome found (λ name.
        IsName text.now × (string_bytes name ≡ map to_ascii_lowercase text.now))) }
    ensures complete { IsName text.now → length text.now ≤ max_source_bytes → IfOk result (λ found. IsSome found) }
{
    let tokens = match lex(alloc, text) {
        Ok(tokens) => tokens,
        Err(fault) => {
            return match fault {
                LexFault::OutOfMemory => Err(AllocError),
                _ => Ok(None),
            };
        }
    };
    match sole_name(tokens.as_slice(), text.len()) {
        Some(name) => Ok(Some(String::from_str(alloc, name)?)),
        None => Ok(None),
    }
}

/// The name that is the only token of a text of that length, and the whole of it.
fn sole_name(tokens: &[Token], length: usize) -> Option<&str>
    ensures { option_map (λ name. name.now) result ≡ internal.sole_name length (lexemes_of tokens.now) }
{
    match tokens {
        [token] if token.span.start == 0 && token.span.end as usize == length => match &token.kind {
            TokenKind::Name(name) => Some(name.as_str()),
            _ => None,
        },
        _ => None,
    }
}
