//! Words that a text has had, so that one that comes again takes no more memory and is looked up once.

ghost use Rattle.std.specs.Prelude.{◌≡◌, bytes_eq, map, string_bytes, IfOk};
ghost use Rattle.std.specs.Char.{to_ascii_lowercase};
ghost use Rattle.sc_text.specs.Kind.{kind_of};
ghost use Rattle.sc_text.specs.Words.{reserved};
ghost use Rattle.sc_text.specs.Reading.Front.{kind_of_lower, kind_of_word};

use crate::reserved_words::reserved;
use crate::token::{Terminal, TokenKind};
use std::alloc::{AllocError, Global};
use std::rc::Rc;

/// How many words are kept at most.
const KEPT: usize = 1024;

/// A word in lower case, and the terminal that it is, if it is a reserved one.
#[derive(Drop)]
struct Word {
    text: Rc<String>,
    terminal: Option<Terminal>,
    ghost is_looked_up: { reserved (string_bytes text.value) ≡ terminal },
}

/// The words that a text has had, each at a place of a table: of several words with one place, the last.
#[derive(Drop)]
pub struct Words {
    alloc: Global,
    kept: Vec<Option<Word>>,
}

/// Whether a text is the word in lower case.
fn is_lower_case_of(text: &[u8], word: &[u8]) -> bool
    ensures { result ≡ bytes_eq text.now (map to_ascii_lowercase word.now) }
{
    if text.len() != word.len() {
        return false;
    }
    for (at, byte) in word.iter().enumerate() {
        if text[at] != byte.to_ascii_lowercase() {
            return false;
        }
    }
    true
}

/// What a kept word is as a token.
fn kept_kind(kept: &Word) -> Result<TokenKind, AllocError>
    ensures { IfOk result (λ kind. kind_of kind ≡ kind_of_lower (string_bytes kept.now.text.value) kept.now.terminal) }
{
    match kept.terminal {
        Some(terminal) => Ok(TokenKind::Terminal(terminal)),
        None => Ok(TokenKind::Name(kept.text.clone()?)),
    }
}

impl Words {
    /// None yet.
    pub fn new(alloc: Global) -> Result<Words, AllocError> {
        let mut kept = Vec::with_capacity(alloc, KEPT)?;
        for _ in 0..KEPT {
            kept.push(None)?;
        }
        Ok(Words { alloc, kept })
    }

    /// The name or the reserved word that a word is. A word that was the last one with its place is taken from
    /// memory.
    pub fn token_kind(&mut self, word: &str, place: usize) -> Result<TokenKind, AllocError>
        ensures { IfOk result (λ kind. kind_of kind ≡ kind_of_word word.now (reserved word.now)) }
    {
        let place = place % KEPT;
        if let Some(Some(kept)) = self.kept.get(place) {
            if is_lower_case_of(kept.text.as_bytes(), word.as_bytes()) {
                let kind = kept_kind(kept)?;
                return Ok(kind);
            }
        }
        let terminal = reserved(word.as_bytes());
        let text = Rc::new(self.alloc, word.to_ascii_lowercase(self.alloc)?)?;
        let kept = Word { text, terminal };
        let kind = kept_kind(&kept)?;
        if let Some(slot) = self.kept.get_mut(place) {
            *slot = Some(kept);
        }
        Ok(kind)
    }
}
