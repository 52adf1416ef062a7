//! The reserved words.

ghost use Rattle.std.specs.Prelude.{◌≡◌, map};
ghost use Rattle.std.specs.Str.{str_eq_ignore_ascii_case};
ghost use Rattle.sc_text.specs.Words.{reserved, word_among};

use crate::token::Terminal;

// Each reserved word, in lower case, by how many letters it has.
const OF_TWO: [(&[u8], Terminal); 5] = [
    (b"as", Terminal::As),
    (b"do", Terminal::Do),
    (b"if", Terminal::If),
    (b"is", Terminal::Is),
    (b"or", Terminal::Or),
];

const OF_THREE: [(&[u8], Terminal); 5] = [
    (b"and", Terminal::And),
    (b"end", Terminal::End),
    (b"not", Terminal::Not),
    (b"old", Terminal::Old),
    (b"xor", Terminal::Xor),
];

const OF_FOUR: [(&[u8], Terminal); 10] = [
    (b"else", Terminal::Else),
    (b"from", Terminal::From),
    (b"loop", Terminal::Loop),
    (b"note", Terminal::Note),
    (b"then", Terminal::Then),
    (b"true", Terminal::True),
    (b"void", Terminal::Void),
    (b"like", Terminal::Like),
    (b"once", Terminal::Once),
    (b"when", Terminal::When),
];

const OF_FIVE: [(&[u8], Terminal); 9] = [
    (b"check", Terminal::Check),
    (b"class", Terminal::Class),
    (b"false", Terminal::False),
    (b"local", Terminal::Local),
    (b"until", Terminal::Until),
    (b"agent", Terminal::Agent),
    (b"alias", Terminal::Alias),
    (b"debug", Terminal::Debug),
    (b"retry", Terminal::Retry),
];

const OF_SIX: [(&[u8], Terminal); 11] = [
    (b"create", Terminal::Create),
    (b"elseif", Terminal::Elseif),
    (b"ensure", Terminal::Ensure),
    (b"frozen", Terminal::Frozen),
    (b"result", Terminal::Result),
    (b"across", Terminal::Across),
    (b"assign", Terminal::Assign),
    (b"export", Terminal::Export),
    (b"rename", Terminal::Rename),
    (b"rescue", Terminal::Rescue),
    (b"select", Terminal::Select),
];

const OF_SEVEN: [(&[u8], Terminal); 7] = [
    (b"current", Terminal::Current),
    (b"feature", Terminal::Feature),
    (b"implies", Terminal::Implies),
    (b"inherit", Terminal::Inherit),
    (b"require", Terminal::Require),
    (b"inspect", Terminal::Inspect),
    (b"variant", Terminal::Variant),
];

const OF_EIGHT: [(&[u8], Terminal); 8] = [
    (b"attached", Terminal::Attached),
    (b"deferred", Terminal::Deferred),
    (b"expanded", Terminal::Expanded),
    (b"indexing", Terminal::Indexing),
    (b"redefine", Terminal::Redefine),
    (b"separate", Terminal::Separate),
    (b"external", Terminal::External),
    (b"undefine", Terminal::Undefine),
];

const OF_NINE: [(&[u8], Terminal); 1] = [(b"invariant", Terminal::Invariant)];

const OF_TEN: [(&[u8], Terminal); 1] = [(b"detachable", Terminal::Detachable)];

/// Whether a text is the word, in any letter case.
fn is_word(text: &[u8], word: &[u8]) -> bool
    ensures { result ≡ str_eq_ignore_ascii_case text.now word.now }
{
    text.eq_ignore_ascii_case(word)
}

/// The first of these words that a text is, in any letter case.
fn word_among(table: &[(&[u8], Terminal)], text: &[u8]) -> Option<Terminal>
    ensures { result ≡ word_among (map (λ w. (w.0.now, w.1)) table.now) text.now }
{
    for (word, terminal) in table {
        if is_word(text, word) {
            return Some(*terminal);
        }
    }
    None
}

/// The reserved word that a text is, in any letter case.
pub fn reserved(text: &[u8]) -> Option<Terminal>
    ensures { result ≡ reserved text.now }
{
    match text.len() {
        2 => word_among(&OF_TWO, text),
        3 => word_among(&OF_THREE, text),
        4 => word_among(&OF_FOUR, text),
        5 => word_among(&OF_FIVE, text),
        6 => word_among(&OF_SIX, text),
        7 => word_among(&OF_SEVEN, text),
        8 => word_among(&OF_EIGHT, text),
        9 => word_among(&OF_NINE, text),
        10 => word_among(&OF_TEN, text),
        _ => None,
    }
}
