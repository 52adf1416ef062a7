//! Names that are known nowhere in a text.

/// The names that are tried, in order.
const NAMES: &[&str] = &[
    "x", "y", "z", "it", "one", "other", "known", "found", "x1", "x2", "x3", "x4", "x5", "x6",
    "x7", "x8", "x9", "y1", "y2", "y3", "y4", "y5", "y6", "y7",
];

/// Names that are known nowhere in a text, or `..` for those that are lacking.
#[derive(Clone, Copy)]
pub struct Fresh<'s> {
    pub first: &'s str,
    pub second: &'s str,
}

impl<'s> Fresh<'s> {
    /// The first two of the names above that the text doesn't contain.
    pub fn of(text: &'s str) -> Fresh<'s> {
        Fresh {
            first: fresh_name(text, 0),
            second: fresh_name(text, 1),
        }
    }
}

/// The first of the names above that the text doesn't contain, after `but` others.
fn fresh_name(text: &str, but: usize) -> &'static str {
    let mut left = but;
    for name in NAMES {
        if !has_word(text.as_bytes(), name.as_bytes()) {
            if left == 0 {
                return *name;
            }
            left -= 1;
        }
    }
    ".."
}

/// Whether the text contains the word, in any letter case.
pub(crate) fn has_word(text: &[u8], word: &[u8]) -> bool {
    let mut start = 0;
    for index in 0..text.len().saturating_add(1) {
        if !is_part_of_name(text.get(index)) {
            if let Some(part) = text.get(start..index)
                && part.eq_ignore_ascii_case(word)
            {
                return true;
            }
            start = index.saturating_add(1);
        }
    }
    false
}

/// Whether there is a byte, and a name may have it.
pub(crate) fn is_part_of_name(byte: Option<&u8>) -> bool {
    match byte {
        None => false,
        Some(byte) => byte.is_ascii_alphanumeric() || *byte == b'_',
    }
}
