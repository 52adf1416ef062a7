//! The words after a command: what they say of one option.

ghost use Rattle.std.specs.Prelude.{◌≡◌, Some, false, map, option_map};
ghost use Rattle.std.specs.List.{list_any};
ghost use Rattle.std.specs.Str.{bytes_eq};
ghost use Rattle.sc_arguments.specs.Words as spec;

use std::convert::AsStr;

/// The options whose value may be the next word.
const VALUED: [&str; 15] = [
    "--root",
    "--root-class",
    "--workers",
    "--turns",
    "--output-limit",
    "--record",
    "--format",
    "--for",
    "--states",
    "--memory",
    "--seed",
    "--times",
    "--until",
    "--trace-events",
    "--timeline",
];

/// The value of an option among the words after a command, if it is used.
pub fn value_of<'a, S: AsStr>(words: &'a [S], option: &str) -> Option<&'a str>
    ensures { option_map (λ value. value.now) result ≡ spec.value_of option.now (map S.text words.entry.now) }
{
    match words_from(words, option).split_first() {
        Some((word, behind)) => value_at(word.as_str(), behind, option),
        None => None,
    }
}

/// The value of an option, or this one if it isn't used.
pub fn value_or<'a, S: AsStr>(words: &'a [S], option: &str, default: &'static str) -> &'a str
    ensures { result.now ≡ spec.value_or option.now default.now (map S.text words.entry.now) }
{
    value_of(words, option).unwrap_or(default)
}

/// Whether one of the words after a command uses an option.
pub fn has_option<S: AsStr>(words: &[S], option: &str) -> bool
    ensures { result ≡ spec.has_option option.now (map S.text words.now) }
{
    !words_from(words, option).is_empty()
}

/// The words from the first that uses an option on, none if it isn't used.
fn words_from<'a, S: AsStr>(words: &'a [S], option: &str) -> &'a [S]
    ensures { map S.text result.now ≡ spec.words_from option.now false (map S.text words.entry.now) }
{
    let mut left = words;
    let mut is_value = false;
    while let Some((word, behind)) = left.split_first() {
        let word = word.as_str();
        if is_value {
            is_value = false;
        } else if ends_options(word) {
            return &[];
        } else if uses(word, option) {
            return left;
        } else {
            is_value = has_value(word);
        }
        left = behind;
    }
    left
}

/// The value of the option that a word uses.
fn value_at<'a, S: AsStr>(word: &'a str, words: &'a [S], option: &str) -> Option<&'a str>
    ensures { option_map (λ value. value.now) result
        ≡ spec.value_by (map S.text words.entry.now) (spec.after option.now word.entry.now) }
{
    match word.strip_prefix(option) {
        Some(behind) => value_by(behind, words),
        None => None,
    }
}

/// The value of an option with this after its name: what is after `=`, or else the next word.
fn value_by<'a, S: AsStr>(behind: &'a str, words: &'a [S]) -> Option<&'a str>
    ensures { option_map (λ value. value.now) result ≡ spec.value_by (map S.text words.entry.now) (Some behind.entry.now) }
{
    match (behind.as_bytes(), words) {
        ([], []) => None,
        ([], [value, ..]) => Some(value.as_str()),
        ([_, ..], _) => behind.strip_prefix('='),
    }
}

/// Whether a word uses an option: it is the option's name, or that with `=` and a value after it. Anything may be after a
/// short one.
fn uses(word: &str, option: &str) -> bool
    ensures { result ≡ spec.uses option.now word.now }
{
    match word.strip_prefix(option) {
        Some(behind) => match behind.as_bytes() {
            [] => true,
            [first, ..] => option.len() == 2 || *first == b'=',
        },
        None => false,
    }
}

/// Whether there are no options after a word.
pub fn ends_options(word: &str) -> bool
    ensures { result ≡ spec.ends_options word.now }
{
    word == "--"
}

/// Whether a word is an option whose value is the next word.
pub fn has_value(word: &str) -> bool
    ensures { result ≡ spec.has_value word.now }
{
    is_among(word, &VALUED)
}

/// Whether a word is one of these.
fn is_among(word: &str, options: &[&str]) -> bool
    ensures { result ≡ list_any (bytes_eq word.now) (map (λ option. option.now) options.now) }
{
    for option in options {
        if word == *option {
            return true;
        }
    }
    false
}

/// Whether a word is an option. `-` alone is a file.
pub fn is_option(word: &str) -> bool
    ensures { result ≡ spec.is_option word.now }
{
    matches!(word.as_bytes(), [b'-', _, ..])
}
