//! The pages, and how one is found.

ghost use Rattle.std.specs.Prelude.{IfSome, IsTrue};
ghost use Rattle.sc_explain_text.specs.Page.{IsPageOf};

use crate::lines::Lines;
use crate::{
    class_pages, failure_pages, grammar_pages, lowering_pages, record_pages, rule_pages,
    subject_pages, text_pages,
};
use std::alloc::{AllocError, Global};

/// What the pages of a group tell of.
#[derive(Clone, Copy)]
enum Topic {
    Text,
    Grammar,
    Classes,
    Rules,
    Lowering,
    Records,
    Failures,
    Subjects,
}

/// In the order in which they are looked at.
const TOPICS: [Topic; 8] = [
    Topic::Text,
    Topic::Grammar,
    Topic::Classes,
    Topic::Rules,
    Topic::Lowering,
    Topic::Records,
    Topic::Failures,
    Topic::Subjects,
];

/// The pages that tell of a topic.
fn pages_of(topic: Topic) -> &'static [&'static str] {
    match topic {
        Topic::Text => text_pages::pages(),
        Topic::Grammar => grammar_pages::pages(),
        Topic::Classes => class_pages::pages(),
        Topic::Rules => rule_pages::pages(),
        Topic::Lowering => lowering_pages::pages(),
        Topic::Records => record_pages::pages(),
        Topic::Failures => failure_pages::pages(),
        Topic::Subjects => subject_pages::pages(),
    }
}

/// The page of this code or this name, in any letter case.
pub fn find(word: &str) -> Option<&'static str>
    ensures { IfSome result (λ page. IsPageOf page.now word.now) }
{
    for topic in TOPICS {
        if let Some(page) = find_among(pages_of(topic), word) {
            return Some(page);
        }
    }
    None
}

/// The first of these pages that the word asks for.
fn find_among(pages: &'static [&'static str], word: &str) -> Option<&'static str>
    ensures { IfSome result (λ page. IsPageOf page.now word.now) }
{
    for page in pages {
        if is_page_of(page, word) {
            return Some(page);
        }
    }
    None
}

/// Whether the page begins with a line of a code and a name, or of a name alone, and the word is one of these, in any
/// letter case.
fn is_page_of(page: &str, word: &str) -> bool
    ensures { IsTrue result → IsPageOf page.now word.now }
{
    let Some((heading, _)) = page.split_once('\n') else {
        return false;
    };
    let Some((code, name)) = heading.split_once(' ') else {
        return heading.eq_ignore_ascii_case(word);
    };
    code.eq_ignore_ascii_case(word) || name.eq_ignore_ascii_case(word)
}

/// The first line of each page.
pub fn list(alloc: Global) -> Result<Vec<u8>, AllocError> {
    let mut lines = Lines::new(alloc);
    for topic in TOPICS {
        push_headings(&mut lines, pages_of(topic))
    }
    lines.finish()
}

fn push_headings(lines: &mut Lines, pages: &[&str]) {
    for page in pages {
        let heading = match page.split_once('\n') {
            None => page,
            Some((heading, _)) => heading,
        };
        lines.fill_name("~\n", heading)
    }
}
