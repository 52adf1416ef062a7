//! The lines of a source text, found from the last to the first.

ghost use Rattle.std.specs.Prelude.{◌≡◌, ◌+◌, ◌<◌, ◌≤◌, IfSome, length};
ghost use Rattle.std.specs.List.{suffix_len};
ghost use Rattle.sc_source.specs.Source.{joined};
ghost use Rattle.sc_places.specs.Lines as spec;

use sc_source::source::{Place, Source};

/// A line of a source text: the offsets of its first byte and of what is after its line feed, its file, and its number
/// in the file, from 1.
#[derive(Clone, Copy)]
pub(crate) struct Line<'s> {
    pub start: usize,
    pub end: usize,
    pub file: &'s str,
    pub number: usize,
}

/// The line that ends at `end`, which is where the next line begins; None if there is no text before that.
pub(crate) fn line_before<'s>(
    source: &'s Source,
    next: Option<Line<'s>>,
    end: usize,
) -> Option<Line<'s>>
    requires within { end ≤ length (joined source.now) }
    requires next { IfSome next (spec.Begins source.now end) }
    ensures { IfSome result (λ line. spec.Begins source.now line.start line × (line.start < end)) }
{
    let Some(last) = end.checked_sub(1) else {
        return None;
    };
    let start = start_of_line(&source.text().as_bytes()[..last]);
    match numbered(source, next, last) {
        Some((file, number)) => Some(Line {
            start,
            end,
            file,
            number,
        }),
        None => None,
    }
}

/// The file of the byte before a line, and the number of its line. The source is asked for that only at the end of a file.
fn numbered<'s>(source: &'s Source, next: Option<Line<'s>>, last: usize) -> Option<(&'s str, usize)>
    requires within { last < length (joined source.now) }
    requires next { IfSome next (spec.Begins source.now (last + 1)) }
    ensures { IfSome result (λ line. spec.IsInLine source.now last line.0.now line.1) }
{
    if let Some(line) = next
        && line.number > 1
    {
        return Some((line.file, line.number - 1));
    }
    match source.place_of(last) {
        Some(Place { file, line, .. }) => Some((file, line)),
        None => None,
    }
}

/// Where the last line of a text begins.
fn start_of_line(text: &[u8]) -> usize
    ensures { result + suffix_len spec.is_in_line text.now ≡ length text.now }
{
    let mut start = text.len();
    while start > 0 && text[start - 1] != b'\n' {
        start -= 1;
    }
    start
}
