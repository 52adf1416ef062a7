//! What is written in place of signs and words of other languages, if their help says one text for it.

use crate::edits::Said;
use crate::fresh::is_part_of_name;
use sc_explain_text::Lines;
use sc_text::Span;

/// With tabs between: the beginnings of a message and of a help, a spelling, and what is written in its place. If there is no
/// spelling, that is written in place of the part at fault. Of spellings with a common beginning the longest comes first.
const SPELLINGS: &str = "\
nothing that may\tINTEGER is the type\t\tINTEGER
nothing that may\tBOOLEAN is the type\t\tBOOLEAN
nothing that is known\t`Void` is the ref\t\tVoid
nothing that is known\t`Current` is the ob\t\tCurrent
the class `INTEGER`\t`print` takes\t.out\t
the class `BOOLEAN`\t`print` takes\t.out\t
\t`print` takes\tio.put_string\tprint
\t`print` takes\tio.put_integer\tprint
\t`print` takes\tio.put_boolean\tprint
\t`print` takes\tio.new_line\tprint (\"%N\")
\ta function gives what `Result`\treturn\tResult :=
\t`inherit` names\textends\tinherit
\t`inherit` names\timplements\tinherit
\tseveral cases are\telsif\telseif
\tseveral cases are\telif\telseif
\t`=` compares, and `:=`\t===\t=
\t`=` compares, and `:=`\t==\t=
\t`/=` says that\t!=\t/=
\t`/=` says that\t<>\t/=
\t`not` gives\t!\tnot\u{20}
\t`and then` asks\t&&\tand then
\t`or else` asks\t||\tor else
\ta call without actuals\t()\t
\ta comment begins\t#\t--
\ta comment begins\t//\t--
\t`//` divides\t/\t//
\t`\\\\` gives\t%\t\\\\
\ta `create` list\tcreate {NONE}\tcreate
\ta `create` list\tcreate {ANY}\tcreate";

impl<'s> Said<'s> {
    /// Adds what the help says to write in place of a sign or a word of another language.
    pub(crate) fn push_spelling(self, lines: &mut Lines) -> Option<Span> {
        for row in SPELLINGS.lines() {
            if let Some((message, row)) = row.split_once('\t')
                && let Some((help, row)) = row.split_once('\t')
                && let Some((spelling, text)) = row.split_once('\t')
                && self.help.starts_with(help)
                && self.message.starts_with(message)
                && let Some(span) = self.place_of(spelling)
                && (!text.ends_with(":=") || self.has_value(span.end))
            {
                lines.push(text);
                return Some(span);
            }
        }
        None
    }

    /// The place of this spelling: of a word the last one in the line up to the part at fault, of a sign one that has the
    /// beginning of that part in it; of no spelling that part.
    fn place_of(self, spelling: &str) -> Option<Span> {
        if spelling.is_empty() {
            return Some(self.span);
        }
        let is_word = is_part_of_name(spelling.as_bytes().first());
        let length = spelling.len().min(u32::MAX as usize) as u32;
        let last = self.span.start;
        for start in (0..last.saturating_add(1)).rev() {
            let end = start.saturating_add(length);
            if self.stands_in(start, end, spelling) {
                return Some(Span { start, end });
            }
            if self.ends_line(start) || !is_word && end <= last {
                break;
            }
        }
        None
    }

    /// Whether a line ends at this place.
    fn ends_line(self, place: u32) -> bool {
        matches!(self.text.as_bytes().get(place as usize), Some(b'\n'))
    }

    /// Whether the token after this place may begin a value, and doesn't end what stands before it.
    fn has_value(self, place: u32) -> bool {
        let next = self.next_token(place) as usize;
        let rest = self.text.get(next..).unwrap_or("");
        !rest.starts_with("end") && !rest.starts_with("else") && !rest.starts_with(';')
    }

    /// Whether this spelling stands between two places, in any letter case, and if it ends in letters, whole words of them.
    fn stands_in(self, start: u32, end: u32, spelling: &str) -> bool {
        let bytes = self.text.as_bytes();
        let part = self.between(start, end);
        let before = match start.checked_sub(1) {
            Some(before) => bytes.get(before as usize),
            None => None,
        };
        let begins = !is_part_of_name(part.as_bytes().first()) || !is_part_of_name(before);
        let after = bytes.get(end as usize);
        let ends = !is_part_of_name(part.as_bytes().last()) || !is_part_of_name(after);
        begins && ends && part.eq_ignore_ascii_case(spelling)
    }
}

/// The last word that ends at a place of a text or before it; if there is none, nothing at its beginning.
pub(crate) fn last_word_before(text: &str, place: u32) -> Span {
    let mut start = 0;
    let mut end = 0;
    for index in (0..place).rev() {
        let is_name = is_part_of_name(text.as_bytes().get(index as usize));
        match (is_name, end) {
            (true, 0) => {
                end = index.saturating_add(1);
                start = index;
            }
            (true, _) => start = index,
            (false, 0) => {}
            (false, _) => break,
        }
    }
    Span { start, end }
}
