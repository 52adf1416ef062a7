//! Lines that are written for people.

use std::alloc::{AllocError, Global};

/// The most bytes of a part of a text that are shown.
const MOST_BYTES: usize = 120;

/// Lines, to which words are added. Where memory is refused to some of them they are lacking, and all is no answer in the end.
#[derive(Drop)]
pub struct Lines {
    alloc: Global,
    bytes: Vec<u8>,
    is_lacking: bool,
}

impl Lines {
    /// No lines.
    pub fn new(alloc: Global) -> Lines {
        Lines {
            alloc,
            bytes: Vec::new(alloc),
            is_lacking: false,
        }
    }

    /// Where their memory is from.
    pub fn alloc(&self) -> Global {
        self.alloc
    }

    /// Whether there are none.
    pub fn is_empty(&self) -> bool {
        self.bytes.is_empty()
    }

    /// Adds these bytes.
    pub fn push_bytes(&mut self, bytes: &[u8]) {
        if self.bytes.extend_from_slice(bytes).is_err() {
            self.is_lacking = true;
        }
    }

    /// Adds these words.
    pub fn push(&mut self, words: &str) {
        self.push_bytes(words.as_bytes())
    }

    /// Adds these words, one after the other.
    pub fn push_all(&mut self, words: &[&str]) {
        for word in words {
            self.push(*word);
        }
    }

    /// Adds a number.
    pub fn push_number(&mut self, number: u64) {
        match format!(in self.alloc; "{number}") {
            Ok(digits) => self.push(digits.as_str()),
            Err(_) => self.is_lacking = true,
        }
    }

    /// Adds a text in which this name takes the place of `~`.
    pub fn fill_name(&mut self, template: &str, name: &str) {
        self.fill(template, &[name])
    }

    /// Adds a text in which this number takes the place of `~`.
    pub fn fill_number(&mut self, template: &str, number: u64) {
        match template.split_once('~') {
            Some((before, behind)) => {
                self.push(before);
                self.push_number(number);
                self.push(behind)
            }
            None => self.push(template),
        }
    }

    /// Adds a text in which these names take the places of the first `~`, of the next one, and so on. What a name
    /// contains is no place, and a name without a place is not written.
    pub fn fill(&mut self, template: &str, names: &[&str]) {
        let mut rest = template;
        for name in names {
            let Some((before, behind)) = rest.split_once('~') else {
                break;
            };
            self.push(before);
            self.push(*name);
            rest = behind;
        }
        self.push(rest)
    }

    /// Adds a part of a text on one line: what separates its words is one space, and what is too long ends by two dots.
    pub fn push_flat(&mut self, part: &str) {
        let mut is_first = true;
        let mut room = MOST_BYTES;
        for word in part.split_whitespace() {
            if word.len() >= room {
                return self.push(" ..");
            }
            room = room.saturating_sub(word.len().saturating_add(1));
            self.push(if is_first { "" } else { " " });
            self.push(word);
            is_first = false;
        }
    }

    /// Adds what others have, and lacks what they lack.
    pub fn push_lines(&mut self, others: &Lines) {
        self.push_bytes(others.bytes.as_slice());
        self.is_lacking = self.is_lacking || others.is_lacking;
    }

    /// Memory was refused to what was to be added.
    pub fn lack(&mut self) {
        self.is_lacking = true;
    }

    /// The lines, if nothing is missing.
    pub fn finish(self) -> Result<Vec<u8>, AllocError> {
        if self.is_lacking {
            return Err(AllocError);
        }
        Ok(self.bytes)
    }
}
