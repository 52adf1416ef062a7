//! How far a text is indented at its tokens.

/// A place in a text that moves from token to token, with the part of its line before it.
#[derive(Clone, Copy)]
pub struct Margin {
    place: usize,
    /// How many blanks and tabs its line begins with.
    pub indent: usize,
    /// Whether only blanks come before it in its line.
    pub is_blank: bool,
}

impl Margin {
    /// The beginning of a text.
    pub fn new() -> Margin {
        Margin {
            place: 0,
            indent: 0,
            is_blank: true,
        }
    }

    /// Goes on to a place of this text, if that is further.
    pub fn go_on(&mut self, text: &str, place: usize) {
        for byte in text.as_bytes().get(self.place..place).unwrap_or(&[]) {
            self.pass(*byte);
        }
        self.place = self.place.max(place);
    }

    fn pass(&mut self, byte: u8) {
        match byte {
            b'\n' => {
                self.indent = 0;
                self.is_blank = true;
            }
            b' ' | b'\t' if self.is_blank => self.indent = self.indent.saturating_add(1),
            _ => self.is_blank = false,
        }
    }
}
