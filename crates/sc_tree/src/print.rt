//! Canonical text, token by token and line by line.

ghost use Rattle.std.specs.Prelude.{◌≡◌, ◌+◌, ◌∷◌, ◌++◌, [], false, true, length, map, not, replicate, string_bytes, IfOk, OnOk};
ghost use Rattle.std.specs.Char.{to_ascii_uppercase};
ghost use Rattle.sc_text.specs.Characters.{tab};
ghost use Rattle.sc_text.specs.Kind.{INTEGER, NAME, STRING};
ghost use Rattle.sc_tree.specs.Canonical.{canonical_text};
ghost use Rattle.sc_tree.specs.Canonical.Layout.{ClassName, HandlerOfName, Token, line, manifest, marked, word};
ghost use Rattle.sc_tree.specs.Internal.Printer.{begin, end, gap, output_of, PutsLines, PutsPart};
ghost use Rattle.sc_tree.specs.View.{system_of};

mod classes;
mod expressions;
mod instructions;
mod laws;
mod operators;
mod terminals;

use crate::expression::Name;
use crate::print::terminals::{closes, opens, terminal_text};
use crate::system::System;
pub use laws::{canonical_text_spells, canonical_text_stays, canonical_tokens_spell};
use sc_text::Terminal;
use std::alloc::{AllocError, Global};

/// The canonical text of a system: one text for all that differ only in layout, comments, notes and parentheses. Its
/// error says that memory ran out.
#[tactic(auto, unfolding(crate::specs::Canonical::canonical_text, crate::specs::View::system_of))]
pub fn print_system(alloc: Global, system: &System) -> Result<Vec<u8>, AllocError>
    ensures { IfOk result (λ text. text.items ≡ canonical_text (system_of system.now)) }
{
    let mut printer = Printer {
        alloc,
        text: Vec::new(alloc),
        is_apart: false,
    };
    printer.classes(&system.classes)?;
    Ok(printer.text)
}

/// Writes canonical text.
#[derive(Drop)]
struct Printer {
    alloc: Global,
    text: Vec<u8>,
    /// Whether a space comes before the line's next token, unless that token is written close.
    is_apart: bool,
}

impl Printer {
    /// Writes the space before a token, if there is one.
    fn gap(&mut self, is_close: bool) -> Result<(), AllocError>
        ensures text { OnOk result (self.new.text.items ≡ self.old.text.items ++ gap self.old.is_apart is_close) }
        ensures same { self.new.is_apart ≡ self.old.is_apart }
    {
        if self.is_apart && !is_close {
            self.text.push(b' ')?;
        }
        Ok(())
    }

    /// A reserved word or a special symbol.
    #[tactic(auto, unfolding(crate::specs::Internal::Printer::put, crate::specs::Canonical::Layout::text_of_part, crate::specs::Canonical::Layout::opens, crate::specs::Canonical::Layout::closes))]
    fn word(&mut self, terminal: Terminal) -> Result<(), AllocError>
        ensures { OnOk result (PutsPart self.old self.new (word terminal)) }
    {
        self.gap(closes(terminal))?;
        self.text.extend_from_slice(terminal_text(terminal))?;
        self.is_apart = !opens(terminal);
        Ok(())
    }

    /// Writes a token, with a space on each side that allows one.
    fn token(&mut self, text: &[u8]) -> Result<(), AllocError>
        ensures text { OnOk result
            (self.new.text.items ≡ self.old.text.items ++ (gap self.old.is_apart false ++ text.now)) }
        ensures apart { OnOk result (self.new.is_apart ≡ true) }
    {
        self.gap(false)?;
        self.text.extend_from_slice(text)?;
        self.is_apart = true;
        Ok(())
    }

    /// A name as the text of the tree spells it.
    #[tactic(auto, unfolding(crate::specs::Internal::Printer::put, crate::specs::Canonical::Layout::text_of_part, crate::specs::Canonical::Layout::opens, crate::specs::Canonical::Layout::closes))]
    fn identifier(&mut self, text: &[u8]) -> Result<(), AllocError>
        ensures { OnOk result (PutsPart self.old self.new (Token (NAME text.now))) }
    {
        self.token(text)
    }

    /// A name.
    fn name(&mut self, name: &Name) -> Result<(), AllocError>
        ensures { OnOk result (PutsPart self.old self.new (Token (NAME (string_bytes name.now.text.value)))) }
    {
        self.identifier(name.text.as_bytes())
    }

    /// The text in upper case, with nothing before it.
    fn upper_case(&mut self, text: &[u8]) -> Result<(), AllocError>
        ensures text { OnOk result (self.new.text.items ≡ self.old.text.items ++ map to_ascii_uppercase text.now) }
        ensures same { self.new.is_apart ≡ self.old.is_apart }
    {
        for byte in text {
            self.text.push(byte.to_ascii_uppercase())?;
        }
        Ok(())
    }

    /// The name of a class, in upper case.
    #[tactic(auto, unfolding(crate::specs::Internal::Printer::put, crate::specs::Canonical::Layout::text_of_part, crate::specs::Canonical::Layout::opens, crate::specs::Canonical::Layout::closes))]
    fn class_name(&mut self, name: &Name) -> Result<(), AllocError>
        ensures { OnOk result (PutsPart self.old self.new (ClassName (string_bytes name.now.text.value))) }
    {
        self.gap(false)?;
        self.upper_case(name.text.as_bytes())?;
        self.is_apart = true;
        Ok(())
    }

    /// `<x.handler>`
    #[tactic(auto, unfolding(crate::specs::Internal::Printer::put, crate::specs::Canonical::Layout::text_of_part, crate::specs::Canonical::Layout::opens, crate::specs::Canonical::Layout::closes))]
    fn handler_of(&mut self, name: &Name) -> Result<(), AllocError>
        ensures { OnOk result (PutsPart self.old self.new (HandlerOfName (string_bytes name.now.text.value))) }
    {
        self.token(b"<")?;
        self.text.extend_from_slice(name.text.as_bytes())?;
        self.text.extend_from_slice(b".handler>")?;
        Ok(())
    }

    /// An integer's digits.
    #[tactic(auto, unfolding(crate::specs::Internal::Printer::put, crate::specs::Canonical::Layout::text_of_part, crate::specs::Canonical::Layout::opens, crate::specs::Canonical::Layout::closes))]
    fn integer(&mut self, value: i64) -> Result<(), AllocError>
        ensures { OnOk result (PutsPart self.old self.new (Token (INTEGER value))) }
    {
        let digits = value.to_string(self.alloc)?;
        self.token(digits.as_bytes())
    }

    /// Writes a character of a manifest string, as an escape if it must be one.
    fn marked(&mut self, byte: u8) -> Result<(), AllocError>
        ensures text { OnOk result (self.new.text.items ≡ self.old.text.items ++ marked byte) }
        ensures same { self.new.is_apart ≡ self.old.is_apart }
    {
        let plain = [byte];
        let written: &[u8] = match byte {
            b'\n' => b"%N",
            b'\t' => b"%T",
            b'%' => b"%%",
            b'"' => b"%\"",
            _ => &plain,
        };
        self.text.extend_from_slice(written)
    }

    /// Writes the characters of a manifest string, each as an escape if it must be one.
    fn manifest(&mut self, text: &[u8]) -> Result<(), AllocError>
        ensures text { OnOk result (self.new.text.items ≡ self.old.text.items ++ manifest text.now) }
        ensures same { self.new.is_apart ≡ self.old.is_apart }
    {
        for byte in text {
            self.marked(*byte)?;
        }
        Ok(())
    }

    /// A manifest string, with its quotes.
    #[tactic(auto, unfolding(crate::specs::Internal::Printer::put, crate::specs::Canonical::Layout::text_of_part, crate::specs::Canonical::Layout::opens, crate::specs::Canonical::Layout::closes))]
    fn manifest_string(&mut self, text: &String) -> Result<(), AllocError>
        ensures { OnOk result (PutsPart self.old self.new (Token (STRING (string_bytes text.now)))) }
    {
        self.token(b"\"")?;
        self.manifest(text.as_bytes())?;
        self.text.push(b'"')?;
        Ok(())
    }

    /// The tabs that a line begins with.
    #[tactic(auto, unfolding(crate::specs::Internal::Printer::begin))]
    fn begin_line(&mut self, indent: usize) -> Result<(), AllocError>
        ensures { OnOk result (output_of self.new ≡ begin (output_of self.old) indent) }
    {
        for _ in 0..indent {
            self.text.push(b'\t')?;
        }
        self.is_apart = false;
        Ok(())
    }

    /// The end of a line.
    #[tactic(auto, unfolding(crate::specs::Internal::Printer::end))]
    fn end_line(&mut self) -> Result<(), AllocError>
        ensures { OnOk result (output_of self.new ≡ end (output_of self.old)) }
    {
        self.text.push(b'\n')?;
        self.is_apart = false;
        Ok(())
    }

    /// A line of one word.
    fn word_line(&mut self, indent: usize, terminal: Terminal) -> Result<(), AllocError>
        ensures { OnOk result (PutsLines self.old self.new (line indent (word terminal ∷ []) ∷ [])) }
    {
        self.begin_line(indent)?;
        self.word(terminal)?;
        self.end_line()
    }
}
