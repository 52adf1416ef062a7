//! Whether names mean after a renaming what they meant before.

ghost use Rattle.std.specs.Prelude.{◌≡◌, ◌+◌, ◌*◌, true};
ghost use Rattle.sc_symbols.specs.Renaming as spec;
ghost use Rattle.sc_symbols.specs.Internal.{renamed_in};

use crate::symbol::Mention;
use sc_text::Span;

/// The uses of a symbol that gets another name.
#[derive(Clone, Copy)]
pub struct Renaming<'a> {
    /// The places of its name, in the order of the text.
    pub uses: &'a [Span],
    /// The length of its name in bytes.
    pub old_length: u32,
    /// The length of the new name in bytes.
    pub new_length: u32,
}

/// How many of these begin before the offset.
fn count_before(offset: u32, uses: &[Span]) -> usize
    ensures { result ≡ spec.count_before offset uses.now }
{
    let mut count = 0;
    for used in uses {
        if used.start < offset {
            count += 1;
        }
    }
    count
}

/// Whether what was at the first offset is at the second one, after so many names of one length were replaced by names of
/// the other one. It isn't if a sum has more than 64 bits.
fn is_moved(count: u64, old_length: u32, new_length: u32, before: u32, after: u32) -> bool
    ensures { result ≡ true → after + count * old_length ≡ before + count * new_length }
{
    let Some(removed) = count.checked_mul(u64::from(old_length)) else {
        return false;
    };
    let Some(added) = count.checked_mul(u64::from(new_length)) else {
        return false;
    };
    let Some(one) = u64::from(after).checked_add(removed) else {
        return false;
    };
    let Some(other) = u64::from(before).checked_add(added) else {
        return false;
    };
    one == other
}

impl<'a> Renaming<'a> {
    /// Whether what was at the first offset is at the second one with the new name.
    fn moves(&self, before: u32, after: u32) -> bool
        ensures { result ≡ true → spec.IsMoved (renamed_in self.now) before after }
    {
        let count = count_before(before, self.uses);
        is_moved(
            count as u64,
            self.old_length,
            self.new_length,
            before,
            after,
        )
    }

    /// Whether a name means with the new name what it meant before.
    fn is_same(&self, before: &Mention, after: &Mention) -> bool
        ensures { result ≡ true → spec.IsSameMention (renamed_in self.now) before.now after.now }
    {
        self.moves(before.span.start, after.span.start)
            && self.moves(before.declaration.start, after.declaration.start)
            && self.moves(before.origin.start, after.origin.start)
    }

    /// Whether each name of a text means with the new name what it meant before.
    pub fn keeps_meaning(&self, before: &[Mention], after: &[Mention]) -> bool
        ensures { result ≡ true → spec.KeepsMeaning (renamed_in self.now) before.now after.now }
    {
        if before.len() != after.len() {
            return false;
        }
        for index in 0..before.len() {
            if !self.is_same(&before[index], &after[index]) {
                return false;
            }
        }
        true
    }
}
