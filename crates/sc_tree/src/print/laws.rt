//! What holds of canonical text.

ghost use Rattle.sc_tree.specs.CanonicalLaws.{CanonicalTextSpells, CanonicalTextStays, CanonicalTokensSpell};

/// Where some tokens spell a tree, the tokens of its canonical text spell it again, with no greater nesting.
pub fn canonical_tokens_spell()
    ensures { CanonicalTokensSpell }
{}

/// Where some text spells tokens that spell a tree, its canonical text spells just the canonical tokens, so
/// reading it gives the tree again.
pub fn canonical_text_spells()
    ensures { CanonicalTextSpells }
{}

/// What the canonical text of such a tree is read as is that tree again, and has that canonical text: writing it
/// twice is writing it once.
pub fn canonical_text_stays()
    ensures { CanonicalTextStays }
{}
