//! The features of a class, by name.

ghost use Rattle.std.specs.Prelude.{◌≡◌, List, IfOk, OnOk, map};
ghost use Rattle.sc_tree.specs.Plain as plain;
ghost use Rattle.sc_tree.specs.View.{name_of};
ghost use Rattle.sc_class.specs.Faults.Scopes.{feature_names};
ghost use Rattle.sc_class.specs.View.{entry_of};
ghost use Rattle.sc_class.specs.Internal.NameIndex.{place_among};
ghost use Rattle.sc_class.specs.Internal.Places.{union};
ghost use Rattle.sc_class.specs.Internal.ScopeSearch.{later_places, names_of_part};
ghost use Rattle.sc_class.specs.Internal.Lines.{KnowsPart};
ghost use Rattle.sc_class.specs.Internal.Systems.{in_outline};

use crate::class_tables::ancestry::{features_of, kept_features_of};
use crate::class_tables::feature_entry::FeatureEntry;
use crate::class_tables::line::Line;
use crate::class_tables::outline::Outline;
use crate::faults::places::Places;
use crate::faults::scopes::later::insert_if_later;
use sc_text::Span;
use sc_tree::Name;
use std::alloc::{AllocError, Global};
use std::marker::Model;

/// Which features of a class are meant.
#[derive(Clone, Copy)]
pub enum Part {
    /// All that it has.
    All,
    /// Those that it inherits and doesn't redefine.
    Inherited,
}

/// The names of features of a class, which are found in a line that knows them.
#[derive(Drop)]
pub struct Features<'t, 's> {
    alloc: Global,
    outline: &'t Outline<'s>,
    line: &'t Line<'s>,
    number: usize,
    part: Part,
}

impl<'t, 's> Model for Features<'t, 's> {
    ghost Value = { List plain.Name };

    ghost view = { λ f. names_of_part f.part (in_outline f.outline.now) f.number };

    ghost invariant = { λ f. KnowsPart f.part (in_outline f.outline.now) f.number f.line.now };
}

impl<'t, 's> Features<'t, 's> {
    /// These features of the class at a number.
    pub fn of(
        alloc: Global,
        outline: &'t Outline<'s>,
        line: &'t Line<'s>,
        number: usize,
        part: Part,
    ) -> Self
        requires { KnowsPart part (in_outline outline.now) number line.now }
        ensures { result ≡ names_of_part part (in_outline outline.now) number }
    {
        Features {
            alloc,
            outline,
            line,
            number,
            part,
        }
    }

    /// The first place of a feature of this name.
    pub fn place(&self, name: &str) -> Option<Span>
        ensures { result ≡ place_among name.now self.now }
    {
        match self.part {
            Part::All => self.line.named(name).place,
            Part::Inherited => {
                if self.outline.redefines(self.number, name) {
                    None
                } else {
                    self.line.named(name).place
                }
            }
        }
    }

    /// The features, one by one. It goes up the ancestors of the class.
    fn list(&self) -> Result<Vec<FeatureEntry<'s>>, AllocError>
        ensures { IfOk result (λ entries. feature_names (map entry_of entries.items) ≡ self.now) }
    {
        match self.part {
            Part::All => features_of(self.alloc, self.outline, self.number),
            Part::Inherited => kept_features_of(self.alloc, self.outline, self.number),
        }
    }

    /// Finds those of the features that are like a name and stand after it in the text.
    pub fn find_later(&self, name: &Name, found: &mut Places) -> Result<(), AllocError>
        ensures { OnOk result (found.new ≡ union found.old (later_places self.now (name_of name.now))) }
    {
        let features = self.list()?;
        find_later_among(&features, name, found)
    }
}

/// Finds those of the features that are like a name and stand after it in the text.
fn find_later_among(
    features: &[FeatureEntry],
    name: &Name,
    found: &mut Places,
) -> Result<(), AllocError>
    ensures { OnOk result (found.new
        ≡ union found.old (later_places (feature_names (map entry_of features.now)) (name_of name.now))) }
{
    for entry in features {
        insert_if_later(&entry.feature.name, name, found)?;
    }
    Ok(())
}
