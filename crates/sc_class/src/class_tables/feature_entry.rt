//! A feature and the class that declares it, and its formals and locals.

ghost use Rattle.std.specs.Prelude.{◌≡◌, map};
ghost use Rattle.sc_tree.specs.View.{declaration_of};
ghost use Rattle.sc_class.specs.Tables.Entities.{formals_of, locals_of};
ghost use Rattle.sc_class.specs.View.{entry_of};

use sc_tree::{Declaration, Feature, FeatureKind};

/// A feature, and the number of the class in whose text it is declared.
#[derive(Clone, Copy)]
pub struct FeatureEntry<'s> {
    pub class: usize,
    pub feature: &'s Feature,
}

impl<'s> FeatureEntry<'s> {
    /// The formals of the feature (ECMA-367, 8.8), in the order of the text, at once. An attribute has none.
    #[tactic(auto, unfolding(sc_tree::specs::View::feature_of, sc_tree::specs::View::kind_of))]
    pub fn formals(&self) -> &'s [Declaration]
        ensures { map declaration_of result.now ≡ formals_of (entry_of self.now).feature.kind }
    {
        match &self.feature.kind {
            FeatureKind::Attribute(_) => &[],
            FeatureKind::Routine(routine) => &routine.formals,
        }
    }

    /// The locals of the feature (ECMA-367, 8.8), in the order of the text, at once. They are known in its body
    /// alone. An attribute has none.
    #[tactic(auto, unfolding(sc_tree::specs::View::feature_of, sc_tree::specs::View::kind_of))]
    pub fn locals(&self) -> &'s [Declaration]
        ensures { map declaration_of result.now ≡ locals_of (entry_of self.now).feature.kind }
    {
        match &self.feature.kind {
            FeatureKind::Attribute(_) => &[],
            FeatureKind::Routine(routine) => &routine.locals,
        }
    }
}
