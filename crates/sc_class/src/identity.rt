//! What a class is known by.

ghost use Rattle.std.specs.Prelude.{◌≡◌};
ghost use Rattle.sc_class.specs.Tables.Conformance as conformance;

/// A class: one of those that every system has, or the one that is declared at this number of the source
/// text, from 0.
#[derive(Clone, Copy, PartialEq, Eq)]
pub enum ClassId {
    /// ANY, to which each class of references conforms.
    Any,
    /// NONE, the class of Void alone.
    None,
    Integer,
    Boolean,
    Declared(usize),
}

impl ClassId {
    /// Whether its values aren't references.
    pub fn is_expanded(self) -> bool
        ensures { result ≡ conformance.is_expanded self }
    {
        match self {
            ClassId::Integer | ClassId::Boolean => true,
            ClassId::Any | ClassId::None | ClassId::Declared(_) => false,
        }
    }
}
