//! Operators on two truth values.
ghost use Rattle.std.specs.Prelude.{◌≡◌};
ghost use Rattle.sc_formula.specs.Connective.{decision_of, truth_table};

/// An operator on two truth values.
#[derive(Clone, Copy)]
pub enum Connective {
    /// `and`, which evaluates both sides.
    And,
    /// `and then`, which evaluates its right side only where the left one is true.
    AndThen,
    /// `or`, which evaluates both sides.
    Or,
    /// `or else`, which evaluates its right side only where the left one is false.
    OrElse,
    /// `xor`
    Xor,
    /// `implies`, which evaluates its right side only where the left one is true.
    Implies,
    /// `=` of two truth values.
    Equal,
    /// `/=` of two truth values.
    NotEqual,
}

impl Connective {
    /// The truth value that the left side decides alone, so that the right side isn't evaluated.
    pub fn decision(self, left: bool) -> Option<bool>
        ensures { result ≡ decision_of self left }
    {
        match (self, left) {
            (Connective::AndThen, false) => Some(false),
            (Connective::OrElse, true) | (Connective::Implies, false) => Some(true),
            _ => None,
        }
    }

    /// What the operator makes of two truth values.
    pub fn apply(self, left: bool, right: bool) -> bool
        ensures { result ≡ truth_table self left right }
    {
        match self {
            Connective::And | Connective::AndThen => left & right,
            Connective::Or | Connective::OrElse => left | right,
            Connective::Xor | Connective::NotEqual => left != right,
            Connective::Implies => !left | right,
            Connective::Equal => left == right,
        }
    }
}
