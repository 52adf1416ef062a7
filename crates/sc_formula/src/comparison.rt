//! Comparisons of integers.
ghost use Rattle.std.specs.Prelude.{◌≡◌};
ghost use Rattle.sc_formula.specs.Comparison.{compares};

/// A comparison of two integers.
#[derive(Clone, Copy)]
pub enum Comparison {
    /// `=`
    Equal,
    /// `/=`
    NotEqual,
    /// `<`
    Less,
    /// `<=`
    LessOrEqual,
    /// `>`
    Greater,
    /// `>=`
    GreaterOrEqual,
}

impl Comparison {
    /// Whether the comparison holds of two integers.
    pub fn holds(self, left: i64, right: i64) -> bool
        ensures { result ≡ compares self left right }
    {
        match self {
            Comparison::Equal => left == right,
            Comparison::NotEqual => left != right,
            Comparison::Less => left < right,
            Comparison::LessOrEqual => left <= right,
            Comparison::Greater => left > right,
            Comparison::GreaterOrEqual => left >= right,
        }
    }
}
