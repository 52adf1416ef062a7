//! Atoms: what an invariant sees of an object.
ghost use Rattle.std.specs.Prelude.{◌≡◌};
ghost use Rattle.sc_formula.specs.Atom.{boolean_at, integer_at, kind_of, void_at};

/// What an invariant sees of one attribute of an object.
#[derive(Clone, Copy, PartialEq, Eq)]
pub enum Atom {
    /// The value of an INTEGER attribute.
    Integer(i64),
    /// The value of a BOOLEAN attribute.
    Boolean(bool),
    /// An attribute of any other type: whether it is Void.
    Reference { is_void: bool },
}

/// What an attribute is, whatever its value.
#[derive(Clone, Copy)]
pub enum AtomKind {
    /// An INTEGER attribute.
    Integer,
    /// A BOOLEAN attribute.
    Boolean,
    /// An attribute of any other type.
    Reference,
}

impl Atom {
    /// The kind of this atom, which a new value of the attribute doesn't change.
    pub fn kind(&self) -> AtomKind
        ensures { result ≡ kind_of self.now }
    {
        match self {
            Atom::Integer(_) => AtomKind::Integer,
            Atom::Boolean(_) => AtomKind::Boolean,
            Atom::Reference { .. } => AtomKind::Reference,
        }
    }
}

/// The integer of the attribute with this number, if there is one and it has an integer.
pub(crate) fn integer_at(atoms: &[Atom], number: u8) -> Option<i64>
    ensures { result ≡ integer_at atoms.now number }
{
    match *atoms.get(usize::from(number))? {
        Atom::Integer(value) => Some(value),
        _ => None,
    }
}

/// The truth value of the attribute with this number, if there is one and it has a truth value.
pub(crate) fn boolean_at(atoms: &[Atom], number: u8) -> Option<bool>
    ensures { result ≡ boolean_at atoms.now number }
{
    match *atoms.get(usize::from(number))? {
        Atom::Boolean(value) => Some(value),
        _ => None,
    }
}

/// Whether the attribute with this number is Void, if there is one and it may be.
pub(crate) fn void_at(atoms: &[Atom], number: u8) -> Option<bool>
    ensures { result ≡ void_at atoms.now number }
{
    match *atoms.get(usize::from(number))? {
        Atom::Reference { is_void } => Some(is_void),
        _ => None,
    }
}
