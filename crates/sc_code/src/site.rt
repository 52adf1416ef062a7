//! What operations name that has no room in them.

use crate::numbers::{ClassNumber, NameNumber};
use sc_class::ClassId;

/// A call.
#[derive(Clone, Copy)]
pub struct CallSite {
    /// The number of the feature's name.
    pub name: NameNumber,
    /// How many actuals it has.
    pub count: usize,
    /// Whether its value has an attached type; None if it has no value.
    pub gives: Option<bool>,
    /// Whether the target's type says that it is of the current handler.
    pub is_own: bool,
    /// Whether a request passes locks.
    pub passes: bool,
}

/// A creation.
#[derive(Clone, Copy)]
pub struct CreationSite {
    /// The number of the class.
    pub class: ClassNumber,
    /// The number of the creation procedure's name, if it has one.
    pub procedure: Option<NameNumber>,
    /// How many actuals it has.
    pub count: usize,
    /// Whether the creation request passes locks.
    pub passes: bool,
}

/// On which handler a tested object has to lie.
#[derive(Clone, Copy)]
pub enum Residence {
    /// On the current one.
    OnCurrent,
    /// On that of the object in this slot.
    WithSlot(usize),
    /// On any.
    Anywhere,
    /// On none.
    Nowhere,
}

/// A type that an object test asks for.
#[derive(Clone, Copy)]
pub struct TestedType {
    pub class: ClassId,
    pub residence: Residence,
}

/// An object test.
#[derive(Clone, Copy)]
pub struct ObjectTest {
    /// What the object has to be; None where any object will do.
    pub tested: Option<TestedType>,
    /// Where the object goes.
    pub slot: usize,
}

/// The slots of the heads of a separate block.
#[derive(Clone, Copy)]
pub struct Heads {
    pub first: usize,
    pub count: usize,
}
