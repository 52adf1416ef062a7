//! Values (ECMA-367, 8.19).
ghost use Rattle.std.specs.Prelude.{◌≡◌};
ghost use Rattle.sc_region.specs.Values.{default_value, atom_of};

use sc_code::{ClassNumber, DefaultValue};
use sc_formula::Atom;
use sc_lockpass::HandlerNumber;

/// The number of an object among those of its handler, from 1.
pub type ObjectNumber = u32;

/// A reference to an object. It takes 12 bytes.
#[derive(Clone, Copy, Debug, PartialEq, Eq)]
pub struct Reference {
    /// The handler on which the object lies.
    pub handler: HandlerNumber,
    /// The object's number there, from 1.
    pub number: ObjectNumber,
    /// The number of its class, so that an object that is still to be made has one.
    pub class: ClassNumber,
}

/// The value of an entity or an expression. It takes 16 bytes.
#[derive(Clone, Copy, Debug, Default, PartialEq, Eq)]
pub enum Value {
    Integer(i64),
    Boolean(bool),
    /// A reference to no object.
    #[default]
    Void,
    /// A reference to an object.
    Attached(Reference),
}

impl Value {
    /// What an entity holds at first.
    pub fn of_default(default: DefaultValue) -> Value
        ensures { result ≡ default_value default }
    {
        match default {
            DefaultValue::Zero => Value::Integer(0),
            DefaultValue::False => Value::Boolean(false),
            DefaultValue::Void => Value::Void,
        }
    }

    /// What an invariant sees of the value.
    pub fn atom(&self) -> Atom
        ensures { result ≡ atom_of self.now }
    {
        match self {
            Value::Integer(value) => Atom::Integer(*value),
            Value::Boolean(value) => Atom::Boolean(*value),
            Value::Void => Atom::Reference { is_void: true },
            Value::Attached(_) => Atom::Reference { is_void: false },
        }
    }
}
