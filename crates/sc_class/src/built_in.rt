//! The classes that every system has.

ghost use Rattle.std.specs.Prelude.{◌≡◌};
ghost use Rattle.sc_class.specs.ClassNames as class_names;

/// Whether the name is that of ANY.
pub fn is_any(name: &str) -> bool
    ensures { result ≡ class_names.is_any name.now }
{
    name == "any"
}

/// Whether the name is that of NONE.
pub fn is_none(name: &str) -> bool
    ensures { result ≡ class_names.is_none name.now }
{
    name == "none"
}

/// Whether every system has a class of the name: ANY, NONE, INTEGER and BOOLEAN.
pub fn is_built_in(name: &str) -> bool
    ensures { result ≡ class_names.is_built_in name.now }
{
    is_any(name) || is_none(name) || name == "integer" || name == "boolean"
}
