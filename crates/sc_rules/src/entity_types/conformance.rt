//! Conformance of types.

ghost use Rattle.std.specs.Prelude.{◌≡◌};
ghost use Rattle.sc_class.specs.SystemIn.{system_in};
ghost use Rattle.sc_rules.specs.entity_types.Conformance as conformance;

use crate::entity_types::entity_type::EntityType;
use sc_class::Tables;

/// Whether a value of one type may be attached to what is of the other type: its class, its mark and its tag conform.
pub fn conforms(tables: &Tables, from: EntityType, to: EntityType) -> bool
    ensures { result ≡ conformance.conforms (system_in tables.now) from to }
{
    tables.class_conforms(from.class, to.class)
        && from.mark_conforms_to(to)
        && from.tag.conforms_to(to.tag)
}
