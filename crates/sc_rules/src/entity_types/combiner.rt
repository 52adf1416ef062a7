//! The two combiners.

ghost use Rattle.std.specs.Prelude.{◌≡◌};
ghost use Rattle.sc_rules.specs.entity_types.Combiners as combiners;

use crate::entity_types::entity_type::EntityType;
use crate::entity_types::known::Known;
use crate::entity_types::tag::{Reserved, Tag};

/// The type of a call's result, seen by the caller: of the target's type and the type that the feature declares.
pub fn combine_result(target: EntityType, declared: EntityType) -> EntityType
    ensures { result ≡ combiners.combined_result target declared }
{
    if declared.is_expanded() {
        return EntityType {
            attached: true,
            tag: Tag::Own,
            class: declared.class,
        };
    }
    EntityType {
        attached: declared.attached,
        tag: result_tag(target.tag, declared.tag),
        class: declared.class,
    }
}

/// The tag of a result, seen by the caller.
fn result_tag(target: Tag, declared: Tag) -> Tag
    ensures { result ≡ combiners.result_tag target declared }
{
    match (target, declared) {
        (Tag::Own, kept) => kept,
        (taken, Tag::Own) => taken,
        _ => Tag::Any,
    }
}

/// The type that an actual must conform to: of the target's type, the formal's, and what is known of the handler of
/// each actual, one for each formal. In the creation of an object on a new handler the target is the entity, whose tag
/// is `any`.
pub fn combine_argument(target: EntityType, formal: EntityType, actuals: &[Known]) -> EntityType
    ensures { result ≡ combiners.combined_argument target formal actuals.now }
{
    let tag = if formal.is_expanded() {
        Tag::Own
    } else {
        argument_tag(target.tag, formal.tag, actuals)
    };
    EntityType {
        attached: formal.attached,
        tag,
        class: formal.class,
    }
}

/// The tag that an actual must conform to.
fn argument_tag(target: Tag, formal: Tag, actuals: &[Known]) -> Tag
    ensures { result ≡ combiners.argument_tag target formal actuals.now }
{
    match formal {
        Tag::Any => Tag::Any,
        Tag::Own => Known::of(target).tag(),
        Tag::With(Reserved::Formal(y)) => match actuals.get(y) {
            Some(actual) => actual.tag(),
            None => Tag::None,
        },
        Tag::With(Reserved::BlockName(_)) | Tag::None => Tag::None,
    }
}
