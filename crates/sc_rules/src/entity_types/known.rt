//! What is known of the handlers of actuals.

ghost use Rattle.std.specs.Prelude.{◌≡◌};
ghost use Rattle.sc_rules.specs.entity_types.Combiners.{known_of, known_tag};

use crate::entity_types::tag::{Reserved, Tag};

/// What the caller knows of the handler of an actual.
#[derive(Clone, Copy, Default, PartialEq, Eq)]
pub enum Known {
    /// It is the current handler.
    Own,
    /// It is that of one of the caller's formals or names of blocks.
    With(Reserved),
    /// It is neither, as far as the caller knows.
    #[default]
    Neither,
}

impl Known {
    /// The handler that an actual's tag names: `own` and `with(x)` name one, the others don't.
    pub fn of(tag: Tag) -> Known
        ensures { result ≡ known_of tag }
    {
        match tag {
            Tag::Own => Known::Own,
            Tag::With(x) => Known::With(x),
            Tag::Any | Tag::None => Known::Neither,
        }
    }

    /// The tag of references to objects of this handler, or Void's tag if the handler isn't known.
    pub fn tag(self) -> Tag
        ensures { result ≡ known_tag self }
    {
        match self {
            Known::Own => Tag::Own,
            Known::With(x) => Tag::With(x),
            Known::Neither => Tag::None,
        }
    }
}
