//! Tags: on which handler the objects of a type lie.

ghost use Rattle.std.specs.Prelude.{◌≡◌};
ghost use Rattle.sc_rules.specs.entity_types.Tags.{tag_conforms};

/// A name of a routine whose handler is reserved while the name is in scope. Two names in one scope are kept apart.
#[derive(Clone, Copy, PartialEq, Eq)]
pub enum Reserved {
    /// The formal at this number of the routine's list, from 0.
    Formal(usize),
    /// A name of an inline separate block, by its place among the names of all blocks around it, from 0 at the
    /// outermost.
    BlockName(usize),
}

/// On which handler the objects of a type lie, seen from the current handler.
#[derive(Clone, Copy, PartialEq, Eq)]
pub enum Tag {
    /// On the current handler. It is written by no tag.
    Own,
    /// On any handler, written `separate`.
    Any,
    /// On that of a formal or of a block's name, written `separate <x.handler>`.
    With(Reserved),
    /// On none: the tag of Void alone.
    None,
}

impl Tag {
    /// Whether this tag conforms to another: every one does to `Any`, `None` does to every one, and otherwise they
    /// are equal.
    pub fn conforms_to(self, other: Tag) -> bool
        ensures { result ≡ tag_conforms self other }
    {
        match (self, other) {
            (_, Tag::Any) | (Tag::None, _) | (Tag::Own, Tag::Own) => true,
            (Tag::With(x), Tag::With(y)) => x == y,
            _ => false,
        }
    }
}
