//! The reasons for which a source text is refused.

ghost use Rattle.std.specs.Prelude.{◌≡◌};
ghost use Rattle.sc_rules.specs.RefusalText as spec;

use crate::rule::Rule;

/// A reason for which a source text is refused: of its characters, its tokens or its classes, or a rule that fails.
#[derive(Clone, Copy)]
pub enum RefusalCode {
    /// A character begins no token.
    BadCharacter,
    /// A string has no closing quote on its line.
    UnclosedString,
    /// No mark of a string begins so.
    BadEscape,
    /// An integer is greater than the greatest one.
    IntegerTooLarge,
    /// The files have too many bytes together.
    SourceTooLong,
    /// The tokens are those of no system.
    NotInGrammar,
    /// A part has too many constructs around it.
    TooDeep,
    /// Two classes have one name.
    DuplicateClass,
    /// A parent is no class that has heirs.
    UnknownParent,
    /// A class inherits from itself.
    Cycle,
    /// A class or routine uses one name for two things.
    DuplicateFeature,
    /// A feature doesn't redefine what its class inherits as it has to.
    BadRedefinition,
    /// No class of the root's name creates by its procedure, without formals.
    NoRoot,
    /// A limit on classes, features or entities is passed.
    Limit,
    /// A part of Eiffel is left out.
    LeftOut,
    /// A rule fails.
    Rule(Rule),
}

impl RefusalCode {
    /// The short name, as `C1`.
    pub fn code(self) -> &'static str
        ensures { result.now ≡ spec.code_of self }
    {
        match self {
            RefusalCode::BadCharacter => "L1",
            RefusalCode::UnclosedString => "L2",
            RefusalCode::BadEscape => "L3",
            RefusalCode::IntegerTooLarge => "L4",
            RefusalCode::SourceTooLong => "L5",
            RefusalCode::NotInGrammar => "P1",
            RefusalCode::TooDeep => "P2",
            RefusalCode::DuplicateClass => "C1",
            RefusalCode::UnknownParent => "C2",
            RefusalCode::Cycle => "C3",
            RefusalCode::DuplicateFeature => "C4",
            RefusalCode::BadRedefinition => "C5",
            RefusalCode::NoRoot => "C6",
            RefusalCode::Limit => "C7",
            RefusalCode::LeftOut => "C8",
            RefusalCode::Rule(rule) => rule.code(),
        }
    }

    /// The name, as `DuplicateClass`.
    pub fn name(self) -> &'static str
        ensures { result.now ≡ spec.name_of self }
    {
        match self {
            RefusalCode::BadCharacter => "BadCharacter",
            RefusalCode::UnclosedString => "UnclosedString",
            RefusalCode::BadEscape => "BadEscape",
            RefusalCode::IntegerTooLarge => "IntegerTooLarge",
            RefusalCode::SourceTooLong => "SourceTooLong",
            RefusalCode::NotInGrammar => "NotInGrammar",
            RefusalCode::TooDeep => "TooDeep",
            RefusalCode::DuplicateClass => "DuplicateClass",
            RefusalCode::UnknownParent => "UnknownParent",
            RefusalCode::Cycle => "Cycle",
            RefusalCode::DuplicateFeature => "DuplicateFeature",
            RefusalCode::BadRedefinition => "BadRedefinition",
            RefusalCode::NoRoot => "NoRoot",
            RefusalCode::Limit => "Limit",
            RefusalCode::LeftOut => "LeftOut",
            RefusalCode::Rule(rule) => rule.name(),
        }
    }
}
