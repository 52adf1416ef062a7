//! The rules by name.

ghost use Rattle.std.specs.Prelude.{◌≡◌};
ghost use Rattle.sc_rules.specs.RuleText.{code_of, name_of};

/// A rule that a class's text meets.
#[derive(Clone, Copy, Debug)]
pub enum Rule {
    /// A name is that of a class, a feature or an entity in scope.
    UnknownName,
    /// A call has as many actuals as the feature has formals.
    WrongArity,
    /// An actual conforms to what the formal is for the caller; `print` takes no reference.
    ArgumentType,
    /// What is assigned conforms to what it is assigned to.
    AssignType,
    /// The target of a call is attached.
    TargetDetachable,
    /// The target of a call is of the current handler, or of one that is reserved.
    TargetUncontrolled,
    /// A query is a value, a procedure is an instruction, and `Result` is used in functions alone.
    ResultType,
    /// A condition or a clause is of type BOOLEAN.
    NotBoolean,
    /// The operands are of types that the operator takes.
    OperatorType,
    /// What is assigned or created is an attribute, a local or the Result of a function.
    NotAssignable,
    /// A class with creation procedures is created by one of them, and no other class by a procedure.
    NotCreation,
    /// What is created is of the current handler or of a new one.
    CreationTag,
    /// A tag names an attached separate formal and is used only where tags are allowed; INTEGER and BOOLEAN have no
    /// mark and no tag.
    TagName,
    /// A clause of an invariant is a formula over the attributes of its class.
    InvariantForm,
    /// Contracts, `check` and `old` call pure functions alone.
    ImpureContract,
    /// A separate call in a precondition has no references for actuals.
    PreconditionArgument,
    /// A call on a target is of a feature that is exported.
    NotExported,
    /// An object test is a condition of an `if`, or an operand of the `and then`s at its top.
    ObjectTestPlace,
    /// `old` is used in a postcondition, not inside another `old`, and makes no separate call.
    OldPlace,
    /// `Void` is a right side, an actual, or an operand of `=` or `/=`.
    VoidUse,
}

impl Rule {
    /// The rule's short name, as `V4`.
    pub fn code(self) -> &'static str
        ensures { result.now ≡ code_of self }
    {
        match self {
            Rule::UnknownName => "V1",
            Rule::WrongArity => "V2",
            Rule::ArgumentType => "V3",
            Rule::AssignType => "V4",
            Rule::TargetDetachable => "V5",
            Rule::TargetUncontrolled => "V6",
            Rule::ResultType => "V7",
            Rule::NotBoolean => "V8",
            Rule::OperatorType => "V9",
            Rule::NotAssignable => "V10",
            Rule::NotCreation => "V11",
            Rule::CreationTag => "V12",
            Rule::TagName => "V13",
            Rule::InvariantForm => "V14",
            Rule::ImpureContract => "V15",
            Rule::PreconditionArgument => "V16",
            Rule::NotExported => "V17",
            Rule::ObjectTestPlace => "V18",
            Rule::OldPlace => "V19",
            Rule::VoidUse => "V20",
        }
    }

    /// The rule's name, as `AssignType`.
    pub fn name(self) -> &'static str
        ensures { result.now ≡ name_of self }
    {
        match self {
            Rule::UnknownName => "UnknownName",
            Rule::WrongArity => "WrongArity",
            Rule::ArgumentType => "ArgumentType",
            Rule::AssignType => "AssignType",
            Rule::TargetDetachable => "TargetDetachable",
            Rule::TargetUncontrolled => "TargetUncontrolled",
            Rule::ResultType => "ResultType",
            Rule::NotBoolean => "NotBoolean",
            Rule::OperatorType => "OperatorType",
            Rule::NotAssignable => "NotAssignable",
            Rule::NotCreation => "NotCreation",
            Rule::CreationTag => "CreationTag",
            Rule::TagName => "TagName",
            Rule::InvariantForm => "InvariantForm",
            Rule::ImpureContract => "ImpureContract",
            Rule::PreconditionArgument => "PreconditionArgument",
            Rule::NotExported => "NotExported",
            Rule::ObjectTestPlace => "ObjectTestPlace",
            Rule::OldPlace => "OldPlace",
            Rule::VoidUse => "VoidUse",
        }
    }
}
