//! A sentence for each reason of a refusal, and what helps with it in general, as they are printed.

use sc_rules::{RefusalCode, Rule};

/// What is said of a refusal for this reason, in which `~` is the part of the text at fault, and what helps in general.
pub fn text_of(code: RefusalCode) -> &'static str {
    match code {
        RefusalCode::BadCharacter => "`~` begins no token\n",
        RefusalCode::UnclosedString => {
            "the string that begins here has no closing quote on its line\n"
        }
        RefusalCode::BadEscape => {
            "no mark of a string begins so\n\
             help: the marks are `%N`, `%T`, `%%`, `%\"` and `%'`\n"
        }
        RefusalCode::IntegerTooLarge => "`~` is above 9223372036854775807\n",
        RefusalCode::SourceTooLong => "the files have more than 1,048,576 bytes together\n",
        RefusalCode::NotInGrammar => "no system begins with the text up to `~`\n",
        RefusalCode::TooDeep => {
            "`~` has more than 64 constructs around it\n\
             help: give a part a name: a local, or a routine of its own\n"
        }
        RefusalCode::DuplicateClass => "the name `~` is a class's already\n",
        RefusalCode::UnknownParent => "the parent `~` is no class that has heirs\n",
        RefusalCode::Cycle => "by its parent `~` the class inherits from itself\n",
        RefusalCode::DuplicateFeature => "the name `~` stands for something else here already\n",
        RefusalCode::BadRedefinition => "`~` doesn't redefine what is inherited as it has to\n",
        RefusalCode::NoRoot => {
            "no class of the root's name creates by its procedure, without formals\n\
             help: `--root CLASS.PROCEDURE` names another root\n"
        }
        RefusalCode::Limit => {
            "a limit is passed: 256 classes, 256 features of a class, 16 formals, 256 locals, 16 names of a block\n"
        }
        RefusalCode::LeftOut => "at `~` stands a part of Eiffel that is left out\n",
        RefusalCode::Rule(rule) => text_of_rule(rule),
    }
}

/// What is said where a rule fails.
fn text_of_rule(rule: Rule) -> &'static str {
    match rule {
        Rule::UnknownName => "nothing that may stand here has the name `~`\n",
        Rule::WrongArity => "`~` takes another number of actuals\n",
        Rule::ArgumentType => "`~` isn't of a type that is taken here\n",
        Rule::AssignType => "`~` isn't of a type that the left side takes\n",
        Rule::TargetDetachable => {
            "`~` may be Void\n\
             help: ask first: `if attached ~ as .. then .. end`\n"
        }
        Rule::TargetUncontrolled => {
            "`~` may lie on a handler that isn't reserved\n\
             help: reserve it: `separate ~ as .. do .. end`\n"
        }
        Rule::ResultType => "`~` gives a value where none is wanted, or none where one is\n",
        Rule::NotBoolean => "`~` isn't BOOLEAN\n",
        Rule::OperatorType => "`~` has operands that its operator doesn't take\n",
        Rule::NotAssignable => "nothing is assigned to `~`\n",
        Rule::NotCreation => {
            "`~` creates no object of this class\n\
             help: the create list of the class says what does\n"
        }
        Rule::CreationTag => {
            "`~` is a formal's handler's, on which no object is made from here\n"
        }
        Rule::TagName => "`~` has a mark or a tag that it can't have here\n",
        Rule::InvariantForm => {
            "`~` is no formula over attributes of the object\n\
             help: a clause has numbers, attributes of INTEGER and BOOLEAN, operators, and compares references with Void\n"
        }
        Rule::ImpureContract => "`~` isn't a pure function, and a contract calls no other\n",
        Rule::PreconditionArgument => {
            "`~` is a reference that a precondition passes to another handler\n"
        }
        Rule::NotExported => {
            "`~` is exported to no class\n\
             help: it is called without a target\n"
        }
        Rule::ObjectTestPlace => {
            "no text follows in which `~` is sure to have an object\n\
             help: it stands as the condition of an if, or among its and thens\n"
        }
        Rule::OldPlace => {
            "`~` stands where no value of before the body is kept\n\
             help: it stands in ensure, over calls on the own handler\n"
        }
        Rule::VoidUse => "Void is no value here\n",
    }
}
