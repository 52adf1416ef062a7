//! Why a system has no tables.

ghost use Rattle.std.specs.Prelude.{◌≡◌};
ghost use Rattle.sc_class.specs.declared.fault.ClassFault.TheVariants.{OutOfMemory};

use sc_text::Span;
use std::alloc::AllocError;
use thiserror::Error;

/// What a system has that this language leaves out of Eiffel.
#[derive(Clone, Copy, Debug)]
pub enum LeftOut {
    /// A class that is marked `deferred`.
    Deferred,
    /// A class that is marked `expanded`.
    Expanded,
    /// A class that is marked `frozen`.
    Frozen,
    /// A class with a second parent.
    MultipleInheritance,
    /// An export list other than `{ANY}`, `{NONE}` and `{}`.
    ExportList,
}

/// A fault of a system's classes, with its code and the span of the name at fault; or no memory was left.
#[derive(Clone, Copy, Debug, Error)]
pub enum ClassFault {
    /// C1: the class has the name of an earlier one, or that of a class that every system has (ECMA-367, 8.3).
    #[error("a class has the name of another")]
    DuplicateClass { span: Span },
    /// C2: no class has the name of this parent, or it is INTEGER, BOOLEAN or NONE.
    #[error("there is no such parent")]
    UnknownParent { span: Span },
    /// C3: the class that names this parent inherits from itself (ECMA-367, 8.6.5). It is the first such class.
    #[error("a class inherits from itself")]
    Cycle { span: Span },
    /// C4: a feature, a formal, a local, or the name of an object test or of a block's head is equal to one before it
    /// (ECMA-367, 8.8 and 8.24), or it is `print`.
    #[error("a name is declared twice")]
    DuplicateFeature { span: Span },
    /// C5: a feature that isn't inherited or isn't declared again is listed under `redefine`, or what redefines
    /// a routine doesn't fit it (ECMA-367, 8.10).
    #[error("a feature is badly redefined")]
    BadRedefinition { span: Span },
    /// C6: there is no class of the root's name, or it doesn't create its objects by that procedure, without
    /// formals.
    #[error("there is no such root")]
    NoRoot,
    /// C7: the system passes one of the limits on classes, features, formals, locals and the names of a block.
    #[error("a limit is passed")]
    Limit,
    /// C8: something that this language leaves out.
    #[error("something that the language leaves out")]
    LeftOut { what: LeftOut, span: Span },
    /// No memory was left for the tables.
    #[error("out of memory")]
    OutOfMemory,
}

impl From<AllocError> for ClassFault {
    ghost from_gives = { λ _ e. e ≡ OutOfMemory };

    fn from(_error: AllocError) -> ClassFault {
        ClassFault::OutOfMemory
    }
}
