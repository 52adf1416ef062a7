//! Why a handler fails.

/// Why a handler has failed.
#[derive(Clone, Copy, Debug, PartialEq, Eq)]
pub enum Cause {
    /// F1: an object doesn't meet its class invariant at a point that requires it.
    Invariant,
    /// F2: a clause of a postcondition is false.
    Postcondition,
    /// F3: a clause of a `check` is false.
    Check,
    /// F4: a clause of a precondition is false that is no wait condition, or a request was refused for one.
    Precondition,
    /// F5: the result of an operator is no INTEGER.
    Overflow,
    /// F6: a divisor is 0.
    DivideByZero,
    /// F7: an entity of an attached type is read, or a Result of one returned, while it is still Void.
    UnsetEntity,
    /// F8: a handler that is asked, waited for or needed has failed.
    SupplierFailed,
    /// F9: there are as many handlers as there may be.
    TooManyHandlers,
    /// F10: the handler has as many objects as it may have.
    TooManyObjects,
    /// F11: a routine has no room for its frame.
    StackFull,
    /// F12: the queue of the handler that is asked is full.
    QueueFull,
    /// F13: a handler that is asked isn't held.
    NotHeld,
    /// F14: an object of another handler is used in a place for one of the current handler.
    ForeignObject,
    /// F15: the target of a call is Void.
    VoidTarget,
    /// F16: no other case fits.
    BadCode,
}
