//! Where a handler failed.

use sc_code::ClassNumber;

/// Where a routine stood: its number, and the place of its operation in its code.
#[derive(Clone, Copy)]
pub struct Point {
    pub routine: usize,
    pub place: usize,
}

/// A class invariant that an object broke.
#[derive(Clone, Copy)]
pub struct BrokenInvariant {
    /// The number of the object's class.
    pub class: ClassNumber,
    /// The number of the class that declares the first clause that wasn't true, an ancestor's clauses first.
    pub declarer: usize,
    /// Which of that class's own clauses it is, counted from 0.
    pub clause: usize,
}

/// Where a handler was as it failed, or else is now, as far as it is known.
#[derive(Clone, Copy)]
pub struct Breakdown {
    /// The routine that ran, or that had just ended where its object broke its invariant then.
    pub point: Option<Point>,
    /// The invariant that was broken, where that was the failure.
    pub invariant: Option<BrokenInvariant>,
}

impl Breakdown {
    /// No failure.
    pub(crate) fn none() -> Breakdown {
        Breakdown {
            point: None,
            invariant: None,
        }
    }
}
