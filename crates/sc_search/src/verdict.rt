//! The result of a search.

use sc_audit::RecordLine;

/// An order of turns, from the opening on.
#[derive(Drop)]
pub struct Order {
    /// Its turns, as lines of a record.
    pub lines: Vec<RecordLine>,
}

/// What a search found.
#[derive(Drop)]
pub enum Finding {
    /// No order. Where the search was whole, there is none.
    Nothing,
    /// After these turns some handler waits, and no order gives it a turn any more, whatever others do.
    Stuck(Order),
    /// After these turns some handler has failed.
    Fails(Order),
    /// After these turns some handler has refused a request for which no handler waited.
    Refused(Order),
    /// The search gave up before all was played.
    Undecided,
}

/// A pass of a search.
#[derive(Clone, Copy)]
pub enum Pass {
    /// The first one, which leaves out orders that should come to the same.
    Choices,
    /// The second one, which plays all turns.
    AllTurns,
}

/// Why a pass stops before all is played, and has found nothing.
#[derive(Clone, Copy)]
pub enum Reason {
    /// As many states were kept as may be.
    States,
    /// As many turns were played as go with the states that may be kept.
    Turns,
    /// What is kept takes more bytes than it may.
    Bytes,
    /// Memory ran out in the second pass.
    Memory,
    /// An order led to two worlds, which those of accepted texts don't.
    Worlds,
}

/// In which pass a search gave up, why, and how far that had come.
#[derive(Clone, Copy)]
pub struct GivenUp {
    pub pass: Pass,
    pub reason: Reason,
    /// How many states the pass had kept.
    pub states: u32,
    /// How many turns it had played.
    pub turns: u64,
    /// How many bytes what it had kept took, as counted last.
    pub bytes: u64,
}

/// How orders end: in a state in which no handler has anything to do.
#[derive(Drop)]
pub struct End {
    /// An order that ends so.
    pub order: Order,
    /// The report of what it leaves.
    pub report: Vec<u8>,
}

/// How long orders are.
#[derive(Clone, Copy)]
pub enum Length {
    /// Each ends, after at most this number of turns.
    AtMost(u32),
    /// Some order goes on for ever.
    Endless,
    /// That isn't known.
    Unknown,
}

/// The result of a search.
#[derive(Drop)]
pub struct Verdict {
    pub finding: Finding,
    /// How many states were kept by the pass that the finding is of.
    pub states: u32,
    /// How many bytes what that pass kept takes.
    pub bytes: u64,
    /// Whether every order was played, and none left out.
    pub is_whole: bool,
    /// The ends that were met, each with another report.
    pub ends: Vec<End>,
    pub length: Length,
    /// Why the search gave up. None if it found an order, or played every order.
    pub why: Option<GivenUp>,
}
