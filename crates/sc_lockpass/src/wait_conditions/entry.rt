//! What an entry reserves.
ghost use Rattle.std.specs.Prelude.{◌≡◌, ◌<◌, ◌≤◌, [], length};
ghost use Rattle.arrayvec.specs.ArrayVec.{array_vec_len};
ghost use Rattle.sc_lockpass.specs.Rights.{is_among};
ghost use Rattle.sc_lockpass.specs.Tables.{rights_of};
ghost use Rattle.sc_lockpass.specs.wait_conditions.Entries as entries;
ghost use Rattle.sc_lockpass.specs.wait_conditions.Conditions as conditions;

use crate::handler_number::HandlerNumber;
use crate::rights::Rights;
use crate::wait_conditions::condition::{ClauseKind, ClauseResult, EntryVerdict};
use arrayvec::ArrayVec;

/// An entry into a routine with attached separate formals, or into a separate block.
///
/// The values of its formals, or of the block's names, are given by the handlers on which their objects lie, and none
/// for a value without an object: Void, an INTEGER or a BOOLEAN.
#[derive(Clone, Drop)]
pub struct Entry {
    /// The handler that enters.
    pub handler: HandlerNumber,
    /// The handlers that this entry newly reserved.
    pub reserved: ArrayVec<HandlerNumber, 16>,
}

impl Entry {
    /// An entry of a handler that has reserved nothing yet.
    pub fn new(handler: HandlerNumber) -> Self
        ensures handler { result.handler ≡ handler }
        ensures reserved { result.reserved.items ≡ [] }
    {
        Entry {
            handler,
            reserved: ArrayVec::new(),
        }
    }

    /// The handlers of these values that the entering handler doesn't hold, each once, in the order of the values.
    /// The values are those of attached separate formals or of a block's names: at most 16.
    pub fn needed(
        &self,
        values: &[Option<HandlerNumber>],
        rights: &Rights,
    ) -> ArrayVec<HandlerNumber, 16>
        requires { length values.now ≤ 16 }
        ensures { result.items ≡ entries.needed (rights_of rights.now) self.now.handler values.now }
    {
        let mut needed = ArrayVec::new();
        for value in values {
            push_new(&mut needed, self.unheld(*value, rights));
        }
        needed
    }

    /// The handler of a value, where the entering handler doesn't hold it.
    fn unheld(&self, value: Option<HandlerNumber>, rights: &Rights) -> Option<HandlerNumber>
        ensures { result ≡ entries.unheld (rights_of rights.now) self.now.handler value }
    {
        let handler = value?;
        if rights.held(self.handler, handler) {
            return None;
        }
        Some(handler)
    }

    /// Whether a clause is waited for, by the values of all formals that it names anywhere in its text: it is if one
    /// of these is an object of a handler that this entry newly reserved.
    pub fn clause_kind(&self, values: &[Option<HandlerNumber>]) -> ClauseKind
        ensures { result ≡ conditions.clause_kind self.now.reserved.items values.now }
    {
        for value in values {
            if let Some(handler) = *value
                && is_listed(handler, self.reserved.as_slice())
            {
                return ClauseKind::WaitCondition;
            }
        }
        ClauseKind::CorrectnessCondition
    }

    /// What the clauses of an entry's precondition decide, in the order of the text: the first false one decides, and
    /// the body starts where none is false. What follows a false one doesn't matter.
    pub fn verdict(results: &[ClauseResult]) -> EntryVerdict
        ensures { result ≡ conditions.verdict results.now }
    {
        for clause in results {
            if !clause.holds {
                return match clause.kind {
                    ClauseKind::WaitCondition => EntryVerdict::Wait,
                    ClauseKind::CorrectnessCondition => EntryVerdict::Refuse,
                };
            }
        }
        EntryVerdict::Start
    }
}

/// Lists a handler, if there is one that isn't listed.
fn push_new(listed: &mut ArrayVec<HandlerNumber, 16>, handler: Option<HandlerNumber>)
    requires { array_vec_len listed.old < 16 }
    ensures { listed.new.items ≡ entries.with_new listed.old.items handler }
{
    if let Some(handler) = handler
        && !is_listed(handler, listed.as_slice())
    {
        listed.push(handler);
    }
}

fn is_listed(handler: HandlerNumber, handlers: &[HandlerNumber]) -> bool
    ensures { result ≡ is_among handler handlers.now }
{
    handlers.iter().any(|other| *other == handler)
}
