//! Sessions end, and rights are released.
ghost use Rattle.std.specs.Prelude.{◌≡◌, ◌≤◌, ◌<◌, ◌+◌, ◌^◌, ◌∷◌, ℕ, [], Some, None, length, slice_index, vec_len, if◌then◌else◌};
ghost use Rattle.std.specs.List.{All};
ghost use Rattle.sc_lockpass.specs.Rights as maps;
ghost use Rattle.sc_lockpass.specs.Rights.{is_among};
ghost use Rattle.sc_lockpass.specs.Tables.{rights_of};
ghost use Rattle.sc_lockpass.specs.Versions.{most_handlers};
ghost use Rattle.sc_lockpass.specs.declared.wait_conditions.session.Release.TheVariants as release_at;
ghost use Rattle.sc_request.specs.Places.{outs_of, plain};
ghost use Rattle.sc_request.specs.Sessions.{given_to, release};
ghost use Rattle.sc_request.specs.Settling.{waits_again};
ghost use Rattle.sc_request.specs.Tables.{CountsUp};

use crate::state::State;
use sc_handler::WaitMark;
use sc_lockpass::{HandlerNumber, Rights};

/// Releases these handlers, whoever holds them.
pub(crate) fn release_each(rights: &mut Rights, handlers: &[HandlerNumber])
    ensures queue { (k : ℕ) → (rights_of rights.new).queue k ≡ (if is_among k handlers.now then None else (rights_of rights.old).queue k) }
    ensures top { (k : ℕ) → (rights_of rights.new).top k ≡ (rights_of rights.old).top k }
    ensures version { rights.new.version ≡ rights.old.version }
{
    for handler in handlers {
        release_one(rights, *handler);
    }
}

/// Releases a handler, whoever holds it.
fn release_one(rights: &mut Rights, handler: HandlerNumber)
    ensures queue { (k : ℕ) → (rights_of rights.new).queue k ≡ (if is_among k (handler ∷ []) then None else (rights_of rights.old).queue k) }
    ensures top { (k : ℕ) → (rights_of rights.new).top k ≡ (rights_of rights.old).top k }
    ensures version { rights.new.version ≡ rights.old.version }
{
    if let Some(holder) = rights.queue(handler) {
        rights.release(holder, &[handler]);
    }
}

/// Reserves these for a handler, whoever held them.
pub(crate) fn reserve_each(rights: &mut Rights, holder: HandlerNumber, handlers: &[HandlerNumber])
    requires { All (λ k. k < most_handlers rights.old.version) handlers.now }
    ensures rights { rights_of rights.new ≡ maps.reserve holder handlers.now (rights_of rights.old) }
    ensures version { rights.new.version ≡ rights.old.version }
{
    release_each(rights, handlers);
    rights.reserve(holder, handlers);
}

/// Lets a handler post to a new one, and no handler push on the new one's waiting stack.
pub(crate) fn give_new(rights: &mut Rights, made: HandlerNumber, holder: HandlerNumber)
    requires { made < most_handlers rights.old.version }
    ensures queue { (k : ℕ) → (rights_of rights.new).queue k ≡ given_to made (Some holder) (rights_of rights.old).queue k }
    ensures top { (k : ℕ) → (rights_of rights.new).top k ≡ given_to made None (rights_of rights.old).top k }
    ensures version { rights.new.version ≡ rights.old.version }
{
    reserve_each(rights, holder, &[made]);
    if rights.top(made).is_some() {
        // What a handler passes where nobody holds anything is the right on its own waiting stack, which is nobody's.
        let nothing = Rights::new(rights.version()).pass(made, made);
        rights.give_back(nothing);
    }
}

impl State {
    /// Releases these handlers, which the handler holds. A session of each ends.
    pub(crate) fn end_sessions(&mut self, handlers: &[HandlerNumber])
        requires there { All (λ k. k < 512) handlers.now }
        requires room { (k : ℕ) → slice_index self.old.sessions.items k + 1 < 2 ^ 64 }
        ensures plain { plain self.new ≡ release release_at.Exit handlers.now (plain self.old) }
        ensures handlers { self.new.handlers ≡ self.old.handlers }
        ensures outs { outs_of self.new ≡ outs_of self.old }
        ensures version { self.new.rights.version ≡ self.old.rights.version }
    {
        count_each(&mut self.sessions, handlers);
        release_each(&mut self.rights, handlers);
    }

    /// The entry of the handler waits: these, which it has newly reserved, are released and marked.
    pub(crate) fn wait_again(&mut self, handler: HandlerNumber, handlers: &[HandlerNumber])
        requires there { handler < 512 }
        requires few { length handlers.now ≤ 16 }
        requires listed { All (λ k. k < 512) handlers.now }
        ensures plain { plain self.new ≡ waits_again handler handlers.now (plain self.old) }
        ensures outs { outs_of self.new ≡ outs_of self.old }
        ensures version { self.new.rights.version ≡ self.old.rights.version }
    {
        let mark = WaitMark::of(handlers, self.sessions.as_slice());
        self.reserve_again(handler, mark);
        release_each(&mut self.rights, handlers);
    }
}

/// Adds one to the count of each of these, once if it is listed twice.
fn count_each(counts: &mut Vec<u64>, handlers: &[HandlerNumber])
    requires there { All (λ k. k < vec_len counts.old) handlers.now }
    requires room { (k : ℕ) → slice_index counts.old.items k + 1 < 2 ^ 64 }
    ensures counted { CountsUp (λ k. is_among k handlers.now) counts.old.items counts.new.items }
    ensures len { vec_len counts.new ≡ vec_len counts.old }
{
    for at in 0..handlers.len() {
        let handler = handlers[at];
        if !is_listed(handler, &handlers[..at]) {
            counts[handler as usize] += 1;
        }
    }
}

fn is_listed(handler: HandlerNumber, handlers: &[HandlerNumber]) -> bool
    ensures { result ≡ is_among handler handlers.now }
{
    handlers.iter().any(|other| *other == handler)
}
