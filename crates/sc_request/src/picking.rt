//! Which handler goes on: handlers are picked with their jobs, and put back.
ghost use Rattle.std.specs.Prelude.{◌≡◌, ◌+◌, ◌<◌, ℕ, IfSome, IsTrue, false, is_some, not, true};
ghost use Rattle.std.specs.Option.{option_map};
ghost use Rattle.sc_handler.specs.Freeing.{frees_under};
ghost use Rattle.sc_request.specs.Candidates.{comes_again};
ghost use Rattle.sc_request.specs.Logs.{next, picked_if, picks};
ghost use Rattle.sc_request.specs.Logs as logs;

use crate::center::Core;
use crate::grants::{release_granted, reserve_granted};
use sc_handler::frees_under;
use sc_lockpass::HandlerNumber;
use sc_region::Job;

impl Core {
    ghost use Rattle.sc_request.specs.Cores.{center_of, log_of};
    ghost use Rattle.sc_request.specs.Rooms.{HasRoomFor};

    /// The next handler that has something to do, after the one that was picked last and round the numbers. It is out
    /// with its job from now on, and what its reserve step is granted is reserved.
    pub fn pick(&mut self) -> Option<HandlerNumber>
        ensures handler { result ≡ option_map (λ p. p.0) (next (center_of self.old)) }
        ensures below { IfSome result (λ handler. handler < 512) }
        ensures center { center_of self.new ≡ picks (next (center_of self.old)) (center_of self.old) }
        ensures log { log_of self.new ≡ log_of self.old }
        ensures outs { IfSome result (λ handler. self.new.outs ≡ self.old.outs + 1) }
        ensures room { (n : ℕ) → HasRoomFor (n + 1) self.old → HasRoomFor n self.new }
        ensures version { self.new.state.rights.version ≡ self.old.state.rights.version }
    {
        let handler = self
            .state
            .first_round(self.last, &mut self.candidates, &mut self.crowds)?;
        self.send_out(handler);
        Some(handler)
    }

    /// Whether a handler that is out is the next one again, as long as its turns want nothing: no other one has a
    /// job, and its job frees nothing that another waits to reserve. For a handler that isn't out: whether no handler
    /// has a job.
    pub fn comes_again(&mut self, handler: HandlerNumber) -> bool
        ensures again { (job : Job) → (center_of self.old).out handler ≡ Some job → result ≡ comes_again job (center_of self.old) }
        ensures home { (center_of self.old).out handler ≡ None → result ≡ not (is_some (next (center_of self.old))) }
        ensures center { center_of self.new ≡ center_of self.old }
        ensures log { log_of self.new ≡ log_of self.old }
        ensures outs { self.new.outs ≡ self.old.outs }
        ensures room { (n : ℕ) → HasRoomFor n self.old → HasRoomFor n self.new }
        ensures version { self.new.state.rights.version ≡ self.old.state.rights.version }
    {
        !self.frees_out(handler) && !self.has_next()
    }

    /// Whether the job that a handler is out with frees what another one may wait to reserve.
    fn frees_out(&self, handler: HandlerNumber) -> bool
        ensures out { (job : Job) → (center_of self.now).out handler ≡ Some job → result ≡ frees_under job }
        ensures home { (center_of self.now).out handler ≡ None → result ≡ false }
    {
        match self.job_out(handler) {
            Some(job) => frees_under(job),
            None => false,
        }
    }

    /// The job that a handler is out with.
    pub fn job_out(&self, handler: HandlerNumber) -> Option<&Job>
        ensures { option_map (λ job. job.now) result ≡ (center_of self.now).out handler }
    {
        self.state.job_out(handler)
    }

    /// Whether there is a handler that has something to do and isn't out.
    pub fn has_next(&mut self) -> bool
        ensures next { result ≡ is_some (next (center_of self.old)) }
        ensures center { center_of self.new ≡ center_of self.old }
        ensures log { log_of self.new ≡ log_of self.old }
        ensures outs { self.new.outs ≡ self.old.outs }
        ensures room { (n : ℕ) → HasRoomFor n self.old → HasRoomFor n self.new }
        ensures version { self.new.state.rights.version ≡ self.old.state.rights.version }
    {
        let found = self
            .state
            .first_round(self.last, &mut self.candidates, &mut self.crowds);
        found.is_some()
    }

    /// Whether this handler has something to do and isn't out. It is out with that from now on, and what its reserve
    /// step is granted is reserved.
    pub fn pick_at(&mut self, handler: HandlerNumber) -> bool
        ensures picked { result ≡ is_some (logs.pick_for handler (center_of self.old)) }
        ensures below { IsTrue result → handler < 512 }
        ensures center { center_of self.new ≡ picked_if handler (logs.pick_for handler (center_of self.old)) (center_of self.old) }
        ensures log { log_of self.new ≡ log_of self.old }
        ensures outs { IsTrue result → self.new.outs ≡ self.old.outs + 1 }
        ensures room { (n : ℕ) → HasRoomFor (n + 1) self.old → HasRoomFor n self.new }
        ensures version { self.new.state.rights.version ≡ self.old.state.rights.version }
    {
        if !self.has_job(handler) {
            return false;
        }
        self.send_out(handler);
        true
    }

    /// Undoes the pick of a handler that is out. It stays the one that was picked last, if it was.
    pub fn put_back(&mut self, handler: HandlerNumber)
        ensures center { center_of self.new ≡ logs.put_back handler (center_of self.old) }
        ensures log { log_of self.new ≡ log_of self.old }
        ensures room { (n : ℕ) → HasRoomFor n self.old → HasRoomFor n self.new }
        ensures home { is_some ((center_of self.old).out handler) ≡ true → (n : ℕ) → HasRoomFor n self.old → HasRoomFor (n + 1) self.new }
        ensures outs { is_some ((center_of self.old).out handler) ≡ true → self.old.outs ≡ self.new.outs + 1 }
        ensures version { self.new.state.rights.version ≡ self.old.state.rights.version }
    {
        let at = handler as usize;
        if at >= self.state.handlers.len() {
            return;
        }
        let state = &mut self.state;
        let Some(job) = state.handlers[at].out.get() else {
            return;
        };
        self.outs -= 1;
        release_granted(
            &mut state.rights,
            &mut self.candidates,
            &self.reserving,
            job,
        );
        state.handlers[at].out.clear();
        self.candidates.insert(at);
    }

    /// The handler is out with the job that it has.
    fn send_out(&mut self, handler: HandlerNumber)
        requires { is_some (logs.pick_for handler (center_of self.old)) ≡ true }
        ensures center { center_of self.new ≡ picked_if handler (logs.pick_for handler (center_of self.old)) (center_of self.old) }
        ensures log { log_of self.new ≡ log_of self.old }
        ensures outs { self.new.outs ≡ self.old.outs + 1 }
        ensures room { (n : ℕ) → HasRoomFor (n + 1) self.old → HasRoomFor n self.new }
        ensures version { self.new.state.rights.version ≡ self.old.state.rights.version }
    {
        let at = handler as usize;
        let state = &mut self.state;
        state.set_out(handler);
        let Some(job) = state.handlers[at].out.get() else {
            unreachable!();
        };
        reserve_granted(
            &mut state.rights,
            &mut self.candidates,
            &self.reserving,
            handler,
            job,
        );
        self.candidates.remove(at);
        self.outs += 1;
        self.last = handler;
    }
}
