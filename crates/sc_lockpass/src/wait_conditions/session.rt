//! Sessions: the time from a reservation of a handler to its release.
ghost use Rattle.std.specs.Prelude.{◌≡◌};
ghost use Rattle.sc_lockpass.specs.wait_conditions.Reservations.{ends_session};

/// Why handlers are released.
#[derive(Clone, Copy)]
pub enum Release {
    /// The routine that reserved them exits.
    Exit,
    /// The separate block that reserved them is left.
    Leave,
    /// The request whose entry reserved them is refused.
    Refusal,
    /// The handler that holds them fails.
    Failure,
    /// The handler that created them has posted the creation, or has its answer.
    Creation,
    /// The entry that reserved them waits, since a wait condition was false.
    FalseWaitCondition,
}

impl Release {
    /// Whether a session of each released handler ends: always, but where an entry waits.
    pub fn ends_session(self) -> bool
        ensures { result ≡ ends_session self }
    {
        match self {
            Release::Exit
            | Release::Leave
            | Release::Refusal
            | Release::Failure
            | Release::Creation => true,
            Release::FalseWaitCondition => false,
        }
    }
}
