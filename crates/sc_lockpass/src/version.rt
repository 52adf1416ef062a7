//! Versions of the runtime, which differ in how many handlers there can be.
ghost use Rattle.std.specs.Prelude.{◌≡◌};
ghost use Rattle.sc_lockpass.specs.Versions.{most_handlers};

/// How many handlers there can be.
#[derive(Clone, Copy, Debug, PartialEq, Eq)]
pub enum Version {
    /// 64 handlers.
    One,
    /// 512 handlers.
    Two,
}

impl Version {
    /// The most handlers: they are numbered below it, from 0.
    pub fn most_handlers(self) -> u16
        ensures { result ≡ most_handlers self }
    {
        match self {
            Version::One => 64,
            Version::Two => 512,
        }
    }
}
