ghost use Rattle.std.specs.Prelude.{◌≡◌};
ghost use Rattle.dd_read.specs.Options.{AreWithin, defaults};

/// What a session may use.
#[derive(Clone, Copy, Drop)]
pub struct Options {
    /// How many workers settle a window, 1 to 16.
    pub workers: u32,
    /// How many requests a window has at the most, 1 to 64.
    pub window: u32,
    /// How many labels a run for one ask may put, where the ask does not say it, 1 to 200,000.
    pub expansions: u32,
    /// How many verdicts an ask may take, where it does not say it, 1 to 20,000.
    pub verdicts: u32,
    /// How many answers are kept at the most, 1 to 1,024.
    pub cache: u32,
}

impl Options {
    /// The options where the words name none.
    pub fn defaults() -> Options
        ensures numbers { result ≡ defaults }
        ensures within { AreWithin result }
    {
        Options {
            workers: 4,
            window: 16,
            expansions: 20_000,
            verdicts: 10_000,
            cache: 64,
        }
    }
}
