// What words may ask for.

/// The numbers that a session goes by: how many workers it has, the most requests of a window, the most expansions of one run,
/// the most verdicts of one ask, and the most answers that are kept.
#[derive(Clone, Copy)]
pub struct Options {
    pub workers: u32,
    pub window: u32,
    pub expansions: u32,
    pub verdicts: u32,
    pub cache: u32,
}

/// The numbers that requests are made from: a seed, how many peers there are, and how long the chains of their axioms are.
#[derive(Clone, Copy)]
pub struct Generated {
    pub seed: u32,
    pub peers: u32,
    pub size: u32,
}

/// A command: a session with workers, a session on one thread, the requests that are made, or a session over these.
#[derive(Clone, Copy)]
pub enum Command {
    Serve(Options),
    Alone(Options),
    Make(Generated),
    Drill(Generated),
}

/// Why words give no command: they are none, or there was no memory.
#[derive(Clone, Copy, Debug)]
pub enum WordsErr {
    Words,
    NoMemory,
}
