/// Whether a window is to be finished before the next line is read.
#[derive(Clone, Copy, Drop)]
pub enum Accepted {
    /// The window takes more requests.
    More,
    /// The window has as many requests as it may, or a blank line or the end of the lines ended it.
    Due,
}
