use crate::kept::Kept;

/// What a request leaves that was obeyed or refused, and whether its symbols stay.
#[derive(Drop)]
pub enum Obeyed {
    Stays(Kept),
    Cut(Kept),
}
