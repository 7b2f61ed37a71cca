use dd_peer::Pin;
use dd_task::Job;
use dd_wire::Reply;

/// An ask that no test refused, under the pin of the moment at which it was read. `id` is the number of its request.
#[derive(Drop)]
pub struct Ask {
    pub id: u64,
    pub pin: Pin,
    pub job: Job,
}

/// What a request leaves for the end of its window.
#[derive(Drop)]
pub enum Kept {
    /// The request was answered as it was read.
    Finished(Reply),
    /// The request is an ask, which is to be settled.
    Asked(Ask),
}
