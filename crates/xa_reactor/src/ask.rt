use xa_connection::{Connection, Front};
use xa_frame::{Reply, Request};

/// A request that a connection brought in, and then its reply. The connection is lent until the reply is put to it.
#[derive(Debug, Drop)]
pub struct Ask {
    /// The connection's key.
    pub key: usize,
    pub connection: Connection,
    /// What the request stands in, at the front of what came in.
    pub front: Front,
    pub session: u64,
    /// None once it was answered.
    pub request: Option<Request>,
    /// What it was answered, once it was.
    pub reply: Reply,
}
