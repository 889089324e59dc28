//! What a run leaves.
use dict::Reply;

/// What the clients of a script were answered, and what is left in the map.
#[derive(Clone, Debug, Drop)]
pub struct Outcome {
    /// The replies of each client, by its number: one to each of its calls, in the script's order.
    pub replies: Vec<Vec<Reply<u64, u128>>>,
    /// The pairs of the map, by rising key.
    pub pairs: Vec<(u64, u128)>,
}
