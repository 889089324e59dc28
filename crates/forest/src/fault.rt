//! What can be refused here.
ghost use Rattle.std.specs.Prelude.{◌≡◌};

use arena::{Full, NoMemory, NodeNo, ScxNo};
use thiserror::Error;

/// Why a forest was not made.
#[derive(Clone, Copy, Debug, PartialEq, Eq, Error)]
pub enum NewFault {
    /// The limits are out of their ranges.
    #[error("bad limits")]
    Limits,
    /// An allocation was refused.
    #[error("no memory")]
    NoMemory,
}

/// Why no forest begins with some pairs.
#[derive(Clone, Copy, Debug, PartialEq, Eq, Error)]
pub enum PairsFault {
    /// The limits are out of their ranges.
    #[error("bad limits")]
    Limits,
    /// The key at this place of the pairs, counted from 0, is not above the one before it. It is
    /// the first such place.
    #[error("pairs out of order at {place}")]
    Order { place: usize },
    /// The pairs take more nodes than this: so many are there beside the shares of the passes, of
    /// 1,048,576 in all. A tree takes two for each four pairs, a trie at most two for each pair.
    #[error("too many pairs: room for {room} nodes")]
    TooMany { room: u32 },
    /// An allocation was refused.
    #[error("no memory")]
    NoMemory,
}

impl From<NoMemory> for PairsFault {
    ghost use Rattle.forest.specs.declared.fault.PairsFault.{PairsFault};

    ghost from_gives = { λ _ fault. fault ≡ PairsFault.NoMemory };

    fn from(_none: NoMemory) -> PairsFault {
        PairsFault::NoMemory
    }
}

/// Why an edit was refused. It has not changed the map, and never will.
#[derive(Clone, Copy, Debug, PartialEq, Eq, Error)]
pub enum UpdateFault {
    /// All tries were lost: this SCX-record of another pass was in the way, over this node. The
    /// same call may be made again at once.
    #[error("contended: SCX-record {scx} was in the way, over node {node}")]
    Contended { node: NodeNo, scx: ScxNo },
    /// The pass's share has too little left for the next try. If records come back it may have
    /// enough after rests; if not it never will. Another pass may have enough.
    #[error(transparent)]
    Full(Full),
}

impl From<Full> for UpdateFault {
    ghost use Rattle.forest.specs.declared.fault.UpdateFault.{UpdateFault};

    ghost from_gives = { λ full fault. fault ≡ UpdateFault.Full full };

    fn from(full: Full) -> UpdateFault {
        UpdateFault::Full(full)
    }
}

/// Why an ordered read was refused.
#[derive(Clone, Copy, Debug, PartialEq, Eq, Error)]
pub enum OrderFault {
    /// All tries were lost: this SCX-record of another pass was in the way, over this node. The
    /// same call may be made again at once.
    #[error("contended: SCX-record {scx} was in the way, over node {node}")]
    Contended { node: NodeNo, scx: ScxNo },
    /// An allocation was refused.
    #[error("no memory")]
    NoMemory,
}

impl From<NoMemory> for OrderFault {
    ghost use Rattle.forest.specs.declared.fault.OrderFault.{OrderFault};

    ghost from_gives = { λ _ fault. fault ≡ OrderFault.NoMemory };

    fn from(_none: NoMemory) -> OrderFault {
        OrderFault::NoMemory
    }
}
