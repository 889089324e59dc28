//! Replies of a dictionary.
ghost use Rattle.std.specs.Prelude.{◌≡◌};
ghost use Rattle.ordered_map.specs.Replies.{number_reply, one_value};

use arena::{Full, NodeNo, ScxNo};

/// What a call of a dictionary replies.
#[derive(Clone, Debug, Drop, PartialEq, Eq)]
pub enum Reply<K, V> {
    /// To an insert, a delete, a replacement and a get: the value that the key had, if it had one.
    Value(Option<V>),
    /// To a pop, a successor and a predecessor: the pair, if there is one.
    Pair(Option<(K, V)>),
    /// To a range: the pairs, by rising key.
    Pairs(Vec<(K, V)>),
    /// All tries were lost. During the call this SCX-record of another pass was in progress over
    /// this node.
    Contended { node: NodeNo, scx: ScxNo },
    /// The share has too little left, of an edit.
    Full(Full),
    /// A growth of what an ordered read keeps was refused.
    NoMemory,
}

impl Reply<u64, u128> {
    /// The value that it answers, or that there is none, if it answers one of these: that there is
    /// no pair and no value is the same here.
    pub fn value(&self) -> Option<Option<u128>>
        ensures { result ≡ one_value (number_reply self.now) }
    {
        match self {
            Reply::Value(value) => Some(*value),
            Reply::Pair(None) => Some(None),
            _ => None,
        }
    }
}
