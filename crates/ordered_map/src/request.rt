//! Calls of a dictionary.
ghost use Rattle.std.specs.Prelude.{◌≡◌};
ghost use Rattle.ordered_map.specs.Requests.{edit_in, key_told, map_request, tells_change};
ghost use Rattle.ordered_map.specs.Replies.{number_reply};

use crate::reply::Reply;
use crate::rule::{Goal, Rule};
use arena::Side;

/// A call of a dictionary, as one that is held open begins.
#[derive(Clone, Copy, Debug, PartialEq, Eq)]
pub enum Request<K, V> {
    /// Gives a key a value.
    Insert { key: K, value: V },
    /// Gives a key this value if it has none.
    InsertNew { key: K, value: V },
    /// Takes a key out.
    Delete { key: K },
    /// Takes a key out if it has the expected value.
    DeleteIf { key: K, expected: V },
    /// Takes out the pair with the least key.
    PopFirst,
    /// Takes out the pair with the greatest key.
    PopLast,
    /// Gives a key this value if it has the expected one.
    ReplaceIf { key: K, expected: V, value: V },
    /// Looks up a key.
    Get { key: K },
    /// Looks for the pair with the least key above this one.
    Successor { key: K },
    /// Looks for the pair with the greatest key below this one.
    Predecessor { key: K },
    /// Takes the first pairs by key of those with keys from `low` to `high`, both included, at most
    /// `most`, 64 at the most.
    Range { low: K, high: K, most: u32 },
}

impl Request<u64, u128> {
    /// Where it goes and by which rule, if it is an edit.
    pub fn edit(&self) -> Option<(Goal, Rule)>
        ensures { result ≡ edit_in (map_request self.now) }
    {
        match *self {
            Request::Insert { key, value } => Some((Goal::Key(key), Rule::Put(value))),
            Request::InsertNew { key, value } => Some((Goal::Key(key), Rule::PutNew(value))),
            Request::Delete { key } => Some((Goal::Key(key), Rule::Take)),
            Request::DeleteIf { key, expected } => Some((Goal::Key(key), Rule::TakeIf(expected))),
            Request::PopFirst => Some((Goal::End(Side::Left), Rule::Take)),
            Request::PopLast => Some((Goal::End(Side::Right), Rule::Take)),
            Request::ReplaceIf {
                key,
                expected,
                value,
            } => Some((Goal::Key(key), Rule::Swap { expected, value })),
            Request::Get { .. }
            | Request::Successor { .. }
            | Request::Predecessor { .. }
            | Request::Range { .. } => None,
        }
    }

    /// The key whose value it answers, if it answers one.
    pub fn key(&self) -> Option<u64>
        ensures { result ≡ key_told (map_request self.now) }
    {
        match *self {
            Request::Get { key } => Some(key),
            _ => self.edit()?.0.key(None),
        }
    }

    /// Whether this reply to it says that it has changed the map.
    pub fn changes(&self, reply: &Reply<u64, u128>) -> bool
        ensures { result ≡ tells_change (map_request self.now) (number_reply reply.now) }
    {
        match self.edit() {
            Some((goal, rule)) => match goal.spot(reply) {
                Some((_, found)) => rule.applies(found),
                None => false,
            },
            None => false,
        }
    }
}
