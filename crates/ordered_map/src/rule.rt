//! Where an edit of a map goes, and what it makes of what it finds there.
ghost use Rattle.std.specs.Prelude.{◌≡◌};
ghost use Rattle.ordered_map.specs.OrderedMap.{applies, goal_key, leaves};

use crate::reply::Reply;
use arena::Side;

/// Where an edit goes.
#[derive(Clone, Copy, Debug, PartialEq, Eq)]
pub enum Goal {
    /// To this key, whether it has a value or not.
    Key(u64),
    /// To the pair at this end, if there is one: on the left that with the least key, on the right
    /// that with the greatest.
    End(Side),
}

impl Goal {
    ghost use Rattle.std.specs.Prelude.{option_and_then, IsTrue};
    ghost use Rattle.ordered_map.specs.CallRules.{IsFormOfEdit, form_of};
    ghost use Rattle.ordered_map.specs.OrderedMap.{spot};
    ghost use Rattle.ordered_map.specs.Replies.{number_reply};

    /// The key to which it goes, where this is the one at its end of the map, if there is one.
    pub fn key(self, at_end: Option<u64>) -> Option<u64>
        ensures { result ≡ goal_key self at_end }
    {
        match self {
            Goal::Key(key) => Some(key),
            Goal::End(_) => at_end,
        }
    }

    /// Whether an edit there may give a reply of this form.
    pub fn may_reply(self, reply: &Reply<u64, u128>) -> bool
        ensures { IsTrue result → IsFormOfEdit self (form_of reply.now) }
    {
        match (self, reply) {
            (Goal::Key(_), Reply::Value(_)) | (Goal::End(_), Reply::Pair(_)) => true,
            (_, Reply::Contended { .. } | Reply::Full(_)) => true,
            _ => false,
        }
    }

    /// The key at which an edit there with this reply is, and what that has, if it has a value.
    pub fn spot(self, reply: &Reply<u64, u128>) -> Option<(u64, Option<u128>)>
        ensures { result ≡ option_and_then (spot self) (number_reply reply.now) }
    {
        match (self, reply) {
            (Goal::Key(key), Reply::Value(found)) => Some((key, *found)),
            // That there is no pair says the same of a key as that it has no value.
            (Goal::Key(key), Reply::Pair(None)) => Some((key, None)),
            (Goal::End(_), Reply::Pair(Some(pair))) => Some((pair.0, Some(pair.1))),
            _ => None,
        }
    }
}

/// What an edit makes of the value that it finds.
#[derive(Clone, Copy, Debug, PartialEq, Eq)]
pub enum Rule {
    /// Puts this one in its place, or in where there is none.
    Put(u128),
    /// Takes it out, if there is one.
    Take,
    /// Puts the value in the place of the expected one.
    Swap { expected: u128, value: u128 },
    /// Puts this one in where there is none.
    PutNew(u128),
    /// Takes this one out.
    TakeIf(u128),
}

impl Rule {
    ghost use Rattle.std.specs.Prelude.{ℕ, true, Some, IfSome, IsTrue};
    ghost use Rattle.ordered_map.specs.CallRules.{nodes_in_try, steps_behind};

    /// Whether it changes anything where it finds this.
    pub fn applies(&self, found: Option<u128>) -> bool
        ensures { result ≡ applies self.now found }
    {
        match self {
            Rule::Put(_) => true,
            Rule::Take => found.is_some(),
            Rule::PutNew(_) => found.is_none(),
            Rule::Swap { expected, value: _ } | Rule::TakeIf(expected) => found == Some(*expected),
        }
    }

    /// The value that it leaves where it changes something, if it leaves one.
    pub fn leaves(&self) -> Option<u128>
        ensures { result ≡ leaves self.now }
    {
        match self {
            Rule::Put(value) | Rule::Swap { expected: _, value } | Rule::PutNew(value) => {
                Some(*value)
            }
            Rule::Take | Rule::TakeIf(_) => None,
        }
    }

    /// Whether it changes something in the place of each value.
    pub fn applies_to_all(&self) -> bool
        ensures { IsTrue result → (value : ℕ) → applies self.now (Some value) ≡ true }
    {
        match self {
            Rule::Put(_) | Rule::Take => true,
            Rule::Swap { .. } | Rule::PutNew(_) | Rule::TakeIf(_) => false,
        }
    }

    /// The value in whose place alone it changes something, if there is one.
    pub fn expects(&self) -> Option<u128>
        ensures { IfSome result (λ value. applies self.now (Some value) ≡ true) }
    {
        match self {
            Rule::Put(_) | Rule::Take | Rule::PutNew(_) => None,
            Rule::Swap { expected, value: _ } | Rule::TakeIf(expected) => Some(*expected),
        }
    }

    /// How many nodes an edit takes at most in a try.
    pub fn nodes_in_try(&self) -> u32
        ensures { result ≡ nodes_in_try self.now }
    {
        if self.applies(None) { 3 } else { 1 }
    }

    /// How many steps an edit makes at most after its walk in a try.
    pub fn steps_behind(&self) -> u64
        ensures { result ≡ steps_behind (leaves self.now) }
    {
        match self.leaves() {
            Some(_) => 207,
            None => 328,
        }
    }
}
