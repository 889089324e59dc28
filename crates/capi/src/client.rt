//! What a handle leads to: a pass of a dictionary, a tree or a trie, and a part in its forest.
ghost use Rattle.std.specs.Prelude.{◌≡◌, ◌≤◌, IfOk, length, min, vec_len};
ghost use Rattle.std.specs.Arc.{arc_value};
ghost use Rattle.ordered_map.specs.OrderedMap.{call_insert, call_insert_new, call_delete, call_delete_if, call_pop_first, call_pop_last, call_replace_if, call_successor, call_predecessor, Get, Range};
ghost use Rattle.ordered_map.specs.declared.reply.Reply.TheVariants as replies;
ghost use Rattle.forest.specs.Dictionary.{order_reply, update_reply};

use crate::answer::{Count, KeyValue};
use crate::close::{close, close_lasting};
use crate::held::Held;
use regnubas::{ByBits, ByOrder, Lasts, OrderFault, PassNo, UpdateFault};
use std::alloc::Global;
use std::sync::Arc;

/// A pass of a tree or of a trie, and one owner of its forest. Of a dictionary that lasts its records
/// come back.
#[derive(Drop)]
pub enum OwnedPass {
    Tree(Held<ByOrder>),
    Trie(Held<ByBits>),
    LastingTree(Held<Lasts<ByOrder>>),
    LastingTrie(Held<Lasts<ByBits>>),
}

impl OwnedPass {
    ghost use Rattle.capi.specs.Answers.{HasClientCalled, BetweenSays};
    ghost use Rattle.capi.specs.Owned.{in_trie, lasts, owner_of, pass_of};
    ghost use Rattle.capi.specs.Rests.{HasRestedAs};

    /// The value of a key.
    pub fn get(&mut self, key: u64) -> Option<u128>
        ensures same { owner_of self.new ≡ owner_of self.old }
        ensures called { HasClientCalled self.old self.new (Get key) (replies.Value result) }
    {
        match self {
            OwnedPass::Tree(held) => held.forest.get(&mut held.pass, &key),
            OwnedPass::Trie(held) => held.forest.get(&mut held.pass, &key),
            OwnedPass::LastingTree(held) => held.forest.get(&mut held.pass, &key),
            OwnedPass::LastingTrie(held) => held.forest.get(&mut held.pass, &key),
        }
    }

    /// Sets a key to a value.
    pub fn insert(&mut self, key: u64, value: u128) -> Result<Option<u128>, UpdateFault>
        ensures same { owner_of self.new ≡ owner_of self.old }
        ensures called { HasClientCalled self.old self.new (call_insert key value)
            (update_reply replies.Value result) }
    {
        match self {
            OwnedPass::Tree(held) => held.forest.insert(&mut held.pass, key, value),
            OwnedPass::Trie(held) => held.forest.insert(&mut held.pass, key, value),
            OwnedPass::LastingTree(held) => held.forest.insert(&mut held.pass, key, value),
            OwnedPass::LastingTrie(held) => held.forest.insert(&mut held.pass, key, value),
        }
    }

    /// Sets a key to a value if it has none.
    pub fn insert_new(&mut self, key: u64, value: u128) -> Result<Option<u128>, UpdateFault>
        ensures same { owner_of self.new ≡ owner_of self.old }
        ensures called { HasClientCalled self.old self.new (call_insert_new key value)
            (update_reply replies.Value result) }
    {
        match self {
            OwnedPass::Tree(held) => held.forest.insert_new(&mut held.pass, key, value),
            OwnedPass::Trie(held) => held.forest.insert_new(&mut held.pass, key, value),
            OwnedPass::LastingTree(held) => held.forest.insert_new(&mut held.pass, key, value),
            OwnedPass::LastingTrie(held) => held.forest.insert_new(&mut held.pass, key, value),
        }
    }

    /// Takes a key away.
    pub fn delete(&mut self, key: u64) -> Result<Option<u128>, UpdateFault>
        ensures same { owner_of self.new ≡ owner_of self.old }
        ensures called { HasClientCalled self.old self.new (call_delete key)
            (update_reply replies.Value result) }
    {
        match self {
            OwnedPass::Tree(held) => held.forest.delete(&mut held.pass, &key),
            OwnedPass::Trie(held) => held.forest.delete(&mut held.pass, &key),
            OwnedPass::LastingTree(held) => held.forest.delete(&mut held.pass, &key),
            OwnedPass::LastingTrie(held) => held.forest.delete(&mut held.pass, &key),
        }
    }

    /// Takes a key away where it has the expected value.
    pub fn delete_if(&mut self, key: u64, expected: u128) -> Result<Option<u128>, UpdateFault>
        ensures same { owner_of self.new ≡ owner_of self.old }
        ensures called { HasClientCalled self.old self.new (call_delete_if key expected)
            (update_reply replies.Value result) }
    {
        match self {
            OwnedPass::Tree(held) => held.forest.delete_if(&mut held.pass, &key, &expected),
            OwnedPass::Trie(held) => held.forest.delete_if(&mut held.pass, &key, &expected),
            OwnedPass::LastingTree(held) => held.forest.delete_if(&mut held.pass, &key, &expected),
            OwnedPass::LastingTrie(held) => held.forest.delete_if(&mut held.pass, &key, &expected),
        }
    }

    /// Takes the pair with the least key away.
    pub fn pop_first(&mut self) -> Result<Option<(u64, u128)>, UpdateFault>
        ensures same { owner_of self.new ≡ owner_of self.old }
        ensures called { HasClientCalled self.old self.new call_pop_first
            (update_reply replies.Pair result) }
    {
        match self {
            OwnedPass::Tree(held) => held.forest.pop_first(&mut held.pass),
            OwnedPass::Trie(held) => held.forest.pop_first(&mut held.pass),
            OwnedPass::LastingTree(held) => held.forest.pop_first(&mut held.pass),
            OwnedPass::LastingTrie(held) => held.forest.pop_first(&mut held.pass),
        }
    }

    /// Takes the pair with the greatest key away.
    pub fn pop_last(&mut self) -> Result<Option<(u64, u128)>, UpdateFault>
        ensures same { owner_of self.new ≡ owner_of self.old }
        ensures called { HasClientCalled self.old self.new call_pop_last
            (update_reply replies.Pair result) }
    {
        match self {
            OwnedPass::Tree(held) => held.forest.pop_last(&mut held.pass),
            OwnedPass::Trie(held) => held.forest.pop_last(&mut held.pass),
            OwnedPass::LastingTree(held) => held.forest.pop_last(&mut held.pass),
            OwnedPass::LastingTrie(held) => held.forest.pop_last(&mut held.pass),
        }
    }

    /// Sets a key to a value where it has the expected one.
    pub fn replace_if(
        &mut self,
        key: u64,
        expected: u128,
        value: u128,
    ) -> Result<Option<u128>, UpdateFault>
        ensures same { owner_of self.new ≡ owner_of self.old }
        ensures called { HasClientCalled self.old self.new (call_replace_if key expected value)
            (update_reply replies.Value result) }
    {
        match self {
            OwnedPass::Tree(held) => {
                let (forest, pass) = (&held.forest, &mut held.pass);
                forest.replace_if(pass, key, &expected, value)
            }
            OwnedPass::Trie(held) => {
                let (forest, pass) = (&held.forest, &mut held.pass);
                forest.replace_if(pass, key, &expected, value)
            }
            OwnedPass::LastingTree(held) => {
                let (forest, pass) = (&held.forest, &mut held.pass);
                forest.replace_if(pass, key, &expected, value)
            }
            OwnedPass::LastingTrie(held) => {
                let (forest, pass) = (&held.forest, &mut held.pass);
                forest.replace_if(pass, key, &expected, value)
            }
        }
    }

    /// The pair with the least key above this one.
    pub fn successor(&mut self, alloc: Global, key: u64) -> Result<Option<(u64, u128)>, OrderFault>
        ensures same { owner_of self.new ≡ owner_of self.old }
        ensures called { HasClientCalled self.old self.new (call_successor key)
            (order_reply replies.Pair result) }
    {
        match self {
            OwnedPass::Tree(held) => held.forest.successor(alloc, &mut held.pass, &key),
            OwnedPass::Trie(held) => held.forest.successor(alloc, &mut held.pass, &key),
            OwnedPass::LastingTree(held) => held.forest.successor(alloc, &mut held.pass, &key),
            OwnedPass::LastingTrie(held) => held.forest.successor(alloc, &mut held.pass, &key),
        }
    }

    /// The pair with the greatest key below this one.
    pub fn predecessor(
        &mut self,
        alloc: Global,
        key: u64,
    ) -> Result<Option<(u64, u128)>, OrderFault>
        ensures same { owner_of self.new ≡ owner_of self.old }
        ensures called { HasClientCalled self.old self.new (call_predecessor key)
            (order_reply replies.Pair result) }
    {
        match self {
            OwnedPass::Tree(held) => held.forest.predecessor(alloc, &mut held.pass, &key),
            OwnedPass::Trie(held) => held.forest.predecessor(alloc, &mut held.pass, &key),
            OwnedPass::LastingTree(held) => held.forest.predecessor(alloc, &mut held.pass, &key),
            OwnedPass::LastingTrie(held) => held.forest.predecessor(alloc, &mut held.pass, &key),
        }
    }

    /// The first pairs from `low` to `high`, at most `most`.
    #[tactic(auto, using(crate::proofs::Ranges::range_few))]
    pub fn range(
        &mut self,
        alloc: Global,
        low: u64,
        high: u64,
        most: usize,
    ) -> Result<Vec<(u64, u128)>, OrderFault>
        requires few { most ≤ 64 }
        ensures few { IfOk result (λ pairs. vec_len pairs ≤ most) }
        ensures same { owner_of self.new ≡ owner_of self.old }
        ensures called { HasClientCalled self.old self.new (Range low high most)
            (order_reply replies.Pairs result) }
    {
        match self {
            OwnedPass::Tree(held) => held.forest.range(alloc, &mut held.pass, &low, &high, most),
            OwnedPass::Trie(held) => held.forest.range(alloc, &mut held.pass, &low, &high, most),
            OwnedPass::LastingTree(held) => held
                .forest
                .range(alloc, &mut held.pass, &low, &high, most),
            OwnedPass::LastingTrie(held) => held
                .forest
                .range(alloc, &mut held.pass, &low, &high, most),
        }
    }

    /// The first pairs from `low` to `high`, as many as there is room for, 64 at the most.
    pub fn fill(&mut self, alloc: Global, low: u64, high: u64, room: &mut [KeyValue]) -> Count
        ensures same { owner_of self.new ≡ owner_of self.old }
        ensures says { BetweenSays low high (min 64 (length room.old)) room.new self.old self.new result }
    {
        let told = self.range(alloc, low, high, room.len().min(64));
        Count::of_range(told, room)
    }

    /// Rests, if the dictionary lasts, and tells for whom it waits.
    pub fn rest(&mut self) -> Option<PassNo>
        ensures same { owner_of self.new ≡ owner_of self.old }
        ensures rested { HasRestedAs self.old self.new result }
    {
        match self {
            OwnedPass::Tree(_) | OwnedPass::Trie(_) => None,
            OwnedPass::LastingTree(held) => held.forest.rest(&mut held.pass),
            OwnedPass::LastingTrie(held) => held.forest.rest(&mut held.pass),
        }
    }

    /// How many nodes and SCX-records are left of the pass's share.
    pub fn left(&self) -> (u32, u32)
        ensures { result ≡ ((pass_of self.now).share.nodes, (pass_of self.now).share.scx) }
    {
        match self {
            OwnedPass::Tree(held) => held.pass.left(),
            OwnedPass::Trie(held) => held.pass.left(),
            OwnedPass::LastingTree(held) => held.pass.left(),
            OwnedPass::LastingTrie(held) => held.pass.left(),
        }
    }

    /// Whether it is of a trie.
    pub fn is_trie(&self) -> bool
        ensures { result ≡ in_trie self.now }
    {
        matches!(self, OwnedPass::Trie(_) | OwnedPass::LastingTrie(_))
    }

    /// Whether its dictionary lasts.
    pub fn lasts(&self) -> bool
        ensures { result ≡ lasts self.now }
    {
        matches!(self, OwnedPass::LastingTree(_) | OwnedPass::LastingTrie(_))
    }

    /// How many passes the dictionary has.
    pub fn all(&self) -> u32
        ensures { result ≡ (arc_value (owner_of self.now)).layout.passes }
    {
        match self {
            OwnedPass::Tree(held) => held.all,
            OwnedPass::Trie(held) => held.all,
            OwnedPass::LastingTree(held) => held.all,
            OwnedPass::LastingTrie(held) => held.all,
        }
    }
}

/// How a client closes.
pub enum Closing {
    /// It was the last: the pairs of the dictionary.
    Pairs(Vec<(u64, u128)>),
    /// It was the last, and an allocation was refused: the dictionary is gone.
    NoMemory,
    /// Other clients share the forest.
    Shared(OwnedPass),
}

impl Closing {
    ghost use Rattle.capi.specs.Left.{closing_of};

    /// Of the last client, by what is left, if an allocation was not refused.
    fn of(left: Option<Vec<(u64, u128)>>) -> Closing
        ensures { result ≡ closing_of left }
    {
        match left {
            Some(pairs) => Closing::Pairs(pairs),
            None => Closing::NoMemory,
        }
    }
}

impl OwnedPass {
    ghost use Rattle.capi.specs.Left.{IsClosing};

    /// Ends the forest, if this is its last client.
    pub fn close(self, alloc: Global) -> Closing
        ensures { IsClosing self result }
    {
        match self {
            OwnedPass::Tree(held) => match close(held, alloc) {
                Ok(left) => Closing::of(left),
                Err(held) => Closing::Shared(OwnedPass::Tree(held)),
            },
            OwnedPass::Trie(held) => match close(held, alloc) {
                Ok(left) => Closing::of(left),
                Err(held) => Closing::Shared(OwnedPass::Trie(held)),
            },
            OwnedPass::LastingTree(held) => match close_lasting(held, alloc) {
                Ok(left) => Closing::of(left),
                Err(held) => Closing::Shared(OwnedPass::LastingTree(held)),
            },
            OwnedPass::LastingTrie(held) => match close_lasting(held, alloc) {
                Ok(left) => Closing::of(left),
                Err(held) => Closing::Shared(OwnedPass::LastingTrie(held)),
            },
        }
    }

    /// Whether no other client shares the forest.
    pub fn is_last(&self) -> bool {
        match self {
            OwnedPass::Tree(held) => Arc::strong_count(&held.forest) == 1,
            OwnedPass::Trie(held) => Arc::strong_count(&held.forest) == 1,
            OwnedPass::LastingTree(held) => Arc::strong_count(&held.forest) == 1,
            OwnedPass::LastingTrie(held) => Arc::strong_count(&held.forest) == 1,
        }
    }
}
