//! A dictionary that threads share.
ghost use Rattle.std.specs.Prelude.{◌≡◌, ◌≤◌, ◌↔◌, Err, IfOk, OnOk};
ghost use Rattle.arena.specs.Limits.{IsAccepted, IsLayoutOf};
ghost use Rattle.template.specs.Balance.{map_mode};
ghost use Rattle.planting.specs.Plantings.{nothing_planted};
ghost use Rattle.ordered_map.specs.declared.rule.Goal.TheVariants.{Key};
ghost use Rattle.ordered_map.specs.OrderedMap.{Edit, Get, Range, call_successor, call_predecessor, call_insert, call_insert_new, call_delete, call_delete_if, call_pop_first, call_pop_last, call_replace_if};
ghost use Rattle.dict.specs.Calls.{IsSmallCall, edit_call};
ghost use Rattle.ordered_map.specs.CallRules.{IsFormOfValue, IsFormOfNeighbour, IsFormOfPair, form_of};
ghost use Rattle.ordered_map.specs.Requests.{AsksForFew, as_map_call};
ghost use Rattle.dict.specs.Says.{KeepsLists};
ghost use Rattle.dict.specs.Typed.{IsTypedCall};
ghost use Rattle.dict.specs.Words.{IsWordOf};
ghost use Rattle.tables.specs.Passes.{IsOf, AreNew};
ghost use Rattle.forest.specs.Dictionary.{HasCalledIn, order_reply, update_reply};

use crate::fault::{NewFault, OrderFault, UpdateFault};
use crate::filled_once::FilledOnce;
use crate::forest::Forest;
use crate::kept::note_lost;
use crate::pass::Pass;
use arena::{Limits, NoMemory, NodeNo, ScxNo, Shape, Share};
use dict::{Dict, DictRun, Reply, Request, WordKey, WordValue, number_of, value_of};
use order::leaf_way;
use resting::unborn_stays_out;
use std::alloc::Global;
use std::mem::replace;
use straight::balance::in_trie;
use straight::hand::Hand;
use straight::{calls, walk};
use tables::table_shape::Keeping;
use template::{Goal, map_mode};
use tree::{
    AtGreatest, AtKey, AtLeast, EditGoal, EditRule, GoalIn, KeyEdit, PutNewRule, PutRule, SwapRule,
    TakeIfRule, TakeRule,
};

/// What the caller of an edit of a key gets of its reply.
#[inline(always)]
fn told_value<K: WordKey, V: WordValue>(reply: Reply<K, V>) -> Result<Option<V>, UpdateFault>
    requires form { IsFormOfValue (form_of reply) }
    ensures { reply ≡ update_reply Reply.Value result }
{
    match reply {
        Reply::Value(value) => Ok(value),
        Reply::Contended { node, scx } => Err(UpdateFault::Contended { node, scx }),
        Reply::Full(full) => Err(UpdateFault::Full(full)),
        Reply::Pair(_) | Reply::NoMemory => unreachable!(),
        Reply::Pairs(pairs) => {
            drop(pairs);
            unreachable!()
        }
    }
}

/// What the caller of a pop gets of its reply.
#[inline(always)]
fn told_pair<K: WordKey, V: WordValue>(reply: Reply<K, V>) -> Result<Option<(K, V)>, UpdateFault>
    requires form { IsFormOfPair (form_of reply) }
    ensures { reply ≡ update_reply Reply.Pair result }
{
    match reply {
        Reply::Pair(pair) => Ok(pair),
        Reply::Contended { node, scx } => Err(UpdateFault::Contended { node, scx }),
        Reply::Full(full) => Err(UpdateFault::Full(full)),
        Reply::Value(_) | Reply::NoMemory => unreachable!(),
        Reply::Pairs(pairs) => {
            drop(pairs);
            unreachable!()
        }
    }
}

/// What the caller of a search for the pair beside a key gets of its reply.
#[inline(always)]
fn told_neighbour<K: WordKey, V: WordValue>(
    reply: Reply<K, V>,
) -> Result<Option<(K, V)>, OrderFault>
    requires form { IsFormOfNeighbour (form_of reply) }
    ensures { reply ≡ order_reply Reply.Pair result }
{
    match reply {
        Reply::Pair(pair) => Ok(pair),
        Reply::Contended { node, scx } => Err(OrderFault::Contended { node, scx }),
        Reply::NoMemory => Err(OrderFault::NoMemory),
        Reply::Value(_) | Reply::Full(_) => unreachable!(),
        Reply::Pairs(pairs) => {
            drop(pairs);
            unreachable!()
        }
    }
}

impl<K: WordKey, V: WordValue, B: FilledOnce> Forest<Dict<K, V, B>> {
    /// An empty dictionary within these limits, and a pass for each client. Refused are limits out
    /// of range and want of memory.
    pub fn new(
        alloc: Global,
        limits: Limits,
    ) -> Result<(Forest<Dict<K, V, B>>, Vec<Pass<Dict<K, V, B>>>), NewFault>
        ensures accepted { OnOk result (IsAccepted limits) }
        ensures refused { (result ≡ Err NewFault.Limits) ↔ (¬ IsAccepted limits) }
        ensures layout { IfOk result (λ r. IsLayoutOf limits (map_mode (B.trie B.the)) r.0.layout) }
        ensures tries { IfOk result (λ r. r.0.tries ≡ limits.tries) }
        ensures empty { IfOk result (λ r. r.0.planting ≡ nothing_planted (map_mode (B.trie B.the))) }
        ensures passes { IfOk result (λ r. AreNew r.0 r.1.items) }
    {
        let Ok(layout) = limits.check(map_mode(in_trie::<B>())) else {
            return Err(NewFault::Limits);
        };
        match Forest::with_layout(alloc, layout, limits.tries) {
            Ok(opened) => Ok(opened),
            Err(NoMemory) => Err(NewFault::NoMemory),
        }
    }
}

impl<K: WordKey, V: WordValue, B: Keeping> Forest<Dict<K, V, B>> {
    /// Sets a key to a value, and returns the value that the key had just before. It takes at most
    /// three nodes and an SCX-record of the pass's share in a try, and no memory. The pass blames
    /// the SCX-record that `Contended` names. After Brown, Ellen and Ruppert (PPoPP 2014), as are
    /// the other edits.
    #[inline(always)]
    pub fn insert(
        &self,
        pass: &mut Pass<Dict<K, V, B>>,
        key: K,
        value: V,
    ) -> Result<Option<V>, UpdateFault>
        requires pass { IsOf self.now pass.old }
        ensures { HasCalledIn (B.trie B.the) K.is_valid K.word_of V.is_valid V.word_of self.now
            pass.old pass.new (call_insert (K.word_of key) (V.word_of value))
            (update_reply Reply.Value result) }
    {
        key.valid();
        value.valid();
        self.edit_at_key(pass, key.word(), PutRule(number_of(&value)))
    }

    /// Sets a key to a value if it has none, and returns the value that it has otherwise: then the
    /// map is as it was. It takes at most three nodes and an SCX-record of the pass's share in a
    /// try, and no memory.
    #[inline(always)]
    pub fn insert_new(
        &self,
        pass: &mut Pass<Dict<K, V, B>>,
        key: K,
        value: V,
    ) -> Result<Option<V>, UpdateFault>
        requires pass { IsOf self.now pass.old }
        ensures { HasCalledIn (B.trie B.the) K.is_valid K.word_of V.is_valid V.word_of self.now
            pass.old pass.new (call_insert_new (K.word_of key) (V.word_of value))
            (update_reply Reply.Value result) }
    {
        key.valid();
        value.valid();
        self.edit_at_key(pass, key.word(), PutNewRule(number_of(&value)))
    }

    /// Removes a key, and returns the value that it had just before. It takes at most a node and
    /// an SCX-record of the pass's share in a try, and no memory.
    #[inline(always)]
    pub fn delete(&self, pass: &mut Pass<Dict<K, V, B>>, key: &K) -> Result<Option<V>, UpdateFault>
        requires pass { IsOf self.now pass.old }
        ensures { HasCalledIn (B.trie B.the) K.is_valid K.word_of V.is_valid V.word_of self.now
            pass.old pass.new (call_delete (K.word_of key.now)) (update_reply Reply.Value result) }
    {
        key.valid();
        self.edit_at_key(pass, key.word(), TakeRule)
    }

    /// Removes a key that has the expected value, and returns the value that the key had just
    /// before: the map is changed if that is the one expected. It takes at most a node and an
    /// SCX-record of the pass's share in a try, and no memory.
    #[inline(always)]
    pub fn delete_if(
        &self,
        pass: &mut Pass<Dict<K, V, B>>,
        key: &K,
        expected: &V,
    ) -> Result<Option<V>, UpdateFault>
        requires pass { IsOf self.now pass.old }
        ensures { HasCalledIn (B.trie B.the) K.is_valid K.word_of V.is_valid V.word_of self.now
            pass.old pass.new (call_delete_if (K.word_of key.now) (V.word_of expected.now))
            (update_reply Reply.Value result) }
    {
        key.valid();
        self.edit_at_key(pass, key.word(), TakeIfRule(number_of(expected)))
    }

    /// Removes the pair with the least key, if there is one, and returns it. It takes at most a
    /// node and an SCX-record of the pass's share in a try, and no memory.
    #[inline(always)]
    pub fn pop_first(&self, pass: &mut Pass<Dict<K, V, B>>) -> Result<Option<(K, V)>, UpdateFault>
        requires pass { IsOf self.now pass.old }
        ensures { HasCalledIn (B.trie B.the) K.is_valid K.word_of V.is_valid V.word_of self.now
            pass.old pass.new call_pop_first (update_reply Reply.Pair result) }
    {
        let (goal, rule) = (AtLeast, TakeRule);
        told_pair(self.edit(pass, KeyEdit { goal, rule }))
    }

    /// Removes the pair with the greatest key, if there is one, and returns it. It takes at most a
    /// node and an SCX-record of the pass's share in a try, and no memory.
    #[inline(always)]
    pub fn pop_last(&self, pass: &mut Pass<Dict<K, V, B>>) -> Result<Option<(K, V)>, UpdateFault>
        requires pass { IsOf self.now pass.old }
        ensures { HasCalledIn (B.trie B.the) K.is_valid K.word_of V.is_valid V.word_of self.now
            pass.old pass.new call_pop_last (update_reply Reply.Pair result) }
    {
        let (goal, rule) = (AtGreatest, TakeRule);
        told_pair(self.edit(pass, KeyEdit { goal, rule }))
    }

    /// Sets a key that has the expected value to another, and returns the value that the key had
    /// just before: the map is changed if that is the one expected. It takes at most a node and an
    /// SCX-record of the pass's share in a try, and no memory.
    #[inline(always)]
    pub fn replace_if(
        &self,
        pass: &mut Pass<Dict<K, V, B>>,
        key: K,
        expected: &V,
        value: V,
    ) -> Result<Option<V>, UpdateFault>
        requires pass { IsOf self.now pass.old }
        ensures { HasCalledIn (B.trie B.the) K.is_valid K.word_of V.is_valid V.word_of self.now
            pass.old pass.new
            (call_replace_if (K.word_of key) (V.word_of expected.now) (V.word_of value))
            (update_reply Reply.Value result) }
    {
        key.valid();
        value.valid();
        let (expected, value) = (number_of(expected), number_of(&value));
        self.edit_at_key(pass, key.word(), SwapRule { expected, value })
    }

    /// The value of a key, if it has one. It takes nothing, and is never refused.
    pub fn get(&self, pass: &mut Pass<Dict<K, V, B>>, key: &K) -> Option<V>
        requires pass { IsOf self.now pass.old }
        ensures { HasCalledIn (B.trie B.the) K.is_valid K.word_of V.is_valid V.word_of self.now
            pass.old pass.new (Get (K.word_of key.now)) (Reply.Value result) }
    {
        key.valid();
        let number = pass.taken();
        let hand = Hand {
            words: &self.words,
            plan: &self.plan,
            number,
            size: Dict::<K, V, B>::node_size(),
        };
        let seat = &mut pass.seat;
        let way = leaf_way(in_trie::<B>());
        let goal = Goal::Key(key.word());
        let found = walk::to_goal::<Dict<K, V, B>, DictRun<K, V>>(hand, seat, way, goal).0;
        value_of(found.value)
    }

    /// The pair with the least key above this one, if there is one. It takes nothing of the pass's
    /// share, and memory only where the lists of what it looks at, which the pass keeps from one
    /// ordered read to the next, have to grow.
    pub fn successor(
        &self,
        alloc: Global,
        pass: &mut Pass<Dict<K, V, B>>,
        key: &K,
    ) -> Result<Option<(K, V)>, OrderFault>
        requires pass { IsOf self.now pass.old }
        ensures { HasCalledIn (B.trie B.the) K.is_valid K.word_of V.is_valid V.word_of self.now
            pass.old pass.new (call_successor (K.word_of key.now)) (order_reply Reply.Pair result) }
    {
        told_neighbour(self.read(alloc, pass, Request::Successor { key: *key }))
    }

    /// The pair with the greatest key below this one, if there is one. It takes nothing of the pass's
    /// share, and memory only where the lists of what it looks at, which the pass keeps from one
    /// ordered read to the next, have to grow.
    pub fn predecessor(
        &self,
        alloc: Global,
        pass: &mut Pass<Dict<K, V, B>>,
        key: &K,
    ) -> Result<Option<(K, V)>, OrderFault>
        requires pass { IsOf self.now pass.old }
        ensures { HasCalledIn (B.trie B.the) K.is_valid K.word_of V.is_valid V.word_of self.now
            pass.old pass.new (call_predecessor (K.word_of key.now)) (order_reply Reply.Pair result) }
    {
        told_neighbour(self.read(alloc, pass, Request::Predecessor { key: *key }))
    }

    /// The first pairs by rising key with keys from `low` to `high`, both included, and at most
    /// `most` of them, 64 at the most. It takes nothing of the pass's share; memory for these pairs,
    /// and where the lists of what it looks at, which the pass keeps from one ordered read to the
    /// next, have to grow. If it asks for no pairs it makes no step, and leaves the pass as it was,
    /// but for these lists.
    pub fn range(
        &self,
        alloc: Global,
        pass: &mut Pass<Dict<K, V, B>>,
        low: &K,
        high: &K,
        most: usize,
    ) -> Result<Vec<(K, V)>, OrderFault>
        requires pass { IsOf self.now pass.old }
        requires few { most ≤ 64 }
        ensures { HasCalledIn (B.trie B.the) K.is_valid K.word_of V.is_valid V.word_of self.now
            pass.old pass.new (Range (K.word_of low.now) (K.word_of high.now) most)
            (order_reply Reply.Pairs result) }
    {
        let (low, high, most) = (*low, *high, most as u32);
        match self.read(alloc, pass, Request::Range { low, high, most }) {
            Reply::Pairs(pairs) => Ok(pairs),
            Reply::Contended { node, scx } => Err(OrderFault::Contended { node, scx }),
            Reply::NoMemory => Err(OrderFault::NoMemory),
            Reply::Value(_) | Reply::Pair(_) | Reply::Full(_) => unreachable!(),
        }
    }

    /// Makes an edit of a key.
    #[inline(always)]
    fn edit_at_key<R: EditRule>(
        &self,
        pass: &mut Pass<Dict<K, V, B>>,
        key: u64,
        rule: R,
    ) -> Result<Option<V>, UpdateFault>
        requires pass { IsOf self.now pass.old }
        requires typed { IsTypedCall (IsWordOf K.is_valid K.word_of) (IsWordOf V.is_valid V.word_of)
            (Edit (Key key) (R.rule rule)) }
        ensures { HasCalledIn (B.trie B.the) K.is_valid K.word_of V.is_valid V.word_of self.now
            pass.old pass.new (Edit (Key key) (R.rule rule)) (update_reply Reply.Value result) }
    {
        let goal = AtKey(key);
        told_value(self.edit(pass, KeyEdit { goal, rule }))
    }

    /// Makes an edit.
    #[inline(always)]
    fn edit<G: EditGoal, R: EditRule>(
        &self,
        pass: &mut Pass<Dict<K, V, B>>,
        edit: KeyEdit<G, R>,
    ) -> Reply<K, V>
        requires pass { IsOf self.now pass.old }
        requires typed { IsTypedCall (IsWordOf K.is_valid K.word_of) (IsWordOf V.is_valid V.word_of)
            (edit_call G.goal R.rule edit) }
        requires small { IsSmallCall (edit_call G.goal R.rule edit) }
        ensures { HasCalledIn (B.trie B.the) K.is_valid K.word_of V.is_valid V.word_of self.now
            pass.old pass.new (edit_call G.goal R.rule edit) result }
    {
        let edit = KeyEdit {
            goal: GoalIn {
                goal: edit.goal,
                balance: B::the(),
            },
            rule: edit.rule,
        };
        unborn_stays_out();
        let number = pass.taken();
        let (from, _) = pass.share.next();
        let hand = Hand {
            words: &self.words,
            plan: &self.plan,
            number,
            size: Dict::<K, V, B>::node_size(),
        };
        let nothing = Share::of_run(NodeNo(0), 0, ScxNo(0), 0);
        let share = replace(&mut pass.share, nothing);
        let seat = &mut pass.seat;
        let (told, share) = calls::make(hand, seat, share, self.tries, edit);
        let (to, _) = share.next();
        pass.share = share;
        pass.blamed.note_reply(&told);
        note_lost::<K, V, B>(&mut pass.kept, &told, from, to);
        told
    }

    /// Makes an ordered read.
    #[inline(always)]
    fn read(
        &self,
        alloc: Global,
        pass: &mut Pass<Dict<K, V, B>>,
        request: Request<K, V>,
    ) -> Reply<K, V>
        requires pass { IsOf self.now pass.old }
        requires few { AsksForFew request }
        requires ordered { KeepsLists (as_map_call K.word_of V.word_of request) }
        ensures { HasCalledIn (B.trie B.the) K.is_valid K.word_of V.is_valid V.word_of self.now
            pass.old pass.new (as_map_call K.word_of V.word_of request) result }
    {
        let number = pass.taken();
        let hand = Hand {
            words: &self.words,
            plan: &self.plan,
            number,
            size: Dict::<K, V, B>::node_size(),
        };
        let (seat, room) = (&mut pass.seat, &mut pass.room);
        let reply = calls::read(hand, seat, room, alloc, self.tries, request);
        pass.blamed.note_reply(&reply);
        reply
    }
}
