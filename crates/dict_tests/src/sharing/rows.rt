//! Rows of tables: calls, and what is to come of them.
ghost use Rattle.tables.specs.Passes.{IsOf};

use super::call::Call;
use dict::{Dict, Reply, WordKey, WordValue};
use forest::{Forest, Pass};
use std::alloc::Global;
use std::fmt::Debug;
use std::process::Abort;

/// What a call answers.
#[derive(Clone, Copy)]
pub(super) enum Says<K, V, L> {
    Value(Option<V>),
    Pair(Option<(K, V)>),
    Pairs(L),
}

/// What a call is to answer.
pub(super) type Told<'a, K, V> = Says<K, V, &'a [(K, V)]>;

impl<K: PartialEq, V: PartialEq> Says<K, V, &[(K, V)]> {
    /// Whether a reply says it.
    pub(super) fn is_of(&self, reply: &Reply<K, V>) -> bool {
        match (self, reply) {
            (Says::Value(want), Reply::Value(old)) => want == old,
            (Says::Pair(want), Reply::Pair(pair)) => want == pair,
            (Says::Pairs(want), Reply::Pairs(pairs)) => *want == pairs.as_slice(),
            _ => false,
        }
    }
}

/// A call, what it is to answer, and how many nodes and SCX-records it leaves of its pass's share.
pub(super) type Row<'a, K, V> = (Call<K, V>, Told<'a, K, V>, (u32, u32));

/// A pass makes the calls of these rows, and each is as its row says.
pub(super) fn make_all<K: WordKey + Debug, V: WordValue + PartialEq + Debug>(
    rt: &impl Abort,
    alloc: Global,
    forest: &Forest<Dict<K, V>>,
    pass: &mut Pass<Dict<K, V>>,
    rows: &[Row<'_, K, V>],
)
    requires { IsOf forest.now pass.old }
    ensures { IsOf forest.now pass.new }
{
    for (call, told, left) in rows {
        let reply = call.make(alloc, forest, pass);
        assert!(rt; told.is_of(&reply) && pass.left() == *left, "{call:?}");
    }
}
