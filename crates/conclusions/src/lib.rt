//! What callers of a dictionary can conclude of several calls from their clauses alone.
#![tactic(auto)]

ghost use Rattle.std.specs.Prelude.{◌≡◌, ◌↔◌, Err, Some, IfErr, IfOk, OnOk, map};
ghost use Rattle.regnubas.specs.Limits.{IsAccepted, IsLayoutOf};
ghost use Rattle.regnubas.specs.OrderedMap.{call_insert, get};
ghost use Rattle.regnubas.specs.Passes.{AreNew, IsOf};
ghost use Rattle.regnubas.specs.Plantings.{nothing_planted};
ghost use Rattle.regnubas.specs.Replies.{word_pair};
ghost use Rattle.regnubas.specs.Types.{Trie as TrieMode};
ghost use Rattle.conclusions.specs.Together.{HasReadValue, HasSet, HasSetAt, IsUpdateRefused};
ghost use Rattle.conclusions.specs.Tries.{IsLow};

use regnubas::{
    Dict, FilledOnce, Forest, Limits, NewFault, PairsFault, Pass, Trie, UpdateFault, map_laws_hold,
    trie_laws_hold, version_laws_hold,
};
use std::alloc::Global;

/// From numbers to numbers, in a tree or a trie.
pub type Numbers<B> = Dict<u64, u64, B>;

/// The only pass of a dictionary sets a key, and finds what it has set.
pub fn set_then_get<B: FilledOnce>(
    map: &Forest<Numbers<B>>,
    pass: &mut Pass<Numbers<B>>,
    key: u64,
    value: u64,
) -> Result<Option<u64>, UpdateFault>
    requires of { IsOf map.now pass.old }
    requires one { map.now.layout.passes ≡ 1 }
    ensures set { OnOk result (HasSet pass.old pass.new key value) }
    ensures read { OnOk result (HasReadValue pass.old pass.new key value) }
    ensures found { IfOk result (λ found. found ≡ Some value) }
{
    version_laws_hold::<u64, u64>();
    map_laws_hold();
    pass.number();
    map.insert(pass, key, value)?;
    Ok(map.get(pass, &key))
}

/// The only pass of a dictionary that begins with pairs finds the value that a key has among them.
pub fn begin_then_get<B: FilledOnce>(
    alloc: Global,
    limits: Limits,
    pairs: &[(u64, u64)],
    key: u64,
) -> Result<Option<u64>, PairsFault>
    requires { limits.passes ≡ 1 }
    ensures { IfOk result (λ found. found ≡ get key (map (word_pair (λ k. k) (λ v. v)) pairs.now)) }
{
    version_laws_hold::<u64, u64>();
    let (forest, mut passes) = Forest::<Numbers<B>>::of_pairs(alloc, limits, pairs)?;
    match passes.pop() {
        Some(mut pass) => Ok(forest.get(&mut pass, &key)),
        None => unreachable!(),
    }
}

/// Of two passes, the only ones, one sets a key, and the other finds the value. They meet before,
/// so that what the other had done is known to be older; between the two calls, so that the get is
/// later; and at the end, so that nothing else is known to have happened between.
pub fn set_for_another<B: FilledOnce>(
    map: &Forest<Numbers<B>>,
    one: &mut Pass<Numbers<B>>,
    other: &mut Pass<Numbers<B>>,
    key: u64,
    value: u64,
) -> Result<Option<u64>, UpdateFault>
    requires one { IsOf map.now one.old }
    requires other { IsOf map.now other.old }
    requires two { map.now.layout.passes ≡ 2 }
    ensures set { OnOk result (HasSet one.old one.new key value) }
    ensures read { OnOk result (HasReadValue other.old other.new key value) }
    ensures found { IfOk result (λ found. found ≡ Some value) }
{
    version_laws_hold::<u64, u64>();
    map_laws_hold();
    one.number();
    other.number();
    map.meet(one, other);
    map.insert(one, key, value)?;
    map.meet(one, other);
    let found = map.get(other, &key);
    map.meet(one, other);
    Ok(found)
}

/// A trie is laid out as one. Refused are limits out of range, these always, and want of memory.
pub fn new_trie(
    alloc: Global,
    limits: Limits,
) -> Result<(Forest<Trie<u64, u64>>, Vec<Pass<Trie<u64, u64>>>), NewFault>
    ensures accepted { OnOk result (IsAccepted limits) }
    ensures refused { (result ≡ Err NewFault.Limits) ↔ (¬ IsAccepted limits) }
    ensures layout { IfOk result (λ made. IsLayoutOf limits TrieMode made.0.layout) }
    ensures tries { IfOk result (λ made. made.0.tries ≡ limits.tries) }
    ensures empty { IfOk result (λ made. made.0.planting ≡ nothing_planted TrieMode) }
    ensures passes { IfOk result (λ made. AreNew made.0 made.1.items) }
{
    Forest::<Trie<u64, u64>>::new(alloc, limits)
}

/// Sets a key of a trie, and returns the value that it had just before; or says why it was refused.
/// After it no leaf of the trie is more than 66 fields below the root.
pub fn insert_low(
    map: &Forest<Trie<u64, u64>>,
    pass: &mut Pass<Trie<u64, u64>>,
    key: u64,
    value: u64,
) -> Result<Option<u64>, UpdateFault>
    requires of { IsOf map.now pass.old }
    ensures low { IsLow pass.new }
    ensures set { IfOk result (HasSetAt pass.old pass.new key value) }
    ensures refused { IfErr result
        (IsUpdateRefused map.now.tries pass.old pass.new (call_insert key value)) }
{
    version_laws_hold::<u64, u64>();
    map_laws_hold();
    trie_laws_hold();
    map.insert(pass, key, value)
}
