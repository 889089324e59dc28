//! A dictionary is ended by all its passes at once.
ghost use Rattle.std.specs.Prelude.{◌≡◌, ◌↔◌, false, Some, IfSome, IfNone, IfOk, IsTrue, map, vec_len};
ghost use Rattle.std.specs.Arc.{arc_value};
ghost use Rattle.std.specs.List.{All};
ghost use Rattle.tables.specs.Passes.{Ground, IsOf};
ghost use Rattle.capi.specs.Left.{AreLeftByAll};
ghost use Rattle.capi.specs.Made.{IsHeldOf};
ghost use Rattle.capi.specs.Ends.{AreHeld, AreOfOne, HaveEndedWith, IsEmpty, IsIn, IsOfTrie, are_lasting, held_in, pass_in};

use crate::client::OwnedPass;
use crate::end_lasting::{end_lasting_tree, end_lasting_trie};
use crate::handle::{Handle, HandleSlot};
use crate::held::{Held, Numbers};
use crate::presence::Presence;
use regnubas::{ByBits, ByOrder, FilledOnce, Forest, NoMemory, Pass};
use std::alloc::Global;
use std::sync::Arc;

/// How many passes the dictionary has of these handles, if each of them holds one.
pub(crate) fn all_of(alloc: Global, passes: &mut [HandleSlot]) -> Option<u32>
    ensures same { held_in passes.new ≡ held_in passes.old }
    ensures none { IfNone result (¬ AreHeld (held_in passes.old)) }
    ensures held { IfSome result (λ n. AreHeld (held_in passes.old)) }
    ensures some { (f : Ground) → All (IsIn f) (held_in passes.old)
        → IfSome result (λ n. (n ≡ f.layout.passes) × All (IsHeldOf f) (held_in passes.old)) }
{
    let mut all = None;
    for place in passes.iter_mut() {
        let Some(told) = place.handle.all(alloc) else {
            return None;
        };
        all = Some(told);
    }
    all
}

/// Ends the dictionary whose passes these handles hold, and answers its pairs. It is gone where
/// they are not all there, or an allocation was refused.
pub(crate) fn end(alloc: Global, passes: &mut [HandleSlot]) -> Option<Vec<(u64, u128)>>
    requires { AreOfOne (held_in passes.old) }
    ensures empty { All IsEmpty (held_in passes.new) }
    ensures left { IfSome result (λ pairs. HaveEndedWith (held_in passes.old) pairs.items) }
{
    let lasting = are_lasting(alloc, passes);
    let trie = are_of_trie(alloc, passes);
    match (lasting, trie) {
        (false, false) => end_tree(alloc, passes),
        (false, true) => end_trie(alloc, passes),
        (true, false) => end_lasting_tree(alloc, passes),
        (true, true) => end_lasting_trie(alloc, passes),
    }
}

/// Whether the dictionary of these handles lasts: the first of them holds a pass of one that does.
fn are_lasting(alloc: Global, passes: &mut [HandleSlot]) -> bool
    ensures same { held_in passes.new ≡ held_in passes.old }
    ensures told { result ≡ are_lasting (held_in passes.old) }
{
    if passes.is_empty() {
        return false;
    }
    passes[0].handle.lasts(alloc)
}

/// Whether the dictionary of these handles is a trie: each of them holds a pass of one.
pub(crate) fn are_of_trie(alloc: Global, passes: &mut [HandleSlot]) -> bool
    ensures same { held_in passes.new ≡ held_in passes.old }
    ensures told { IsTrue result ↔ All IsOfTrie (held_in passes.old) }
{
    for place in passes.iter_mut() {
        let trie = place.handle.is_trie(alloc);
        if !trie {
            return false;
        }
    }
    true
}

/// The same of a tree.
fn end_tree(alloc: Global, passes: &mut [HandleSlot]) -> Option<Vec<(u64, u128)>>
    requires one { AreOfOne (held_in passes.old) }
    requires tree { ¬ All IsOfTrie (held_in passes.old) }
    requires once { are_lasting (held_in passes.old) ≡ false }
    ensures empty { All IsEmpty (held_in passes.new) }
    ensures left { IfSome result (λ pairs. HaveEndedWith (held_in passes.old) pairs.items) }
{
    let places = take_out(alloc, passes)?;
    let (forest, passes) = gather_tree(alloc, places)?;
    end_by_all(alloc, forest, passes)
}

/// The same of a trie.
fn end_trie(alloc: Global, passes: &mut [HandleSlot]) -> Option<Vec<(u64, u128)>>
    requires one { AreOfOne (held_in passes.old) }
    requires trie { All IsOfTrie (held_in passes.old) }
    requires once { are_lasting (held_in passes.old) ≡ false }
    ensures empty { All IsEmpty (held_in passes.new) }
    ensures left { IfSome result (λ pairs. HaveEndedWith (held_in passes.old) pairs.items) }
{
    let places = take_out(alloc, passes)?;
    let (forest, passes) = gather_trie(alloc, places)?;
    end_by_all(alloc, forest, passes)
}

/// Takes all handles out, and leaves empty ones.
pub(crate) fn take_out(alloc: Global, passes: &mut [HandleSlot]) -> Option<Vec<HandleSlot>>
    ensures empty { All IsEmpty (held_in passes.new) }
    ensures took { IfSome result (λ places. places.items ≡ passes.old) }
{
    match none_held(alloc, passes.len()) {
        Ok(mut places) => {
            passes.swap_with_slice(&mut places);
            Some(places)
        }
        Err(NoMemory) => {
            leave_all(alloc, passes);
            None
        }
    }
}

/// `count` handles that hold nothing.
fn none_held(alloc: Global, count: usize) -> Result<Vec<HandleSlot>, NoMemory>
    ensures len { IfOk result (λ places. vec_len places ≡ count) }
    ensures empty { IfOk result (λ places. All IsEmpty (held_in places.items)) }
{
    let mut places = Vec::new(alloc);
    for _number in 0..count {
        places.push(HandleSlot::of(Handle::empty(alloc)))?;
    }
    Ok(places)
}

/// All passes leave.
fn leave_all(alloc: Global, passes: &mut [HandleSlot])
    ensures { All IsEmpty (held_in passes.new) }
{
    for place in passes.iter_mut() {
        place.handle.leave(alloc);
    }
}

/// The passes of a tree that these handles hold, and their forest, which nobody else shares.
fn gather_tree(
    alloc: Global,
    places: Vec<HandleSlot>,
) -> Option<(Forest<Numbers<ByOrder>>, Vec<Pass<Numbers<ByOrder>>>)>
    requires { AreOfOne (held_in places.items) }
    ensures of { IfSome result (λ r. All (IsOf r.0) r.1.items) }
    ensures are { IfSome result (λ r. map pass_in (held_in places.items) ≡ map Some r.1.items) }
{
    let (owner, passes) = take_tree(alloc, places)?;
    match Arc::try_unwrap(owner?) {
        Ok(forest) => Some((forest, passes)),
        Err(_) => None,
    }
}

/// The passes of a tree that these handles hold, and the last one's owner of the forest.
fn take_tree(
    alloc: Global,
    places: Vec<HandleSlot>,
) -> Option<
    (
        Option<Arc<Forest<Numbers<ByOrder>>>>,
        Vec<Pass<Numbers<ByOrder>>>,
    ),
>
    ensures are { IfSome result (λ r. map pass_in (held_in places.items) ≡ map Some r.1.items) }
    ensures owner { IfSome result (λ r. (f : Ground) → All (IsIn f) (held_in places.items) → IfSome r.0 (λ a. arc_value a ≡ f)) }
{
    let mut passes = Vec::new(alloc);
    let mut owner = None;
    for place in places {
        let HandleSlot { handle, unused: _ } = place;
        let Some(client) = handle.into_box() else {
            return None;
        };
        let Presence::Here(own) = Box::into_inner(client) else {
            return None;
        };
        let OwnedPass::Tree(held) = own else {
            return None;
        };
        let Held {
            forest,
            pass,
            all: _,
        } = held;
        let Ok(()) = passes.push(pass) else {
            return None;
        };
        owner = Some(forest);
    }
    Some((owner, passes))
}

/// The passes of a trie that these handles hold, and their forest, which nobody else shares.
fn gather_trie(
    alloc: Global,
    places: Vec<HandleSlot>,
) -> Option<(Forest<Numbers<ByBits>>, Vec<Pass<Numbers<ByBits>>>)>
    requires { AreOfOne (held_in places.items) }
    ensures of { IfSome result (λ r. All (IsOf r.0) r.1.items) }
    ensures are { IfSome result (λ r. map pass_in (held_in places.items) ≡ map Some r.1.items) }
{
    let (owner, passes) = take_trie(alloc, places)?;
    match Arc::try_unwrap(owner?) {
        Ok(forest) => Some((forest, passes)),
        Err(_) => None,
    }
}

/// The passes of a trie that these handles hold, and the last one's owner of the forest.
fn take_trie(
    alloc: Global,
    places: Vec<HandleSlot>,
) -> Option<
    (
        Option<Arc<Forest<Numbers<ByBits>>>>,
        Vec<Pass<Numbers<ByBits>>>,
    ),
>
    ensures are { IfSome result (λ r. map pass_in (held_in places.items) ≡ map Some r.1.items) }
    ensures owner { IfSome result (λ r. (f : Ground) → All (IsIn f) (held_in places.items) → IfSome r.0 (λ a. arc_value a ≡ f)) }
{
    let mut passes = Vec::new(alloc);
    let mut owner = None;
    for place in places {
        let HandleSlot { handle, unused: _ } = place;
        let Some(client) = handle.into_box() else {
            return None;
        };
        let Presence::Here(own) = Box::into_inner(client) else {
            return None;
        };
        let OwnedPass::Trie(held) = own else {
            return None;
        };
        let Held {
            forest,
            pass,
            all: _,
        } = held;
        let Ok(()) = passes.push(pass) else {
            return None;
        };
        owner = Some(forest);
    }
    Some((owner, passes))
}

/// Ends a forest by its passes, if all are there, and answers its pairs.
fn end_by_all<B: FilledOnce>(
    alloc: Global,
    forest: Forest<Numbers<B>>,
    passes: Vec<Pass<Numbers<B>>>,
) -> Option<Vec<(u64, u128)>>
    requires { All (IsOf forest) passes.items }
    ensures { IfSome result (λ pairs. AreLeftByAll forest.layout passes.items pairs.items) }
{
    if !forest.all_back(&passes) {
        return None;
    }
    match forest.close(passes).pairs(alloc) {
        Ok(pairs) => Some(pairs),
        Err(NoMemory) => None,
    }
}
