//! A dictionary that lasts is ended by all its passes at once.
ghost use Rattle.std.specs.Prelude.{◌≡◌, Some, true, IfSome, map};
ghost use Rattle.std.specs.Arc.{arc_value};
ghost use Rattle.std.specs.List.{All};
ghost use Rattle.tables.specs.Passes.{Ground, IsOf};
ghost use Rattle.capi.specs.Left.{AreLeftByLasting};
ghost use Rattle.capi.specs.Ends.{AreOfOne, HaveEndedWith, IsEmpty, IsIn, are_lasting, held_in, pass_in};

use crate::client::OwnedPass;
use crate::end::take_out;
use crate::handle::HandleSlot;
use crate::held::{Held, Numbers};
use crate::presence::Presence;
use regnubas::{ByBits, ByOrder, Forest, Lasts, NoMemory, Pass};
use std::alloc::Global;
use std::sync::Arc;
use template::FixedBalance;

/// Ends the dictionary that lasts, a tree, whose passes these handles hold, and answers its pairs.
pub(crate) fn end_lasting_tree(alloc: Global, passes: &mut [HandleSlot]) -> Option<Vec<(u64, u128)>>
    requires one { AreOfOne (held_in passes.old) }
    requires lasting { are_lasting (held_in passes.old) ≡ true }
    ensures empty { All IsEmpty (held_in passes.new) }
    ensures left { IfSome result (λ pairs. HaveEndedWith (held_in passes.old) pairs.items) }
{
    let places = take_out(alloc, passes)?;
    let (forest, passes) = gather_lasting_tree(alloc, places)?;
    end_lasting(alloc, forest, passes)
}

/// The same of a trie.
pub(crate) fn end_lasting_trie(alloc: Global, passes: &mut [HandleSlot]) -> Option<Vec<(u64, u128)>>
    requires one { AreOfOne (held_in passes.old) }
    requires lasting { are_lasting (held_in passes.old) ≡ true }
    ensures empty { All IsEmpty (held_in passes.new) }
    ensures left { IfSome result (λ pairs. HaveEndedWith (held_in passes.old) pairs.items) }
{
    let places = take_out(alloc, passes)?;
    let (forest, passes) = gather_lasting_trie(alloc, places)?;
    end_lasting(alloc, forest, passes)
}

/// The passes of a tree that these handles hold, and their forest, which nobody else shares.
fn gather_lasting_tree(
    alloc: Global,
    places: Vec<HandleSlot>,
) -> Option<
    (
        Forest<Numbers<Lasts<ByOrder>>>,
        Vec<Pass<Numbers<Lasts<ByOrder>>>>,
    ),
>
    requires { AreOfOne (held_in places.items) }
    ensures of { IfSome result (λ r. All (IsOf r.0) r.1.items) }
    ensures are { IfSome result (λ r. map pass_in (held_in places.items) ≡ map Some r.1.items) }
{
    let (owner, passes) = take_lasting_tree(alloc, places)?;
    match Arc::try_unwrap(owner?) {
        Ok(forest) => Some((forest, passes)),
        Err(_) => None,
    }
}

/// The passes of a tree that these handles hold, and the last one's owner of the forest.
fn take_lasting_tree(
    alloc: Global,
    places: Vec<HandleSlot>,
) -> Option<
    (
        Option<Arc<Forest<Numbers<Lasts<ByOrder>>>>>,
        Vec<Pass<Numbers<Lasts<ByOrder>>>>,
    ),
>
    ensures are { IfSome result (λ r. map pass_in (held_in places.items) ≡ map Some r.1.items) }
    ensures owner { IfSome result (λ r. (f : Ground) → All (IsIn f) (held_in places.items) → IfSome r.0 (λ a. arc_value a ≡ f)) }
{
    let mut passes = Vec::new(alloc);
    let mut owner = None;
    for place in places {
        let HandleSlot { handle, unused: _ } = place;
        let Some(client) = handle.into_box() else {
            return None;
        };
        let Presence::Here(own) = Box::into_inner(client) else {
            return None;
        };
        let OwnedPass::LastingTree(held) = own else {
            return None;
        };
        let Held {
            forest,
            pass,
            all: _,
        } = held;
        let Ok(()) = passes.push(pass) else {
            return None;
        };
        owner = Some(forest);
    }
    Some((owner, passes))
}

/// The passes of a trie that these handles hold, and their forest, which nobody else shares.
fn gather_lasting_trie(
    alloc: Global,
    places: Vec<HandleSlot>,
) -> Option<
    (
        Forest<Numbers<Lasts<ByBits>>>,
        Vec<Pass<Numbers<Lasts<ByBits>>>>,
    ),
>
    requires { AreOfOne (held_in places.items) }
    ensures of { IfSome result (λ r. All (IsOf r.0) r.1.items) }
    ensures are { IfSome result (λ r. map pass_in (held_in places.items) ≡ map Some r.1.items) }
{
    let (owner, passes) = take_lasting_trie(alloc, places)?;
    match Arc::try_unwrap(owner?) {
        Ok(forest) => Some((forest, passes)),
        Err(_) => None,
    }
}

/// The passes of a trie that these handles hold, and the last one's owner of the forest.
fn take_lasting_trie(
    alloc: Global,
    places: Vec<HandleSlot>,
) -> Option<
    (
        Option<Arc<Forest<Numbers<Lasts<ByBits>>>>>,
        Vec<Pass<Numbers<Lasts<ByBits>>>>,
    ),
>
    ensures are { IfSome result (λ r. map pass_in (held_in places.items) ≡ map Some r.1.items) }
    ensures owner { IfSome result (λ r. (f : Ground) → All (IsIn f) (held_in places.items) → IfSome r.0 (λ a. arc_value a ≡ f)) }
{
    let mut passes = Vec::new(alloc);
    let mut owner = None;
    for place in places {
        let HandleSlot { handle, unused: _ } = place;
        let Some(client) = handle.into_box() else {
            return None;
        };
        let Presence::Here(own) = Box::into_inner(client) else {
            return None;
        };
        let OwnedPass::LastingTrie(held) = own else {
            return None;
        };
        let Held {
            forest,
            pass,
            all: _,
        } = held;
        let Ok(()) = passes.push(pass) else {
            return None;
        };
        owner = Some(forest);
    }
    Some((owner, passes))
}

/// Ends a forest by its passes, if all are there, and answers its pairs.
fn end_lasting<B: FixedBalance>(
    alloc: Global,
    forest: Forest<Numbers<Lasts<B>>>,
    passes: Vec<Pass<Numbers<Lasts<B>>>>,
) -> Option<Vec<(u64, u128)>>
    requires { All (IsOf forest) passes.items }
    ensures { IfSome result (λ pairs. AreLeftByLasting forest.layout passes.items pairs.items) }
{
    if !forest.all_back(&passes) {
        return None;
    }
    match forest.close(passes).pairs(alloc) {
        Ok(pairs) => Some(pairs),
        Err(NoMemory) => None,
    }
}
