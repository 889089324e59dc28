//! A dictionary that lasts is made, and its passes are handed out.
ghost use Rattle.std.specs.Prelude.{◌≡◌, ◌↔◌, Err, Some, IfOk, map, vec_len};
ghost use Rattle.std.specs.List.{All};
ghost use Rattle.std.specs.Option.{option_map};
ghost use Rattle.std.specs.Arc.{arc_value};
ghost use Rattle.arena.specs.Limits.{IsAccepted};
ghost use Rattle.arena.specs.declared.limits.Mode.TheVariants.{Tree, Trie};
ghost use Rattle.tables.specs.Passes.{IsOf};
ghost use Rattle.capi.specs.Made.{IsHeldOf, AreMadeLasting, pass_at};
ghost use Rattle.capi.specs.Owned.{pass_of};
ghost use Rattle.capi.specs.Presence.{here};
ghost use Rattle.regnubas.specs.Balance.{map_mode};

use crate::client::OwnedPass;
use crate::handle::{Handle, HandleSlot};
use crate::held::{Held, Numbers};
use crate::presence::Presence;
use regnubas::{ByBits, ByOrder, Forest, Lasts, Limits, NewFault, NoMemory, Pass};
use std::alloc::Global;
use std::sync::Arc;

/// A place for each pass of a new dictionary that lasts, a trie or a tree, with a handle that
/// holds it.
pub(crate) fn open_lasting(
    alloc: Global,
    limits: Limits,
    trie: bool,
) -> Result<Vec<HandleSlot>, NewFault>
    ensures refused { (result ≡ Err NewFault.Limits) ↔ (¬ IsAccepted limits) }
    ensures made { IfOk result (λ places. AreMadeLasting (map_mode trie) limits places.items) }
    ensures count { IfOk result (λ places. vec_len places ≡ limits.passes) }
{
    if trie {
        open_lasting_trie(alloc, limits)
    } else {
        open_lasting_tree(alloc, limits)
    }
}

/// The same of a tree.
fn open_lasting_tree(alloc: Global, limits: Limits) -> Result<Vec<HandleSlot>, NewFault>
    ensures refused { (result ≡ Err NewFault.Limits) ↔ (¬ IsAccepted limits) }
    ensures made { IfOk result (λ places. AreMadeLasting Tree limits places.items) }
    ensures count { IfOk result (λ places. vec_len places ≡ limits.passes) }
{
    let (forest, passes) = match Forest::<Numbers<Lasts<ByOrder>>>::lasting(alloc, limits) {
        Ok(opened) => opened,
        Err(fault) => return Err(fault),
    };
    match hand_out_lasting_tree(alloc, forest, passes, limits.passes) {
        Ok(places) => Ok(places),
        Err(NoMemory) => Err(NewFault::NoMemory),
    }
}

/// A place for each of these passes of a tree.
fn hand_out_lasting_tree(
    alloc: Global,
    forest: Forest<Numbers<Lasts<ByOrder>>>,
    passes: Vec<Pass<Numbers<Lasts<ByOrder>>>>,
    all: u32,
) -> Result<Vec<HandleSlot>, NoMemory>
    requires passes { All (IsOf forest) passes.items }
    requires all { all ≡ forest.layout.passes }
    ensures count { IfOk result (λ places. vec_len places ≡ vec_len passes) }
    ensures of_forest { IfOk result (λ places. All (λ p. IsHeldOf forest p.handle.value) places.items) }
    ensures held { IfOk result (λ places. map pass_at places.items ≡ map Some passes.items) }
{
    let forest = Arc::new(alloc, forest)?;
    let mut places = Vec::new(alloc);
    for pass in passes {
        places.push(HandleSlot::of(hand_lasting_tree(alloc, &forest, pass, all)?))?;
    }
    Ok(places)
}

/// A handle of this pass.
fn hand_lasting_tree(
    alloc: Global,
    forest: &Arc<Forest<Numbers<Lasts<ByOrder>>>>,
    pass: Pass<Numbers<Lasts<ByOrder>>>,
    all: u32,
) -> Result<Handle, NoMemory>
    requires pass { IsOf (arc_value forest.now) pass }
    requires all { all ≡ (arc_value forest.now).layout.passes }
    ensures of_forest { IfOk result (λ h. IsHeldOf (arc_value forest.now) h.value) }
    ensures held { IfOk result (λ h. option_map pass_of (here h.value) ≡ Some pass) }
{
    let held = Held {
        forest: Arc::try_clone(forest)?,
        pass,
        all,
    };
    let client = Presence::Here(OwnedPass::LastingTree(held));
    Ok(Handle::holding(Box::new(alloc, client)?))
}

/// The same of a trie.
fn open_lasting_trie(alloc: Global, limits: Limits) -> Result<Vec<HandleSlot>, NewFault>
    ensures refused { (result ≡ Err NewFault.Limits) ↔ (¬ IsAccepted limits) }
    ensures made { IfOk result (λ places. AreMadeLasting Trie limits places.items) }
    ensures count { IfOk result (λ places. vec_len places ≡ limits.passes) }
{
    let (forest, passes) = match Forest::<Numbers<Lasts<ByBits>>>::lasting(alloc, limits) {
        Ok(opened) => opened,
        Err(fault) => return Err(fault),
    };
    match hand_out_lasting_trie(alloc, forest, passes, limits.passes) {
        Ok(places) => Ok(places),
        Err(NoMemory) => Err(NewFault::NoMemory),
    }
}

/// A place for each of these passes of a trie.
fn hand_out_lasting_trie(
    alloc: Global,
    forest: Forest<Numbers<Lasts<ByBits>>>,
    passes: Vec<Pass<Numbers<Lasts<ByBits>>>>,
    all: u32,
) -> Result<Vec<HandleSlot>, NoMemory>
    requires passes { All (IsOf forest) passes.items }
    requires all { all ≡ forest.layout.passes }
    ensures count { IfOk result (λ places. vec_len places ≡ vec_len passes) }
    ensures of_forest { IfOk result (λ places. All (λ p. IsHeldOf forest p.handle.value) places.items) }
    ensures held { IfOk result (λ places. map pass_at places.items ≡ map Some passes.items) }
{
    let forest = Arc::new(alloc, forest)?;
    let mut places = Vec::new(alloc);
    for pass in passes {
        places.push(HandleSlot::of(hand_lasting_trie(alloc, &forest, pass, all)?))?;
    }
    Ok(places)
}

/// A handle of this pass.
fn hand_lasting_trie(
    alloc: Global,
    forest: &Arc<Forest<Numbers<Lasts<ByBits>>>>,
    pass: Pass<Numbers<Lasts<ByBits>>>,
    all: u32,
) -> Result<Handle, NoMemory>
    requires pass { IsOf (arc_value forest.now) pass }
    requires all { all ≡ (arc_value forest.now).layout.passes }
    ensures of_forest { IfOk result (λ h. IsHeldOf (arc_value forest.now) h.value) }
    ensures held { IfOk result (λ h. option_map pass_of (here h.value) ≡ Some pass) }
{
    let held = Held {
        forest: Arc::try_clone(forest)?,
        pass,
        all,
    };
    let client = Presence::Here(OwnedPass::LastingTrie(held));
    Ok(Handle::holding(Box::new(alloc, client)?))
}
