//! What a map's table begins with.
ghost use Rattle.std.specs.Prelude.{◌≡◌, ◌^◌, ◌≤◌, ◌<◌, length, vec_len, IfOk};
ghost use Rattle.ordered_map.specs.OrderedMap.{AllBelow, IsRising};
ghost use Rattle.template.specs.Balance.{map_mode};
ghost use Rattle.arena.specs.Layout.{IsWord};
ghost use Rattle.arena.specs.PlainWords.{word_at};
ghost use Rattle.arena.specs.declared.word.Word.{Word};
ghost use Rattle.planting.specs.Plantings.{nothing_planted, opening_for, IsGrownOver, IsPlantingOf};
ghost use Rattle.planting.specs.Seedlings.{pieces_of};

use crate::seedling::Seedling;
use crate::table::plant;
use crate::trees::grow;
use arena::{Layout, Mode, NoMemory, PlainWords};
use ordered_map::Pair;
use std::alloc::Global;
use std::fmt;
use std::marker::Model;
use template::map_mode;

/// The first pairs of a map, and the nodes that show them from the start.
#[derive(Drop)]
pub struct Planting {
    mode: Mode,
    pairs: Vec<Pair>,
    nodes: Vec<Seedling>,
}

impl Model for Planting {
    ghost use Rattle.planting.specs.Plantings.{PlantingView};
    ghost use Rattle.planting.specs.Seedlings.{pieces_of};

    ghost Value = { PlantingView };

    ghost view = { λ p. record {
      mode = p.mode;
      pairs = p.pairs.items;
      nodes = pieces_of p.pairs.items p.nodes.items;
    } };
}

impl Planting {
    /// Nothing is planted: a map of this mode is empty at the start, and cells are 0.
    pub fn none(alloc: Global, mode: Mode) -> Planting
        ensures { result ≡ nothing_planted mode }
    {
        Planting {
            mode,
            pairs: Vec::new(alloc),
            nodes: Vec::new(alloc),
        }
    }

    /// These pairs are planted, as a trie or a tree. The only error is want of memory.
    pub fn of_pairs(alloc: Global, trie: bool, pairs: Vec<Pair>) -> Result<Planting, NoMemory>
        requires rising { IsRising pairs.items }
        requires keys { AllBelow (2 ^ 64) pairs.items }
        requires few { vec_len pairs ≤ 33554432 }
        ensures { IfOk result (IsPlantingOf (map_mode trie) pairs.items) }
    {
        let mode = map_mode(trie);
        if pairs.is_empty() {
            return Ok(Planting::none(alloc, mode));
        }
        let nodes = nodes_over(alloc, &pairs, trie)?;
        Ok(Planting { mode, pairs, nodes })
    }

    /// The words of a table as they are at the start. The only error is want of memory.
    pub fn words(&self, alloc: Global, layout: &Layout) -> Result<PlainWords, NoMemory>
        requires mode { layout.now.mode ≡ self.now.mode }
        requires room { (opening_for self.now).planted ≤ layout.now.planted }
        ensures layout { IfOk result (λ words. words.layout ≡ layout.now) }
        ensures words { IfOk result (λ words. (w : Word) → IsWord layout.now w →
            word_at words w ≡ (opening_for self.now).words w) }
    {
        let mut words = PlainWords::new(alloc, layout)?;
        if !self.nodes.is_empty() && self.mode.is_map() {
            plant(&mut words, &self.nodes, &self.pairs);
        }
        Ok(words)
    }

    /// How many nodes are planted.
    pub fn count(&self) -> usize
        ensures { result ≡ length self.now.nodes }
    {
        self.nodes.len()
    }
}

/// The nodes over these pairs, and the fork above all keys.
fn nodes_over(alloc: Global, pairs: &[Pair], trie: bool) -> Result<Vec<Seedling>, NoMemory>
    requires some { 0 < length pairs.now }
    requires rising { IsRising pairs.now }
    requires keys { AllBelow (2 ^ 64) pairs.now }
    requires few { length pairs.now ≤ 33554432 }
    ensures { IfOk result (λ nodes. IsGrownOver trie pairs.now (pieces_of pairs.now nodes.items)) }
{
    // As many as a tree has; a trie may have more.
    let mut nodes = Vec::with_capacity(alloc, 2 * ((pairs.len() + 3) / 4))?;
    let top = grow(&mut nodes, pairs, 0, trie, 2)?;
    nodes.push(Seedling::Fork {
        level: 1,
        class: 1,
        key: 0,
        left: top,
        right: 1,
    })?;
    Ok(nodes)
}

impl fmt::Debug for Planting {
    fn fmt<W: fmt::Write>(&self, f: &mut fmt::Formatter<W>) -> fmt::Result {
        f.debug_struct("Planting")
            .field("pairs", &self.pairs.len())
            .field("nodes", &self.nodes.len())
            .finish_non_exhaustive()
    }
}
