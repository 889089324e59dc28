//! How many words a table has whose records come back.
ghost use Rattle.std.specs.Prelude.{◌≡◌, ◌<◌, ◌≤◌, ℕ, length, slice_index, IfOk, vec_len};
ghost use Rattle.tables.specs.LastingTables.{HasWordsFor, MayTakeTurns};

use crate::rule::{Turns, power_of_two};
use arena::{Layout, NoMemory};
use std::alloc::Global;

/// So many words that each name's word has a place, and each pass a line of the cache in which its
/// rests are counted.
pub fn size_in_turns(layout: &Layout, turns: &Turns) -> usize
    requires { MayTakeTurns layout.now turns.now }
    ensures { HasWordsFor layout.now turns.now result }
{
    let size = layout.mode.node_size();
    let nodes = size * layout.all_nodes() as usize;
    let named_nodes = size * power_of_two(turns.node_bits) as usize;
    let named_scx = nodes + 14 * power_of_two(turns.scx_bits) as usize;
    let rests = nodes + 14 * layout.all_scx() as usize + 8 * layout.passes as usize;
    named_nodes.max(named_scx).max(rests)
}

/// These words, and zeros behind them: so many in all.
pub fn with_zeros(alloc: Global, words: &[u64], count: usize) -> Result<Vec<u64>, NoMemory>
    requires { length words.now ≤ count }
    ensures size { IfOk result (λ all. length all.items ≡ count) }
    ensures words { IfOk result (λ all. (k : ℕ) → k < length words.now →
        slice_index all.items k ≡ slice_index words.now k) }
    ensures zeros { IfOk result (λ all. (k : ℕ) → length words.now ≤ k → k < count →
        slice_index all.items k ≡ 0) }
{
    let mut all = Vec::with_capacity(alloc, count)?;
    all.extend_from_slice(words)?;
    all.resize(count, 0)?;
    Ok(all)
}
