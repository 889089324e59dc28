//! What is remembered of the rows, and what it says of their history.
ghost use Rattle.std.specs.Prelude.{◌≡◌, ℕ, ◌+◌, ◌<◌, ◌≤◌, ◌↔◌, IsTrue};
ghost use Rattle.arena.specs.Fills.{IsOwnNode, IsOwnScx, IsNamed, IsNamedScx, IsInField, IsTakenNode, IsTakenScx};
ghost use Rattle.arena.specs.History.{value};
ghost use Rattle.arena.specs.Lawful.{IsFrozen, HasWon};
ghost use Rattle.arena.specs.Layout.{all_nodes, all_scx, first_node, first_scx};
ghost use Rattle.arena.specs.ScxRecords.{count};
ghost use Rattle.judge.specs.Histories.{seen_history};
ghost use Rattle.judge.specs.Uses.{WasInField, WasInOtherNew};

use crate::judge::Judge;
use arena::{PassNo, Word};

/// What a word holds.
pub fn value_of(judge: &Judge, word: Word) -> u64
    ensures { result ≡ value (seen_history judge.now) word }
{
    if judge.words.layout().has(word) {
        judge.words.get(word)
    } else {
        0
    }
}

/// Whether a node of the table is named.
pub fn is_named_node(judge: &Judge, node: u64) -> bool
    requires { node < all_nodes judge.now.layout }
    ensures { IsTrue result ↔ IsNamed judge.now.layout (seen_history judge.now) node }
{
    judge.naming.has_node(node)
}

/// Whether a node of the table was there from the start, or a field of a named node has held it.
pub fn is_shown(judge: &Judge, node: u64) -> bool
    ensures shown { IsTrue result → IsInField judge.now.layout (seen_history judge.now) node }
    ensures inside { node < all_nodes judge.now.layout →
        IsInField judge.now.layout (seen_history judge.now) node → IsTrue result }
{
    judge.naming.has_shown(node)
}

/// Whether an info word has named an SCX-record.
pub fn is_named_scx(judge: &Judge, scx: u64) -> bool
    ensures { IsTrue result ↔ IsNamedScx (seen_history judge.now) scx }
{
    judge.naming.has_scx(scx)
}

/// Whether a field has held a node of the table.
pub fn was_in_field(judge: &Judge, node: u64) -> bool
    requires { node < all_nodes judge.now.layout }
    ensures { IsTrue result ↔ WasInField (seen_history judge.now) node }
{
    judge.uses.was_in_field(node)
}

/// Whether `new` of another SCX-record has held a node of the table.
pub fn was_in_other_new(judge: &Judge, user: u64, node: u64) -> bool
    requires { node < all_nodes judge.now.layout }
    ensures { IsTrue result ↔ WasInOtherNew (seen_history judge.now) user node }
{
    judge.uses.was_in_other_new(user, node)
}

/// How many of the nodes that an SCX-record covers were ever frozen for it: the first ones.
pub fn frozen_count(judge: &Judge, scx: u64) -> u8
    ensures { (j : ℕ) → j < count (seen_history judge.now) scx →
        IsFrozen (seen_history judge.now) scx j ↔ (j < result) }
{
    judge.freezing.of(scx)
}

/// Whether an update of an SCX-record has won.
pub fn has_won(judge: &Judge, scx: u64) -> bool
    ensures { IsTrue result ↔ HasWon (seen_history judge.now) scx }
{
    scx < u64::from(judge.words.layout().all_scx()) && judge.entering.has_won(scx)
}

/// How many nodes of its share a pass has taken: the first ones.
pub fn nodes_taken(judge: &Judge, pass: PassNo) -> u32
    requires { pass.0 < judge.now.layout.passes }
    ensures few { result ≤ judge.now.layout.nodes }
    ensures taken { (n : ℕ) → IsOwnNode judge.now.layout pass.0 n →
        IsTakenNode (seen_history judge.now) n ↔ (n < first_node judge.now.layout pass.0 + result) }
{
    judge.taking.nodes[pass.0 as usize]
}

/// How many SCX-records of its share a pass has taken: the first ones.
pub fn scx_taken(judge: &Judge, pass: PassNo) -> u32
    requires { pass.0 < judge.now.layout.passes }
    ensures few { result ≤ judge.now.layout.scx }
    ensures taken { (s : ℕ) → IsOwnScx judge.now.layout pass.0 s →
        IsTakenScx (seen_history judge.now) s ↔ (s < first_scx judge.now.layout pass.0 + result) }
{
    judge.taking.scx[pass.0 as usize]
}

/// The SCX-record a word of which a pass has loaded last. Nothing is claimed of it.
pub fn last_loaded(judge: &Judge, pass: PassNo) -> u64
    requires { pass.0 < judge.now.layout.passes }
{
    judge.loaded[pass.0 as usize]
}
