//! What a pass may fill.
ghost use Rattle.std.specs.Prelude.{ℕ, ◌<◌, ◌↔◌, IsTrue};
ghost use Rattle.arena.specs.Fills.{IsOwnNode, IsOwnScx, IsOthersNode, IsOthersScx, IsNamedScx, IsInField, IsTakenNode, IsTakenScx, IsOpenNode, IsOpenScx, MayFill};
ghost use Rattle.arena.specs.declared.word.Word.TheVariants.{Node, Scx};
ghost use Rattle.judge.specs.Histories.{seen_history};

use crate::beginning::{is_own_node, is_own_scx};
use crate::facts::{is_named_node, is_named_scx, is_shown, nodes_taken, scx_taken};
use crate::judge::Judge;
use arena::{Layout, NodeNo, NodeWord, PassNo, Row, ScxNo, ScxWord, Word};

/// Whether the nodes of a pass's share that come before one of it were filled.
fn are_taken_nodes(judge: &Judge, pass: PassNo, node: u64) -> bool
    requires pass { pass.0 < judge.now.layout.passes }
    requires own { IsOwnNode judge.now.layout pass.0 node }
    ensures { IsTrue result ↔
        ((m : ℕ) → IsOwnNode judge.now.layout pass.0 m → m < node → IsTakenNode (seen_history judge.now) m) }
{
    let first = u64::from(judge.layout().first_node(pass));
    node <= first + u64::from(nodes_taken(judge, pass))
}

fn are_taken_scx(judge: &Judge, pass: PassNo, scx: u64) -> bool
    requires pass { pass.0 < judge.now.layout.passes }
    requires own { IsOwnScx judge.now.layout pass.0 scx }
    ensures { IsTrue result ↔
        ((t : ℕ) → IsOwnScx judge.now.layout pass.0 t → t < scx → IsTakenScx (seen_history judge.now) t) }
{
    let first = u64::from(judge.layout().first_scx(pass));
    scx <= first + u64::from(scx_taken(judge, pass))
}

/// Whether a node is one of the pass's share that it has taken or takes next, and is not named yet.
fn is_open_node(judge: &Judge, pass: PassNo, node: u64) -> bool
    requires { pass.0 < judge.now.layout.passes }
    ensures { IsTrue result ↔ IsOpenNode judge.now.layout (seen_history judge.now) pass.0 node }
{
    is_own_node(judge.layout(), pass, node)
        && !is_named_node(judge, node)
        && are_taken_nodes(judge, pass, node)
}

fn is_open_scx(judge: &Judge, pass: PassNo, scx: u64) -> bool
    requires { pass.0 < judge.now.layout.passes }
    ensures { IsTrue result ↔ IsOpenScx judge.now.layout (seen_history judge.now) pass.0 scx }
{
    is_own_scx(judge.layout(), pass, scx)
        && !is_named_scx(judge, scx)
        && are_taken_scx(judge, pass, scx)
}

/// Whether a node is of another pass's share.
fn is_others_node(layout: &Layout, pass: PassNo, node: u64) -> bool
    ensures { IsTrue result ↔ IsOthersNode layout.now pass.0 node }
{
    for other in 0..layout.passes {
        if other != pass.0 && is_own_node(layout, PassNo(other), node) {
            return true;
        }
    }
    false
}

fn is_others_scx(layout: &Layout, pass: PassNo, scx: u64) -> bool
    ensures { IsTrue result ↔ IsOthersScx layout.now pass.0 scx }
{
    for other in 0..layout.passes {
        if other != pass.0 && is_own_scx(layout, PassNo(other), scx) {
            return true;
        }
    }
    false
}

/// Whether a pass may name a node in a field, `old` or a member word.
fn may_name_node(judge: &Judge, pass: PassNo, node: u64) -> bool
    ensures { IsTrue result ↔
        (IsOthersNode judge.now.layout pass.0 node → IsInField judge.now.layout (seen_history judge.now) node) }
{
    !is_others_node(judge.layout(), pass, node) || is_shown(judge, node)
}

fn may_name_scx(judge: &Judge, pass: PassNo, scx: u64) -> bool
    ensures { IsTrue result ↔
        (IsOthersScx judge.now.layout pass.0 scx → IsNamedScx (seen_history judge.now) scx) }
{
    !is_others_scx(judge.layout(), pass, scx) || is_named_scx(judge, scx)
}

/// Whether a pass may fill a word of a node with a value.
fn may_fill_node(judge: &Judge, pass: PassNo, node: NodeNo, part: NodeWord, value: u64) -> bool
    requires { pass.0 < judge.now.layout.passes }
    ensures { IsTrue result ↔ MayFill judge.now.layout (seen_history judge.now) pass.0 (Node node part) value }
{
    let named = match part {
        NodeWord::Info | NodeWord::Marked => false,
        NodeWord::Child(_) => may_name_node(judge, pass, value),
        _ => true,
    };
    named && is_open_node(judge, pass, node.0)
}

/// Whether a pass may fill a word of an SCX-record with a value.
fn may_fill_scx(judge: &Judge, pass: PassNo, scx: ScxNo, part: ScxWord, value: u64) -> bool
    requires { pass.0 < judge.now.layout.passes }
    ensures { IsTrue result ↔ MayFill judge.now.layout (seen_history judge.now) pass.0 (Scx scx part) value }
{
    let named = match part {
        ScxWord::State | ScxWord::AllFrozen => false,
        ScxWord::Old | ScxWord::Member(_) => may_name_node(judge, pass, value),
        ScxWord::New => !is_others_node(judge.layout(), pass, value),
        ScxWord::Seen(_) => may_name_scx(judge, pass, value),
        _ => true,
    };
    named && is_open_scx(judge, pass, scx.0)
}

/// Whether a pass may fill a word with a value.
pub fn may_fill(judge: &Judge, row: &Row) -> bool
    requires { row.now.pass.0 < judge.now.layout.passes }
    ensures { IsTrue result ↔ MayFill judge.now.layout (seen_history judge.now) row.now.pass.0 row.now.word row.now.after }
{
    match row.word {
        Word::Node(node, part) => may_fill_node(judge, row.pass, node, part, row.after),
        Word::Scx(scx, part) => may_fill_scx(judge, row.pass, scx, part, row.after),
    }
}
