//! How much is taken of the shares.
use arena::{Kind, Layout, NoMemory, PassNo, Row, Word};
use std::alloc::Global;

/// How many nodes and SCX-records each pass has taken of its share: the first ones. And how many
/// nodes all have taken.
#[derive(Drop)]
pub(crate) struct Taking {
    pub(crate) nodes: Vec<u32>,
    pub(crate) scx: Vec<u32>,
    pub(crate) all_nodes: u32,
}

impl Taking {
    ghost use Rattle.std.specs.Prelude.{◌≡◌, ◌+◌, ℕ, IfOk, if◌then◌else◌, ◌==◌};
    ghost use Rattle.arena.specs.History.{Start};
    ghost use Rattle.arena.specs.Layout.{first_node, first_scx};
    ghost use Rattle.judge.specs.Taking.{TakingStands, MayTake, taken_by, one_more, takes_node, takes_scx};

    /// Nothing is taken. The only error is want of memory.
    pub(crate) fn new(alloc: Global, layout: &Layout) -> Result<Taking, NoMemory>
        ensures { IfOk result (TakingStands layout.now (Start layout.now.mode)) }
    {
        let passes = layout.passes as usize;
        Ok(Taking {
            nodes: vec![in alloc; 0; passes]?,
            scx: vec![in alloc; 0; passes]?,
            all_nodes: 0,
        })
    }

    /// Takes in a lawful row.
    pub(crate) fn note(&mut self, layout: &Layout, row: &Row)
        requires { MayTake layout.now self.old row.now.pass.0 }
        ensures nodes { self.new.nodes.items ≡
            (if takes_node layout.now row.now.pass.0 row.now.kind row.now.word self.old.nodes.items
            then one_more self.old.nodes.items row.now.pass.0
            else self.old.nodes.items) }
        ensures scx { self.new.scx.items ≡
            (if takes_scx layout.now row.now.pass.0 row.now.kind row.now.word self.old.scx.items
            then one_more self.old.scx.items row.now.pass.0
            else self.old.scx.items) }
        ensures all { self.new.all_nodes ≡
            (if takes_node layout.now row.now.pass.0 row.now.kind row.now.word self.old.nodes.items
            then self.old.all_nodes + 1
            else self.old.all_nodes) }
    {
        if let Kind::Fill = row.kind {
            match row.word {
                Word::Node(node, _) => self.take_node(layout, row.pass, node.0),
                Word::Scx(scx, _) => self.take_scx(layout, row.pass, scx.0),
            }
        }
    }

    /// Takes a node, if it is the next one of the share.
    fn take_node(&mut self, layout: &Layout, pass: PassNo, node: u64)
        requires { MayTake layout.now self.old pass.0 }
        ensures nodes { self.new.nodes.items ≡
            (if node == first_node layout.now pass.0 + taken_by self.old.nodes.items pass.0
            then one_more self.old.nodes.items pass.0
            else self.old.nodes.items) }
        ensures scx { self.new.scx.items ≡ self.old.scx.items }
        ensures all { self.new.all_nodes ≡
            (if node == first_node layout.now pass.0 + taken_by self.old.nodes.items pass.0
            then self.old.all_nodes + 1
            else self.old.all_nodes) }
    {
        // By it a clause knows that as many fit 32 bits.
        let _most = layout.all_nodes();
        let at = pass.0 as usize;
        if node == u64::from(layout.first_node(pass)) + u64::from(self.nodes[at]) {
            self.nodes[at] += 1;
            self.all_nodes += 1;
        }
    }

    /// Takes an SCX-record, if it is the next one of the share.
    fn take_scx(&mut self, layout: &Layout, pass: PassNo, scx: u64)
        requires { MayTake layout.now self.old pass.0 }
        ensures nodes { self.new.nodes.items ≡ self.old.nodes.items }
        ensures scx { self.new.scx.items ≡
            (if scx == first_scx layout.now pass.0 + taken_by self.old.scx.items pass.0
            then one_more self.old.scx.items pass.0
            else self.old.scx.items) }
        ensures all { self.new.all_nodes ≡ self.old.all_nodes }
    {
        let _most = layout.all_scx();
        let at = pass.0 as usize;
        if scx == u64::from(layout.first_scx(pass)) + u64::from(self.scx[at]) {
            self.scx[at] += 1;
        }
    }
}
