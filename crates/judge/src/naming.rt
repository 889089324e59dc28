//! Which nodes and SCX-records have come to be named, and which nodes a field of a named node has
//! held.
use crate::graph::Graph;
use arena::{Layout, NoMemory, NodeWord, Row, ScxWord, Word};
use std::alloc::Global;

/// What is named, as places of a graph: each node, each node as one in a field, each SCX-record.
#[derive(Drop)]
pub(crate) struct Naming {
    pub(crate) nodes: u64,
    pub(crate) scxs: u64,
    pub(crate) graph: Graph,
}

impl Naming {
    ghost use Rattle.std.specs.Prelude.{◌≡◌, ◌↔◌, ℕ, ◌+◌, ◌*◌, ◌<◌, IsTrue, IfOk, OnOk, if◌then◌else◌, nat_lt, [], ◌∷◌, ◌++◌};
    ghost use Rattle.arena.specs.History.{Start};
    ghost use Rattle.judge.specs.Graph.{IsReached, HasSpare, links_of};
    ghost use Rattle.judge.specs.Naming.{NamingStands, IsNaming, IsInside, word_links, scx_links, shown_place, begun_place};

    /// What is named at the start. The only error is want of memory.
    pub(crate) fn new(alloc: Global, layout: &Layout) -> Result<Naming, NoMemory>
        ensures { IfOk result (NamingStands layout.now (Start layout.now.mode)) }
    {
        let nodes = u64::from(layout.all_nodes());
        let scxs = u64::from(layout.all_scx());
        let mut graph = Graph::new(alloc, (2 * nodes + scxs) as usize)?;
        graph.start(0, 2 * nodes as usize);
        for node in 0..layout.opening() as usize {
            graph.start(0, node);
            graph.start(0, nodes as usize + node);
        }
        Ok(Naming { nodes, scxs, graph })
    }

    /// Makes room for what one row names.
    pub(crate) fn reserve(&mut self) -> Result<(), NoMemory>
        ensures spare { OnOk result (HasSpare 2 self.new.graph) }
        ensures naming { IsNaming self.old → IsNaming self.new }
        ensures nodes { self.new.nodes ≡ self.old.nodes }
        ensures scxs { self.new.scxs ≡ self.old.scxs }
        ensures links { links_of self.new.graph ≡ links_of self.old.graph }
    {
        self.graph.reserve()
    }

    /// Whether a node is named.
    pub(crate) fn has_node(&self, node: u64) -> bool
        requires naming { IsNaming self.now }
        requires inside { node < self.now.nodes }
        ensures { IsTrue result ↔ IsReached (links_of self.now.graph) node }
    {
        self.graph.has(node as usize)
    }

    /// Whether a node was there from the start, or a field of a named node has held it.
    pub(crate) fn has_shown(&self, node: u64) -> bool
        requires { IsNaming self.now }
        ensures { IsTrue result ↔
            ((node < self.now.nodes) × IsReached (links_of self.now.graph) (shown_place self.now.nodes node)) }
    {
        node < self.nodes && self.graph.has((self.nodes + node) as usize)
    }

    /// Whether an SCX-record is named.
    pub(crate) fn has_scx(&self, scx: u64) -> bool
        requires { IsNaming self.now }
        ensures { IsTrue result ↔ ((scx < self.now.scxs) ×
            IsReached (links_of self.now.graph) (begun_place self.now.nodes scx)) }
    {
        scx < self.scxs && self.graph.has((2 * self.nodes + scx) as usize)
    }

    /// Takes in a row.
    pub(crate) fn note(&mut self, row: &Row)
        requires naming { IsNaming self.old }
        requires spare { HasSpare 2 self.old.graph }
        requires inside { IsInside self.old row.now.word }
        ensures naming { IsNaming self.new }
        ensures nodes { self.new.nodes ≡ self.old.nodes }
        ensures scxs { self.new.scxs ≡ self.old.scxs }
        ensures links { links_of self.new.graph ≡
            word_links self.old.nodes self.old.scxs row.now.word row.now.after ++ links_of self.old.graph }
    {
        match row.word {
            Word::Node(node, NodeWord::Child(_)) => self.note_field(node.0, row.after),
            Word::Node(_, NodeWord::Info) => self.note_info(row.after),
            Word::Scx(scx, ScxWord::New | ScxWord::Old | ScxWord::Member(_)) => {
                self.note_scx(scx.0, row.after)
            }
            _ => {}
        }
    }

    /// A field of a node holds this.
    fn note_field(&mut self, holder: u64, node: u64)
        requires naming { IsNaming self.old }
        requires spare { HasSpare 2 self.old.graph }
        requires inside { holder < self.old.nodes }
        ensures naming { IsNaming self.new }
        ensures nodes { self.new.nodes ≡ self.old.nodes }
        ensures scxs { self.new.scxs ≡ self.old.scxs }
        ensures links { links_of self.new.graph ≡
            (if nat_lt node self.old.nodes
            then (holder, shown_place self.old.nodes node) ∷ (holder, node) ∷ []
            else [])
            ++ links_of self.old.graph }
    {
        if node < self.nodes {
            self.graph.link(holder as usize, node as usize);
            self.graph
                .link(holder as usize, (self.nodes + node) as usize);
        }
    }

    /// An info word holds this.
    fn note_info(&mut self, scx: u64)
        requires { IsNaming self.old }
        ensures naming { IsNaming self.new }
        ensures nodes { self.new.nodes ≡ self.old.nodes }
        ensures scxs { self.new.scxs ≡ self.old.scxs }
        ensures links { links_of self.new.graph ≡
            (if nat_lt scx self.old.scxs then (0, begun_place self.old.nodes scx) ∷ [] else [])
            ++ links_of self.old.graph }
    {
        if scx < self.scxs {
            self.graph.start(0, (2 * self.nodes + scx) as usize);
        }
    }

    /// A word of an SCX-record that names nodes holds this.
    fn note_scx(&mut self, scx: u64, node: u64)
        requires naming { IsNaming self.old }
        requires spare { HasSpare 1 self.old.graph }
        requires inside { scx < self.old.scxs }
        ensures naming { IsNaming self.new }
        ensures nodes { self.new.nodes ≡ self.old.nodes }
        ensures scxs { self.new.scxs ≡ self.old.scxs }
        ensures links { links_of self.new.graph ≡ scx_links self.old.nodes scx node ++ links_of self.old.graph }
    {
        if node < self.nodes {
            self.graph
                .link((2 * self.nodes + scx) as usize, node as usize);
        }
    }
}
