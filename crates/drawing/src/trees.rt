//! The tree of a dictionary at some turn.
use crate::canvas::{Canvas, Spot, width_of};
use crate::flow::Flow;
use crate::node_table::{NodeTable, ShownNode, ShownPair};
use crate::parts::TextPart;
use crate::parts::TextPart::{Number, Short, Text, Wide};
use std::alloc::{AllocError, Global};
use std::num::nearest_usize_to_f64;

/// How many nodes are drawn at most, and how many levels.
const MOST_NODES: usize = 127;

const MOST_LEVELS: u32 = 64;

/// How far apart neighbours by key are, and two levels.
const STEP: f64 = 26.0;

const LEVEL: f64 = 42.0;

/// How high a pair of a leaf is.
const PAIR: f64 = 20.0;

/// A node of a tree: which one, and how far below the root.
#[derive(Clone, Copy)]
struct Branch {
    node: u64,
    y: f64,
}

/// The nodes of a tree from left to right, so that a fork is between its two sides.
#[derive(Drop)]
struct TreeDrawing {
    branches: Vec<Branch>,
    /// Which of them hangs below which.
    edges: Vec<(usize, usize)>,
    deepest: f64,
}

impl TreeDrawing {
    fn of(alloc: Global, table: &NodeTable) -> Result<TreeDrawing, AllocError> {
        let mut tree = TreeDrawing {
            branches: Vec::new(alloc),
            edges: Vec::new(alloc),
            deepest: 0.0,
        };
        tree.grow(table, 0, 0.0, MOST_LEVELS)?;
        Ok(tree)
    }

    /// Adds a node and what hangs below it, as long as there are levels left; answers where it
    /// is.
    fn grow(
        &mut self,
        table: &NodeTable,
        node: u64,
        y: f64,
        levels: u32,
    ) -> Result<Option<usize>, AllocError> {
        if levels == 0 || self.branches.len() >= MOST_NODES {
            return Ok(None);
        }
        let shown = table.get(node);
        if shown.head().leaf {
            self.deepest = self.deepest.max(y + high_behind(&shown));
            return Ok(Some(self.add(node, y)?));
        }
        let left = self.grow(table, shown.left, y + LEVEL, levels - 1)?;
        let own = self.add(node, y)?;
        let right = self.grow(table, shown.right, y + LEVEL, levels - 1)?;
        self.tie(own, left)?;
        self.tie(own, right)?;
        Ok(Some(own))
    }

    /// Hangs a node below another, if there is one.
    fn tie(&mut self, above: usize, below: Option<usize>) -> Result<(), AllocError> {
        if let Some(below) = below {
            self.edges.push((above, below))?;
        }
        Ok(())
    }

    fn add(&mut self, node: u64, y: f64) -> Result<usize, AllocError> {
        let place = self.branches.len();
        self.branches.push(Branch { node, y })?;
        self.deepest = self.deepest.max(y);
        Ok(place)
    }

    /// Where a node is in the picture, if the root is on this level.
    fn spot(&self, place: usize, corner: Spot) -> Spot {
        let down = match self.branches.get(place) {
            Some(branch) => branch.y,
            None => 0.0,
        };
        Spot {
            x: corner.x + 20.0 + STEP * nearest_usize_to_f64(place),
            y: corner.y + 34.0 + down,
        }
    }

    /// How much room it takes under this caption.
    fn size(&self, caption: &str) -> Spot {
        let wide = STEP * nearest_usize_to_f64(self.branches.len()) + 40.0;
        Spot::at(wide.max(width_of(caption) + 30.0), self.deepest + 74.0)
    }

    /// Draws what leads from each fork to what hangs below it.
    fn draw_edges(&self, canvas: &mut Canvas, corner: Spot) {
        for (above, below) in self.edges.iter() {
            let (from, to) = (self.spot(*above, corner), self.spot(*below, corner));
            canvas.line(from, to, &[Text("edge")]);
        }
    }
}

/// Draws the tree under a caption, and answers its nodes. Those that an earlier one does not have
/// are tinted, if there is one.
pub(crate) fn draw_tree(
    canvas: &mut Canvas,
    flow: &mut Flow,
    table: &NodeTable,
    earlier: &[u64],
    caption: &str,
) -> Result<Vec<u64>, AllocError> {
    let tree = TreeDrawing::of(canvas.alloc, table)?;
    let corner = flow.place(tree.size(caption));
    canvas.words(corner, "quiet", caption);
    tree.draw_edges(canvas, corner);
    let mut nodes = Vec::new(canvas.alloc);
    for (place, Branch { node, y: _ }) in tree.branches.iter().enumerate() {
        let is_new = !earlier.is_empty() && !earlier.contains(node);
        let (shown, spot) = (table.get(*node), tree.spot(place, corner));
        draw_node(canvas, &shown, *node, is_new, spot)?;
        nodes.push(*node)?;
    }
    Ok(nodes)
}

/// How high the pairs of a node after its first are.
fn high_behind(shown: &ShownNode) -> f64 {
    PAIR * nearest_usize_to_f64(shown.pairs_behind())
}

/// Draws a node around a spot; its pairs after the first hang below that.
fn draw_node(
    canvas: &mut Canvas,
    shown: &ShownNode,
    node: u64,
    is_new: bool,
    at: Spot,
) -> Result<(), AllocError> {
    let class = if is_new { "new" } else { "node" };
    let high = if shown.head().leaf { 24.0 } else { 16.0 };
    let corner = at.moved(-18.0, -high / 2.0);
    let size = Spot::at(36.0, high + high_behind(shown));
    let told = told_of(canvas.alloc, shown, node)?;
    canvas.rectangle(corner, size, &[Text(class)], told.as_slice());
    draw_texts(canvas, shown, at);
    let above = Spot::at(at.x, corner.y - 2.0);
    canvas.middle_words(above, &[Text("small quiet")], &[Text("n"), Number(node)]);
    Ok(())
}

/// What a node shows when one points at it: its pairs.
fn told_of(
    alloc: Global,
    shown: &ShownNode,
    node: u64,
) -> Result<Vec<TextPart<'static>>, AllocError> {
    let mut told = Vec::new(alloc);
    told.extend_from_slice(&[Text("n"), Number(node)])?;
    let pairs = shown.pairs_behind().saturating_add(1);
    for (at, pair) in shown.pairs.iter().take(pairs).enumerate() {
        let before = Text(if at == 0 { ": key " } else { "; key " });
        let (key, value) = (Number(pair.key), Wide(pair.value()));
        told.extend_from_slice(&[before, key, Text(", value "), value])?;
    }
    Ok(told)
}

/// Writes what a node holds around a spot: a fork's key, or the pairs of a leaf, or its class.
fn draw_texts(canvas: &mut Canvas, shown: &ShownNode, at: Spot) {
    let (head, small) = (shown.head(), [Text("small")]);
    let middle = at.moved(0.0, 3.0);
    match (head.class, head.leaf) {
        (0, true) => draw_pairs(canvas, shown, at),
        (0, false) => canvas.middle_words(middle, &small, &[Short(shown.first().key.into())]),
        (class, _) => canvas.middle_words(middle, &small, &[Text("∞"), Number(u64::from(class))]),
    }
}

/// Writes the pairs of a leaf, the first around a spot and the others below it.
fn draw_pairs(canvas: &mut Canvas, shown: &ShownNode, at: Spot) {
    let mut spot = at;
    let many = shown.pairs_behind().saturating_add(1);
    for pair in shown.pairs.iter().take(many) {
        draw_pair(canvas, *pair, spot);
        spot = spot.moved(0.0, PAIR);
    }
}

/// Writes a pair of a leaf around a spot, the value below the key.
fn draw_pair(canvas: &mut Canvas, pair: ShownPair, at: Spot) {
    let (key, value) = (at.moved(0.0, -2.0), at.moved(0.0, 8.0));
    canvas.middle_words(key, &[Text("small")], &[Short(pair.key.into())]);
    canvas.middle_words(value, &[Text("small quiet")], &[Short(pair.value())]);
}
