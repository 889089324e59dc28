//! What the nodes hold at some turn.
use arena::{Head, Layout, Mode, NodeNo, NodeWord, SettledPart, Side, Slot, Word, opening_word};
use ordered_map::wide_value;
use std::alloc::{AllocError, Global};

/// A pair of a leaf. The first of a fork has the fork's key, of a cell what the cell holds.
#[derive(Clone, Copy)]
pub(crate) struct ShownPair {
    pub(crate) key: u64,
    pub(crate) low: u64,
    pub(crate) high: u64,
}

/// What a node holds, except for its info.
#[derive(Clone, Copy)]
pub(crate) struct ShownNode {
    pub(crate) head: u64,
    more: u64,
    pub(crate) pairs: [ShownPair; 4],
    pub(crate) left: u64,
    pub(crate) right: u64,
    pub(crate) is_marked: bool,
}

/// The nodes that have been stored into, and those from the start.
#[derive(Drop)]
pub(crate) struct NodeTable {
    layout: Layout,
    nodes: Vec<ShownNode>,
}

impl ShownPair {
    const BLANK: ShownPair = ShownPair {
        key: 0,
        low: 0,
        high: 0,
    };

    pub(crate) fn value(&self) -> u128 {
        wide_value(self.low, self.high)
    }
}

impl ShownNode {
    /// A node that nothing has been stored into.
    const BLANK: ShownNode = ShownNode {
        head: 0,
        more: 0,
        pairs: [ShownPair::BLANK; 4],
        left: 0,
        right: 0,
        is_marked: false,
    };

    pub(crate) fn head(&self) -> Head {
        Head::of(self.head)
    }

    /// The first of its pairs, which each node has.
    pub(crate) fn first(&self) -> ShownPair {
        self.pairs[0]
    }

    /// How many pairs it has after its first.
    pub(crate) fn pairs_behind(&self) -> usize {
        self.more.min(3) as usize
    }

    fn pair_at(&mut self, slot: Slot) -> &mut ShownPair {
        match slot {
            Slot::First => &mut self.pairs[0],
            Slot::Second => &mut self.pairs[1],
            Slot::Third => &mut self.pairs[2],
            Slot::Fourth => &mut self.pairs[3],
        }
    }

    fn settle(&mut self, part: SettledPart, held: u64) {
        match part {
            SettledPart::Head => self.head = held,
            SettledPart::More => self.more = held,
            SettledPart::Key(slot) => self.pair_at(slot).key = held,
            SettledPart::Value(slot) => self.pair_at(slot).low = held,
            SettledPart::High(slot) => self.pair_at(slot).high = held,
        }
    }

    /// What a word holds from now on.
    fn set(&mut self, part: NodeWord, held: u64) {
        match part {
            NodeWord::Settled(part) => self.settle(part, held),
            NodeWord::Child(Side::Left) => self.left = held,
            NodeWord::Child(Side::Right) => self.right = held,
            NodeWord::Marked => self.is_marked = held != 0,
            // Infos are not drawn.
            NodeWord::Info => {}
        }
    }
}

impl NodeTable {
    /// The nodes at the start.
    pub(crate) fn new(alloc: Global, layout: Layout) -> Result<NodeTable, AllocError> {
        let mut table = NodeTable {
            layout,
            nodes: Vec::new(alloc),
        };
        for number in 0..layout.opening() {
            let node = NodeNo(u64::from(number));
            table.open(node, NodeWord::Settled(SettledPart::Head))?;
            table.open(node, NodeWord::Child(Side::Left))?;
            table.open(node, NodeWord::Child(Side::Right))?;
        }
        Ok(table)
    }

    pub(crate) fn mode(&self) -> Mode {
        self.layout.mode
    }

    fn open(&mut self, node: NodeNo, part: NodeWord) -> Result<(), AllocError> {
        let word = Word::Node(node, part);
        self.note(word, opening_word(self.layout.mode, word))
    }

    /// Notes what a word holds now, if it is one of the table.
    pub(crate) fn note(&mut self, word: Word, held: u64) -> Result<(), AllocError> {
        match word {
            Word::Node(node, part) if self.layout.has(word) => self.store(node, part, held),
            _ => Ok(()),
        }
    }

    fn store(&mut self, node: NodeNo, part: NodeWord, held: u64) -> Result<(), AllocError> {
        let place = node.0 as usize;
        if self.nodes.len() <= place {
            self.nodes
                .resize(place.saturating_add(1), ShownNode::BLANK)?;
        }
        if let Some(shown) = self.nodes.get_mut(place) {
            shown.set(part, held);
        }
        Ok(())
    }

    /// What a node holds.
    pub(crate) fn get(&self, node: u64) -> ShownNode {
        match self.nodes.get(node as usize) {
            Some(shown) => *shown,
            None => ShownNode::BLANK,
        }
    }
}
