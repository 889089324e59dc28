//! What the steps of a call have in hand.
ghost use Rattle.std.specs.Prelude.{◌≡◌, ◌<◌, ⊤};
ghost use Rattle.arena.specs.Layout.{all_nodes, all_scx, node_size, IsWord};

use arena::{NodeNo, ScxNo, Shape, Word};
use std::alloc::AllocError;
use tables::table_plan::TablePlan;
use tables::table_shape::TableShape;
use tables::words::Words;

/// Words with the plan of their table, and the number of the call that makes steps on them. Loops
/// copy the plan first: only of its own copy does the compiler know that no step changes it.
pub struct Hand<'a, S: Shape> {
    pub words: &'a Words<S>,
    pub plan: &'a TablePlan,
    pub number: u64,
    /// How many words a node has: where the compiler knows the shape, it knows this.
    pub size: usize,
    ghost of_size: { size ≡ node_size plan.now.layout.mode },
}

impl<'a, S: Shape> Clone for Hand<'a, S> {
    ghost is_clone = { λ x y. y ≡ x };

    ghost is_infallible = { λ _. ⊤ };

    fn clone(&self) -> Result<Hand<'a, S>, AllocError> {
        Ok(*self)
    }
}

impl<'a, S: Shape> Copy for Hand<'a, S> {}

impl<'a, S: TableShape> Hand<'a, S> {
    ghost use Rattle.straight.specs.Hands.{IsHandOf, hand_slots, names};
    ghost use Rattle.tables.specs.Slotted.{node_begins, scx_begins, word_begins};

    /// The same by this copy of the plan, where records come back: only of a copy that nothing else
    /// sees does the compiler know that no step changes it, and a slot is found by the plan's masks.
    /// Where they do not, it is left as it is.
    #[inline(always)]
    pub fn by_copy(self, plan: &'a TablePlan) -> Hand<'a, S>
        requires copied { plan.now ≡ self.plan.now }
        ensures words { result.words ≡ self.entry.words }
        ensures plan { result.plan.now ≡ self.entry.plan.now }
        ensures number { result.number ≡ self.entry.number }
    {
        if S::lasts() {
            Hand {
                words: self.words,
                plan,
                number: self.number,
                size: self.size,
            }
        } else {
            self
        }
    }

    /// Where the words of a node begin: in the slot that its name says.
    #[inline(always)]
    pub fn node_start(self, node: NodeNo) -> usize
        requires table { IsHandOf S.mode S.lasts self }
        requires node { node.0 < all_nodes (names self) }
        ensures start { result ≡ node_begins (hand_slots self.entry) node }
        ensures fits { result < 4294967296 }
    {
        if S::lasts() {
            let slot = node.0 & self.plan.node_mask;
            self.size * slot as usize
        } else {
            self.plan.layout.node_start(self.size, node)
        }
    }

    /// Where the words of an SCX-record begin: in the slot that its name says.
    #[inline(always)]
    pub fn scx_start(self, scx: ScxNo) -> usize
        requires table { IsHandOf S.mode S.lasts self }
        requires scx { scx.0 < all_scx (names self) }
        ensures start { result ≡ scx_begins (hand_slots self.entry) scx }
        ensures fits { result < 1099511627776 }
    {
        let slot = if S::lasts() {
            scx.0 & self.plan.scx_mask
        } else {
            scx.0
        };
        self.plan.layout.scx_start(ScxNo(0)) + 14 * slot as usize
    }

    /// Where the words of the node or of the SCX-record begin that has this word.
    #[inline(always)]
    pub fn start_of(self, word: Word) -> usize
        requires table { IsHandOf S.mode S.lasts self }
        requires word { IsWord (names self) word }
        ensures { result ≡ word_begins (hand_slots self.entry) word }
    {
        match word {
            Word::Node(node, _) => self.node_start(node),
            Word::Scx(scx, _) => self.scx_start(scx),
        }
    }
}
