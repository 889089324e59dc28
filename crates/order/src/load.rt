//! The loads of an ordered read.
ghost use Rattle.std.specs.Prelude.{◌≡◌};
ghost use Rattle.order.specs.Loads.{place_behind, load_word};

use arena::{NodeNo, NodeWord, SettledPart, Slot, Word};
use ordered_map::slot_behind;

/// A place in a leaf of class 0: one of its slots, where `more` slots after its first may be read.
#[derive(Clone, Copy, Debug, PartialEq, Eq)]
pub struct LeafPlace {
    pub node: NodeNo,
    pub more: u64,
    pub slot: Slot,
}

impl LeafPlace {
    /// The place after this one, if it may be read.
    #[inline(always)]
    pub fn behind(self) -> Option<LeafPlace>
        ensures { result ≡ place_behind self }
    {
        let slot = slot_behind(self.more, self.slot)?;
        Some(LeafPlace { slot, ..self })
    }
}

/// A load of a settled word of a node, and what is known by then.
#[derive(Clone, Copy, Debug, PartialEq, Eq)]
pub enum ReadLoad {
    /// The head of a node that is below a fork of the level `above`.
    Head {
        above: u64,
        node: NodeNo,
    },
    /// The key of a fork of class 0 and of this level.
    Key {
        level: u64,
        node: NodeNo,
    },
    /// How many pairs a leaf of class 0 has after its first.
    More {
        node: NodeNo,
    },
    /// The key at this place of a leaf.
    Pair {
        place: LeafPlace,
    },
    /// The value of a pair that is taken, without its high half. It has this key.
    Value {
        place: LeafPlace,
        key: u64,
    },
    /// The high half of that value, whose other half is this.
    High {
        place: LeafPlace,
        key: u64,
        low: u64,
    },
}

impl ReadLoad {
    /// The word that is loaded.
    #[inline(always)]
    pub fn word(self) -> Word
        ensures { result ≡ load_word self }
    {
        let (node, part) = match self {
            ReadLoad::Head { above: _, node } => (node, SettledPart::Head),
            ReadLoad::Key { level: _, node } => (node, SettledPart::Key(Slot::First)),
            ReadLoad::More { node } => (node, SettledPart::More),
            ReadLoad::Pair { place } => (place.node, SettledPart::Key(place.slot)),
            ReadLoad::Value { place, key: _ } => (place.node, SettledPart::Value(place.slot)),
            ReadLoad::High {
                place,
                key: _,
                low: _,
            } => (place.node, SettledPart::High(place.slot)),
        };
        Word::Node(node, NodeWord::Settled(part))
    }
}
