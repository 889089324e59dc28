//! A search in one leaf for the pair beside a key.
ghost use Rattle.std.specs.Prelude.{◌≡◌, ℕ, ◌-◌, Option};
ghost use Rattle.arena.specs.History.{History};
ghost use Rattle.arena.specs.Words.{slot_no};
ghost use Rattle.ordered_map.specs.declared.pair.Pair.{Pair};
ghost use Rattle.order.specs.Found.{pairs_behind, place_key};
ghost use Rattle.order.specs.Laws.Search.{Finds, IsSearchedIn};
ghost use Rattle.order.specs.Near.{IsPassed, NearStands, NextStands, NextLess, FindsBehind, near_left, near_place, near_value, near_word};

use arena::{NodeNo, NodeWord, SettledPart, Side, Slot, Word};
use ordered_map::{Pair, slot_behind, wide_value};

/// The step that such a search has asked for.
#[derive(Clone, Copy, Debug, PartialEq, Eq)]
pub enum NearAt {
    /// The load of the key in this slot. On the left it has passed a lower key than its own, the last
    /// one in that slot, or none.
    Key {
        slot: Slot,
        last: Option<(Slot, u64)>,
    },
    /// The load of the value in this slot, without its high half. It is that of the answer, which
    /// has this key.
    Value {
        slot: Slot,
        key: u64,
    },
    /// The load of the high half of that value, whose other half is this.
    High {
        slot: Slot,
        key: u64,
        low: u64,
    },
}

/// A search in a leaf of class 0 that was on the path of a key: for the pair beside that on a side,
/// if the leaf has it. It loads the keys in rising order, to the first above its own or, on the
/// left, to the first that is not below; then the two words of the value.
#[derive(Clone, Copy, Debug, PartialEq, Eq)]
pub struct NearRun {
    pub key: u64,
    pub side: Side,
    pub node: NodeNo,
    /// How many pairs the leaf has after its first.
    pub more: u64,
    pub at: NearAt,
}

/// How such a search goes on.
#[derive(Clone, Copy, Debug, PartialEq, Eq)]
pub enum NearNext {
    /// It is at its next step.
    Load(NearRun),
    /// This is the pair beside its key.
    Found(Pair),
    /// The leaf does not have that.
    Nothing,
}

impl NearRun {
    /// The word that it loads.
    #[inline(always)]
    pub fn word(self) -> Word
        ensures { result ≡ near_word self }
    {
        let part = match self.at {
            NearAt::Key { slot, last: _ } => SettledPart::Key(slot),
            NearAt::Value { slot, key: _ } => SettledPart::Value(slot),
            NearAt::High {
                slot,
                key: _,
                low: _,
            } => SettledPart::High(slot),
        };
        Word::Node(self.node, NodeWord::Settled(part))
    }

    /// Takes the pair with the last key that it has passed, if there is one.
    #[inline(always)]
    fn take(self, last: Option<(Slot, u64)>) -> NearNext
        ensures stands { (b : History) (rest : Option Pair) → IsPassed self b last rest
            → Finds b self.side self.key rest → NextStands self b result }
        ensures nearer { NextLess result 2 }
    {
        match last {
            Some((slot, key)) => {
                let at = NearAt::Value { slot, key };
                NearNext::Load(NearRun { at, ..self })
            }
            None => NearNext::Nothing,
        }
    }

    /// Goes on behind the key in this slot, with the last one that it has passed.
    #[inline(always)]
    fn behind(self, slot: Slot, last: Option<(Slot, u64)>) -> NearNext
        ensures stands { (b : History) (rest : Option Pair) → IsPassed self b last rest
            → FindsBehind self b slot rest → NextStands self b result }
        ensures nearer { NextLess result (5 - slot_no slot) }
    {
        match slot_behind(self.more, slot) {
            Some(slot) => {
                let at = NearAt::Key { slot, last };
                NearNext::Load(NearRun { at, ..self })
            }
            None => self.take(last),
        }
    }

    /// Goes on with the key in this slot, where the last one that it has passed is this.
    #[inline(always)]
    fn compare(self, slot: Slot, last: Option<(Slot, u64)>, key: u64) -> NearNext
        ensures stands { (b : History) (rest : Option Pair) → IsPassed self b last rest
            → IsSearchedIn b self.side self.key (near_place self slot) rest
            → place_key b (near_place self slot) ≡ key → NextStands self b result }
        ensures nearer { NextLess result (5 - slot_no slot) }
    {
        match self.side {
            Side::Left => {
                if key < self.key {
                    self.behind(slot, Some((slot, key)))
                } else {
                    self.take(last)
                }
            }
            Side::Right => {
                if self.key < key {
                    self.take(Some((slot, key)))
                } else {
                    self.behind(slot, last)
                }
            }
        }
    }

    /// Goes on with what its load has found.
    #[inline(always)]
    pub fn found(self, value: u64) -> NearNext
        ensures stands { (b : History) → NearStands self b self.at → near_value self b ≡ value
            → NextStands self b result }
        ensures nearer { NextLess result (near_left self.at) }
    {
        match self.at {
            NearAt::Key { slot, last } => self.compare(slot, last, value),
            NearAt::Value { slot, key } => {
                let low = value;
                let at = NearAt::High { slot, key, low };
                NearNext::Load(NearRun { at, ..self })
            }
            NearAt::High { slot: _, key, low } => {
                let value = wide_value(low, value);
                NearNext::Found(Pair { key, value })
            }
        }
    }
}
