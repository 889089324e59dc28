//! What a pass knows of its own slots.
ghost use Rattle.std.specs.Prelude.{◌+◌, ◌^◌, ◌<◌, ◌≤◌, vec_len};

use crate::kind::RecordKind;

/// What is known of a slot.
#[derive(Clone, Copy, Debug, PartialEq, Eq)]
pub enum SlotUse {
    /// Its record is in use, or was not looked at since.
    Used,
    /// Its record was marked or dead at some moment.
    Found,
    /// Since then all have rested: it is dead.
    Dying,
    /// A try took its node and was lost: the node was never in the tree.
    Lost,
    /// It holds nothing, and all of its words are 0.
    Free,
}

/// A slot: the name that it holds, or held last, and what is known of it.
#[derive(Clone, Copy, Debug)]
pub struct OwnSlot {
    pub name: u64,
    pub known: SlotUse,
}

/// The slots of a pass, of one kind, from the first one on, and which names they get. They are made
/// once.
#[derive(Drop)]
pub struct OwnSlots {
    pub kind: RecordKind,
    /// The number of the first.
    pub first: u64,
    /// A name has the slot of the one that is so many before it.
    pub turn: u64,
    /// Where the pass's names end.
    pub end: u64,
    /// Its names below this one are dealt, or passed over.
    pub dealt: u64,
    pub slots: Vec<OwnSlot>,
    ghost fits: { first + vec_len slots ≤ 2 ^ 33 },
    ghost few: { vec_len slots < 2 ^ 32 },
    ghost turns: { (0 < turn) × (turn ≤ 2 ^ 61) },
    ghost ends: { (dealt ≤ end) × (end ≤ 2 ^ 61) },
}

impl OwnSlots {
    /// Up to which name its slots may be dealt before less than a quarter of them is free.
    pub fn limit(&self) -> u64 {
        let free = self
            .slots
            .iter()
            .filter(|slot| slot.known == SlotUse::Free)
            .count();
        let spare = free.saturating_sub(self.slots.len() / 4);
        self.dealt.saturating_add(spare as u64)
    }

    /// Whether its names are dealt up to this limit, and less than a quarter is left of the share, or
    /// fewer than the three that a call may need.
    pub fn is_short(&self, limit: u64, left: u32) -> bool {
        self.dealt >= limit && (left as usize) < (self.slots.len() / 4).max(3)
    }
}
