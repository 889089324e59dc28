//! Slots of nodes that a try took and lost.
ghost use Rattle.std.specs.Prelude.{◌≡◌};
ghost use Rattle.upkeep.specs.UpkeepLost.{IsFromTo, LosesOnly};

use crate::book::{OwnSlot, OwnSlots, SlotUse};

impl OwnSlots {
    /// The slots of the names from this one on, up to that one, are lost, where they are in use.
    pub fn lose(&mut self, from: u64, to: u64)
        ensures { LosesOnly (IsFromTo from to) self.old self.new }
    {
        for name in from..to {
            self.lose_one(name);
        }
    }

    /// The slot of a name is lost, if it is in use.
    fn lose_one(&mut self, name: u64)
        ensures { LosesOnly (λ n. n ≡ name) self.old self.new }
    {
        if let Some(i) = self.slot_of(name) {
            self.slots[i] = OwnSlot {
                name,
                known: SlotUse::Lost,
            };
        }
    }
}
