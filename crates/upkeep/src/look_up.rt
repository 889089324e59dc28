//! Own leaves whose keys are looked up as a pass rests: a pop of a trie takes out a leaf of one pair
//! with no mark.
ghost use Rattle.std.specs.Prelude.{◌≡◌, ◌<◌, [], IfSome, None, Some, slice_get};
ghost use Rattle.arena.specs.History.{Extends, History};
ghost use Rattle.arena.specs.Machines.{IsRun};
ghost use Rattle.ordered_map.specs.Paths.{IsAnswerAt};
ghost use Rattle.ordered_map.specs.Runs.{IsMapRun};
ghost use Rattle.tables.specs.Seats.{IsSameSeat};
ghost use Rattle.tables.specs.TableRule.{history_of, past_of};
ghost use Rattle.tables.specs.declared.view.SeatedPass.{SeatedPass};
ghost use Rattle.upkeep.specs.UpkeepBook.{IsAtLasting, slots_in};
ghost use Rattle.upkeep.specs.UpkeepDeals.{DealsOn};
ghost use Rattle.upkeep.specs.UpkeepKeeper.{IsKeeper, IsSetNow, IsSetToCall};
ghost use Rattle.upkeep.specs.UpkeepLeaves.{HasReadLeafAt, IsLeafAt};
ghost use Rattle.upkeep.specs.UpkeepSteps.{RestsOn};
ghost use Rattle.upkeep.specs.declared.book.SlotUse.{SlotUse};

use crate::book::{OwnSlot, SlotUse};
use crate::keeper::Keeper;
use crate::leaf::{OwnLeaf, leaf_key};
use crate::looks::note_out;
use arena::{Layout, NodeNo, NodeWord, Shape, Share, Word};
use atomic_table::Seat;
use resting::{lookups_tell, unborn_stays_out};
use tables::view::SeatView;
use tables::words::Words;

/// The place behind this one.
fn behind(index: usize) -> usize {
    index.wrapping_add(1)
}

impl Keeper {
    /// Whether it looks leaves up: if no period runs, and it is short of free slots of nodes. What
    /// is found while a period runs could not count in that.
    fn looks_up(&self, left: &Share) -> bool {
        let (nodes, _) = left.left();
        self.period.is_none() && self.nodes.is_short(self.node_limit, nodes)
    }

    /// The place of the slot at which it looks now: behind the last it is the first.
    fn look_now(&self) -> usize {
        if self.next_look < self.nodes.slots.len() {
            self.next_look
        } else {
            0
        }
    }

    /// The leaf of one pair in the slot of this place, if it is in use, and was taken as the pass
    /// began to rest.
    fn leaf_at<S: Shape>(
        &self,
        words: &Words<S>,
        layout: &Layout,
        seat: &mut Seat<u8, SeatView>,
        index: usize,
    ) -> Option<OwnLeaf>
        requires { (p : SeatedPass) × IsAtLasting words.now layout.now seat.old p
            × IsKeeper (slots_in words.now) p self.now }
        ensures table { IsSameSeat seat.old seat.new }
        ensures slot { IfSome result (IsLeafAt self.now index) }
        ensures read { RestsOn S.allows (HasReadLeafAt result) seat.old.me.0 seat.new.me.0 }
    {
        if index >= self.nodes.slots.len() {
            return None;
        }
        self.leaf_in(words, layout, seat, index, self.nodes.slots[index])
    }

    /// The same, where this is known of the slot.
    fn leaf_in<S: Shape>(
        &self,
        words: &Words<S>,
        layout: &Layout,
        seat: &mut Seat<u8, SeatView>,
        index: usize,
        known: OwnSlot,
    ) -> Option<OwnLeaf>
        requires { (p : SeatedPass) × IsAtLasting words.now layout.now seat.old p
            × IsKeeper (slots_in words.now) p self.now
            × (slice_get self.now.nodes.slots.items index ≡ Some known) }
        ensures table { IsSameSeat seat.old seat.new }
        ensures slot { IfSome result (IsLeafAt self.now index) }
        ensures read { RestsOn S.allows (HasReadLeafAt result) seat.old.me.0 seat.new.me.0 }
    {
        let name = known.name;
        match known.known {
            SlotUse::Used if name < self.taken => self.read_leaf(words, layout, seat, index, name),
            _ => None,
        }
    }

    /// The same, where the slot is in use, and the node of this name was taken then.
    fn read_leaf<S: Shape>(
        &self,
        words: &Words<S>,
        layout: &Layout,
        seat: &mut Seat<u8, SeatView>,
        index: usize,
        name: u64,
    ) -> Option<OwnLeaf>
        requires { (p : SeatedPass) × IsAtLasting words.now layout.now seat.old p
            × IsKeeper (slots_in words.now) p self.now
            × (slice_get self.now.nodes.slots.items index
            ≡ Some record { name = name; known = SlotUse.Used }) × (name < self.now.taken) }
        ensures table { IsSameSeat seat.old seat.new }
        ensures slot { IfSome result (IsLeafAt self.now index) }
        ensures read { RestsOn S.allows (HasReadLeafAt result) seat.old.me.0 seat.new.me.0 }
    {
        let slot = self.nodes.first + index as u64;
        let Some(key) = leaf_key(words, layout, seat, slot, name) else {
            return None;
        };
        Some(OwnLeaf {
            index,
            slot,
            name,
            key,
        })
    }

    /// While the pass rests: the leaf in the slot at which it looks next, if it is one of one pair
    /// that may be out. It makes up to three steps.
    pub fn next_leaf<S: Shape>(
        &mut self,
        words: &Words<S>,
        layout: &Layout,
        seat: &mut Seat<u8, SeatView>,
        left: &Share,
    ) -> Option<OwnLeaf>
        requires { (p : SeatedPass) × IsAtLasting words.now layout.now seat.old p
            × IsSetToCall S.allows (slots_in words.now) p left.now self.old
            × ((h : History) → IsRun S.allows p.layout h → IsMapRun p.layout h) }
        ensures table { IsSameSeat seat.old seat.new }
        ensures rests { DealsOn (IsSetNow S.allows (slots_in words.now) left.now self.new)
            seat.old.me.0 seat.new.me.0 }
    {
        unborn_stays_out();
        if !self.looks_up(left) {
            return None;
        }
        let index = self.look_now();
        self.next_look = behind(index);
        self.leaf_at(words, layout, seat, index)
    }

    /// While the pass rests: it has looked up the key of this leaf since it began to, and the map
    /// did not have it. So the leaf is out, if it is one still; it is noted, and found. It makes up
    /// to four steps.
    pub fn note_leaf<S: Shape>(
        &mut self,
        words: &Words<S>,
        layout: &Layout,
        seat: &mut Seat<u8, SeatView>,
        left: &Share,
        leaf: OwnLeaf,
    )
        requires { (p : SeatedPass) × (start : History)
            × IsAtLasting words.now layout.now seat.old p
            × IsSetToCall S.allows (slots_in words.now) p left.now self.old
            × ((h : History) → IsRun S.allows p.layout h → IsMapRun p.layout h)
            × Extends start (history_of p.planting p.memory.rested)
            × IsAnswerAt p.layout (past_of p []) start leaf.key None }
        ensures table { IsSameSeat seat.old seat.new }
        ensures rests { DealsOn (IsSetNow S.allows (slots_in words.now) left.now self.new)
            seat.old.me.0 seat.new.me.0 }
    {
        unborn_stays_out();
        lookups_tell();
        if self.period.is_some() {
            return;
        }
        let Some(found) = self.leaf_at(words, layout, seat, leaf.index) else {
            return;
        };
        if found.key != leaf.key {
            return;
        }
        let at = layout.place(Word::Node(NodeNo(found.slot), NodeWord::Marked));
        note_out(words, layout, seat, at, found.name);
        self.nodes.slots[found.index] = OwnSlot {
            name: found.name,
            known: SlotUse::Found,
        };
    }
}
