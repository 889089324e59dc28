//! How a pass reads a leaf of its own.
ghost use Rattle.std.specs.Prelude.{◌≡◌};
ghost use Rattle.arena.specs.Words.{node};
ghost use Rattle.arena.specs.declared.word.NodeWord.{NodeWord};
ghost use Rattle.slots.specs.Lasting.{IsOwnRecord};
ghost use Rattle.tables.specs.Seats.{IsSameSeat};
ghost use Rattle.tables.specs.declared.view.SeatedPass.{SeatedPass};
ghost use Rattle.upkeep.specs.UpkeepBook.{IsAtLasting, IsNameIn, record_numbered, slots_in};
ghost use Rattle.upkeep.specs.UpkeepLeaves.{HasReadLeaf};
ghost use Rattle.upkeep.specs.UpkeepSteps.{HasLoadedWord, RestsOn};
ghost use Rattle.upkeep.specs.declared.kind.RecordKind.{RecordKind};

use crate::lasting_sights::sights_last;
use arena::{Head, Layout, NodeNo, NodeWord, SettledPart, Shape, Slot, Word};
use atomic_table::Seat;
use std::marker::Brand;
use tables::view::SeatView;
use tables::words::Words;

/// An own leaf in use: the place of its slot among those of its pass, that slot, its name, and its
/// key.
#[derive(Clone, Copy, Debug)]
pub struct OwnLeaf {
    pub index: usize,
    pub slot: u64,
    pub name: u64,
    pub key: u64,
}

/// A settled word of a node, by its name.
#[derive(Clone, Copy)]
struct NodePart {
    name: u64,
    part: SettledPart,
}

/// Loads a settled word of the node of this name, which is in this slot.
fn load_part<S: Shape>(
    words: &Words<S>,
    layout: &Layout,
    seat: &mut Seat<u8, SeatView>,
    slot: u64,
    of: NodePart,
) -> u64
    requires { (p : SeatedPass) × IsAtLasting words.now layout.now seat.old p
        × IsOwnRecord layout.now p.number.0 (record_numbered RecordKind.Node slot)
        × IsNameIn (slots_in words.now) p.number.0 p.memory RecordKind.Node slot of.name }
    ensures table { IsSameSeat seat.old seat.new }
    ensures loaded { RestsOn S.allows (HasLoadedWord (node of.name (NodeWord.Settled of.part)) result)
        seat.old.me.0 seat.new.me.0 }
{
    sights_last::<S>();
    let at = layout.place(Word::Node(NodeNo(slot), NodeWord::Settled(of.part)));
    words.load_with::<Brand, NodePart>(seat, at, of)
}

/// The key of the node of this name, which is in this slot, if it is a leaf of one pair of the map.
pub fn leaf_key<S: Shape>(
    words: &Words<S>,
    layout: &Layout,
    seat: &mut Seat<u8, SeatView>,
    slot: u64,
    name: u64,
) -> Option<u64>
    requires { (p : SeatedPass) × IsAtLasting words.now layout.now seat.old p
        × IsOwnRecord layout.now p.number.0 (record_numbered RecordKind.Node slot)
        × IsNameIn (slots_in words.now) p.number.0 p.memory RecordKind.Node slot name }
    ensures table { IsSameSeat seat.old seat.new }
    ensures read { RestsOn S.allows (HasReadLeaf name result) seat.old.me.0 seat.new.me.0 }
{
    let part = SettledPart::Head;
    let head = Head::of(load_part(words, layout, seat, slot, NodePart { name, part }));
    if !head.leaf || head.class != 0 {
        return None;
    }
    let part = SettledPart::More;
    if load_part(words, layout, seat, slot, NodePart { name, part }) != 0 {
        return None;
    }
    let part = SettledPart::Key(Slot::First);
    Some(load_part(words, layout, seat, slot, NodePart { name, part }))
}
