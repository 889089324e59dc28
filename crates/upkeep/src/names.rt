//! Looks by which free slots get names, and names that are left are given back.
ghost use Rattle.std.specs.Prelude.{◌≡◌, ◌<◌, ◌≤◌, [], ◌∷◌};
ghost use Rattle.arena.specs.Layout.{table_size};
ghost use Rattle.arena.specs.Share.{Remaining};
ghost use Rattle.tables.specs.LastingNotes.{IsAmongThese};
ghost use Rattle.tables.specs.LastingSlots.{IsLastDealt, IsNotBefore, memory_given_back};
ghost use Rattle.tables.specs.Seats.{IsSameSeat};
ghost use Rattle.tables.specs.declared.view.SeatedPass.{SeatedPass};
ghost use Rattle.upkeep.specs.UpkeepBook.{IsAtLasting, NowRemembers, dealt_of, name_numbered, record_numbered, slots_in};
ghost use Rattle.upkeep.specs.UpkeepDeals.{DealsOn, HasShareLeft, HasPassedTo, MayGet, memory_given, next_of};
ghost use Rattle.upkeep.specs.UpkeepSteps.{RestsOn};

use crate::kind::{RecordKind, RecordName};
use arena::{Layout, Shape};
use atomic_table::Seat;
use std::marker::Brand;
use tables::lasting_laws::{names_last, slots_last};
use tables::view::SeatView;
use tables::words::Words;

/// A slot, and how many names are passed over before its next.
#[derive(Clone, Copy)]
pub struct Given {
    pub kind: RecordKind,
    pub slot: u64,
    pub count: u64,
}

/// Gives a slot the name that is so many behind those that are dealt, which are all taken, and
/// passes over those before it.
pub fn pass_to<S: Shape>(
    words: &Words<S>,
    layout: &Layout,
    seat: &mut Seat<u8, SeatView>,
    at: usize,
    given: Given,
)
    requires { (p : SeatedPass) × (left : Remaining) × IsAtLasting words.now layout.now seat.old p
        × (at < table_size layout.now) × HasShareLeft S.allows p left
        × (next_of given.kind left ≡ dealt_of given.kind p.memory)
        × MayGet (slots_in words.now) p given.kind given.slot given.count }
    ensures table { IsSameSeat seat.old seat.new }
    ensures given { DealsOn
        (HasPassedTo S.allows (slots_in words.now) given.kind given.slot given.count)
        seat.old.me.0 seat.new.me.0 }
{
    names_last::<S>();
    words.load_with::<Brand, Given>(seat, at, given);
}

/// Gives a slot the name behind those that are dealt, of which some may be left.
pub fn give_next<S: Shape>(
    words: &Words<S>,
    layout: &Layout,
    seat: &mut Seat<u8, SeatView>,
    at: usize,
    slot: RecordName,
)
    requires { (p : SeatedPass) × (left : Remaining) × IsAtLasting words.now layout.now seat.old p
        × (at < table_size layout.now) × HasShareLeft S.allows p left
        × (next_of slot.kind left ≤ dealt_of slot.kind p.memory)
        × MayGet (slots_in words.now) p slot.kind slot.number 0 }
    ensures table { IsSameSeat seat.old seat.new }
    ensures given { RestsOn S.allows
        (NowRemembers (λ m rows. memory_given slot.kind m 0 (name_numbered slot.kind slot.number) rows))
        seat.old.me.0 seat.new.me.0 }
{
    names_last::<S>();
    words.load_with::<Brand, RecordName>(seat, at, slot);
}

/// Gives back the last name that is dealt, which nobody has taken: its slot holds nothing from now
/// on.
pub fn give_back<S: Shape>(
    words: &Words<S>,
    layout: &Layout,
    seat: &mut Seat<u8, SeatView>,
    at: usize,
    name: RecordName,
)
    requires { (p : SeatedPass) × (left : Remaining) × IsAtLasting words.now layout.now seat.old p
        × (at < table_size layout.now) × HasShareLeft S.allows p left
        × IsAmongThese (name_numbered name.kind name.number) p.memory.holds
        × IsLastDealt p.memory (record_numbered name.kind name.number)
        × IsNotBefore left (record_numbered name.kind name.number) }
    ensures table { IsSameSeat seat.old seat.new }
    ensures given { RestsOn S.allows
        (NowRemembers (λ m rows. memory_given_back (slots_in words.now) m (name_numbered name.kind name.number)))
        seat.old.me.0 seat.new.me.0 }
{
    slots_last::<S>();
    words.load_with::<Brand, RecordName>(seat, at, name);
}
