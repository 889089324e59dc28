//! What a pass does with its own slots as a period is over.
ghost use Rattle.std.specs.Prelude.{◌≡◌, ◌≢◌, ◌<◌, ℕ, false, List, [], ◌∷◌, length};
ghost use Rattle.arena.specs.Share.{Remaining};
ghost use Rattle.arena.specs.Layout.{table_size};
ghost use Rattle.arena.specs.declared.step.Row.{Row};
ghost use Rattle.slots.specs.Lasting.{IsOwnRecord, IsTaken};
ghost use Rattle.tables.specs.LastingNotes.{IsAmongThese, noted_as};
ghost use Rattle.tables.specs.Seats.{IsSameSeat};
ghost use Rattle.tables.specs.TableRule.{history_of, past_of};
ghost use Rattle.tables.specs.declared.memory.NoteView.{NoteView};
ghost use Rattle.tables.specs.declared.view.SeatedPass.{SeatedPass};
ghost use Rattle.upkeep.specs.UpkeepDeals.{HasShareLeft};
ghost use Rattle.upkeep.specs.UpkeepSteps.{RestsOn};
ghost use Rattle.upkeep.specs.UpkeepBook.{AreLostBy, AreSameSlots, HasPeriodEnded, HasFreed, HasTakenBelow, HasTurnedBook, IsAtLasting, IsBook, IsLostBy, IsNameIn, IsSlotSo, KnowsNow, WasDying, name_numbered, record_numbered, slots_in};
ghost use Rattle.upkeep.specs.declared.book.SlotUse.{SlotUse};

use crate::book::{OwnSlot, OwnSlots, SlotUse};
use crate::clean::{clean, let_go};
use crate::kind::{RecordKind, RecordName};
use crate::looks::{is_marked, note_dying, note_gone, note_unneeded};
use crate::part::word_at;
use crate::scx::is_over;
use arena::{Layout, Shape};
use atomic_table::Seat;
use tables::view::SeatView;
use tables::words::Words;

/// What is known of each slot once a period is over: what was dying or lost is free, what was
/// found is dying, and of what is used some is found. It makes up to 22 steps a slot.
pub fn turn_all<S: Shape>(
    words: &Words<S>,
    layout: &Layout,
    seat: &mut Seat<u8, SeatView>,
    own: &mut OwnSlots,
    next: u64,
    node_turn: u64,
)
    requires turn { (0 < node_turn) × (node_turn ≡ (slots_in words.now).node_turn) }
    requires pass { (p : SeatedPass) × (since : List Row) × IsAtLasting words.now layout.now seat.old p
        × HasPeriodEnded (slots_in words.now) p since × HasTakenBelow p own.old.kind next
        × IsBook (slots_in words.now) p since own.old × (left : Remaining) × HasShareLeft S.allows p left
        × AreLostBy p.layout p.number.0 (history_of p.planting p.memory.rested) own.old }
    ensures table { IsSameSeat seat.old seat.new }
    ensures same { AreSameSlots own.old own.new }
    ensures turned { RestsOn S.allows (HasTurnedBook (slots_in words.now) own.new)
        seat.old.me.0 seat.new.me.0 }
{
    for i in 0..own.slots.len() {
        let slot = own.first + i as u64;
        own.slots[i] = turn(
            words,
            layout,
            seat,
            own.kind,
            slot,
            own.slots[i],
            next,
            node_turn,
        );
    }
}

/// What is known of a slot once a period is over.
fn turn<S: Shape>(
    words: &Words<S>,
    layout: &Layout,
    seat: &mut Seat<u8, SeatView>,
    kind: RecordKind,
    slot: u64,
    known: OwnSlot,
    next: u64,
    node_turn: u64,
) -> OwnSlot
    requires turn { (0 < node_turn) × (node_turn ≡ (slots_in words.now).node_turn) }
    requires pass { (p : SeatedPass) × (since : List Row) × IsAtLasting words.now layout.now seat.old p
        × IsOwnRecord layout.now p.number.0 (record_numbered kind slot)
        × HasPeriodEnded (slots_in words.now) p since × HasTakenBelow p kind next
        × IsSlotSo (slots_in words.now) p since kind slot known
        × (left : Remaining) × HasShareLeft S.allows p left × (known.known ≡ SlotUse.Lost
        → IsLostBy p.layout p.number.0 (history_of p.planting p.memory.rested) kind known.name) }
    ensures table { IsSameSeat seat.old seat.new }
    ensures lost { result.known ≡ SlotUse.Lost → result ≡ known }
    ensures turned { RestsOn S.allows (KnowsNow (slots_in words.now) kind slot result)
        seat.old.me.0 seat.new.me.0 }
{
    let name = known.name;
    match known.known {
        SlotUse::Used if name < next => OwnSlot {
            name,
            known: look_at(words, layout, seat, kind, slot, name, node_turn),
        },
        SlotUse::Found => {
            let at = layout.place(word_at(kind, slot, 0));
            note_dying(words, layout, seat, at, RecordName { kind, number: name });
            OwnSlot {
                name,
                known: SlotUse::Dying,
            }
        }
        SlotUse::Dying if name < next => {
            free(words, layout, seat, kind, slot, name);
            OwnSlot {
                name,
                known: SlotUse::Free,
            }
        }
        SlotUse::Lost if name < next => {
            free_lost(words, layout, seat, kind, slot, name);
            OwnSlot {
                name,
                known: SlotUse::Free,
            }
        }
        _ => known,
    }
}

/// Looks whether the record that is in use is marked or dead by now.
fn look_at<S: Shape>(
    words: &Words<S>,
    layout: &Layout,
    seat: &mut Seat<u8, SeatView>,
    kind: RecordKind,
    slot: u64,
    name: u64,
    node_turn: u64,
) -> SlotUse
    requires turn { (0 < node_turn) × (node_turn ≡ (slots_in words.now).node_turn) }
    requires pass { (p : SeatedPass) × IsAtLasting words.now layout.now seat.old p
        × IsOwnRecord layout.now p.number.0 (record_numbered kind slot)
        × IsNameIn (slots_in words.now) p.number.0 p.memory kind slot name
        × IsTaken (past_of p []) (record_numbered kind name)
        × (left : Remaining) × HasShareLeft S.allows p left }
    ensures table { IsSameSeat seat.old seat.new }
    ensures lost { result ≢ SlotUse.Lost }
    ensures looked { RestsOn S.allows
        (KnowsNow (slots_in words.now) kind slot record { name = name; known = result })
        seat.old.me.0 seat.new.me.0 }
{
    match kind {
        RecordKind::Node => {
            if is_marked(words, layout, seat, slot, name) {
                SlotUse::Found
            } else {
                SlotUse::Used
            }
        }
        RecordKind::Scx => {
            if is_over(words, layout, seat, slot, name, node_turn) {
                SlotUse::Found
            } else {
                SlotUse::Used
            }
        }
    }
}

/// Frees the slot of a record that was dying before a period which is over.
fn free<S: Shape>(
    words: &Words<S>,
    layout: &Layout,
    seat: &mut Seat<u8, SeatView>,
    kind: RecordKind,
    slot: u64,
    name: u64,
)
    requires { (p : SeatedPass) × (since : List Row) × IsAtLasting words.now layout.now seat.old p
        × IsOwnRecord layout.now p.number.0 (record_numbered kind slot)
        × HasPeriodEnded (slots_in words.now) p since
        × IsNameIn (slots_in words.now) p.number.0 p.memory kind slot name
        × WasDying p.planting p.memory since kind name
        × IsTaken (past_of p []) (record_numbered kind name) }
    ensures table { IsSameSeat seat.old seat.new }
    ensures freed { RestsOn S.allows (HasFreed (slots_in words.now) kind slot)
        seat.old.me.0 seat.new.me.0 }
{
    let at = layout.place(word_at(kind, slot, 0));
    note_gone(words, layout, seat, at, RecordName { kind, number: name });
    empty(words, layout, seat, at, kind, slot, name);
}

/// Frees the slot of a record that was lost before the pass rested.
fn free_lost<S: Shape>(
    words: &Words<S>,
    layout: &Layout,
    seat: &mut Seat<u8, SeatView>,
    kind: RecordKind,
    slot: u64,
    name: u64,
)
    requires { (p : SeatedPass) × IsAtLasting words.now layout.now seat.old p
        × IsOwnRecord layout.now p.number.0 (record_numbered kind slot)
        × IsNameIn (slots_in words.now) p.number.0 p.memory kind slot name
        × IsLostBy p.layout p.number.0 (history_of p.planting p.memory.rested) kind name
        × (p.memory.away ≡ false) × IsTaken (past_of p []) (record_numbered kind name) }
    ensures table { IsSameSeat seat.old seat.new }
    ensures freed { RestsOn S.allows (HasFreed (slots_in words.now) kind slot)
        seat.old.me.0 seat.new.me.0 }
{
    let at = layout.place(word_at(kind, slot, 0));
    note_unneeded(words, layout, seat, at, RecordName { kind, number: name });
    empty(words, layout, seat, at, kind, slot, name);
}

/// The slot of a record that is out of reach holds nothing from now on, and all of its words are 0.
fn empty<S: Shape>(
    words: &Words<S>,
    layout: &Layout,
    seat: &mut Seat<u8, SeatView>,
    at: usize,
    kind: RecordKind,
    slot: u64,
    name: u64,
)
    requires { (p : SeatedPass) × IsAtLasting words.now layout.now seat.old p
        × (at < table_size layout.now)
        × IsOwnRecord layout.now p.number.0 (record_numbered kind slot)
        × IsNameIn (slots_in words.now) p.number.0 p.memory kind slot name
        × IsAmongThese (noted_as (name_numbered kind name) NoteView.OutOfReach) p.memory.notes
        × IsTaken (past_of p []) (record_numbered kind name) }
    ensures table { IsSameSeat seat.old seat.new }
    ensures freed { RestsOn S.allows (HasFreed (slots_in words.now) kind slot)
        seat.old.me.0 seat.new.me.0 }
{
    let_go(words, layout, seat, at, RecordName { kind, number: name });
    clean(words, layout, seat, kind, slot);
}
