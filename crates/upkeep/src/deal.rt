//! How free slots of a pass get names, so many in a row, which its share then gives.
ghost use Rattle.std.specs.Prelude.{◌≡◌, ◌+◌, ◌-◌, ◌<◌, ◌≤◌, List, IfSome, IsTrue, length, set};
ghost use Rattle.arena.specs.Share.{Remaining};
ghost use Rattle.arena.specs.declared.step.Row.{Row};
ghost use Rattle.tables.specs.Seats.{IsSameSeat};
ghost use Rattle.tables.specs.declared.view.SeatedPass.{SeatedPass};
ghost use Rattle.upkeep.specs.UpkeepBook.{IsAtLasting, IsBook, slots_in};
ghost use Rattle.upkeep.specs.UpkeepDeals.{AreSlotsStill, DealsOn, HasDealt, HasShareLeft, HasNameFor, IsFreeAt, IsNameAt, next_of};
ghost use Rattle.upkeep.specs.UpkeepSteps.{RestsOn};
ghost use Rattle.upkeep.specs.declared.book.SlotUse.{SlotUse};

use crate::book::{OwnSlot, OwnSlots, SlotUse};
use crate::clean::clean;
use crate::kind::RecordName;
use crate::names::{Given, give_back, give_next, pass_to};
use crate::part::word_at;
use arena::{Layout, Shape};
use atomic_table::Seat;
use tables::view::SeatView;
use tables::words::Words;

impl OwnSlots {
    /// Whether a slot is free.
    fn is_free(&self, i: usize) -> bool
        requires { i < length self.now.slots.items }
        ensures { IsTrue result → IsFreeAt self.now i }
    {
        match self.slots[i].known {
            SlotUse::Free => true,
            _ => false,
        }
    }

    /// How many names are passed over before the next name of a slot, if there is one.
    fn names_before(&self, i: usize) -> Option<u64>
        requires { i < length self.now.slots.items }
        ensures { IfSome result (HasNameFor self.now i) }
    {
        let slot = self.first + i as u64;
        let at = self.dealt % self.turn;
        if slot >= self.turn {
            return None;
        }
        let count = if at <= slot {
            slot - at
        } else {
            self.turn - at + slot
        };
        if self.dealt + count < self.end {
            Some(count)
        } else {
            None
        }
    }

    /// The slot gets a name, and the names up to that one are dealt, or passed over.
    fn put(&mut self, i: usize, name: u64)
        requires inside { i < length self.old.slots.items }
        requires name { name < self.old.end }
        ensures still { AreSlotsStill self.old self.new }
        ensures dealt { self.new.dealt ≡ name + 1 }
        ensures slots { self.new.slots.items
            ≡ set self.old.slots.items i record { name = name; known = SlotUse.Used } }
    {
        self.slots[i] = OwnSlot {
            name,
            known: SlotUse::Used,
        };
        self.dealt = name + 1;
    }
}

/// Gives a free slot its next name, and passes over those before it; all that were dealt are taken.
fn put_first<S: Shape>(
    words: &Words<S>,
    layout: &Layout,
    seat: &mut Seat<u8, SeatView>,
    own: &mut OwnSlots,
    i: usize,
    count: u64,
)
    requires slot { IsFreeAt own.old i × HasNameFor own.old i count }
    requires pass { (p : SeatedPass) × (left : Remaining) × (since : List Row)
        × IsAtLasting words.now layout.now seat.old p × HasShareLeft S.allows p left
        × (next_of own.old.kind left ≡ own.old.dealt) × IsBook (slots_in words.now) p since own.old }
    ensures table { IsSameSeat seat.old seat.new }
    ensures still { AreSlotsStill own.old own.new }
    ensures dealt { own.new.dealt ≡ own.old.dealt + count + 1 }
    ensures given { DealsOn
        (HasDealt S.allows (slots_in words.now) own.old own.new own.old.dealt (own.old.dealt + count))
        seat.old.me.0 seat.new.me.0 }
{
    let slot = own.first + i as u64;
    let at = layout.place(word_at(own.kind, slot, 0));
    let given = Given {
        kind: own.kind,
        slot,
        count,
    };
    pass_to(words, layout, seat, at, given);
    own.put(i, own.dealt + count);
}

/// Gives a free slot the name behind those that are dealt, of which those from `next` on are left.
fn put_next<S: Shape>(
    words: &Words<S>,
    layout: &Layout,
    seat: &mut Seat<u8, SeatView>,
    own: &mut OwnSlots,
    i: usize,
    next: u64,
)
    requires slot { IsFreeAt own.old i × HasNameFor own.old i 0 }
    requires next { next ≤ own.old.dealt }
    requires pass { (p : SeatedPass) × (left : Remaining) × (since : List Row)
        × IsAtLasting words.now layout.now seat.old p × HasShareLeft S.allows p left
        × (next_of own.old.kind left ≡ next) × IsBook (slots_in words.now) p since own.old }
    ensures table { IsSameSeat seat.old seat.new }
    ensures still { AreSlotsStill own.old own.new }
    ensures dealt { own.new.dealt ≡ own.old.dealt + 1 }
    ensures given { RestsOn S.allows
        (HasDealt S.allows (slots_in words.now) own.old own.new next next)
        seat.old.me.0 seat.new.me.0 }
{
    let number = own.first + i as u64;
    let at = layout.place(word_at(own.kind, number, 0));
    let slot = RecordName {
        kind: own.kind,
        number,
    };
    give_next(words, layout, seat, at, slot);
    own.put(i, own.dealt);
}

impl OwnSlots {
    /// The slot that holds a name, and is in use.
    pub fn slot_of(&self, name: u64) -> Option<usize>
        ensures { IfSome result (IsNameAt self.now name) }
    {
        let i = (name % self.turn).checked_sub(self.first)? as usize;
        match self.slots.as_slice().get(i)? {
            OwnSlot {
                name: held,
                known: SlotUse::Used,
            } if *held == name => Some(i),
            _ => None,
        }
    }

    /// The slot holds nothing, and the names up to this one are dealt.
    fn take_from(&mut self, i: usize, name: u64)
        requires inside { i < length self.old.slots.items }
        requires name { name < self.old.dealt }
        ensures still { AreSlotsStill self.old self.new }
        ensures dealt { self.new.dealt ≡ name }
        ensures slots { self.new.slots.items
            ≡ set self.old.slots.items i record { name = name; known = SlotUse.Free } }
    {
        self.slots[i] = OwnSlot {
            name,
            known: SlotUse::Free,
        };
        self.dealt = name;
    }
}

/// Gives back the last name that is dealt, which is one of those from `next` on, and says whether
/// it did. Its slot is free then.
fn take_back<S: Shape>(
    words: &Words<S>,
    layout: &Layout,
    seat: &mut Seat<u8, SeatView>,
    own: &mut OwnSlots,
    next: u64,
) -> bool
    requires next { next < own.old.dealt }
    requires pass { (p : SeatedPass) × (left : Remaining) × (since : List Row)
        × IsAtLasting words.now layout.now seat.old p × HasShareLeft S.allows p left
        × (next_of own.old.kind left ≡ next) × IsBook (slots_in words.now) p since own.old }
    ensures table { IsSameSeat seat.old seat.new }
    ensures still { AreSlotsStill own.old own.new }
    ensures dealt { IsTrue result → own.new.dealt + 1 ≡ own.old.dealt }
    ensures more { (next ≤ own.new.dealt) × (own.new.dealt ≤ own.old.dealt) }
    ensures given { RestsOn S.allows
        (HasDealt S.allows (slots_in words.now) own.old own.new next next)
        seat.old.me.0 seat.new.me.0 }
{
    let name = own.dealt - 1;
    match own.slot_of(name) {
        Some(i) => {
            free_last(words, layout, seat, own, next, name, i);
            true
        }
        None => false,
    }
}

/// Gives back the last name that is dealt, which this slot holds.
fn free_last<S: Shape>(
    words: &Words<S>,
    layout: &Layout,
    seat: &mut Seat<u8, SeatView>,
    own: &mut OwnSlots,
    next: u64,
    name: u64,
    i: usize,
)
    requires next { next ≤ name }
    requires name { name + 1 ≡ own.old.dealt }
    requires slot { IsNameAt own.old name i }
    requires pass { (p : SeatedPass) × (left : Remaining) × (since : List Row)
        × IsAtLasting words.now layout.now seat.old p × HasShareLeft S.allows p left
        × (next_of own.old.kind left ≡ next) × IsBook (slots_in words.now) p since own.old }
    ensures table { IsSameSeat seat.old seat.new }
    ensures still { AreSlotsStill own.old own.new }
    ensures dealt { own.new.dealt ≡ name }
    ensures given { RestsOn S.allows
        (HasDealt S.allows (slots_in words.now) own.old own.new next next)
        seat.old.me.0 seat.new.me.0 }
{
    let slot = own.first + i as u64;
    let at = layout.place(word_at(own.kind, slot, 0));
    let last = RecordName {
        kind: own.kind,
        number: name,
    };
    give_back(words, layout, seat, at, last);
    clean(words, layout, seat, own.kind, slot);
    own.take_from(i, name);
}

/// Gives back the names that are dealt from `next` on, which nobody has taken.
fn take_back_to<S: Shape>(
    words: &Words<S>,
    layout: &Layout,
    seat: &mut Seat<u8, SeatView>,
    own: &mut OwnSlots,
    next: u64,
)
    requires next { next ≤ own.old.dealt }
    requires pass { (p : SeatedPass) × (left : Remaining) × (since : List Row)
        × IsAtLasting words.now layout.now seat.old p × HasShareLeft S.allows p left
        × (next_of own.old.kind left ≡ next) × IsBook (slots_in words.now) p since own.old }
    ensures table { IsSameSeat seat.old seat.new }
    ensures still { AreSlotsStill own.old own.new }
    ensures more { (next ≤ own.new.dealt) × (own.new.dealt ≤ own.old.dealt) }
    ensures given { RestsOn S.allows
        (HasDealt S.allows (slots_in words.now) own.old own.new next next)
        seat.old.me.0 seat.new.me.0 }
{
    while next < own.dealt {
        if !take_back(words, layout, seat, own, next) {
            return;
        }
    }
}

/// Gives names to free slots from this one on, as long as no name is passed over by that. Those
/// from `next` on are left.
fn put_more<S: Shape>(
    words: &Words<S>,
    layout: &Layout,
    seat: &mut Seat<u8, SeatView>,
    own: &mut OwnSlots,
    from: usize,
    next: u64,
)
    requires inside { from ≤ length own.old.slots.items }
    requires next { next ≤ own.old.dealt }
    requires pass { (p : SeatedPass) × (left : Remaining) × (since : List Row)
        × IsAtLasting words.now layout.now seat.old p × HasShareLeft S.allows p left
        × (next_of own.old.kind left ≡ next) × IsBook (slots_in words.now) p since own.old }
    ensures table { IsSameSeat seat.old seat.new }
    ensures still { AreSlotsStill own.old own.new }
    ensures more { own.old.dealt ≤ own.new.dealt }
    ensures few { own.new.dealt ≤ own.old.dealt + (length own.old.slots.items - from) }
    ensures given { RestsOn S.allows
        (HasDealt S.allows (slots_in words.now) own.old own.new next next)
        seat.old.me.0 seat.new.me.0 }
{
    for i in from..own.slots.len() {
        match own.names_before(i) {
            Some(0) if own.is_free(i) => put_next(words, layout, seat, own, i, next),
            _ => return,
        }
    }
}

/// So many slots behind the hand are looked at first.
const NEAR: usize = 256;

/// A run of fewer names is taken only where none nearby is longer.
const FEW: usize = 16;

/// No run is looked for that is longer.
const ENOUGH: usize = 64;

/// Slots that are free, one behind the other.
#[derive(Clone, Copy)]
struct FreeRun {
    start: usize,
    count: usize,
}

impl OwnSlots {
    /// The slot of the name behind those that are dealt, or the first if it is none of these.
    fn hand(&self) -> usize
        ensures { result ≤ length self.now.slots.items }
    {
        let slot = self.dealt % self.turn;
        match slot.checked_sub(self.first) {
            Some(i) if i < self.slots.len() as u64 => i as usize,
            _ => 0,
        }
    }

    /// The longest run of free slots between these two, or the first that is long enough.
    fn run_between(&self, from: usize, to: usize) -> FreeRun
        requires { to ≤ length self.now.slots.items }
        ensures { 0 < result.count → result.start < length self.now.slots.items }
    {
        let mut best = FreeRun {
            start: from,
            count: 0,
        };
        let mut start = from;
        for i in from..to {
            if !self.is_free(i) {
                start = i + 1;
            } else if best.count < i + 1 - start {
                best = FreeRun {
                    start,
                    count: i + 1 - start,
                };
            }
            if best.count >= ENOUGH {
                break;
            }
        }
        best
    }

    /// Where the next run of free slots begins: near behind the hand, or else anywhere.
    fn next_run(&self) -> Option<usize>
        ensures { IfSome result (λ i. i < length self.now.slots.items) }
    {
        let all = self.slots.len();
        let hand = self.hand();
        let near = self.run_between(hand, all.min(hand + NEAR));
        let run = if near.count < FEW {
            self.run_between(0, all)
        } else {
            near
        };
        (0 < run.count).then_some(run.start)
    }
}

/// Gives names to free slots from this one on, and answers the first. All that were dealt are
/// taken.
fn put_run<S: Shape>(
    words: &Words<S>,
    layout: &Layout,
    seat: &mut Seat<u8, SeatView>,
    own: &mut OwnSlots,
    i: usize,
) -> u64
    requires slot { IsFreeAt own.old i }
    requires pass { (p : SeatedPass) × (left : Remaining) × (since : List Row)
        × IsAtLasting words.now layout.now seat.old p × HasShareLeft S.allows p left
        × (next_of own.old.kind left ≡ own.old.dealt) × IsBook (slots_in words.now) p since own.old }
    ensures table { IsSameSeat seat.old seat.new }
    ensures still { AreSlotsStill own.old own.new }
    ensures few { (result ≤ own.new.dealt) × (own.new.dealt ≤ result + length own.old.slots.items) }
    ensures given { DealsOn
        (HasDealt S.allows (slots_in words.now) own.old own.new own.old.dealt result)
        seat.old.me.0 seat.new.me.0 }
{
    match own.names_before(i) {
        Some(count) => {
            let next = own.dealt + count;
            put_first(words, layout, seat, own, i, count);
            put_more(words, layout, seat, own, i + 1, next);
            next
        }
        None => own.dealt,
    }
}

/// Deals names to free slots, so many in a row, and answers the first: from there on all that are
/// dealt are left. Those from `next` on that were left are given back first. It makes up to 60
/// steps, and one for each name.
pub fn deal<S: Shape>(
    words: &Words<S>,
    layout: &Layout,
    seat: &mut Seat<u8, SeatView>,
    own: &mut OwnSlots,
    next: u64,
) -> u64
    requires next { next ≤ own.old.dealt }
    requires few { own.old.dealt ≤ next + length own.old.slots.items }
    requires pass { (p : SeatedPass) × (left : Remaining) × (since : List Row)
        × IsAtLasting words.now layout.now seat.old p × HasShareLeft S.allows p left
        × (next_of own.old.kind left ≡ next) × IsBook (slots_in words.now) p since own.old }
    ensures table { IsSameSeat seat.old seat.new }
    ensures still { AreSlotsStill own.old own.new }
    ensures few { (result ≤ own.new.dealt) × (own.new.dealt ≤ result + length own.old.slots.items) }
    ensures given { DealsOn (HasDealt S.allows (slots_in words.now) own.old own.new next result)
        seat.old.me.0 seat.new.me.0 }
{
    take_back_to(words, layout, seat, own, next);
    if next < own.dealt {
        return next;
    }
    match own.next_run() {
        Some(i) if own.is_free(i) => put_run(words, layout, seat, own, i),
        _ => next,
    }
}
