//! How a pass sees that an SCX-record of its own is dead: it is finished, as each is between two
//! calls, and the info of none of its nodes names it any more.
ghost use Rattle.std.specs.Prelude.{◌≡◌, ◌<◌, ℕ, true, IsTrue, if◌then◌else◌, [], ◌∷◌};
ghost use Rattle.arena.specs.Layout.{place, table_size};
ghost use Rattle.arena.specs.ScxRecords.{count, member, plan_finalizes};
ghost use Rattle.arena.specs.Share.{Remaining};
ghost use Rattle.arena.specs.Words.{IsScxWord, info};
ghost use Rattle.arena.specs.declared.number.ScxNo.{ScxNo};
ghost use Rattle.resting.specs.Dead.{WasDoneWith};
ghost use Rattle.slots.specs.Lasting.{IsOwnRecord, IsTaken, table_place};
ghost use Rattle.tables.specs.LastingNotes.{IsAmongThese, memory_done};
ghost use Rattle.tables.specs.Seats.{IsSameSeat};
ghost use Rattle.tables.specs.TableRule.{past_of};
ghost use Rattle.tables.specs.declared.memory.NoteView.{NoteView};
ghost use Rattle.tables.specs.declared.view.SeatedPass.{SeatedPass};
ghost use Rattle.upkeep.specs.UpkeepBook.{IsAtLasting, IsNameIn, KnowsNow, NowRemembers, memory_with_note, name_numbered, record_numbered, slots_in};
ghost use Rattle.upkeep.specs.UpkeepDeals.{HasShareLeft};
ghost use Rattle.upkeep.specs.UpkeepScx.{HasLoaded, IsDoneNoted};
ghost use Rattle.upkeep.specs.UpkeepSteps.{RestsOn};
ghost use Rattle.upkeep.specs.declared.book.SlotUse.{SlotUse};
ghost use Rattle.upkeep.specs.declared.kind.RecordKind.{RecordKind};

use crate::kind::RecordName;
use crate::lasting_sights::{finished_last, sights_last};
use arena::{COMMITTED, Layout, MemberIndex, NodeNo, NodeWord, Plan, ScxNo, ScxWord, Shape, Word};
use atomic_table::Seat;
use std::marker::Brand;
use tables::view::SeatView;
use tables::words::Words;

/// A word of an SCX-record, by its name.
#[derive(Clone, Copy)]
struct ScxPart {
    name: u64,
    part: ScxWord,
}

/// An SCX-record, and the place of one of its nodes.
#[derive(Clone, Copy)]
struct Covered {
    name: u64,
    place: u8,
}

/// Whether an SCX-record of this state and plan has removed its node of this place.
fn has_removed(state: u64, plan: Plan, place: u8) -> bool
    ensures { IsTrue result → (state ≡ 1) × (plan_finalizes plan.0 place ≡ true) }
{
    match MemberIndex::new(place as usize) {
        Some(j) if state == COMMITTED => plan.finalizes(j),
        _ => false,
    }
}

/// Loads a word of the SCX-record of this name, which is in this slot.
fn load_part<S: Shape>(
    words: &Words<S>,
    layout: &Layout,
    seat: &mut Seat<u8, SeatView>,
    slot: u64,
    of: ScxPart,
) -> u64
    requires part { IsScxWord of.part }
    requires pass { (p : SeatedPass) × IsAtLasting words.now layout.now seat.old p
        × IsOwnRecord layout.now p.number.0 (record_numbered RecordKind.Scx slot)
        × IsNameIn (slots_in words.now) p.number.0 p.memory RecordKind.Scx slot of.name }
    ensures table { IsSameSeat seat.old seat.new }
    ensures loaded { RestsOn S.allows (HasLoaded of.name of.part result) seat.old.me.0 seat.new.me.0 }
{
    sights_last::<S>();
    let at = layout.place(Word::Scx(ScxNo(slot), of.part));
    words.load_with::<Brand, ScxPart>(seat, at, of)
}

/// Looks whether the info at this place, of a node that the SCX-record covers, names another, and
/// notes it.
fn is_let_go<S: Shape>(
    words: &Words<S>,
    layout: &Layout,
    seat: &mut Seat<u8, SeatView>,
    at: usize,
    of: Covered,
) -> bool
    requires { (p : SeatedPass) × (left : Remaining) × (n : ℕ)
        × IsAtLasting words.now layout.now seat.old p
        × (at < table_size layout.now) × HasShareLeft S.allows p left
        × (at ≡ table_place (slots_in words.now) (info n))
        × (member (past_of p []) of.name of.place ≡ n)
        × IsAmongThese (name_numbered RecordKind.Scx of.name) p.memory.holds
        × IsTaken (past_of p []) (record_numbered RecordKind.Scx of.name) }
    ensures table { IsSameSeat seat.old seat.new }
    ensures looked { RestsOn S.allows (NowRemembers
        (λ m rows. if result
        then memory_with_note m (name_numbered RecordKind.Scx of.name) (NoteView.DoneWith of.place)
        else m))
        seat.old.me.0 seat.new.me.0 }
{
    finished_last::<S>();
    words.load_with::<Brand, Covered>(seat, at, of) != of.name
}

/// Notes that an SCX-record is dead which is done with all of its nodes.
fn note_over<S: Shape>(
    words: &Words<S>,
    layout: &Layout,
    seat: &mut Seat<u8, SeatView>,
    at: usize,
    name: u64,
)
    requires { (p : SeatedPass) × (left : Remaining) × IsAtLasting words.now layout.now seat.old p
        × (at < table_size layout.now) × HasShareLeft S.allows p left
        × IsAmongThese (name_numbered RecordKind.Scx name) p.memory.holds
        × IsTaken (past_of p []) (record_numbered RecordKind.Scx name)
        × ((j : ℕ) → j < count (past_of p []) name → IsDoneNoted p.memory name j) }
    ensures table { IsSameSeat seat.old seat.new }
    ensures looked { RestsOn S.allows (NowRemembers
        (λ m rows. memory_with_note m (name_numbered RecordKind.Scx name) (NoteView.MarkedOrDead rows)))
        seat.old.me.0 seat.new.me.0 }
{
    finished_last::<S>();
    words.load_with::<Brand, u64>(seat, at, name);
}

/// Whether the info of a node of the SCX-record names another by now; it is noted then. The slot of
/// the node is looked at, whoever is there.
fn is_done_with<S: Shape>(
    words: &Words<S>,
    layout: &Layout,
    seat: &mut Seat<u8, SeatView>,
    slot: u64,
    of: Covered,
    node_turn: u64,
) -> bool
    requires place { of.place < 4 }
    requires turn { (0 < node_turn) × (node_turn ≡ (slots_in words.now).node_turn) }
    requires pass { (p : SeatedPass) × (left : Remaining) × IsAtLasting words.now layout.now seat.old p
        × HasShareLeft S.allows p left × IsOwnRecord layout.now p.number.0 (record_numbered RecordKind.Scx slot)
        × IsNameIn (slots_in words.now) p.number.0 p.memory RecordKind.Scx slot of.name
        × IsTaken (past_of p []) (record_numbered RecordKind.Scx of.name) }
    ensures table { IsSameSeat seat.old seat.new }
    ensures looked { RestsOn S.allows (NowRemembers
        (λ m rows. if result
        then memory_with_note m (name_numbered RecordKind.Scx of.name) (NoteView.DoneWith of.place)
        else m))
        seat.old.me.0 seat.new.me.0 }
{
    let part = ScxPart {
        name: of.name,
        part: ScxWord::Member(of.place),
    };
    let node = load_part(words, layout, seat, slot, part) % node_turn;
    if node >= u64::from(layout.all_nodes()) {
        return false;
    }
    let at = layout.place(Word::Node(NodeNo(node), NodeWord::Info));
    is_let_go(words, layout, seat, at, of)
}

/// Notes that the SCX-record is done with a node, as the pass knows: it is committed, and finalizes
/// the node.
fn note_done<S: Shape>(
    words: &Words<S>,
    layout: &Layout,
    seat: &mut Seat<u8, SeatView>,
    at: usize,
    of: Covered,
)
    requires { (p : SeatedPass) × (left : Remaining) × IsAtLasting words.now layout.now seat.old p
        × (at < table_size layout.now) × HasShareLeft S.allows p left
        × IsAmongThese (name_numbered RecordKind.Scx of.name) p.memory.holds
        × IsTaken (past_of p []) (record_numbered RecordKind.Scx of.name)
        × WasDoneWith p.layout (past_of p []) of.name of.place }
    ensures table { IsSameSeat seat.old seat.new }
    ensures looked { RestsOn S.allows (NowRemembers
        (λ m rows. memory_with_note m (name_numbered RecordKind.Scx of.name) (NoteView.DoneWith of.place)))
        seat.old.me.0 seat.new.me.0 }
{
    finished_last::<S>();
    words.load_with::<Brand, Covered>(seat, at, of);
}

/// Whether the SCX-record is done with a node, which it has removed or is looked at; it is noted
/// then.
fn is_done<S: Shape>(
    words: &Words<S>,
    layout: &Layout,
    seat: &mut Seat<u8, SeatView>,
    at: usize,
    slot: u64,
    of: Covered,
    node_turn: u64,
    removed: bool,
) -> bool
    requires place { of.place < 4 }
    requires turn { (0 < node_turn) × (node_turn ≡ (slots_in words.now).node_turn) }
    requires at { at < table_size layout.now }
    requires pass { (p : SeatedPass) × (left : Remaining) × IsAtLasting words.now layout.now seat.old p
        × HasShareLeft S.allows p left × IsOwnRecord layout.now p.number.0 (record_numbered RecordKind.Scx slot)
        × IsNameIn (slots_in words.now) p.number.0 p.memory RecordKind.Scx slot of.name
        × IsTaken (past_of p []) (record_numbered RecordKind.Scx of.name)
        × (IsTrue removed → WasDoneWith p.layout (past_of p []) of.name of.place) }
    ensures table { IsSameSeat seat.old seat.new }
    ensures looked { RestsOn S.allows (NowRemembers
        (λ m rows. if result
        then memory_with_note m (name_numbered RecordKind.Scx of.name) (NoteView.DoneWith of.place)
        else m))
        seat.old.me.0 seat.new.me.0 }
{
    if removed {
        note_done(words, layout, seat, at, of);
        true
    } else {
        is_done_with(words, layout, seat, slot, of, node_turn)
    }
}

/// Whether the SCX-record of this name, in this slot, is dead; it is noted then. It makes up to 11
/// steps.
pub fn is_over<S: Shape>(
    words: &Words<S>,
    layout: &Layout,
    seat: &mut Seat<u8, SeatView>,
    slot: u64,
    name: u64,
    node_turn: u64,
) -> bool
    requires turn { (0 < node_turn) × (node_turn ≡ (slots_in words.now).node_turn) }
    requires pass { (p : SeatedPass) × (left : Remaining) × IsAtLasting words.now layout.now seat.old p
        × HasShareLeft S.allows p left × IsOwnRecord layout.now p.number.0 (record_numbered RecordKind.Scx slot)
        × IsNameIn (slots_in words.now) p.number.0 p.memory RecordKind.Scx slot name
        × IsTaken (past_of p []) (record_numbered RecordKind.Scx name) }
    ensures table { IsSameSeat seat.old seat.new }
    ensures looked { RestsOn S.allows (KnowsNow (slots_in words.now) RecordKind.Scx slot
        record { name = name; known = if result then SlotUse.Found else SlotUse.Used })
        seat.old.me.0 seat.new.me.0 }
{
    let at = layout.place(Word::Scx(ScxNo(slot), ScxWord::State));
    let part = ScxPart {
        name,
        part: ScxWord::Plan,
    };
    let plan = Plan(load_part(words, layout, seat, slot, part));
    let part = ScxPart {
        name,
        part: ScxWord::State,
    };
    let state = load_part(words, layout, seat, slot, part);
    for place in 0..plan.count() {
        let of = Covered { name, place };
        let removed = has_removed(state, plan, place);
        if !is_done(words, layout, seat, at, slot, of, node_turn, removed) {
            return false;
        }
    }
    note_over(words, layout, seat, at, name);
    true
}
