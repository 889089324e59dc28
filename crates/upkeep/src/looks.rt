//! Looks by which a pass learns what of its own records is dead, and that all have rested since.
ghost use Rattle.std.specs.Prelude.{◌≡◌, ◌<◌, ℕ, false, if◌then◌else◌, List, [], ◌∷◌};
ghost use Rattle.slots.specs.Lasting.{IsOwnRecord, IsTaken};
ghost use Rattle.arena.specs.Layout.{table_size};
ghost use Rattle.arena.specs.History.{Extends, History};
ghost use Rattle.arena.specs.declared.step.Row.{Row};
ghost use Rattle.resting.specs.Dead.{IsOut};
ghost use Rattle.tables.specs.LastingNotes.{IsUnneeded};
ghost use Rattle.tables.specs.Seats.{IsSameSeat};
ghost use Rattle.tables.specs.TableRule.{history_of, past_of};
ghost use Rattle.tables.specs.declared.memory.NoteView.{NoteView};
ghost use Rattle.tables.specs.declared.view.SeatedPass.{SeatedPass};
ghost use Rattle.upkeep.specs.UpkeepSteps.{RestsOn};
ghost use Rattle.upkeep.specs.UpkeepBook.{HasPeriodEnded, IsAtLasting, IsNameIn, NowRemembers, WasFound, WasDying, memory_with_note, name_numbered, record_numbered, slots_in};
ghost use Rattle.upkeep.specs.declared.kind.RecordKind.{RecordKind};

use crate::kind::RecordName;
use crate::lasting_sights::sights_last;
use arena::{Layout, NodeNo, NodeWord, Shape, Word};
use atomic_table::Seat;
use std::marker::Brand;
use tables::lasting_laws::looks_last;
use tables::view::SeatView;
use tables::words::Words;

/// Looks whether the node of this name, in this slot, is marked, and notes it.
pub fn is_marked<S: Shape>(
    words: &Words<S>,
    layout: &Layout,
    seat: &mut Seat<u8, SeatView>,
    slot: u64,
    name: u64,
) -> bool
    requires { (p : SeatedPass) × IsAtLasting words.now layout.now seat.old p
        × IsOwnRecord layout.now p.number.0 (record_numbered RecordKind.Node slot)
        × IsNameIn (slots_in words.now) p.number.0 p.memory RecordKind.Node slot name
        × IsTaken (past_of p []) (record_numbered RecordKind.Node name) }
    ensures table { IsSameSeat seat.old seat.new }
    ensures looked { RestsOn S.allows (NowRemembers
        (λ m rows. if result
        then memory_with_note m (name_numbered RecordKind.Node name) (NoteView.MarkedOrDead rows)
        else m))
        seat.old.me.0 seat.new.me.0 }
{
    sights_last::<S>();
    let at = layout.place(Word::Node(NodeNo(slot), NodeWord::Marked));
    words.load_with::<Brand, u64>(seat, at, name) != 0
}

/// Notes that a node is out of the tree that the pass had taken as it rested, as it has found out
/// since.
pub fn note_out<S: Shape>(
    words: &Words<S>,
    layout: &Layout,
    seat: &mut Seat<u8, SeatView>,
    at: usize,
    name: u64,
)
    requires { (p : SeatedPass) × (m : History) × IsAtLasting words.now layout.now seat.old p
        × (at < table_size layout.now) × (p.memory.away ≡ false) × Extends (past_of p []) m
        × IsOut p.layout p.number.0 (history_of p.planting p.memory.rested) m name }
    ensures table { IsSameSeat seat.old seat.new }
    ensures looked { RestsOn S.allows (NowRemembers
        (λ m rows. memory_with_note m (name_numbered RecordKind.Node name) (NoteView.MarkedOrDead rows)))
        seat.old.me.0 seat.new.me.0 }
{
    sights_last::<S>();
    words.load_with::<Brand, u64>(seat, at, name);
}

/// Notes that a record is dead by now that was found before a period which is over.
pub fn note_dying<S: Shape>(
    words: &Words<S>,
    layout: &Layout,
    seat: &mut Seat<u8, SeatView>,
    at: usize,
    name: RecordName,
)
    requires { (p : SeatedPass) × (since : List Row) × IsAtLasting words.now layout.now seat.old p
        × (at < table_size layout.now) × HasPeriodEnded (slots_in words.now) p since
        × WasFound p.planting p.memory since name.kind name.number }
    ensures table { IsSameSeat seat.old seat.new }
    ensures looked { RestsOn S.allows
        (NowRemembers (λ m rows. memory_with_note m (name_numbered name.kind name.number) (NoteView.DeadBy rows)))
        seat.old.me.0 seat.new.me.0 }
{
    looks_last::<S>();
    words.load_with::<Brand, RecordName>(seat, at, name);
}

/// Notes that a record is out of reach that was dying before a period which is over.
pub fn note_gone<S: Shape>(
    words: &Words<S>,
    layout: &Layout,
    seat: &mut Seat<u8, SeatView>,
    at: usize,
    name: RecordName,
)
    requires { (p : SeatedPass) × (since : List Row) × IsAtLasting words.now layout.now seat.old p
        × (at < table_size layout.now) × HasPeriodEnded (slots_in words.now) p since
        × WasDying p.planting p.memory since name.kind name.number }
    ensures table { IsSameSeat seat.old seat.new }
    ensures looked { RestsOn S.allows
        (NowRemembers (λ m rows. memory_with_note m (name_numbered name.kind name.number) NoteView.OutOfReach))
        seat.old.me.0 seat.new.me.0 }
{
    looks_last::<S>();
    words.load_with::<Brand, RecordName>(seat, at, name);
}

/// Notes that a record is out of reach that was of no use as the pass rested.
pub fn note_unneeded<S: Shape>(
    words: &Words<S>,
    layout: &Layout,
    seat: &mut Seat<u8, SeatView>,
    at: usize,
    name: RecordName,
)
    requires { (p : SeatedPass) × IsAtLasting words.now layout.now seat.old p
        × (at < table_size layout.now) × (p.memory.away ≡ false)
        × IsUnneeded p.layout p.number.0 (record_numbered name.kind name.number)
        (history_of p.planting p.memory.rested) }
    ensures table { IsSameSeat seat.old seat.new }
    ensures looked { RestsOn S.allows
        (NowRemembers (λ m rows. memory_with_note m (name_numbered name.kind name.number) NoteView.OutOfReach))
        seat.old.me.0 seat.new.me.0 }
{
    sights_last::<S>();
    words.load_with::<Brand, RecordName>(seat, at, name);
}
