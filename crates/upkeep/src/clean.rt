//! How a slot comes to hold nothing, and its words to be 0.
ghost use Rattle.std.specs.Prelude.{◌≡◌, ◌<◌, ℕ, [], ◌∷◌};
ghost use Rattle.arena.specs.Layout.{IsWord, table_size};
ghost use Rattle.arena.specs.Words.{offset};
ghost use Rattle.arena.specs.declared.word.Word.{Word};
ghost use Rattle.resting.specs.Records.{record_of};
ghost use Rattle.slots.specs.Lasting.{IsOwnRecord, IsTaken};
ghost use Rattle.tables.specs.LastingNotes.{IsAmongThese, noted_as};
ghost use Rattle.tables.specs.LastingSlots.{memory_let_go, memory_cleared};
ghost use Rattle.tables.specs.Seats.{IsSameSeat};
ghost use Rattle.tables.specs.TableRule.{past_of};
ghost use Rattle.tables.specs.declared.memory.NoteView.{NoteView};
ghost use Rattle.tables.specs.declared.view.SeatedPass.{SeatedPass};
ghost use Rattle.upkeep.specs.UpkeepSteps.{RestsOn};
ghost use Rattle.upkeep.specs.UpkeepBook.{HasFreed, IsAtLasting, NowRemembers, name_numbered, parts_of, record_numbered, slots_in};

use crate::kind::{RecordKind, RecordName};
use crate::part::{parts_of, word_at};
use arena::{Layout, Shape, Word};
use atomic_table::Seat;
use std::marker::Brand;
use tables::lasting_laws::slots_last;
use tables::view::SeatView;
use tables::words::Words;

/// Lets a record go that is out of reach: its slot holds nothing from now on.
pub fn let_go<S: Shape>(
    words: &Words<S>,
    layout: &Layout,
    seat: &mut Seat<u8, SeatView>,
    at: usize,
    name: RecordName,
)
    requires { (p : SeatedPass) × IsAtLasting words.now layout.now seat.old p
        × (at < table_size layout.now)
        × IsAmongThese (name_numbered name.kind name.number) p.memory.holds
        × IsAmongThese (noted_as (name_numbered name.kind name.number) NoteView.OutOfReach) p.memory.notes
        × IsTaken (past_of p []) (record_numbered name.kind name.number) }
    ensures table { IsSameSeat seat.old seat.new }
    ensures looked { RestsOn S.allows
        (NowRemembers (λ m rows. memory_let_go (slots_in words.now) m (name_numbered name.kind name.number)))
        seat.old.me.0 seat.new.me.0 }
{
    slots_last::<S>();
    words.load_with::<Brand, RecordName>(seat, at, name);
}

/// Stores 0 in the word at this place of a slot that holds nothing.
fn clear<S: Shape>(
    words: &Words<S>,
    layout: &Layout,
    seat: &mut Seat<u8, SeatView>,
    kind: RecordKind,
    slot: u64,
    place: u8,
)
    requires place { place < parts_of kind }
    requires empty { (p : SeatedPass) × IsAtLasting words.now layout.now seat.old p
        × IsOwnRecord layout.now p.number.0 (record_numbered kind slot)
        × IsAmongThese (name_numbered kind slot) p.memory.empty }
    ensures table { IsSameSeat seat.old seat.new }
    ensures cleared { (word : Word)
        × RestsOn S.allows (NowRemembers (λ m rows. memory_cleared m word)) seat.old.me.0 seat.new.me.0
        × (record_of word ≡ record_numbered kind slot)
        × ((other : Word) → IsWord layout.now other → record_of other ≡ record_numbered kind slot
        → offset other ≡ place → other ≡ word) }
{
    slots_last::<S>();
    let word = word_at(kind, slot, place);
    let at = layout.place(word);
    words.store_with::<Brand, Word>(seat, at, 0, word);
}

/// Stores 0 in each word of a slot that holds nothing.
pub fn clean<S: Shape>(
    words: &Words<S>,
    layout: &Layout,
    seat: &mut Seat<u8, SeatView>,
    kind: RecordKind,
    slot: u64,
)
    requires { (p : SeatedPass) × IsAtLasting words.now layout.now seat.old p
        × IsOwnRecord layout.now p.number.0 (record_numbered kind slot)
        × IsAmongThese (name_numbered kind slot) p.memory.empty }
    ensures table { IsSameSeat seat.old seat.new }
    ensures cleaned { RestsOn S.allows (HasFreed (slots_in words.now) kind slot)
        seat.old.me.0 seat.new.me.0 }
{
    for place in 0..parts_of(kind) {
        clear(words, layout, seat, kind, slot, place);
    }
}
