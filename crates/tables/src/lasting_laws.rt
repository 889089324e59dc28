//! What keeps the rule of a table that lasts: what its seats may do, and what they learn.
ghost use Rattle.std.specs.Prelude.{◌≡◌, ◌+◌, ◌*◌, ◌<◌, ℕ, suc, List, [], ◌∷◌, Some};
ghost use Rattle.atomic_table.specs.Table.{Allows, Joins, Me, Splits, opening};
ghost use Rattle.arena.specs.declared.step.Row.{Row};
ghost use Rattle.arena.specs.declared.word.Word.{Word};
ghost use Rattle.arena.specs.ScxRecords.{count};
ghost use Rattle.arena.specs.History.{History};
ghost use Rattle.arena.specs.Layout.{IsWord, place};
ghost use Rattle.arena.specs.Machines.{IsRun, IsTold};
ghost use Rattle.arena.specs.Share.{Remaining};
ghost use Rattle.histories.specs.Common.{word_after};
ghost use Rattle.ordered_map.specs.Runs.{IsMapRun};
ghost use Rattle.planting.specs.Plantings.{PlantingView};
ghost use Rattle.prims.specs.Moments.{AreFinished};
ghost use Rattle.prims.specs.Shares.{IsShare};
ghost use Rattle.resting.specs.Records.{record_of};
ghost use Rattle.slots.specs.Counts.{rests_place};
ghost use Rattle.slots.specs.Lasting.{IsTaken, Lasting, table_place};
ghost use Rattle.tables.specs.LastingMemory.{record_at};
ghost use Rattle.tables.specs.LastingNames.{MayGiveName, memory_with_node, memory_with_scx, node_ahead, past_nodes, past_scxs, scx_ahead};
ghost use Rattle.tables.specs.LastingNotes.{HasSeenAllRest, IsBefore, IsAmongThese, memory_away, memory_looked, memory_noted, memory_polled, memory_rested, noted_as};
ghost use Rattle.tables.specs.LastingRule.{GoesOnWith, LearnsWith, MayStepOn, TableLasts};
ghost use Rattle.tables.specs.LastingSlots.{IsLastDealt, IsNotBefore, memory_cleared, memory_given_back, memory_let_go};
ghost use Rattle.tables.specs.LastingOpening.{OpensLasting, first_view};
ghost use Rattle.tables.specs.Passes.{Each};
ghost use Rattle.tables.specs.TableRule.{Made, first_of_seat, history_of, joined_seat, past_of, rest_of_seat, seat_view};
ghost use Rattle.tables.specs.declared.view.SeatView.{SeatView};
ghost use Rattle.tables.specs.declared.memory.Noted.{Noted};
ghost use Rattle.tables.specs.declared.memory.NoteView.{NoteView};
ghost use Rattle.tables.specs.declared.memory.Polled.{Polled};
ghost use Rattle.tables.specs.declared.memory.RecordNo.{RecordNo};
ghost use Rattle.tables.specs.declared.rule.CallStep.{CallStep};
ghost use Rattle.tables.specs.declared.view.SeatedPass.{SeatedPass};

use arena::Shape;
use resting::{dead_comes_back, notes_hold, unborn_stays_out};

/// A pass that is there makes a step of a map's call that began since its last rest, on a word of a
/// record in its slot. It tells what such a step tells in a table that is filled
/// once, and leaves what the pass remembers. It does nothing; a caller learns this from its
/// contract.
pub fn steps_last<S: Shape>()
    ensures { (t : Lasting) (planting : PlantingView)
        (slots id : ℕ) (me : Me ℕ SeatView) (said : CallStep) (at : ℕ) (f told : ℕ → ℕ)
        (p : SeatedPass)
        → ((h : History) → IsRun S.allows t.lay h → IsMapRun t.lay h)
        → at ≡ table_place t said.step.word
        → ((n : ℕ) → f n ≡ word_after said.step.access n)
        → ((n : ℕ) → IsTold said.step.access n (told n))
        → me.0.passes ≡ p ∷ [] → MayStepOn S.allows said p
        → Allows (TableLasts S.allows t planting) slots id me at f
        (λ n w. Made S.allows said me.0.passes (told n) w.0.passes
        × (w.1 ≡ me.1)) }
{
    unborn_stays_out();
}

/// A pass all of whose SCX-records are finished, as they are between two calls, rests or comes back
/// by one store, and goes away by one. It does nothing; a caller learns this from its contract.
pub fn rests_last<S: Shape>()
    ensures rests { (t : Lasting) (planting : PlantingView)
        (slots id : ℕ) (me : Me ℕ SeatView) (p : SeatedPass)
        → me.0.passes ≡ p ∷ [] → p.number.0 < t.lay.passes
        → AreFinished p.layout p.number.0 0 (past_of p [])
        → Allows (TableLasts S.allows t planting) slots id me (rests_place t.table p.number.0)
        (λ n. 2 * suc p.memory.often)
        (λ n w. LearnsWith S.allows (memory_rested p.memory) me.0 w.0 × (w.1 ≡ me.1)) }
    ensures leaves { (t : Lasting) (planting : PlantingView)
        (slots id : ℕ) (me : Me ℕ SeatView) (p : SeatedPass)
        → me.0.passes ≡ p ∷ [] → p.number.0 < t.lay.passes
        → AreFinished p.layout p.number.0 0 (past_of p [])
        → Allows (TableLasts S.allows t planting) slots id me (rests_place t.table p.number.0)
        (λ n. 2 * p.memory.often + 1)
        (λ n w. LearnsWith S.allows (λ rows. memory_away p.memory) me.0 w.0 × (w.1 ≡ me.1)) }
{
    unborn_stays_out();
}

/// A pass looks at how often another has rested, and looks again; and when it knows that all have
/// rested since a moment, what it has noted of names by then goes on. It does nothing; a caller
/// learns this from its contract.
pub fn looks_last<S: Shape>()
    ensures first { (t : Lasting) (planting : PlantingView)
        (slots id : ℕ) (me : Me ℕ SeatView) (p : SeatedPass) (q : ℕ)
        → me.0.passes ≡ p ∷ [] → q < t.lay.passes
        → Allows (TableLasts S.allows t planting) slots id me (rests_place t.table q) (λ n. n)
        (λ n w. LearnsWith S.allows (memory_looked p.memory q n) me.0 w.0 × (w.1 ≡ me.1)) }
    ensures again { (t : Lasting) (planting : PlantingView)
        (slots id : ℕ) (me : Me ℕ SeatView) (p : SeatedPass) (poll : Polled)
        (seen : ℕ) → me.0.passes ≡ p ∷ []
        → IsAmongThese poll p.memory.polls → poll.waits ≡ Some seen
        → Allows (TableLasts S.allows t planting) slots id me (rests_place t.table poll.pass.0)
        (λ n. n)
        (λ n w. LearnsWith S.allows (λ rows. memory_polled p.memory poll seen n) me.0 w.0
        × (w.1 ≡ me.1)) }
    ensures notes { (t : Lasting) (planting : PlantingView)
        (slots id : ℕ) (me : Me ℕ SeatView) (p : SeatedPass) (at : ℕ)
        (since : List Row) (chosen : List Noted) → me.0.passes ≡ p ∷ []
        → p.number.0 < t.lay.passes → HasSeenAllRest t.lay p since
        → Each (λ n. IsAmongThese n p.memory.notes × IsBefore p.planting
        (history_of p.planting since) n.note)
        chosen
        → Allows (TableLasts S.allows t planting) slots id me at (λ n. n)
        (λ n w. LearnsWith S.allows (memory_noted p.memory chosen) me.0 w.0 × (w.1 ≡ me.1)) }
{
    unborn_stays_out();
    dead_comes_back();
    notes_hold();
}

/// A slot whose record is out of reach holds nothing from now on, nor does that of the last name
/// that is dealt, if it is given back; and the words of such a slot are stored 0. It does nothing;
/// a caller learns this from its contract.
pub fn slots_last<S: Shape>()
    ensures lets_go { (t : Lasting)
        (planting : PlantingView) (slots id : ℕ) (me : Me ℕ SeatView) (p : SeatedPass) (at : ℕ)
        (name : RecordNo) → me.0.passes ≡ p ∷ [] → IsAmongThese name p.memory.holds
        → IsAmongThese (noted_as name NoteView.OutOfReach) p.memory.notes
        → IsTaken (past_of p []) (record_at name)
        → Allows (TableLasts S.allows t planting) slots id me at (λ n. n)
        (λ n w. LearnsWith S.allows (λ rows. memory_let_go t p.memory name) me.0 w.0
        × (w.1 ≡ me.1)) }
    ensures gives_back { (t : Lasting) (planting : PlantingView) (slots id : ℕ)
        (me : Me ℕ SeatView) (p : SeatedPass) (at : ℕ) (name : RecordNo)
        (left : Remaining) → me.0.passes ≡ p ∷ []
        → p.number.0 < t.lay.passes → IsAmongThese name p.memory.holds
        → IsLastDealt p.memory (record_at name)
        → IsShare p.layout (past_of p []) p.number.0 left left.next_node left.next_scx
        → IsNotBefore left (record_at name)
        → Allows (TableLasts S.allows t planting) slots id me at (λ n. n)
        (λ n w. LearnsWith S.allows (λ rows. memory_given_back t p.memory name) me.0 w.0
        × (w.1 ≡ me.1)) }
    ensures zeros { (t : Lasting) (planting : PlantingView)
        (slots id : ℕ) (me : Me ℕ SeatView) (p : SeatedPass) (word : Word)
        (slot : RecordNo) → me.0.passes ≡ p ∷ []
        → IsAmongThese slot p.memory.empty → record_at slot ≡ record_of word → IsWord t.table word
        → Allows (TableLasts S.allows t planting) slots id me (place t.table word) (λ n. 0)
        (λ n w. LearnsWith S.allows (λ rows. memory_cleared p.memory word) me.0 w.0
        × (w.1 ≡ me.1)) }
{
    unborn_stays_out();
}

/// How a table opens. A pass gives a clean slot the name behind those that are dealt; or a later
/// one, if it has taken all that are, and passes over those on the way. It does nothing; a caller
/// learns this from its contract.
pub fn names_last<S: Shape>()
    ensures opens { (t : Lasting) (planting : PlantingView)
        (words : List ℕ) → OpensLasting S.allows t planting words
        → TableLasts S.allows t planting (opening words [] (first_view t planting)) }
    ensures next_node { (t : Lasting) (planting : PlantingView) (slots id : ℕ)
        (me : Me ℕ SeatView) (p : SeatedPass) (at : ℕ) (left : Remaining)
        (slot : RecordNo) → me.0.passes ≡ p ∷ []
        → MayGiveName t p left (node_ahead p.memory 0) slot
        → IsNotBefore left (record_at (node_ahead p.memory 0))
        → Allows (TableLasts S.allows t planting) slots id me at (λ n. n)
        (λ n w. LearnsWith S.allows (memory_with_node p.memory 0 slot) me.0 w.0 × (w.1 ≡ me.1)) }
    ensures next_scx { (t : Lasting) (planting : PlantingView) (slots id : ℕ)
        (me : Me ℕ SeatView) (p : SeatedPass) (at : ℕ) (left : Remaining)
        (slot : RecordNo) → me.0.passes ≡ p ∷ []
        → MayGiveName t p left (scx_ahead p.memory 0) slot
        → IsNotBefore left (record_at (scx_ahead p.memory 0))
        → Allows (TableLasts S.allows t planting) slots id me at (λ n. n)
        (λ n w. LearnsWith S.allows (memory_with_scx p.memory 0 slot) me.0 w.0 × (w.1 ≡ me.1)) }
    ensures nodes { (t : Lasting) (planting : PlantingView)
        (slots id : ℕ) (me : Me ℕ SeatView) (p : SeatedPass) (at count : ℕ)
        (left : Remaining) (slot : RecordNo) → me.0.passes ≡ p ∷ []
        → MayGiveName t p left (node_ahead p.memory count) slot
        → left.next_node ≡ p.memory.nodes_to
        → Allows (TableLasts S.allows t planting) slots id me at (λ n. n)
        (λ n w. GoesOnWith S.allows (past_nodes p.number.0 p.memory.nodes_to count)
        (memory_with_node p.memory count slot) me.0 w.0 × (w.1 ≡ me.1)) }
    ensures scx { (t : Lasting) (planting : PlantingView)
        (slots id : ℕ) (me : Me ℕ SeatView) (p : SeatedPass) (at count : ℕ)
        (left : Remaining) (slot : RecordNo) → me.0.passes ≡ p ∷ []
        → MayGiveName t p left (scx_ahead p.memory count) slot
        → left.next_scx ≡ p.memory.scx_to
        → Allows (TableLasts S.allows t planting) slots id me at (λ n. n)
        (λ n w. GoesOnWith S.allows (past_scxs p.number.0 p.memory.scx_to count)
        (memory_with_scx p.memory count slot) me.0 w.0 × (w.1 ≡ me.1)) }
{
    unborn_stays_out();
}

/// The first pass of a seat goes to a seat of its own, and a seat takes in the passes of another.
/// It does nothing; a caller learns this from its contract.
pub fn seats_last<S: Shape>()
    ensures deals { (t : Lasting) (planting : PlantingView) (id : ℕ) (v : SeatView)
        → Splits (TableLasts S.allows t planting) id v (rest_of_seat v) (first_of_seat v) }
    ensures joins { (t : Lasting) (planting : PlantingView) (id other : ℕ) (v w : SeatView)
        → Joins (TableLasts S.allows t planting) id v other w (joined_seat v w) (seat_view []) }
{}
