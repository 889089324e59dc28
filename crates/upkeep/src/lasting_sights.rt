//! What passes of a table that lasts see of its records, and what its words hold.
ghost use Rattle.std.specs.Prelude.{◌≡◌, false, ◌<◌, ℕ, [], ◌∷◌, slice_index};
ghost use Rattle.atomic_table.specs.Table.{Allows, Me, State};
ghost use Rattle.arena.specs.declared.number.NodeNo.{NodeNo};
ghost use Rattle.arena.specs.declared.number.ScxNo.{ScxNo};
ghost use Rattle.arena.specs.declared.word.NodeWord.{NodeWord};
ghost use Rattle.arena.specs.declared.word.Word.{Word};
ghost use Rattle.arena.specs.Fills.{IsTakenNode, IsTakenScx};
ghost use Rattle.arena.specs.ScxRecords.{count, member};
ghost use Rattle.arena.specs.History.{Extends, History, value};
ghost use Rattle.arena.specs.Words.{info, node};
ghost use Rattle.arena.specs.Layout.{IsWord, place};
ghost use Rattle.planting.specs.Plantings.{PlantingView};
ghost use Rattle.prims.specs.Moments.{AreFinished};
ghost use Rattle.touching.specs.Kinds.{IsInTree};
ghost use Rattle.resting.specs.Dead.{IsOut, WasDoneWith};
ghost use Rattle.resting.specs.Records.{record_of, the_node};
ghost use Rattle.slots.specs.Held.{IsHeld};
ghost use Rattle.slots.specs.Lasting.{Lasting, table_place};
ghost use Rattle.tables.specs.LastingMemory.{record_at};
ghost use Rattle.tables.specs.LastingNotes.{memory_left, IsAmongThese, IsUnneeded, memory_done, memory_looked_at, memory_marked, memory_over, memory_unused, noted_as};
ghost use Rattle.tables.specs.LastingRule.{LoadsWord, LearnsWith, TableLasts};
ghost use Rattle.tables.specs.Passes.{Each};
ghost use Rattle.tables.specs.TableRule.{history_of, past_of};
ghost use Rattle.tables.specs.declared.view.SeatView.{SeatView};
ghost use Rattle.tables.specs.declared.memory.NoteView.{NoteView};
ghost use Rattle.tables.specs.declared.memory.RecordNo.{RecordNo};
ghost use Rattle.tables.specs.declared.view.SeatedPass.{SeatedPass};

use arena::Shape;
use resting::{dead_comes_back, unborn_stays_out};

/// A pass loads words of the names that its own slots hold, and sees which nodes are marked; it
/// notes which of those that it had taken as it rested are out of the tree since, as it knows, and
/// that a name is out of reach that was of no use to it then. It does nothing; a caller learns this
/// from its contract.
pub fn sights_last<S: Shape>()
    ensures marks { (t : Lasting) (planting : PlantingView) (slots id : ℕ) (me : Me ℕ SeatView)
        (p : SeatedPass) (node : NodeNo) → me.0.passes ≡ p ∷ [] → p.number.0 < t.lay.passes
        → IsAmongThese (RecordNo.Node node) p.memory.holds → IsTakenNode (past_of p []) node.0
        → Allows (TableLasts S.allows t planting) slots id me
        (table_place t (Word.Node node NodeWord.Marked)) (λ n. n)
        (λ n w. LearnsWith S.allows (memory_marked p.memory (RecordNo.Node node) n) me.0 w.0
        × (w.1 ≡ me.1)) }
    ensures loads { (t : Lasting) (planting : PlantingView) (slots id : ℕ) (me : Me ℕ SeatView)
        (p : SeatedPass) (name : RecordNo) (word : Word) → me.0.passes ≡ p ∷ []
        → p.number.0 < t.lay.passes → IsAmongThese name p.memory.holds
        → record_of word ≡ record_at name → IsWord t.lay word
        → Allows (TableLasts S.allows t planting) slots id me (table_place t word) (λ n. n)
        (λ n w. LoadsWord S.allows p word n me.0 w.0 × (w.1 ≡ me.1)) }
    ensures left { (t : Lasting) (planting : PlantingView) (slots id : ℕ) (me : Me ℕ SeatView)
        (p : SeatedPass) (at : ℕ) (node : NodeNo) (m : History) → me.0.passes ≡ p ∷ []
        → p.number.0 < t.lay.passes → p.memory.away ≡ false → Extends (past_of p []) m
        → IsOut p.layout p.number.0 (history_of p.planting p.memory.rested) m node.0
        → Allows (TableLasts S.allows t planting) slots id me at (λ n. n)
        (λ n w. LearnsWith S.allows (memory_left p.memory node) me.0 w.0
        × (w.1 ≡ me.1)) }
    ensures unused { (t : Lasting) (planting : PlantingView) (slots id : ℕ)
        (me : Me ℕ SeatView) (p : SeatedPass) (at : ℕ) (name : RecordNo)
        → me.0.passes ≡ p ∷ [] → p.number.0 < t.lay.passes
        → p.memory.away ≡ false
        → IsUnneeded p.layout p.number.0 (record_at name) (history_of p.planting p.memory.rested)
        → Allows (TableLasts S.allows t planting) slots id me at (λ n. n)
        (λ n w. LearnsWith S.allows (λ rows. memory_unused p.memory name) me.0 w.0 × (w.1 ≡ me.1)) }
{
    unborn_stays_out();
}

/// A pass that is between two calls sees when an SCX-record of its own is dead. For each node that
/// it covers a look at the place of the node's info tells that it is done with that, whoever is
/// there, if another is named; or the pass knows it, as where it is committed and finalizes the
/// node. It does nothing; a caller learns this from its contract.
pub fn finished_last<S: Shape>()
    ensures looks { (t : Lasting) (planting : PlantingView) (slots id : ℕ) (me : Me ℕ SeatView)
        (p : SeatedPass) (s : ScxNo) (j n : ℕ) → me.0.passes ≡ p ∷ []
        → IsAmongThese (RecordNo.Scx s) p.memory.holds
        → IsTakenScx (past_of p []) s.0 → AreFinished p.layout p.number.0 0 (past_of p [])
        → member (past_of p []) s.0 j ≡ n
        → Allows (TableLasts S.allows t planting) slots id me (table_place t (info n)) (λ v. v)
        (λ v w. LearnsWith S.allows (λ rows. memory_looked_at p.memory s j v) me.0 w.0
        × (w.1 ≡ me.1)) }
    ensures knows { (t : Lasting) (planting : PlantingView) (slots id : ℕ) (me : Me ℕ SeatView)
        (p : SeatedPass) (s : ScxNo) (at j : ℕ) → me.0.passes ≡ p ∷ []
        → IsAmongThese (RecordNo.Scx s) p.memory.holds
        → IsTakenScx (past_of p []) s.0 → AreFinished p.layout p.number.0 0 (past_of p [])
        → WasDoneWith p.layout (past_of p []) s.0 j
        → Allows (TableLasts S.allows t planting) slots id me at (λ v. v)
        (λ v w. LearnsWith S.allows (λ rows. memory_done p.memory s j) me.0 w.0 × (w.1 ≡ me.1)) }
    ensures dead { (t : Lasting) (planting : PlantingView) (slots id : ℕ) (me : Me ℕ SeatView)
        (p : SeatedPass) (s : ScxNo) (at : ℕ) → me.0.passes ≡ p ∷ []
        → IsAmongThese (RecordNo.Scx s) p.memory.holds
        → IsTakenScx (past_of p []) s.0 → AreFinished p.layout p.number.0 0 (past_of p [])
        → ((j : ℕ) → j < count (past_of p []) s.0
        → IsAmongThese (noted_as (RecordNo.Scx s) (NoteView.DoneWith j)) p.memory.notes)
        → Allows (TableLasts S.allows t planting) slots id me at (λ v. v)
        (λ v w. LearnsWith S.allows (memory_over p.memory s) me.0 w.0 × (w.1 ≡ me.1)) }
{
    unborn_stays_out();
    dead_comes_back();
}

/// Each node of the tree is held, and its words are those of the run, whatever has come back. It
/// does nothing; a caller learns this from its contract.
pub fn trees_last<S: Shape>()
    ensures held { (t : Lasting) (planting : PlantingView) (s : State ℕ SeatView)
        (x : TableLasts S.allows t planting s) (n : ℕ)
        → IsInTree (history_of planting x.run.rows) n → IsHeld t x.run.held (the_node n) }
    ensures words { (t : Lasting) (planting : PlantingView) (s : State ℕ SeatView)
        (x : TableLasts S.allows t planting s) (n : ℕ) (part : NodeWord)
        → IsInTree (history_of planting x.run.rows) n → IsWord t.lay (node n part)
        → slice_index s.words (table_place t (node n part))
        ≡ value (history_of planting x.run.rows) (node n part) }
{
    unborn_stays_out();
}
