//! The laws of lawful histories.
ghost use Rattle.std.specs.Prelude.{◌≡◌, ℕ};
ghost use Rattle.arena.specs.declared.layout.Layout.{Layout};
ghost use Rattle.arena.specs.History.{History, value};
ghost use Rattle.arena.specs.Lawful.{Lawful};
ghost use Rattle.arena.specs.Log.{log, IsEntered, AreOnce};
ghost use Rattle.arena.specs.Words.{state};
ghost use Rattle.histories.specs.Laws.{SpellFields, StaysFinal, StaysFinalized, IsNeverEntered};

/// What every lawful history keeps: no SCX-record has two entries in its log, the fields are those
/// that the log gives, no word of a final node changes again, what is aborted never gets an entry,
/// and what is committed has one. It does nothing; a caller learns the laws from its contract.
pub fn laws_hold()
    ensures once { (lay : Layout) (h : History) → Lawful lay h → AreOnce (log lay h) }
    ensures fields { (lay : Layout) (h : History) → Lawful lay h → SpellFields lay h }
    ensures final_from_entry { (lay : Layout) (h : History) → Lawful lay h → StaysFinal lay h }
    ensures final_from_commit { (lay : Layout) (h : History) → Lawful lay h → StaysFinalized h }
    ensures aborted { (lay : Layout) (h : History) (s : ℕ) → Lawful lay h → value h (state s) ≡ 2 → IsNeverEntered lay h s }
    ensures committed { (lay : Layout) (h : History) (s : ℕ) → Lawful lay h → value h (state s) ≡ 1 → IsEntered (log lay h) s }
{}
