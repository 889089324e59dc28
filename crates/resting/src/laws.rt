//! What is out of every pass's reach, and when.
ghost use Rattle.std.specs.Prelude.{◌≡◌, ◌≢◌, ◌<◌, ◌⊎◌, ℕ, true, List, None};
ghost use Rattle.arena.specs.declared.layout.Layout.{Layout};
ghost use Rattle.arena.specs.declared.step.Kind.{Kind};
ghost use Rattle.arena.specs.declared.step.Row.{Row};
ghost use Rattle.arena.specs.declared.word.NodeWord.{NodeWord};
ghost use Rattle.arena.specs.declared.word.Side.{Side};
ghost use Rattle.arena.specs.Fills.{IsNamed, IsOwnNode, IsTakenNode};
ghost use Rattle.arena.specs.History.{History, ◌⊳◌, Extends, HasHeld, value};
ghost use Rattle.arena.specs.Lawful.{Lawful};
ghost use Rattle.arena.specs.Log.{log, is_final};
ghost use Rattle.arena.specs.ScxRecords.{count, new};
ghost use Rattle.arena.specs.Words.{child, info, marked, node, state};
ghost use Rattle.prims.specs.Moments.{AreFinished};
ghost use Rattle.ordered_map.specs.declared.pair.Pair.{Pair};
ghost use Rattle.ordered_map.specs.OrderedMap.{get};
ghost use Rattle.ordered_map.specs.Paths.{IsAnswerAt, WasInTree};
ghost use Rattle.ordered_map.specs.Runs.{IsMapRun};
ghost use Rattle.ordered_map.specs.Spelled.{Spells};
ghost use Rattle.edits.specs.Tries.{HasEnteredNone, HasEnteredOnly};
ghost use Rattle.touching.specs.Kinds.{IsInTree};
ghost use Rattle.touching.specs.Left.{IsNamedByLeft};
ghost use Rattle.resting.specs.Dead.{HasLeftUnmarked, IsDead, IsMarkedNode, IsOfAborted, IsOut, IsRemovedNode, IsUnborn, IsUnnamedScx, WasDoneWith};
ghost use Rattle.resting.specs.Lookups.{WasLeafOf};
ghost use Rattle.resting.specs.Periods.{IsPeriod, IsRightNote, Note, dead_by, marked_or_dead, out_of_reach};
ghost use Rattle.resting.specs.Reach.{IsOutOfReach};
ghost use Rattle.resting.specs.Records.{Record, record_of, the_node, the_scx};
ghost use Rattle.resting.specs.Rests.{AreSince, HasRestedAt, HaveMovedOn, HaveRestedAt, IsAway, IsRowSince};

/// What a rest is. Between two calls a pass rests, or goes away; a pass that is away rests at each
/// moment until it makes a row; what a pass may do keeps each pass's rest; and a rest is good as
/// long as a later one is. It does nothing; a caller learns this from its contract.
pub fn rests_hold()
    ensures now { (lay : Layout) (h : History) (o : ℕ) → AreFinished lay o 0 h
        → HasRestedAt lay h o h }
    ensures away { (lay : Layout) (h : History) (o : ℕ) (since m : History) → Lawful lay h
        → IsAway lay h o since → Extends h m → Extends m since → HasRestedAt lay h o m }
    ensures leaves { (lay : Layout) (h : History) (o : ℕ) → AreFinished lay o 0 h
        → IsAway lay h o h }
    ensures stays_away { (lay : Layout) (h : History) (r : Row) (o : ℕ) (since : History)
        → ¬ (r.pass.0 ≡ o) → IsAway lay h o since → IsAway lay (r ⊳ h) o since }
    ensures rows { (lay : Layout) (h : History) (r : Row) (last : ℕ → History)
        → HaveRestedAt lay h last → IsRowSince lay r.pass.0 (last r.pass.0) h r
        → HaveRestedAt lay (r ⊳ h) last }
    ensures earlier { (lay : Layout) (h k : History) (o : ℕ) (q l : History) → Extends k h
        → HasRestedAt lay h o q → HasRestedAt lay k o l → Extends h l → Extends l q
        → HasRestedAt lay k o q }
{}

/// What comes back. A marked node is dead as soon as its remover, which its info names, is seen
/// finished, and at the latest when a period is over since the mark; then it is final. What is dead
/// is out of reach when all passes have rested since; what an aborted SCX-record was to put in,
/// when its own pass has; and a node that was never put in, as soon as its pass rests. A node that
/// its pass had taken as it rested, and that has been found out of the tree since, with no mark, is
/// out of reach when all have rested since that moment, whether it has left or was never there: if
/// its own pass has done what it may from that first rest on. If an SCX-record was done with each
/// of its nodes, with each at a moment of its own, only nodes name it that are final or have left:
/// so one that no info has ever named, as it never began or was passed over, is dead as soon as it
/// is finished; and that is out of reach as soon as its pass rests. It does nothing; a caller
/// learns this from its contract.
pub fn dead_comes_back()
    ensures marked { (lay : Layout) (t snapshot end : History) (n : ℕ) → Lawful lay end
        → IsMarkedNode t n → Extends snapshot t → IsPeriod lay snapshot end
        → IsRemovedNode end n }
    ensures seen { (lay : Layout) (h t : History) (n : ℕ) → Lawful lay h → Extends h t
        → IsMarkedNode t n → value h (state (value t (info n))) ≢ 0 → IsRemovedNode h n }
    ensures finalized { (lay : Layout) (t : History) (n : ℕ) → Lawful lay t → IsRemovedNode t n
        → is_final (log lay t) n ≡ true }
    ensures dead { (lay : Layout) (h : History) (last : ℕ → History) (p : ℕ) (t : History)
        (x : Record) → IsMapRun lay h → p < lay.passes → HaveRestedAt lay h last
        → AreSince lay last t → IsDead lay p x t → IsOutOfReach lay h last x }
    ensures aborted { (lay : Layout) (h : History) (last : ℕ → History) (t : History) (p n : ℕ)
        → IsMapRun lay h → Extends h t → IsOfAborted lay p t n → Extends (last p) t
        → IsOutOfReach lay h last (the_node n) }
    ensures unborn { (lay : Layout) (h : History) (last : ℕ → History) (p n : ℕ)
        → p < lay.passes → IsUnborn lay p (last p) n → IsOutOfReach lay h last (the_node n) }
    ensures out { (lay : Layout) (h : History) (last : ℕ → History) (p : ℕ) (rest t : History)
        (n : ℕ) → IsMapRun lay h → p < lay.passes → HaveRestedAt lay h last → AreSince lay last t
        → HasRestedAt lay h p rest → Extends h t → IsOut lay p rest t n → value t (marked n) ≡ 0
        → IsOutOfReach lay h last (the_node n) }
    ensures unnamed { (lay : Layout) (h : History) (last : ℕ → History) (p s : ℕ)
        → p < lay.passes → IsUnnamedScx lay p (last p) s → IsOutOfReach lay h last (the_scx s) }
    ensures look { (lay : Layout) (h : History) (s : ℕ) → IsMapRun lay h → s ≢ 0
        → ((j : ℕ) → j < count h s → WasDoneWith lay h s j) → IsNamedByLeft lay h s }
{}

/// Which nodes have never been in the tree or the trie: one that is not named, as each is that a
/// row fills. So it is until an update: if it is a pass's own, until one of that pass. So what a
/// call has taken was never there if the call has made no update, or only that of an SCX-record
/// that was to put in others. And what its pass had taken as it rested, and was never there, never
/// is. So what it had taken then, and is out since, stays out: it is marked, or has left with no
/// mark, or was not there as the pass rested. It does nothing; a caller learns this from its
/// contract.
pub fn unborn_stays_out()
    ensures unnamed { (lay : Layout) (h : History) (n : ℕ) → IsMapRun lay h → ¬ IsNamed lay h n
        → ¬ WasInTree h n }
    ensures filled { (lay : Layout) (h : History) (r : Row) (n : ℕ) (part : NodeWord)
        → IsMapRun lay (r ⊳ h) → r.kind ≡ Kind.Fill → r.word ≡ node n part
        → ¬ WasInTree (r ⊳ h) n }
    ensures rows { (lay : Layout) (h : History) (r : Row) (n : ℕ) → IsMapRun lay (r ⊳ h)
        → r.kind ≢ Kind.Update → ¬ WasInTree h n → ¬ WasInTree (r ⊳ h) n }
    ensures none { (lay : Layout) (h start : History) (p n : ℕ) → p < lay.passes → IsMapRun lay h
        → IsOwnNode lay p n → ¬ WasInTree start n → Extends h start
        → HasEnteredNone lay p h start → ¬ WasInTree h n }
    ensures others { (lay : Layout) (h start : History) (p n : ℕ) → p < lay.passes
        → IsMapRun lay h → IsOwnNode lay p n → ¬ WasInTree start n → (s : ℕ) → Extends h start
        → HasEnteredOnly lay p s h start → n ≢ new h s
        → ((side : Side) → ¬ HasHeld h (child (new h s) side) n) → ¬ WasInTree h n }
    ensures stays { (lay : Layout) (h : History) (p : ℕ) (rest : History) (n : ℕ)
        → p < lay.passes → IsMapRun lay h → HasRestedAt lay h p rest → IsUnborn lay p rest n
        → IsUnborn lay p h n }
    ensures out { (lay : Layout) (h : History) (p : ℕ) (rest t : History) (n : ℕ)
        → p < lay.passes → IsMapRun lay h → HasRestedAt lay h p rest → Extends h t
        → IsOut lay p rest t n → IsOut lay p rest h n }
    ensures sorts { (lay : Layout) (h : History) (p : ℕ) (rest : History) (n : ℕ)
        → IsMapRun lay h → IsOut lay p rest h n
        → IsMarkedNode h n ⊎ (HasLeftUnmarked h n ⊎ IsUnborn lay p rest n) }
{}

/// What is out of reach stays so, whatever rows are made, and when the moments of the rests move
/// on; and no row that a pass may make is of it. It does nothing; a caller learns this from its
/// contract.
pub fn reach_holds()
    ensures rows { (lay : Layout) (h m : History) (last : ℕ → History) (x : Record)
        → Extends m h → IsOutOfReach lay h last x → IsOutOfReach lay m last x }
    ensures rests { (lay : Layout) (h : History) (last next : ℕ → History) (x : Record)
        → HaveMovedOn lay h last next → IsOutOfReach lay h last x
        → IsOutOfReach lay h next x }
    ensures next { (lay : Layout) (h : History) (r : Row) (last : ℕ → History) (x : Record)
        → IsMapRun lay (r ⊳ h) → HaveRestedAt lay h last
        → IsRowSince lay r.pass.0 (last r.pass.0) h r → IsOutOfReach lay h last x
        → ¬ (record_of r.word ≡ x) }
{}

/// A period is over when each pass has rested at its snapshot or behind it. A note of a record
/// stays right, whatever rows are made, and when the moments of the rests move on. By each period
/// that began at the moment of which a note tells, or behind it, the note goes on: from marked or
/// dead to dead, from dead to out of reach. And so a pass may note as marked or dead what is its
/// own, was taken as it last rested, and is out since. It does nothing; a caller learns this from
/// its contract.
pub fn notes_hold()
    ensures period { (lay : Layout) (h : History) (last : ℕ → History) (snapshot : History)
        → Extends h snapshot → HaveRestedAt lay h last → AreSince lay last snapshot
        → IsPeriod lay snapshot h }
    ensures rows { (lay : Layout) (p : ℕ) (x : Record) (h : History) (last : ℕ → History)
        (m : History) (n : Note) → Extends m h → IsRightNote lay p x h last n
        → IsRightNote lay p x m last n }
    ensures rests { (lay : Layout) (p : ℕ) (x : Record) (h : History) (last next : ℕ → History)
        (n : Note) → HaveMovedOn lay h last next → IsRightNote lay p x h last n
        → IsRightNote lay p x h next n }
    ensures first { (lay : Layout) (p : ℕ) (x : Record) (h : History) (last : ℕ → History)
        (t snapshot : History) → Lawful lay h → Extends snapshot t → IsPeriod lay snapshot h
        → IsRightNote lay p x h last (marked_or_dead t) → IsRightNote lay p x h last (dead_by h) }
    ensures second { (lay : Layout) (p : ℕ) (x : Record) (h : History) (last : ℕ → History)
        (end snapshot : History) → IsMapRun lay h → p < lay.passes → HaveRestedAt lay h last
        → AreSince lay last snapshot → Extends snapshot end
        → IsRightNote lay p x h last (dead_by end) → IsRightNote lay p x h last out_of_reach }
    ensures out { (lay : Layout) (h : History) (last : ℕ → History) (p : ℕ) (t : History) (n : ℕ)
        → IsMapRun lay h → p < lay.passes → Extends h t → IsOut lay p (last p) t n
        → IsRightNote lay p (the_node n) h last (marked_or_dead t) }
{}

/// What looking a key up tells of a leaf that is read behind it, and whose first key that is: if the
/// map did not have the key at a moment, the leaf was not in the tree or the trie then. So an own
/// leaf that its pass had taken as it rested, before the call, is out. It does nothing; a caller
/// learns this from its contract.
pub fn lookups_tell()
    ensures absent { (lay : Layout) (h m : History) (map : List Pair) (k n : ℕ) → IsMapRun lay h
        → Extends h m → Spells lay (value m) map → get k map ≡ None → WasLeafOf h m n k
        → ¬ IsInTree m n }
    ensures out { (lay : Layout) (h done start rest : History) (p n k : ℕ) → IsMapRun lay h
        → Extends h done → Extends start rest → IsAnswerAt lay done start k None
        → WasLeafOf h done n k → IsOwnNode lay p n → IsTakenNode rest n
        → (t : History) × Extends done t × IsOut lay p rest t n }
{}
