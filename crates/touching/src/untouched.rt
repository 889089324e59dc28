//! What calls touch no more: what was out as they began, and what is dead.
ghost use Rattle.std.specs.Prelude.{◌≡◌, ◌≢◌, ℕ, true};
ghost use Rattle.arena.specs.Blame.{IsInProgress};
ghost use Rattle.arena.specs.Fills.{IsTakenNode};
ghost use Rattle.arena.specs.History.{History, Extends, value};
ghost use Rattle.arena.specs.Lawful.{HasWon, Lawful};
ghost use Rattle.arena.specs.Log.{log, is_final};
ghost use Rattle.arena.specs.Machines.{Call};
ghost use Rattle.arena.specs.Words.{marked, state};
ghost use Rattle.arena.specs.declared.layout.Layout.{Layout};
ghost use Rattle.ordered_map.specs.Runs.{IsMapRun};
ghost use Rattle.touching.specs.Fresh.{WasNamedInCall};
ghost use Rattle.touching.specs.Kinds.{IsInTree, IsNotFinal};
ghost use Rattle.touching.specs.Left.{AreLetGoOrLeft, HasLeft, IsNamedByLeft};
ghost use Rattle.touching.specs.Rests.{AllHaveRested, AreLetGo, HasRestedSince, IsNamedByFinal};
ghost use Rattle.touching.specs.Steps.{AllHavePaused, HasPaused, IsMapCall, IsNotAtNode, IsNotAtScx, OfEachStep};
ghost use Rattle.touching.specs.Touches.{HasReached, TouchesNode, TouchesScx, WasCovered};

/// What a call touches no more of what was out as it began: a final node, or one that has left the
/// tree, only where an SCX-record covers it that is in progress in the call, and a finished
/// SCX-record only where a node names it in the call that was not final. It does nothing; a caller
/// learns this from its contract.
pub fn freshness_holds()
    ensures nodes { (c : Call) (h : History) (n : ℕ) → Lawful c.layout h → Extends h c.start
        → is_final (log c.layout c.start) n ≡ true → IsTakenNode c.start n
        → TouchesNode IsNotFinal c h n → (s : ℕ) × WasCovered c h s n }
    ensures scx { (c : Call) (h : History) (s : ℕ) → Lawful c.layout h → Extends h c.start
        → s ≢ 0 → value c.start (state s) ≢ 0 → TouchesScx IsNotFinal c h s
        → WasNamedInCall c h s }
    ensures left { (c : Call) (h : History) (n : ℕ) → IsMapRun c.layout h → Extends h c.start
        → HasLeft c.start n → IsTakenNode c.start n → TouchesNode (λ lay. IsInTree) c h n
        → (s : ℕ) × WasCovered c h s n }
{}

/// What has left a tree or a trie never comes back; and what an SCX-record in progress has reached
/// is there until its update wins. It does nothing; a caller learns this from its contract.
pub fn left_stays_out()
    ensures out { (lay : Layout) (h m : History) (n : ℕ) → IsMapRun lay h → Extends h m
        → HasLeft m n → HasLeft h n }
    ensures reached { (lay : Layout) (h : History) (s n : ℕ) → IsMapRun lay h → IsInProgress h s
        → ¬ HasWon h s → HasReached h s n → IsInTree h n }
{}

/// What is dead. A marked node, to each call that began when all passes had rested since it was
/// marked; to each call that began later a node that has left a trie unmarked, as a leaf does whose
/// last pair was taken out at an end, and a finished SCX-record that no nodes name but final ones
/// and such; and a look at the nodes that it covers tells that. It does nothing; a caller learns
/// this from its contract.
pub fn dead_is_untouched()
    ensures nodes { (c : Call) (h t : History) (n : ℕ) → Lawful c.layout h → Extends h c.start
        → Extends c.start t → value t (marked n) ≢ 0 → AllHaveRested c.layout h c.start t n
        → IsTakenNode c.start n → ¬ TouchesNode IsNotFinal c h n }
    ensures scx { (c : Call) (h t : History) (s : ℕ) → Lawful c.layout h → Extends h c.start
        → Extends c.start t → s ≢ 0 → value t (state s) ≢ 0 → IsNamedByFinal c.layout t s
        → ¬ TouchesScx IsNotFinal c h s }
    ensures leaves { (c : Call) (h t : History) (n : ℕ) → IsMapRun c.layout h → Extends h c.start
        → Extends c.start t → HasLeft t n → value t (marked n) ≡ 0 → IsTakenNode c.start n
        → ¬ TouchesNode (λ lay. IsInTree) c h n }
    ensures unnamed { (c : Call) (h t : History) (s : ℕ) → IsMapRun c.layout h
        → Extends h c.start → Extends c.start t → s ≢ 0 → value t (state s) ≢ 0
        → IsNamedByLeft c.layout t s → ¬ TouchesScx (λ lay. IsInTree) c h s }
    ensures look { (lay : Layout) (h : History) (s : ℕ) → Lawful lay h → s ≢ 0 → AreLetGo h s
        → IsNamedByFinal lay h s }
    ensures look_left { (lay : Layout) (h : History) (s : ℕ) → Lawful lay h → s ≢ 0
        → AreLetGoOrLeft h s → IsNamedByLeft lay h s }
{}

/// What no step of a call of a map comes to. A marked node, if all passes have rested between two
/// calls since it was marked, and have filled since what their calls fill; a node that has left a
/// trie unmarked before; a finished SCX-record that no nodes name but final ones and such. It does
/// nothing; a caller learns this from its contract.
pub fn dead_is_out_of_reach()
    ensures rested { (lay : Layout) (h start t : History) (n o : ℕ) → Lawful lay h
        → Extends h start → n ≢ 0 → HasPaused lay h start t o → HasRestedSince lay h start t n o }
    ensures nodes { (c : Call) (h t : History) (n : ℕ) → IsMapRun c.layout h → Extends c.start t
        → n ≢ 0 → value t (marked n) ≢ 0 → IsTakenNode c.start n
        → AllHavePaused c.layout h c.start t → IsMapCall c h → OfEachStep (IsNotAtNode n) c h }
    ensures leaves { (c : Call) (h t : History) (n : ℕ) → IsMapRun c.layout h → Extends c.start t
        → HasLeft t n → value t (marked n) ≡ 0 → IsTakenNode c.start n → IsMapCall c h
        → OfEachStep (IsNotAtNode n) c h }
    ensures scx { (c : Call) (h t : History) (s : ℕ) → IsMapRun c.layout h → Extends c.start t
        → s ≢ 0 → value t (state s) ≢ 0 → IsNamedByLeft c.layout t s → IsMapCall c h
        → OfEachStep (IsNotAtScx s) c h }
{}
