//! What keeps a window on a run, and the words behind it.
ghost use Rattle.std.specs.Prelude.{◌≡◌, ◌≢◌, ◌+◌, ◌*◌, ◌^◌, ◌<◌, ◌≤◌, ◌⊎◌, ℕ, suc, false, List, length, None, Some, slice_index, slice_set};
ghost use Rattle.arena.specs.declared.layout.Layout.{Layout};
ghost use Rattle.arena.specs.declared.step.Row.{Row};
ghost use Rattle.arena.specs.declared.word.Word.{Word};
ghost use Rattle.arena.specs.Fills.{IsOpenNode, IsOpenScx, IsTakenNode, IsTakenScx};
ghost use Rattle.arena.specs.History.{History, Opened, ◌⊳◌, Extends, value};
ghost use Rattle.arena.specs.Lawful.{Lawful};
ghost use Rattle.arena.specs.Layout.{IsWord, all_nodes, all_scx, first_node, first_scx, place, table_size};
ghost use Rattle.arena.specs.Openings.{Opening};
ghost use Rattle.prims.specs.Moments.{AreFinished};
ghost use Rattle.ordered_map.specs.Runs.{IsMapRun};
ghost use Rattle.resting.specs.Reach.{IsOutOfReach};
ghost use Rattle.resting.specs.Records.{Record, record_of, the_node, the_scx};
ghost use Rattle.resting.specs.Rests.{HaveMovedOn, HaveRestedAt, IsRowSince};
ghost use Rattle.slots.specs.Counts.{CountsRests, HasPolled, HasSeenRests, Tally, after_leaving, after_rest, no_rests, rests_place, with_rest};
ghost use Rattle.slots.specs.Held.{AreNames, Held, IsHeld, first_held, with_slot};
ghost use Rattle.slots.specs.Lasting.{IsFirstRecord, IsLasting, IsNameOf, IsOwnName, IsOwnRecord, IsRecord, IsUntaken, Lasting, lasting, slot_of, table_place};
ghost use Rattle.slots.specs.Passing.{past_node_of, past_scx_of};
ghost use Rattle.slots.specs.Window.{AreBeside, HasPassedOver, IsHeldStep, IsWindow};

/// Names and slots. Each table may last, if a turn has room for its records. In each lap each of a
/// pass's slots has a name of the pass; all slots may hold their first names, which are those of
/// the first lap. It does nothing; a caller learns this from its contract.
pub fn names_hold()
    ensures lasts { (table : Layout) (node_turn scx_turn laps : ℕ)
        (few_nodes : table.nodes + laps * node_turn ≤ 2 ^ 50)
        (few_scx : table.scx + laps * scx_turn ≤ 2 ^ 50) → all_nodes table ≤ node_turn
        → all_scx table ≤ scx_turn
        → IsLasting (lasting table node_turn scx_turn laps few_nodes few_scx) }
    ensures nodes { (t : Lasting) (o lap i : ℕ) → IsLasting t → o < t.lay.passes → lap ≤ t.laps
        → i < t.table.nodes
        → IsOwnName t o (the_node (first_node t.lay o + (lap * t.node_turn + i)))
        × (slot_of t (the_node (first_node t.lay o + (lap * t.node_turn + i)))
        ≡ the_node (first_node t.table o + i)) }
    ensures scx { (t : Lasting) (o lap i : ℕ) → IsLasting t → o < t.lay.passes → lap ≤ t.laps
        → i < t.table.scx
        → IsOwnName t o (the_scx (first_scx t.lay o + (lap * t.scx_turn + i)))
        × (slot_of t (the_scx (first_scx t.lay o + (lap * t.scx_turn + i)))
        ≡ the_scx (first_scx t.table o + i)) }
    ensures first { (t : Lasting) → IsLasting t → AreNames t (first_held t) }
    ensures first_nodes { (t : Lasting) (o i : ℕ) → IsLasting t → o < t.lay.passes
        → i < t.table.nodes → IsHeld t (first_held t) (the_node (first_node t.lay o + i)) }
    ensures first_scx { (t : Lasting) (o i : ℕ) → IsLasting t → o < t.lay.passes
        → i < t.table.scx → IsHeld t (first_held t) (the_scx (first_scx t.lay o + i)) }
{}

/// A window on a run. The words that a table opens with are one, whatever names its slots hold. A
/// row that its pass may make since its rest is of a held record, if an own one that it has not
/// taken is held: so its step finds what the run says, and leaves a window. No two words of held
/// records have one place. The moments of the rests may move on, and rows be made that are of no
/// held record, if what they take is out of reach then: so where a pass passes over names, and
/// rests behind that. It does nothing; a caller learns this from its contract.
pub fn window_holds()
    ensures opens { (t : Lasting) (words : List ℕ) (o : Opening) (held : Held) → IsLasting t
        → IsMapRun t.lay (Opened o) → table_size t.table ≤ length words → AreNames t held
        → ((w : Word) → IsWord t.table w
        → slice_index words (place t.table w) ≡ value (Opened o) w)
        → IsWindow t words (Opened o) (λ pass. Opened o) held }
    ensures steps { (t : Lasting) (words : List ℕ) (h : History) (last : ℕ → History)
        (held : Held) (r : Row) → IsWindow t words h last held → IsMapRun t.lay (r ⊳ h)
        → IsRowSince t.lay r.pass.0 (last r.pass.0) h r
        → (IsUntaken t.lay h (record_of r.word) → IsOwnRecord t.lay r.pass.0 (record_of r.word)
        → IsHeld t held (record_of r.word))
        → IsHeldStep t words h last held r }
    ensures apart { (t : Lasting) (words : List ℕ) (h : History) (last : ℕ → History)
        (held : Held) (u w : Word) → IsWindow t words h last held → IsWord t.lay u
        → IsHeld t held (record_of u) → IsWord t.lay w → IsHeld t held (record_of w)
        → table_place t u ≡ table_place t w → u ≡ w }
    ensures moves { (t : Lasting) (words : List ℕ) (h : History) (last next : ℕ → History)
        (held : Held) → IsWindow t words h last held → HaveMovedOn t.lay h last next
        → HaveRestedAt t.lay h next → IsWindow t words h next held }
    ensures beside { (t : Lasting) (words : List ℕ) (h k : History) (last next : ℕ → History)
        (held : Held) → IsWindow t words h last held → Extends k h → IsMapRun t.lay k
        → HaveMovedOn t.lay k last next → HaveRestedAt t.lay k next → AreBeside t held h k
        → ((x : Record) → IsRecord t.lay x → IsUntaken t.lay h x
        → IsUntaken t.lay k x ⊎ IsOutOfReach t.lay k next x)
        → IsWindow t words k next held }
    ensures passes_over { (t : Lasting) (words : List ℕ) (h k : History) (last : ℕ → History)
        (held : Held) (o : ℕ) → IsWindow t words h last held → Extends k h → IsMapRun t.lay k
        → HasPassedOver t held last o h k → o < t.lay.passes → AreFinished t.lay o 0 k
        → IsWindow t words k (with_rest last o k) held }
{}

/// By which rows a pass passes over its next name, from no name to one after another; and it may
/// rest behind that if it might before. It does nothing; a caller learns this from its contract.
pub fn names_pass()
    ensures none { (t : Lasting) (held : Held) (last : ℕ → History) (o : ℕ) (h : History)
        → HasPassedOver t held last o h h }
    ensures node { (t : Lasting) (held : Held) (last : ℕ → History) (o : ℕ) (h k : History)
        (n : ℕ) → HasPassedOver t held last o h k → IsMapRun t.lay k → o < t.lay.passes
        → IsOpenNode t.lay k o n → ¬ IsTakenNode (last o) n → ¬ IsHeld t held (the_node n)
        → IsMapRun t.lay (past_node_of o n k)
        × HasPassedOver t held last o h (past_node_of o n k) }
    ensures scx { (t : Lasting) (held : Held) (last : ℕ → History) (o : ℕ) (h k : History)
        (s : ℕ) → HasPassedOver t held last o h k → IsMapRun t.lay k → o < t.lay.passes
        → IsOpenScx t.lay k o s → ¬ IsTakenScx (last o) s → ¬ IsHeld t held (the_scx s)
        → IsMapRun t.lay (past_scx_of o s k)
        × HasPassedOver t held last o h (past_scx_of o s k) }
    ensures node_rests { (lay : Layout) (k : History) (o n : ℕ) → AreFinished lay o 0 k
        → AreFinished lay o 0 (past_node_of o n k) }
    ensures scx_rests { (lay : Layout) (k : History) (o s : ℕ) → AreFinished lay o 0 k
        → AreFinished lay o 0 (past_scx_of o s k) }
{}

/// What slots hold. One lets go of a record that is out of reach, or untaken. Then whatever is
/// stored in its words, as behind the table's, is no matter to the run, and no step of a held
/// record is at one of them; and once they are all 0 it may hold an untaken name of its own, and in
/// its place another. It does nothing; a caller learns
/// this from its contract.
pub fn slots_hold()
    ensures lets_go { (t : Lasting) (words : List ℕ) (h : History) (last : ℕ → History)
        (held : Held) (x : Record) → IsWindow t words h last held → IsHeld t held x
        → ¬ IsFirstRecord t.lay x → IsUntaken t.lay h x ⊎ IsOutOfReach t.lay h last x
        → IsWindow t words h last (with_slot held (slot_of t x) None) }
    ensures cleans { (t : Lasting) (words : List ℕ) (h : History) (last : ℕ → History)
        (held : Held) (w : Word) (v : ℕ) → IsWindow t words h last held → IsWord t.table w
        → held (record_of w) ≡ None
        → IsWindow t (slice_set words (place t.table w) v) h last held }
    ensures apart { (t : Lasting) (words : List ℕ) (h : History) (last : ℕ → History)
        (held : Held) (u w : Word) → IsWindow t words h last held → IsWord t.table u
        → held (record_of u) ≡ None → IsWord t.lay w → IsHeld t held (record_of w)
        → ¬ (table_place t w ≡ place t.table u) }
    ensures behind { (t : Lasting) (words : List ℕ) (h : History) (last : ℕ → History)
        (held : Held) (at v : ℕ) → IsWindow t words h last held → table_size t.table ≤ at
        → IsWindow t (slice_set words at v) h last held }
    ensures takes { (t : Lasting) (words : List ℕ) (h : History) (last : ℕ → History)
        (held : Held) (slot x : Record) → IsWindow t words h last held → held slot ≡ None
        → IsNameOf t slot x → IsUntaken t.lay h x
        → ((w : Word) → IsWord t.table w → record_of w ≡ slot
        → slice_index words (place t.table w) ≡ 0)
        → IsWindow t words h last (with_slot held slot (Some x)) }
    ensures renames { (t : Lasting) (words : List ℕ) (h : History) (last : ℕ → History)
        (held : Held) (slot x y : Record) → IsWindow t words h last held → held slot ≡ Some x
        → IsUntaken t.lay h x → IsNameOf t slot y → IsUntaken t.lay h y
        → IsWindow t words h last (with_slot held slot (Some y)) }
{}

/// Rests in words. A pass that is between two calls rests, or comes back, by one store, and goes
/// away by one; what is stored in the table counts for nothing, nor does a row of a pass that is
/// there. It does nothing; a caller learns this from its contract.
pub fn counts_hold()
    ensures opens { (t : Lasting) (words : List ℕ) (h : History)
        → table_size t.table + 8 * t.lay.passes ≤ length words
        → ((o : ℕ) → o < t.lay.passes → slice_index words (rests_place t.table o) ≡ 0)
        → CountsRests t words h no_rests }
    ensures stores { (t : Lasting) (words : List ℕ) (h : History) (tally : Tally) (at v : ℕ)
        → CountsRests t words h tally → at < table_size t.table
        → CountsRests t (slice_set words at v) h tally }
    ensures rows { (t : Lasting) (words : List ℕ) (h : History) (tally : Tally) (r : Row)
        → CountsRests t words h tally → Lawful t.lay (r ⊳ h) → tally.away r.pass.0 ≡ false
        → CountsRests t words (r ⊳ h) tally }
    ensures rests { (t : Lasting) (words : List ℕ) (h : History) (last : ℕ → History)
        (held : Held) (tally : Tally) (o : ℕ) → IsWindow t words h last held
        → CountsRests t words h tally → o < t.lay.passes → AreFinished t.lay o 0 h
        → IsWindow t (slice_set words (rests_place t.table o) (2 * suc (tally.count o))) h
        (with_rest last o h) held
        × CountsRests t (slice_set words (rests_place t.table o) (2 * suc (tally.count o))) h
        (after_rest tally o) }
    ensures leaves { (t : Lasting) (words : List ℕ) (h : History) (last : ℕ → History)
        (held : Held) (tally : Tally) (o : ℕ) → IsWindow t words h last held
        → CountsRests t words h tally → o < t.lay.passes → AreFinished t.lay o 0 h
        → IsWindow t (slice_set words (rests_place t.table o) (2 * tally.count o + 1)) h last held
        × CountsRests t (slice_set words (rests_place t.table o) (2 * tally.count o + 1)) h
        (after_leaving tally o) }
{}

/// What others learn there. How often a pass has rested, as seen at a moment, stays right,
/// whatever is done; and a word that differs tells that the pass has rested since, or may be said
/// to rest now, as an odd one does at once. It does nothing; a caller learns this from its
/// contract.
pub fn polls_hold()
    ensures now { (h : History) (last : ℕ → History) (tally : Tally) (o : ℕ) (m : History)
        → Extends h m → HasSeenRests h last tally o m (tally.count o) }
    ensures rows { (h : History) (last : ℕ → History) (tally : Tally) (o : ℕ) (m : History)
        (seen : ℕ) (r : Row) → HasSeenRests h last tally o m seen
        → HasSeenRests (r ⊳ h) last tally o m seen }
    ensures moves { (h : History) (last : ℕ → History) (tally : Tally) (o : ℕ) (m : History)
        (seen : ℕ) (t : Lasting) (next : ℕ → History) → HasSeenRests h last tally o m seen
        → o < t.lay.passes → HaveMovedOn t.lay h last next
        → HasSeenRests h next tally o m seen }
    ensures rests { (h : History) (last : ℕ → History) (tally : Tally) (o : ℕ) (m : History)
        (seen p : ℕ) → HasSeenRests h last tally o m seen
        → HasSeenRests h (with_rest last p h) (after_rest tally p) o m seen }
    ensures leaves { (h : History) (last : ℕ → History) (tally : Tally) (o : ℕ) (m : History)
        (seen p : ℕ) → HasSeenRests h last tally o m seen
        → HasSeenRests h last (after_leaving tally p) o m seen }
    ensures polls { (t : Lasting) (words : List ℕ) (h : History) (last : ℕ → History)
        (held : Held) (tally : Tally) (o seen : ℕ) (m : History) → IsWindow t words h last held
        → CountsRests t words h tally → o < t.lay.passes → HasSeenRests h last tally o m seen
        → slice_index words (rests_place t.table o) ≢ 2 * seen
        → HasPolled t words h last held tally o m }
    ensures finds_away { (t : Lasting) (words : List ℕ) (h : History) (last : ℕ → History)
        (held : Held) (tally : Tally) (o k : ℕ) → IsWindow t words h last held
        → CountsRests t words h tally → o < t.lay.passes
        → slice_index words (rests_place t.table o) ≡ 2 * k + 1
        → HasPolled t words h last held tally o h }
{}
