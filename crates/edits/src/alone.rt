//! What a call has that no other disturbs.
ghost use Rattle.std.specs.Prelude.{◌≡◌, ◌⊎◌, ℕ, ◌^◌, ◌<◌, List, Option, None};
ghost use Rattle.arena.specs.declared.limits.Mode.TheVariants.{Tree as TreeMode};
ghost use Rattle.arena.specs.declared.word.Side.{Side};
ghost use Rattle.arena.specs.History.{History, value, Extends};
ghost use Rattle.arena.specs.Machines.{Call};
ghost use Rattle.arena.specs.Undisturbed.{IsUndisturbed};
ghost use Rattle.ordered_map.specs.declared.pair.Pair.{Pair};
ghost use Rattle.ordered_map.specs.OrderedMap.{MapEdit, edited, end_pair, get};
ghost use Rattle.ordered_map.specs.Paths.{IsAnswerAt};
ghost use Rattle.ordered_map.specs.Runs.{IsMapRun};
ghost use Rattle.ordered_map.specs.Spelled.{Spells};
ghost use Rattle.template.specs.FoundLeaf.{HasFoundGoal, HasFoundLeaf, end_told};
ghost use Rattle.template.specs.declared.walk.Found.{Found};
ghost use Rattle.ordered_map.specs.declared.rule.Goal.TheVariants.{End};
ghost use Rattle.template.specs.Blame.{IsContended};
ghost use Rattle.edits.specs.Known.{HasMade, ToldEnd};
ghost use Rattle.edits.specs.Tries.{HasEnteredNone};

/// What an update's answers say of a call by itself: nothing was in progress as it began, and no
/// other pass makes a row while it runs. It is never contended. What it has made it has made of the
/// map that was there as it began, which was there just before it, and leaves the map that its edit
/// leaves. If it has made nothing, the leaf that it has found says what the map has, and the map
/// stays; what a reading says of the map at a moment of its call it says of that map. On its way to
/// an end it answers the pair at that end of that map, made or not; in a trie where it has made
/// nothing, if it answers that there is none. With one pass no call is ever contended. It does
/// nothing; a caller learns the laws from its contract.
pub fn alone_holds()
    ensures made { (c : Call) (h : History) (edit : MapEdit) (number : ℕ) (old : Option ℕ) (map : List Pair)
        → IsMapRun c.layout h → IsUndisturbed c h → (made : HasMade edit c h number old) → Spells c.layout (value c.start) map
        → Spells c.layout (value made.before) map × Spells c.layout (value h) (edited edit map) }
    ensures found { (c : Call) (h : History) (k : ℕ) (f : Found) (map : List Pair) → k < 2 ^ 64 → IsMapRun c.layout h
        → IsUndisturbed c h → HasFoundLeaf c h k f → HasEnteredNone c.layout c.pass h c.start
        → Spells c.layout (value c.start) map → f.value ≡ get k map }
    ensures made_end { (side : Side) (c : Call) (h : History) (edit : MapEdit) (number : ℕ) (old : Option ℕ) (f : Found)
        (map : List Pair) → IsMapRun c.layout h → IsUndisturbed c h → (made : HasMade edit c h number old)
        → ToldEnd (End side) c.layout made.before f → Spells c.layout (value c.start) map → end_pair side map ≡ end_told f }
    ensures found_end { (side : Side) (c : Call) (h : History) (f : Found) (map : List Pair) → IsMapRun c.layout h
        → IsUndisturbed c h → HasFoundGoal (End side) c h f
        → (c.layout.mode ≡ TreeMode) ⊎ (f.value ≡ None) → HasEnteredNone c.layout c.pass h c.start
        → Spells c.layout (value c.start) map → end_pair side map ≡ end_told f }
    ensures read { (c : Call) (h : History) (k : ℕ) (told : Option ℕ) (map : List Pair) → IsMapRun c.layout h
        → IsUndisturbed c h → IsAnswerAt c.layout h c.start k told → HasEnteredNone c.layout c.pass h c.start
        → Spells c.layout (value c.start) map → told ≡ get k map }
    ensures kept { (c : Call) (h : History) (map : List Pair) → IsMapRun c.layout h → IsUndisturbed c h
        → HasEnteredNone c.layout c.pass h c.start → Spells c.layout (value c.start) map → Spells c.layout (value h) map }
    ensures undisturbed { (c : Call) (h : History) (n s : ℕ) → IsMapRun c.layout h → IsUndisturbed c h → ¬ IsContended c h n s }
    ensures one_pass { (c : Call) (h : History) (n s : ℕ) → c.layout.passes ≡ 1 → ¬ IsContended c h n s }
{}
