//! What a call of a dictionary has that no other disturbs.
ghost use Rattle.std.specs.Prelude.{◌≡◌, ◌<◌, ℕ, List};
ghost use Rattle.arena.specs.History.{History, value};
ghost use Rattle.arena.specs.Machines.{Call};
ghost use Rattle.arena.specs.Undisturbed.{IsUndisturbed};
ghost use Rattle.ordered_map.specs.declared.pair.Pair.{Pair};
ghost use Rattle.ordered_map.specs.OrderedMap.{MapCall, MapReply, reply, after};
ghost use Rattle.ordered_map.specs.Runs.{IsMapRun};
ghost use Rattle.ordered_map.specs.Spelled.{Spells};
ghost use Rattle.edits.specs.Tries.{HasEnteredNone};
ghost use Rattle.arena.specs.declared.fault.Full.{Full};
ghost use Rattle.arena.specs.Share.{Remaining};
ghost use Rattle.edits.specs.Known.{RestsWith};
ghost use Rattle.ordered_map.specs.CallRules.{need};
ghost use Rattle.dict.specs.Says.{HasTold, HasLost, HasRunOut, HasTooLittle};

/// What the answers of a call say of a call by itself: nothing was in progress as it began, and no
/// other pass makes a row while it runs. It answers what the map that was there as it began
/// replies, and leaves the map that the call leaves; a refused one leaves it as it was. One that is
/// full had too little of its share for that map as it began. It is never contended, nor is any
/// call if there is one pass alone, so that there too a full call had taken nothing. It does
/// nothing; a caller learns the laws from its contract.
pub fn alone_holds()
    ensures told { (c : Call) (h : History) (call : MapCall) (told : MapReply) (map : List Pair) →
        IsMapRun c.layout h → IsUndisturbed c h
        → Spells c.layout (value c.start) map → HasTold c h call told
        → (told ≡ reply call map) × Spells c.layout (value h) (after call map) }
    ensures refused { (c : Call) (h : History) (map : List Pair) → IsMapRun c.layout h → IsUndisturbed c h
        → Spells c.layout (value c.start) map → HasEnteredNone c.layout c.pass h c.start → Spells c.layout (value h) map }
    ensures full { (c : Call) (h : History) (call : MapCall) (share : Remaining) (full : Full) (map : List Pair) → IsMapRun c.layout h
        → IsUndisturbed c h → Spells c.layout (value c.start) map → HasRunOut c h call share full
        → RestsWith c c.start share × (0 < need call map) × HasTooLittle (need call map) share full.what full.left }
    ensures undisturbed { (c : Call) (h : History) (call : MapCall) (tries n s : ℕ) →
        IsMapRun c.layout h → IsUndisturbed c h → ¬ HasLost c h call tries n s }
    ensures one_pass { (c : Call) (h : History) (call : MapCall) (tries n s : ℕ) →
        c.layout.passes ≡ 1 → ¬ HasLost c h call tries n s }
    ensures one_pass_full { (c : Call) (h : History) (call : MapCall) (share : Remaining) (full : Full) → c.layout.passes ≡ 1
        → HasRunOut c h call share full → RestsWith c c.start share }
{
    edits::alone_holds();
}
