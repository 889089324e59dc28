//! What the machines of calls touch.
ghost use Rattle.std.specs.Prelude.{ℕ, List};
ghost use Rattle.arena.specs.declared.step.Row.{Row};
ghost use Rattle.arena.specs.declared.step.Step.{Step};
ghost use Rattle.arena.specs.declared.word.Word.{Word};
ghost use Rattle.arena.specs.History.{History, ◌⊳◌};
ghost use Rattle.arena.specs.Lawful.{Lawful};
ghost use Rattle.arena.specs.Machines.{Call, IsRun, row_of};
ghost use Rattle.help.specs.Help.Known.{HelpWaits};
ghost use Rattle.help.specs.declared.state.HelpRun.{HelpRun};
ghost use Rattle.prims.specs.Llx.Known.{LlxWaits};
ghost use Rattle.prims.specs.Scx.Known.{ScxWaits};
ghost use Rattle.prims.specs.Vlx.Known.{VlxWaits};
ghost use Rattle.prims.specs.declared.llx.LlxRun.{LlxRun};
ghost use Rattle.prims.specs.declared.scx.ScxRun.{ScxRun};
ghost use Rattle.prims.specs.declared.snap.Snap.{Snap};
ghost use Rattle.ordered_map.specs.Runs.{IsMapRun};
ghost use Rattle.template.specs.Walk.Known.{WalkWaits};
ghost use Rattle.template.specs.declared.walk.WalkRun.{WalkRun};
ghost use Rattle.edits.specs.Known.{UpdateWaits};
ghost use Rattle.edits.specs.declared.update.UpdateAt.{UpdateAt};
ghost use Rattle.edits.specs.declared.update.UpdateRun.{UpdateRun};
ghost use Rattle.order.specs.Known.{ReadWaits};
ghost use Rattle.order.specs.Neighbour.{neighbour_means};
ghost use Rattle.order.specs.Range.{range_means};
ghost use Rattle.order.specs.declared.neighbour.Neighbour.{Neighbour};
ghost use Rattle.order.specs.declared.range.Range.{Range};
ghost use Rattle.order.specs.declared.run.ReadRun.{ReadRun};
ghost use Rattle.template.specs.Common.{Rule};
ghost use Rattle.tree.specs.declared.key_edit.KeyEdit.{KeyEdit};
ghost use Rattle.dict.specs.Inner.{GoalBy, edit_means};
ghost use Rattle.dict.specs.DictKnown.{DictWaits};
ghost use Rattle.dict.specs.Known.{MapWaits};
ghost use Rattle.dict.specs.Words.{IsWordOf};
ghost use Rattle.dict.specs.declared.run.MapRun.{MapRun};
ghost use Rattle.touching.specs.Kinds.{IsInTree, IsNotFinal};
ghost use Rattle.touching.specs.Unmarked.{CoversUnmarked};
ghost use Rattle.touching.specs.Steps.{FillsUntaken, IsMapCall, IsMapStep, MayComeThere, OfEachStep, PutsInFresh, StoresUnmarked};
ghost use Rattle.touching.specs.Touches.{MayBeHelped, Touches, WasSo, WereSo};

use arena::Shape;
use dict::{DictRun, WordKey, WordValue};

/// A walk, and so a get, loads words of nodes alone that were in the tree at a moment of its call.
/// It does nothing; a caller learns this from its contract.
pub fn walks_touch()
    ensures { (m : WalkRun) (c : Call) (h : History) (s : Step) → WalkWaits m c h s
        → Touches (λ lay. IsInTree) c h s.word }
{}

/// What HELP, LLX, VLX and SCX touch, of a call whose nodes were not final at a moment of it. It
/// does nothing; a caller learns this from its contract.
pub fn parts_touch<S: Shape>()
    ensures help { (m : HelpRun) (c : Call) (h : History) (s : Step) → Lawful c.layout h
        → HelpWaits S.allows c.layout c.pass m h s → MayBeHelped IsNotFinal c h m.scx.0
        → Touches IsNotFinal c h s.word }
    ensures llx { (m : LlxRun) (c : Call) (h : History) (s : Step) → IsRun S.allows c.layout h
        → LlxWaits S.allows m c h s → WasSo IsNotFinal c h m.node.0
        → Touches IsNotFinal c h s.word }
    ensures vlx { (snaps : List Snap) (n : ℕ) (c : Call) (h : History) (s : Step)
        → VlxWaits snaps n c h s → WereSo IsNotFinal c h snaps → Touches IsNotFinal c h s.word }
    ensures scx { (m : ScxRun) (c : Call) (h : History) (s : Step) → IsRun S.allows c.layout h
        → ScxWaits S.allows m c h s → WereSo IsNotFinal c h m.update.snaps
        → Touches IsNotFinal c h s.word }
{}

/// What edits of a map and ordered reads touch, in a tree and in a trie. It does nothing; a caller
/// learns this from its contract.
pub fn machines_touch()
    ensures edits { (m : UpdateRun (KeyEdit GoalBy Rule) UpdateAt) (c : Call) (h : History)
        (s : Step) → UpdateWaits edit_means m c h s → Touches (λ lay. IsInTree) c h s.word }
    ensures unmarked { (m : UpdateRun (KeyEdit GoalBy Rule) UpdateAt) (c : Call) (h : History)
        (s : Step) → UpdateWaits edit_means m c h s → CoversUnmarked c h m.at }
    ensures neighbours { (m : ReadRun Neighbour) (c : Call) (h : History) (s : Step)
        → ReadWaits neighbour_means m c h s → Touches (λ lay. IsInTree) c h s.word }
    ensures ranges { (m : ReadRun Range) (c : Call) (h : History) (s : Step)
        → ReadWaits range_means m c h s → Touches (λ lay. IsInTree) c h s.word }
{}

/// What a whole call of a map touches. It does nothing; a caller learns this from its contract.
pub fn calls_touch()
    ensures touches { (tries : ℕ) (m : MapRun) (c : Call) (h : History) (s : Step)
        → MapWaits tries m c h s → Touches (λ lay. IsInTree) c h s.word }
    ensures not_final { (c : Call) (h : History) (w : Word) → IsMapRun c.layout h
        → Touches (λ lay. IsInTree) c h w → Touches IsNotFinal c h w }
{}

/// What the machine of a call of a dictionary touches. It does nothing; a caller learns this from
/// its contract.
pub fn dictionaries_touch<K: WordKey, V: WordValue>()
    ensures { (m : DictRun K V) (c : Call) (h : History) (s : Step)
        → DictWaits (IsWordOf K.is_valid K.word_of) (IsWordOf V.is_valid V.word_of) m c h s
        → Touches (λ lay. IsInTree) c h s.word }
{}

/// What a whole call of a map comes to, step by step: each word is one that it may come to then;
/// what it stores in a `v` word had no mark at a moment of it; what it puts in is fresh to it; and
/// to what nobody has taken it comes only to fill it. It does nothing; a caller learns this from
/// its contract.
pub fn steps_touch()
    ensures touches { (c : Call) (h : History) → IsMapCall c h
        → OfEachStep (MayComeThere (λ lay. IsInTree)) c h }
    ensures stores { (c : Call) (h : History) (r : Row) → IsMapStep c h r → StoresUnmarked c h r }
    ensures fresh { (c : Call) (h : History) (r : Row) → Lawful c.layout (r ⊳ h)
        → IsMapStep c h r → PutsInFresh c h r }
    ensures fills { (c : Call) (h : History) (r : Row) → IsMapStep c h r → FillsUntaken c h r }
{}

/// Each step of a call of a dictionary is one of a call of a map. It does nothing; a caller learns
/// this from its contract.
pub fn dictionaries_step<K: WordKey, V: WordValue>()
    ensures { (m : DictRun K V) (c : Call) (h : History) (s : Step)
        → DictWaits (IsWordOf K.is_valid K.word_of) (IsWordOf V.is_valid V.word_of) m c h s
        → IsMapStep c h (row_of c s h) }
{}
