//! The machines of a forest's calls, and what the rule of its table may know of their steps.
ghost use Rattle.arena.specs.declared.step.Step.{Step};
ghost use Rattle.arena.specs.History.{History};
ghost use Rattle.arena.specs.Layout.{IsMap};
ghost use Rattle.arena.specs.Machines.{Call, row_of};
ghost use Rattle.dict.specs.Words.{IsWordOf};
ghost use Rattle.touching.specs.Steps.{IsMapStep};
ghost use Rattle.tables.specs.CallSteps.{AnyLeft, HasDictLeft, cells_dealt, cells_step, dict_dealt, dict_keeps_left, dict_step, no_map_of_cells};
ghost use Rattle.tables.specs.LastingMemory.{FillsDealt};
ghost use Rattle.tables.specs.declared.memory.PassMemory.{PassMemory};

use arena::{Machine, Shape};
use dict::{Dict, DictRun, WordKey, WordValue};
use prims::{Cells, LlxRun, PutRun, SnapList, VlxRun};
use tables::table_shape::TableShape;
use template::FixedBalance;

/// A machine with which a call of a forest begins.
pub trait CallMachine<S: Shape>: Machine<S> {
    /// In a map each step for which it waits is one of a map's call.
    ghost of_call: { (m : Self) (c : Call) (h : History) (s : Step) → IsMap S.mode → Self.waits m c h s → IsMapStep c h (row_of c s h) };

    /// What it has left of its pass's share ends where the names end that the pass has dealt, as
    /// far as that is asked of it.
    ghost left_dealt: { Self → PassMemory → Type 0 };

    /// It does so where the machine continues.
    ghost keeps_left: { (old now : Self) (memory : PassMemory)
        → Self.same old now → left_dealt old memory → left_dealt now memory };

    /// Where it does, each step for which the machine waits in a map fills only what is dealt.
    ghost dealt: { (m : Self) (c : Call) (h : History) (s : Step) (memory : PassMemory)
        → IsMap S.mode → Self.waits m c h s → left_dealt m memory → FillsDealt memory s };
}

/// A shape of tables that hold no map.
pub trait CellShape: TableShape {
    /// They hold none.
    ghost no_map: { IsMap Self.mode → ⊥ };
}

impl CellShape for Cells {
    ghost no_map = { no_map_of_cells };
}

impl<K: WordKey, V: WordValue, B: FixedBalance> CallMachine<Dict<K, V, B>> for DictRun<K, V> {
    ghost of_call = { λ m c h s map waits. dict_step (IsWordOf K.is_valid K.word_of) (IsWordOf V.is_valid V.word_of) m c h s waits };

    ghost left_dealt = { HasDictLeft };

    ghost keeps_left = { λ old now memory same left. dict_keeps_left old now memory same.4 left };

    ghost dealt = { λ m c h s memory map waits left. dict_dealt (IsWordOf K.is_valid K.word_of) (IsWordOf V.is_valid V.word_of) m c h s memory waits left };
}

impl<S: CellShape> CallMachine<S> for LlxRun {
    ghost of_call = { λ m c h s map waits. cells_step S.mode S.no_map map c h s };

    ghost left_dealt = { AnyLeft };

    ghost keeps_left = { λ old now memory same left. left };

    ghost dealt = { λ m c h s memory map waits left. cells_dealt S.mode S.no_map map memory s };
}

impl<S: CellShape, L: SnapList> CallMachine<S> for VlxRun<L> {
    ghost of_call = { λ m c h s map waits. cells_step S.mode S.no_map map c h s };

    ghost left_dealt = { AnyLeft };

    ghost keeps_left = { λ old now memory same left. left };

    ghost dealt = { λ m c h s memory map waits left. cells_dealt S.mode S.no_map map memory s };
}

impl<S: CellShape> CallMachine<S> for PutRun {
    ghost of_call = { λ m c h s map waits. cells_step S.mode S.no_map map c h s };

    ghost left_dealt = { AnyLeft };

    ghost keeps_left = { λ old now memory same left. left };

    ghost dealt = { λ m c h s memory map waits left. cells_dealt S.mode S.no_map map memory s };
}
