//! Dictionaries whose records come back.
ghost use Rattle.std.specs.Prelude.{◌≡◌, ◌<◌, ◌^◌, ◌↔◌, Err, ℕ, [], IfOk, OnOk};
ghost use Rattle.std.specs.List.{All};
ghost use Rattle.arena.specs.History.{Opened};
ghost use Rattle.arena.specs.Layout.{IsMap, all_nodes};
ghost use Rattle.arena.specs.Limits.{IsAccepted};
ghost use Rattle.arena.specs.Machines.{IsRun};
ghost use Rattle.planting.specs.Plantings.{opening_for};
ghost use Rattle.template.specs.Balance.{map_mode};
ghost use Rattle.dict.specs.Typed.{TypedAllows};
ghost use Rattle.dict.specs.Words.{IsWordOf};
ghost use Rattle.tables.specs.LastingOpening.{first_view};
ghost use Rattle.tables.specs.LastingTables.{AreNewIn, BeginsLasting, MayTakeTurns, OpensInTurns};
ghost use Rattle.tables.specs.Passes.{IsOf, ground};
ghost use Rattle.tables.specs.Seats.{IsSeatAt};
ghost use Rattle.tables.specs.Shares.{HasFewNames};
ghost use Rattle.tables.specs.Slotted.{in_turns};

use crate::fault::NewFault;
use crate::forest::Forest;
use crate::pass::Pass;
use arena::{Layout, Limits, NoMemory, PassNo};
use atomic_table::Seat;
use dict::{Dict, WordKey, WordValue};
use planting::Planting;
use std::alloc::Global;
use straight::balance::in_trie;
use tables::rule::{Plot, Site, Turns};
use tables::table_plan::TablePlan;
use tables::table_shape::{Keeping, TableShape};
use tables::view::SeatView;
use tables::words::Words;
use template::{Balance, FixedBalance, map_mode};

/// A tree or a trie, as another balance says, of a dictionary whose records come back.
#[derive(Clone, Copy, Debug, PartialEq, Eq)]
pub struct Lasts<B>(B);

impl<B: Balance> Balance for Lasts<B> {
    ghost trie = { λ b. B.trie b.0 };

    #[inline(always)]
    fn in_trie(&self) -> bool {
        self.0.in_trie()
    }
}

impl<B: FixedBalance> FixedBalance for Lasts<B> {
    ghost the = { record { 0 = B.the } };

    #[inline(always)]
    fn the() -> Lasts<B> {
        Lasts(B::the())
    }
}

impl<B: FixedBalance> Keeping for Lasts<B> {
    ghost use Rattle.std.specs.Prelude.{true};

    ghost lasts = { true };

    #[inline(always)]
    fn lasts() -> bool {
        true
    }
}

impl<K: WordKey, V: WordValue, B: FixedBalance> Forest<Dict<K, V, Lasts<B>>> {
    /// An empty dictionary whose records come back, and a pass for each client. Its limits are of
    /// what is in use at a time: what a pass's share has held comes back to it as the passes rest.
    /// A call makes one try, whatever the limits say: one that answers `Contended` may be made
    /// again. Refused are limits out of range and want of memory.
    pub fn lasting(
        alloc: Global,
        limits: Limits,
    ) -> Result<
        (
            Forest<Dict<K, V, Lasts<B>>>,
            Vec<Pass<Dict<K, V, Lasts<B>>>>,
        ),
        NewFault,
    >
        ensures accepted { OnOk result (IsAccepted limits) }
        ensures refused { (result ≡ Err NewFault.Limits) ↔ (¬ IsAccepted limits) }
        ensures begins { IfOk result (λ r. BeginsLasting limits (map_mode (B.trie B.the)) r.0 r.1.items) }
        ensures passes { IfOk result (λ r. All (IsOf r.0) r.1.items) }
    {
        let Ok(layout) = limits.check(map_mode(in_trie::<B>())) else {
            return Err(NewFault::Limits);
        };
        let planting = Planting::none(alloc, layout.mode);
        match Forest::with_turns(alloc, Plot { layout, planting }, 1) {
            Ok(opened) => Ok(opened),
            Err(NoMemory) => Err(NewFault::NoMemory),
        }
    }

    /// A table as it is at the start, with what is planted in it, whose records come back, and a
    /// pass for each client. The only error is want of memory.
    pub(crate) fn with_turns(
        alloc: Global,
        plot: Plot,
        tries: u32,
    ) -> Result<
        (
            Forest<Dict<K, V, Lasts<B>>>,
            Vec<Pass<Dict<K, V, Lasts<B>>>>,
        ),
        NoMemory,
    >
        requires mode { plot.layout.mode ≡ map_mode (B.trie B.the) }
        requires few { HasFewNames plot.layout }
        requires room { all_nodes plot.layout < 2 ^ 26 }
        requires some { (0 < plot.layout.passes) × (0 < tries) }
        requires planting { plot.planting.mode ≡ plot.layout.mode }
        requires run { IsRun (TypedAllows (IsWordOf K.is_valid K.word_of) (IsWordOf V.is_valid V.word_of))
            plot.layout (Opened (opening_for plot.planting)) }
        ensures opens { IfOk result (λ r. OpensInTurns plot.layout r.0 r.1.items) }
        ensures kept { IfOk result (λ r. (r.0.planting ≡ plot.planting) × (r.0.tries ≡ tries)) }
    {
        let Plot { layout, planting } = plot;
        let turns = Turns::of(&layout);
        let site = Site {
            layout,
            planting,
            turns: Some(turns),
        };
        let (words, seat) = Words::open_in_turns(alloc, &site, turns)?;
        let passes = passes_in_turns(alloc, &words, &layout, turns, seat)?;
        let forest = Forest {
            words,
            plan: TablePlan::in_turns(layout, turns),
            turns: Some(turns),
            tries,
        };
        Ok((forest, passes))
    }
}

/// A pass for each of a seat's.
fn passes_in_turns<S: TableShape>(
    alloc: Global,
    words: &Words<S>,
    layout: &Layout,
    turns: Turns,
    mut seat: Seat<u8, SeatView>,
) -> Result<Vec<Pass<S>>, NoMemory>
    requires mode { layout.now.mode ≡ S.mode }
    requires map { IsMap S.mode }
    requires few { HasFewNames layout.now }
    requires may { MayTakeTurns layout.now turns }
    requires table { IsSeatAt words.now seat }
    requires seat { (seat.me.0 ≡ first_view (in_turns layout.now turns) words.now.table.shared.key.planting)
        × (seat.me.1 ≡ []) }
    requires run { IsRun S.allows (in_turns layout.now turns).lay
        (Opened (opening_for words.now.table.shared.key.planting)) }
    ensures { IfOk result
        (λ passes. (tries : ℕ) → AreNewIn (in_turns layout.now turns)
        (ground words.now.table.shared.table_id (in_turns layout.now turns).lay words.now.table.shared.key.planting tries) passes.items) }
{
    let mut passes = Vec::new(alloc);
    for number in 0..layout.passes {
        let own = words.deal(&mut seat);
        let pass = Pass::in_turns(alloc, layout, turns, PassNo(number), own)?;
        passes.push(pass)?;
    }
    Ok(passes)
}
