//! The words of the table, and all that touches them while threads share them: a step, which adds
//! one row to the run, and the moves by which seats are split and joined, which show nothing.
//! Nothing else can be written outside this module, so that a call's rows are all that it has done.
ghost use Rattle.std.specs.Prelude.{◌≡◌, ◌<◌, ◌≤◌, ◌++◌, ℕ, [], ◌∷◌, None, Some, IfOk};
ghost use Rattle.std.specs.Slots.{IsFull, slots_len, slots_items};
ghost use Rattle.atomic_table.specs.Table.{Allows, Final, Seen};
ghost use Rattle.arena.specs.History.{Opened};
ghost use Rattle.arena.specs.Layout.{IsMap, table_size};
ghost use Rattle.arena.specs.Machines.{IsRun};
ghost use Rattle.ordered_map.specs.Runs.{IsMapRun};
ghost use Rattle.planting.specs.Plantings.{opening_for};
ghost use Rattle.tables.specs.declared.view.SeatedPass.{SeatedPass};
ghost use Rattle.tables.specs.LastingOpening.{first_view};
ghost use Rattle.tables.specs.LastingRule.{MayStepOn};
ghost use Rattle.tables.specs.LastingTables.{HasWordsFor, MayTakeTurns};
ghost use Rattle.tables.specs.Ruled.{IsRuled, MayLast};
ghost use Rattle.tables.specs.Shares.{HasFewNames};
ghost use Rattle.tables.specs.Slotted.{in_turns, names_of_table, plot_at};
ghost use Rattle.tables.specs.TablePlans.{IsPlaceOf, IsTableOnce};
ghost use Rattle.tables.specs.TableRule.{MayStep, Made, Looked, look, new_passes, rest_of, first_of};

use crate::lasting_laws::names_last;
use crate::lasting_size::{size_in_turns, with_zeros};
use crate::rule::{Both, CallStep, Deal, Lawful, Learns, Looks, Makes, Says, Site, Teaches, Turns};
use crate::view::SeatView;
use arena::{Access, Layout, NoMemory, NodeNo, NodeWord, SettledPart, Shape, Word};
use atomic_table::{Closed, Seat, Table};
use std::alloc::Global;
use std::marker::Brand;

/// A table of words under the rule that some lawful run has left them.
#[derive(Drop)]
pub struct Words<S: Shape> {
    table: Table<u8, SeatView, Site, Lawful<S>, Global>,
    ghost some: { 0 < table.shared.table_id.words },
}

impl<S: Shape> Words<S> {
    ghost use Rattle.tables.specs.Seats.{IsSeatAt, IsSameSeat, StaysAtTable};

    /// The words of a table as they are at the start, with a seat that has all passes.
    pub fn open(alloc: Global, site: &Site) -> Result<(Words<S>, Seat<u8, SeatView>), NoMemory>
        requires once { site.now.turns ≡ None }
        requires mode { site.now.planting.mode ≡ site.now.layout.mode }
        requires run { IsRun S.allows site.now.layout (Opened (opening_for site.now.planting)) }
        ensures key { IfOk result (λ w. w.0.table.shared.key ≡ site.now) }
        ensures table { IfOk result
            (λ w. (w.0.table.shared.table_id.words ≡ table_size site.now.layout)
            × (w.0.table.shared.table_id.slots ≡ 0)
            × (w.1.table_id ≡ w.0.table.shared.table_id)) }
        ensures seat { IfOk result
            (λ w. (w.1.me.0.passes ≡ new_passes (plot_at site.now) 0 site.now.layout.passes)
            × (w.1.me.1 ≡ [])) }
    {
        let words = site.planting.words(alloc, &site.layout)?;
        let (table, seat) = Table::of_words(alloc, words.words(), site)?;
        Ok((Words { table }, seat))
    }

    /// The words of a table whose records come back, as they are at the start, and zeros behind
    /// them, with a seat that has all passes.
    pub fn open_in_turns(
        alloc: Global,
        site: &Site,
        turns: Turns,
    ) -> Result<(Words<S>, Seat<u8, SeatView>), NoMemory>
        requires turns { site.now.turns ≡ Some turns }
        requires mode { site.now.planting.mode ≡ site.now.layout.mode }
        requires may { HasFewNames site.now.layout × MayTakeTurns site.now.layout turns }
        requires run { IsRun S.allows (names_of_table site.now) (Opened (opening_for site.now.planting))
            × IsMapRun (names_of_table site.now) (Opened (opening_for site.now.planting)) }
        ensures key { IfOk result (λ w. w.0.table.shared.key ≡ site.now) }
        ensures table { IfOk result
            (λ w. (w.0.table.shared.table_id.slots ≡ 0)
            × (w.1.table_id ≡ w.0.table.shared.table_id)) }
        ensures room { IfOk result
            (λ w. HasWordsFor site.now.layout turns w.0.table.shared.table_id.words) }
        ensures seat { IfOk result
            (λ w. (w.1.me.0 ≡ first_view (in_turns site.now.layout turns) site.now.planting)
            × (w.1.me.1 ≡ [])) }
    {
        let opening = site.planting.words(alloc, &site.layout)?;
        let words = with_zeros(alloc, opening.words(), size_in_turns(&site.layout, &turns))?;
        names_last::<S>();
        let (table, seat) = Table::of_words(alloc, &words, site)?;
        Ok((Words { table }, seat))
    }

    /// Makes the step of a call that is said, which is at this place, and answers what a machine
    /// gets of it. In a map the step meets what a table asks that lasts.
    #[inline(always)]
    pub fn make<J: Says>(&self, seat: &mut Seat<u8, SeatView>, said: &CallStep, at: usize) -> u64
        requires said { said.now ≡ J.said }
        requires table { IsSeatAt self.now seat.old }
        requires last { MayLast S.mode S.allows self.now.table.shared.key }
        requires place { IsPlaceOf self.now.table.shared.key self.now.table.shared.table_id.words
            said.now.step.word at }
        requires may { (p : SeatedPass) × (seat.old.me.0.passes ≡ p ∷ [])
            × MayStep S.allows said.now p }
        requires in_map { IsMap S.mode → (p : SeatedPass) × (seat.old.me.0.passes ≡ p ∷ [])
            × MayStepOn S.allows said.now p }
        ensures table { StaysAtTable seat.old seat.new }
        ensures made { Made S.allows said.now seat.old.me.0.passes result seat.new.me.0.passes }
    {
        let shared = &self.table.shared;
        match said.step.access {
            Access::Load => shared.load::<Makes<S, J>>(seat, at),
            Access::Store(new) => {
                shared.store::<Makes<S, J>>(seat, at, new);
                new
            }
            Access::Exchange { expected, new } => {
                shared.compare_exchange::<Makes<S, J>>(seat, at, expected, new)
            }
        }
    }

    /// Loads what is at a place, in a step that is of no call and that the rule of the table allows,
    /// and answers it. What the step is about is there for the caller, who picks by it what is
    /// learnt.
    #[inline(always)]
    pub fn load_with<J: Learns, A: Copy>(
        &self,
        seat: &mut Seat<u8, SeatView>,
        at: usize,
        about: A,
    ) -> u64
        requires table { seat.old.table_id ≡ self.now.table.shared.table_id }
        requires inside { at < self.now.table.shared.table_id.words }
        requires may { Allows (IsRuled S.allows self.now.table.shared.key)
            self.now.table.shared.table_id.slots seat.old.id seat.old.me at (λ n. n)
            (λ n w. J.learns seat.old.me.0 n w.0 × (w.1 ≡ seat.old.me.1)) }
        ensures table { IsSameSeat seat.old seat.new }
        ensures learnt { J.learns seat.old.me.0 result seat.new.me.0 }
    {
        self.table.shared.load::<Teaches<J>>(seat, at)
    }

    /// Stores a number at a place, in a step that is of no call and that the rule of the table
    /// allows. What the step is about is there for the caller.
    #[inline(always)]
    pub fn store_with<J: Learns, A: Copy>(
        &self,
        seat: &mut Seat<u8, SeatView>,
        at: usize,
        new: u64,
        about: A,
    )
        requires table { seat.old.table_id ≡ self.now.table.shared.table_id }
        requires inside { at < self.now.table.shared.table_id.words }
        requires may { Allows (IsRuled S.allows self.now.table.shared.key)
            self.now.table.shared.table_id.slots seat.old.id seat.old.me at (λ n. new)
            (λ n w. J.learns seat.old.me.0 new w.0 × (w.1 ≡ seat.old.me.1)) }
        ensures table { IsSameSeat seat.old seat.new }
        ensures learnt { J.learns seat.old.me.0 new seat.new.me.0 }
    {
        self.table.shared.store::<Teaches<J>>(seat, at, new);
    }

    /// A look at the table by the only pass of a seat, which is no step of a call.
    pub fn look_alone(&self, layout: &Layout, seat: &mut Seat<u8, SeatView>)
        requires table { IsSeatAt self.now seat.old }
        requires once { IsTableOnce self.now.table.shared.table_id self.now.table.shared.key layout.now }
        requires one { (p : SeatedPass) × (seat.old.me.0.passes ≡ p ∷ [])
            × (p.layout ≡ layout.now) × (p.number.0 < layout.now.passes) }
        ensures table { IsSameSeat seat.old seat.new }
        ensures looked { (n : ℕ) × Made S.allows look seat.old.me.0.passes n seat.new.me.0.passes }
    {
        let head = Word::Node(NodeNo(0), NodeWord::Settled(SettledPart::Head));
        let at = layout.place(head);
        self.table.shared.load::<Makes<S, Brand>>(seat, at);
    }

    /// A look at the table by the first of two passes of a seat, which is then the second.
    pub fn look(&self, layout: &Layout, seat: &mut Seat<u8, SeatView>)
        requires table { IsSeatAt self.now seat.old }
        requires once { IsTableOnce self.now.table.shared.table_id self.now.table.shared.key layout.now }
        requires two { (p : SeatedPass) × (q : SeatedPass) × (seat.old.me.0.passes ≡ p ∷ q ∷ [])
            × (p.layout ≡ layout.now) × (p.number.0 < layout.now.passes) }
        ensures table { IsSameSeat seat.old seat.new }
        ensures looked { Looked S.allows seat.old.me.0.passes seat.new.me.0.passes }
    {
        let head = Word::Node(NodeNo(0), NodeWord::Settled(SettledPart::Head));
        let at = layout.place(head);
        self.table.shared.load::<Looks<S>>(seat, at);
    }

    /// A seat for the first pass of a seat.
    pub fn deal(&self, seat: &mut Seat<u8, SeatView>) -> Seat<u8, SeatView>
        requires table { IsSeatAt self.now seat.old }
        ensures table { (seat.new.table_id ≡ seat.old.table_id)
            × (result.table_id ≡ seat.old.table_id) }
        ensures bare { (seat.new.me.1 ≡ seat.old.me.1) × (result.me.1 ≡ []) }
        ensures passes { (seat.new.me.0.passes ≡ rest_of seat.old.me.0.passes)
            × (result.me.0.passes ≡ first_of seat.old.me.0.passes) }
    {
        self.table.shared.split_seat::<Deal>(seat)
    }

    /// A seat takes in the passes of another.
    pub fn take_in(&self, seat: &mut Seat<u8, SeatView>, other: Seat<u8, SeatView>)
        requires table { IsSeatAt self.now seat.old × IsSeatAt self.now other }
        requires bare { other.me.1 ≡ [] }
        ensures table { IsSameSeat seat.old seat.new }
        ensures passes { seat.new.me.0.passes ≡ seat.old.me.0.passes ++ other.me.0.passes }
    {
        self.table.shared.join_seat::<Both>(seat, other)
    }

    /// The words at the end, with what this seat knows of them.
    pub fn close(self, seat: Seat<u8, SeatView>) -> Closed<u8, Global>
        requires { seat.table_id ≡ self.table.shared.table_id }
        ensures counts { (slots_len result.words ≡ self.table.shared.table_id.words)
            × (slots_len result.slots ≡ self.table.shared.table_id.slots) }
        ensures values { IsFull result.words × IsFull result.slots
            × Final (Seen (IsRuled S.allows self.table.shared.key) seat.id seat.me.0)
            (slots_items result.words) (slots_items result.slots) }
    {
        self.table.close_with(seat)
    }
}
