//! What a pass keeps, and of which table.
ghost use Rattle.std.specs.Prelude.{◌≡◌, ◌≢◌, ◌<◌, [], IfSome, IsTrue, None, Some};
ghost use Rattle.arena.specs.History.{Extends, History};
ghost use Rattle.arena.specs.Machines.{IsRun};
ghost use Rattle.ordered_map.specs.Paths.{IsAnswerAt};
ghost use Rattle.ordered_map.specs.Runs.{IsMapRun};
ghost use Rattle.tables.specs.Seats.{IsSameSeat};
ghost use Rattle.tables.specs.Slotted.{in_turns};
ghost use Rattle.tables.specs.TableRule.{history_of, past_of};
ghost use Rattle.tables.specs.declared.view.SeatedPass.{SeatedPass};
ghost use Rattle.upkeep.specs.UpkeepBook.{IsAtLasting};
ghost use Rattle.upkeep.specs.UpkeepDeals.{DealsOn};
ghost use Rattle.upkeep.specs.UpkeepKeeper.{IsSetNow, IsSetToCall};
ghost use Rattle.upkeep.specs.UpkeepLost.{AreUnborn, IsLostReply};
ghost use Rattle.forest.specs.UpkeepKept.{KeepsRight};

use arena::{Layout, NodeNo, PassNo, Shape, Share};
use atomic_table::Seat;
use dict::Reply;
use tables::rule::Turns;
use tables::table_shape::Keeping;
use tables::view::SeatView;
use tables::words::Words;
use upkeep::keeper::Keeper;
use upkeep::leaf::OwnLeaf;

/// What a pass keeps so that its records come back, and how the slots of its table are taken again.
#[derive(Drop)]
pub(crate) struct PassKeeper {
    pub(crate) layout: Layout,
    pub(crate) turns: Turns,
    pub(crate) keeper: Keeper,
}

impl PassKeeper {
    /// Whether it is of a table that has this layout, and whose slots are taken again so.
    fn is_of(&self, turns: Option<Turns>, layout: &Layout) -> bool
        ensures { IsTrue result → (turns ≡ Some self.now.turns) × (layout.now ≡ self.now.layout) }
    {
        turns == Some(self.turns) && *layout == self.layout
    }

    /// A pass begins to rest, as its keeper says, if this is what it keeps of the table. So it is
    /// of each pass of the table.
    pub(crate) fn rest<S: Shape>(
        &mut self,
        words: &Words<S>,
        turns: Option<Turns>,
        layout: &Layout,
        seat: &mut Seat<u8, SeatView>,
        number: PassNo,
        left: &Share,
    )
        requires turns { turns ≡ words.now.table.shared.key.turns }
        requires pass { (p : SeatedPass) × IsAtLasting words.now layout.now seat.old p
            × (p.number ≡ number) × IsSetToCall S.allows (in_turns self.old.layout self.old.turns) p left.now self.old.keeper
            × ((h : History) → IsRun S.allows p.layout h → IsMapRun p.layout h) }
        ensures table { IsSameSeat seat.old seat.new }
        ensures rests { DealsOn
            (IsSetNow S.allows (in_turns self.new.layout self.new.turns) left.now self.new.keeper)
            seat.old.me.0 seat.new.me.0 }
    {
        if self.is_of(turns, layout) {
            self.keeper.rest(words, layout, seat, number, left);
        }
    }

    /// It ends to rest. It answers the first other pass that it waits for by then.
    pub(crate) fn end_rest<S: Shape>(
        &mut self,
        words: &Words<S>,
        turns: Option<Turns>,
        layout: &Layout,
        seat: &mut Seat<u8, SeatView>,
        number: PassNo,
        left: &mut Share,
    ) -> Option<PassNo>
        requires turns { turns ≡ words.now.table.shared.key.turns }
        requires pass { (p : SeatedPass) × IsAtLasting words.now layout.now seat.old p
            × (p.number ≡ number) × IsSetToCall S.allows (in_turns self.old.layout self.old.turns) p left.old self.old.keeper
            × ((h : History) → IsRun S.allows p.layout h → IsMapRun p.layout h) }
        ensures table { IsSameSeat seat.old seat.new }
        ensures rests { DealsOn
            (IsSetNow S.allows (in_turns self.new.layout self.new.turns) left.new self.new.keeper)
            seat.old.me.0 seat.new.me.0 }
        ensures waits { IfSome result (λ other. (other.0 < layout.now.passes) × (other.0 ≢ number.0)) }
    {
        if !self.is_of(turns, layout) {
            return None;
        }
        self.keeper.end_rest(words, layout, seat, number, left);
        self.keeper.waits_for()
    }

    /// As it rests: the leaf of its own at which it looks next, if that may be out.
    pub(crate) fn next_leaf<S: Shape>(
        &mut self,
        words: &Words<S>,
        turns: Option<Turns>,
        layout: &Layout,
        seat: &mut Seat<u8, SeatView>,
        left: &Share,
    ) -> Option<OwnLeaf>
        requires turns { turns ≡ words.now.table.shared.key.turns }
        requires pass { (p : SeatedPass) × IsAtLasting words.now layout.now seat.old p
            × IsSetToCall S.allows (in_turns self.old.layout self.old.turns) p left.now self.old.keeper
            × ((h : History) → IsRun S.allows p.layout h → IsMapRun p.layout h) }
        ensures table { IsSameSeat seat.old seat.new }
        ensures rests { DealsOn
            (IsSetNow S.allows (in_turns self.new.layout self.new.turns) left.now self.new.keeper)
            seat.old.me.0 seat.new.me.0 }
    {
        if !self.is_of(turns, layout) {
            return None;
        }
        self.keeper.next_leaf(words, layout, seat, left)
    }

    /// As it rests: the map did not have the key of this leaf, as the pass has found since it began
    /// to. If so it is noted that the leaf is out.
    pub(crate) fn note_leaf<S: Shape>(
        &mut self,
        words: &Words<S>,
        turns: Option<Turns>,
        layout: &Layout,
        seat: &mut Seat<u8, SeatView>,
        left: &Share,
        leaf: OwnLeaf,
    )
        requires turns { turns ≡ words.now.table.shared.key.turns }
        requires pass { (p : SeatedPass) × IsAtLasting words.now layout.now seat.old p
            × IsSetToCall S.allows (in_turns self.old.layout self.old.turns) p left.now self.old.keeper
            × ((h : History) → IsRun S.allows p.layout h → IsMapRun p.layout h) × (start : History)
            × Extends start (history_of p.planting p.memory.rested)
            × IsAnswerAt p.layout (past_of p []) start leaf.key None }
        ensures table { IsSameSeat seat.old seat.new }
        ensures rests { DealsOn
            (IsSetNow S.allows (in_turns self.new.layout self.new.turns) left.now self.new.keeper)
            seat.old.me.0 seat.new.me.0 }
    {
        if self.is_of(turns, layout) {
            self.keeper.note_leaf(words, layout, seat, left, leaf);
        }
    }
}

/// Whether a call replies that it was lost: then its pass has entered nothing since it began.
#[inline(always)]
fn is_lost<K, V>(reply: &Reply<K, V>) -> bool
    ensures { IsTrue result → IsLostReply reply.now }
{
    match reply {
        Reply::Contended { node: _, scx: _ } | Reply::Full(_) => true,
        _ => false,
    }
}

/// A call has taken the nodes of its pass from this one on, up to that one. Where records come back,
/// they do so soon if the call was lost: nobody else has known them.
#[inline(always)]
pub(crate) fn note_lost<K, V, B: Keeping>(
    kept: &mut Option<PassKeeper>,
    reply: &Reply<K, V>,
    from: NodeNo,
    to: NodeNo,
)
    ensures { (p : SeatedPass) → (IsLostReply reply.now → AreUnborn p from.0 to.0)
        → KeepsRight kept.old p → KeepsRight kept.new p }
{
    if B::lasts() && is_lost(reply) {
        if let Some(kept) = kept {
            kept.keeper.lose(from, to);
        }
    }
}
