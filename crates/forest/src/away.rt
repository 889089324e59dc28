//! Passes of a dictionary whose records come back, while they make no calls.
ghost use Rattle.std.specs.Prelude.{◌≡◌, ◌<◌, []};
ghost use Rattle.arena.specs.History.{History};
ghost use Rattle.arena.specs.Machines.{IsRun};
ghost use Rattle.ordered_map.specs.Runs.{IsMapRun};
ghost use Rattle.dict.specs.Typed.{TypedAllows};
ghost use Rattle.dict.specs.Words.{IsWordOf};
ghost use Rattle.prims.specs.Moments.{AreFinished};
ghost use Rattle.tables.specs.Passes.{IsOf, steps_of};
ghost use Rattle.tables.specs.Seats.{IsSameSeat};
ghost use Rattle.tables.specs.TableRule.{past_of};
ghost use Rattle.tables.specs.declared.view.SeatedPass.{SeatedPass};
ghost use Rattle.upkeep.specs.UpkeepBook.{IsAtLasting, KnowsRest};
ghost use Rattle.upkeep.specs.UpkeepSteps.{RestsOn};
ghost use Rattle.forest.specs.Rests.{HasOnlyRested};
ghost use Rattle.forest.specs.UpkeepKept.{ComesBack, HasComeBack, HasGoneAway};

use crate::blamed::Blamed;
use crate::forest::Forest;
use crate::kept::PassKeeper;
use crate::lasting::Lasts;
use crate::pass::Pass;
use arena::{Layout, PassNo, ScxNo, Shape, Share};
use atomic_table::Seat;
use dict::{Dict, WordKey, WordValue};
use resting::unborn_stays_out;
use std::fmt;
use std::marker::{Model, PhantomData};
use std::snapshot::Snapshot;
use straight::room::Room;
use tables::table_shape::TableShape;
use tables::view::SeatView;
use tables::words::Words;
use template::FixedBalance;

/// A pass that is away: no call can be made with it until it is back, and meanwhile no pass waits
/// for it. To drop it is to leave for ever; a pass that is dropped while it is there keeps the
/// records of all others from coming back.
#[derive(Drop)]
pub struct Away<S: TableShape> {
    number: PassNo,
    first_scx: ScxNo,
    share: Share,
    seat: Seat<u8, SeatView>,
    blamed: Blamed,
    birth: Snapshot<Seat<u8, SeatView>>,
    room: Room,
    kept: Option<PassKeeper>,
    shape: PhantomData<S>,
}

impl<S: TableShape> Model for Away<S> {
    ghost use Rattle.tables.specs.Passes.{PassView};

    ghost Value = { PassView };

    ghost use Rattle.forest.specs.AwayInvariant.{away_view, IsPassAway};

    ghost view = { away_view };

    ghost invariant = { IsPassAway S.allows S.mode };
}

impl<S: TableShape> Away<S> {
    /// Which of the forest's passes it is.
    pub fn number(&self) -> PassNo
        ensures is { result.0 ≡ self.now.number }
        ensures inside { result.0 < self.now.layout.passes }
    {
        self.number
    }
}

impl<S: TableShape> fmt::Debug for Away<S> {
    fn fmt<W: fmt::Write>(&self, f: &mut fmt::Formatter<W>) -> fmt::Result {
        f.debug_struct("Away")
            .field("number", &self.number.0)
            .finish_non_exhaustive()
    }
}

impl<K: WordKey, V: WordValue, B: FixedBalance> Forest<Dict<K, V, Lasts<B>>> {
    /// The pass goes away, between two calls, by one atomic step, so that nobody waits for it: a
    /// pass that is there and makes no calls has to rest now and then, or else nothing comes back
    /// to anyone. It keeps what it knows, its share and its lists.
    pub fn away(&self, pass: Pass<Dict<K, V, Lasts<B>>>) -> Away<Dict<K, V, Lasts<B>>>
        requires pass { IsOf self.now pass }
        ensures away { IsOf self.now result }
        ensures share { result.share ≡ pass.share }
        ensures steps { steps_of result ≡ steps_of pass }
        ensures rested { HasOnlyRested (TypedAllows (IsWordOf K.is_valid K.word_of) (IsWordOf V.is_valid V.word_of))
            pass result }
    {
        let Pass {
            number,
            first_scx,
            share,
            seat,
            blamed,
            birth,
            room,
            kept,
            shape,
        } = pass;
        let mut seat = seat;
        leave(&self.words, &self.plan.layout, &mut seat, number, &kept);
        Away {
            number,
            first_scx,
            share,
            seat,
            blamed,
            birth,
            room,
            kept,
            shape,
        }
    }

    /// The pass is back, by one atomic step, and may make calls: what it knew, its share and its
    /// lists are as they were. It has rested by that.
    pub fn back(&self, away: Away<Dict<K, V, Lasts<B>>>) -> Pass<Dict<K, V, Lasts<B>>>
        requires away { IsOf self.now away }
        ensures pass { IsOf self.now result }
        ensures share { result.share ≡ away.share }
        ensures steps { steps_of result ≡ steps_of away }
        ensures rested { HasOnlyRested (TypedAllows (IsWordOf K.is_valid K.word_of) (IsWordOf V.is_valid V.word_of))
            away result }
    {
        let Away {
            number,
            first_scx,
            share,
            seat,
            blamed,
            birth,
            room,
            kept,
            shape,
        } = away;
        let mut seat = seat;
        let kept = come_back(&self.words, &self.plan.layout, &mut seat, number, kept);
        Pass {
            number,
            first_scx,
            share,
            seat,
            blamed,
            birth,
            room,
            kept,
            shape,
        }
    }
}

/// A pass goes away, if it keeps what lets it come back.
fn leave<S: Shape>(
    words: &Words<S>,
    layout: &Layout,
    seat: &mut Seat<u8, SeatView>,
    number: PassNo,
    kept: &Option<PassKeeper>,
)
    requires { (p : SeatedPass) × IsAtLasting words.now layout.now seat.old p
        × (p.number ≡ number) × AreFinished p.layout p.number.0 0 (past_of p []) × KnowsRest p
        × ComesBack kept.now p × IsRun S.allows p.layout (past_of p [])
        × ((h : History) → IsRun S.allows p.layout h → IsMapRun p.layout h) }
    ensures table { IsSameSeat seat.old seat.new }
    ensures left { RestsOn S.allows (HasGoneAway kept.now) seat.old.me.0 seat.new.me.0 }
{
    unborn_stays_out();
    let Some(kept) = kept else {
        return;
    };
    kept.keeper.leave(words, layout, seat, number);
}

/// A pass that may be away is back, and keeps this.
fn come_back<S: Shape>(
    words: &Words<S>,
    layout: &Layout,
    seat: &mut Seat<u8, SeatView>,
    number: PassNo,
    kept: Option<PassKeeper>,
) -> Option<PassKeeper>
    requires { (p : SeatedPass) × IsAtLasting words.now layout.now seat.old p
        × (p.number ≡ number) × AreFinished p.layout p.number.0 0 (past_of p []) × KnowsRest p
        × ComesBack kept p × IsRun S.allows p.layout (past_of p [])
        × ((h : History) → IsRun S.allows p.layout h → IsMapRun p.layout h) }
    ensures table { IsSameSeat seat.old seat.new }
    ensures back { RestsOn S.allows (HasComeBack result) seat.old.me.0 seat.new.me.0 }
{
    unborn_stays_out();
    let mut kept = kept?;
    kept.keeper.come_back(words, layout, seat, number);
    Some(kept)
}
