//! What a pass keeps from one call to the next so that its records come back, and what it does as
//! it rests.
ghost use Rattle.std.specs.Prelude.{◌≡◌, ◌+◌, ◌<◌, ◌≤◌, ◌^◌, false, List, [], IfOk, MatchOption, length};
ghost use Rattle.arena.specs.declared.step.Row.{Row};
ghost use Rattle.ordered_map.specs.Runs.{IsMapRun};
ghost use Rattle.slots.specs.Lasting.{IsLasting, Lasting};
ghost use Rattle.arena.specs.History.{History};
ghost use Rattle.arena.specs.Machines.{IsRun};
ghost use Rattle.arena.specs.Share.{Remaining};
ghost use Rattle.prims.specs.Moments.{AreFinished};
ghost use Rattle.tables.specs.LastingOpening.{first_memory};
ghost use Rattle.tables.specs.Seats.{IsSameSeat};
ghost use Rattle.tables.specs.Slotted.{in_turns};
ghost use Rattle.tables.specs.TableRule.{past_of};
ghost use Rattle.tables.specs.declared.view.SeatedPass.{SeatedPass};
ghost use Rattle.upkeep.specs.UpkeepBook.{HasPeriodEnded, IsAtLasting, IsBook, slots_in};
ghost use Rattle.upkeep.specs.UpkeepDeals.{AreSlotsStill, DealsOn, HasDealt, HasShareLeft, next_of};
ghost use Rattle.upkeep.specs.UpkeepKeeper.{AwaitsNobody, HasLostBy, HasTakenByRest, HasTakenRest, HasTurnedSlots, IsAwaited, IsBack, IsBackDuring, IsBackWith, IsBetween, IsKeeper, IsSetNow, IsSetToCall, IsSetToDeal, IsStillSet, KeepsBooks, KeepsStill, LosesNone};
ghost use Rattle.upkeep.specs.UpkeepLost.{AreUnborn};
ghost use Rattle.upkeep.specs.UpkeepSteps.{RestsOn};

use crate::book::OwnSlots;
use crate::counter::{MOST_RESTS, leave, rest};
use crate::deal::deal;
use crate::kind::RecordKind;
use crate::open::open_slots;
use crate::period::Period;
use crate::turn::turn_all;
use arena::{Layout, NoMemory, NodeNo, PassNo, ScxNo, Shape, Share};
use atomic_table::Seat;
use resting::unborn_stays_out;
use std::alloc::Global;
use tables::rule::Turns;
use tables::view::SeatView;
use tables::words::Words;

/// What a pass keeps: how often it has rested, whom it waits for, and what it knows of its slots.
#[derive(Drop)]
pub struct Keeper {
    often: u64,
    pub(crate) period: Option<Period>,
    pub(crate) nodes: OwnSlots,
    scxs: OwnSlots,
    /// Once so many names of nodes are dealt, or so many of SCX-records, less than a quarter of its
    /// slots may be free.
    pub(crate) node_limit: u64,
    scx_limit: u64,
    /// While it rests, its names of nodes below this one were taken as it began to; else it is 0.
    pub(crate) taken: u64,
    /// Which of its slots of nodes it looks at next for a leaf that is out.
    pub(crate) next_look: usize,
}

impl Keeper {
    /// What a pass keeps before its first step: all of its slots are in use, by its names of the
    /// first lap.
    pub fn new(
        alloc: Global,
        layout: &Layout,
        turns: &Turns,
        number: PassNo,
    ) -> Result<Keeper, NoMemory>
        requires pass { number.0 < layout.now.passes }
        requires bits { (turns.now.node_bits ≤ 60) × (turns.now.scx_bits ≤ 60) }
        requires lasts { IsLasting (in_turns layout.now turns.now) }
        ensures { IfOk result (λ keeper. (p : SeatedPass) → p.number ≡ number
            → p.memory ≡ first_memory (in_turns layout.now turns.now) number.0
            → IsKeeper (in_turns layout.now turns.now) p keeper) }
    {
        Ok(Keeper {
            often: 0,
            period: None,
            nodes: open_slots(alloc, RecordKind::Node, layout, turns, number)?,
            scxs: open_slots(alloc, RecordKind::Scx, layout, turns, number)?,
            node_limit: 0,
            scx_limit: 0,
            taken: 0,
            next_look: 0,
        })
    }

    /// A pass begins to rest, between two calls. If by then all others have rested since its period
    /// began, what it knows of its slots goes on, and no period runs until it ends to rest.
    ///
    /// It makes up to 1 + (passes - 1) steps, and where a period ends up to 20 more for each of its
    /// slots.
    pub fn rest<S: Shape>(
        &mut self,
        words: &Words<S>,
        layout: &Layout,
        seat: &mut Seat<u8, SeatView>,
        number: PassNo,
        left: &Share,
    )
        requires { (p : SeatedPass) × IsAtLasting words.now layout.now seat.old p
            × (p.number ≡ number) × IsSetToCall S.allows (slots_in words.now) p left.now self.old
            × ((h : History) → IsRun S.allows p.layout h → IsMapRun p.layout h) }
        ensures table { IsSameSeat seat.old seat.new }
        ensures rests { DealsOn (IsSetNow S.allows (slots_in words.now) left.now self.new)
            seat.old.me.0 seat.new.me.0 }
    {
        unborn_stays_out();
        self.take_rest(words, layout, seat, number, left);
    }

    /// A pass ends to rest: if no period runs, and it is short of free slots, the next one begins. If
    /// few names are left of its share, free slots get the next ones, so many in a row, and the
    /// share has those.
    ///
    /// It makes up to passes - 1 steps, and where names are dealt up to 60 of each kind, and one
    /// for each name.
    pub fn end_rest<S: Shape>(
        &mut self,
        words: &Words<S>,
        layout: &Layout,
        seat: &mut Seat<u8, SeatView>,
        number: PassNo,
        left: &mut Share,
    )
        requires { (p : SeatedPass) × IsAtLasting words.now layout.now seat.old p
            × (p.number ≡ number) × IsSetToCall S.allows (slots_in words.now) p left.old self.old
            × ((h : History) → IsRun S.allows p.layout h → IsMapRun p.layout h) }
        ensures table { IsSameSeat seat.old seat.new }
        ensures rests { DealsOn (IsSetNow S.allows (slots_in words.now) left.new self.new)
            seat.old.me.0 seat.new.me.0 }
    {
        unborn_stays_out();
        self.begin(words, layout, seat, number, left);
        self.deal(words, layout, seat, left);
        self.taken = 0;
    }

    /// A pass goes away, between two calls, by one step: until it is back others do not wait for it.
    /// If it has rested as often as a word can tell it stays, since it could not come back.
    pub fn leave<S: Shape>(
        &self,
        words: &Words<S>,
        layout: &Layout,
        seat: &mut Seat<u8, SeatView>,
        number: PassNo,
    )
        requires { (p : SeatedPass) × (t : Lasting) × IsAtLasting words.now layout.now seat.old p
            × (p.number ≡ number) × AreFinished p.layout p.number.0 0 (past_of p [])
            × IsKeeper t p self.now }
        ensures table { IsSameSeat seat.old seat.new }
        ensures left { RestsOn S.allows (KeepsStill self.now self.now)
            seat.old.me.0 seat.new.me.0 }
    {
        if self.often >= MOST_RESTS {
            return;
        }
        leave(words, layout, seat, number, self.often);
    }

    /// A pass that was away is back, by one step: by that it has rested.
    pub fn come_back<S: Shape>(
        &mut self,
        words: &Words<S>,
        layout: &Layout,
        seat: &mut Seat<u8, SeatView>,
        number: PassNo,
    )
        requires { (p : SeatedPass) × (t : Lasting) × IsAtLasting words.now layout.now seat.old p
            × (p.number ≡ number) × AreFinished p.layout p.number.0 0 (past_of p [])
            × IsKeeper t p self.old }
        ensures table { IsSameSeat seat.old seat.new }
        ensures back { RestsOn S.allows (IsBackWith self.old self.new)
            seat.old.me.0 seat.new.me.0 }
    {
        if self.often >= MOST_RESTS {
            return;
        }
        self.often = rest::<S>(words, layout, seat, number, self.often);
    }

    /// A pass rests. Once it has rested as often as a word can tell it does nothing more: nothing
    /// comes back then any more.
    fn take_rest<S: Shape>(
        &mut self,
        words: &Words<S>,
        layout: &Layout,
        seat: &mut Seat<u8, SeatView>,
        number: PassNo,
        left: &Share,
    )
        requires { (p : SeatedPass) × IsAtLasting words.now layout.now seat.old p
            × (p.number ≡ number) × IsRun S.allows p.layout (past_of p [])
            × IsBetween p left.now × IsKeeper (slots_in words.now) p self.old
            × ((h : History) → IsRun S.allows p.layout h → IsMapRun p.layout h) }
        ensures table { IsSameSeat seat.old seat.new }
        ensures lost { LosesNone self.old self.new }
        ensures rests { RestsOn S.allows (HasTakenRest (slots_in words.now) self.new)
            seat.old.me.0 seat.new.me.0 }
    {
        unborn_stays_out();
        if self.often >= MOST_RESTS {
            return;
        }
        self.often = rest(words, layout, seat, number, self.often);
        let (next, _) = left.next();
        self.taken = next.0;
        if let Some(period) = self.period {
            self.go_on(words, layout, seat, left, period);
        }
    }

    /// Goes on with a period since which the pass has rested: once it is over, so does what is
    /// known of the slots.
    fn go_on<S: Shape>(
        &mut self,
        words: &Words<S>,
        layout: &Layout,
        seat: &mut Seat<u8, SeatView>,
        left: &Share,
        mut period: Period,
    )
        requires { (p : SeatedPass) × (since : List Row)
            × IsAtLasting words.now layout.now seat.old p
            × IsBackDuring (slots_in words.now) p since period self.old × HasShareLeft S.allows p left.now
            × HasLostBy p p.memory.rested self.old × HasTakenByRest p self.old.taken }
        ensures table { IsSameSeat seat.old seat.new }
        ensures lost { LosesNone self.old self.new }
        ensures rests { RestsOn S.allows (HasTakenRest (slots_in words.now) self.new)
            seat.old.me.0 seat.new.me.0 }
    {
        if period.poll(words, layout, seat) {
            self.turn(words, layout, seat, left);
            self.period = None;
        } else {
            self.period = Some(period);
        }
    }

    /// What is known of all slots goes on, as a period is over.
    fn turn<S: Shape>(
        &mut self,
        words: &Words<S>,
        layout: &Layout,
        seat: &mut Seat<u8, SeatView>,
        left: &Share,
    )
        requires { (p : SeatedPass) × (since : List Row)
            × IsAtLasting words.now layout.now seat.old p
            × IsBack (slots_in words.now) p since self.old
            × HasPeriodEnded (slots_in words.now) p since × HasShareLeft S.allows p left.now
            × HasLostBy p p.memory.rested self.old }
        ensures table { IsSameSeat seat.old seat.new }
        ensures lost { LosesNone self.old self.new }
        ensures taken { self.new.taken ≡ self.old.taken }
        ensures turned { RestsOn S.allows (HasTurnedSlots (slots_in words.now) self.new)
            seat.old.me.0 seat.new.me.0 }
    {
        let (node, scx) = left.next();
        let node_turn = self.nodes.turn;
        turn_all(words, layout, seat, &mut self.nodes, node.0, node_turn);
        turn_all(words, layout, seat, &mut self.scxs, scx.0, node_turn);
        self.node_limit = self.nodes.limit();
        self.scx_limit = self.scxs.limit();
    }

    /// Whether less than a quarter of its slots may be free, and no more are left of its share.
    fn is_short(&self, left: &Share) -> bool {
        let (nodes, scxs) = left.left();
        self.nodes.is_short(self.node_limit, nodes) || self.scxs.is_short(self.scx_limit, scxs)
    }

    /// Begins a period, if none runs and it is short of free slots: each period looks at all slots
    /// as it ends.
    fn begin<S: Shape>(
        &mut self,
        words: &Words<S>,
        layout: &Layout,
        seat: &mut Seat<u8, SeatView>,
        number: PassNo,
        left: &Share,
    )
        requires { (p : SeatedPass) × IsAtLasting words.now layout.now seat.old p
            × (p.number ≡ number) × KeepsBooks (slots_in words.now) p self.old
            × (p.memory.away ≡ false) × HasTakenByRest p self.old.taken }
        ensures table { IsSameSeat seat.old seat.new }
        ensures lost { LosesNone self.old self.new }
        ensures rests { RestsOn S.allows (HasTakenRest (slots_in words.now) self.new)
            seat.old.me.0 seat.new.me.0 }
    {
        if self.period.is_none() && self.is_short(left) {
            self.period = Some(Period::begin(words, layout, seat, number));
        }
    }

    /// If few names are left of the pass's share, it has the next ones then.
    fn deal<S: Shape>(
        &mut self,
        words: &Words<S>,
        layout: &Layout,
        seat: &mut Seat<u8, SeatView>,
        left: &mut Share,
    )
        requires { (p : SeatedPass) × IsAtLasting words.now layout.now seat.old p
            × IsSetToDeal S.allows (slots_in words.now) p left.old self.old }
        ensures table { IsSameSeat seat.old seat.new }
        ensures lost { LosesNone self.old self.new }
        ensures set { DealsOn (IsStillSet S.allows (slots_in words.now) left.new self.new)
            seat.old.me.0 seat.new.me.0 }
    {
        let (node, scx) = left.next();
        let (nodes, scxs) = left.left();
        let (few, one) = (layout.nodes.min(3), layout.scx.min(1));
        let node = next_name(words, layout, seat, &mut self.nodes, node.0, nodes, few);
        let scx = next_name(words, layout, seat, &mut self.scxs, scx.0, scxs, one);
        *left = Share::of_run(
            NodeNo(node),
            (self.nodes.dealt - node) as u32,
            ScxNo(scx),
            (self.scxs.dealt - scx) as u32,
        );
    }

    /// A call was lost: its nodes from this one on, up to that one, were never in the tree. Out of
    /// line, since few calls are.
    #[cold]
    #[inline(never)]
    pub fn lose(&mut self, from: NodeNo, to: NodeNo)
        ensures { (t : Lasting) (p : SeatedPass) → AreUnborn p from.0 to.0
            → IsKeeper t p self.old → IsKeeper t p self.new }
    {
        self.nodes.lose(from.0, to.0);
    }

    /// The first pass that is waited for: until it rests or goes away, nothing comes back that was
    /// found before the period began.
    pub fn waits_for(&self) -> Option<PassNo>
        ensures { MatchOption result (AwaitsNobody self.now.period)
            (λ other. IsAwaited self.now.period other.0) }
    {
        match self.period {
            Some(period) => period.waits_for(),
            None => None,
        }
    }
}

/// The next name of a share with so many left: of a new run, if those are fewer than that.
fn next_name<S: Shape>(
    words: &Words<S>,
    layout: &Layout,
    seat: &mut Seat<u8, SeatView>,
    own: &mut OwnSlots,
    next: u64,
    left: u32,
    least: u32,
) -> u64
    requires left { own.old.dealt ≡ next + left }
    requires slots { least ≤ length own.old.slots.items }
    requires pass { (p : SeatedPass) × (left : Remaining) × (since : List Row)
        × IsAtLasting words.now layout.now seat.old p × HasShareLeft S.allows p left
        × (next_of own.old.kind left ≡ next) × IsBook (slots_in words.now) p since own.old }
    ensures table { IsSameSeat seat.old seat.new }
    ensures still { AreSlotsStill own.old own.new }
    ensures few { (result ≤ own.new.dealt) × (own.new.dealt < result + 2 ^ 32) }
    ensures given { DealsOn (HasDealt S.allows (slots_in words.now) own.old own.new next result)
        seat.old.me.0 seat.new.me.0 }
{
    if left < least {
        deal(words, layout, seat, own, next)
    } else {
        next
    }
}
