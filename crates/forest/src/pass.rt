//! What a thread needs to make calls.
ghost use Rattle.std.specs.Prelude.{◌≡◌, ◌<◌, [], ◌∷◌, IfOk};
ghost use Rattle.arena.specs.Layout.{IsMap};
ghost use Rattle.arena.specs.Share.{whole_share};
ghost use Rattle.arena.specs.History.{Opened};
ghost use Rattle.arena.specs.Machines.{IsRun};
ghost use Rattle.planting.specs.Plantings.{opening_for};
ghost use Rattle.tables.specs.LastingOpening.{first_memory};
ghost use Rattle.tables.specs.LastingTables.{MayTakeTurns, first_share};
ghost use Rattle.tables.specs.Slotted.{in_turns};
ghost use Rattle.tables.specs.TableRule.{all_dealt, seated_pass};
ghost use Rattle.tables.specs.Traces.{planting_of};
ghost use Rattle.tables.specs.Passes.{PassView, taken_of};
ghost use Rattle.tables.specs.Shares.{HasFewNames};

use crate::blamed::Blamed;
use crate::filled_once::TableOnce;
use crate::kept::PassKeeper;
use arena::{Layout, NoMemory, PassNo, ScxNo, Share};
use atomic_table::Seat;
use std::alloc::Global;
use std::fmt;
use std::marker::{Model, PhantomData};
use std::snapshot::Snapshot;
use straight::room::Room;
use tables::rule::Turns;
use tables::table_shape::TableShape;
use tables::view::SeatView;
use upkeep::keeper::Keeper;

/// A part in a forest: a number, a share of the nodes and SCX-records, the run that it knows, whom
/// its calls have blamed, and lists that its ordered reads fill. A thread has one, and gives it to
/// each call.
#[derive(Drop)]
pub struct Pass<S: TableShape> {
    pub(crate) number: PassNo,
    pub(crate) first_scx: ScxNo,
    pub(crate) share: Share,
    pub(crate) seat: Seat<u8, SeatView>,
    pub(crate) blamed: Blamed,
    /// The seat as it was made. Only proofs read it, for the layout of its names: no bytes are
    /// kept.
    pub(crate) birth: Snapshot<Seat<u8, SeatView>>,
    pub(crate) room: Room,
    /// Where records come back: what it keeps of its own.
    pub(crate) kept: Option<PassKeeper>,
    pub(crate) shape: PhantomData<S>,
}

impl<S: TableShape> Model for Pass<S> {
    ghost use Rattle.tables.specs.Passes.{PassView, taken_of};

    ghost Value = { PassView };

    ghost use Rattle.forest.specs.PassInvariant.{pass_view, IsPass, KeepsItsOwn};

    ghost view = { pass_view };

    ghost invariant = { λ p. IsPass S.allows S.mode p × KeepsItsOwn S.lasts p };
}

impl<S: TableOnce> Pass<S> {
    /// A pass that has made no step, at a seat of its own. Its lists are empty, and grow with this
    /// allocator.
    pub(crate) fn new(
        alloc: Global,
        layout: &Layout,
        number: PassNo,
        seat: Seat<u8, SeatView>,
    ) -> Pass<S>
        requires seat { (seat.me.0.passes
            ≡ seated_pass number.0 layout.now (planting_of seat.me.0.passes)
            (all_dealt layout.now number.0) [] ∷ [])
            × (seat.me.1 ≡ []) }
        requires run { IsRun S.allows layout.now (Opened (opening_for (planting_of seat.me.0.passes))) }
        requires pass { number.0 < layout.now.passes }
        requires mode { layout.now.mode ≡ S.mode }
        requires few { HasFewNames layout.now }
        ensures { result
            ≡ record {
              table = seat.table_id;
              layout = layout.now;
              planting = planting_of seat.me.0.passes;
              number = number.0;
              share = whole_share layout.now number.0;
              known = [];
              blamed = [];
            } }
    {
        let birth = Snapshot::of(&seat);
        Pass {
            number,
            first_scx: ScxNo(u64::from(layout.first_scx(number))),
            share: Share::of(layout, number),
            seat,
            blamed: Blamed::new(),
            birth,
            room: Room::new(alloc),
            kept: None,
            shape: PhantomData,
        }
    }
}

impl<S: TableShape> Pass<S> {
    /// A pass that has made no step, at a seat of its own, in a map's table whose records come
    /// back: it has its names of the first lap.
    pub(crate) fn in_turns(
        alloc: Global,
        layout: &Layout,
        turns: Turns,
        number: PassNo,
        seat: Seat<u8, SeatView>,
    ) -> Result<Pass<S>, NoMemory>
        requires seat { (seat.me.0.passes
            ≡ seated_pass number.0 (in_turns layout.now turns).lay (planting_of seat.me.0.passes)
            (first_memory (in_turns layout.now turns) number.0) [] ∷ [])
            × (seat.me.1 ≡ []) }
        requires run { IsRun S.allows (in_turns layout.now turns).lay
            (Opened (opening_for (planting_of seat.me.0.passes))) }
        requires pass { number.0 < layout.now.passes }
        requires mode { layout.now.mode ≡ S.mode }
        requires map { IsMap S.mode }
        requires few { HasFewNames layout.now }
        requires may { MayTakeTurns layout.now turns }
        ensures { IfOk result (λ pass. pass
            ≡ record {
              table = seat.table_id;
              layout = (in_turns layout.now turns).lay;
              planting = planting_of seat.me.0.passes;
              number = number.0;
              share = first_share (in_turns layout.now turns) number.0;
              known = [];
              blamed = [];
            }) }
    {
        let birth = Snapshot::of(&seat);
        let node = turns.first_node(layout, number);
        let scx = turns.first_scx(layout, number);
        let keeper = Keeper::new(alloc, layout, &turns, number)?;
        Ok(Pass {
            number,
            first_scx: scx,
            share: Share::of_run(node, layout.nodes, scx, layout.scx),
            seat,
            blamed: Blamed::new(),
            birth,
            room: Room::new(alloc),
            kept: Some(PassKeeper {
                layout: *layout,
                turns,
                keeper,
            }),
            shape: PhantomData,
        })
    }

    /// Which of the forest's passes it is.
    pub fn number(&self) -> PassNo
        ensures is { result.0 ≡ self.now.number }
        ensures inside { result.0 < self.now.layout.passes }
    {
        self.number
    }

    /// How many SCX-records it has taken: the number of its next call.
    pub(crate) fn taken(&self) -> u64
        ensures { result ≡ taken_of self.now }
    {
        let (_, next) = self.share.next();
        next.0 - self.first_scx.0
    }

    /// How many nodes and SCX-records are left of its share. Only rests make them more.
    pub fn left(&self) -> (u32, u32)
        ensures { result ≡ (self.now.share.nodes, self.now.share.scx) }
    {
        self.share.left()
    }
}

impl<S: TableShape> fmt::Debug for Pass<S> {
    fn fmt<W: fmt::Write>(&self, f: &mut fmt::Formatter<W>) -> fmt::Result {
        let (nodes, scx) = self.left();
        f.debug_struct("Pass")
            .field("number", &self.number.0)
            .field("nodes", &nodes)
            .field("scx", &scx)
            .finish_non_exhaustive()
    }
}
