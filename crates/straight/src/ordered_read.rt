//! Ordered reads, of whatever machine makes one: the first try inline, as long as nothing is in its
//! way. If something is, or has happened between, the machine of the read continues from there;
//! until then its place is left as it was.
ghost use Rattle.std.specs.Prelude.{◌≡◌, ◌+◌, ◌≤◌, suc, Ok, Err, IfSome, IsNone};
ghost use Rattle.template.specs.Balance.{nodes_by};
ghost use Rattle.order.specs.LastTurns.{first_children, turn_to};
ghost use Rattle.order.specs.Near.{near_left, near_most};
ghost use Rattle.order.specs.Steps.{read_left};
ghost use Rattle.order.specs.declared.load.ReadLoad.{ReadLoad};
ghost use Rattle.order.specs.declared.read.ReadNext.{ReadNext};
ghost use Rattle.prims.specs.Llx.Known.{load};
ghost use Rattle.tables.specs.Seats.{StaysAtTable};
ghost use Rattle.tables.specs.Traces.{shared_nodes};
ghost use Rattle.straight.specs.StraightReads.{ReadEnds, ReadEndsFrom, ReadGoesOn, Reader, ReaderBegins, ReaderEnds, ReaderGoesOn, ReaderHasWalked, ReaderLooksAgain, ReaderRoots, ReaderSearches, ReaderWaits, StandsToRead, again_left, root_left, walked_left};
ghost use Rattle.straight.specs.Hands.{IsAt, hand_calls, names};
ghost use Rattle.straight.specs.Hosts.{Host, HostedEnds, HostedIsTold, HostedWaits, inner_machine};
ghost use Rattle.straight.specs.Leads.{Leads, steps_made};

use crate::balance::in_trie;
use crate::call_machine::CallMachine;
use crate::hand::Hand;
use crate::llx::{load, look};
use crate::step::step;
use crate::steps::complete;
use crate::vlx::validate;
use crate::walk;
use arena::{
    Access, Head, Kind, Machine, NodeNo, NodeWord, ScxNo, ScxWord, SettledPart, Shape, Side, Slot,
    Step, Turn, Word,
};
use atomic_table::Seat;
use order::{
    Children, HeadLoad, HighLoad, KeyLoad, KnownLoad, LastTurns, LeafPlace, MoreLoad, NearNext,
    NearRun, PairLoad, Read, ReadAt, ReadBegin, ReadLoad, ReadNext, ReadRun, Refused, ValueLoad,
    leaf_way,
};
use prims::{LlxAt, LlxRun};
use tables::table_shape::{Keeping, TableShape};
use tables::view::SeatView;
use template::{Found, Goal, Tree};

/// Loads a settled word.
#[inline(always)]
pub fn read<S: TableShape, M: CallMachine<S>, T: Shape, N: Machine<T>>(
    hand: Hand<S>,
    seat: &mut Seat<u8, SeatView>,
    word: Word,
) -> u64
    requires table { IsAt S.mode S.lasts hand seat.old }
    requires waits { (r : Host (hand_calls S.Shape M.Machine M.left_dealt hand)
        (inner_machine T.Shape N.Machine)) × (m : N)
        × HostedWaits r seat.old.me.0.passes m (load Kind.LoadSettled word) }
    ensures table { StaysAtTable seat.old seat.new }
    ensures one { steps_made seat.new ≡ suc (steps_made seat.old) }
    ensures told { (r : Host (hand_calls S.Shape M.Machine M.left_dealt hand.entry)
        (inner_machine T.Shape N.Machine)) (m : N)
        → HostedWaits r seat.old.me.0.passes m (load Kind.LoadSettled word)
        → HostedIsTold r seat.new.me.0.passes m result }
{
    let (kind, access) = (Kind::LoadSettled, Access::Load);
    step::<S, M>(hand, seat, Step { kind, word, access })
}

/// Completes a read by its machine, which gets this.
#[inline(never)]
pub fn tell<S: TableShape, M: CallMachine<S>, T: Shape, N: Machine<T>>(
    hand: Hand<S>,
    seat: &mut Seat<u8, SeatView>,
    run: &mut N,
    told: u64,
) -> N::Answer
    requires table { IsAt S.mode S.lasts hand seat.old }
    requires told { (r : Host (hand_calls S.Shape M.Machine M.left_dealt hand)
        (inner_machine T.Shape N.Machine))
        × HostedIsTold r seat.old.me.0.passes run.old told }
    ensures { Leads seat.old seat.new (N.left run.old (shared_nodes (names hand.entry)))
        (λ (r : Host (hand_calls S.Shape M.Machine M.left_dealt hand.entry)
        (inner_machine T.Shape N.Machine)) ps. HostedIsTold r ps run.old told)
        (λ r ps. HostedEnds r ps run.new result) }
{
    let turn = run.next(Some(told));
    complete::<S, M, T, N>(hand.words, hand.plan, seat, hand.number, run, turn)
}

/// Why a read does not go on here: small, so that the turns of a read keep it in registers.
#[derive(Clone, Copy)]
pub enum ReadStop {
    /// In its look at this fork it has to ask again for the state of this SCX-record.
    Again {
        children: Children,
        level: u64,
        node: NodeNo,
        marked: bool,
        scx: ScxNo,
    },
    /// It ends so.
    Refused(Refused),
}

/// Looks at a fork, and returns what is done next.
#[inline(always)]
fn look_on<S: TableShape, M: CallMachine<S>, R: Read + Drop>(
    hand: Hand<S>,
    seat: &mut Seat<u8, SeatView>,
    run: &mut ReadRun<R>,
    children: Children,
    level: u64,
    node: NodeNo,
) -> Result<ReadNext, ReadStop>
    requires table { IsAt S.mode S.lasts hand seat.old }
    requires waits { StandsToRead S.Shape M.Machine M.left_dealt R.means hand
        seat.old run.old (ReadNext.Look children level node) }
    ensures { ReadGoesOn S.Shape M.Machine M.left_dealt R.means hand.entry 1
        seat.old run.old (Ok (ReadNext.Look children level node)) seat.new run.new result }
{
    match look::<S, M, Tree>(hand, seat, node) {
        Ok(snap) => match run.looked(children, level, snap) {
            Ok(next) => Ok(next),
            Err(refused) => Err(ReadStop::Refused(refused)),
        },
        Err((marked, scx)) => Err(ReadStop::Again {
            children,
            level,
            node,
            marked,
            scx,
        }),
    }
}

/// Continues with the machine, if something is in the way of a look.
fn look_again<S: TableShape, M: CallMachine<S>, R: Read + Drop>(
    hand: Hand<S>,
    seat: &mut Seat<u8, SeatView>,
    run: &mut ReadRun<R>,
    children: Children,
    level: u64,
    node: NodeNo,
    marked: bool,
    scx: ScxNo,
) -> Result<R::Answer, Refused>
    requires table { IsAt S.mode S.lasts hand seat.old }
    requires waits { (r : Reader (hand_calls S.Shape M.Machine M.left_dealt hand) R.means)
        × ReaderLooksAgain r seat.old.me.0.passes run.old children level node marked scx }
    ensures { Leads seat.old seat.new (suc (again_left R.means run.old children level node marked
        scx (shared_nodes (names hand.entry))))
        (λ (r : Reader (hand_calls S.Shape M.Machine M.left_dealt hand.entry) R.means) ps.
        ReaderLooksAgain r ps run.old children level node marked scx)
        (λ r ps. ReaderEnds r ps run.new result) }
{
    let at = LlxAt::StateAgain { marked, scx };
    let llx = LlxRun { node, at };
    run.at = ReadAt::Look {
        children,
        level,
        llx,
    };
    let turn = Turn::Ask(load(Kind::LoadState, Word::Scx(scx, ScxWord::State)));
    complete::<S, M, Tree, ReadRun<R>>(hand.words, hand.plan, seat, hand.number, run, turn)
}

/// Ends a read that stops so: by its machine, if something is in the way. Out of line, so that no
/// turn pays for its locals.
#[cold]
#[inline(never)]
fn leave<S: TableShape, M: CallMachine<S>, R: Read + Drop>(
    hand: Hand<S>,
    seat: &mut Seat<u8, SeatView>,
    run: &mut ReadRun<R>,
    stop: ReadStop,
) -> Result<R::Answer, Refused>
    requires table { IsAt S.mode S.lasts hand seat.old }
    requires stops { (r : Reader (hand_calls S.Shape M.Machine M.left_dealt hand) R.means)
        × ReaderGoesOn r seat.old.me.0.passes run.old (Err stop) }
    ensures { ReadEndsFrom S.Shape M.Machine M.left_dealt R.means hand.entry
        seat.old run.old (Err stop) seat.new run.new result }
{
    match stop {
        ReadStop::Again {
            children,
            level,
            node,
            marked,
            scx,
        } => look_again::<S, M, R>(hand, seat, run, children, level, node, marked, scx),
        ReadStop::Refused(refused) => Err(refused),
    }
}

/// Validates what it has looked at, and returns what the read has answered. If the last load has
/// not found what was found before, its machine gets that, and continues to the end.
#[inline(always)]
fn validate_on<S: TableShape, M: CallMachine<S>, R: Read + Drop>(
    hand: Hand<S>,
    seat: &mut Seat<u8, SeatView>,
    run: &mut ReadRun<R>,
) -> Result<R::Answer, Refused>
    requires table { IsAt S.mode S.lasts hand seat.old }
    requires waits { StandsToRead S.Shape M.Machine M.left_dealt R.means hand seat.old run.old
        ReadNext.Validate }
    ensures { ReadEnds S.Shape M.Machine M.left_dealt R.means hand.entry
        seat.old run.old ReadNext.Validate seat.new run.new result }
{
    let snaps = run.snaps.as_slice();
    match validate::<S, M>(hand, seat, snaps) {
        None => Ok(run.read.answer()),
        Some((asked, told)) => {
            run.at = ReadAt::Validate { asked };
            tell::<S, M, Tree, ReadRun<R>>(hand, seat, run, told)
        }
    }
}

/// Loads a word of a node, and returns what is done next.
#[inline(always)]
fn load_on<S: TableShape, M: CallMachine<S>, R: Read + Drop, L: KnownLoad<R>>(
    hand: Hand<S>,
    seat: &mut Seat<u8, SeatView>,
    run: &mut ReadRun<R>,
    load: &L,
) -> Result<ReadNext, ReadStop>
    requires table { IsAt S.mode S.lasts hand seat.old }
    requires waits { StandsToRead S.Shape M.Machine M.left_dealt R.means hand
        seat.old run.old (ReadNext.Load (L.load load.now)) }
    ensures { ReadGoesOn S.Shape M.Machine M.left_dealt R.means hand.entry 1
        seat.old run.old (Ok (ReadNext.Load (L.load load.now))) seat.new run.new result }
{
    let value = read::<S, M, Tree, ReadRun<R>>(hand, seat, load.word());
    match load.found(run, value) {
        Ok(next) => Ok(next),
        Err(refused) => Err(ReadStop::Refused(refused)),
    }
}

/// Loads the two words of a value that is taken.
#[inline(always)]
fn read_value<S: TableShape, M: CallMachine<S>, R: Read + Drop>(
    hand: Hand<S>,
    seat: &mut Seat<u8, SeatView>,
    run: &mut ReadRun<R>,
    place: LeafPlace,
    key: u64,
) -> Result<ReadNext, ReadStop>
    requires table { IsAt S.mode S.lasts hand seat.old }
    requires waits { StandsToRead S.Shape M.Machine M.left_dealt R.means hand
        seat.old run.old (ReadNext.Load (ReadLoad.Value place key)) }
    ensures { ReadGoesOn S.Shape M.Machine M.left_dealt R.means hand.entry 1
        seat.old run.old (Ok (ReadNext.Load (ReadLoad.Value place key))) seat.new run.new result }
{
    let next = match load_on::<S, M, R, _>(hand, seat, run, &ValueLoad { place, key }) {
        Ok(next) => next,
        Err(told) => return Err(told),
    };
    match next {
        ReadNext::Load(ReadLoad::High { place, key, low }) => {
            let load = HighLoad { place, key, low };
            load_on::<S, M, R, _>(hand, seat, run, &load)
        }
        _ => Ok(next),
    }
}

/// Loads the key at this place of a leaf, and the value of the pair that is taken.
#[inline(always)]
fn read_pair<S: TableShape, M: CallMachine<S>, R: Read + Drop>(
    hand: Hand<S>,
    seat: &mut Seat<u8, SeatView>,
    run: &mut ReadRun<R>,
    place: LeafPlace,
) -> Result<ReadNext, ReadStop>
    requires table { IsAt S.mode S.lasts hand seat.old }
    requires waits { StandsToRead S.Shape M.Machine M.left_dealt R.means hand
        seat.old run.old (ReadNext.Load (ReadLoad.Pair place)) }
    ensures { ReadGoesOn S.Shape M.Machine M.left_dealt R.means hand.entry 1
        seat.old run.old (Ok (ReadNext.Load (ReadLoad.Pair place))) seat.new run.new result }
{
    let next = match load_on::<S, M, R, _>(hand, seat, run, &PairLoad { place }) {
        Ok(next) => next,
        Err(told) => return Err(told),
    };
    match next {
        ReadNext::Load(ReadLoad::Value { place, key }) => {
            read_value::<S, M, R>(hand, seat, run, place, key)
        }
        _ => Ok(next),
    }
}

/// Loads the pair in this slot, if it is the one that comes next. Where its caller knows the slot,
/// so does the compiler.
#[inline(always)]
fn read_next_pair<S: TableShape, M: CallMachine<S>, R: Read + Drop>(
    hand: Hand<S>,
    seat: &mut Seat<u8, SeatView>,
    run: &mut ReadRun<R>,
    next: ReadNext,
    slot: Slot,
) -> Result<ReadNext, ReadStop>
    requires table { IsAt S.mode S.lasts hand seat.old }
    requires waits { StandsToRead S.Shape M.Machine M.left_dealt R.means hand seat.old run.old
        next }
    ensures { ReadGoesOn S.Shape M.Machine M.left_dealt R.means hand.entry 0
        seat.old run.old (Ok next) seat.new run.new result }
{
    match next {
        ReadNext::Load(ReadLoad::Pair { place }) if place.slot == slot => {
            read_pair::<S, M, R>(hand, seat, run, LeafPlace { slot, ..place })
        }
        _ => Ok(next),
    }
}

/// Goes through the pairs of a leaf from this place on: slot by slot, so that the compiler knows
/// where in the leaf each word is.
#[inline(always)]
fn read_pairs<S: TableShape, M: CallMachine<S>, R: Read + Drop>(
    hand: Hand<S>,
    seat: &mut Seat<u8, SeatView>,
    run: &mut ReadRun<R>,
    first: ReadNext,
) -> Result<ReadNext, ReadStop>
    requires table { IsAt S.mode S.lasts hand seat.old }
    requires waits { StandsToRead S.Shape M.Machine M.left_dealt R.means hand seat.old run.old
        first }
    ensures { ReadGoesOn S.Shape M.Machine M.left_dealt R.means hand.entry 0
        seat.old run.old (Ok first) seat.new run.new result }
{
    let second = match read_next_pair::<S, M, R>(hand, seat, run, first, Slot::First) {
        Ok(next) => next,
        Err(stop) => return Err(stop),
    };
    let third = match read_next_pair::<S, M, R>(hand, seat, run, second, Slot::Second) {
        Ok(next) => next,
        Err(stop) => return Err(stop),
    };
    let fourth = match read_next_pair::<S, M, R>(hand, seat, run, third, Slot::Third) {
        Ok(next) => next,
        Err(stop) => return Err(stop),
    };
    read_next_pair::<S, M, R>(hand, seat, run, fourth, Slot::Fourth)
}

/// Loads the head of a node, and the key of a fork or how many pairs a leaf has.
#[inline(always)]
fn read_node<S: TableShape, M: CallMachine<S>, R: Read + Drop>(
    hand: Hand<S>,
    seat: &mut Seat<u8, SeatView>,
    run: &mut ReadRun<R>,
    above: u64,
    node: NodeNo,
) -> Result<ReadNext, ReadStop>
    requires table { IsAt S.mode S.lasts hand seat.old }
    requires waits { StandsToRead S.Shape M.Machine M.left_dealt R.means hand
        seat.old run.old (ReadNext.Load (ReadLoad.Head above node)) }
    ensures { ReadGoesOn S.Shape M.Machine M.left_dealt R.means hand.entry 1
        seat.old run.old (Ok (ReadNext.Load (ReadLoad.Head above node))) seat.new run.new result }
{
    let next = match load_on::<S, M, R, _>(hand, seat, run, &HeadLoad { above, node }) {
        Ok(next) => next,
        Err(told) => return Err(told),
    };
    match next {
        ReadNext::Load(ReadLoad::Key { level, node }) => {
            load_on::<S, M, R, _>(hand, seat, run, &KeyLoad { level, node })
        }
        ReadNext::Load(ReadLoad::More { node }) => {
            load_on::<S, M, R, _>(hand, seat, run, &MoreLoad { node })
        }
        _ => Ok(next),
    }
}

/// Looks at a fork, if that comes next.
#[inline(always)]
fn look_next<S: TableShape, M: CallMachine<S>, R: Read + Drop>(
    hand: Hand<S>,
    seat: &mut Seat<u8, SeatView>,
    run: &mut ReadRun<R>,
    next: ReadNext,
) -> Result<ReadNext, ReadStop>
    requires table { IsAt S.mode S.lasts hand seat.old }
    requires waits { StandsToRead S.Shape M.Machine M.left_dealt R.means hand seat.old run.old
        next }
    ensures { ReadGoesOn S.Shape M.Machine M.left_dealt R.means hand.entry 0
        seat.old run.old (Ok next) seat.new run.new result }
{
    match next {
        ReadNext::Look {
            children,
            level,
            node,
        } => look_on::<S, M, R>(hand, seat, run, children, level, node),
        _ => Ok(next),
    }
}

/// Makes what is left of a try turn by turn. Out of line, so that what is left after the turns put
/// together is as small as the VLX.
#[inline(never)]
fn rest_by_turns<S: TableShape, M: CallMachine<S>, R: Read + Drop>(
    hand: Hand<S>,
    seat: &mut Seat<u8, SeatView>,
    run: &mut ReadRun<R>,
    mut next: ReadNext,
) -> Result<R::Answer, Refused>
    requires table { IsAt S.mode S.lasts hand seat.old }
    requires waits { StandsToRead S.Shape M.Machine M.left_dealt R.means hand seat.old run.old
        next }
    ensures { ReadEnds S.Shape M.Machine M.left_dealt R.means hand.entry
        seat.old run.old next seat.new run.new result }
{
    loop {
        match next {
            ReadNext::Load(load) => match load_on::<S, M, R, ReadLoad>(hand, seat, run, &load) {
                Ok(after) => next = after,
                Err(stop) => return leave::<S, M, R>(hand, seat, run, stop),
            },
            ReadNext::Look {
                children,
                level,
                node,
            } => match look_on::<S, M, R>(hand, seat, run, children, level, node) {
                Ok(after) => next = after,
                Err(stop) => return leave::<S, M, R>(hand, seat, run, stop),
            },
            ReadNext::Validate => return validate_on::<S, M, R>(hand, seat, run),
        }
    }
}

/// Makes what is left of a try, which is the VLX as a rule. Out of line, so that the turns before it
/// are put together as if there were nothing else.
#[inline(never)]
fn rest<S: TableShape, M: CallMachine<S>, R: Read + Drop>(
    hand: Hand<S>,
    seat: &mut Seat<u8, SeatView>,
    run: &mut ReadRun<R>,
    next: ReadNext,
) -> Result<R::Answer, Refused>
    requires table { IsAt S.mode S.lasts hand seat.old }
    requires waits { StandsToRead S.Shape M.Machine M.left_dealt R.means hand seat.old run.old
        next }
    ensures { ReadEnds S.Shape M.Machine M.left_dealt R.means hand.entry
        seat.old run.old next seat.new run.new result }
{
    match next {
        ReadNext::Validate => validate_on::<S, M, R>(hand, seat, run),
        _ => rest_by_turns::<S, M, R>(hand, seat, run, next),
    }
}

/// Makes what is left of a try from this on.
#[inline(always)]
fn go_on<S: TableShape, M: CallMachine<S>, R: Read + Drop>(
    hand: Hand<S>,
    seat: &mut Seat<u8, SeatView>,
    run: &mut ReadRun<R>,
    first: ReadNext,
) -> Result<R::Answer, Refused>
    requires table { IsAt S.mode S.lasts hand seat.old }
    requires waits { StandsToRead S.Shape M.Machine M.left_dealt R.means hand seat.old run.old
        first }
    ensures { ReadEnds S.Shape M.Machine M.left_dealt R.means hand.entry
        seat.old run.old first seat.new run.new result }
{
    let plan = *hand.plan;
    let own = hand.by_copy(&plan);
    let mut next = match look_next::<S, M, R>(own, seat, run, first) {
        Ok(next) => next,
        Err(stop) => return leave::<S, M, R>(hand, seat, run, stop),
    };
    loop {
        match next {
            ReadNext::Load(ReadLoad::Head { above, node }) => {
                let behind = match read_node::<S, M, R>(own, seat, run, above, node) {
                    Ok(behind) => behind,
                    Err(stop) => return leave::<S, M, R>(hand, seat, run, stop),
                };
                let behind = match read_pairs::<S, M, R>(own, seat, run, behind) {
                    Ok(behind) => behind,
                    Err(stop) => return leave::<S, M, R>(hand, seat, run, stop),
                };
                next = match look_next::<S, M, R>(own, seat, run, behind) {
                    Ok(after) => after,
                    Err(stop) => return leave::<S, M, R>(hand, seat, run, stop),
                };
            }
            _ => {
                let last = next;
                return rest::<S, M, R>(hand, seat, run, last);
            }
        }
    }
}

/// Makes the try that begins with the load of the root's head.
#[inline(always)]
fn from_root<S: TableShape, M: CallMachine<S>, R: Read + Drop>(
    hand: Hand<S>,
    seat: &mut Seat<u8, SeatView>,
    run: &mut ReadRun<R>,
) -> Result<R::Answer, Refused>
    requires table { IsAt S.mode S.lasts hand seat.old }
    requires waits { (r : Reader (hand_calls S.Shape M.Machine M.left_dealt hand) R.means)
        × ReaderRoots r seat.old.me.0.passes run.old }
    ensures { Leads seat.old seat.new (suc (root_left R.means run.old
        (shared_nodes (names hand.entry))))
        (λ (r : Reader (hand_calls S.Shape M.Machine M.left_dealt hand.entry) R.means) ps.
        ReaderRoots r ps run.old)
        (λ r ps. ReaderEnds r ps run.new result) }
{
    let root = NodeNo(0);
    let asked = Word::Node(root, NodeWord::Settled(SettledPart::Head));
    let word = read::<S, M, Tree, ReadRun<R>>(hand, seat, asked);
    let first = run.read.head_on(Head::of(word), root);
    go_on::<S, M, R>(hand, seat, run, first)
}

/// Searches a leaf for the pair beside a key, and returns the answer if it has that.
#[inline(always)]
fn search<S: TableShape, M: CallMachine<S>, R: Read + Drop>(
    hand: Hand<S>,
    seat: &mut Seat<u8, SeatView>,
    run: &ReadRun<R>,
    near: NearRun,
    children: Children,
    fork: NodeNo,
) -> Option<R::Answer>
    requires table { IsAt S.mode S.lasts hand seat.old }
    requires waits { (r : Reader (hand_calls S.Shape M.Machine M.left_dealt hand) R.means)
        × ReaderSearches r seat.old.me.0.passes run.now near children fork }
    ensures table { StaysAtTable seat.old seat.new }
    ensures steps { steps_made seat.new ≤ steps_made seat.old + suc (near_left near.at) }
    ensures found { IfSome result (λ answer.
        (r : Reader (hand_calls S.Shape M.Machine M.left_dealt hand.entry) R.means)
        → ReaderSearches r seat.old.me.0.passes run.now near children fork
        → ReaderEnds r seat.new.me.0.passes run.now (Ok answer)) }
    ensures nothing { IsNone result
        → (r : Reader (hand_calls S.Shape M.Machine M.left_dealt hand.entry) R.means)
        → ReaderSearches r seat.old.me.0.passes run.now near children fork
        → ReaderWaits r seat.new.me.0.passes run.now (ReadNext.Look children 0 fork) }
{
    let mut current = near;
    loop {
        let value = read::<S, M, Tree, ReadRun<R>>(hand, seat, current.word());
        match current.found(value) {
            NearNext::Load(next) => current = next,
            NearNext::Found(pair) => return Some(run.read.tell(pair)),
            NearNext::Nothing => return None,
        }
    }
}

/// Searches the leaf where a walk has ended, if it may: in a trie alone. There is no code for that in
/// a tree.
#[inline(always)]
fn in_leaf<S: TableShape, M: CallMachine<S>, R: Read + Drop, B: Keeping>(
    hand: Hand<S>,
    seat: &mut Seat<u8, SeatView>,
    run: &ReadRun<R>,
    found: Found,
    side: Side,
    turns: LastTurns,
) -> Option<R::Answer>
    requires table { IsAt S.mode S.lasts hand seat.old }
    requires walked { (r : Reader (hand_calls S.Shape M.Machine M.left_dealt hand) R.means)
        × ReaderHasWalked r seat.old.me.0.passes run.now side turns found }
    ensures table { StaysAtTable seat.old seat.new }
    ensures steps { steps_made seat.new ≤ steps_made seat.old + near_most }
    ensures found { IfSome result (λ answer.
        (r : Reader (hand_calls S.Shape M.Machine M.left_dealt hand.entry) R.means)
        → ReaderHasWalked r seat.old.me.0.passes run.now side turns found
        → ReaderEnds r seat.new.me.0.passes run.now (Ok answer)) }
    ensures nothing { IsNone result
        → (r : Reader (hand_calls S.Shape M.Machine M.left_dealt hand.entry) R.means)
        → ReaderHasWalked r seat.old.me.0.passes run.now side turns found
        → ReaderWaits r seat.new.me.0.passes run.now
        (ReadNext.Look (first_children side (turn_to side turns).0) 0 (turn_to side turns)) }
{
    if !in_trie::<B>() {
        return None;
    }
    let near = run.nearby(found, turns)?;
    search::<S, M, R>(hand, seat, run, near, turns.children(side), turns.to(side))
}

/// Makes what is left of a try behind its walk: in a trie it may end in the leaf.
#[inline(always)]
fn behind_walk<S: TableShape, M: CallMachine<S>, R: Read + Drop, B: Keeping>(
    hand: Hand<S>,
    seat: &mut Seat<u8, SeatView>,
    run: &mut ReadRun<R>,
    found: Found,
    side: Side,
    turns: LastTurns,
) -> Result<R::Answer, Refused>
    requires table { IsAt S.mode S.lasts hand seat.old }
    requires walked { (r : Reader (hand_calls S.Shape M.Machine M.left_dealt hand) R.means)
        × ReaderHasWalked r seat.old.me.0.passes run.old side turns found }
    ensures { Leads seat.old seat.new (walked_left R.means run.old side turns
        (shared_nodes (names hand.entry)))
        (λ (r : Reader (hand_calls S.Shape M.Machine M.left_dealt hand.entry) R.means) ps.
        ReaderHasWalked r ps run.old side turns found)
        (λ r ps. ReaderEnds r ps run.new result) }
{
    match in_leaf::<S, M, R, B>(hand, seat, run, found, side, turns) {
        Some(answer) => Ok(answer),
        None => {
            let (children, level, node) = (turns.children(side), 0, turns.to(side));
            let first = ReadNext::Look {
                children,
                level,
                node,
            };
            go_on::<S, M, R>(hand, seat, run, first)
        }
    }
}

/// Makes an ordered read: its first try inline. A function of its own, as that of an update.
#[inline(never)]
pub fn call<S: TableShape, M: CallMachine<S>, R: Read + Drop, B: Keeping>(
    hand: Hand<S>,
    seat: &mut Seat<u8, SeatView>,
    run: &mut ReadRun<R>,
) -> Result<R::Answer, Refused>
    requires table { IsAt S.mode S.lasts hand seat.old }
    requires begins { (r : Reader (hand_calls S.Shape M.Machine M.left_dealt hand) R.means)
        × ReaderBegins r seat.old.me.0.passes run.old }
    requires trie { run.old.trie ≡ B.trie B.the }
    ensures leads { Leads seat.old seat.new (read_left R.means run.old
        (nodes_by run.old.trie (shared_nodes (names hand.entry))))
        (λ (r : Reader (hand_calls S.Shape M.Machine M.left_dealt hand.entry) R.means) ps.
        ReaderBegins r ps run.old)
        (λ r ps. ReaderEnds r ps run.new result) }
    ensures nothing { ¬ R.means.asks (R.means.call run.old.read) → seat.new ≡ seat.old }
{
    let hand = Hand {
        words: hand.words,
        plan: hand.plan,
        number: hand.number,
        size: S::node_size(),
    };
    match run.start() {
        ReadBegin::Walk { key, side } => {
            let way = leaf_way(in_trie::<B>());
            let (found, turns) = walk::to_goal::<S, M>(hand, seat, way, Goal::Key(key));
            behind_walk::<S, M, R, B>(hand, seat, run, found, side, turns)
        }
        ReadBegin::Root => from_root::<S, M, R>(hand, seat, run),
        ReadBegin::Answer(answer) => Ok(answer),
    }
}
