//! Calls that are held open: each makes one atomic step at a time.
ghost use Rattle.std.specs.Prelude.{◌≡◌, ◌≤◌, ◌+◌, true, false, None};
ghost use Rattle.arena.specs.Machines.{IsRun};
ghost use Rattle.dict.specs.Calls.{AsksForPairs};
ghost use Rattle.ordered_map.specs.CallRules.{most_steps};
ghost use Rattle.template.specs.Balance.{nodes_by};
ghost use Rattle.dict.specs.Typed.{TypedAllows};
ghost use Rattle.dict.specs.Words.{IsWordOf};
ghost use Rattle.ordered_map.specs.Requests.{AsksForFew, as_map_call};
ghost use Rattle.tables.specs.Passes.{Ground, IsOf, run_of, steps_of};
ghost use Rattle.tables.specs.Traces.{shared_nodes};
ghost use Rattle.forest.specs.Dictionary.{HasCalledIn};
ghost use Rattle.forest.specs.Opened.{HasStepped, IsSameOpen, pass_now};

use crate::blamed::Blamed;
use crate::forest::Forest;
use crate::kept::{PassKeeper, note_lost};
use crate::pass::Pass;
use arena::{Kind, Machine, NodeNo, PassNo, ScxNo, Turn};
use atomic_table::Seat;
use dict::{Dict, DictRun, Reply, Request, WordKey, WordValue};
use resting::unborn_stays_out;
use std::alloc::Global;
use std::fmt;
use std::marker::{Model, PhantomData};
use std::snapshot::Snapshot;
use straight::balance::in_trie;
use straight::hand::Hand;
use straight::room::Room;
use straight::steps::advance;
use tables::table_shape::Keeping;
use tables::view::SeatView;
use template::ByOrder;

/// What a step of a call leaves.
#[derive(Clone, Copy, Debug, PartialEq, Eq)]
pub enum Stepped {
    /// It was of this kind, and the call is not over.
    More(Kind),
    /// The call is over. Its last step was of this kind; a call that needs no step has none.
    Done(Option<Kind>),
}

/// A call that has begun, with its pass: `step` makes one atomic step, and `finish`, once a step
/// has returned `Done`, gives pass and reply.
#[derive(Drop)]
pub struct OpenCall<K: WordKey, V: WordValue, B: Keeping = ByOrder> {
    number: PassNo,
    /// The first SCX-record of the pass's share.
    first_scx: ScxNo,
    seat: Seat<u8, SeatView>,
    blamed: Blamed,
    /// The pass's seat as it was made, for proofs alone.
    birth: Snapshot<Seat<u8, SeatView>>,
    room: Room,
    kept: Option<PassKeeper>,
    /// The next node of the pass's share as it began.
    from: NodeNo,
    /// Which of the pass's calls it is.
    call: u64,
    run: DictRun<K, V>,
    turn: Turn<Reply<K, V>>,
    over: bool,
    /// The pass as the call began. Only proofs read it: no bytes are kept.
    began: Snapshot<Pass<Dict<K, V, B>>>,
}

impl<K: WordKey, V: WordValue, B: Keeping> Model for OpenCall<K, V, B> {
    ghost use Rattle.forest.specs.Opened.{OpenView};

    ghost Value = { OpenView };

    ghost use Rattle.forest.specs.OpenInvariant.{open_view, IsOpen, CallKeepsItsOwn};

    ghost view = { open_view };

    ghost invariant = { λ o. IsOpen K.is_valid K.word_of V.is_valid V.word_of (B.trie B.the) o
        × CallKeepsItsOwn B.lasts o };
}

impl<K: WordKey, V: WordValue, B: Keeping> Forest<Dict<K, V, B>> {
    /// Begins a call with this pass, which it keeps until it is finished. It has made no step yet.
    pub fn open(
        &self,
        alloc: Global,
        pass: Pass<Dict<K, V, B>>,
        request: Request<K, V>,
    ) -> OpenCall<K, V, B>
        requires pass { IsOf self.now pass }
        requires few { AsksForFew request }
        ensures began { result.began ≡ pass }
        ensures known { result.known ≡ pass.known }
        ensures call { result.call ≡ as_map_call K.word_of V.word_of request }
        ensures tries { result.tries ≡ self.now.tries }
        ensures none { (result.made ≡ 0) × (result.over ≡ false) }
        ensures left { result.left ≤ most_steps result.call result.tries
            (nodes_by (B.trie B.the) (shared_nodes self.now.layout)) }
    {
        let began = Snapshot::of(&pass);
        let call = pass.taken();
        let (from, _) = pass.share.next();
        let Pass {
            number,
            first_scx,
            share,
            seat,
            blamed,
            birth,
            room,
            kept,
            shape: _,
        } = pass;
        let mut run = DictRun::new(
            Some(alloc),
            request,
            share,
            self.tries,
            call,
            in_trie::<B>(),
        );
        let turn = Machine::<Dict<K, V, B>>::next(&mut run, None);
        OpenCall {
            number,
            first_scx,
            seat,
            blamed,
            birth,
            room,
            kept,
            from,
            call,
            run,
            turn,
            over: false,
            began,
        }
    }
}

impl<K: WordKey, V: WordValue, B: Keeping> OpenCall<K, V, B> {
    /// Makes the next atomic step of the call, which is of this forest.
    pub fn step(&mut self, forest: &Forest<Dict<K, V, B>>) -> Stepped
        requires forest { IsOf forest.now self.old.began }
        requires goes { self.old.over ≡ false }
        ensures same { IsSameOpen self.old self.new }
        ensures stepped { HasStepped self.old self.new result }
        ensures lawful { IsRun (TypedAllows (IsWordOf K.is_valid K.word_of) (IsWordOf V.is_valid V.word_of))
            self.new.began.layout (run_of (pass_now self.new)) }
        ensures nothing { ¬ AsksForPairs self.old.call → result ≡ Stepped.Done None }
    {
        let Turn::Ask(step) = &self.turn else {
            self.over = true;
            return Stepped::Done(None);
        };
        let (step, plan) = (*step, forest.plan);
        let hand = Hand {
            words: &forest.words,
            plan: &plan,
            number: self.call,
            size: plan.layout.mode.node_size(),
        };
        self.turn = advance::<Dict<K, V, B>, DictRun<K, V>, Dict<K, V, B>, DictRun<K, V>>(
            hand,
            &mut self.seat,
            &mut self.run,
            step,
        );
        match &self.turn {
            Turn::Ask(_) => Stepped::More(step.kind),
            Turn::Done(_) => {
                self.over = true;
                Stepped::Done(Some(step.kind))
            }
        }
    }

    /// Gives the pass back, and what the call replies.
    pub fn finish(self) -> (Pass<Dict<K, V, B>>, Reply<K, V>)
        requires over { self.over ≡ true }
        ensures pass { (f : Ground) → IsOf f self.began → IsOf f result.0 }
        ensures known { result.0.known ≡ self.known }
        ensures made { steps_of result.0 ≡ steps_of self.began + self.made }
        ensures called { (f : Ground) → IsOf f self.began → self.tries ≡ f.tries →
            HasCalledIn (B.trie B.the) K.is_valid K.word_of V.is_valid V.word_of f
            self.began result.0 self.call result.1 }
    {
        let OpenCall {
            number,
            first_scx,
            seat,
            mut blamed,
            birth,
            room,
            mut kept,
            from,
            call: _,
            run,
            turn,
            over: _,
            began: _,
        } = self;
        unborn_stays_out();
        let reply = match turn {
            Turn::Done(reply) => reply,
            Turn::Ask(_) => unreachable!(),
        };
        let share = run.into_share();
        let (to, _) = share.next();
        blamed.note_reply(&reply);
        note_lost::<K, V, B>(&mut kept, &reply, from, to);
        let pass = Pass {
            number,
            first_scx,
            share,
            seat,
            blamed,
            birth,
            room,
            kept,
            shape: PhantomData,
        };
        (pass, reply)
    }
}

impl<K: WordKey, V: WordValue, B: Keeping> fmt::Debug for OpenCall<K, V, B> {
    fn fmt<W: fmt::Write>(&self, f: &mut fmt::Formatter<W>) -> fmt::Result {
        f.debug_struct("OpenCall")
            .field("pass", &self.number.0)
            .field("call", &self.call)
            .field("over", &self.over)
            .finish_non_exhaustive()
    }
}
