//! A client of the player: what it owns and what it is in the middle of.
ghost use Rattle.std.specs.Prelude.{◌≡◌, Some, ℕ, ◌+◌, ◌<◌, ◌≤◌, length, map, IfOk, MatchBool};
ghost use Rattle.arena.specs.Opening.{IsMap};
ghost use Rattle.dict.specs.Calls.{AsksForPairs};
ghost use Rattle.template.specs.Balance.{map_mode};
ghost use Rattle.player.specs.RunKnown.{IsForNothing};
ghost use Rattle.ordered_map.specs.Requests.{map_request};
ghost use Rattle.player.specs.declared.client.Client.{Client};
ghost use Rattle.player.specs.declared.client.Running.{Running};
ghost use Rattle.player.specs.ClientView.{ClientView, IsSound, Hears};
ghost use Rattle.player.specs.Hearing.{HasHeard};

use crate::kept::Kept;
use crate::run::{Ended, Run};
use arena::{Fresh, Full, Layout, Mode, NodeNo, PassNo, Resource, ScxNo, Share, Side, Step, Turn};
use arrayvec::ArrayVec;
use dict::DictRun;
use linearization::Places;
use ordered_map::{Reply, Request};
use prims::{Llx, LlxRun, PutRun, ScxRun, Snap, Snaps, Update, VlxRun};
use record::{Answer, Finished, next_call};
use script::{Call, Cell, Command};
use std::alloc::Global;

/// What a `set` does once its LLX has given a snapshot.
#[derive(Clone, Copy)]
struct SetField {
    side: Side,
    value: u64,
}

/// A call that has begun and has asked for a step.
#[derive(Drop)]
struct Running {
    run: Run,
    then: Option<SetField>,
    step: Step,
}

/// How a client is before a turn.
#[derive(Drop)]
pub(crate) enum NextAction {
    /// It has no call left.
    Finished,
    /// Its next call answers without a step.
    Answers(Answer),
    Asks(Step),
}

#[derive(Drop)]
pub(crate) struct Client {
    /// With what calls of the map grow.
    alloc: Global,
    pass: PassNo,
    /// How often a call may try.
    tries: u32,
    /// Whether the map of the script is a trie.
    trie: bool,
    /// None while a call of the map runs, which has it.
    share: Option<Share>,
    kept: Kept,
    /// Where in the script the call is that runs or comes next.
    next: Option<usize>,
    /// The number of that call among the client's own.
    number: u64,
    /// The turn in which that call began.
    begin: u64,
    running: Option<Running>,
}

impl Client {
    ghost use Rattle.std.specs.Prelude.{◌≡◌, ◌≢◌, ◌<◌, ◌≤◌, ◌+◌, ◌-◌, Option, Some, None, IsSome, IfSome, is_some, IfOk, OnOk, IfErr, List, [], length, map, slice_get, MatchOption, All};
    ghost use Rattle.script.specs.Commands.{AsksForFewPairs, IsOfMode};
    ghost use Rattle.arena.specs.declared.limits.Mode.TheVariants.{Records};
    ghost use Rattle.script.specs.declared.command.Command.TheVariants.{Scx as ScxCommand, Map as MapCommand};
    ghost use Rattle.ordered_map.specs.OrderedMap.{edit_key, value_left};
    ghost use Rattle.ordered_map.specs.Replies.{number_reply};
    ghost use Rattle.ordered_map.specs.Requests.{AsksForFew};
    ghost use Rattle.std.specs.Option.{option_map};
    ghost use Rattle.arena.specs.History.{History};
    ghost use Rattle.arena.specs.Opening.{IsMap};
    ghost use Rattle.prims.specs.declared.snap.Snap.{Snap};
    ghost use Rattle.player.specs.declared.run.Run.{Run};
    ghost use Rattle.prims.specs.Snaps.{AreDistinct, IsAmong};
    ghost use Rattle.prims.specs.declared.llx.LlxRun.{LlxRun};
    ghost use Rattle.player.specs.declared.run.Run.TheVariants.{Llx as LlxOf};
    ghost use Rattle.player.specs.declared.run.Ended.TheVariants.{Llx as LlxEnded};
    ghost use Rattle.player.specs.declared.client.Running.{Running};
    ghost use Rattle.script.specs.declared.call.Call.{Call as ScriptCall};
    ghost use Rattle.arena.specs.Share.{IsFull, after_taking};
    ghost use Rattle.record.specs.declared.record.Line.{Line};
    ghost use Rattle.record.specs.declared.record.Answer.TheVariants.{Map as MapAnswer};
    ghost use Rattle.linearization.specs.Places.{changes};
    ghost use Rattle.player.specs.Moments.{IsMomentBy, IsReadingMoment};
    ghost use Rattle.player.specs.RunKnown.{share_behind};
    ghost use Rattle.player.specs.Hearing.{HasAnswered};
    ghost use Rattle.player.specs.ClientView.{ClientView, client_view, IsSound, IsAtNextCall, Rests, command_of, Starts, Hears, Answered, HasBeenTold, CanPut, Puts, held, running_edit, BeginsOrRefuses, IsNextAction, IsNextCallUnbegun, IsClient};

    pub(crate) fn new(
        alloc: Global,
        layout: &Layout,
        tries: u32,
        pass: PassNo,
        calls: &[Call],
    ) -> Client
        requires { pass.0 < layout.now.passes }
        ensures pass { result.pass ≡ pass }
        ensures rests { Rests (client_view layout.now tries calls.now [] pass.0) result }
    {
        Client {
            alloc,
            pass,
            tries,
            trie: is_trie(layout.mode),
            share: Some(Share::of(layout, pass)),
            kept: Kept::new(),
            next: next_call(calls, 0, pass),
            number: 0,
            begin: 0,
            running: None,
        }
    }

    pub(crate) fn number(&self) -> u64
        ensures { result ≡ self.now.number }
    {
        self.number
    }

    pub(crate) fn has_call(&self) -> bool
        ensures { result ≡ is_some self.now.next }
    {
        self.next.is_some()
    }

    /// How the client is at this turn, with its next call begun.
    pub(crate) fn next_action(&mut self, calls: &[Call], turn: u64) -> NextAction
        ensures { (v : ClientView) (began : Option ℕ) → IsSound v → 0 < v.tries →
            All (λ call. IsOfMode v.layout.mode call.command) v.calls → calls.now ≡ v.calls →
            IsClient v began self.old → IsNextAction v turn self.old self.new result }
    {
        if self.running.is_some() {
            return self.asked();
        }
        self.begin_next(calls, turn)
    }

    /// The step that the client waits for, if a call runs.
    fn asked(&self) -> NextAction
        ensures { MatchOption self.now.running (result ≡ NextAction.Finished) (λ r. result ≡ NextAction.Asks r.step) }
    {
        match &self.running {
            Some(running) => NextAction::Asks(running.step),
            None => NextAction::Finished,
        }
    }

    /// Begins the next call, if there is one.
    fn begin_next(&mut self, calls: &[Call], turn: u64) -> NextAction
        ensures { (v : ClientView) (began : Option ℕ) → IsSound v → 0 < v.tries →
            All (λ call. IsOfMode v.layout.mode call.command) v.calls → calls.now ≡ v.calls → Rests v self.old →
            (self.old.next ≢ None → IsNextCallUnbegun v began) → IsNextAction v turn self.old self.new result }
    {
        let Some(at) = self.next else {
            return NextAction::Finished;
        };
        let Some(call) = calls.get(at) else {
            return NextAction::Finished;
        };
        if let Some(answer) = self.begin(call.command, turn) {
            return NextAction::Answers(answer);
        }
        self.asked()
    }

    /// Begins a call, which answers at once or asks for a step.
    fn begin(&mut self, command: Command, turn: u64) -> Option<Answer>
        requires { AsksForFewPairs command }
        ensures { (v : ClientView) (began : Option ℕ) → IsSound v → 0 < v.tries → IsOfMode v.layout.mode command →
            Rests v self.old → IsNextCallUnbegun v began → command_of v self.old ≡ Some command →
            BeginsOrRefuses v turn self.old self.new result }
    {
        self.begin = turn;
        match command {
            Command::Llx { cell } => self.run(Run::Llx(LlxRun::new(cell.node())), None),
            Command::Set { field, value } => {
                let llx = Run::Llx(LlxRun::new(field.0.node()));
                let put = SetField {
                    side: field.1,
                    value,
                };
                self.run(llx, Some(put))
            }
            Command::Scx(update) => self.begin_scx(&update),
            Command::Vlx { cells } => match self.kept.linked(cells.as_slice()) {
                Ok(snaps) => self.run(Run::Vlx(VlxRun::new(Snaps::new(&snaps))), None),
                Err(node) => Some(Answer::Unlinked { node }),
            },
            Command::Map(request) => self.begin_request(request),
        }
    }

    /// Begins a call of the map, which runs with the share; one for nothing answers at once.
    fn begin_request(&mut self, request: Request<u64, u128>) -> Option<Answer>
        requires { AsksForFew request }
        ensures { (v : ClientView) (began : Option ℕ) → IsSound v → 0 < v.tries → IsMap v.layout.mode →
            Rests v self.old → IsNextCallUnbegun v began → command_of v self.old ≡ Some (MapCommand request) →
            BeginsOrRefuses v self.old.begin self.old self.new result }
    {
        if is_for_nothing(request) {
            return Some(Answer::Map(Reply::Pairs(Vec::new(self.alloc))));
        }
        let share = self.share.take()?;
        let run = DictRun::new(
            Some(self.alloc),
            request,
            share,
            self.tries,
            self.number,
            self.trie,
        );
        self.run(Run::Map(run), None)
    }

    /// Takes the snapshots and the records of an `scx`, if they are there.
    fn begin_scx(&mut self, update: &script::CellUpdate) -> Option<Answer>
        ensures { (v : ClientView) (began : Option ℕ) → IsSound v → v.layout.mode ≡ Records → Rests v self.old →
            IsNextCallUnbegun v began → command_of v self.old ≡ Some (ScxCommand update.now) →
            BeginsOrRefuses v self.old.begin self.old self.new result }
    {
        let cells = update.cells();
        match self.kept.linked(cells) {
            Err(node) => Some(Answer::Unlinked { node }),
            Ok(snaps) => {
                let finalize = nodes(update.finalize());
                let (cell, side) = update.field();
                self.put(&snaps, &finalize, (cell.node(), side), update.value())
            }
        }
    }

    /// Runs an SCX with a fresh cell, if the share has the records, and drops the snapshots that it
    /// links.
    fn put(
        &mut self,
        snaps: &[Snap],
        finalize: &[NodeNo],
        field: (NodeNo, Side),
        value: u64,
    ) -> Option<Answer>
        requires fits { length snaps.now ≤ 4 }
        requires distinct { AreDistinct snaps.now }
        requires among { IsAmong snaps.now field.0.0 }
        ensures { (v : ClientView) (linked : ℕ → Option History) → IsSound v →
            CanPut v linked self.old snaps.now (map (λ n. n.0) finalize.now) (field.0.0, field.1) value →
            Puts v linked self.old self.new result }
    {
        let (fresh, scx) = match self.take() {
            Ok(records) => records,
            Err(Full { what, left }) => return Some(Answer::Full { what, left }),
        };
        self.kept.forget(snaps);
        let update = Update::new(snaps, finalize, field, fresh);
        let scx = ScxRun::new(update, scx, self.number);
        self.run(Run::Scx(PutRun::new(value, scx)), None)
    }

    /// Takes a node and an SCX-record of the share. No call of the map runs.
    fn take(&mut self) -> Result<(Fresh, ScxNo), Full>
        ensures same { self.new ≡ record self.old { share = self.new.share } }
        ensures records { IfOk result (λ r. (r.0 ≡ (held self.old).next_node) ×
            (r.1.0 ≡ (held self.old).next_scx)) }
        ensures some { OnOk result ((0 < (held self.old).nodes) × (0 < (held self.old).scx)) }
        ensures left { IsSome self.old.share →
            OnOk result (self.new.share ≡ Some (after_taking (held self.old))) }
        ensures full { IsSome self.old.share →
            IfErr result (λ f. IsFull (held self.old) f × (self.new.share ≡ self.old.share)) }
    {
        let Some(mut share) = self.share.take() else {
            let what = Resource::Nodes;
            return Err(Full { what, left: 0 });
        };
        let taken = share.take();
        self.share = Some(share);
        taken
    }

    /// Runs a machine from its start, which asks for a step first.
    fn run(&mut self, mut run: Run, then: Option<SetField>) -> Option<Answer>
        ensures begins { (v : ClientView) → IsSound v → Starts v self.old run then →
            BeginsOrRefuses v self.old.begin self.old self.new result }
        ensures asks { (v : ClientView) → IsSound v → Starts v self.old run then → result ≡ None }
    {
        match run.next(None) {
            Turn::Ask(step) => {
                self.running = Some(Running { run, then, step });
                None
            }
            Turn::Done(ended) => Some(ended.answer()),
        }
    }

    /// Gives the client what the step that it had asked for found: it asks for another, or answers.
    pub(crate) fn tell(&mut self, found: u64) -> Option<Answer>
        ensures { (v : ClientView) (q : Running) → IsSound v → self.old.running ≡ Some q →
            Hears v self.old q found → HasBeenTold v self.old self.new result }
    {
        let ended = hear(&mut self.running, found)?;
        self.conclude(ended)
    }

    /// What follows once the machine has ended: the client's answer, or the SCX of a `set`. Not in
    /// line, so that a turn that only makes a step has no room to clear for the machine.
    #[inline(never)]
    fn conclude(&mut self, ended: Ended) -> Option<Answer>
        ensures { (v : ClientView) (q : Running) → IsSound v → self.old.running ≡ Some q →
            HasAnswered v self.old q ended → HasBeenTold v self.old self.new result }
    {
        let Running { run, then, step: _ } = self.running.take()?;
        self.take_back(run);
        self.after(ended, then)
    }

    /// The key that its call of the map changes if its SCX wins, and what it leaves there.
    pub(crate) fn change(&self) -> Option<(u64, Option<u128>)>
        ensures { result ≡ option_map (λ e. (edit_key e, value_left e)) (running_edit self.now.running) }
    {
        self.running.as_ref()?.run.change()
    }

    /// Takes the share back from a machine that has answered, if it has that.
    fn take_back(&mut self, run: Run)
        ensures { self.new ≡ record self.old { share = share_behind run self.old.share } }
    {
        if let Some(share) = run.into_share() {
            self.share = Some(share);
        }
    }

    /// What follows a machine that has answered: the client's answer, or the SCX of a `set`.
    fn after(&mut self, ended: Ended, then: Option<SetField>) -> Option<Answer>
        ensures { (v : ClientView) (run : Run) → IsSound v → Answered v self.old run then ended →
            HasBeenTold v self.old self.new result }
    {
        match ended {
            Ended::Llx(llx) => self.after_llx(llx, then),
            _ => Some(ended.answer()),
        }
    }

    fn after_llx(&mut self, llx: Llx, then: Option<SetField>) -> Option<Answer>
        ensures { (v : ClientView) (m : LlxRun) → IsSound v →
            Answered v self.old (LlxOf m) then (LlxEnded llx) →
            HasBeenTold v self.old self.new result }
    {
        self.kept.keep(llx);
        match (llx, then) {
            (Llx::Snapshot(snap), Some(put)) => self.put(
                &[snap],
                &[],
                (snap.node, put.side),
                put.value,
            ),
            _ => Some(Ended::Llx(llx).answer()),
        }
    }

    /// Ends the call that runs, or that answered at once, in this turn. It took place at `moment`.
    pub(crate) fn end(
        &mut self,
        calls: &[Call],
        turn: u64,
        answer: Answer,
        moment: Option<u64>,
    ) -> Finished
        ensures client { result.client ≡ self.old.pass }
        ensures call { result.call ≡ self.old.number }
        ensures begin { result.begin ≡ self.old.begin }
        ensures end { result.end ≡ turn }
        ensures answer { result.answer ≡ answer }
        ensures moment { result.moment ≡ moment }
        ensures next { IsAtNextCall calls.now self.old self.new }
    {
        let reply = Finished {
            client: self.pass,
            call: self.number,
            begin: self.begin,
            end: turn,
            moment,
            answer,
        };
        if let Some(at) = self.next {
            self.next = next_call(calls, at.saturating_add(1), self.pass);
            self.number = self.number.saturating_add(1);
        }
        reply
    }

    /// The call that runs or comes next.
    pub(crate) fn call(&self, calls: &[Call]) -> Option<Call>
        ensures here { (at : ℕ) (call : ScriptCall) → self.now.next ≡ Some at →
            slice_get calls.now at ≡ Some call → result ≡ Some call }
        ensures one { IfSome result (λ call. (at : ℕ) × (slice_get calls.now at ≡ Some call)) }
    {
        calls.get(self.next?).copied()
    }

    /// The turn of an answer: of an update that is done, and of a call that has
    /// changed the map, that of its entry, of a VLX its first, of an LLX its last, of a reading of
    /// the map the greatest within the call, whoever's, after which the map was as it says. `won`
    /// is the turn of the last update of the client's that has won.
    pub(crate) fn moment(
        &self,
        calls: &[Call],
        turn: u64,
        answer: &Answer,
        won: Option<u64>,
        places: &Places,
    ) -> Option<u64>
        requires { self.now.begin ≤ turn }
        ensures { (call : ScriptCall) (at : ℕ) (lines : List Line) → self.now.next ≡ Some at →
            slice_get calls.now at ≡ Some call →
            IsMomentBy calls.now lines (changes places.now) call.command answer.now self.now.begin turn won result }
    {
        match answer {
            Answer::Done => won,
            Answer::Same => Some(self.begin),
            Answer::Snapshot { left: _, right: _ } => Some(turn),
            Answer::Finalized => Some(turn),
            Answer::Map(reply) => self.reply_moment(calls, turn, reply, won, places),
            _ => None,
        }
    }

    /// The turn of a reply of the map; a refusal has none.
    fn reply_moment(
        &self,
        calls: &[Call],
        turn: u64,
        reply: &Reply<u64, u128>,
        won: Option<u64>,
        places: &Places,
    ) -> Option<u64>
        requires { self.now.begin ≤ turn }
        ensures { (call : ScriptCall) (at : ℕ) (lines : List Line) → self.now.next ≡ Some at →
            slice_get calls.now at ≡ Some call →
            IsMomentBy calls.now lines (changes places.now) call.command (MapAnswer reply.now) self.now.begin turn won result }
    {
        let command = self.call(calls)?.command;
        let Command::Map(request) = command else {
            return None;
        };
        if request.changes(reply) {
            return won;
        }
        self.reading_moment(&command, request.key(), turn, reply, places)
    }

    /// The turn of a reply of a call that has changed nothing: of one that answers the
    /// value of this key, or, without a key, that reads in order.
    fn reading_moment(
        &self,
        command: &Command,
        key: Option<u64>,
        turn: u64,
        reply: &Reply<u64, u128>,
        places: &Places,
    ) -> Option<u64>
        requires { self.now.begin ≤ turn }
        ensures { (calls : List ScriptCall) (lines : List Line) →
            IsReadingMoment calls lines (changes places.now) command.now reply.now key (number_reply reply.now) self.now.begin turn result }
    {
        match key {
            Some(key) => places.latest(key, reply.value()?, self.begin, turn),
            None => match reply {
                Reply::Value(_) => Some(places.latest_reply(command, reply, self.begin, turn)),
                Reply::Pair(_) => Some(places.latest_reply(command, reply, self.begin, turn)),
                Reply::Pairs(_) => Some(places.latest_reply(command, reply, self.begin, turn)),
                Reply::Contended { .. } | Reply::Full(_) | Reply::NoMemory => None,
            },
        }
    }
}

/// Gives a machine what its step found, in its place: it asks for another step, or has ended.
fn hear(running: &mut Option<Running>, found: u64) -> Option<Ended>
    ensures { (v : ClientView) (c : Client) (q : Running) → IsSound v → running.old ≡ Some q →
        Hears v c q found → HasHeard v c running.new result }
{
    match running {
        Some(here) => match here.run.next(Some(found)) {
            Turn::Ask(step) => {
                here.step = step;
                None
            }
            Turn::Done(ended) => Some(ended),
        },
        None => None,
    }
}

/// Whether a map of this mode is a trie.
fn is_trie(mode: Mode) -> bool
    ensures { IsMap mode → mode ≡ map_mode result }
{
    match mode {
        Mode::Trie => true,
        Mode::Tree | Mode::Records => false,
    }
}

/// Whether it is a range that takes no pair, whatever the map has.
fn is_for_nothing(request: Request<u64, u128>) -> bool
    ensures { MatchBool result (IsForNothing request) (AsksForPairs (map_request request)) }
{
    match request {
        Request::Range { low, high, most } => most == 0 || high < low,
        _ => false,
    }
}

/// The nodes of some cells.
fn nodes(cells: &[Cell]) -> ArrayVec<NodeNo, 4>
    requires { length cells.now ≤ 4 }
    ensures { map (λ n. n.0) result.items ≡ cells.now }
{
    let mut nodes = ArrayVec::new();
    for cell in cells {
        nodes.push(cell.node());
    }
    nodes
}
