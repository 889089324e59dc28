//! The steps so far: their judge, how many there were, and until when each SCX-record was in
//! progress.
ghost use Rattle.std.specs.Prelude.{◌≡◌, ◌⊎◌, ℕ, IsTrue, OnOk, IfOk};
ghost use Rattle.record.specs.Common.{HasNodesLeft as NodesLeft, HasScxLeft as ScxLeft};
ghost use Rattle.histories.specs.Common.{Layout as LayoutOf, History as HistoryOf, Start, ◌⊳◌, IsLawful};
ghost use Rattle.record.specs.Rules.Scx.{has_run};
ghost use Rattle.record.specs.Steps.{SaysItsCall};
ghost use Rattle.record.specs.Shares.{HasTooFew as TooFew};
ghost use Rattle.judge.specs.Histories.{seen_history};

use crate::cells::same_cells;
use crate::client::ClientState;
use crate::commands::{most_scx, nodes_each};
use crate::fault::{LineFault, require};
use crate::memory::{FoundInfo, Memory, Snapshot, Tries};
use arena::{Kind, Layout, Limits, NodeNo, NodeWord, PassNo, Resource, Row, ScxNo, ScxWord, Word};
use judge::Judge;
use record::Answer;
use script::{Call, Command};
use std::alloc::Global;

/// What the steps so far say.
#[derive(Drop)]
pub(crate) struct Steps {
    pub(crate) judge: Judge,
    /// How many there were.
    pub(crate) count: u64,
    /// How many there were up to the last one after which an SCX-record was in progress, of those
    /// that are finished.
    until: Vec<u64>,
    /// Of each node: how many there were with the one that has made it final, or 0.
    finals: Vec<u64>,
    /// What is remembered of each client.
    pub(crate) memories: Vec<Memory>,
}

impl Steps {
    ghost use Rattle.std.specs.Prelude.{ℕ, ◌+◌, ◌<◌, List, [], ◌∷◌, length, set, Option, Some, None, IsTrue, IsSome, IfSome, slice_get};
    ghost use Rattle.record.specs.Common.{CellList, Call, Vlx, cells_of, HasLostAllTries, HasTakenFew, next_command, linked, HasNodesLeft, HasScxLeft, history, begin, start};
    ghost use Rattle.histories.specs.Common.{Layout, IsInProgress, IsMember, WasInTheWay, IsOthersScx, History, all_nodes, log, is_final};
    ghost use Rattle.record.specs.declared.record.Line.{Line};
    ghost use Rattle.record.specs.declared.record.Line.TheVariants.{Step as Turn, Reply as ReplyLine};
    ghost use Rattle.record.specs.declared.record.TurnRow.TheVariants.{Step as Made};
    ghost use Rattle.record.specs.declared.record.Finished.{Finished};
    ghost use Rattle.record.specs.CommandRules.{linked_then};
    ghost use Rattle.record.specs.Shares.{HasTooFew, HasTooFewToTry, WasBlocked};
    ghost use Rattle.record.specs.Snapshots.{snapshot_of};
    ghost use Rattle.audit.specs.declared.memory.Memory.{Memory};
    ghost use Rattle.audit.specs.After.{IsClientAfter};
    ghost use Rattle.audit.specs.CellCalls.{AreSameAt};
    ghost use Rattle.audit.specs.Remembered.{IsMomentAt, WasRunningAt, AreStepsOf, IsSnapshotOf, AreSnapshotsOf, IsBegunWith, AreRemembered, AreRememberedInCall};
    ghost use Rattle.audit.specs.Remembering.{IsLookBy, IsMadeFinal, IsRememberedFinal, IsNoted};

    /// No step yet. The only error is want of memory.
    pub(crate) fn new(alloc: Global, layout: &Layout) -> Result<Steps, LineFault>
        ensures layout { IfOk result (λ s. s.judge.layout ≡ layout.now) }
        ensures start { IfOk result (λ s. seen_history s.judge ≡ Start layout.now.mode) }
        ensures remembered { (calls : List Call) →
            IfOk result (λ s. AreRemembered layout.now calls [] s) }
    {
        Ok(Steps {
            judge: Judge::new(alloc, layout)?,
            count: 0,
            until: vec![in alloc; 0; layout.all_scx() as usize]?,
            finals: vec![in alloc; 0; layout.all_nodes() as usize]?,
            memories: vec![in alloc; Memory::new(); layout.passes as usize]?,
        })
    }

    /// What is remembered of a client.
    pub(crate) fn memory(&self, pass: PassNo) -> Memory
        ensures { IfSome (slice_get self.now.memories.items pass.0) (λ m. result ≡ m) }
    {
        match self.memories.get(pass.0 as usize) {
            Some(memory) => *memory,
            None => Memory::new(),
        }
    }

    /// A turn of a client comes next: it is the first of its call, if it has made none since its
    /// last reply.
    pub(crate) fn begin(&mut self, client: &ClientState, calls: &[Call])
        ensures same { self.new ≡ record self.old { memories = self.new.memories } }
        ensures remembered { (lay : Layout) (lines : List Line) →
            AreRemembered lay calls.now lines self.old →
            IsClientAfter lay calls.now lines client.now.pass.0 client.now →
            AreRememberedInCall lay calls.now lines client.now.pass.0 self.new }
    {
        if client.begun.is_none() {
            let memory = self.memory_begun(client, calls);
            self.put(client.pass, memory);
        }
    }

    /// What is remembered of a client whose call begins now.
    fn memory_begun(&self, client: &ClientState, calls: &[Call]) -> Memory
        ensures same { IfSome (slice_get self.now.memories.items client.now.pass.0) (λ m.
            result ≡ record m { begun = result.begun; nodes = result.nodes; scx = result.scx; tries = result.tries; same = result.same }) }
        ensures begun { (lay : Layout) (lines : List Line) →
            AreRemembered lay calls.now lines self.now →
            IsClientAfter lay calls.now lines client.now.pass.0 client.now →
            client.now.begun ≡ None →
            client.now.pass.0 < length self.now.memories.items →
            IsBegunWith lay (history lay.mode lines) (start lay.mode lines client.now.pass.0)
            (linked calls.now lay.mode lines client.now.pass.0)
            (next_command calls.now lines client.now.pass.0) client.now.pass.0 result }
    {
        let memory = self.memory(client.pass);
        Memory {
            begun: self.count,
            nodes: self.nodes_left(client.pass),
            scx: self.scx_left(client.pass),
            tries: Tries::NONE,
            same: self.same_of(&memory, client.command(calls)),
            ..memory
        }
    }

    /// If this command is a `vlx`, of each of its cells: whether it is as the snapshot says.
    fn same_of(&self, memory: &Memory, command: Option<Command>) -> [bool; 4]
        ensures { (cells : CellList) (kept : ℕ → Option History) → command ≡ Some (Vlx cells) →
            AreSnapshotsOf self.now.judge.layout (seen_history self.now.judge) memory.now kept →
            AreSameAt self.now.judge.layout (seen_history self.now.judge) kept
            (cells_of cells) result }
    {
        match command {
            Some(Command::Vlx { cells }) => same_cells(&self.judge, memory, cells.as_slice()),
            _ => [false; 4],
        }
    }

    fn put(&mut self, pass: PassNo, memory: Memory)
        ensures same { self.new ≡ record self.old { memories = self.new.memories } }
        ensures memories { self.new.memories.items ≡ set self.old.memories.items pass.0 memory }
    {
        if let Some(place) = self.memories.get_mut(pass.0 as usize) {
            *place = memory;
        }
    }

    /// Makes a lawful step.
    pub(crate) fn make(&mut self, row: &Row) -> Result<(), LineFault>
        requires { IsLawful self.old.judge.layout (seen_history self.old.judge) row.now }
        ensures layout { self.new.judge.layout ≡ self.old.judge.layout }
        ensures history { OnOk result
            (seen_history self.new.judge ≡ row.now ⊳ seen_history self.old.judge) }
        ensures remembered { (lay : Layout) (calls : List Call) (lines : List Line) (number : ℕ) →
            AreRememberedInCall lay calls lines row.now.pass.0 self.old →
            OnOk result (AreRemembered lay calls (Turn (Made number row.now) ∷ lines) self.new) }
    {
        require(self.count < u64::MAX)?;
        let ends = self.ends(row);
        let winner = self.judge.winner(row);
        self.judge.make(row)?;
        self.note_end(ends);
        self.count += 1;
        self.remember(row);
        self.note_finals(winner);
        Ok(())
    }

    /// Remembers that an SCX-record was in progress up to now, if a step has ended one.
    fn note_end(&mut self, ends: Option<ScxNo>)
        ensures same { self.new ≡ record self.old { until = self.new.until } }
        ensures many { length self.new.until.items ≡ length self.old.until.items }
        ensures until { (s rows : ℕ) → slice_get self.new.until.items s ≡ Some rows →
            (slice_get self.old.until.items s ≡ Some rows) ⊎
            ((rows ≡ self.old.count) × IfSome ends (λ t. t.0 ≡ s) × IsSome ends) }
    {
        if let Some(scx) = ends
            && let Some(until) = self.until.get_mut(scx.0 as usize)
        {
            *until = self.count;
        }
    }

    /// Remembers which nodes a winning update, if it is one, has just made final.
    fn note_finals(&mut self, winner: Option<ScxNo>)
        ensures same { self.new ≡ record self.old { finals = self.new.finals } }
        ensures many { length self.new.finals.items ≡ length self.old.finals.items }
        ensures none { winner ≡ None → self.new.finals.items ≡ self.old.finals.items }
        ensures noted { (s : ScxNo) → winner ≡ Some s → (n rows : ℕ) →
            slice_get self.new.finals.items n ≡ Some rows →
            IsRememberedFinal self.old.judge.layout
            (seen_history self.old.judge) s.0 4 self.old.count (slice_get self.old.finals.items n)
            n rows }
    {
        let Some(scx) = winner else {
            return;
        };
        for place in 0u8..4 {
            self.note_final(scx, place);
        }
    }

    /// Remembers whether it has just made this one of its nodes final.
    fn note_final(&mut self, scx: ScxNo, place: u8)
        ensures same { self.new ≡ record self.old { finals = self.new.finals } }
        ensures many { length self.new.finals.items ≡ length self.old.finals.items }
        ensures noted { (n rows : ℕ) → slice_get self.new.finals.items n ≡ Some rows →
            IsMadeFinal self.old.judge.layout
            (seen_history self.old.judge) scx.0 place self.old.count
            (slice_get self.old.finals.items n)
            n rows }
    {
        let node = NodeNo(self.judge.get(Word::Scx(scx, ScxWord::Member(place))));
        if self.judge.is_final(node)
            && let Some(final_at) = self.finals.get_mut(node.0 as usize)
            && *final_at == 0
        {
            *final_at = self.count;
        }
    }

    /// Whether a node was final after the first `after` steps.
    pub(crate) fn was_final(&self, node: NodeNo, after: u64) -> bool
        ensures { (lay : Layout) (h g : History) → AreStepsOf lay h self.now →
            IsMomentAt h after g → node.0 < all_nodes lay →
            result ≡ is_final (log lay g) node.0 }
    {
        match self.finals.get(node.0 as usize) {
            Some(final_at) => 0 < *final_at && *final_at <= after,
            None => false,
        }
    }

    /// The SCX-record that a step finishes, if it was in progress.
    fn ends(&self, row: &Row) -> Option<ScxNo>
        ensures { IfSome result (λ s. IsInProgress (seen_history self.now.judge) s.0) }
    {
        match (row.kind, row.word) {
            (Kind::Commit | Kind::Abort, Word::Scx(scx, _)) if self.judge.is_in_progress(scx) => {
                Some(scx)
            }
            _ => None,
        }
    }

    /// Remembers what a step that was made has found in an info word, and whether it begins a try.
    fn remember(&mut self, row: &Row)
        ensures same { self.new ≡ record self.old { memories = self.new.memories } }
        ensures many { length self.new.memories.items ≡ length self.old.memories.items }
        ensures others { (c : ℕ) → (c ≡ row.now.pass.0 → ⊥) →
            slice_get self.new.memories.items c ≡ slice_get self.old.memories.items c }
        ensures own { (m : Memory) →
            slice_get self.new.memories.items row.now.pass.0 ≡ Some m → (old : Memory) ×
            (slice_get self.old.memories.items row.now.pass.0 ≡ Some old) ×
            IsNoted self.old.judge.layout
            (seen_history self.old.judge) self.old.count row.now old m }
    {
        let look = self.look_by(row);
        if let Some(memory) = self.memories.get_mut(row.pass.0 as usize) {
            memory.note(row.kind, look);
            memory.tries = memory.tries.behind(row, self.count);
        }
    }

    /// What a step that was made has found, if it is one at an info word.
    fn look_by(&self, row: &Row) -> Option<FoundInfo>
        ensures { IfSome result
            (λ look. IsLookBy self.now.judge.layout
            (seen_history self.now.judge) self.now.count row.now look) }
    {
        let Word::Node(node, NodeWord::Info) = row.word else {
            return None;
        };
        Some(FoundInfo {
            steps: self.count,
            node,
            found: row.before,
            last: self.judge.last(node),
        })
    }

    /// Which snapshots a client keeps once its next call is answered so.
    pub(crate) fn keep_after(&mut self, client: &ClientState, calls: &[Call], answer: &Answer)
        ensures same { self.new ≡ record self.old { memories = self.new.memories } }
        ensures remembered { (lay : Layout) (lines : List Line) (reply : Finished) →
            AreRemembered lay calls.now lines self.old →
            IsClientAfter lay calls.now lines client.now.pass.0 client.now →
            reply.client ≡ client.now.pass → reply.answer ≡ answer.now →
            AreRemembered lay calls.now (ReplyLine reply ∷ lines) self.new }
    {
        if let Some(command) = client.command(calls) {
            let memory = self.memory_after(self.memory(client.pass), &command, answer);
            self.put(client.pass, memory);
        }
    }

    /// What is remembered of the client then, if this is its command.
    fn memory_after(&self, memory: Memory, command: &Command, answer: &Answer) -> Memory
        ensures same { result ≡ record memory { snapshots = result.snapshots } }
        ensures snapshots { (lay : Layout) (h : History) (kept : ℕ → Option History) →
            AreStepsOf lay h self.now →
            AreSnapshotsOf lay h memory kept →
            AreSnapshotsOf lay h result
            (λ n. linked_then (Some command.now) answer.now h n (kept n)) }
    {
        match command {
            Command::Llx { cell } => memory.with(
                cell.node(),
                self.snapshot_by(cell.node(), answer),
            ),
            Command::Set { field, value: _ } => {
                memory.with(field.0.node(), self.snapshot_by(field.0.node(), answer))
            }
            Command::Scx(update) if has_run(answer) => memory.without(update.cells()),
            _ => memory,
        }
    }

    /// The snapshot that an answer leaves of the cell at which the call's LLX has looked.
    fn snapshot_by(&self, cell: NodeNo, answer: &Answer) -> Option<Snapshot>
        ensures { (lay : Layout) (h : History) → AreStepsOf lay h self.now →
            IsSnapshotOf lay h cell.0 result (snapshot_of answer.now h) }
    {
        match answer {
            Answer::Snapshot { .. } | Answer::Full { .. } => Some(Snapshot {
                steps: self.count,
                last: self.judge.last(cell),
            }),
            _ => None,
        }
    }

    /// How many nodes are left of a pass's share.
    fn nodes_left(&self, pass: PassNo) -> u32
        ensures { pass.0 < self.now.judge.layout.passes →
            HasNodesLeft self.now.judge.layout pass.0 (seen_history self.now.judge) result }
    {
        let layout = self.judge.layout();
        if pass.0 < layout.passes {
            layout.nodes.saturating_sub(self.judge.nodes_taken(pass))
        } else {
            0
        }
    }

    /// How many SCX-records are left of a pass's share.
    fn scx_left(&self, pass: PassNo) -> u32
        ensures { pass.0 < self.now.judge.layout.passes →
            HasScxLeft self.now.judge.layout pass.0 (seen_history self.now.judge) result }
    {
        let layout = self.judge.layout();
        if pass.0 < layout.passes {
            layout.scx.saturating_sub(self.judge.scx_taken(pass))
        } else {
            0
        }
    }

    /// Whether the call of a client has taken no more of its share than it may.
    pub(crate) fn has_taken_few(&self, pass: PassNo, command: &Command, limits: &Limits) -> bool
        ensures { (lay : Layout) (calls : List Call) (lines : List Line) →
            AreRemembered lay calls lines self.now → pass.0 < lay.passes →
            IsSome (begin lines pass.0) → IsTrue result →
            HasTakenFew lay limits.now.tries pass.0 (history lay.mode lines)
            (start lay.mode lines pass.0) command.now }
    {
        let memory = self.memory(pass);
        let taken = memory.scx.saturating_sub(self.scx_left(pass));
        let nodes = memory.nodes.saturating_sub(self.nodes_left(pass));
        taken <= most_scx(command, limits) && nodes <= nodes_each(command).saturating_mul(taken)
    }

    /// How many steps there were up to the last one after which an SCX-record was in progress.
    fn last_in_progress(&self, scx: ScxNo) -> u64
        ensures { (lay : Layout) (h : History) → AreStepsOf lay h self.now → 0 < result →
            WasRunningAt h result scx.0 }
    {
        if self.judge.is_in_progress(scx) {
            return self.count;
        }
        match self.until.get(scx.0 as usize) {
            Some(until) => *until,
            None => 0,
        }
    }

    /// Whether an SCX-record is another pass's.
    pub(crate) fn is_others(&self, pass: PassNo, scx: ScxNo) -> bool
        ensures { IsTrue result → IsOthersScx self.now.judge.layout pass.0 scx.0 }
    {
        match self.judge.layout().owner(scx) {
            Some(owner) => owner != pass,
            None => false,
        }
    }

    /// Whether an SCX-record covers a node.
    fn covers(&self, scx: ScxNo, node: NodeNo) -> bool
        ensures { IsTrue result → IsMember (seen_history self.now.judge) scx.0 node.0 }
    {
        let plan = arena::Plan(self.judge.get(Word::Scx(scx, ScxWord::Plan)));
        for place in 0..plan.count() {
            if self.judge.get(Word::Scx(scx, ScxWord::Member(place))) == node.0 {
                return true;
            }
        }
        false
    }

    /// Whether an SCX-record of another pass, which covers a node, was in progress after a step
    /// later than the first `after`.
    pub(crate) fn was_in_the_way(&self, pass: PassNo, blamed: (NodeNo, ScxNo), after: u64) -> bool
        ensures others { IsTrue result → IsOthersScx self.now.judge.layout pass.0 blamed.1.0 }
        ensures way { (lay : Layout) (h g : History) → AreStepsOf lay h self.now →
            IsMomentAt h after g → IsTrue result →
            WasInTheWay h g blamed.0.0 blamed.1.0 }
    {
        self.judge.laws_hold();
        let (node, scx) = blamed;
        after < self.last_in_progress(scx) && self.is_others(pass, scx) && self.covers(scx, node)
    }

    /// Whether the call of a client has lost all its tries: it has begun this many, and in the
    /// newest another pass's SCX-record, which covers a node, was in progress.
    pub(crate) fn has_lost_all_tries(
        &self,
        pass: PassNo,
        tries: u32,
        blamed: (NodeNo, ScxNo),
    ) -> bool
        requires { pass.0 < self.now.judge.layout.passes }
        ensures { (lay : Layout) (calls : List Call) (lines : List Line) →
            AreRemembered lay calls lines self.now →
            IsSome (begin lines pass.0) → IsTrue result →
            HasLostAllTries lay tries pass.0 (history lay.mode lines)
            (start lay.mode lines pass.0) blamed.0.0 blamed.1.0 }
    {
        let of_call = self.memory(pass).tries;
        of_call.are(tries) && self.was_in_the_way(pass, blamed, of_call.before)
    }

    /// Whether some SCX-record of another pass was in progress after a step later than `after`.
    fn was_blocked(&self, pass: PassNo, after: u64) -> bool
        ensures { (lay : Layout) (h g : History) → AreStepsOf lay h self.now →
            IsMomentAt h after g → IsTrue result → WasBlocked lay pass.0 h g }
    {
        self.judge.laws_hold();
        for scx in 1..self.judge.layout().all_scx() {
            let scx = ScxNo(u64::from(scx));
            if after < self.last_in_progress(scx) && self.is_others(pass, scx) {
                return true;
            }
        }
        false
    }

    /// Whether the share of a pass has just this much of the resource left, too little for an
    /// update that needs `needed` nodes.
    pub(crate) fn has_too_few(&self, pass: PassNo, needed: u32, full: (Resource, u32)) -> bool
        requires { pass.0 < self.now.judge.layout.passes }
        ensures { IsTrue result →
            HasTooFew self.now.judge.layout pass.0
            (seen_history self.now.judge) needed full.0 full.1 }
    {
        is_too_few((self.nodes_left(pass), self.scx_left(pass)), needed, full)
    }

    /// Whether the share of a pass has too little for the next try of its call: it had too little
    /// as the call began, or another pass was in the way since.
    pub(crate) fn has_too_few_to_try(
        &self,
        pass: PassNo,
        needed: u32,
        full: (Resource, u32),
    ) -> bool
        requires { pass.0 < self.now.judge.layout.passes }
        ensures { (lay : Layout) (calls : List Call) (lines : List Line) →
            AreRemembered lay calls lines self.now →
            IsSome (begin lines pass.0) → IsTrue result →
            HasTooFewToTry lay pass.0 (history lay.mode lines)
            (start lay.mode lines pass.0) needed full.0 full.1 }
    {
        let memory = self.memory(pass);
        self.has_too_few(pass, needed, full)
            && (is_too_few((memory.nodes, memory.scx), needed, full)
                || self.was_blocked(pass, memory.begun))
    }
}

/// Whether a share with these nodes and SCX-records left has just this much of the resource, too
/// little for an update that needs `needed` nodes. It may be said that no SCX-record is left if any
/// node is: how many nodes a new key needs depends on its leaf, which no answer shows.
fn is_too_few(share: (u32, u32), needed: u32, full: (Resource, u32)) -> bool
    ensures { (lay : LayoutOf) (c : ℕ) (h : HistoryOf) → NodesLeft lay c h share.0 →
        ScxLeft lay c h share.1 → IsTrue result →
        TooFew lay c h needed full.0 full.1 }
{
    match full {
        (Resource::Nodes, left) => left == share.0 && left < needed,
        (Resource::Scx, left) => left == 0 && share.1 == 0 && 0 < share.0,
    }
}

/// Whether this is the answer of an SCX that has run.
fn has_run(answer: &Answer) -> bool
    ensures { result ≡ has_run answer.now }
{
    matches!(answer, Answer::Done | Answer::Lost { .. })
}

/// Whether a row that fills the word `call` of an SCX-record stores the number of its own call.
pub(crate) fn says_its_call(row: &Row) -> bool
    ensures { IsTrue result → SaysItsCall row.now }
{
    match (row.kind, row.word) {
        (Kind::Fill, Word::Scx(_, ScxWord::Call)) => row.after == row.call,
        _ => true,
    }
}
