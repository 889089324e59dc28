//! Calls that run step by step.
ghost use Rattle.std.specs.Prelude.{◌≡◌, ◌≢◌, ℕ, ◌<◌, ◌≤◌, length, Option, Some, None};
ghost use Rattle.arena.specs.declared.layout.Layout.{Layout};
ghost use Rattle.arena.specs.declared.limits.Mode.{Mode};
ghost use Rattle.arena.specs.History.{History, Opened, value, ◌⊳◌};
ghost use Rattle.arena.specs.Opening.{node_size};
ghost use Rattle.arena.specs.Openings.{Opening};
ghost use Rattle.arena.specs.declared.step.Row.{Row};
ghost use Rattle.arena.specs.declared.step.Step.{Step};
ghost use Rattle.arena.specs.TakenNodes.{taken_nodes};
ghost use Rattle.arena.specs.Machines.{MatchTurn, IsRun, Call, row_of, IsTold};

use crate::step::Step;

/// What a machine wants next.
#[derive(Clone, Copy, Debug, PartialEq, Eq)]
pub enum Turn<A> {
    /// This step is to be made; `next` is called again with what it found.
    Ask(Step),
    /// The call has ended with this answer.
    Done(A),
}

impl<A: Drop> Turn<A> {
    /// The same turn with what its answer becomes.
    pub fn map<B, F: FnOnce(A) -> B + Drop>(self, f: F) -> Turn<B>
        requires { MatchTurn self (λ _. Unit {0}) (λ a. F.pre f a) }
        ensures { MatchTurn self (λ s. result ≡ Turn.Ask s) (λ a. MatchTurn result (λ _. ⊥) (λ b. F.post f a b)) }
    {
        match self {
            Turn::Ask(step) => Turn::Ask(step),
            Turn::Done(answer) => Turn::Done(f(answer)),
        }
    }
}

/// Which SCX-records the layer above lets begin, given the history before their first freeze, and
/// what it knows of every lawful run in which no others begin.
pub trait Shape {
    /// The mode of the tables that have it.
    ghost mode: { Mode };

    /// The SCX-record may begin after this history.
    ghost allows: { Layout → History → ℕ → Type 0 };

    /// What such a run keeps true.
    ghost holds: { Layout → History → Type 0 };

    /// It is true before the first row.
    ghost opens: { (lay : Layout) (o : Opening) → IsRun allows lay (Opened o) → holds lay (Opened o) };

    /// Every row of such a run keeps it true.
    ghost stays: { (lay : Layout) (h : History) (r : Row) → IsRun allows lay (r ⊳ h) → holds lay h → holds lay (r ⊳ h) };

    /// How many words a node has in its tables.
    fn node_size() -> usize
        ensures { result ≡ node_size mode };
}

/// A call that asks for one atomic step at a time, and gets what each found.
/// `next(None)` begins it; while it answers `Ask(step)`, the caller makes the step and
/// continues with `next(Some(found))`. It runs under the shape of the layer above. Its
/// conditions are about the call and the history so far, to which rows of other passes
/// may be added between any two of its own steps.
pub trait Machine<S: Shape> {
    /// What a call of it answers.
    type Answer;

    /// It may be called with this result of its last step.
    ghost ready: { Self → Call → History → Option ℕ → Type 0 };

    /// It waits for this step.
    ghost waits: { Self → Call → History → Step → Type 0 };

    /// It has answered, and the answer is right.
    ghost answers: { Self → Call → History → Self.Answer → Type 0 };

    /// The second is the first, further on: what it is a call of has not changed.
    ghost same: { Self → Self → Type 0 };

    /// How many steps it may still ask for, in a run in which no more nodes than these are taken.
    ghost left: { Self → ℕ → ℕ };

    /// What it gets is of such a run.
    ghost fits: { Self → Option ℕ → ℕ → Type 0 };

    /// It never answers in place of its first step.
    ghost asks_first: { Self → Type 0 };

    /// Continues with what the last step found; with nothing at the first call, which may answer at
    /// once. It is not called again after `Done`.
    fn next(&mut self, got: Option<u64>) -> Turn<Self::Answer>
        ensures turn { (c : Call) (h : History) → IsRun S.allows c.layout h → ready self.old c h got
            → MatchTurn result (waits self.new c h) (answers self.new c h) }
        ensures begins { got ≡ None → asks_first self.old → (c : Call) (h : History) →
            ready self.old c h None → MatchTurn result (λ _. Unit {0}) (λ _. ⊥) }
        ensures same { same self.old self.new }
        ensures nearer { (nodes : ℕ) → fits self.old got nodes →
            MatchTurn result (λ _. left self.new nodes < left self.old nodes) (λ _. Unit {0}) };

    /// Rows of others leave it waiting.
    ghost keeps: { (m : Self) (c : Call) (h : History) (s : Step) (r : Row) → IsRun S.allows c.layout (r ⊳ h) → r.pass.0 ≢ c.pass
        → waits m c h s → waits m c (r ⊳ h) s };

    /// The step that it waits for is lawful, on a word
    /// of the table, and begins only what is allowed.
    ghost lawful: { (m : Self) (c : Call) (h : History) (s : Step) → IsRun S.allows c.layout h → waits m c h s → IsRun S.allows c.layout (row_of c s h ⊳ h) };

    /// Once the step is made, it may be called with what that found.
    ghost made: { (m : Self) (c : Call) (h : History) (s : Step) (v : ℕ) → IsRun S.allows c.layout (row_of c s h ⊳ h)
        → IsTold s.access (value h s.word) v → waits m c h s → ready m c (row_of c s h ⊳ h) (Some v) };

    /// What it may get fits the nodes that are taken by then.
    ghost told: { (m : Self) (c : Call) (h : History) (got : Option ℕ) (nodes : ℕ) → IsRun S.allows c.layout h → ready m c h got
        → length (taken_nodes h) ≤ nodes → fits m got nodes };
}
