//! The machine of a call of the map, in words.
ghost use Rattle.std.specs.Prelude.{◌≡◌, ◌<◌, ◌≤◌, ℕ, None, IsSome};
ghost use Rattle.arena.specs.History.{History};
ghost use Rattle.arena.specs.Machines.{Call, IsRun, MatchTurn};
ghost use Rattle.ordered_map.specs.TreeShape.{TreeAllows};
ghost use Rattle.dict.specs.Calls.{KeepsEnd, KeepsTriesButOne, call_in, share_of, trie_in};
ghost use Rattle.template.specs.Balance.{nodes_by};
ghost use Rattle.dict.specs.Known.{AsksFirst, IsUnbegun, MapIsReady, MapWaits};
ghost use Rattle.dict.specs.Says.{KeepsLists};
ghost use Rattle.ordered_map.specs.CallRules.{most_steps};
ghost use Rattle.dict.specs.Steps.{map_left, MapFits, HasComeNearer};
ghost use Rattle.dict.specs.Translated.{IsReplyOf, MapReplies};
ghost use Rattle.dict.specs.WordReplies.{edit_reply};
ghost use Rattle.ordered_map.specs.Requests.{as_map_call};

use crate::key::WordKey;
use crate::told::{of_neighbour, of_range, of_update, of_value};
use crate::value::WordValue;
use arena::{Machine, Share, Side, Turn};
use edits::Updated;
use order::{Neighbour, NeighbourRun, Range, RangeRun, leaf_way};
use ordered_map::{Goal, Reply, Request, Rule};
use std::alloc::Global;
use template::{Tree, WalkRun};
use tree::{GoalIn, KeyEdit, KeyEditRun};

/// A call that has begun. It has its pass's share until it has answered; a read takes nothing
/// of it.
#[derive(Debug, Drop)]
pub enum MapRun {
    Edit(KeyEditRun<GoalIn<Goal, bool>, Rule>),
    Get {
        key: u64,
        walk: WalkRun,
        share: Share,
    },
    Neighbour {
        run: NeighbourRun,
        share: Share,
    },
    Range {
        run: RangeRun,
        share: Share,
    },
}

impl MapRun {
    /// A call of a trie, or of a tree, that has not begun, with `tries` tries, in the caller's call of
    /// this number. What it keeps grows with this allocator.
    #[inline(always)]
    pub fn new(
        alloc: Option<Global>,
        request: Request<u64, u128>,
        share: Share,
        tries: u32,
        call: u64,
        trie: bool,
    ) -> MapRun
        requires memory { KeepsLists (as_map_call (λ k. k) (λ v. v) request) → IsSome alloc }
        ensures call { call_in result ≡ as_map_call (λ k. k) (λ v. v) request }
        ensures share { share_of result ≡ share }
        ensures trie { trie_in result ≡ trie }
        ensures fresh { 0 < tries → IsUnbegun result tries call }
        ensures steps { (nodes : ℕ) → 0 < tries →
            map_left result nodes ≤ most_steps (call_in result) tries (nodes_by trie nodes) }
    {
        match (request.edit(), request, alloc) {
            (Some((goal, rule)), _, _) => {
                let goal = GoalIn {
                    goal,
                    balance: trie,
                };
                MapRun::Edit(KeyEdit { goal, rule }.run(share, tries, call))
            }
            (_, Request::Get { key }, _) => MapRun::Get {
                key,
                walk: WalkRun::by(leaf_way(trie), Goal::Key(key)),
                share,
            },
            (_, Request::Successor { key }, Some(alloc)) => MapRun::Neighbour {
                run: Neighbour::run(alloc, key, Side::Right, tries, trie),
                share,
            },
            (_, Request::Predecessor { key }, Some(alloc)) => MapRun::Neighbour {
                run: Neighbour::run(alloc, key, Side::Left, tries, trie),
                share,
            },
            (_, Request::Range { low, high, most }, Some(alloc)) => MapRun::Range {
                run: Range::run(alloc, low, high, most as usize, tries, trie),
                share,
            },
            _ => unreachable!(),
        }
    }

    /// Continues with what the last step found, as the machine inside.
    pub(crate) fn next<K: WordKey, V: WordValue>(&mut self, got: Option<u64>) -> Turn<Reply<K, V>>
        ensures turn { (tries : ℕ) (c : Call) (h : History) → IsRun TreeAllows c.layout h → MapIsReady tries self.old c h got
            → MatchTurn result (MapWaits tries self.new c h)
            (MapReplies K.is_valid K.word_of V.is_valid V.word_of tries self.new c h) }
        ensures begins { got ≡ None → AsksFirst self.old → (tries : ℕ) (c : Call) (h : History) →
            MapIsReady tries self.old c h None
            → MatchTurn result (λ _. Unit {0}) (λ _. ⊥) }
        ensures same { call_in self.new ≡ call_in self.old }
        ensures trie { trie_in self.new ≡ trie_in self.old }
        ensures tries { KeepsTriesButOne self.old self.new }
        ensures end { KeepsEnd self.old self.new }
        ensures nearer { (nodes : ℕ) → MapFits self.old got nodes → HasComeNearer self.old self.new nodes result }
    {
        match self {
            MapRun::Edit(run) => match run.step(got) {
                Turn::Ask(step) => Turn::Ask(step),
                Turn::Done(updated) => Turn::Done(of_edit(run.edit.goal.goal, updated)),
            },
            MapRun::Get {
                key: _,
                walk,
                share: _,
            } => match Machine::<Tree>::next(walk, got) {
                Turn::Ask(step) => Turn::Ask(step),
                Turn::Done(found) => Turn::Done(of_value(found.value)),
            },
            MapRun::Neighbour { run, share: _ } => match run.step(got) {
                Turn::Ask(step) => Turn::Ask(step),
                Turn::Done(told) => Turn::Done(of_neighbour(told)),
            },
            MapRun::Range { run, share: _ } => match run.step(got) {
                Turn::Ask(step) => Turn::Ask(step),
                Turn::Done(told) => Turn::Done(of_range(run.read.alloc, told)),
            },
        }
    }

    /// Gives the share back.
    #[inline(always)]
    pub fn into_share(self) -> Share
        ensures { result ≡ share_of self }
    {
        match self {
            MapRun::Edit(run) => run.into_share(),
            MapRun::Get {
                key: _,
                walk: _,
                share,
            } => share,
            MapRun::Neighbour { run, share } => {
                drop(run);
                share
            }
            MapRun::Range { run, share } => {
                drop(run);
                share
            }
        }
    }
}

/// What an edit replies of what its update has answered. Out of line, so that a machine does not
/// pay for its locals at each step.
#[inline(never)]
fn of_edit<K: WordKey, V: WordValue>(goal: Goal, updated: Updated) -> Reply<K, V>
    ensures { IsReplyOf K.is_valid K.word_of V.is_valid V.word_of (edit_reply goal updated) result }
{
    of_update(goal, updated)
}
