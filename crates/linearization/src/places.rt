//! The changes of a run's map, each with the one of its key before it.
ghost use Rattle.std.specs.Prelude.{◌≡◌, ℕ, None, reverse, unwrap_or, ◌≢◌, suc, ◌+◌, ◌≤◌, false, List, [], ◌∷◌, ◌++◌, Some, map, IfOk, IfSome, IfNone, IsTrue, OnOk, All};
ghost use Rattle.std.specs.Ordering.{nat_cmp};
ghost use Rattle.std.specs.BTreeMap.{get as get_newest};
ghost use Rattle.linearization.specs.Links.{latest, AreLinkedByKey, newest_value};
ghost use Rattle.record.specs.MapRecord.{map_at, map_call, number_pairs};

use crate::changed::changed_key;
use crate::ordered::{behind, bounds, is_unlike, most_told, next_best, pairs_told};
use arena::NoMemory;
use ordered_map::{Reply, Request};
use script::{Call, Command};
use std::alloc::Global;
use std::collections::BTreeMap;

/// In this turn the key has got this value; none where it was taken out of the map.
#[derive(Clone, Copy, Debug, PartialEq, Eq)]
pub struct Change {
    pub turn: u64,
    pub key: u64,
    pub value: Option<u128>,
}

/// A change, and where in the list the one before it of the same key is.
#[derive(Clone, Copy, Debug, PartialEq, Eq)]
struct Place {
    change: Change,
    before: Option<usize>,
}

/// The changes of a run's map, in order, and where the newest of each key is.
#[derive(Drop)]
pub struct Places {
    list: Vec<Place>,
    newest: BTreeMap<u64, Option<usize>>,
    ghost linked: { AreLinkedByKey (reverse list.items) },
    ghost newest_are: { (key : ℕ) → unwrap_or (get_newest nat_cmp newest key) None ≡ latest key (reverse list.items) },
}

impl Places {
    ghost use Rattle.script.specs.declared.call.Call.{Call};
    ghost use Rattle.record.specs.declared.record.Line.{Line};
    ghost use Rattle.record.specs.Placed.{IsGreatestTurn};
    ghost use Rattle.ordered_map.specs.declared.pair.Pair.{Pair};
    ghost use Rattle.ordered_map.specs.OrderedMap.{MapCall, first_pair, get, reply as replies_on};
    ghost use Rattle.ordered_map.specs.Replies.{number_reply};
    ghost use Rattle.linearization.specs.Ordered.{IsOrderedRead, FallFrom, AreReadPairs};
    ghost use Rattle.linearization.specs.declared.places.Place.{Place};
    ghost use Rattle.linearization.specs.Places.{changes, room_for_changes, Knows, HoldsOfKey};
    ghost use Rattle.linearization.specs.Entries.{AreEntries, HadWithin, HadFirstWithin};

    /// No changes yet; of the keys that these calls may change. The only error is want of memory.
    pub fn new(alloc: Global, calls: &[Call]) -> Result<Places, NoMemory>
        ensures none { IfOk result (λ p. changes p ≡ []) }
        ensures keys { IfOk result (λ p. All (λ call. HoldsOfKey (Knows p) call.command) calls.now) }
    {
        let mut newest = BTreeMap::new(alloc);
        for call in calls {
            if let Some(key) = changed_key(call.command) {
                newest.insert(key, None)?;
            }
        }
        Ok(Places {
            list: Vec::new(alloc),
            newest,
        })
    }

    /// Makes room for one change more. It changes none.
    pub fn reserve(&mut self) -> Result<(), NoMemory>
        ensures room { OnOk result (1 ≤ room_for_changes self.new) }
        ensures same { changes self.new ≡ changes self.old }
        ensures keys { (key : ℕ) → Knows self.old key → Knows self.new key }
    {
        self.list.reserve(1)?;
        Ok(())
    }

    /// Whether a change of this key may be pushed: some call names it.
    pub fn knows(&self, key: u64) -> bool
        ensures { IsTrue result → Knows self.now key }
    {
        self.newest.contains_key(&key)
    }

    /// One change more, of a key that was known from the start.
    pub fn push(&mut self, change: Change)
        requires room { 1 ≤ room_for_changes self.old }
        requires key { Knows self.old change.key }
        ensures room { room_for_changes self.new + 1 ≡ room_for_changes self.old }
        ensures change { changes self.new ≡ change ∷ changes self.old }
        ensures keys { (key : ℕ) → Knows self.old key → Knows self.new key }
    {
        let at = self.list.len();
        if let Ok(before) = self.newest.insert(change.key, Some(at)) {
            self.list.push_reserved(Place {
                change,
                before: before.unwrap_or(None),
            });
        }
    }

    /// The greatest turn from `first` to `last` after which the key has this value; none has one.
    pub fn latest(&self, key: u64, value: Option<u128>, first: u64, last: u64) -> Option<u64>
        requires { first ≤ last }
        ensures found { (calls : List Call) (lines : List Line) → AreEntries calls lines (changes self.now) → IfSome result
            (λ m. IsGreatestTurn (λ n. get key (map_at calls lines n) ≡ value) first last m) }
        ensures none { (calls : List Call) (lines : List Line) → AreEntries calls lines (changes self.now) →
            IfNone result ((n : ℕ) → first ≤ n → n ≤ last → get key (map_at calls lines n) ≢ value) }
    {
        let mut until = last;
        let mut at = self.newest_of(key);
        while let Some(i) = at {
            let place = self.list[i];
            if place.change.turn <= until && place.change.value == value {
                return Some(until);
            }
            if place.change.turn <= first {
                return None;
            }
            until = until.min(place.change.turn - 1);
            at = place.before;
        }
        if value.is_none() { Some(until) } else { None }
    }

    /// Whether the key had a value, whatever it was, after some turn from `first` to `last`. It
    /// goes back over the changes of this key alone.
    pub fn had_some(&self, key: u64, first: u64, last: u64) -> bool
        requires { first ≤ last }
        ensures found { (calls : List Call) (lines : List Line) → AreEntries calls lines (changes self.now) → IsTrue result →
            (v : ℕ) × HadWithin calls lines key (Some v) first last }
        ensures none { (calls : List Call) (lines : List Line) → AreEntries calls lines (changes self.now) → result ≡ false →
            (v n : ℕ) → first ≤ n → n ≤ last → get key (map_at calls lines n) ≢ Some v }
    {
        let mut turn = last;
        let mut at = self.newest_of(key);
        while let Some(i) = at {
            let place = self.list[i];
            if place.change.turn <= turn && place.change.value.is_some() {
                return true;
            }
            if place.change.turn <= first {
                return false;
            }
            turn = turn.min(place.change.turn - 1);
            at = place.before;
        }
        false
    }

    /// Whether the map had a pair after some turn from `first` to `last`. It goes over the keys,
    /// and back over the changes of each.
    pub fn had_pair(&self, first: u64, last: u64) -> bool
        requires { first ≤ last }
        ensures found { (calls : List Call) (lines : List Line) → AreEntries calls lines (changes self.now) → IsTrue result →
            (p : Pair) × HadFirstWithin calls lines (Some p) first last }
        ensures none { (calls : List Call) (lines : List Line) → AreEntries calls lines (changes self.now) → result ≡ false →
            (n : ℕ) → first ≤ n → n ≤ last → first_pair (map_at calls lines n) ≡ None }
    {
        for (key, _) in self
            .newest
            .range(bounds(&Command::Map(Request::PopFirst), &[]))
        {
            if self.had_some(*key, first, last) {
                return true;
            }
        }
        false
    }

    /// Whether these pairs are what an ordered read answers of the map after a turn. It visits the
    /// keys between which the read looks alone, and no further than the read answers.
    pub fn tells(&self, command: &Command, pairs: &[(u64, u128)], turn: u64) -> bool
        ensures told { (calls : List Call) (lines : List Line) → AreEntries calls lines (changes self.now) → IsTrue result →
            AreReadPairs command.now (number_pairs pairs.now) (map_at calls lines turn) }
        ensures other { (calls : List Call) (lines : List Line) → AreEntries calls lines (changes self.now) → result ≡ false →
            ¬ AreReadPairs command.now (number_pairs pairs.now) (map_at calls lines turn) }
    {
        let mut untold = most_told(command);
        let mut rest = pairs;
        for (key, newest) in self.newest.range(bounds(command, pairs)) {
            if untold == 0 {
                return rest.is_empty();
            }
            if let Some(value) = self.value_from(*newest, turn) {
                let Some(others) = behind(rest, *key, value) else {
                    return false;
                };
                untold -= 1;
                rest = others;
            }
        }
        rest.is_empty()
    }

    /// The value after a turn of the key whose newest change is here.
    fn value_from(&self, newest: Option<usize>, turn: u64) -> Option<u128>
        requires { (key : ℕ) × (newest ≡ latest key (reverse self.now.list.items)) }
        ensures { (key : ℕ) (calls : List Call) (lines : List Line) → newest ≡ latest key (reverse self.now.list.items) →
            AreEntries calls lines (changes self.now) → result ≡ get key (map_at calls lines turn) }
    {
        let mut at = newest;
        while let Some(i) = at {
            let place = self.list[i];
            if place.change.turn <= turn {
                return place.change.value;
            }
            at = place.before;
        }
        None
    }

    /// The greatest turn from `first` to `last` after which the map replies to an ordered read what
    /// this reply says, if there is one.
    pub fn latest_reply(
        &self,
        command: &Command,
        reply: &Reply<u64, u128>,
        first: u64,
        last: u64,
    ) -> u64
        ensures within { first ≤ last → FallFrom (suc last) (changes self.now) → (first ≤ result) ×
            (result ≤ last) }
        ensures greatest { (calls : List Call) (lines : List Line) (call : MapCall) (n : ℕ) →
            AreEntries calls lines (changes self.now) → FallFrom (suc last) (changes self.now) →
            IsOrderedRead command.now → map_call (Some command.now) ≡ Some call → first ≤ n → n ≤ last →
            number_reply reply.now ≡ Some (replies_on call (map_at calls lines n)) → IsGreatestTurn
            (λ m. number_reply reply.now ≡ Some (replies_on call (map_at calls lines m))) first last result }
    {
        self.latest_with_pairs(command, pairs_told(reply), first, last)
    }

    /// The same by the pairs that are answered: the best turn, after which the fewest keys are not
    /// so, and of these the greatest. It goes back from change to change.
    fn latest_with_pairs(
        &self,
        command: &Command,
        pairs: &[(u64, u128)],
        first: u64,
        last: u64,
    ) -> u64
        ensures within { first ≤ last → FallFrom (suc last) (changes self.now) → (first ≤ result) ×
            (result ≤ last) }
        ensures greatest { (calls : List Call) (lines : List Line) (n : ℕ) → AreEntries calls lines (changes self.now) →
            FallFrom (suc last) (changes self.now) → first ≤ n → n ≤ last →
            AreReadPairs command.now (number_pairs pairs.now) (map_at calls lines n) → IsGreatestTurn
            (λ m. AreReadPairs command.now (number_pairs pairs.now) (map_at calls lines m)) first last result }
    {
        let mut best = last;
        let mut more = 0;
        let mut left = self.list.len();
        while left > 0 {
            let place = self.list[left - 1];
            if place.change.turn <= first {
                return best;
            }
            let Change { turn, key, value } = place.change;
            let was = is_unlike(command, pairs, key, self.value_at(place.before));
            let is = is_unlike(command, pairs, key, value);
            (best, more) = next_best(was, is, turn - 1, best, more);
            left -= 1;
        }
        best
    }

    /// The value that the change at a place has left to its key; none where there is no place.
    fn value_at(&self, at: Option<usize>) -> Option<u128>
        ensures { (key : ℕ) (newer older : List Place) → reverse self.now.list.items ≡ newer ++ older →
            at ≡ latest key older → result ≡ newest_value key (map (λ (q : Place). q.change) older) }
    {
        let place = self.list.get(at?)?;
        place.change.value
    }

    /// Where the newest change of a key is.
    fn newest_of(&self, key: u64) -> Option<usize>
        ensures { result ≡ latest key (reverse self.now.list.items) }
    {
        self.newest.get(&key).copied().unwrap_or(None)
    }
}
