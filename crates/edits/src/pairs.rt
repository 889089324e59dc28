//! Lists of a few pairs.
ghost use Rattle.std.specs.Prelude.{◌≡◌};
ghost use Rattle.edits.specs.Pairs.{run, moved_on, moved_back, replaced};

use arena::Slot;
use ordered_map::Pair;
use std::marker::Model;

/// The pair of a place after the last.
const BLANK: Pair = Pair { key: 0, value: 0 };

/// Up to five pairs as a plain value, in a row: as many as a leaf holds, and one more. Places
/// after the last are blank. What does not fit any more falls out at the end.
#[derive(Clone, Copy, Debug)]
pub struct Pairs {
    first: Pair,
    second: Pair,
    third: Pair,
    fourth: Pair,
    fifth: Pair,
    count: usize,
}

impl Model for Pairs {
    ghost use Rattle.std.specs.Prelude.{◌≡◌, List};
    ghost use Rattle.ordered_map.specs.declared.pair.Pair.{Pair};
    ghost use Rattle.edits.specs.Laws.PairPlaces.{listed, placed_pairs, placed_back};

    ghost Value = { List Pair };

    ghost view = { listed };

    ghost invariant = { λ s. s ≡ placed_pairs (listed s) };

    ghost inverse = { placed_pairs };

    ghost inverse_ok = { λ s i. placed_back s i };
}

impl Pairs {
    ghost use Rattle.std.specs.Prelude.{nat_lt, ◌≡◌, ℕ, ◌+◌, ◌-◌, ◌<◌, ◌≤◌, List, [], ◌∷◌, ◌++◌, length, take, drop, slice_set, unwrap_or};
    ghost use Rattle.std.specs.List.{remove};
    ghost use Rattle.arena.specs.Words.{slot_no};
    ghost use Rattle.ordered_map.specs.OrderedMap.{pair, insert, delete, last_pair};
    ghost use Rattle.edits.specs.Pairs.{pair_at, below, before, has_at};

    /// None.
    #[inline(always)]
    pub fn new() -> Pairs
        ensures { result ≡ [] }
    {
        Pairs {
            first: BLANK,
            second: BLANK,
            third: BLANK,
            fourth: BLANK,
            fifth: BLANK,
            count: 0,
        }
    }

    /// This one alone.
    #[inline(always)]
    pub fn one(pair: Pair) -> Pairs
        ensures { result ≡ pair ∷ [] }
    {
        Pairs {
            first: pair,
            second: BLANK,
            third: BLANK,
            fourth: BLANK,
            fifth: BLANK,
            count: 1,
        }
    }

    /// Takes all away.
    #[inline(always)]
    pub fn clear(&mut self)
        ensures { self.new ≡ [] }
    {
        if self.count != 0 {
            *self = Pairs::new();
        }
    }

    /// How many there are.
    #[inline(always)]
    pub fn len(&self) -> usize
        ensures length { result ≡ length self.now }
        ensures few { length self.now ≤ 5 }
    {
        self.count
    }

    /// How many there are after the first.
    #[inline(always)]
    pub fn more(&self) -> u64
        ensures { result ≡ length self.now - 1 }
    {
        self.count.saturating_sub(1) as u64
    }

    /// Whether there is one in this slot.
    #[inline(always)]
    pub fn has(&self, slot: Slot) -> bool
        ensures { result ≡ nat_lt (slot_no slot) (length self.now) }
    {
        match slot {
            Slot::First => 0 < self.count,
            Slot::Second => 1 < self.count,
            Slot::Third => 2 < self.count,
            Slot::Fourth => 3 < self.count,
        }
    }

    /// The pair in this slot, which is blank after the last.
    #[inline(always)]
    pub fn at(&self, slot: Slot) -> Pair
        ensures { result ≡ pair_at self.now (slot_no slot) }
    {
        match slot {
            Slot::First => self.first,
            Slot::Second => self.second,
            Slot::Third => self.third,
            Slot::Fourth => self.fourth,
        }
    }

    /// One more after the last, if that fits. The slot is a guess where that is: a right one
    /// spares the search.
    #[inline(always)]
    pub fn push(&mut self, slot: Slot, pair: Pair)
        ensures { self.new ≡ take 5 (self.old ++ pair ∷ []) }
    {
        match (slot, self.count) {
            (Slot::First, 0) => self.first = pair,
            (Slot::Second, 1) => self.second = pair,
            (Slot::Third, 2) => self.third = pair,
            (Slot::Fourth, 3) => self.fourth = pair,
            _ => return self.push_anywhere(by_parts(pair)),
        }
        self.count += 1;
    }

    /// The same without a guess. Out of line, so that a right guess costs one comparison.
    #[cold]
    #[inline(never)]
    fn push_anywhere(&mut self, pair: Pair)
        ensures { self.new ≡ take 5 (self.old ++ pair ∷ []) }
    {
        match self.count {
            0 => self.first = pair,
            1 => self.second = pair,
            2 => self.third = pair,
            3 => self.fourth = pair,
            4 => self.fifth = pair,
            _ => return,
        }
        self.count += 1;
    }

    /// The same with this key at this value, where keys rise.
    #[inline(always)]
    pub fn insert(self, key: u64, value: u128) -> Pairs
        ensures { result ≡ take 5 (insert key value self) }
    {
        // A pair in place of another one fits, since there are five at most.
        let _ = &self.count;
        let at = self.below(key);
        let pair = Pair { key, value };
        if self.has_at(at, key) {
            self.set(at, pair)
        } else {
            self.put(at, pair)
        }
    }

    /// The same without this key.
    #[inline(always)]
    pub fn delete(self, key: u64) -> Pairs
        ensures { result ≡ delete key self }
    {
        // An arm for each place, in which the compiler knows what moves back.
        if self.has_at(0, key) {
            return self.without(0);
        }
        if self.has_at(1, key) {
            return self.without(1);
        }
        if self.has_at(2, key) {
            return self.without(2);
        }
        if self.has_at(3, key) {
            return self.without(3);
        }
        let at = self.before(key);
        self.without(at)
    }

    /// The first two.
    #[inline(always)]
    pub fn first_two(self) -> Pairs
        ensures { result ≡ take 2 self }
    {
        Pairs {
            first: self.first,
            second: self.second,
            third: BLANK,
            fourth: BLANK,
            fifth: BLANK,
            count: self.count.min(2),
        }
    }

    /// Those after the first two.
    #[inline(always)]
    pub fn behind_two(self) -> Pairs
        ensures { result ≡ drop 2 self }
    {
        Pairs {
            first: self.third,
            second: self.fourth,
            third: self.fifth,
            fourth: BLANK,
            fifth: BLANK,
            count: self.count.saturating_sub(2),
        }
    }

    /// Those in front with a key below this one.
    #[inline(always)]
    pub fn keep_below(self, key: u64) -> Pairs
        ensures { result ≡ take (below key self) self }
    {
        let at = self.below(key);
        Pairs {
            first: moved_back(at, 0, self.first, BLANK),
            second: moved_back(at, 1, self.second, BLANK),
            third: moved_back(at, 2, self.third, BLANK),
            fourth: moved_back(at, 3, self.fourth, BLANK),
            fifth: moved_back(at, 4, self.fifth, BLANK),
            count: at,
        }
    }

    /// The others.
    #[inline(always)]
    pub fn keep_from(self, key: u64) -> Pairs
        ensures { result ≡ drop (below key self) self }
    {
        let at = self.below(key);
        Pairs {
            first: self.place(at),
            second: self.place(at + 1),
            third: self.place(at + 2),
            fourth: self.place(at + 3),
            fifth: self.place(at + 4),
            count: self.count.saturating_sub(at),
        }
    }

    /// The last one, which is blank if there is none.
    #[inline(always)]
    pub fn last(&self) -> Pair
        ensures { result ≡ unwrap_or (last_pair self.now) (pair 0 0) }
    {
        self.place(self.len().saturating_sub(1))
    }

    /// The pair at this place, which is blank after the last.
    #[inline(always)]
    fn place(&self, at: usize) -> Pair
        ensures { result ≡ pair_at self.now at }
    {
        match at {
            0 => self.first,
            1 => self.second,
            2 => self.third,
            3 => self.fourth,
            4 => self.fifth,
            _ => BLANK,
        }
    }

    /// Whether this place has the key.
    #[inline(always)]
    fn has_at(&self, at: usize, key: u64) -> bool
        ensures { result ≡ has_at key at self.now }
    {
        if at < self.len() {
            self.place(at).key == key
        } else {
            false
        }
    }

    /// How many in front have a key below this one.
    #[inline(always)]
    fn below(&self, key: u64) -> usize
        ensures is { result ≡ below key self.now }
        ensures few { result ≤ 5 }
    {
        run(
            self.first.key < key,
            self.second.key < key,
            self.third.key < key,
            self.fourth.key < key,
            self.fifth.key < key,
        )
        .min(self.count)
    }

    /// How many in front have another key than this one.
    #[inline(always)]
    fn before(&self, key: u64) -> usize
        ensures { result ≡ before key self.now }
    {
        run(
            self.first.key != key,
            self.second.key != key,
            self.third.key != key,
            self.fourth.key != key,
            self.fifth.key != key,
        )
        .min(self.count)
    }

    /// The same with a pair more at this place, where those after it move on.
    #[inline(always)]
    fn put(self, at: usize, pair: Pair) -> Pairs
        requires { at ≤ length self }
        ensures { result ≡ take 5 (take at self ++ pair ∷ drop at self) }
    {
        Pairs {
            first: moved_on(at, 0, self.first, pair, BLANK),
            second: moved_on(at, 1, self.second, pair, self.first),
            third: moved_on(at, 2, self.third, pair, self.second),
            fourth: moved_on(at, 3, self.fourth, pair, self.third),
            fifth: moved_on(at, 4, self.fifth, pair, self.fourth),
            count: (self.count + 1).min(5),
        }
    }

    /// The same with a pair in place of that at this place.
    #[inline(always)]
    fn set(self, at: usize, pair: Pair) -> Pairs
        requires { at < length self }
        ensures { result ≡ slice_set self at pair }
    {
        Pairs {
            first: replaced(at, 0, self.first, pair),
            second: replaced(at, 1, self.second, pair),
            third: replaced(at, 2, self.third, pair),
            fourth: replaced(at, 3, self.fourth, pair),
            fifth: replaced(at, 4, self.fifth, pair),
            count: self.count,
        }
    }

    /// The same without the pair at this place, where those after it move back.
    #[inline(always)]
    fn without(self, at: usize) -> Pairs
        requires { at ≤ length self }
        ensures { result ≡ remove self at }
    {
        Pairs {
            first: moved_back(at, 0, self.first, self.second),
            second: moved_back(at, 1, self.second, self.third),
            third: moved_back(at, 2, self.third, self.fourth),
            fourth: moved_back(at, 3, self.fourth, self.fifth),
            fifth: moved_back(at, 4, self.fifth, BLANK),
            count: if at < self.count {
                self.count - 1
            } else {
                self.count
            },
        }
    }
}

/// How many of these hold in front of the first that does not.
#[inline(always)]
fn run(a: bool, b: bool, c: bool, d: bool, e: bool) -> usize
    ensures { result ≡ run a b c d e }
{
    if !a {
        0
    } else if !b {
        1
    } else if !c {
        2
    } else if !d {
        3
    } else if !e {
        4
    } else {
        5
    }
}

/// The same pair, made from its parts. Copied as a whole it would take the bytes between them
/// along.
#[inline(always)]
fn by_parts(pair: Pair) -> Pair
    ensures { result ≡ pair }
{
    Pair {
        key: pair.key,
        value: pair.value,
    }
}

/// What is at a place when a new pair is put at the place `at`, before which `last` is.
#[inline(always)]
fn moved_on(at: usize, place: usize, here: Pair, new: Pair, last: Pair) -> Pair
    ensures { result ≡ moved_on at place here new last }
{
    by_parts(if place < at {
        here
    } else if place == at {
        new
    } else {
        last
    })
}

/// What is at a place when the pair at the place `at` is taken out.
#[inline(always)]
fn moved_back(at: usize, place: usize, here: Pair, next: Pair) -> Pair
    ensures { result ≡ moved_back at place here next }
{
    by_parts(if place < at { here } else { next })
}

/// What is at a place when a pair is put in place of that at the place `at`.
#[inline(always)]
fn replaced(at: usize, place: usize, here: Pair, new: Pair) -> Pair
    ensures { result ≡ replaced at place here new }
{
    by_parts(if place == at { new } else { here })
}
