//! The works: what a thread does in each of its rounds.
ghost use Rattle.std.specs.Prelude.{◌≤◌};

use crate::draws::Deal;
use arena::Limits;
use std::fmt;

/// How many keys there are where the words do not say it.
const USUAL_KEYS: u32 = 1_000;

/// And in the works of peers: as many as the maps of others were measured with.
const KEYS_OF_PEERS: u32 = 10_000;

/// What a thread does in each of its rounds.
#[derive(Clone, Copy)]
pub enum Work {
    /// Calls on cells.
    Cells(CellWork),
    /// A call of a dictionary.
    Tree(MapWork),
    /// The same call of one that is a trie.
    Trie(MapWork),
    /// The same call of one that lasts: its passes rest after each 32 rounds.
    Lasting(MapWork),
    /// The same by the draws with which the maps of others were measured.
    Peers(MapWork),
    /// The same call of a map behind a lock, as a measure for the dictionary.
    Locked(MapWork),
    /// A map is made that begins with pairs, in rising order of keys; a round is a pair.
    Load(Loaded),
}

/// What is made of pairs.
#[derive(Clone, Copy)]
pub enum Loaded {
    Tree,
    Trie,
    /// A map behind a lock, into which they are put one after another.
    Locked,
}

/// What a thread does with cells.
#[derive(Clone, Copy)]
pub enum CellWork {
    /// LLX of a cell that no thread changes.
    Llx,
    /// LLX of a cell that no other thread has, and SCX of it.
    Own,
    /// LLX of two cells that no other thread has, and SCX over both.
    Two,
    /// LLX of the one cell that all threads have, and SCX of it.
    Shared,
}

/// What a thread does on a map.
#[derive(Clone, Copy)]
pub enum MapWork {
    /// It looks the key up.
    Get,
    /// In `looks` of a hundred rounds it looks the key up; in one half of the others it puts it in,
    /// and in one half it takes it out.
    Mix { looks: u64 },
    /// It puts the key in.
    Insert,
    /// It puts the key in, if it is not there.
    InsertNew,
    /// It takes the key out.
    Delete,
    /// It takes the key out, if it has the value of the start.
    DeleteIf,
    /// It takes the first pair out.
    Pop,
    /// It takes the last pair out.
    PopLast,
    /// It gives the key the value that it has had from the start once more, if it is there.
    Replace,
    /// It looks for the pair after the key.
    Successor,
    /// It looks for the pair before the key.
    Predecessor,
    /// It looks for the first `most` pairs from the key on.
    Range { most: usize },
    /// It puts a key in after all others, in a map whose keys came in order.
    RiseInsert,
    /// It looks a key up in such a map.
    RiseGet,
    /// It takes the first pair of such a map out, and puts one in after all others.
    Schedule,
}

/// How much of a work may be asked for, and how many calls are measured where none are asked for.
#[derive(Clone, Copy)]
pub struct Bounds {
    /// The most threads.
    pub threads: u32,
    /// The most rounds of a thread.
    pub calls: u32,
    /// The rounds of a thread where none are asked for.
    pub usual_calls: u32,
    /// The keys where none are asked for.
    pub usual_keys: u32,
    ghost some_thread: { 1 ≤ threads },
    ghost passes: { threads ≤ 32 },
    ghost some_call: { 1 ≤ usual_calls },
    ghost within: { usual_calls ≤ calls },
    ghost some_key: { 1 ≤ usual_keys },
    ghost few_keys: { usual_keys ≤ 100000 },
}

impl Bounds {
    /// The same with as many rounds as are asked for.
    fn without_end(self) -> Bounds {
        let Bounds {
            threads,
            calls: _,
            usual_calls,
            usual_keys,
        } = self;
        Bounds {
            threads,
            calls: u32::MAX,
            usual_calls,
            usual_keys,
        }
    }
}

/// One thread makes it. A trie takes two nodes for a pair at most.
const LOAD_BOUNDS: Bounds = Bounds {
    threads: 1,
    calls: 400_000,
    usual_calls: 100_000,
    usual_keys: USUAL_KEYS,
};

impl Work {
    /// Each work once.
    pub const ALL: [Work; 67] = [
        Work::Cells(CellWork::Llx),
        Work::Cells(CellWork::Own),
        Work::Cells(CellWork::Two),
        Work::Cells(CellWork::Shared),
        Work::Tree(MapWork::Get),
        Work::Tree(MapWork::Mix { looks: 90 }),
        Work::Tree(MapWork::Mix { looks: 50 }),
        Work::Tree(MapWork::Mix { looks: 0 }),
        Work::Tree(MapWork::Insert),
        Work::Tree(MapWork::InsertNew),
        Work::Tree(MapWork::Delete),
        Work::Tree(MapWork::DeleteIf),
        Work::Tree(MapWork::Pop),
        Work::Tree(MapWork::PopLast),
        Work::Tree(MapWork::Replace),
        Work::Tree(MapWork::Successor),
        Work::Tree(MapWork::Predecessor),
        Work::Tree(MapWork::Range { most: 1 }),
        Work::Tree(MapWork::Range { most: 4 }),
        Work::Tree(MapWork::Range { most: 16 }),
        Work::Tree(MapWork::Range { most: 64 }),
        Work::Tree(MapWork::RiseInsert),
        Work::Tree(MapWork::RiseGet),
        Work::Tree(MapWork::Schedule),
        Work::Load(Loaded::Tree),
        Work::Trie(MapWork::Get),
        Work::Trie(MapWork::Insert),
        Work::Trie(MapWork::Delete),
        Work::Trie(MapWork::Pop),
        Work::Trie(MapWork::Successor),
        Work::Trie(MapWork::Range { most: 64 }),
        Work::Trie(MapWork::RiseInsert),
        Work::Trie(MapWork::RiseGet),
        Work::Trie(MapWork::Schedule),
        Work::Load(Loaded::Trie),
        Work::Lasting(MapWork::Get),
        Work::Lasting(MapWork::Mix { looks: 50 }),
        Work::Lasting(MapWork::Insert),
        Work::Lasting(MapWork::Delete),
        Work::Lasting(MapWork::Pop),
        Work::Lasting(MapWork::Replace),
        Work::Lasting(MapWork::Successor),
        Work::Lasting(MapWork::Range { most: 64 }),
        Work::Peers(MapWork::Get),
        Work::Peers(MapWork::Mix { looks: 90 }),
        Work::Peers(MapWork::Mix { looks: 50 }),
        Work::Peers(MapWork::Insert),
        Work::Peers(MapWork::Successor),
        Work::Peers(MapWork::Range { most: 64 }),
        Work::Locked(MapWork::Get),
        Work::Locked(MapWork::Mix { looks: 90 }),
        Work::Locked(MapWork::Mix { looks: 50 }),
        Work::Locked(MapWork::Mix { looks: 0 }),
        Work::Locked(MapWork::Insert),
        Work::Locked(MapWork::InsertNew),
        Work::Locked(MapWork::Delete),
        Work::Locked(MapWork::DeleteIf),
        Work::Locked(MapWork::Pop),
        Work::Locked(MapWork::PopLast),
        Work::Locked(MapWork::Replace),
        Work::Locked(MapWork::Successor),
        Work::Locked(MapWork::Predecessor),
        Work::Locked(MapWork::Range { most: 64 }),
        Work::Locked(MapWork::RiseInsert),
        Work::Locked(MapWork::RiseGet),
        Work::Locked(MapWork::Schedule),
        Work::Load(Loaded::Locked),
    ];

    /// The word of the command line that asks for all works of its kind.
    pub fn kind(self) -> &'static str {
        match self {
            Work::Cells(_) => "cells",
            Work::Tree(_) | Work::Load(Loaded::Tree) => "tree",
            Work::Trie(_) | Work::Load(Loaded::Trie) => "trie",
            Work::Lasting(_) => "lasting",
            Work::Peers(_) => "peers",
            Work::Locked(_) | Work::Load(Loaded::Locked) => "mutex",
        }
    }

    /// What the work is done on.
    pub fn structure(self) -> &'static str {
        if self.is_locked() {
            "mutex"
        } else {
            "regnubas"
        }
    }

    /// Whether it is of a map behind a lock.
    fn is_locked(self) -> bool {
        matches!(self, Work::Locked(_) | Work::Load(Loaded::Locked))
    }

    /// What precedes the name of what it does in its own.
    fn prefix(self) -> &'static str {
        match self {
            Work::Trie(_) | Work::Load(Loaded::Trie) => "trie_",
            Work::Lasting(_) => "last_",
            Work::Peers(_) => "peer_",
            Work::Cells(_) | Work::Tree(_) | Work::Locked(_) | Work::Load(_) => "",
        }
    }

    /// The name of what it does.
    fn deed(self) -> &'static str {
        match self {
            Work::Cells(work) => work.name(),
            Work::Tree(work)
            | Work::Trie(work)
            | Work::Lasting(work)
            | Work::Peers(work)
            | Work::Locked(work) => work.name(),
            Work::Load(_) => "load",
        }
    }

    /// Whether a word of the command line asks for it: by its name, but if it is of a map behind a
    /// lock, by its kind, or for all.
    pub fn is_asked_by(self, word: &str) -> bool {
        word == "all"
            || word == self.kind()
            || !self.is_locked() && word.strip_prefix(self.prefix()) == Some(self.deed())
    }

    pub fn bounds(self) -> Bounds {
        match self {
            Work::Cells(work) => work.bounds(),
            Work::Tree(work) | Work::Trie(work) | Work::Locked(work) => work.bounds(USUAL_KEYS),
            Work::Lasting(work) => work.bounds(USUAL_KEYS).without_end(),
            Work::Peers(work) => work.bounds(KEYS_OF_PEERS),
            Work::Load(_) => LOAD_BOUNDS,
        }
    }

    /// How its keys are drawn.
    pub fn deal(self) -> Deal {
        match self {
            Work::Peers(_) => Deal::Halves,
            _ => Deal::Remainders,
        }
    }

    /// What is done, if it is done on a map.
    fn on_map(self) -> Option<MapWork> {
        match self {
            Work::Cells(_) | Work::Load(_) => None,
            Work::Tree(work)
            | Work::Trie(work)
            | Work::Lasting(work)
            | Work::Peers(work)
            | Work::Locked(work) => Some(work),
        }
    }

    /// Whether what its passes have used up comes back.
    pub fn lasts(self) -> bool {
        matches!(self, Work::Lasting(_))
    }

    /// Whether its map has all keys at first, put in in order, and not half of them as drawn.
    pub fn rises(self) -> bool {
        self.puts_behind() || matches!(self.on_map(), Some(MapWork::RiseGet))
    }

    /// Whether its rounds put keys in after all others.
    pub fn puts_behind(self) -> bool {
        matches!(self.on_map(), Some(MapWork::RiseInsert | MapWork::Schedule))
    }
}

/// By its name.
impl fmt::Display for Work {
    fn fmt<W: fmt::Write>(&self, f: &mut fmt::Formatter<W>) -> fmt::Result {
        let (prefix, deed) = (self.prefix(), self.deed());
        write!(f, "{prefix}{deed}")
    }
}

impl CellWork {
    fn name(self) -> &'static str {
        match self {
            CellWork::Llx => "llx",
            CellWork::Own => "own",
            CellWork::Two => "two",
            CellWork::Shared => "shared",
        }
    }

    /// There are eight cells. A round with an SCX takes a node and an SCX-record of the thread's
    /// share.
    fn bounds(self) -> Bounds {
        let (threads, calls, usual_calls) = match self {
            CellWork::Llx => (8, u32::MAX, 1_000_000),
            CellWork::Own => (8, Limits::MOST_RECORDS, 30_000),
            CellWork::Two => (4, Limits::MOST_RECORDS, 30_000),
            CellWork::Shared => (Limits::MOST_PASSES, Limits::MOST_RECORDS, 30_000),
        };
        Bounds {
            threads,
            calls,
            usual_calls,
            usual_keys: USUAL_KEYS,
        }
    }
}

impl MapWork {
    fn name(self) -> &'static str {
        match self {
            MapWork::Get => "get",
            MapWork::Mix { looks } => mix_name(looks),
            MapWork::Insert => "insert",
            MapWork::InsertNew => "insert_new",
            MapWork::Delete => "delete",
            MapWork::DeleteIf => "delete_if",
            MapWork::Pop => "pop",
            MapWork::PopLast => "pop_last",
            MapWork::Replace => "replace",
            MapWork::Successor => "succ",
            MapWork::Predecessor => "pred",
            MapWork::Range { most } => range_name(most),
            MapWork::RiseInsert => "rise_insert",
            MapWork::RiseGet => "rise_get",
            MapWork::Schedule => "schedule",
        }
    }

    /// Whether a number below 100 decides what a round does.
    pub fn goes_by_chance(self) -> bool {
        matches!(self, MapWork::Mix { .. })
    }

    /// An insert takes three nodes at most and another edit one, of the thread's share. There
    /// are 500 pairs to take out if the words do not say how many keys there are. Where keys rise a
    /// tree is a list: so its usual rounds are few.
    fn bounds(self, usual_keys: u32) -> Bounds
        requires some { 1 ≤ usual_keys }
        requires few { usual_keys ≤ 100000 }
    {
        let (calls, usual_calls) = match self {
            MapWork::Get => (u32::MAX, 100_000),
            MapWork::Mix { looks: 90 } => (200_000, 100_000),
            MapWork::Mix { looks: 50 } => (40_000, 20_000),
            MapWork::Mix { .. } => (20_000, 20_000),
            MapWork::Insert | MapWork::InsertNew => (10_000, 10_000),
            MapWork::Delete | MapWork::DeleteIf | MapWork::Pop | MapWork::PopLast => {
                (Limits::MOST_RECORDS, 400)
            }
            MapWork::Replace => (Limits::MOST_RECORDS, 20_000),
            MapWork::Successor | MapWork::Predecessor => (u32::MAX, 20_000),
            MapWork::Range { .. } => (u32::MAX, 2_000),
            MapWork::RiseInsert => (10_000, 1_000),
            MapWork::RiseGet => (u32::MAX, 10_000),
            MapWork::Schedule => (8_000, 2_000),
        };
        Bounds {
            threads: 8,
            calls,
            usual_calls,
            usual_keys,
        }
    }
}

/// The name of a mix with so many looks in a hundred rounds.
fn mix_name(looks: u64) -> &'static str {
    match looks {
        90 => "mix90",
        50 => "mix50",
        _ => "mix0",
    }
}

/// The name of a range of at most so many pairs.
fn range_name(most: usize) -> &'static str {
    match most {
        1 => "range1",
        4 => "range4",
        16 => "range16",
        _ => "range64",
    }
}
