//! What is to be measured.
ghost use Rattle.std.specs.Prelude.{◌≤◌};

use crate::draws::Draws;
use crate::keys::Keys;
use crate::work::Work;
use arena::Limits;
use std::fmt;

/// How many pairs a pass puts into a map before the threads start.
const PAIRS_OF_A_PASS: u32 = 10_000;

/// A work: what `threads` threads do in `calls` rounds each, in `times` forests one after another.
#[derive(Clone, Copy)]
pub struct Task {
    /// What a thread does in each round.
    pub work: Work,
    /// How many threads work at once: 1 to 32.
    pub threads: u32,
    /// How many rounds each of them makes.
    pub calls: u32,
    /// How many forests are made and timed. With 0 there is one, and no time is reported.
    pub times: u32,
    /// How many keys there are; a map has half of them at the start, or all.
    pub keys: u32,
    ghost some_thread: { 1 ≤ threads },
    ghost passes: { threads ≤ 32 },
    ghost some_call: { 1 ≤ calls },
    ghost some_key: { 1 ≤ keys },
}

impl Task {
    /// How many pairs the map has at the start.
    pub fn pairs(self) -> u32 {
        if self.work.rises() {
            self.keys
        } else {
            self.keys / 2
        }
    }

    /// How many nodes, and how many SCX-records, a pass has: whole shares, or where they come back
    /// ten times as many as there are pairs.
    pub fn share(self) -> u32 {
        if self.work.lasts() {
            self.pairs()
                .saturating_mul(10)
                .clamp(64, Limits::MOST_RECORDS)
        } else {
            Limits::MOST_RECORDS
        }
    }

    /// How many passes put them in.
    pub fn fillers(self) -> u32 {
        self.pairs().div_ceil(PAIRS_OF_A_PASS)
    }

    /// How many pairs a pass puts in, where that many are left.
    pub fn pairs_of_filler(self, left: u32) -> u32
        ensures { result ≤ left }
    {
        left.min(PAIRS_OF_A_PASS)
    }

    /// The keys that the pass with this number, of those that fill the map, puts in.
    pub fn keys_of_filler(self, filler: u32) -> Keys {
        if self.work.rises() {
            let next = u64::from(filler) * u64::from(PAIRS_OF_A_PASS);
            Keys::Rising { next, apart: 1 }
        } else {
            Keys::Drawn(Draws::of(filler, self.work.deal()))
        }
    }

    /// The keys of the rounds of the thread with this number.
    pub fn keys_of_thread(self, thread: u32) -> Keys {
        if self.work.puts_behind() {
            let next = u64::from(self.keys) + u64::from(thread);
            let apart = self.threads;
            Keys::Rising { next, apart }
        } else {
            Keys::Drawn(Draws::of_thread(thread, self.work.deal()))
        }
    }
}

/// The fields of a row that say what is measured. For cells 0 keys are reported, for a load as many
/// as it has pairs.
impl fmt::Display for Task {
    fn fmt<W: fmt::Write>(&self, f: &mut fmt::Formatter<W>) -> fmt::Result {
        let (work, threads, calls, times) = (self.work, self.threads, self.calls, self.times);
        let keys = match self.work {
            Work::Cells(_) => 0,
            Work::Load(_) => self.calls,
            Work::Tree(_) | Work::Trie(_) | Work::Lasting(_) | Work::Peers(_) | Work::Locked(_) =>
                self.keys,
        };
        write!(f, "{work},{keys},{threads},{calls},{times}")
    }
}
