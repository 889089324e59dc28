//! What a pass keeps between its ordered reads.
ghost use Rattle.std.specs.Prelude.{◌≡◌, []};

use arena::NodeNo;
use order::{RangeRun, Read, ReadRun};
use ordered_map::Pair;
use prims::Snap;
use std::alloc::Global;
use std::mem::swap;

/// Lists for the ordered reads of a pass: each read fills them anew, and they stay as long as they
/// have grown. So a read asks for memory only where none before it needed as much.
#[derive(Drop)]
pub struct Room {
    snaps: Vec<Snap>,
    waiting: Vec<NodeNo>,
    taken: Vec<Pair>,
}

impl Room {
    /// Empty lists, which grow with this allocator.
    pub fn new(alloc: Global) -> Room {
        Room {
            snaps: Vec::new(alloc),
            waiting: Vec::new(alloc),
            taken: Vec::new(alloc),
        }
    }

    /// Gives a run its list of snapshots, which is empty then, for the one that the run has: before
    /// it begins, and once more when it has ended.
    #[inline(always)]
    pub fn exchange<R: Read + Drop>(&mut self, run: &mut ReadRun<R>)
        ensures same { run.new ≡ record run.old { snaps = run.new.snaps } }
        ensures empty { run.new.snaps.items ≡ [] }
    {
        swap(&mut self.snaps, &mut run.snaps);
        run.snaps.clear();
    }

    /// The same with all the lists of a range.
    #[inline(always)]
    pub fn exchange_all(&mut self, run: &mut RangeRun)
        ensures same { run.new ≡ record run.old {
          snaps = run.new.snaps;
          read = record run.old.read {
            waiting = run.new.read.waiting;
            taken = run.new.read.taken;
          };
        } }
        ensures empty { run.new.snaps.items ≡ [] }
    {
        self.exchange(run);
        swap(&mut self.waiting, &mut run.read.waiting);
        swap(&mut self.taken, &mut run.read.taken);
        run.read.waiting.clear();
        run.read.taken.clear();
    }

    /// Keeps the list that a range has answered, if that is longer than its own: one that asks for
    /// no pairs has not filled any.
    #[inline(always)]
    pub fn keep(&mut self, words: Vec<Pair>) {
        if self.taken.capacity() < words.capacity() {
            self.taken = words;
        }
    }
}
