//! Two schedulers' threads: each puts jobs in, and takes the first ones out.
ghost use Rattle.std.specs.Prelude.{◌≡◌};

use super::call::Call::{Insert, PopFirst};
use super::worker::{Out, Worker};
use forest::FilledOnce;

/// How many jobs a thread puts in in a round: so few that its share lasts, with all the tries that
/// it loses to the other.
const JOBS: u64 = 4;

/// In so many of its first rounds it takes none out.
const FILLING: u64 = 50;

/// How many jobs wait once both threads have done so.
pub(super) const WAITING: usize = 2 * (JOBS * FILLING) as usize;

impl<'a, B: FilledOnce> Worker<'a, B> {
    /// Puts a job in, and, once enough wait, takes the first one out: there is one, since no thread
    /// has taken out more than it has put in.
    fn schedule(&mut self, job: u64) -> Out
        ensures { self.new.forest.now ≡ self.old.forest.now }
    {
        let key = job.wrapping_mul(2).wrapping_add(self.number());
        let put = self.add_up(Insert(key, job))??;
        if job < FILLING * JOBS {
            return Some(Some(put));
        }
        let taken = self.add_up(PopFirst)??;
        Some(Some(put.wrapping_add(taken)))
    }

    /// Does so with the jobs of a round.
    pub(super) fn schedule_all(&mut self, round: u64) -> Out
        ensures { self.new.forest.now ≡ self.old.forest.now }
    {
        let mut sum = 0u64;
        for number in 0..JOBS {
            let job = round.wrapping_mul(JOBS).wrapping_add(number);
            sum = sum.wrapping_add(self.schedule(job)??);
        }
        Some(Some(sum))
    }
}
