//! The cells of a thread.
ghost use Rattle.std.specs.Prelude.{◌≤◌, ◌≢◌};

use crate::work::CellWork;
use arena::NodeNo;

/// The two cells of a thread. Most works take the first alone.
#[derive(Clone, Copy)]
pub struct Pair {
    pub first: NodeNo,
    pub second: NodeNo,
    ghost cells: { (first.0 ≤ 8) × (second.0 ≤ 8) },
    ghost apart: { first.0 ≢ second.0 },
}

impl Pair {
    /// The cells of the thread with this number, of those that do the work. Up to four threads have
    /// own cells that do not lie side by side, and so share no line of the cache.
    pub fn of(work: CellWork, thread: u32) -> Pair {
        let number = u64::from(thread);
        let apart = 1 + 2 * (number % 4);
        let first = match work {
            CellWork::Llx | CellWork::Own => apart + number / 4 % 2,
            CellWork::Two => apart,
            CellWork::Shared => 1,
        };
        Pair {
            first: NodeNo(first),
            second: NodeNo(1 + first % 8),
        }
    }
}
