//! When a job is due: a key of two numbers.
ghost use Rattle.scheduler.specs.Laws.DueOrder.{IsDue, due_word, due_fits, due_exact, due_ordered};

use regnubas::WordKey;

/// When a job is due, and which job it is. The earlier comes first, and of two at one time the one
/// of the lower number.
#[derive(Clone, Copy, Debug, PartialEq, Eq, PartialOrd, Ord)]
pub struct Due {
    /// When it is due.
    pub at: u32,
    /// The number of the job.
    pub job: u32,
}

/// The time is the upper half of its word, and the job the lower.
impl WordKey for Due {
    ghost is_valid = { IsDue };

    ghost word_of = { due_word };

    fn word(&self) -> u64 {
        let due = *self;
        u64::from(due.at) * 4294967296 + u64::from(due.job)
    }

    fn valid(&self) {
        let (_at, _job) = (self.at, self.job);
    }

    fn from_word(word: u64) -> Option<Due> {
        let at = (word / 4294967296) as u32;
        let job = (word % 4294967296) as u32;
        Some(Due { at, job })
    }

    ghost fits = { due_fits };

    ghost exact = { due_exact };

    ghost ordered = { due_ordered };
}
