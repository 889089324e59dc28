//! How rounds ended.
ghost use Rattle.std.specs.Prelude.{◌≡◌, ◌<◌, suc};
ghost use Rattle.bench.specs.Tally.{total};

use std::fmt;

/// How a round ended.
#[derive(Clone, Copy)]
pub enum End {
    /// With what was to be done.
    Done,
    /// With an SCX that another thread's was in the way of, or with a call that was contended.
    Lost,
    /// With no SCX: no LLX gave a snapshot, or the share was used up; or for want of memory.
    Fail,
}

/// How many rounds ended in each way.
#[derive(Clone, Copy, Default)]
pub struct Tally {
    pub done: u64,
    pub lost: u64,
    pub fail: u64,
    /// A number made of all that was answered: another answer changes it.
    pub checksum: u64,
}

impl Tally {
    /// One round more has ended so.
    pub fn count(&mut self, end: End)
        requires { total self.old < u64.MAX }
        ensures { total self.new ≡ suc (total self.old) }
    {
        match end {
            End::Done => self.done += 1,
            End::Lost => self.lost += 1,
            End::Fail => self.fail += 1,
        }
    }

    /// This was answered.
    pub fn tell(&mut self, reply: u64)
        ensures { total self.new ≡ total self.old }
    {
        self.checksum = with_reply(self.checksum, reply);
    }

    /// The rounds of another tally are counted too.
    pub fn add(&mut self, other: Tally) {
        self.done = self.done.saturating_add(other.done);
        self.lost = self.lost.saturating_add(other.lost);
        self.fail = self.fail.saturating_add(other.fail);
        self.checksum = self.checksum.wrapping_add(other.checksum);
    }
}

/// The last fields of a row.
impl fmt::Display for Tally {
    fn fmt<W: fmt::Write>(&self, f: &mut fmt::Formatter<W>) -> fmt::Result {
        let Tally {
            done,
            lost,
            fail,
            checksum,
        } = *self;
        write!(f, "{done},{lost},{fail},{checksum}")
    }
}

/// The checksum once this was answered too.
pub fn with_reply(checksum: u64, reply: u64) -> u64 {
    checksum.wrapping_mul(31).wrapping_add(reply)
}
