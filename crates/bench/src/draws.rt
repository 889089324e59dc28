//! Random numbers.
ghost use Rattle.std.specs.Prelude.{◌<◌};

use arena::Limits;

/// The seed of stream 0.
const SEED: u64 = 88_172_645_463_325_252;

/// By this the seeds of two streams that follow each other differ.
const APART: u64 = 11_400_714_819_323_198_485;

/// How keys, and chances of a hundred, come out of random words.
#[derive(Clone, Copy)]
pub enum Deal {
    /// By the remainder of a word each.
    Remainders,
    /// Both by the halves of one word: so the maps of others were measured.
    Halves,
}

/// Marsaglia's xorshift of 64 bits, by 13, 7 and 17: the same numbers for the same stream.
#[derive(Clone, Copy)]
pub struct Draws {
    word: u64,
    deal: Deal,
}

impl Draws {
    /// Those that fill a map.
    pub fn of(stream: u32, deal: Deal) -> Draws {
        Draws {
            word: SEED ^ u64::from(stream).wrapping_mul(APART),
            deal,
        }
    }

    /// Those of a thread.
    pub fn of_thread(thread: u32, deal: Deal) -> Draws {
        match deal {
            Deal::Remainders => Draws::of(thread.wrapping_add(Limits::MOST_PASSES), deal),
            Deal::Halves => Draws {
                word: u64::from(thread).wrapping_add(1).wrapping_mul(APART),
                deal,
            },
        }
    }

    fn word(&mut self) -> u64 {
        self.word ^= self.word << 13;
        self.word ^= self.word >> 7;
        self.word ^= self.word << 17;
        self.word
    }

    /// A key below `keys`.
    pub fn key(&mut self, keys: u32) -> u64
        requires { 0 < keys }
    {
        let word = self.word();
        match self.deal {
            Deal::Remainders => word % u64::from(keys),
            Deal::Halves => part(word >> 32, keys),
        }
    }

    /// A key below `keys`, and for a call that depends on chance a number below 100.
    pub fn round(&mut self, keys: u32, by_chance: bool) -> (u64, u64)
        requires { 0 < keys }
    {
        let key = self.key(keys);
        match self.deal {
            Deal::Remainders if by_chance => (key, self.word() % 100),
            Deal::Remainders => (key, 0),
            Deal::Halves => (key, part(self.word & 0xffff_ffff, 100)),
        }
    }
}

/// So much of a whole as a word of 32 bits is of all such words. Nothing wraps.
fn part(half: u64, whole: u32) -> u64 {
    half.wrapping_mul(u64::from(whole)) >> 32
}
