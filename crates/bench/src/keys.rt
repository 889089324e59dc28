//! The keys of a thread's rounds, or of those that fill a map.
ghost use Rattle.std.specs.Prelude.{◌<◌};

use crate::draws::Draws;
use crate::task::Task;
use crate::work::MapWork;

#[derive(Clone, Copy)]
pub enum Keys {
    /// At random.
    Drawn(Draws),
    /// In order: the next, and how far each is above the one before.
    Rising { next: u64, apart: u32 },
}

/// What a round is made with: for a call that depends on chance a number below 100, and the pair that
/// may be put in.
#[derive(Clone, Copy)]
pub struct Draw {
    pub chance: u64,
    pub pair: (u64, u64),
}

impl Keys {
    /// The next key; below `keys`, if it is drawn.
    pub fn key(&mut self, keys: u32) -> u64
        requires { 0 < keys }
    {
        match self {
            Keys::Drawn(draws) => draws.key(keys),
            Keys::Rising { next, apart } => {
                let key = *next;
                *next = key.wrapping_add(u64::from(*apart));
                key
            }
        }
    }

    /// What comes for this round of a work.
    pub fn draw(&mut self, task: Task, work: MapWork, call: u32) -> Draw {
        let (key, chance) = self.round(task.keys, work.goes_by_chance());
        Draw {
            chance,
            pair: (key, u64::from(call)),
        }
    }

    /// The next key, and for a call that depends on chance a number below 100.
    pub fn round(&mut self, keys: u32, by_chance: bool) -> (u64, u64)
        requires { 0 < keys }
    {
        match self {
            Keys::Drawn(draws) => draws.round(keys, by_chance),
            Keys::Rising { .. } => (self.key(keys), 0),
        }
    }
}
