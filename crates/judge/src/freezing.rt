//! How many nodes of each SCX-record were ever frozen for it: the first ones.
ghost use Rattle.std.specs.Prelude.{◌≡◌, ◌<◌, IfOk, vec_len};
ghost use Rattle.arena.specs.History.{Start};
ghost use Rattle.judge.specs.Freezing.{FreezingStands, frozen_after, frozen_of, MayFreeze};

use arena::{Kind, Layout, NoMemory, Row};
use std::alloc::Global;

/// Of each SCX-record how many of its nodes were ever frozen for it.
#[derive(Drop)]
pub(crate) struct Freezing {
    pub(crate) frozen: Vec<u8>,
}

impl Freezing {
    /// No node is frozen yet. The only error is want of memory.
    pub(crate) fn new(alloc: Global, layout: &Layout) -> Result<Freezing, NoMemory>
        ensures { IfOk result (λ f. FreezingStands layout.now (Start layout.now.mode) f.frozen.items) }
    {
        Ok(Freezing {
            frozen: vec![in alloc; 0; layout.all_scx() as usize]?,
        })
    }

    /// How many nodes of an SCX-record were ever frozen for it.
    pub(crate) fn of(&self, scx: u64) -> u8
        ensures { result ≡ frozen_of self.now.frozen.items scx }
    {
        match self.frozen.get(scx as usize) {
            Some(count) => *count,
            None => 0,
        }
    }

    /// Takes in a lawful row.
    pub(crate) fn note(&mut self, row: &Row)
        requires { MayFreeze self.old.frozen.items row.now }
        ensures { self.new.frozen.items ≡ frozen_after row.now self.old.frozen.items }
    {
        if row.kind == Kind::Freeze && row.before != row.after {
            self.frozen[row.after as usize] += 1;
        }
    }
}
