//! The loads of an ordered read, each a type of its own: at the place of each call the compiler
//! inlines only what follows this load.
ghost use Rattle.std.specs.Prelude.{◌≡◌, ℕ, ◌+◌, ◌-◌, length, IfOk};
ghost use Rattle.arena.specs.History.{History};
ghost use Rattle.arena.specs.Machines.{Call};
ghost use Rattle.template.specs.Trails.{IsOwnMoment};
ghost use Rattle.order.specs.Known.{IsSameRead, ReadGoes};
ghost use Rattle.order.specs.Loads.{load_value, load_word};
ghost use Rattle.order.specs.Next.{MayLoad};
ghost use Rattle.order.specs.Paths.{LoadFits, load_left};
ghost use Rattle.order.specs.Places.{GoesOn, RunComesNearer};
ghost use Rattle.order.specs.declared.load.ReadLoad.{ReadLoad};

use crate::load::{LeafPlace, ReadLoad};
use crate::read::{Read, ReadNext};
use crate::refused::Refused;
use crate::run::ReadRun;
use arena::{Head, NodeNo, NodeWord, SettledPart, Slot, Word};
use ordered_map::{Pair, wide_value};

/// A load of an ordered read, of a kind that its type says.
pub trait KnownLoad<R: Read + Drop> {
    /// Which load it is.
    ghost load: { Self → ReadLoad };

    /// The word that is loaded.
    fn word(&self) -> Word
        ensures { result ≡ load_word (load self.now) };

    /// Goes on with what the load found: behind the count of a leaf comes a key of it, and behind a
    /// value the high half of that.
    ///
    /// # Errors
    ///
    /// `NoMemory` where there is none to keep what is found.
    fn found(&self, run: &mut ReadRun<R>, value: u64) -> Result<ReadNext, Refused>
        ensures goes_on { (c : Call) (h : History) → ReadGoes R.means run.old c h → IsOwnMoment c h
            → MayLoad R.means run.old.read run.old.snaps.items c h (load self.now)
            → load_value h (load self.now) ≡ value → GoesOn R.means c h run.new result }
        ensures same { IsSameRead R.means run.old run.new }
        ensures nearer { (nodes : ℕ) → LoadFits value nodes (load self.now)
            → IfOk result (λ next. RunComesNearer R.means run.new nodes next
            (length run.old.snaps.items + load_left R.means run.old.read nodes (load self.now) - 1)) }
        ensures tries { run.new.tries ≡ run.old.tries };
}

/// The load of the head of a node that is below a fork of the level `above`.
#[derive(Clone, Copy, Debug)]
pub struct HeadLoad {
    pub above: u64,
    pub node: NodeNo,
}

impl<R: Read + Drop> KnownLoad<R> for HeadLoad {
    ghost use Rattle.order.specs.declared.load.ReadLoad.TheVariants.{Head};

    ghost load = { λ l. Head l.above l.node };

    #[inline(always)]
    fn word(&self) -> Word {
        Word::Node(self.node, NodeWord::Settled(SettledPart::Head))
    }

    #[inline(always)]
    fn found(&self, run: &mut ReadRun<R>, value: u64) -> Result<ReadNext, Refused> {
        Ok(run.read.head_on(Head::of(value), self.node))
    }
}

/// The load of the key of a fork of class 0 and of this level.
#[derive(Clone, Copy, Debug)]
pub struct KeyLoad {
    pub level: u64,
    pub node: NodeNo,
}

impl<R: Read + Drop> KnownLoad<R> for KeyLoad {
    ghost use Rattle.order.specs.declared.load.ReadLoad.TheVariants.{Key};

    ghost load = { λ l. Key l.level l.node };

    #[inline(always)]
    fn word(&self) -> Word {
        Word::Node(self.node, NodeWord::Settled(SettledPart::Key(Slot::First)))
    }

    #[inline(always)]
    fn found(&self, run: &mut ReadRun<R>, value: u64) -> Result<ReadNext, Refused> {
        Ok(run.read.key_on(self.level, self.node, value))
    }
}

/// The load of how many pairs a leaf of class 0 has after its first.
#[derive(Clone, Copy, Debug)]
pub struct MoreLoad {
    pub node: NodeNo,
}

impl<R: Read + Drop> KnownLoad<R> for MoreLoad {
    ghost use Rattle.order.specs.declared.load.ReadLoad.TheVariants.{More};

    ghost load = { λ l. More l.node };

    #[inline(always)]
    fn word(&self) -> Word {
        Word::Node(self.node, NodeWord::Settled(SettledPart::More))
    }

    #[inline(always)]
    fn found(&self, run: &mut ReadRun<R>, value: u64) -> Result<ReadNext, Refused> {
        let (node, more, slot) = (self.node, value, run.read.first_slot(value));
        let place = LeafPlace { node, more, slot };
        Ok(ReadNext::Load(ReadLoad::Pair { place }))
    }
}

/// The load of the key at this place of a leaf.
#[derive(Clone, Copy, Debug)]
pub struct PairLoad {
    pub place: LeafPlace,
}

impl<R: Read + Drop> KnownLoad<R> for PairLoad {
    ghost use Rattle.order.specs.declared.load.ReadLoad.TheVariants.{Pair};

    ghost load = { λ l. Pair l.place };

    #[inline(always)]
    fn word(&self) -> Word {
        let part = SettledPart::Key(self.place.slot);
        Word::Node(self.place.node, NodeWord::Settled(part))
    }

    #[inline(always)]
    fn found(&self, run: &mut ReadRun<R>, value: u64) -> Result<ReadNext, Refused> {
        Ok(run.read.pair_on(self.place, value))
    }
}

/// The load of the value of a pair that is taken, without its high half. It has this key.
#[derive(Clone, Copy, Debug)]
pub struct ValueLoad {
    pub place: LeafPlace,
    pub key: u64,
}

impl<R: Read + Drop> KnownLoad<R> for ValueLoad {
    ghost use Rattle.order.specs.declared.load.ReadLoad.TheVariants.{Value};

    ghost load = { λ l. Value l.place l.key };

    #[inline(always)]
    fn word(&self) -> Word {
        let part = SettledPart::Value(self.place.slot);
        Word::Node(self.place.node, NodeWord::Settled(part))
    }

    #[inline(always)]
    fn found(&self, _run: &mut ReadRun<R>, value: u64) -> Result<ReadNext, Refused> {
        let (place, key, low) = (self.place, self.key, value);
        Ok(ReadNext::Load(ReadLoad::High { place, key, low }))
    }
}

/// The load of the high half of that value, whose other half is this.
#[derive(Clone, Copy, Debug)]
pub struct HighLoad {
    pub place: LeafPlace,
    pub key: u64,
    pub low: u64,
}

impl<R: Read + Drop> KnownLoad<R> for HighLoad {
    ghost use Rattle.order.specs.declared.load.ReadLoad.TheVariants.{High};

    ghost load = { λ l. High l.place l.key l.low };

    #[inline(always)]
    fn word(&self) -> Word {
        let part = SettledPart::High(self.place.slot);
        Word::Node(self.place.node, NodeWord::Settled(part))
    }

    #[inline(always)]
    fn found(&self, run: &mut ReadRun<R>, value: u64) -> Result<ReadNext, Refused> {
        let (key, value) = (self.key, wide_value(self.low, value));
        run.read.value_on(self.place, Pair { key, value })
    }
}

impl<R: Read + Drop> KnownLoad<R> for ReadLoad {
    ghost load = { λ l. l };

    #[inline(always)]
    fn word(&self) -> Word {
        ReadLoad::word(*self)
    }

    #[inline(always)]
    fn found(&self, run: &mut ReadRun<R>, value: u64) -> Result<ReadNext, Refused> {
        run.loaded(*self, value)
    }
}
