//! The SCX-records that the calls of a pass have blamed. Only proofs read them: no bytes are kept.
ghost use Rattle.std.specs.Prelude.{◌≡◌, [], ◌∷◌};

use arena::ScxNo;
use dict::Reply;
use prims::Llx;
use std::marker::Model;
use std::mem::replace;
use std::snapshot::Snapshot;

/// A blame list, the last blamed first.
#[derive(Drop)]
pub(crate) struct Blamed {
    names: Snapshot<BlameList>,
}

/// The names of a blame list. One value is made where one more is blamed, and none is kept.
#[derive(Drop)]
enum BlameList {
    Nobody,
    One(ScxNo, Snapshot<BlameList>),
}

impl Model for Blamed {
    ghost use Rattle.std.specs.Prelude.{List, ℕ};

    ghost Value = { List ℕ };

    ghost use Rattle.forest.specs.Blames.{names_in};

    ghost view = { λ b. names_in b.names.value };
}

impl Blamed {
    /// Nobody is blamed.
    pub(crate) fn new() -> Blamed
        ensures { result ≡ [] }
    {
        Blamed {
            names: Snapshot::of(&BlameList::Nobody),
        }
    }

    /// This one is blamed too.
    pub(crate) fn push(&mut self, scx: ScxNo)
        ensures { self.new ≡ scx.0 ∷ self.old }
    {
        let Blamed { names } = replace(self, Blamed::new());
        self.names = Snapshot::of(&BlameList::One(scx, names));
    }
}

impl Blamed {
    ghost use Rattle.tables.specs.Passes.{blamed_by};
    ghost use Rattle.forest.specs.Dictionary.{blamed_by_reply};

    /// Takes in what an answer of `llx` blames.
    pub(crate) fn note(&mut self, answer: &Llx)
        ensures { self.new ≡ blamed_by answer.now self.old }
    {
        if let Llx::Fail { node: _, scx } = answer {
            self.push(*scx);
        }
    }

    /// Takes in what a reply of a dictionary blames.
    pub(crate) fn note_reply<K, V>(&mut self, reply: &Reply<K, V>)
        ensures { self.new ≡ blamed_by_reply reply.now self.old }
    {
        if let Reply::Contended { node: _, scx } = reply {
            self.push(*scx);
        }
    }
}
