//! A pass of a tree or of a trie, as its type says, that is there or away.
ghost use Rattle.std.specs.Prelude.{◌≡◌};
ghost use Rattle.std.specs.Arc.{arc_value};
ghost use Rattle.tables.specs.Passes.{IsOf};

use regnubas::{Away, Dict, Forest, Pass};
use std::sync::Arc;
use tables::table_shape::Keeping;

/// A dictionary from numbers of 64 bits to numbers of 128, a tree or by `B` a trie.
pub type Numbers<B> = Dict<u64, u128, B>;

/// A pass, and one owner of its forest.
#[derive(Drop)]
pub struct Held<B: Keeping> {
    pub(crate) forest: Arc<Forest<Numbers<B>>>,
    pub(crate) pass: Pass<Numbers<B>>,
    /// How many passes the forest has.
    pub(crate) all: u32,
    ghost of: { IsOf (arc_value forest) pass },
    ghost counted: { all ≡ (arc_value forest).layout.passes },
}

/// A pass that is away, and one owner of its forest.
#[derive(Drop)]
pub struct HeldAway<B: Keeping> {
    pub(crate) forest: Arc<Forest<Numbers<B>>>,
    pub(crate) away: Away<Numbers<B>>,
    /// How many passes the forest has.
    pub(crate) all: u32,
    ghost of: { IsOf (arc_value forest) away },
    ghost counted: { all ≡ (arc_value forest).layout.passes },
}
