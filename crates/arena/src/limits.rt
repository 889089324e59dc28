//! How large a table may be.
ghost use Rattle.std.specs.Prelude.{◌≡◌, ◌≤◌, ◌↔◌, IsOk, IfOk};

use crate::fault::BadLimits;
use crate::layout::Layout;

/// What a table is for: a dictionary, as a tree or as a trie, or cells that scripts name.
#[derive(Clone, Copy, Debug, PartialEq, Eq)]
pub enum Mode {
    /// A dictionary whose forks part keys where a leaf was full. Three nodes from the start: a root
    /// over two leaves.
    Tree,
    /// A dictionary whose forks part keys at their highest differing bit. It opens as a tree does.
    Trie,
    /// Nodes 0 to 8 from the start; 1 to 8 are the cells that scripts name.
    Records,
}

impl Mode {
    ghost use Rattle.arena.specs.Opening.{is_map, node_size};

    /// Whether this is a dictionary's mode.
    pub fn is_map(self) -> bool
        ensures { result ≡ is_map self }
    {
        match self {
            Mode::Tree | Mode::Trie => true,
            Mode::Records => false,
        }
    }

    /// How many words a node has in a table of this mode: its own 18, and in a trie 6 more, so that
    /// the words by which a walk passes it are in one line of the cache.
    #[inline(always)]
    pub fn node_size(self) -> usize
        ensures size { result ≡ node_size self }
        ensures least { 18 ≤ result }
        ensures most { result ≤ 24 }
    {
        match self {
            Mode::Trie => 24,
            Mode::Tree | Mode::Records => 18,
        }
    }
}

/// How many passes there are, how many nodes and SCX-records each of them owns, and how often a
/// dictionary call tries. Nodes and SCX-records are never given back: a try of an insert takes up
/// to three nodes if its key is new, any other try of an edit at most one, and each one SCX-record.
/// With `passes` of `nodes` and `scx` a forest's table takes `8 * (18 * (3 + passes * nodes) + 14 *
/// (1 + passes * scx))` bytes; a trie has 24 for 18, and cells have 9 nodes where this has 3.
///
///     Limits { passes: 4, nodes: 3000, scx: 1000, tries: 100 }
///
/// is 2.2 MB, and room for 1,000 new keys by each of four threads, if no try is lost.
#[derive(Clone, Copy, Debug, PartialEq, Eq)]
pub struct Limits {
    /// How many passes, each a client of a script or of a thread: 1 to `MOST_PASSES`.
    pub passes: u32,
    /// How many nodes each pass owns, for as long as the forest lives: 0 to `MOST_RECORDS`.
    pub nodes: u32,
    /// How many SCX-records each pass owns, for as long as the forest lives: 0 to `MOST_RECORDS`.
    pub scx: u32,
    /// How often a dictionary call tries before it answers that it was contended: 1 to
    /// `MOST_TRIES`.
    pub tries: u32,
}

impl Limits {
    /// The most passes that a table has.
    pub const MOST_PASSES: u32 = 32;

    /// The most nodes that one pass owns, and the most SCX-records.
    pub const MOST_RECORDS: u32 = 32768;

    /// The most tries of one dictionary call.
    pub const MOST_TRIES: u32 = 1000;

    ghost use Rattle.arena.specs.Limits.{IsAccepted, IsLayoutOf};

    /// The layout of a table within these limits: 1 to 32 passes, 0 to 32,768 nodes and as many
    /// SCX-records for each of them, 1 to 1,000 tries.
    pub fn check(self, mode: Mode) -> Result<Layout, BadLimits>
        ensures accepted { IsOk result ↔ IsAccepted self }
        ensures layout { IfOk result (IsLayoutOf self mode) }
        ensures shares { IfOk result (λ lay. (lay.nodes ≤ 32768) × (lay.scx ≤ 32768)) }
    {
        let passes = 1 <= self.passes && self.passes <= Limits::MOST_PASSES;
        let shares = self.nodes <= Limits::MOST_RECORDS && self.scx <= Limits::MOST_RECORDS;
        let tries = 1 <= self.tries && self.tries <= Limits::MOST_TRIES;
        if !(passes && shares && tries) {
            return Err(BadLimits);
        }
        Ok(Layout::of(self, mode))
    }
}
