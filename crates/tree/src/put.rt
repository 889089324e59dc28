//! What puts a value at a key.
ghost use Rattle.std.specs.Prelude.{◌≡◌};
ghost use Rattle.tree.specs.Put.Means.{put_means, has_room, splits, strays, next_node, pairs_with, second_pairs, split_pieces, fork_over, above_pieces, low_parts, high_parts, parted_pieces};

use crate::leaf;
use arena::{NodeNo, Slot};
use edits::{Edit, Known, Look, Nodes, Nth, Pairs, Piece, Reading, Work};
use ordered_map::{ForkPlace, Pair, fork_between};
use prims::Snap;
use template::{Found, Goal, Way};

/// Puts a value at a key.
#[derive(Clone, Copy, Debug, PartialEq, Eq)]
pub(crate) struct PutPair {
    pub key: u64,
    pub value: u128,
    /// Whether it is in a trie.
    pub trie: bool,
}

impl PutPair {
    /// Whether the leaf has room for one pair more.
    fn has_room(found: &Found) -> bool
        ensures { result ≡ has_room found.now }
    {
        if found.head.class == 0 {
            found.more < 3
        } else {
            false
        }
    }

    /// Whether it takes a leaf more.
    fn splits(found: &Found) -> bool
        ensures { result ≡ splits found.now }
    {
        match found.value {
            Some(_) => false,
            None => !PutPair::has_room(found),
        }
    }

    /// Whether a fork was found, which its key does not share.
    #[inline(always)]
    fn strays(&self, found: &Found) -> bool
        ensures { result ≡ strays self.now.trie found.now }
    {
        match found.value {
            Some(_) => false,
            None => self.trie && !found.head.leaf,
        }
    }

    /// What it covers besides the parent: the leaf, or node 2 where it puts a fork above a fork.
    #[inline(always)]
    fn next(&self, found: &Found) -> NodeNo
        ensures { result ≡ next_node self.now.trie found.now }
    {
        if self.strays(found) {
            NodeNo(2)
        } else {
            found.trail.node
        }
    }

    /// One of two fresh nodes: a leaf with the pair alone, or the fork over it and the fork that
    /// was found.
    fn above(&self, found: &Found, nodes: &Nodes, nth: Nth) -> Piece
        ensures { result ≡ above_pieces self.now.key self.now.value found.now nodes.now nth }
    {
        let (key, value) = (self.key, self.value);
        let old = found.trail.node;
        match nth {
            Nth::First => Piece::Leaf {
                level: 66,
                class: 0,
                pairs: Pairs::one(Pair { key, value }),
            },
            _ => {
                let place = fork_between(key, found.key);
                let below = key < found.key;
                Piece::Fork {
                    level: place.level,
                    class: 0,
                    key: place.key,
                    left: if below { nodes.first } else { old },
                    right: if below { old } else { nodes.first },
                }
            }
        }
    }

    /// One of three fresh nodes that hold five pairs in a trie: those below the key of the fork
    /// between the first and the last of them, the others, and that fork; or, where the map is
    /// empty, the one pair, and a copy of the leaf above all keys.
    #[inline(always)]
    fn part(found: &Found, pairs: Pairs, nodes: &Nodes, nth: Nth) -> Piece
        ensures { result ≡ parted_pieces pairs found.now nodes.now nth }
    {
        if found.head.class == 0 {
            PutPair::part_low(pairs, nodes, nth)
        } else {
            PutPair::part_high(found, pairs, nodes, nth)
        }
    }

    /// Those of five pairs.
    #[inline(always)]
    fn part_low(pairs: Pairs, nodes: &Nodes, nth: Nth) -> Piece
        ensures { result ≡ low_parts pairs nodes.now nth }
    {
        let ForkPlace { key, level } = fork_between(pairs.at(Slot::First).key, pairs.last().key);
        match nth {
            Nth::First => Piece::Leaf {
                level: 66,
                class: 0,
                pairs: pairs.keep_below(key),
            },
            Nth::Second => Piece::Leaf {
                level: 66,
                class: 0,
                pairs: pairs.keep_from(key),
            },
            Nth::Third => Piece::Fork {
                level,
                class: 0,
                key,
                left: nodes.first,
                right: nodes.second,
            },
        }
    }

    /// Those of the first pair of all.
    #[inline(always)]
    fn part_high(found: &Found, pairs: Pairs, nodes: &Nodes, nth: Nth) -> Piece
        ensures { result ≡ high_parts pairs found.now.head.class nodes.now nth }
    {
        let class = found.head.class;
        match nth {
            Nth::First => Piece::Leaf {
                level: 66,
                class: 0,
                pairs,
            },
            Nth::Second => Piece::Leaf {
                level: 2,
                class,
                pairs: Pairs::one(Pair { key: 0, value: 0 }),
            },
            Nth::Third => Piece::Fork {
                level: 1,
                class,
                key: 0,
                left: nodes.first,
                right: nodes.second,
            },
        }
    }

    /// The pairs of the leaf, which is read, with the new one.
    #[inline(always)]
    fn pairs(&self, found: &Found, read: &Reading) -> Pairs
        ensures { result ≡ pairs_with self.now.key self.now.value found.now read.now }
    {
        if found.head.class == 0 {
            let pairs = read.pairs;
            pairs.insert(self.key, self.value)
        } else {
            Pairs::one(Pair {
                key: self.key,
                value: self.value,
            })
        }
    }

    /// Those of them that go to the second of two leaves; of a leaf above all keys its own key, 0.
    #[inline(always)]
    fn second(found: &Found, pairs: Pairs) -> Pairs
        ensures { result ≡ second_pairs found.now pairs }
    {
        if found.head.class == 0 {
            pairs.behind_two()
        } else {
            Pairs::one(Pair { key: 0, value: 0 })
        }
    }

    /// One of three fresh nodes that hold these pairs: two leaves, or the fork over them.
    #[inline(always)]
    fn split(found: &Found, pairs: Pairs, nodes: &Nodes, nth: Nth) -> Piece
        ensures { result ≡ split_pieces pairs found.now nodes.now nth }
    {
        let level = found.head.level;
        let below = level.saturating_add(1);
        let class = found.head.class;
        match nth {
            Nth::First => Piece::Leaf {
                level: below,
                class: 0,
                pairs: pairs.first_two(),
            },
            Nth::Second => Piece::Leaf {
                level: below,
                class,
                pairs: PutPair::second(found, pairs),
            },
            Nth::Third => PutPair::fork(found, &PutPair::second(found, pairs), nodes),
        }
    }

    /// The fork over both leaves, with the first key of the second.
    #[inline(always)]
    fn fork(found: &Found, second: &Pairs, nodes: &Nodes) -> Piece
        ensures { result ≡ fork_over second.now found.now nodes.now }
    {
        Piece::Fork {
            level: found.head.level,
            class: found.head.class,
            key: second.at(Slot::First).key,
            left: nodes.first,
            right: nodes.second,
        }
    }
}

impl Edit for PutPair {
    ghost use Rattle.tree.specs.Laws.Put.Sound.{put_laws};

    ghost means = { put_means };

    fn goal(&self) -> Goal {
        Goal::Key(self.key)
    }

    fn way(&self) -> Way {
        if self.trie { Way::Within } else { Way::InTree }
    }

    fn guard(&self) -> bool {
        false
    }

    #[inline(always)]
    fn work(&self, found: &Found) -> Work {
        if self.strays(found) {
            let plan = leaf::plan_above(found);
            return Work { need: 2, plan };
        }
        let need = if PutPair::splits(found) { 3 } else { 1 };
        let plan = leaf::plan(found);
        Work { need, plan }
    }

    #[inline(always)]
    fn look(&self, found: &Found, snaps: &[Snap]) -> Look {
        leaf::look(found, self.next(found), snaps)
    }

    #[inline(always)]
    fn reads(&self, found: &Found, snaps: &[Snap]) -> Option<(NodeNo, Known)> {
        if !self.strays(found) && found.head.class == 0 {
            Some(leaf::reads(found))
        } else {
            None
        }
    }

    #[inline(always)]
    fn piece(
        &self,
        found: &Found,
        snaps: &[Snap],
        nodes: &Nodes,
        read: &Reading,
        nth: Nth,
    ) -> Piece {
        if self.strays(found) {
            return self.above(found, nodes, nth);
        }
        let pairs = self.pairs(found, read);
        if PutPair::splits(found) {
            if self.trie {
                PutPair::part(found, pairs, nodes, nth)
            } else {
                PutPair::split(found, pairs, nodes, nth)
            }
        } else {
            Piece::Leaf {
                level: found.head.level,
                class: 0,
                pairs,
            }
        }
    }

    ghost laws = { put_laws };
}
