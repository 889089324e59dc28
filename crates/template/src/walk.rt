//! Walks from the root of the tree down to a leaf.
ghost use Rattle.std.specs.Prelude.{◌≡◌, ℕ};

use crate::shape::Tree;
use arena::{
    Access, Head, Kind, Machine, NodeNo, NodeWord, SettledPart, Side, Slot, Step, Turn, Word,
};
use ordered_map::{Goal, end_slot, shares, slot_behind, wide_value};

/// The last nodes of a walk: the node that it has reached, and the two forks above it with the
/// sides to which it has gone there. A walk at the root has no fork above it, and one
/// at a child of the root has one.
#[derive(Clone, Copy, Debug, PartialEq, Eq)]
pub struct Trail {
    pub grand: NodeNo,
    pub grand_side: Side,
    pub parent: NodeNo,
    pub side: Side,
    pub node: NodeNo,
}

/// The step that a walk has asked for: a load of a word of the node that it has reached.
#[derive(Clone, Copy, Debug, PartialEq, Eq)]
pub enum WalkAt {
    /// None yet.
    Start,
    /// The load of the root's head.
    Root,
    /// The load of the head of a node that is below a fork of the level `above`.
    Head {
        above: u64,
    },
    /// The load of the key of a fork of class 0.
    Key {
        head: Head,
    },
    /// The load of a field of a fork of this level.
    Child {
        level: u64,
        side: Side,
    },
    /// The load of how many pairs a leaf of class 0 has after its first.
    More {
        head: Head,
    },
    /// The load of the key in this slot of a leaf with `more` pairs after its first.
    Pair {
        head: Head,
        more: u64,
        slot: Slot,
    },
    /// The load of the value in this slot, whose key is this one, without its high half.
    Value {
        head: Head,
        more: u64,
        slot: Slot,
        key: u64,
    },
    /// The load of the high half of that value, whose other half is this.
    High {
        head: Head,
        more: u64,
        slot: Slot,
        key: u64,
        low: u64,
    },
}

/// The leaf at which a walk has ended: its head, and how many pairs it has after its first, 0 if it
/// is above all keys; the key whose value in the leaf the walk answers, and that value, if there is
/// one. It is the walk's own key, or, of a walk to an end, the leaf's there, and 0 above all keys.
/// A walk within may have ended at a fork: then its head, no pairs, its key, and no value.
#[derive(Clone, Copy, Debug, PartialEq, Eq)]
pub struct Found {
    pub trail: Trail,
    pub head: Head,
    pub more: u64,
    pub key: u64,
    pub value: Option<u128>,
}

/// Where a walk goes.
#[derive(Clone, Copy, Debug, PartialEq, Eq)]
pub enum Way {
    /// In a tree, to a leaf.
    InTree,
    /// In a trie, to a leaf.
    InTrie,
    /// In a trie, to a leaf, or to the first fork that its key does not share.
    Within,
}

/// A walk from the root to the leaf where a key is, or would be, or to that at an end. On its
/// way to a key it loads of each fork the head, the key if that is of class 0, and a field; on its
/// way to an end the head and a field, which is the left one above all keys. Of the leaf it loads
/// the head, and, if that is of class 0, how many pairs it has after its first, the keys in rising
/// order to the first that is not below the walk's, and the two words of the value if that key is
/// the walk's; of the leaf at an end the key there and its value.
#[derive(Clone, Copy, Debug, PartialEq, Eq)]
pub struct WalkRun {
    /// To what it goes.
    pub goal: Goal,
    /// Where it goes.
    pub way: Way,
    /// The nodes that it has reached.
    pub trail: Trail,
    /// Where it is.
    pub at: WalkAt,
}

impl WalkRun {
    ghost use Rattle.std.specs.Prelude.{◌≡◌, ◌≢◌, ℕ, ◌+◌, ◌-◌, ◌*◌, ◌^◌, ◌<◌, ◌≤◌, true, false, if◌then◌else◌, ◌==◌, nat_lt};
    ghost use Rattle.arena.specs.Heads.{head_of};
    ghost use Rattle.arena.specs.declared.word.NodeWord.TheVariants.{Settled, Child as ChildWord};
    ghost use Rattle.arena.specs.declared.word.SettledPart.TheVariants.{Head as HeadWord, More as MoreWord, Key as KeyWord};
    ghost use Rattle.arena.specs.Words.{first_key};
    ghost use Rattle.arena.specs.History.{History, value};
    ghost use Rattle.arena.specs.Machines.{MatchTurn, Call};
    ghost use Rattle.ordered_map.specs.TreeWords.{is_leaf, level, toward};
    ghost use Rattle.ordered_map.specs.TrieShape.{Stays};
    ghost use Rattle.template.specs.FoundLeaf.{path_key, asked_key};
    ghost use Rattle.template.specs.Walk.Steps.{walk_left};
    ghost use Rattle.template.specs.Walk.Known.{EndsAt, asks_key, open_side, goal_slot, WalkAsks, WalkEnds, WalkStands, WalkStandsAtLeaf, IsSlotFor, WalkTurn, here};

    /// A walk in a tree that has not begun. It asks for at most three steps for each node that has
    /// been taken when it ends, and for eleven more.
    pub fn new(goal: Goal) -> WalkRun
        ensures goal { result.goal ≡ goal }
        ensures way { result.way ≡ Way.InTree }
        ensures start { result.at ≡ WalkAt.Start }
        ensures root { result.trail.node.0 ≡ 0 }
        ensures bound { (nodes : ℕ) → walk_left result.at nodes ≤ 3 * (2 + nodes) + 5 }
    {
        WalkRun::by(Way::InTree, goal)
    }

    /// A walk by this way that has not begun. In a trie it asks for at most 206 steps.
    pub fn by(way: Way, goal: Goal) -> WalkRun
        ensures goal { result.goal ≡ goal }
        ensures way { result.way ≡ way }
        ensures start { result.at ≡ WalkAt.Start }
        ensures root { result.trail.node.0 ≡ 0 }
        ensures bound { (nodes : ℕ) → walk_left result.at nodes ≤ 3 * (2 + nodes) + 5 }
    {
        let root = NodeNo(0);
        let side = Side::Left;
        WalkRun {
            goal,
            way,
            trail: Trail {
                grand: root,
                grand_side: side,
                parent: root,
                side,
                node: root,
            },
            at: WalkAt::Start,
        }
    }

    /// Asks for a load of a word of the node, and is at this place.
    fn load(&mut self, at: WalkAt, kind: Kind, part: NodeWord) -> Turn<Found>
        ensures { WalkAsks self.old self.new result at record { kind = kind; word = Word.Node self.old.trail.node part; access = Access.Load } }
    {
        self.at = at;
        let word = Word::Node(self.trail.node, part);
        let access = Access::Load;
        Turn::Ask(Step { kind, word, access })
    }

    fn load_settled(&mut self, at: WalkAt, part: SettledPart) -> Turn<Found>
        ensures { WalkAsks self.old self.new result at
            record { kind = Kind.LoadSettled; word = Word.Node self.old.trail.node (Settled part); access = Access.Load } }
    {
        self.load(at, Kind::LoadSettled, NodeWord::Settled(part))
    }

    /// Asks for the key in a slot of a leaf.
    fn load_key(&mut self, head: Head, more: u64, slot: Slot) -> Turn<Found>
        ensures { WalkAsks self.old self.new result (WalkAt.Pair head more slot)
            record { kind = Kind.LoadSettled; word = Word.Node self.old.trail.node (Settled (KeyWord slot)); access = Access.Load } }
    {
        self.load_settled(WalkAt::Pair { head, more, slot }, SettledPart::Key(slot))
    }

    /// Asks for a field of a fork of this level.
    fn load_child(&mut self, level: u64, side: Side) -> Turn<Found>
        ensures { WalkAsks self.old self.new result (WalkAt.Child level side)
            record { kind = Kind.LoadChild; word = Word.Node self.old.trail.node (NodeWord.Child side); access = Access.Load } }
    {
        let at = WalkAt::Child { level, side };
        self.load(at, Kind::LoadChild, NodeWord::Child(side))
    }

    /// Ends at the node that it has reached.
    fn end(&mut self, head: Head, more: u64, key: u64, value: Option<u128>) -> Turn<Found>
        ensures { WalkEnds self.old self.new result head more key value }
    {
        let trail = self.trail;
        Turn::Done(Found {
            trail,
            head,
            more,
            key,
            value,
        })
    }

    /// Whether the walk loads the key of a fork with this head: where it goes at one of class 0
    /// depends on its key, unless it goes to an end.
    fn asks_key(&self, head: Head) -> bool
        ensures { result ≡ asks_key self.now.goal head }
    {
        match self.goal {
            Goal::Key(_) => head.class == 0,
            Goal::End(_) => false,
        }
    }

    /// Where the walk goes at a fork with this head whose key it does not load.
    fn open_side(&self, head: Head) -> Side
        ensures { result ≡ open_side self.now.goal head }
    {
        match self.goal {
            Goal::Key(_) => Side::Left,
            Goal::End(side) => { if head.class == 0 { side } else { Side::Left } }
        }
    }

    /// Where the walk goes at a fork of class 0 with this key.
    fn side(&self, key: u64) -> Side
        ensures { result ≡ (if nat_lt (path_key self.now.goal) key then Side.Left else Side.Right) }
    {
        let wanted = match self.goal {
            Goal::Key(wanted) => wanted,
            Goal::End(Side::Left) => 0,
            Goal::End(Side::Right) => u64::MAX,
        };
        if wanted < key {
            Side::Left
        } else {
            Side::Right
        }
    }

    /// Whether the walk ends at a fork of class 0 with this key.
    fn ends_at(&self, key: u64) -> bool
        ensures { EndsAt self.now key result }
    {
        match self.goal {
            Goal::Key(wanted) => self.is_within() && !shares(key, wanted),
            Goal::End(_) => false,
        }
    }

    fn is_within(&self) -> bool
        ensures yes { result ≡ true → self.now.way ≡ Way.Within }
        ensures no { result ≡ false → self.now.way ≢ Way.Within }
    {
        match self.way {
            Way::Within => true,
            Way::InTree | Way::InTrie => false,
        }
    }

    /// The slot in which the walk begins at a leaf with `more` pairs after its first.
    fn first_slot(&self, more: u64) -> Slot
        ensures { result ≡ goal_slot self.now.goal more }
    {
        match self.goal {
            Goal::Key(_) => Slot::First,
            Goal::End(side) => end_slot(side, more),
        }
    }

    /// The key whose value the walk answers at a leaf that has this key in the slot where it is.
    fn asked_key(&self, here: u64) -> u64
        ensures { result ≡ asked_key self.now.goal here }
    {
        match self.goal {
            Goal::Key(wanted) => wanted,
            Goal::End(_) => here,
        }
    }

    /// Continues with the head of the node.
    fn read_head(&mut self, head: Head) -> Turn<Found>
        ensures turn { (c : Call) (h : History) → WalkStands self.old c h →
            head_of (here h self.old (Settled HeadWord)) ≡ head → WalkTurn c h self.new result }
        ensures same { (self.new.goal ≡ self.old.goal) × (self.new.way ≡ self.old.way) }
        ensures nearer { (nodes : ℕ) → head.level < 2 + nodes
            → MatchTurn result (λ _. walk_left self.new.at nodes < 3 * (2 + nodes - head.level) + 4) (λ _. Unit {0}) }
    {
        if head.leaf {
            self.read_leaf(head)
        } else if self.asks_key(head) {
            self.load_settled(WalkAt::Key { head }, SettledPart::Key(Slot::First))
        } else {
            self.load_child(head.level, self.open_side(head))
        }
    }

    /// Continues with the key of a fork of class 0.
    fn read_key(&mut self, head: Head, key: u64) -> Turn<Found>
        ensures turn { (c : Call) (h : History) → WalkStands self.old c h →
            head_of (here h self.old (Settled HeadWord)) ≡ head → head.class ≡ 0
            → head.leaf ≡ false → here h self.old first_key ≡ key → WalkTurn c h self.new result }
        ensures same { (self.new.goal ≡ self.old.goal) × (self.new.way ≡ self.old.way) }
        ensures nearer { (nodes : ℕ) → head.level < 2 + nodes
            → MatchTurn result (λ _. walk_left self.new.at nodes < walk_left (WalkAt.Key head) nodes) (λ _. Unit {0}) }
    {
        if self.ends_at(key) {
            self.end(head, 0, key, None)
        } else {
            self.load_child(head.level, self.side(key))
        }
    }

    /// Continues with the head of a leaf: one above all keys has no pair.
    fn read_leaf(&mut self, head: Head) -> Turn<Found>
        requires { head.leaf ≡ true }
        ensures turn { (c : Call) (h : History) → WalkStands self.old c h →
            head_of (here h self.old (Settled HeadWord)) ≡ head → WalkTurn c h self.new result }
        ensures same { (self.new.goal ≡ self.old.goal) × (self.new.way ≡ self.old.way) }
        ensures nearer { (nodes : ℕ) → head.level < 2 + nodes
            → MatchTurn result (λ _. walk_left self.new.at nodes < 3 * (2 + nodes - head.level) + 4) (λ _. Unit {0}) }
    {
        if head.class == 0 {
            self.load_settled(WalkAt::More { head }, SettledPart::More)
        } else {
            self.end(head, 0, self.asked_key(0), None)
        }
    }

    /// Continues with the key in a slot of a leaf of class 0: if it is below the walk's own, with
    /// the next one, if there is one.
    fn read_pair(&mut self, head: Head, more: u64, slot: Slot, key: u64) -> Turn<Found>
        ensures turn { (c : Call) (h : History) → WalkStands self.old c h → WalkStandsAtLeaf c h self.old.goal self.old.trail head
            → here h self.old (Settled MoreWord) ≡ more → IsSlotFor self.old.goal (value h) self.old.trail.node.0 slot
            → here h self.old (Settled (KeyWord slot)) ≡ key → WalkTurn c h self.new result }
        ensures same { (self.new.goal ≡ self.old.goal) × (self.new.way ≡ self.old.way) }
        ensures nearer { (nodes : ℕ) → head.level < 2 + nodes
            → MatchTurn result (λ _. walk_left self.new.at nodes < walk_left (WalkAt.Pair head more slot) nodes) (λ _. Unit {0}) }
    {
        let asked = self.asked_key(key);
        if asked == key {
            let at = WalkAt::Value {
                head,
                more,
                slot,
                key,
            };
            return self.load_settled(at, SettledPart::Value(slot));
        }
        match slot_behind(more, slot) {
            Some(next) if key < asked => self.load_key(head, more, next),
            _ => self.end(head, more, asked, None),
        }
    }

    /// Goes down to a child of a fork of the level `above`.
    fn go_down(&mut self, above: u64, side: Side, child: u64) -> Turn<Found>
        ensures turn { (c : Call) (h : History) → WalkStands self.old c h → level (value h) self.old.trail.node.0 ≡ above
            → is_leaf (value h) self.old.trail.node.0 ≡ false
            → toward (value h) self.old.trail.node.0 (path_key self.old.goal) ≡ side → here h self.old (ChildWord side) ≡ child
            → (self.old.way ≡ Way.Within → Stays c.layout (value h) (path_key self.old.goal) self.old.trail.node.0)
            → WalkTurn c h self.new result }
        ensures same { (self.new.goal ≡ self.old.goal) × (self.new.way ≡ self.old.way) }
        ensures nearer { (nodes : ℕ) → above + 1 < 2 + nodes
            → MatchTurn result (λ _. walk_left self.new.at nodes < walk_left (WalkAt.Child above side) nodes) (λ _. Unit {0}) }
    {
        let trail = self.trail;
        self.trail = Trail {
            grand: trail.parent,
            grand_side: trail.side,
            parent: trail.node,
            side,
            node: NodeNo(child),
        };
        self.load_settled(WalkAt::Head { above }, SettledPart::Head)
    }
}

impl Machine<Tree> for WalkRun {
    type Answer = Found;

    ghost use Rattle.std.specs.Prelude.{◌≡◌, ℕ};
    ghost use Rattle.template.specs.Walk.Steps.{steps_left, WalkFits};
    ghost use Rattle.template.specs.Walk.Known.{WalkIsReady, WalkWaits, WalkAnswers};
    ghost use Rattle.template.specs.Walk.Laws.{walk_keeps, walk_lawful, walk_made, walk_told};

    ghost ready = { WalkIsReady };

    ghost waits = { WalkWaits };

    ghost answers = { WalkAnswers };

    ghost same = { λ old now. (now.goal ≡ old.goal) × (now.way ≡ old.way) };

    ghost left = { λ m nodes. steps_left m nodes };

    ghost fits = { WalkFits };

    ghost asks_first = { λ _. Unit {0} };

    fn next(&mut self, got: Option<u64>) -> Turn<Found> {
        let found = got.unwrap_or(0);
        match self.at {
            WalkAt::Start => self.load_settled(WalkAt::Root, SettledPart::Head),
            WalkAt::Root => self.read_head(Head::of(found)),
            WalkAt::Head { above: _ } => self.read_head(Head::of(found)),
            WalkAt::Key { head } => self.read_key(head, found),
            WalkAt::Child { level, side } => self.go_down(level, side, found),
            WalkAt::More { head } => self.load_key(head, found, self.first_slot(found)),
            WalkAt::Pair { head, more, slot } => self.read_pair(head, more, slot, found),
            WalkAt::Value {
                head,
                more,
                slot,
                key,
            } => {
                let at = WalkAt::High {
                    head,
                    more,
                    slot,
                    key,
                    low: found,
                };
                self.load_settled(at, SettledPart::High(slot))
            }
            WalkAt::High {
                head,
                more,
                slot: _,
                key,
                low,
            } => self.end(head, more, key, Some(wide_value(low, found))),
        }
    }

    ghost keeps = { walk_keeps };

    ghost lawful = { walk_lawful };

    ghost made = { walk_made };

    ghost told = { walk_told };
}
