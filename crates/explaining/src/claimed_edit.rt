//! An SCX-record that begins for an edit of the map.
use crate::breach::Objection;
use crate::details::Detail::{self, Call, Node, Number, Pairs, Scx, Text};
use crate::lines_before::LinesBefore;
use crate::map_before::{MapPairs, leave, value_of};
use crate::steps::AFTER;
use arena::{Head, Mode, NodeWord, PassNo, ScxWord, SettledPart, Side, Slot};
use ordered_map::{Goal, Rule, wide_value};
use std::alloc::AllocError;

const SLOTS: [Slot; 4] = [Slot::First, Slot::Second, Slot::Third, Slot::Fourth];

/// The SCX-record, the client for whose next call it begins, and the edit of that: where it goes,
/// by which rule, and at which key.
#[derive(Drop)]
pub(crate) struct ClaimedEdit<'a> {
    pub(crate) before: &'a LinesBefore<'a>,
    pub(crate) scx: u64,
    pub(crate) client: PassNo,
    pub(crate) goal: Goal,
    pub(crate) rule: Rule,
    pub(crate) key: u64,
}

impl ClaimedEdit<'_> {
    /// Objects to it in these words, unless this holds.
    pub(crate) fn demand(
        &self,
        fits: bool,
        words: &str,
        details: &[Detail<'_>],
    ) -> Result<(), Objection> {
        if fits {
            return Ok(());
        }
        let text = self.before.text_of(words, details)?;
        let details = [Scx(self.scx), Call(self.client), Text(text.as_str())];
        Err(self.before.object(AFTER, "# begins for #: #", &details))
    }

    /// Its plan and its first node are as `check_field` says, and `old` is its second node.
    pub(crate) fn check_place(&self, left: u64, right: u64, does: &str) -> Result<(), Objection> {
        self.check_field(left, right, does)?;
        let second = self.member(1);
        let old = self.before.scx_word(self.scx, ScxWord::Old);
        let text = "its old is # in place of #, its second node";
        self.demand(old == second, text, &[Node(old), Node(second)])
    }

    /// Its plan is this one for an edit on the left of the first node, and that on the right, and
    /// the search for the key passes the first, which is a fork.
    pub(crate) fn check_field(&self, left: u64, right: u64, does: &str) -> Result<(), Objection> {
        let (key, fork) = (self.key, self.member(0));
        let text = "the search for # does not pass #, its first node";
        self.demand(self.is_on_path(key, fork), text, &[Number(key), Node(fork)])?;
        let text = "#, its first node, is no fork";
        self.demand(!self.head(fork).leaf, text, &[Node(fork)])?;
        match self.toward(fork, key) {
            Side::Left => self.check_plan(left, does),
            Side::Right => self.check_plan(right, does),
        }
    }

    fn check_plan(&self, wanted: u64, does: &str) -> Result<(), Objection> {
        let plan = self.before.plan(self.scx).0;
        let text = "its plan is # in place of #, which # and changes the field of # towards #";
        let details = [
            Number(plan),
            Number(wanted),
            Text(does),
            Node(self.member(0)),
            Number(self.key),
        ];
        self.demand(plan == wanted, text, &details)
    }

    /// A node is a leaf, with at most four pairs if these are below all that is above all keys.
    pub(crate) fn check_leaf(&self, node: u64) -> Result<(), Objection> {
        let head = self.head(node);
        let many = self.settled(node, SettledPart::More).saturating_add(1);
        self.demand(head.leaf, "# is no leaf", &[Node(node)])?;
        let text = "# has # pairs, and a leaf has 4 at most";
        let details = [Node(node), Number(many)];
        self.demand(head.class > 0 || many <= 4, text, &details)
    }

    /// A node is such a leaf, and is not above all keys.
    pub(crate) fn check_low_leaf(&self, node: u64) -> Result<(), Objection> {
        self.check_leaf(node)?;
        let text = "# is above all keys, so it has no pairs";
        self.demand(self.head(node).class == 0, text, &[Node(node)])
    }

    /// The leaf that the edit is of gives its call something to do; of the pair at an end it is the
    /// tree's leaf there, where it is as it was seen.
    pub(crate) fn check_asks(&self, leaf: u64) -> Result<(), Objection> {
        let held = self.pairs_of(leaf)?;
        let found = value_of(&held, self.key);
        let text = "it has nothing to do at #, which holds #";
        let details = [Node(leaf), Pairs(&held)];
        self.demand(self.rule.applies(found), text, &details)?;
        let (end, bound) = match self.goal {
            Goal::Key(_) => return Ok(()),
            Goal::End(Side::Left) => ("first", 0),
            Goal::End(Side::Right) => ("last", u64::MAX),
        };
        let text = "# is not the # leaf of the tree";
        let details = [Node(leaf), Text(end)];
        self.demand(
            self.is_late() || self.is_on_path(bound, leaf),
            text,
            &details,
        )
    }

    pub(crate) fn is_in_trie(&self) -> bool {
        self.before.record.script.layout.mode == Mode::Trie
    }

    /// Whether it can win no more: its second node, or, in a trie, its last, has changed since it was
    /// seen.
    fn is_late(&self) -> bool {
        let last = self.before.plan(self.scx).count().saturating_sub(1);
        !self.before.is_as_seen(self.scx, 1)
            || (self.is_in_trie() && !self.before.is_as_seen(self.scx, last))
    }

    /// The pairs that the edit makes of those of a leaf.
    pub(crate) fn pairs_left(&self, leaf: u64) -> Result<MapPairs, AllocError> {
        let mut pairs = self.pairs_of(leaf)?;
        leave(&mut pairs, self.key, self.rule)?;
        Ok(pairs)
    }

    /// The pairs of a leaf.
    pub(crate) fn pairs_of(&self, leaf: u64) -> Result<MapPairs, AllocError> {
        let mut pairs = Vec::new(self.before.alloc);
        if !self.head(leaf).leaf || self.head(leaf).class > 0 {
            return Ok(pairs);
        }
        let more = self.settled(leaf, SettledPart::More);
        for (place, slot) in SLOTS.iter().enumerate() {
            if place as u64 <= more {
                pairs.push(self.pair_of(leaf, *slot))?;
            }
        }
        Ok(pairs)
    }

    /// The pair in a slot of a leaf.
    fn pair_of(&self, leaf: u64, slot: Slot) -> (u64, u128) {
        let low = self.settled(leaf, SettledPart::Value(slot));
        let high = self.settled(leaf, SettledPart::High(slot));
        let key = self.settled(leaf, SettledPart::Key(slot));
        (key, wide_value(low, high))
    }

    /// On which side of a fork a key is: all that is above all keys is on the left of a fork there.
    pub(crate) fn toward(&self, fork: u64, key: u64) -> Side {
        if self.head(fork).class > 0 || key < self.key_of(fork) {
            Side::Left
        } else {
            Side::Right
        }
    }

    /// Whether the search for a key passes a node.
    fn is_on_path(&self, key: u64, sought: u64) -> bool {
        let mut node = 0;
        for _ in 0..self.before.judge.layout().all_nodes() {
            if node == sought || self.head(node).leaf {
                break;
            }
            node = self.child(node, self.toward(node, key));
        }
        node == sought
    }

    pub(crate) fn head(&self, node: u64) -> Head {
        Head::of(self.settled(node, SettledPart::Head))
    }

    pub(crate) fn key_of(&self, node: u64) -> u64 {
        self.settled(node, SettledPart::Key(Slot::First))
    }

    pub(crate) fn child(&self, node: u64, side: Side) -> u64 {
        self.before.node_word(node, NodeWord::Child(side))
    }

    pub(crate) fn member(&self, place: u8) -> u64 {
        self.before.member(self.scx, place)
    }

    pub(crate) fn new_node(&self) -> u64 {
        self.before.scx_word(self.scx, ScxWord::New)
    }

    pub(crate) fn settled(&self, node: u64, part: SettledPart) -> u64 {
        self.before.node_word(node, NodeWord::Settled(part))
    }
}
