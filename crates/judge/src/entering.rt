//! The log: which updates have won, and what the entries say of each node.
use arena::{
    Kind, Layout, MemberIndex, NoMemory, NodeNo, NodeWord, PlainWords, Plan, Row, ScxNo, ScxWord,
    Word,
};
use std::alloc::Global;

/// How many entries there are, whose updates have won, and what the entries say of nodes.
#[derive(Drop)]
pub(crate) struct Entering {
    pub(crate) entries: u64,
    pub(crate) won: Vec<bool>,
    /// The place of the last entry over each node, or 0.
    pub(crate) last: Vec<u64>,
    pub(crate) finals: Vec<bool>,
}

impl Entering {
    ghost use Rattle.arena.specs.History.{Start};
    ghost use Rattle.arena.specs.Layout.{all_nodes, IsWord};
    ghost use Rattle.judge.specs.Graph.{has_flag};
    ghost use Rattle.judge.specs.Entering.{EnteringStands, MayEnter, last_after, finals_after, plan_in, holder_in};

    /// No entry yet. The only error is want of memory.
    pub(crate) fn new(alloc: Global, layout: &Layout) -> Result<Entering, NoMemory>
        ensures { IfOk result (EnteringStands layout.now (Start layout.now.mode)) }
    {
        let nodes = layout.all_nodes() as usize;
        Ok(Entering {
            entries: 0,
            won: vec![in alloc; false; layout.all_scx() as usize]?,
            last: vec![in alloc; 0; nodes]?,
            finals: vec![in alloc; false; nodes]?,
        })
    }

    /// Whether an update of an SCX-record has won.
    pub(crate) fn has_won(&self, scx: u64) -> bool
        ensures { result ≡ has_flag self.now.won.items scx }
    {
        scx < self.won.len() as u64 && self.won[scx as usize]
    }

    /// The place of the last entry over a node.
    pub(crate) fn last_of(&self, node: u64) -> u64
        ensures { result ≡ slice_index_or self.now.last.items node 0 }
    {
        if node < self.last.len() as u64 {
            self.last[node as usize]
        } else {
            0
        }
    }

    /// Whether an entry finalizes a node.
    pub(crate) fn is_final(&self, node: u64) -> bool
        ensures { result ≡ has_flag self.now.finals.items node }
    {
        node < self.finals.len() as u64 && self.finals[node as usize]
    }

    /// Takes in a row, before its step is made on the words: of an update that changes its field
    /// an entry, of the SCX-record that the info of the field's node names.
    pub(crate) fn note(&mut self, words: &PlainWords, row: &Row)
        requires word { IsWord words.now.layout row.now.word }
        requires may { makes_entry row.now ≡ true →
            MayEnter words.now self.old (holder_in words.now row.now.word) }
        ensures entries { self.new.entries ≡ (if makes_entry row.now then self.old.entries + 1 else self.old.entries) }
        ensures won { self.new.won.items ≡
            (if makes_entry row.now
            then slice_set self.old.won.items (holder_in words.now row.now.word) true
            else self.old.won.items) }
        ensures last { let s = holder_in words.now row.now.word in self.new.last.items ≡
            (if makes_entry row.now
            then last_after words.now s (count_of (plan_in words.now s)) (self.old.entries + 1) self.old.last.items
            else self.old.last.items) }
        ensures finals { let s = holder_in words.now row.now.word in self.new.finals.items ≡
            (if makes_entry row.now
            then finals_after words.now s (count_of (plan_in words.now s)) self.old.finals.items
            else self.old.finals.items) }
    {
        if let Word::Node(node, _) = row.word {
            if makes_entry(row) {
                let scx = words.get(Word::Node(node, NodeWord::Info));
                self.enter(words, ScxNo(scx));
            }
        }
    }

    /// An entry of an SCX-record.
    fn enter(&mut self, words: &PlainWords, scx: ScxNo)
        requires { MayEnter words.now self.old scx.0 }
        ensures entries { self.new.entries ≡ self.old.entries + 1 }
        ensures won { self.new.won.items ≡ slice_set self.old.won.items scx.0 true }
        ensures last { self.new.last.items ≡
            last_after words.now scx.0 (count_of (plan_in words.now scx.0)) (self.old.entries + 1) self.old.last.items }
        ensures finals { self.new.finals.items ≡
            finals_after words.now scx.0 (count_of (plan_in words.now scx.0)) self.old.finals.items }
    {
        self.entries += 1;
        self.won[scx.0 as usize] = true;
        let plan = Plan(words.get(Word::Scx(scx, ScxWord::Plan)));
        for place in 0..plan.count() {
            let node = NodeNo(words.get(Word::Scx(scx, ScxWord::Member(place))));
            self.cover(plan, place, node);
        }
    }

    /// The newest entry covers a node at a place.
    fn cover(&mut self, plan: Plan, place: u8, node: NodeNo)
        requires place { place < 4 }
        requires last { node.0 < length self.old.last.items }
        requires finals { node.0 < length self.old.finals.items }
        ensures entries { self.new.entries ≡ self.old.entries }
        ensures won { self.new.won.items ≡ self.old.won.items }
        ensures last { self.new.last.items ≡ slice_set self.old.last.items node.0 self.old.entries }
        ensures finals { self.new.finals.items ≡
            (if plan_finalizes plan.0 place
            then slice_set self.old.finals.items node.0 true
            else self.old.finals.items) }
    {
        self.last[node.0 as usize] = self.entries;
        if finalizes(plan, place) {
            self.finals[node.0 as usize] = true;
        }
    }
}

ghost use Rattle.std.specs.Prelude.{◌≡◌, ◌+◌, ◌<◌, ℕ, IfOk, if◌then◌else◌, true, false, length, slice_index_or, slice_set};
ghost use Rattle.arena.specs.ScxRecords.{count_of, plan_finalizes};
ghost use Rattle.judge.specs.Enters.{makes_entry};

/// Whether a row makes an entry: it is an update that changes its field.
pub(crate) fn makes_entry(row: &Row) -> bool
    ensures { result ≡ makes_entry row.now }
{
    match (row.kind, row.word) {
        (Kind::Update, Word::Node(_, NodeWord::Child(_))) => row.before != row.after,
        _ => false,
    }
}

/// Whether a plan finalizes the node at a place.
pub(crate) fn finalizes(plan: Plan, place: u8) -> bool
    requires { place < 4 }
    ensures { result ≡ plan_finalizes plan.0 place }
{
    match MemberIndex::new(place.into()) {
        Some(j) => plan.finalizes(j),
        None => false,
    }
}
