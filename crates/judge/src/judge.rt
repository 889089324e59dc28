//! A judge of runs, which goes from row to row and judges each by the words and by what it
//! remembers of the rows before. Over a run each row costs a bounded time, except an exchange that
//! loses: if it is neither for the SCX-record that it finds nor for the one a word of which its
//! pass has loaded last, all SCX-records are looked at.
use crate::entering::{Entering, makes_entry};
use crate::freezing::Freezing;
use crate::naming::Naming;
use crate::past::Past;
use crate::taking::Taking;
use crate::uses::Uses;
use crate::{facts, rows};
use arena::{
    Access, IN_PROGRESS, Kind, Layout, NoMemory, NodeNo, NodeWord, PassNo, PlainWords, Row, ScxNo,
    ScxWord, Step, Word,
};
use std::alloc::Global;
use std::marker::Model;

/// The words as the rows so far have left them, and what is remembered of the rows.
#[derive(Drop)]
pub struct Judge {
    pub(crate) words: PlainWords,
    pub(crate) naming: Naming,
    pub(crate) uses: Uses,
    pub(crate) freezing: Freezing,
    pub(crate) entering: Entering,
    pub(crate) taking: Taking,
    /// The SCX-record a word of which each pass has loaded last, which says where to look first.
    pub(crate) loaded: Vec<u64>,
    past: Past,
}

impl Model for Judge {
    ghost use Rattle.judge.specs.Histories.{Judged, history_of_rows};

    ghost Value = { Judged };

    ghost use Rattle.judge.specs.StandsFor.{StandsFor};

    ghost view = { λ j. record { layout = j.words.layout; rows = j.past } };

    ghost invariant = { λ j. StandsFor j.words.layout (history_of_rows j.words.layout.mode j.past) j };
}

impl Judge {
    ghost use Rattle.arena.specs.declared.word.Side.{Side};
    ghost use Rattle.arena.specs.Blame.{IsInProgress};
    ghost use Rattle.arena.specs.Fills.{IsOwnNode, IsOwnScx, IsNamed, IsNamedScx, IsTakenNode, IsTakenScx};
    ghost use Rattle.arena.specs.History.{Start, ◌⊳◌, value, HasHeld};
    ghost use Rattle.arena.specs.Lawful.{IsLawful, Lawful, IsWin};
    ghost use Rattle.arena.specs.Layout.{IsWord, all_nodes, first_node, first_scx};
    ghost use Rattle.arena.specs.Log.{log, entry, last, is_final};
    ghost use Rattle.arena.specs.PlainWords.{word_at};
    ghost use Rattle.arena.specs.Shape.{IsBegin};
    ghost use Rattle.arena.specs.TakenNodes.{taken_nodes};
    ghost use Rattle.arena.specs.Words.{child, info};
    ghost use Rattle.judge.specs.Histories.{seen_history};
    ghost use Rattle.judge.specs.Uses.{WasInField};

    /// The judge of no row. The only error is want of memory.
    pub fn new(alloc: Global, layout: &Layout) -> Result<Judge, NoMemory>
        ensures layout { IfOk result (λ j. j.layout ≡ layout.now) }
        ensures start { IfOk result (λ j. seen_history j ≡ Start layout.now.mode) }
    {
        Ok(Judge {
            words: PlainWords::new(alloc, layout)?,
            naming: Naming::new(alloc, layout)?,
            uses: Uses::new(alloc, layout)?,
            freezing: Freezing::new(alloc, layout)?,
            entering: Entering::new(alloc, layout)?,
            taking: Taking::new(alloc, layout)?,
            loaded: vec![in alloc; 0; layout.passes as usize]?,
            past: Past::new(),
        })
    }

    /// The table that the rows are of.
    pub fn layout(&self) -> &Layout
        ensures { result.now ≡ self.now.layout }
    {
        self.words.layout()
    }

    /// The words as the rows have left them.
    pub fn words(&self) -> &PlainWords
        ensures layout { result.now.layout ≡ self.now.layout }
        ensures words { (w : Word) → IsWord self.now.layout w →
            word_at result.now w ≡ value (seen_history self.now) w }
    {
        &self.words
    }

    /// The rows so far are a lawful history.
    pub fn laws_hold(&self)
        ensures { Lawful self.now.layout (seen_history self.now) }
    {
        let _words = &self.words;
    }

    /// What a word holds.
    pub fn get(&self, word: Word) -> u64
        ensures { result ≡ value (seen_history self.now) word }
    {
        facts::value_of(self, word)
    }

    /// Whether a row is lawful after those before it.
    pub fn is_lawful(&self, row: &Row) -> bool
        ensures { IsTrue result ↔ IsLawful self.now.layout (seen_history self.now) row.now }
    {
        rows::is_lawful(self, row)
    }

    /// Takes in a lawful row. The only error is want of memory, and then it is not taken in.
    pub fn make(&mut self, row: &Row) -> Result<(), NoMemory>
        requires { IsLawful self.old.layout (seen_history self.old) row.now }
        ensures layout { self.new.layout ≡ self.old.layout }
        ensures made { OnOk result (self.new.rows ≡ row.now ∷ self.old.rows) }
        ensures history { OnOk result (seen_history self.new ≡ row.now ⊳ seen_history self.old) }
        ensures refused { OnErr result (self.new ≡ self.old) }
    {
        self.naming.reserve()?;
        self.naming.note(row);
        self.uses.note(row);
        self.freezing.note(row);
        self.entering.note(&self.words, row);
        self.taking.note(self.words.layout(), row);
        note_load(&mut self.loaded, row);
        self.words.apply(left_by(row));
        self.past.push(*row);
        Ok(())
    }

    /// Whether an info word names an SCX-record, or has named it: it has begun.
    pub fn is_named(&self, scx: ScxNo) -> bool
        ensures { IsTrue result ↔ IsNamedScx (seen_history self.now) scx.0 }
    {
        facts::is_named_scx(self, scx.0)
    }

    /// Whether a node is named. Of one that is not of the table it says so, named or not.
    pub fn is_named_node(&self, node: NodeNo) -> bool
        ensures named { IsNamed self.now.layout (seen_history self.now) node.0 → IsTrue result }
        ensures inside { node.0 < all_nodes self.now.layout → IsTrue result →
            IsNamed self.now.layout (seen_history self.now) node.0 }
    {
        node.0 >= u64::from(self.layout().all_nodes()) || facts::is_named_node(self, node.0)
    }

    /// Whether a field holds a node, or has held it. Of one that is not of the table it says so,
    /// held or not.
    pub fn is_in_field(&self, node: NodeNo) -> bool
        ensures never { result ≡ false → (m : ℕ) → (side : Side) →
            HasHeld (seen_history self.now) (child m side) node.0 → ⊥ }
        ensures inside { node.0 < all_nodes self.now.layout → IsTrue result →
            WasInField (seen_history self.now) node.0 }
    {
        node.0 >= u64::from(self.layout().all_nodes()) || facts::was_in_field(self, node.0)
    }

    /// Whether an SCX-record has begun and is not finished.
    pub fn is_in_progress(&self, scx: ScxNo) -> bool
        ensures { IsTrue result ↔ IsInProgress (seen_history self.now) scx.0 }
    {
        self.get(Word::Scx(scx, ScxWord::State)) == IN_PROGRESS && self.is_named(scx)
    }

    /// Whether a row begins the SCX-record that it stores.
    pub fn is_begin(&self, row: &Row) -> bool
        ensures { IsTrue result ↔ IsBegin (seen_history self.now) row.now row.now.after }
    {
        let scx = ScxNo(row.after);
        let node = NodeNo(self.get(Word::Scx(scx, ScxWord::Member(0))));
        row.kind == Kind::Freeze
            && row.before != row.after
            && row.word == Word::Node(node, NodeWord::Info)
            && row.before == self.get(Word::Scx(scx, ScxWord::Seen(0)))
    }

    /// The SCX-record whose update a lawful row is, if that wins: the one that the info of the
    /// field's node names.
    pub fn winner(&self, row: &Row) -> Option<ScxNo>
        requires { IsLawful self.now.layout (seen_history self.now) row.now }
        ensures wins { IfSome result (λ s. IsWin (seen_history self.now) row.now s.0) }
        ensures holds { IfSome result (λ s. (n : ℕ) → (side : Side) →
            row.now.word ≡ child n side → s.0 ≡ value (seen_history self.now) (info n)) }
        ensures logged { IfSome result (λ s. (n : ℕ) × (side : Side) × (row.now.word ≡ child n side) ×
            (log self.now.layout (row.now ⊳ seen_history self.now) ≡
            entry self.now.layout (seen_history self.now) s.0 n side row.now.after ∷ log self.now.layout (seen_history self.now))) }
        ensures none { IfNone result ((s : ℕ) → IsWin (seen_history self.now) row.now s → ⊥) }
        ensures unlogged { IfNone result (log self.now.layout (row.now ⊳ seen_history self.now) ≡
            log self.now.layout (seen_history self.now)) }
    {
        let _words = &self.words;
        match row.word {
            Word::Node(node, _) if makes_entry(row) => {
                Some(ScxNo(self.get(Word::Node(node, NodeWord::Info))))
            }
            _ => None,
        }
    }

    /// How many updates have won.
    pub fn entries(&self) -> u64
        ensures { result ≡ length (log self.now.layout (seen_history self.now)) }
    {
        self.entering.entries
    }

    /// The place of the last entry over a node of the table, counted from 1; 0 where there is none.
    pub fn last(&self, node: NodeNo) -> u64
        ensures { result ≡ last (log self.now.layout (seen_history self.now)) node.0 }
    {
        self.entering.last_of(node.0)
    }

    /// Whether an entry finalizes a node of the table.
    pub fn is_final(&self, node: NodeNo) -> bool
        ensures { result ≡ is_final (log self.now.layout (seen_history self.now)) node.0 }
    {
        self.entering.is_final(node.0)
    }

    /// How many nodes are taken, of all shares.
    pub fn taken(&self) -> u32
        ensures { result ≡ length (taken_nodes (seen_history self.now)) }
    {
        self.taking.all_nodes
    }

    /// How many nodes of its share a pass has taken: the first ones.
    pub fn nodes_taken(&self, pass: PassNo) -> u32
        requires { pass.0 < self.now.layout.passes }
        ensures few { result ≤ self.now.layout.nodes }
        ensures taken { (n : ℕ) → IsOwnNode self.now.layout pass.0 n →
            IsTakenNode (seen_history self.now) n ↔ (n < first_node self.now.layout pass.0 + result) }
    {
        facts::nodes_taken(self, pass)
    }

    /// How many SCX-records of its share a pass has taken: the first ones.
    pub fn scx_taken(&self, pass: PassNo) -> u32
        requires { pass.0 < self.now.layout.passes }
        ensures few { result ≤ self.now.layout.scx }
        ensures taken { (s : ℕ) → IsOwnScx self.now.layout pass.0 s →
            IsTakenScx (seen_history self.now) s ↔ (s < first_scx self.now.layout pass.0 + result) }
    {
        facts::scx_taken(self, pass)
    }
}

ghost use Rattle.std.specs.Prelude.{◌≡◌, ◌≢◌, ℕ, ◌+◌, ◌<◌, ◌≤◌, ◌∷◌, ◌↔◌, false, IsTrue, IfOk, IfSome, IfNone, OnOk, OnErr, length};
ghost use Rattle.arena.specs.declared.step.Access.TheVariants.{Store};

/// The step that leaves what a row has left in its word.
fn left_by(row: &Row) -> Step
    ensures word { result.word ≡ row.now.word }
    ensures access { result.access ≡ Store row.now.after }
{
    Step {
        kind: row.kind,
        word: row.word,
        access: Access::Store(row.after),
    }
}

/// Remembers the SCX-record of the word that a pass has loaded.
fn note_load(loaded: &mut [u64], row: &Row)
    requires { row.now.pass.0 < length loaded.old }
{
    if let Word::Scx(scx, _) = row.word {
        loaded[row.pass.0 as usize] = scx.0;
    }
}
