//! The words of a table in plain memory, for one thread.
ghost use Rattle.std.specs.Prelude.{◌≡◌, ◌≢◌, ℕ, ◌+◌, IfOk, slice_index, length, vec_len};
ghost use Rattle.arena.specs.Layout.{table_size, tree_opening, records_opening, IsWord};
ghost use Rattle.arena.specs.PlainWords.{Contents, IsChanged, IsOpening, word_at};
ghost use Rattle.arena.specs.Words.{word_after};
ghost use Rattle.arena.specs.declared.word.Word.{Word};

use crate::fault::NoMemory;
use crate::layout::Layout;
use crate::limits::Mode;
use crate::number::{NodeNo, ScxNo};
use crate::opening::opening_word;
use crate::step::{Access, Step};
use crate::word::{ABORTED, NodeWord, ScxWord, SettledPart, Side, Word};
use std::alloc::Global;
use std::marker::Model;

/// What a word holds after a access that found `found`.
fn stored(access: Access, found: u64) -> u64
    ensures { result ≡ word_after access found }
{
    match access {
        Access::Load => found,
        Access::Store(new) => new,
        Access::Exchange { expected, new } => { if found == expected { new } else { found } }
    }
}

/// The words of a table, which any client may change one at a time.
#[derive(Drop)]
pub struct PlainWords {
    layout: Layout,
    words: Vec<u64>,
}

impl Model for PlainWords {
    ghost Value = { Contents };

    ghost view = { λ p. record { layout = p.layout; words = p.words.items } };

    ghost invariant = { λ p. vec_len p.words ≡ table_size p.layout };
}

impl PlainWords {
    /// The words as they are at the start. The only error is want of memory.
    pub fn new(alloc: Global, layout: &Layout) -> Result<PlainWords, NoMemory>
        ensures layout { IfOk result (λ p. p.layout ≡ layout.now) }
        ensures opening { IfOk result IsOpening }
    {
        let mut words = PlainWords::zeros(alloc, layout)?;
        words.set(Word::Scx(ScxNo(0), ScxWord::State), ABORTED);
        if layout.mode.is_map() {
            words.plant();
        }
        Ok(words)
    }

    fn zeros(alloc: Global, layout: &Layout) -> Result<PlainWords, NoMemory>
        ensures layout { IfOk result (λ p. p.layout ≡ layout.now) }
        ensures zeros { IfOk result (λ p. (w : Word) → IsWord p.layout w → word_at p w ≡ 0) }
    {
        let words = vec![in alloc; 0; layout.size()]?;
        Ok(PlainWords {
            layout: *layout,
            words,
        })
    }

    /// The opening tree.
    fn plant(&mut self)
        requires { (w : Word) → IsWord self.old.layout w → word_at self.old w ≡ records_opening w }
        ensures layout { self.new.layout ≡ self.old.layout }
        ensures opening { (w : Word) → IsWord self.old.layout w → word_at self.new w ≡ tree_opening w }
    {
        self.open(Word::Node(NodeNo(0), NodeWord::Settled(SettledPart::Head)));
        self.open(Word::Node(NodeNo(0), NodeWord::Child(Side::Left)));
        self.open(Word::Node(NodeNo(0), NodeWord::Child(Side::Right)));
        self.open(Word::Node(NodeNo(1), NodeWord::Settled(SettledPart::Head)));
        self.open(Word::Node(NodeNo(2), NodeWord::Settled(SettledPart::Head)));
    }

    /// Gives a word what it holds in the opening tree.
    fn open(&mut self, word: Word)
        requires { IsWord self.old.layout word }
        ensures { IsChanged self.old self.new word (tree_opening word) }
    {
        self.set(word, opening_word(Mode::Tree, word));
    }

    fn set(&mut self, word: Word, value: u64)
        requires { IsWord self.old.layout word }
        ensures { IsChanged self.old self.new word value }
    {
        let place = self.layout.place(word);
        self.words[place] = value;
    }

    /// The table that these words are of.
    pub fn layout(&self) -> &Layout
        ensures { result.now ≡ self.now.layout }
    {
        &self.layout
    }

    /// What a word holds.
    pub fn get(&self, word: Word) -> u64
        requires { IsWord self.now.layout word }
        ensures { result ≡ word_at self.now word }
    {
        self.words[self.layout.place(word)]
    }

    /// The words by their places.
    pub fn words(&self) -> &[u64]
        ensures words { result.now ≡ self.now.words }
        ensures size { length result.now ≡ table_size self.now.layout }
    {
        &self.words
    }

    /// Makes one step, and answers what its word held before.
    pub fn apply(&mut self, step: Step) -> u64
        requires { IsWord self.old.layout step.word }
        ensures found { result ≡ word_at self.old step.word }
        ensures after { IsChanged self.old self.new step.word (word_after step.access result) }
    {
        let found = self.get(step.word);
        self.set(step.word, stored(step.access, found));
        found
    }
}
