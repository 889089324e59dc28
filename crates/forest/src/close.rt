//! The end of a forest, once all passes are back.
ghost use Rattle.std.specs.Prelude.{◌≡◌, ◌<◌, ◌+◌, ◌↔◌, List, [], ◌∷◌, vec_len, IsSome, IfSome, IfOk, map};
ghost use Rattle.std.specs.List.{All};
ghost use Rattle.std.specs.Slots.{IsFull, slots_len};
ghost use Rattle.arena.specs.declared.word.Side.TheVariants.{Left, Right};
ghost use Rattle.arena.specs.Layout.{all_nodes, table_size, IsWord};
ghost use Rattle.arena.specs.PlainWords.{Contents, IsChanged, word_at};
ghost use Rattle.arena.specs.Words.{child};
ghost use Rattle.ordered_map.specs.Spelled.{Spells};
ghost use Rattle.arena.specs.History.{value};
ghost use Rattle.dict.specs.Typed.{TypedAllows};
ghost use Rattle.dict.specs.Words.{IsValidPair, IsWordOf};
ghost use Rattle.ordered_map.specs.Replies.{word_pair};
ghost use Rattle.tables.specs.declared.view.SeatedPass.{SeatedPass};
ghost use Rattle.tables.specs.Slotted.{names_of_table};
ghost use Rattle.tables.specs.TablePlans.{IsTableOnce};
ghost use Rattle.tables.specs.TableRule.{history_of};
ghost use Rattle.tables.specs.Passes.{IsOn, IsOf, PassView, AreAllBack, IsClosed};
ghost use Rattle.forest.specs.Copies.{AreCopied, map_word};
ghost use Rattle.forest.specs.JoinedSeats.{IsFrom, AreIn};

use crate::filled_once::TableOnce;
use crate::forest::Forest;
use crate::pass::Pass;
use arena::{
    Access, Kind, Layout, NoMemory, NodeNo, NodeWord, PlainWords, SettledPart, Shape, Side, Slot,
    Step, Word,
};
use atomic_table::Seat;
use dict::{Dict, WordKey, WordValue, pairs_of};
use ordered_map::spelled;
use prims::Cells;
use std::alloc::Global;
use std::fmt;
use std::marker::{Model, PhantomData};
use tables::table_shape::Keeping;
use tables::view::SeatView;
use tables::words::Words;

/// The words of a forest that no thread shares any more.
pub struct Closed<S: Shape> {
    words: atomic_table::Closed<u8, Global>,
    layout: Layout,
    shape: PhantomData<S>,
}

impl<S: Shape> Model for Closed<S> {
    ghost Value = { Contents };

    ghost view = { λ c. record { layout = c.layout; words = c.words.words.items } };

    ghost invariant = { λ c. IsFull c.words.words × (slots_len c.words.words ≡ table_size c.layout)
        × (slots_len c.words.slots ≡ 0) × (c.layout.mode ≡ S.mode) };
}

impl Closed<Cells> {
    /// The fields of a cell, if there is one of this number.
    pub fn cell(&self, node: NodeNo) -> Option<(u64, u64)>
        ensures some { IsSome result ↔ (node.0 < all_nodes self.now.layout) }
        ensures left { IfSome result (λ f. f.0 ≡ word_at self.now (child node.0 Left)) }
        ensures right { IfSome result (λ f. f.1 ≡ word_at self.now (child node.0 Right)) }
    {
        let left = Word::Node(node, NodeWord::Child(Side::Left));
        let right = Word::Node(node, NodeWord::Child(Side::Right));
        if !self.layout.has(left) {
            return None;
        }
        Some((self.word(left), self.word(right)))
    }
}

impl<K: WordKey, V: WordValue, B: Keeping> Closed<Dict<K, V, B>> {
    /// The pairs of the map, by rising key, as its run has left them. The only error is want of
    /// memory: it copies the words of all nodes first.
    pub fn pairs(&self, alloc: Global) -> Result<Vec<(K, V)>, NoMemory>
        ensures valid { IfOk result (λ pairs. All (IsValidPair K.is_valid V.is_valid) pairs.items) }
        ensures pairs { (lay : Layout) (passes : List PassView)
            (c : IsClosed (TypedAllows (IsWordOf K.is_valid K.word_of) (IsWordOf V.is_valid V.word_of)) lay passes self.now)
            → IfOk result (λ pairs. Spells lay (value (history_of c.planting c.rows)) (map (word_pair K.word_of V.word_of) pairs.items)) }
    {
        match spelled(alloc, &self.plain(alloc)?)? {
            Some(pairs) => pairs_of(alloc, &pairs),
            None => Ok(Vec::new(alloc)),
        }
    }
}

impl<S: Shape> Closed<S> {
    fn word(&self, word: Word) -> u64
        requires { IsWord self.now.layout word }
        ensures { result ≡ word_at self.now word }
    {
        self.words.word(self.layout.place(word))
    }

    /// A copy of the words that a map is read from.
    fn plain(&self, alloc: Global) -> Result<PlainWords, NoMemory>
        ensures mode { self.now.layout.mode ≡ S.mode }
        ensures layout { IfOk result (λ p. p.layout ≡ self.now.layout) }
        ensures copied { IfOk result (λ p. AreCopied self.now p (all_nodes self.now.layout)) }
    {
        let mut words = PlainWords::new(alloc, &self.layout)?;
        for number in 0..self.layout.all_nodes() {
            self.copy_node(&mut words, NodeNo(u64::from(number)));
        }
        Ok(words)
    }

    /// Copies those of one node.
    fn copy_node(&self, words: &mut PlainWords, node: NodeNo)
        requires inside { node.0 < all_nodes self.now.layout }
        requires layout { words.old.layout ≡ self.now.layout }
        requires before { AreCopied self.now words.old node.0 }
        ensures layout { words.new.layout ≡ self.now.layout }
        ensures copied { AreCopied self.now words.new (node.0 + 1) }
    {
        for number in 0..MAP_WORDS {
            self.copy(words, node, map_word(number));
        }
    }

    /// Copies a word of a node.
    fn copy(&self, words: &mut PlainWords, node: NodeNo, part: NodeWord)
        requires inside { IsWord self.now.layout (Word.Node node part) }
        requires layout { words.old.layout ≡ self.now.layout }
        ensures { IsChanged words.old words.new (Word.Node node part) (word_at self.now (Word.Node node part)) }
    {
        let word = Word::Node(node, part);
        let access = Access::Store(self.word(word));
        words.apply(Step {
            kind: Kind::Fill,
            word,
            access,
        });
    }
}

/// How many words of a node a map is read from.
pub(crate) const MAP_WORDS: u8 = 16;

/// Each of them by its number.
pub(crate) fn map_word(number: u8) -> NodeWord
    ensures { result ≡ map_word number }
{
    match number {
        0 => NodeWord::Settled(SettledPart::Head),
        1 => NodeWord::Settled(SettledPart::More),
        2 => NodeWord::Settled(SettledPart::Key(Slot::First)),
        3 => NodeWord::Settled(SettledPart::Key(Slot::Second)),
        4 => NodeWord::Settled(SettledPart::Key(Slot::Third)),
        5 => NodeWord::Settled(SettledPart::Key(Slot::Fourth)),
        6 => NodeWord::Settled(SettledPart::Value(Slot::First)),
        7 => NodeWord::Settled(SettledPart::Value(Slot::Second)),
        8 => NodeWord::Settled(SettledPart::Value(Slot::Third)),
        9 => NodeWord::Settled(SettledPart::Value(Slot::Fourth)),
        10 => NodeWord::Settled(SettledPart::High(Slot::First)),
        11 => NodeWord::Settled(SettledPart::High(Slot::Second)),
        12 => NodeWord::Settled(SettledPart::High(Slot::Third)),
        13 => NodeWord::Settled(SettledPart::High(Slot::Fourth)),
        14 => NodeWord::Child(Side::Left),
        _ => NodeWord::Child(Side::Right),
    }
}

impl<S: Shape> fmt::Debug for Closed<S> {
    fn fmt<W: fmt::Write>(&self, f: &mut fmt::Formatter<W>) -> fmt::Result {
        f.debug_struct("Closed")
            .field("passes", &self.layout.passes)
            .field("nodes", &self.layout.nodes)
            .field("scx", &self.layout.scx)
            .finish_non_exhaustive()
    }
}

impl<S: Shape> Drop for Closed<S> {
    fn drop(self) {
        let Closed {
            words,
            layout: _,
            shape: _,
        } = self;
        words.free();
    }
}

impl<S: TableOnce> Forest<S> {
    /// Ends the forest: each of its passes, which are all there, looks at the table once more. It
    /// takes no memory.
    pub fn close(self, passes: Vec<Pass<S>>) -> Closed<S>
        requires passes { All (IsOf self) passes.items }
        requires all { AreAllBack self.layout passes.items }
        ensures mode { result.layout.mode ≡ S.mode }
        ensures closed { IsClosed S.allows self.layout passes.items result }
    {
        let Forest {
            words,
            plan,
            turns: _,
            tries: _,
        } = self;
        let layout = plan.layout;
        match gather(&words, &layout, passes) {
            Some(seat) => Closed {
                words: words.close(seat),
                layout,
                shape: PhantomData,
            },
            None => unreachable!(),
        }
    }

    /// Ends the forest by one of its passes, which looks at the table once more: for a caller whose
    /// other passes are gone. It takes no memory.
    pub fn end(self, pass: Pass<S>) -> Closed<S>
        requires pass { IsOf self pass }
        ensures mode { result.layout.mode ≡ S.mode }
        ensures closed { IsClosed S.allows self.layout (pass ∷ []) result }
    {
        let Forest {
            words,
            plan,
            turns: _,
            tries: _,
        } = self;
        let layout = plan.layout;
        let seat = seat_of(&words, &layout, pass);
        Closed {
            words: words.close(seat),
            layout,
            shape: PhantomData,
        }
    }
}

/// One seat with all these passes.
fn gather<S: TableOnce>(
    words: &Words<S>,
    layout: &Layout,
    mut passes: Vec<Pass<S>>,
) -> Option<Seat<u8, SeatView>>
    requires table { IsTableOnce words.now.table.shared.table_id words.now.table.shared.key layout.now }
    requires passes { All (IsOn words.now.table.shared.table_id (names_of_table words.now.table.shared.key)) passes.items }
    ensures some { 0 < vec_len passes → IsSome result }
    ensures table { IfSome result (λ s. s.table_id ≡ words.now.table.shared.table_id) }
    ensures all { IfSome result (λ s. AreIn S.allows passes.items s.me.0.passes) }
{
    let mut all = seat_of(words, layout, passes.pop()?);
    while let Some(pass) = passes.pop() {
        let own = seat_of(words, layout, pass);
        words.take_in(&mut all, own);
    }
    Some(all)
}

/// The seat of a pass, which has looked at the table once more.
fn seat_of<S: TableOnce>(words: &Words<S>, layout: &Layout, pass: Pass<S>) -> Seat<u8, SeatView>
    requires table { IsTableOnce words.now.table.shared.table_id words.now.table.shared.key layout.now }
    requires pass { IsOn words.now.table.shared.table_id (names_of_table words.now.table.shared.key) pass }
    ensures table { result.table_id ≡ words.now.table.shared.table_id }
    ensures bare { result.me.1 ≡ [] }
    ensures pass { (k : SeatedPass) × (result.me.0.passes ≡ k ∷ []) × IsFrom S.allows pass k }
{
    let Pass {
        number: _,
        first_scx: _,
        share: _,
        seat,
        blamed: _,
        birth: _,
        room: _,
        kept: _,
        shape: _,
    } = pass;
    let mut seat = seat;
    words.look_alone(layout, &mut seat);
    seat
}
