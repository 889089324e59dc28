//! The end of a forest whose records come back, once its passes are back.
ghost use Rattle.std.specs.Prelude.{◌≡◌, ◌≤◌, ◌<◌, ◌+◌, List, [], ◌∷◌, vec_len, IsSome, IfSome, IfOk, map};
ghost use Rattle.std.specs.List.{All};
ghost use Rattle.std.specs.Slots.{IsFull, slots_len};
ghost use Rattle.arena.specs.Layout.{all_nodes, table_size, IsWord};
ghost use Rattle.arena.specs.PlainWords.{IsChanged};
ghost use Rattle.arena.specs.History.{value};
ghost use Rattle.ordered_map.specs.Replies.{word_pair};
ghost use Rattle.ordered_map.specs.Spelled.{Spells};
ghost use Rattle.template.specs.Balance.{map_mode};
ghost use Rattle.dict.specs.Typed.{TypedAllows};
ghost use Rattle.dict.specs.Words.{IsValidPair, IsWordOf};
ghost use Rattle.tables.specs.Passes.{IsOf, IsOn, PassView, AreAllBack};
ghost use Rattle.tables.specs.Seats.{IsSeatAt};
ghost use Rattle.tables.specs.Slotted.{in_turns, names_of_table};
ghost use Rattle.tables.specs.TableRule.{history_of};
ghost use Rattle.tables.specs.declared.view.SeatedPass.{SeatedPass};
ghost use Rattle.forest.specs.Remains.{AreNamedBySlots, AreRemains, AreSeated, IsSeatOf, SlotWords, by_slots, slot_value};

use crate::close::{MAP_WORDS, map_word};
use crate::forest::Forest;
use crate::lasting::Lasts;
use crate::pass::Pass;
use arena::{Access, Kind, Layout, NoMemory, NodeNo, NodeWord, PlainWords, Shape, Step, Word};
use atomic_table::Seat;
use dict::{Dict, WordKey, WordValue, pairs_of};
use ordered_map::spelled;
use std::alloc::Global;
use std::fmt;
use std::marker::{Model, PhantomData};
use tables::rule::{Turns, power_of_two};
use tables::table_shape::TableShape;
use tables::view::SeatView;
use tables::words::Words;
use template::FixedBalance;
use upkeep::lasting_sights::trees_last;

/// The words of a forest whose records come back, that no thread shares any more.
pub struct Remains<S: Shape> {
    words: atomic_table::Closed<u8, Global>,
    layout: Layout,
    turns: Turns,
    shape: PhantomData<S>,
}

impl<S: Shape> Model for Remains<S> {
    ghost Value = { SlotWords };

    ghost view = { λ c. record { slots = in_turns c.layout c.turns; words = c.words.words.items } };

    ghost invariant = { λ c. IsFull c.words.words × (table_size c.layout ≤ slots_len c.words.words)
        × (slots_len c.words.slots ≡ 0) × (c.layout.mode ≡ S.mode) × (c.turns.node_bits ≤ 26) };
}

impl<K: WordKey, V: WordValue, B: FixedBalance> Remains<Dict<K, V, Lasts<B>>> {
    /// The pairs of the map, by rising key, as its run has left them. The only error is want of
    /// memory: it copies the words of all slots first.
    pub fn pairs(&self, alloc: Global) -> Result<Vec<(K, V)>, NoMemory>
        ensures valid { IfOk result (λ pairs. All (IsValidPair K.is_valid V.is_valid) pairs.items) }
        ensures pairs { (lay : Layout) (passes : List PassView)
            (c : AreRemains (TypedAllows (IsWordOf K.is_valid K.word_of) (IsWordOf V.is_valid V.word_of)) lay passes self.now)
            → IfOk result (λ pairs. Spells lay (value (history_of c.planting c.rows)) (map (word_pair K.word_of V.word_of) pairs.items)) }
    {
        match spelled(alloc, &self.plain(alloc)?)? {
            Some(pairs) => pairs_of(alloc, &pairs),
            None => Ok(Vec::new(alloc)),
        }
    }
}

impl<S: Shape> Remains<S> {
    /// A copy of the words that a map is read from, in which each node goes by its slot.
    fn plain(&self, alloc: Global) -> Result<PlainWords, NoMemory>
        ensures mode { self.now.slots.table.mode ≡ S.mode }
        ensures layout { IfOk result (λ p. p.layout ≡ self.now.slots.table) }
        ensures copied { IfOk result (λ p. AreNamedBySlots self.now p (all_nodes self.now.slots.table)) }
    {
        let mut words = PlainWords::new(alloc, &self.layout)?;
        for number in 0..self.layout.all_nodes() {
            self.copy_node(&mut words, NodeNo(u64::from(number)));
        }
        Ok(words)
    }

    /// Copies those of one slot.
    fn copy_node(&self, words: &mut PlainWords, node: NodeNo)
        requires inside { node.0 < all_nodes self.now.slots.table }
        requires layout { words.old.layout ≡ self.now.slots.table }
        requires before { AreNamedBySlots self.now words.old node.0 }
        ensures layout { words.new.layout ≡ self.now.slots.table }
        ensures copied { AreNamedBySlots self.now words.new (node.0 + 1) }
    {
        for number in 0..MAP_WORDS {
            self.copy(words, Word::Node(node, map_word(number)));
        }
    }

    /// Copies a word.
    fn copy(&self, words: &mut PlainWords, word: Word)
        requires inside { IsWord self.now.slots.table word }
        requires layout { words.old.layout ≡ self.now.slots.table }
        ensures { IsChanged words.old words.new word (by_slots self.now word) }
    {
        let access = Access::Store(self.by_slots(word));
        words.apply(Step {
            kind: Kind::Fill,
            word,
            access,
        });
    }

    /// What a word of a slot holds, where a field names the slot of its child.
    fn by_slots(&self, word: Word) -> u64
        requires { IsWord self.now.slots.table word }
        ensures { result ≡ by_slots self.now word }
    {
        match word {
            Word::Node(_, NodeWord::Child(_)) => self.word(word)
                % power_of_two(self.turns.node_bits),
            _ => self.word(word),
        }
    }

    fn word(&self, word: Word) -> u64
        requires { IsWord self.now.slots.table word }
        ensures { result ≡ slot_value self.now word }
    {
        self.words.word(self.layout.place(word))
    }
}

impl<S: Shape> fmt::Debug for Remains<S> {
    fn fmt<W: fmt::Write>(&self, f: &mut fmt::Formatter<W>) -> fmt::Result {
        f.debug_struct("Remains")
            .field("passes", &self.layout.passes)
            .field("nodes", &self.layout.nodes)
            .field("scx", &self.layout.scx)
            .finish_non_exhaustive()
    }
}

impl<S: Shape> Drop for Remains<S> {
    fn drop(self) {
        let Remains {
            words,
            layout: _,
            turns: _,
            shape: _,
        } = self;
        words.free();
    }
}

impl<K: WordKey, V: WordValue, B: FixedBalance> Forest<Dict<K, V, Lasts<B>>> {
    /// Ends the forest, whose passes are all there. It takes no memory, and makes no step.
    pub fn close(self, passes: Vec<Pass<Dict<K, V, Lasts<B>>>>) -> Remains<Dict<K, V, Lasts<B>>>
        requires passes { All (IsOf self) passes.items }
        requires all { AreAllBack self.layout passes.items }
        ensures mode { result.slots.table.mode ≡ map_mode (B.trie B.the) }
        ensures closed { AreRemains (TypedAllows (IsWordOf K.is_valid K.word_of) (IsWordOf V.is_valid V.word_of))
            self.layout passes.items result }
    {
        match join_all(&self.words, passes) {
            Some(seat) => self.close_with(seat),
            None => unreachable!(),
        }
    }

    /// Ends the forest by one of its passes: for a caller whose other passes are gone. It takes no
    /// memory, and makes no step.
    pub fn end(self, pass: Pass<Dict<K, V, Lasts<B>>>) -> Remains<Dict<K, V, Lasts<B>>>
        requires pass { IsOf self pass }
        ensures mode { result.slots.table.mode ≡ map_mode (B.trie B.the) }
        ensures closed { AreRemains (TypedAllows (IsWordOf K.is_valid K.word_of) (IsWordOf V.is_valid V.word_of))
            self.layout (pass ∷ []) result }
    {
        self.close_with(into_seat(pass))
    }

    /// The words at the end, with what a seat knows of them.
    fn close_with(self, seat: Seat<u8, SeatView>) -> Remains<Dict<K, V, Lasts<B>>>
        requires { seat.table_id ≡ self.table }
        ensures mode { result.slots.table.mode ≡ map_mode (B.trie B.the) }
        ensures remains { (passes : List PassView) → All (IsOf self) passes
            → AreSeated (TypedAllows (IsWordOf K.is_valid K.word_of) (IsWordOf V.is_valid V.word_of)) passes seat.me.0.passes
            → AreRemains (TypedAllows (IsWordOf K.is_valid K.word_of) (IsWordOf V.is_valid V.word_of))
            self.layout passes result }
    {
        trees_last::<Dict<K, V, Lasts<B>>>();
        let Forest {
            words,
            plan,
            turns,
            tries: _,
        } = self;
        match turns {
            Some(turns) => Remains {
                words: words.close(seat),
                layout: plan.layout,
                turns,
                shape: PhantomData,
            },
            None => unreachable!(),
        }
    }
}

/// One seat with all these passes.
fn join_all<S: TableShape>(words: &Words<S>, mut passes: Vec<Pass<S>>) -> Option<Seat<u8, SeatView>>
    requires passes { All (IsOn words.now.table.shared.table_id (names_of_table words.now.table.shared.key)) passes.items }
    ensures some { 0 < vec_len passes → IsSome result }
    ensures table { IfSome result (λ s. IsSeatAt words.now s) }
    ensures all { IfSome result (λ s. AreSeated S.allows passes.items s.me.0.passes) }
{
    let mut all = into_seat(passes.pop()?);
    while let Some(pass) = passes.pop() {
        words.take_in(&mut all, into_seat(pass));
    }
    Some(all)
}

/// The seat of a pass.
fn into_seat<S: TableShape>(pass: Pass<S>) -> Seat<u8, SeatView>
    ensures table { result.table_id ≡ pass.table }
    ensures bare { result.me.1 ≡ [] }
    ensures pass { (k : SeatedPass) × (result.me.0.passes ≡ k ∷ []) × IsSeatOf S.allows pass k }
{
    let Pass {
        number: _,
        first_scx: _,
        share: _,
        seat,
        blamed: _,
        birth: _,
        room: _,
        kept: _,
        shape: _,
    } = pass;
    seat
}
