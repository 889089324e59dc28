//! The rule of the table, and what a step shows the seat that makes it.
ghost use Rattle.std.specs.Prelude.{◌≡◌, ◌≤◌, ◌<◌, ◌+◌, ◌*◌, ◌^◌, ℕ, []};
ghost use Rattle.tables.specs.Ruled.{IsRuled, first_of_table};
ghost use Rattle.tables.specs.TableRule.{Made, Looked, seat_view, rest_of_seat, first_of_seat, joined_seat};

use crate::view::SeatView;
use arena::{Layout, NodeNo, PassNo, ScxNo, Shape, Step};
use atomic_table::{Join, Play, Split, TableRule};
use planting::Planting;
use std::marker::{Brand, PhantomData};

/// Some lawful run leads to the words, and each pass knows a beginning of it, after which are rows
/// of others alone. Of a run whose records come back the words are a window.
pub struct Lawful<S>(PhantomData<S>);

impl<S: Shape> TableRule<u8, SeatView, Site> for Lawful<S> {
    ghost holds = { λ site. IsRuled S.allows site };

    ghost first = { first_of_table };
}

/// The layout of a table, and what is planted in it.
#[derive(Drop)]
pub struct Plot {
    /// The layout.
    pub layout: Layout,
    /// What is planted.
    pub planting: Planting,
}

/// How names share slots in a table whose records come back.
#[derive(Clone, Copy, PartialEq, Eq)]
pub struct Turns {
    /// A node has the slot of the node that is 2 to this power before it.
    pub node_bits: u32,
    /// And an SCX-record that of the one that is 2 to this power before it.
    pub scx_bits: u32,
    /// How many names a slot has, less one.
    pub laps: u64,
}

impl Turns {
    ghost use Rattle.std.specs.Prelude.{◌≡◌, ◌<◌, ◌≤◌, ◌*◌, ◌+◌, ◌^◌};
    ghost use Rattle.arena.specs.Layout.{all_nodes, all_scx, first_node, first_scx};
    ghost use Rattle.tables.specs.LastingTables.{MayTakeTurns};
    ghost use Rattle.tables.specs.Shares.{HasFewNames};
    ghost use Rattle.tables.specs.Slotted.{in_turns};

    /// As few bits as tell the records of this table apart, and as many laps as numbers allow.
    pub fn of(layout: &Layout) -> Turns
        requires { all_nodes layout.now < 2 ^ 26 }
        ensures may { MayTakeTurns layout.now result }
        ensures narrow { (2 ^ result.node_bits ≤ 2 * all_nodes layout.now + 1)
            × (2 ^ result.scx_bits ≤ 2 * all_scx layout.now + 1) }
    {
        let node_bits = bits_for(layout.all_nodes());
        let scx_bits = bits_for(layout.all_scx());
        Turns {
            node_bits,
            scx_bits,
            laps: power_of_two(49 - node_bits.max(scx_bits)),
        }
    }

    /// The first name that a pass has for nodes.
    pub fn first_node(&self, layout: &Layout, pass: PassNo) -> NodeNo
        requires may { MayTakeTurns layout.now self.now }
        requires few { HasFewNames layout.now }
        requires pass { pass.0 < layout.now.passes }
        ensures is { result.0 ≡ first_node (in_turns layout.now self.now).lay pass.0 }
        ensures fits { result.0 < 2 ^ 56 }
    {
        let names = names_of(layout.nodes, self.laps, self.node_bits);
        NodeNo(u64::from(layout.opening()) + u64::from(pass.0) * names)
    }

    /// The first that it has for SCX-records.
    pub fn first_scx(&self, layout: &Layout, pass: PassNo) -> ScxNo
        requires may { MayTakeTurns layout.now self.now }
        requires few { HasFewNames layout.now }
        requires pass { pass.0 < layout.now.passes }
        ensures is { result.0 ≡ first_scx (in_turns layout.now self.now).lay pass.0 }
        ensures fits { result.0 < 2 ^ 56 }
    {
        let names = names_of(layout.scx, self.laps, self.scx_bits);
        ScxNo(1 + u64::from(pass.0) * names)
    }
}

/// By how many bits so many numbers are told apart.
fn bits_for(count: u32) -> u32
    ensures enough { count ≤ 2 ^ result }
    ensures narrow { 2 ^ result ≤ 2 * count + 1 }
    ensures few { (bits : ℕ) → bits ≤ 32 → count < 2 ^ bits → result ≤ bits }
{
    32 - count.leading_zeros()
}

/// How many names a pass has that has so many slots.
fn names_of(slots: u32, laps: u64, bits: u32) -> u64
    requires slots { slots ≤ 32768 }
    requires bits { bits ≤ 29 }
    requires laps { laps * 2 ^ bits ≤ 2 ^ 49 }
    ensures names { result ≡ slots + laps * 2 ^ bits }
    ensures few { result ≤ 2 ^ 50 }
{
    u64::from(slots) + laps * power_of_two(bits)
}

/// 2 to this power.
pub fn power_of_two(bits: u32) -> u64
    requires { bits < 64 }
    ensures { result ≡ 2 ^ bits }
{
    1 << bits
}

/// What a table is told once, as it is made.
#[derive(Drop)]
pub struct Site {
    /// How its words lie.
    pub layout: Layout,
    /// What is planted in it.
    pub planting: Planting,
    /// How its slots are taken again, if its records come back.
    pub turns: Option<Turns>,
}

/// A step, and the number of the call that makes it.
#[derive(Clone, Copy)]
pub struct CallStep {
    /// The number of the call, 0 where the step is of no call.
    pub call: u64,
    /// The step that is made.
    pub step: Step,
}

/// What the maker of a step says of it. Each call of a method of the table picks it.
pub trait Says {
    ghost use Rattle.tables.specs.declared.rule.CallStep.{CallStep};

    /// The step that its maker says it is.
    ghost said: { CallStep };
}

impl Says for Brand {
    ghost use Rattle.tables.specs.TableRule.{look};

    ghost said = { look };
}

/// What the maker of a step that is of no call comes to know by it. Each call of a method of the
/// table picks it.
pub trait Learns {
    ghost use Rattle.std.specs.Prelude.{ℕ};
    ghost use Rattle.tables.specs.declared.view.SeatView.{SeatView};

    /// What the seat knew, the number that the step has found or stored, and what the seat knows.
    ghost learns: { SeatView → ℕ → SeatView → Type 0 };
}

impl Learns for Brand {
    ghost learns = { λ v n w. w ≡ v };
}

/// The step of a seat with one pass.
pub struct Makes<S, J>(PhantomData<(S, J)>);

impl<S: Shape, J: Says> Play<u8, SeatView> for Makes<S, J> {
    ghost then = { λ st v n w. Made S.allows J.said v.0.passes n w.0.passes × (w.1 ≡ v.1) };
}

/// A step of a seat that is of no call.
pub struct Teaches<J>(PhantomData<J>);

impl<J: Learns> Play<u8, SeatView> for Teaches<J> {
    ghost then = { λ st v n w. J.learns v.0 n w.0 × (w.1 ≡ v.1) };
}

/// The step of a seat with two passes, by the first, which is then the second.
pub struct Looks<S>(PhantomData<S>);

impl<S: Shape> Play<u8, SeatView> for Looks<S> {
    ghost then = { λ st v n w. Looked S.allows v.0.passes w.0.passes × (w.1 ≡ v.1) };
}

/// The first pass of a seat goes to a new seat.
pub struct Deal;

impl Split<SeatView> for Deal {
    ghost left = { rest_of_seat };

    ghost right = { first_of_seat };
}

/// A seat takes in the passes of another.
pub struct Both;

impl Join<SeatView> for Both {
    ghost both = { joined_seat };

    ghost spent = { seat_view [] };
}
