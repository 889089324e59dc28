//! The books of a pass as its table opens: its slots hold its names of the first lap.
ghost use Rattle.std.specs.Prelude.{◌≡◌, ◌+◌, ◌*◌, ◌^◌, ◌<◌, ◌≤◌, List, IfOk};
ghost use Rattle.arena.specs.declared.step.Row.{Row};
ghost use Rattle.slots.specs.Lasting.{IsLasting};
ghost use Rattle.tables.specs.LastingOpening.{first_memory};
ghost use Rattle.tables.specs.Slotted.{in_turns};
ghost use Rattle.tables.specs.declared.view.SeatedPass.{SeatedPass};
ghost use Rattle.upkeep.specs.UpkeepBook.{HasNoneLost, IsBook};
ghost use Rattle.upkeep.specs.UpkeepOpening.{AreNamesOf, ArePlacesOf};

use crate::book::{OwnSlot, OwnSlots, SlotUse};
use crate::kind::RecordKind;
use arena::{Layout, NoMemory, PassNo};
use std::alloc::Global;
use tables::rule::Turns;

/// Where the slots and the names of a pass of one kind are.
#[derive(Clone, Copy)]
pub struct OwnPlaces {
    /// Its first slot.
    first: u64,
    /// How many slots it has.
    count: u32,
    /// A name has the slot of the one that is so many before it.
    turn: u64,
    /// Its first name.
    name: u64,
    /// Where its names end.
    end: u64,
}

/// Where they are.
fn own_places(kind: RecordKind, layout: &Layout, turns: &Turns, pass: PassNo) -> OwnPlaces
    requires pass { pass.0 < layout.now.passes }
    requires bits { (turns.now.node_bits ≤ 60) × (turns.now.scx_bits ≤ 60) }
    requires lasting { IsLasting (in_turns layout.now turns.now) }
    ensures { ArePlacesOf (in_turns layout.now turns.now) kind pass.0 result }
{
    match kind {
        RecordKind::Node => {
            let first = layout.first_node(pass);
            places_of(
                layout.opening(),
                first,
                layout.nodes,
                turns.node_bits,
                turns.laps,
                pass,
            )
        }
        RecordKind::Scx => {
            let first = layout.first_scx(pass);
            places_of(1, first, layout.scx, turns.scx_bits, turns.laps, pass)
        }
    }
}

/// Where they are, of so many slots each pass behind `start`.
fn places_of(start: u32, first: u32, count: u32, bits: u32, laps: u64, pass: PassNo) -> OwnPlaces
    requires bits { bits ≤ 60 }
    requires pass { pass.0 < 32 }
    requires names { count + laps * 2 ^ bits ≤ 2 ^ 50 }
    requires first { first ≡ start + pass.0 * count }
    ensures { AreNamesOf start count bits laps pass.0 result }
{
    let turn = 1u64 << bits;
    let all = u64::from(count) + laps * turn;
    let name = u64::from(start) + u64::from(pass.0) * all;
    OwnPlaces {
        first: u64::from(first),
        count,
        turn,
        name,
        end: name + all,
    }
}

/// What a pass knows of its slots of one kind as its table opens: each holds its name of the first
/// lap.
pub fn open_slots(
    alloc: Global,
    kind: RecordKind,
    layout: &Layout,
    turns: &Turns,
    pass: PassNo,
) -> Result<OwnSlots, NoMemory>
    requires pass { pass.0 < layout.now.passes }
    requires bits { (turns.now.node_bits ≤ 60) × (turns.now.scx_bits ≤ 60) }
    requires lasting { IsLasting (in_turns layout.now turns.now) }
    ensures kind { IfOk result (λ own. own.kind ≡ kind) }
    ensures book { IfOk result (λ own. (p : SeatedPass) (since : List Row) → p.number ≡ pass
        → p.memory ≡ first_memory (in_turns layout.now turns.now) pass.0
        → IsBook (in_turns layout.now turns.now) p since own) }
    ensures lost { IfOk result HasNoneLost }
{
    let at = own_places(kind, layout, turns, pass);
    let mut slots = Vec::with_capacity(alloc, at.count as usize)?;
    for i in 0..at.count {
        slots.push(OwnSlot {
            name: at.name + u64::from(i),
            known: SlotUse::Used,
        })?;
    }
    Ok(OwnSlots {
        kind,
        first: at.first,
        turn: at.turn,
        end: at.end,
        dealt: at.name + u64::from(at.count),
        slots,
    })
}
