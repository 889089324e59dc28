//! The words of a slot, one by one.
ghost use Rattle.std.specs.Prelude.{◌≡◌, ◌<◌, ◌≤◌};
ghost use Rattle.arena.specs.Words.{IsPart, IsScxWord, node_place, offset, scx_place, settled_place};
ghost use Rattle.resting.specs.Records.{record_of};
ghost use Rattle.upkeep.specs.UpkeepBook.{parts_of, record_numbered};

use crate::kind::RecordKind;
use arena::{NodeNo, NodeWord, ScxNo, ScxWord, SettledPart, Side, Slot, Word};

/// How many words a record of this kind has.
pub fn parts_of(kind: RecordKind) -> u8
    ensures { result ≡ parts_of kind }
{
    match kind {
        RecordKind::Node => 18,
        RecordKind::Scx => 14,
    }
}

/// The word at this place of a record.
pub fn word_at(kind: RecordKind, number: u64, place: u8) -> Word
    requires { place < parts_of kind }
    ensures record { record_of result ≡ record_numbered kind number }
    ensures part { IsPart result }
    ensures place { offset result ≡ place }
{
    match kind {
        RecordKind::Node => Word::Node(NodeNo(number), node_part(place)),
        RecordKind::Scx => Word::Scx(ScxNo(number), scx_part(place)),
    }
}

/// The word at this place of a node.
fn node_part(place: u8) -> NodeWord
    requires { place < 18 }
    ensures { node_place result ≡ place }
{
    match place {
        3 => NodeWord::Child(Side::Left),
        4 => NodeWord::Child(Side::Right),
        5 => NodeWord::Info,
        6 => NodeWord::Marked,
        _ => NodeWord::Settled(settled_part(place)),
    }
}

/// The settled word at this place of a node, which is none of its fields, its info, and its mark.
fn settled_part(place: u8) -> SettledPart
    requires inside { place < 18 }
    requires settled { 3 ≤ place → 7 ≤ place }
    ensures { settled_place result ≡ place }
{
    match place {
        0 => SettledPart::Head,
        1 => SettledPart::Key(Slot::First),
        2 => SettledPart::Value(Slot::First),
        7 => SettledPart::More,
        8 => SettledPart::Key(Slot::Second),
        9 => SettledPart::Value(Slot::Second),
        10 => SettledPart::Key(Slot::Third),
        11 => SettledPart::Value(Slot::Third),
        12 => SettledPart::Key(Slot::Fourth),
        13 => SettledPart::Value(Slot::Fourth),
        14 => SettledPart::High(Slot::First),
        15 => SettledPart::High(Slot::Second),
        16 => SettledPart::High(Slot::Third),
        _ => SettledPart::High(Slot::Fourth),
    }
}

/// The word at this place of an SCX-record.
fn scx_part(place: u8) -> ScxWord
    requires { place < 14 }
    ensures part { IsScxWord result }
    ensures place { scx_place result ≡ place }
{
    match place {
        0 => ScxWord::State,
        1 => ScxWord::AllFrozen,
        2 => ScxWord::Plan,
        3 => ScxWord::New,
        4 => ScxWord::Old,
        5..=8 => ScxWord::Member(place - 5),
        9..=12 => ScxWord::Seen(place - 9),
        _ => ScxWord::Call,
    }
}
