//! Words of the table as text.
ghost use Rattle.std.specs.Prelude.{◌≡◌, ◌≢◌, ◌≤◌, ◌+◌, ◌++◌, IfOk, MatchOption, decimal, length, string_bytes};
ghost use Rattle.arena.specs.Words.{IsScxWord};
ghost use Rattle.arena.specs.declared.word.NodeWord.{NodeWord as NodeWordOf};
ghost use Rattle.arena.specs.declared.word.ScxWord.{ScxWord as ScxWordOf};
ghost use Rattle.arena.specs.declared.word.Word.{Word as WordOf};
ghost use Rattle.report.specs.Words.{IsSpelled, node_part, scx_part, word_text};
ghost use Rattle.texts.specs.Sheets.{IsPlain, sheet_room, sheet_text};

use crate::name::{node_of, scx_of};
use crate::version::Version;
use arena::{NodeWord, ScxWord, SettledPart, Side, Slot, Word};
use std::alloc::{AllocError, Global};
use texts::Sheet;

/// Puts the text of a word of the table, as `n5.left` or `s2.state`: at most 43 bytes.
#[inline]
pub fn put_word(sheet: &mut Sheet, word: Word)
    requires { 43 ≤ sheet_room sheet.old }
    ensures text { sheet_text sheet.new ≡ sheet_text sheet.old ++ word_text word }
    ensures plain { IsPlain (word_text word) }
    ensures room { sheet_room sheet.old ≤ sheet_room sheet.new + 43 }
{
    match word {
        Word::Node(node, part) => {
            sheet.put("n");
            sheet.number(node.0);
            sheet.put(".");
            sheet.put(node_part(part));
        }
        Word::Scx(scx, part) => {
            sheet.put("s");
            sheet.number(scx.0);
            sheet.put(".");
            put_scx_part(sheet, part);
        }
    }
}

/// Puts the name of a word within its SCX-record: at most 9 bytes.
#[inline]
fn put_scx_part(sheet: &mut Sheet, part: ScxWord)
    requires { 21 ≤ sheet_room sheet.old }
    ensures text { sheet_text sheet.new ≡ sheet_text sheet.old ++ scx_part part }
    ensures plain { IsPlain (scx_part part) }
    ensures room { sheet_room sheet.old ≤ sheet_room sheet.new + 21 }
{
    let (name, member) = scx_part(part);
    sheet.put(name);
    if let Some(member) = member {
        sheet.number(u64::from(member));
    }
}

/// The text of a word of the table, as `n5.left` or `s2.state`.
pub fn word_text(alloc: Global, word: Word) -> Result<String, AllocError>
    ensures { IfOk result (λ text. string_bytes text ≡ word_text word) }
{
    let mut sheet = Sheet::new(alloc);
    sheet.make_room(43)?;
    put_word(&mut sheet, word);
    String::from_str(alloc, sheet.as_str())
}

/// The name of a word within its SCX-record, except for the number of a member that ends it.
fn scx_part(part: ScxWord) -> (&'static str, Option<u8>)
    ensures name { MatchOption result.1 (scx_part part ≡ result.0.now) (λ member. scx_part part ≡
        result.0.now ++ decimal member) }
    ensures plain { IsPlain result.0.now }
    ensures short { MatchOption result.1 (length result.0.now ≤ 9) (λ _. length result.0.now ≤ 1) }
{
    match part {
        ScxWord::State => ("state", None),
        ScxWord::AllFrozen => ("allfrozen", None),
        ScxWord::Plan => ("plan", None),
        ScxWord::New => ("new", None),
        ScxWord::Old => ("old", None),
        ScxWord::Member(member) => ("v", Some(member)),
        ScxWord::Seen(member) => ("i", Some(member)),
        ScxWord::Call => ("call", None),
    }
}

/// The name of a word within its node.
fn node_part(part: NodeWord) -> &'static str
    ensures name { result.now ≡ node_part part }
    ensures plain { IsPlain result.now }
    ensures short { length result.now ≤ 6 }
{
    match part {
        NodeWord::Settled(SettledPart::Head) => "head",
        NodeWord::Settled(SettledPart::More) => "more",
        NodeWord::Settled(SettledPart::Key(Slot::First)) => "key",
        NodeWord::Settled(SettledPart::Key(Slot::Second)) => "key1",
        NodeWord::Settled(SettledPart::Key(Slot::Third)) => "key2",
        NodeWord::Settled(SettledPart::Key(Slot::Fourth)) => "key3",
        NodeWord::Settled(SettledPart::Value(Slot::First)) => "value",
        NodeWord::Settled(SettledPart::Value(Slot::Second)) => "value1",
        NodeWord::Settled(SettledPart::Value(Slot::Third)) => "value2",
        NodeWord::Settled(SettledPart::Value(Slot::Fourth)) => "value3",
        NodeWord::Settled(SettledPart::High(Slot::First)) => "high",
        NodeWord::Settled(SettledPart::High(Slot::Second)) => "high1",
        NodeWord::Settled(SettledPart::High(Slot::Third)) => "high2",
        NodeWord::Settled(SettledPart::High(Slot::Fourth)) => "high3",
        NodeWord::Child(Side::Left) => "left",
        NodeWord::Child(Side::Right) => "right",
        NodeWord::Info => "info",
        NodeWord::Marked => "marked",
    }
}

/// The word of the table that a text names, if the version has it.
pub fn word_of(text: &str, version: Version) -> Option<Word>
    ensures { MatchOption result ((word : WordOf) → IsSpelled version word → text.now ≢ word_text word)
        (λ word. IsSpelled version word × (text.now ≡ word_text word)) }
{
    let (name, part) = text.split_once('.')?;
    match node_of(name) {
        Some(node) => Some(Word::Node(node, version.part(node_part_of(part)?)?)),
        None => Some(Word::Scx(scx_of(name)?, scx_part_of(part)?)),
    }
}

fn node_part_of(name: &str) -> Option<NodeWord>
    ensures { MatchOption result ((part : NodeWordOf) →
        name.now ≢ node_part part) (λ part. name.now ≡ node_part part) }
{
    match name {
        "head" => Some(NodeWord::Settled(SettledPart::Head)),
        "key" => Some(NodeWord::Settled(SettledPart::Key(Slot::First))),
        "value" => Some(NodeWord::Settled(SettledPart::Value(Slot::First))),
        "info" => Some(NodeWord::Info),
        "marked" => Some(NodeWord::Marked),
        "left" => Some(NodeWord::Child(Side::Left)),
        "right" => Some(NodeWord::Child(Side::Right)),
        "more" => Some(NodeWord::Settled(SettledPart::More)),
        "high" => Some(NodeWord::Settled(SettledPart::High(Slot::First))),
        "key1" => Some(NodeWord::Settled(SettledPart::Key(Slot::Second))),
        "value1" => Some(NodeWord::Settled(SettledPart::Value(Slot::Second))),
        "high1" => Some(NodeWord::Settled(SettledPart::High(Slot::Second))),
        "key2" => Some(NodeWord::Settled(SettledPart::Key(Slot::Third))),
        "value2" => Some(NodeWord::Settled(SettledPart::Value(Slot::Third))),
        "high2" => Some(NodeWord::Settled(SettledPart::High(Slot::Third))),
        "key3" => Some(NodeWord::Settled(SettledPart::Key(Slot::Fourth))),
        "value3" => Some(NodeWord::Settled(SettledPart::Value(Slot::Fourth))),
        "high3" => Some(NodeWord::Settled(SettledPart::High(Slot::Fourth))),
        _ => None,
    }
}

#[tactic(auto, using(std::proofs::lemmas::Fmt::decimal_digit))]
fn scx_part_of(name: &str) -> Option<ScxWord>
    ensures { MatchOption result ((part : ScxWordOf) → IsScxWord part →
        name.now ≢ scx_part part) (λ part. IsScxWord part × (name.now ≡ scx_part part)) }
{
    match name {
        "state" => Some(ScxWord::State),
        "allfrozen" => Some(ScxWord::AllFrozen),
        "plan" => Some(ScxWord::Plan),
        "new" => Some(ScxWord::New),
        "old" => Some(ScxWord::Old),
        "v0" => Some(ScxWord::Member(0)),
        "v1" => Some(ScxWord::Member(1)),
        "v2" => Some(ScxWord::Member(2)),
        "v3" => Some(ScxWord::Member(3)),
        "i0" => Some(ScxWord::Seen(0)),
        "i1" => Some(ScxWord::Seen(1)),
        "i2" => Some(ScxWord::Seen(2)),
        "i3" => Some(ScxWord::Seen(3)),
        "call" => Some(ScxWord::Call),
        _ => None,
    }
}
