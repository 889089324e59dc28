//! Answers as text.
ghost use Rattle.std.specs.Prelude.{◌≡◌, ◌≢◌, ◌++◌, IfNone, IfOk, IfSome, OnOk, codes, string_bytes};
ghost use Rattle.record.specs.declared.record.Answer.{Answer as AnswerOf};
ghost use Rattle.report.specs.Answers.{answer_text};
ghost use Rattle.report.specs.Spellings.{HasNoSpace, IsSpelledAnswer, IsTellingAnswer, TellsPairs};
ghost use Rattle.texts.specs.Sheets.{IsPlain, sheet_text};

use crate::name::{blame_of, node_of};
use crate::reply::{
    both_of, first_word_of, pairs_of, put_blame, put_full, put_reply, telling_reply_of,
};
use crate::version::Version;
use arena::{Full, NodeNo};
use ordered_map::Reply;
use record::Answer;
use std::alloc::{AllocError, Global};
use texts::Sheet;

/// Puts the text of an answer: its name, and what it says.
pub fn put_answer(sheet: &mut Sheet, answer: &Answer) -> Result<(), AllocError>
    ensures text { OnOk result (sheet_text sheet.new ≡ sheet_text sheet.old ++ answer_text answer.now) }
    ensures plain { OnOk result (IsPlain (answer_text answer.now)) }
{
    sheet.make_room(64)?;
    match answer {
        Answer::Snapshot { left, right } => {
            sheet.put("snap ");
            sheet.number(left.0);
            sheet.put(" ");
            sheet.number(right.0);
        }
        Answer::Finalized => sheet.put("finalized"),
        Answer::Fail { node, scx } => put_blame(sheet, "fail n", *node, *scx),
        Answer::Done => sheet.put("done"),
        Answer::Lost { node, scx } => put_blame(sheet, "lost n", *node, *scx),
        Answer::Same => sheet.put("same"),
        Answer::Changed { node, scx } => put_blame(sheet, "changed n", *node, *scx),
        Answer::Unlinked { node } => {
            sheet.put("unlinked n");
            sheet.number(node.0);
        }
        Answer::Full { what, left } => {
            let (what, left) = (*what, *left);
            put_full(sheet, &Full { what, left });
        }
        Answer::Map(reply) => put_reply(sheet, reply)?,
    }
    Ok(())
}

/// The text of an answer: its name, and what it says.
pub fn answer_text(alloc: Global, answer: &Answer) -> Result<String, AllocError>
    ensures { IfOk result (λ text. string_bytes text ≡ answer_text answer.now) }
{
    let mut sheet = Sheet::new(alloc);
    put_answer(&mut sheet, answer)?;
    String::from_str(alloc, sheet.as_str())
}

/// An answer that a text spells: if two do, that of the map, and of these the one with
/// a value. The only error is want of memory.
pub fn answer_of(alloc: Global, text: &str, version: Version) -> Result<Option<Answer>, AllocError>
    ensures some { IfOk result (λ o. IfSome o (λ answer. text.now ≡ answer_text answer)) }
    ensures spelled { IfOk result (λ o. IfSome o (IsSpelledAnswer version)) }
    ensures none { IfOk result (λ o. IfNone o ((answer : AnswerOf) →
        IsSpelledAnswer version answer → text.now ≢ answer_text answer)) }
{
    match plain_answer_of(text, version) {
        Some(answer) => Ok(Some(answer)),
        None => pairs_answer_of(alloc, text, version),
    }
}

/// The answer of many pairs that a text spells.
fn pairs_answer_of(
    alloc: Global,
    text: &str,
    version: Version,
) -> Result<Option<Answer>, AllocError>
    ensures some { IfOk result (λ o. IfSome o (λ answer. text.now ≡ answer_text answer)) }
    ensures spelled { IfOk result (λ o. IfSome o (IsSpelledAnswer version)) }
    ensures none { IfOk result (λ o. IfNone o ((answer : AnswerOf) → IsSpelledAnswer version answer → TellsPairs answer →
        text.now ≢ answer_text answer)) }
{
    let (name, told) = first_word_of(text);
    if name != "pairs" {
        return Ok(None);
    }
    match pairs_of(alloc, told, version)? {
        Some(reply) => Ok(Some(Answer::Map(reply))),
        None => Ok(None),
    }
}

/// The answer that a text spells which does not have many pairs.
fn plain_answer_of(text: &str, version: Version) -> Option<Answer>
    ensures some { IfSome result (λ answer. text.now ≡ answer_text answer) }
    ensures spelled { IfSome result (IsSpelledAnswer version) }
    ensures none { IfNone result ((answer : AnswerOf) → IsSpelledAnswer version answer →
        text.now ≡ answer_text answer → TellsPairs answer) }
{
    match text {
        "finalized" => Some(Answer::Finalized),
        "done" => Some(Answer::Done),
        "same" => Some(Answer::Same),
        "none" => Some(Answer::Map(Reply::Value(None))),
        "no memory" => Some(Answer::Map(Reply::NoMemory)),
        _ => {
            let (name, told) = text.split_once(' ')?;
            telling_answer_of(name, told, version)
        }
    }
}

/// The answer of this name that says this.
fn telling_answer_of(name: &str, told: &str, version: Version) -> Option<Answer>
    ensures some { IfSome result (λ answer. name.now ++ (codes " " ++ told.now) ≡ answer_text answer) }
    ensures spelled { IfSome result (IsSpelledAnswer version) }
    ensures none { HasNoSpace name.now → IfNone result ((answer : AnswerOf) → IsTellingAnswer version answer →
        name.now ++ (codes " " ++ told.now) ≢ answer_text answer) }
{
    match name {
        "snap" => {
            let (left, right) = both_of(told)?;
            Some(Answer::Snapshot {
                left: NodeNo(left),
                right: NodeNo(right),
            })
        }
        "fail" => {
            let (node, scx) = blame_of(told)?;
            Some(Answer::Fail { node, scx })
        }
        "lost" => {
            let (node, scx) = blame_of(told)?;
            Some(Answer::Lost { node, scx })
        }
        "changed" => {
            let (node, scx) = blame_of(told)?;
            Some(Answer::Changed { node, scx })
        }
        "unlinked" => Some(Answer::Unlinked {
            node: node_of(told)?,
        }),
        _ => Some(Answer::Map(telling_reply_of(name, told, version)?)),
    }
}
