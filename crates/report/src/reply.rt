//! Replies of the map as text.
ghost use Rattle.std.specs.Prelude.{◌≡◌, ◌≢◌, ◌≤◌, ◌<◌, ◌^◌, ◌++◌, ℕ, List, All, IfNone, IfOk, IfSome, MatchOption, OnOk, codes, decimal, length};
ghost use Rattle.arena.specs.declared.fault.Resource.{Resource as ResourceOf};
ghost use Rattle.ordered_map.specs.declared.reply.Reply.{Reply as ReplyOf};
ghost use Rattle.report.specs.Answers.{both_text, full_text, reply_text, spaced_pairs, rest_text};
ghost use Rattle.report.specs.Spellings.{HasNoSpace, IsSpelledPair, IsSpelledReply, IsTelling};
ghost use Rattle.texts.specs.Sheets.{IsPlain, sheet_room, sheet_text};

use crate::name::blame_of;
use crate::version::Version;
use arena::{Full, NodeNo, Resource, ScxNo};
use ordered_map::Reply;
use std::alloc::{AllocError, Global};
use texts::{Sheet, number_of, small_number_of};

/// Puts the text of a reply: its name, and what it says.
pub fn put_reply(sheet: &mut Sheet, reply: &Reply<u64, u128>) -> Result<(), AllocError>
    ensures text { OnOk result (sheet_text sheet.new ≡ sheet_text sheet.old ++ reply_text reply.now) }
    ensures plain { OnOk result (IsPlain (reply_text reply.now)) }
{
    sheet.make_room(80)?;
    match reply {
        Reply::Value(Some(value)) => {
            sheet.put("some ");
            sheet.wide_number(*value);
        }
        Reply::Pair(Some((key, value))) => {
            sheet.put("pair ");
            sheet.number(*key);
            sheet.put(" ");
            sheet.wide_number(*value);
        }
        Reply::Value(None) | Reply::Pair(None) => sheet.put("none"),
        Reply::Pairs(pairs) => put_pairs(sheet, pairs.as_slice())?,
        Reply::Contended { node, scx } => put_blame(sheet, "contended n", *node, *scx),
        Reply::Full(full) => put_full(sheet, full),
        Reply::NoMemory => sheet.put("no memory"),
    }
    Ok(())
}

/// Puts a name, a node and the SCX-record that was in the way there.
pub(crate) fn put_blame(sheet: &mut Sheet, name: &str, node: NodeNo, scx: ScxNo)
    requires room { 64 ≤ sheet_room sheet.old }
    requires short { length name.now ≤ 22 }
    requires plain { IsPlain name.now }
    ensures text { sheet_text sheet.new ≡
        sheet_text sheet.old ++ (name.now ++ (decimal node.0 ++ (codes " s" ++ decimal scx.0))) }
    ensures plain { IsPlain (name.now ++ (decimal node.0 ++ (codes " s" ++ decimal scx.0))) }
{
    sheet.put(name);
    sheet.number(node.0);
    sheet.put(" s");
    sheet.number(scx.0);
}

/// Puts the text of what a share has run out of: at most 31 bytes.
pub(crate) fn put_full(sheet: &mut Sheet, full: &Full)
    requires { 31 ≤ sheet_room sheet.old }
    ensures text { sheet_text sheet.new ≡ sheet_text sheet.old ++ full_text full.now.what full.now.left }
    ensures plain { IsPlain (full_text full.now.what full.now.left) }
{
    match full.what {
        Resource::Nodes => sheet.put("full nodes "),
        Resource::Scx => sheet.put("full scx "),
    }
    sheet.number(u64::from(full.left));
}

/// Puts the text of a reply of many pairs: each is its key and its value.
fn put_pairs(sheet: &mut Sheet, pairs: &[(u64, u128)]) -> Result<(), AllocError>
    ensures text { OnOk result (sheet_text sheet.new ≡ sheet_text sheet.old ++ (codes "pairs" ++ spaced_pairs pairs.now)) }
    ensures plain { OnOk result (IsPlain (codes "pairs" ++ spaced_pairs pairs.now)) }
{
    sheet.make_room(5)?;
    sheet.put("pairs");
    for (key, value) in pairs {
        put_pair(sheet, *key, *value)?;
    }
    Ok(())
}

/// Puts a key and its value, each after a space.
fn put_pair(sheet: &mut Sheet, key: u64, value: u128) -> Result<(), AllocError>
    ensures text { OnOk result (sheet_text sheet.new ≡
        sheet_text sheet.old ++ (codes " " ++ (decimal key ++ (codes " " ++ decimal value)))) }
    ensures key { OnOk result (IsPlain (decimal key)) }
    ensures value { OnOk result (IsPlain (decimal value)) }
{
    sheet.make_room(61)?;
    sheet.put(" ");
    sheet.number(key);
    sheet.put(" ");
    sheet.wide_number(value);
    Ok(())
}

/// The pairs that follow the name of their reply.
pub(crate) fn pairs_of(
    alloc: Global,
    told: Option<&str>,
    version: Version,
) -> Result<Option<Reply<u64, u128>>, AllocError>
    ensures some { IfOk result (λ o. IfSome o (λ reply. codes "pairs" ++ rest_text told.entry ≡ reply_text reply)) }
    ensures spelled { IfOk result (λ o. IfSome o (IsSpelledReply version)) }
    ensures none { IfOk result (λ o. IfNone o ((pairs : List (ℕ × ℕ)) →
        All (IsSpelledPair version) pairs → rest_text told.entry ≢ spaced_pairs pairs)) }
{
    let mut pairs = Vec::new(alloc);
    let mut left = told;
    while let Some(text) = left {
        let Some((pair, rest)) = first_pair_of(text, version) else {
            return Ok(None);
        };
        pairs.push(pair)?;
        left = rest;
    }
    Ok(Some(Reply::Pairs(pairs)))
}

/// The pair at the head of a text, and what is after the next space.
fn first_pair_of(text: &str, version: Version) -> Option<((u64, u128), Option<&str>)>
    ensures some { IfSome result (λ r. text.now ≡ decimal r.0.0 ++ (codes " " ++ (decimal r.0.1 ++ rest_text r.1))) }
    ensures fits { IfSome result (λ r. IsSpelledPair version r.0) }
    ensures all { (pair : ℕ × ℕ) (more : List (ℕ × ℕ)) → IsSpelledPair version pair →
        text.now ≡ decimal pair.0 ++ (codes " " ++ (decimal pair.1 ++ spaced_pairs more)) →
        MatchOption result ⊥ (λ r. rest_text r.1 ≡ spaced_pairs more) }
{
    let (key, rest) = text.split_once(' ')?;
    let (value, rest) = first_word_of(rest);
    Some(((number_of(key)?, version.value_of(value)?), rest))
}

/// What is before the first space of a text, and after it if there is one.
pub(crate) fn first_word_of(text: &str) -> (&str, Option<&str>)
    ensures whole { text.now ≡ result.0.now ++ rest_text result.1 }
    ensures free { HasNoSpace result.0.now }
{
    match text.split_once(' ') {
        Some((word, rest)) => (word, Some(rest)),
        None => (text, None),
    }
}

/// The reply of this name that says this, if it is not of many pairs.
pub(crate) fn telling_reply_of(name: &str, told: &str, version: Version) -> Option<Reply<u64, u128>>
    ensures some { IfSome result (λ reply. name.now ++ (codes " " ++ told.now) ≡ reply_text reply) }
    ensures spelled { IfSome result (IsSpelledReply version) }
    ensures none { HasNoSpace name.now → IfNone result ((reply : ReplyOf ℕ ℕ) → IsTelling version reply →
        name.now ++ (codes " " ++ told.now) ≢ reply_text reply) }
{
    match name {
        "some" => Some(Reply::Value(Some(version.value_of(told)?))),
        "pair" => Some(Reply::Pair(Some(pair_of(told, version)?))),
        "contended" => {
            let (node, scx) = blame_of(told)?;
            Some(Reply::Contended { node, scx })
        }
        "full" => Some(Reply::Full(full_of(told)?)),
        _ => None,
    }
}

/// A key and a value, parted by a space.
fn pair_of(text: &str, version: Version) -> Option<(u64, u128)>
    ensures some { IfSome result (λ pair. text.now ≡ both_text pair.0 pair.1) }
    ensures fits { IfSome result (IsSpelledPair version) }
    ensures none { IfNone result ((pair : ℕ × ℕ) → IsSpelledPair version pair →
        text.now ≢ both_text pair.0 pair.1) }
{
    let (key, value) = text.split_once(' ')?;
    Some((number_of(key)?, version.value_of(value)?))
}

/// Two numbers, parted by a space.
pub(crate) fn both_of(text: &str) -> Option<(u64, u64)>
    ensures some { IfSome result (λ both. text.now ≡ both_text both.0 both.1) }
    ensures none { IfNone result ((first second : ℕ) → first < 2 ^ 64 → second < 2 ^ 64 →
        text.now ≢ both_text first second) }
{
    let (first, second) = text.split_once(' ')?;
    Some((number_of(first)?, number_of(second)?))
}

/// What a share has run out of.
fn full_of(told: &str) -> Option<Full>
    ensures some { IfSome result (λ full. codes "full " ++ told.now ≡ full_text full.what full.left) }
    ensures none { IfNone result ((what : ResourceOf) (left : ℕ) → left < 2 ^ 32 →
        codes "full " ++ told.now ≢ full_text what left) }
{
    let (what, left) = told.split_once(' ')?;
    let left = small_number_of(left)?;
    let what = match what {
        "nodes" => Resource::Nodes,
        "scx" => Resource::Scx,
        _ => return None,
    };
    Some(Full { what, left })
}
