//! Calls of the map: where they took place, and what they answered there.
ghost use Rattle.std.specs.Prelude.{◌≡◌, ℕ, suc, ◌-◌, ◌<◌, ◌≤◌, List, Some, None, IsTrue};
ghost use Rattle.record.specs.Common.{OneValue, get, reply as reply_of, number_reply, map_request, Call as CallOf, Map as MapCommand, Full as FullShare, IsPlaced, map_at, reply_told, Pair as PairOf};
ghost use Rattle.histories.specs.Common.{Layout};
ghost use Rattle.record.specs.declared.record.Answer.TheVariants.{Map as MapAnswer};
ghost use Rattle.record.specs.declared.record.Line.{Line};
ghost use Rattle.linearization.specs.Entries.{AreEntries, HadFirstWithin, HadWithin};
ghost use Rattle.linearization.specs.Ordered.{FallFrom, IsOrderedRead};
ghost use Rattle.linearization.specs.Places.{changes};
ghost use Rattle.audit.specs.Asked.{IsAsked, IsRightAfter, IsValueAt, IsReadAt, NeededSomething, NeededWithin, IsToldByPairs};
ghost use Rattle.audit.specs.Remembered.{AreRemembered};
ghost use Rattle.record.specs.Rules.Edit.{FindsFirst};

use crate::client::ClientState;
use crate::edits::is_trie;
use crate::steps::Steps;
use arena::Resource;
use linearization::{Places, pairs_told};
use ordered_map::{Goal, Reply, Request};
use record::{Answer, Finished};
use script::Command;

/// Whether a call of the map took place where its reply says, and answered what the map gave there;
/// or was refused, and took place nowhere.
pub(crate) fn is_right(
    steps: &Steps,
    places: &Places,
    client: &ClientState,
    tries: u32,
    command: &Command,
    reply: &Finished,
) -> bool
    requires { client.now.pass.0 < steps.now.judge.layout.passes }
    ensures right { (lay : Layout) (calls : List CallOf) (lines : List Line) →
        IsAsked lay tries calls lines (changes places.now) client.now command.now reply.now →
        AreRemembered lay calls lines steps.now →
        IsTrue result →
        IsRightAfter lay tries calls lines reply.now.client.0 command.now reply.now.answer }
    ensures placed { (lay : Layout) (calls : List CallOf) (lines : List Line) →
        IsAsked lay tries calls lines
        (changes places.now) client.now command.now reply.now → IsTrue result →
        IsPlaced lay calls lines reply.now command.now }
{
    let Command::Map(request) = command else {
        return false;
    };
    let Answer::Map(told) = &reply.answer else {
        return false;
    };
    match told {
        Reply::Value(_) | Reply::Pair(_) | Reply::Pairs(_) => {
            is_placed(places, client, request, told, reply)
        }
        _ => reply.moment.is_none()
            && is_refused(steps, places, client, tries, request, told, reply),
    }
}

/// Whether a call that says something of the map took place in the turn of its reply: with its
/// entry, just before which the map gave its answer; or, without one, in the last of its turns,
/// whoever made it, after which the map gave it.
fn is_placed(
    places: &Places,
    client: &ClientState,
    request: &Request<u64, u128>,
    told: &Reply<u64, u128>,
    reply: &Finished,
) -> bool
    requires { reply.now.answer ≡ MapAnswer told.now }
    ensures right { (lay : Layout) (tries : ℕ) (calls : List CallOf) (lines : List Line) →
        IsAsked lay tries calls lines (changes places.now) client.now
        (MapCommand request.now) reply.now → IsTrue result →
        IsRightAfter lay tries calls lines reply.now.client.0
        (MapCommand request.now) reply.now.answer }
    ensures placed { (lay : Layout) (tries : ℕ) (calls : List CallOf) (lines : List Line) →
        IsAsked lay tries calls lines (changes places.now) client.now
        (MapCommand request.now) reply.now → IsTrue result →
        IsPlaced lay calls lines reply.now (MapCommand request.now) }
{
    match client.won {
        Some(turn) => reply.moment == Some(turn) && had_before(places, request, told, turn),
        None => is_read(places, request, told, reply),
    }
}

/// Whether a reply is what the map replied to a call just before a turn.
fn had_before(
    places: &Places,
    request: &Request<u64, u128>,
    told: &Reply<u64, u128>,
    turn: u64,
) -> bool
    ensures { (calls : List CallOf) (lines : List Line) →
        AreEntries calls lines (changes places.now) → IsTrue result →
        number_reply told.now ≡ Some
        (reply_of (map_request request.now) (map_at calls lines (turn - 1))) }
{
    let before = turn.saturating_sub(1);
    match told_key(request) {
        Some(key) => tells_of(places, key, told, before),
        None => tells_at(places, request, told, before),
    }
}

/// The key whose value a call answers, if it answers that of one key.
fn told_key(request: &Request<u64, u128>) -> Option<u64>
    ensures { (key : ℕ) → result ≡ Some key → (m : List PairOf) →
        reply_of (map_request request.now) m ≡ OneValue (get key m) }
{
    if let Request::Get { key } = request {
        return Some(*key);
    }
    let (goal, _) = request.edit()?;
    goal.key(None)
}

/// Whether a reply says what a key has after a turn.
fn tells_of(places: &Places, key: u64, told: &Reply<u64, u128>, turn: u64) -> bool
    ensures { (calls : List CallOf) (lines : List Line) →
        AreEntries calls lines (changes places.now) → IsTrue result →
        number_reply told.now ≡ Some (OneValue (get key (map_at calls lines turn))) }
{
    match told {
        Reply::Value(value) => has_at(places, key, *value, turn),
        _ => false,
    }
}

/// Whether a call without an entry took place in the greatest of its turns after which the map gave
/// its answer.
fn is_read(
    places: &Places,
    request: &Request<u64, u128>,
    told: &Reply<u64, u128>,
    reply: &Finished,
) -> bool
    requires { reply.now.answer ≡ MapAnswer told.now }
    ensures { (calls : List CallOf) (lines : List Line) →
        AreEntries calls lines (changes places.now) →
        FallFrom (suc reply.now.end) (changes places.now) →
        reply.now.begin ≤ reply.now.end → IsTrue result →
        IsReadAt calls lines (map_request request.now) reply.now }
{
    match told_key(request) {
        Some(key) => is_read_of(places, key, told, reply),
        None => is_read_at(places, request, told, reply),
    }
}

/// Whether a call that answers what its key had took place in the greatest of its turns after which
/// the map had that.
fn is_read_of(places: &Places, key: u64, told: &Reply<u64, u128>, reply: &Finished) -> bool
    requires { reply.now.answer ≡ MapAnswer told.now }
    ensures { (calls : List CallOf) (lines : List Line) →
        AreEntries calls lines (changes places.now) → IsTrue result →
        IsValueAt calls lines key reply.now }
{
    let Reply::Value(value) = told else {
        return false;
    };
    reply.moment.is_some()
        && reply.begin <= reply.end
        && reply.moment == places.latest(key, *value, reply.begin, reply.end)
}

/// Whether a key has this value after a turn.
fn has_at(places: &Places, key: u64, value: Option<u128>, turn: u64) -> bool
    ensures { (calls : List CallOf) (lines : List Line) →
        AreEntries calls lines (changes places.now) → IsTrue result →
        get key (map_at calls lines turn) ≡ value }
{
    places.latest(key, value, turn, turn).is_some()
}

/// Whether an ordered read took place in the greatest of its turns after which the map gave its
/// answer.
fn is_read_at(
    places: &Places,
    request: &Request<u64, u128>,
    told: &Reply<u64, u128>,
    reply: &Finished,
) -> bool
    requires { reply.now.answer ≡ MapAnswer told.now }
    ensures { (calls : List CallOf) (lines : List Line) →
        AreEntries calls lines (changes places.now) →
        FallFrom (suc reply.now.end) (changes places.now) →
        reply.now.begin ≤ reply.now.end → IsTrue result →
        IsReadAt calls lines (map_request request.now) reply.now }
{
    let command = Command::Map(*request);
    let turn = places.latest_reply(&command, told, reply.begin, reply.end);
    reply.moment == Some(turn) && tells_at(places, request, told, turn)
}

/// Whether an ordered read, or an edit of the first pair, answers what the map replies to it after
/// a turn.
fn tells_at(
    places: &Places,
    request: &Request<u64, u128>,
    told: &Reply<u64, u128>,
    turn: u64,
) -> bool
    ensures ordered { IsTrue result → IsOrderedRead (MapCommand request.now) }
    ensures told { (calls : List CallOf) (lines : List Line) →
        AreEntries calls lines (changes places.now) → IsTrue result →
        number_reply told.now ≡ Some
        (reply_of (map_request request.now) (map_at calls lines turn)) }
{
    let command = Command::Map(*request);
    tells_pairs(request, told) && places.tells(&command, pairs_told(told), turn)
}

/// Whether a reply has the form of those to the call, with pairs by rising key.
fn tells_pairs(request: &Request<u64, u128>, told: &Reply<u64, u128>) -> bool
    ensures ordered { IsTrue result → IsOrderedRead (MapCommand request.now) }
    ensures form { IsTrue result → IsToldByPairs (map_request request.now) told.now }
{
    match (request, told) {
        (Request::Range { .. }, Reply::Pairs(_)) => true,
        (Request::Successor { .. } | Request::Predecessor { .. }, Reply::Pair(_)) => true,
        (_, Reply::Pair(_)) => matches!(request.edit(), Some((Goal::End(_), _))),
        _ => false,
    }
}

/// Whether a call was refused as it deserves.
fn is_refused(
    steps: &Steps,
    places: &Places,
    client: &ClientState,
    tries: u32,
    request: &Request<u64, u128>,
    told: &Reply<u64, u128>,
    reply: &Finished,
) -> bool
    requires pass { client.now.pass.0 < steps.now.judge.layout.passes }
    requires answer { reply.now.answer ≡ MapAnswer told.now }
    ensures right { (lay : Layout) (calls : List CallOf) (lines : List Line) →
        IsAsked lay tries calls lines (changes places.now) client.now
        (MapCommand request.now) reply.now →
        AreRemembered lay calls lines steps.now → IsTrue result →
        IsRightAfter lay tries calls lines reply.now.client.0
        (MapCommand request.now) reply.now.answer }
    ensures tells_nothing { IsTrue result → reply_told reply.now.answer ≡ None }
{
    match told {
        Reply::Contended { node, scx } => {
            steps.has_lost_all_tries(client.pass, tries, (*node, *scx))
                && found_something(steps, places, request, reply)
        }
        Reply::Full(full) => {
            let full = (full.what, full.left);
            is_full(steps, places, client, request, reply, full)
        }
        Reply::NoMemory => true,
        _ => false,
    }
}

/// Whether an edit found something to change after some turn of its call, unless it is one that may
/// lose its tries before it finds anything.
fn found_something(
    steps: &Steps,
    places: &Places,
    request: &Request<u64, u128>,
    reply: &Finished,
) -> bool
    ensures { (lay : Layout) (calls : List CallOf) (lines : List Line) →
        AreRemembered lay calls lines steps.now → AreEntries calls lines (changes places.now) →
        IsTrue result → FindsFirst lay (map_request request.now) →
        NeededSomething calls lines (map_request request.now) reply.now }
{
    looks_first(steps, request) || needed_something(places, request, reply)
}

/// Whether an edit goes to an end of a trie, where it looks at node 2 first.
#[tactic(auto, using(crate::proofs::EachCall::looks_first))]
fn looks_first(steps: &Steps, request: &Request<u64, u128>) -> bool
    ensures { IsTrue result → FindsFirst steps.now.judge.layout (map_request request.now) → ⊥ }
{
    match request.edit() {
        Some((Goal::End(_), _)) => is_trie(&steps.judge),
        _ => false,
    }
}

/// Whether an edit found something to change after some turn of its call; a read needs nothing.
fn needed_something(places: &Places, request: &Request<u64, u128>, reply: &Finished) -> bool
    ensures { (calls : List CallOf) (lines : List Line) →
        AreEntries calls lines (changes places.now) → IsTrue result →
        NeededSomething calls lines (map_request request.now) reply.now }
{
    if request.edit().is_none() {
        return true;
    }
    needed_three(places, request, reply) || needed_one(places, request, reply)
}

/// Whether the share of a client has too little for what its edit needed after some turn of its
/// call.
fn is_full(
    steps: &Steps,
    places: &Places,
    client: &ClientState,
    request: &Request<u64, u128>,
    reply: &Finished,
    full: (Resource, u32),
) -> bool
    requires { client.now.pass.0 < steps.now.judge.layout.passes }
    ensures { (lay : Layout) (tries : ℕ) (calls : List CallOf) (lines : List Line) →
        IsAsked lay tries calls lines (changes places.now) client.now
        (MapCommand request.now) reply.now →
        AreRemembered lay calls lines steps.now → IsTrue result →
        IsRightAfter lay tries calls lines reply.now.client.0 (MapCommand request.now)
        (MapAnswer (FullShare record { what = full.0; left = full.1 })) }
{
    if steps.has_too_few_to_try(client.pass, 1, full) && needed_one(places, request, reply) {
        return true;
    }
    steps.has_too_few_to_try(client.pass, 3, full) && needed_three(places, request, reply)
}

/// Whether after some turn of a call its edit needed three nodes: its key had no value, in whose
/// place it puts one.
fn needed_three(places: &Places, request: &Request<u64, u128>, reply: &Finished) -> bool
    ensures { (calls : List CallOf) (lines : List Line) →
        AreEntries calls lines (changes places.now) → IsTrue result →
        NeededWithin calls lines (map_request request.now) 3 reply.now }
{
    match request.edit() {
        Some((Goal::Key(key), rule)) => rule.applies(None) && had(places, key, None, reply),
        _ => false,
    }
}

/// Whether after some turn of a call its edit needed one node: it found a value in whose place it
/// changes something.
fn needed_one(places: &Places, request: &Request<u64, u128>, reply: &Finished) -> bool
    ensures { (calls : List CallOf) (lines : List Line) →
        AreEntries calls lines (changes places.now) → IsTrue result →
        NeededWithin calls lines (map_request request.now) 1 reply.now }
{
    let Some((goal, rule)) = request.edit() else {
        return false;
    };
    match (goal, rule.expects()) {
        (Goal::Key(key), Some(value)) => had(places, key, Some(value), reply),
        (Goal::Key(key), None) => rule.applies_to_all() && had_some(places, key, reply),
        (Goal::End(_), _) => rule.applies_to_all() && had_pair(places, reply),
    }
}

/// Whether the map had a pair after some turn of a call.
fn had_pair(places: &Places, reply: &Finished) -> bool
    ensures { (calls : List CallOf) (lines : List Line) →
        AreEntries calls lines (changes places.now) → IsTrue result → (first : PairOf) ×
        HadFirstWithin calls lines (Some first) reply.now.begin reply.now.end }
{
    reply.begin <= reply.end && places.had_pair(reply.begin, reply.end)
}

/// Whether a key had a value, whatever it was, after some turn of a call.
fn had_some(places: &Places, key: u64, reply: &Finished) -> bool
    ensures { (calls : List CallOf) (lines : List Line) →
        AreEntries calls lines (changes places.now) → IsTrue result → (v : ℕ) ×
        HadWithin calls lines key (Some v) reply.now.begin reply.now.end }
{
    reply.begin <= reply.end && places.had_some(key, reply.begin, reply.end)
}

/// Whether a key had this value, or none, after some turn of a call.
fn had(places: &Places, key: u64, value: Option<u128>, reply: &Finished) -> bool
    ensures { (calls : List CallOf) (lines : List Line) →
        AreEntries calls lines (changes places.now) → IsTrue result →
        HadWithin calls lines key value reply.now.begin reply.now.end }
{
    reply.begin <= reply.end && places.latest(key, value, reply.begin, reply.end).is_some()
}
