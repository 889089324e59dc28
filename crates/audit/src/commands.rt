//! What each command may do.
ghost use Rattle.std.specs.Prelude.{◌≡◌, ℕ, ◌+◌, ◌*◌, ◌≤◌, ◌↔◌, IsTrue};
ghost use Rattle.record.specs.Common.{command_steps, nodes_counted, MayAnswerAtOnce, MayAnswerAfterStep, enters, Map as MapCommand};
ghost use Rattle.record.specs.CommandRules.{MayMake, rules};
ghost use Rattle.record.specs.declared.record.Answer.TheVariants.{Map as MapAnswer};
ghost use Rattle.record.specs.Rules.Llx.{LlxAfterStep};
ghost use Rattle.ordered_map.specs.CallRules.{IsFormOfNeighbour, IsFormOfRange, TakesNothing, form_of};
ghost use Rattle.record.specs.Rules.Range.{RangeAtOnce};
ghost use Rattle.record.specs.Rules.Set.{SetAfterStep};

use arena::{Kind, Limits, Mode};
use ordered_map::{Reply, Request};
use record::Answer;
use script::Command;

/// Whether a call may make a step of a kind.
pub(crate) fn may_make(command: &Command, kind: Kind) -> bool
    ensures { IsTrue result → MayMake command.now kind }
{
    match command {
        Command::Llx { .. }
        | Command::Map(Request::Successor { .. } | Request::Predecessor { .. }) => kind
            != Kind::Fill,
        Command::Vlx { cells: _ } => kind == Kind::LoadInfo,
        Command::Map(Request::Get { key: _ }) => kind == Kind::LoadSettled
            || kind == Kind::LoadChild,
        Command::Map(Request::Range { low, high, most }) => kind != Kind::Fill
            && !takes_nothing(*low, *high, *most),
        _ => true,
    }
}

/// Whether a range takes no pair, whatever the map has.
fn takes_nothing(low: u64, high: u64, most: u32) -> bool
    ensures { IsTrue result ↔ TakesNothing low high most }
{
    most == 0 || high < low
}

/// How many steps a call may make at most, while this many nodes are taken; or fewer, if that is no
/// number of this type.
pub(crate) fn most_steps(command: &Command, mode: Mode, limits: &Limits, taken: u64) -> u64
    ensures { (all : ℕ) → taken ≤ all →
        result ≤ command_steps command.now limits.now.tries (nodes_counted mode all) }
{
    let levels = nodes_counted(mode, taken).saturating_add(2);
    let tries = u64::from(limits.tries);
    match command {
        Command::Llx { cell: _ } => 64,
        Command::Scx(_) => 40,
        Command::Vlx { cells } => cells.as_slice().len() as u64,
        Command::Set { field: _, value: _ } => 104,
        Command::Map(request) => most_map_steps(request, tries, levels),
    }
}

/// How many taken nodes count for a bound on steps: in a trie always as many.
fn nodes_counted(mode: Mode, taken: u64) -> u64
    ensures { (all : ℕ) → taken ≤ all → result ≤ nodes_counted mode all }
{
    match mode {
        Mode::Trie => 65,
        _ => taken,
    }
}

/// How many steps a call of the map may make at most, in this many tries.
fn most_map_steps(request: &Request<u64, u128>, tries: u64, levels: u64) -> u64
    ensures { (all : ℕ) → levels ≤ 2 + all →
        result ≤ command_steps (MapCommand request.now) tries all }
{
    if let Some((_, rule)) = request.edit() {
        return edit_steps(tries, levels, rule.steps_behind());
    }
    match request {
        Request::Get { key: _ } => levels.saturating_mul(3).saturating_add(5),
        Request::Successor { .. } | Request::Predecessor { .. } => {
            tries.saturating_mul(levels.saturating_mul(137))
        }
        Request::Range { most, .. } => range_steps(tries, levels, *most),
        _ => 0,
    }
}

/// How many steps an edit may make at most, in this many tries.
fn edit_steps(tries: u64, levels: u64, others: u64) -> u64
    ensures { (all : ℕ) → levels ≤ 2 + all → result ≤ tries * (3 * (2 + all) + others) }
{
    tries.saturating_mul(levels.saturating_mul(3).saturating_add(others))
}

/// How many steps a range may make at most that takes this many pairs.
fn range_steps(tries: u64, levels: u64, most: u32) -> u64
    ensures { (all : ℕ) → levels ≤ 2 + all → result ≤ tries * ((most + 2) * (67 * (2 + all))) }
{
    let leaves = u64::from(most) + 2;
    tries.saturating_mul(leaves.saturating_mul(levels.saturating_mul(67)))
}

/// Whether a call may give an answer in place of a first step.
pub(crate) fn may_answer_at_once(command: &Command, answer: &Answer) -> bool
    ensures { IsTrue result → MayAnswerAtOnce command.now answer.now }
{
    match command {
        Command::Scx(_) => matches!(answer, Answer::Unlinked { .. } | Answer::Full { .. }),
        Command::Vlx { cells: _ } => matches!(answer, Answer::Unlinked { .. }),
        Command::Map(request) => match answer {
            Answer::Map(reply) => may_reply_at_once(request, reply),
            _ => false,
        },
        _ => false,
    }
}

/// Whether a call of the map may give a reply in place of a first step.
fn may_reply_at_once(request: &Request<u64, u128>, reply: &Reply<u64, u128>) -> bool
    ensures { IsTrue result → MayAnswerAtOnce (MapCommand request.now) (MapAnswer reply.now) }
{
    match request {
        Request::Range { low, high, most } => is_range_at_once(*low, *high, *most, reply),
        Request::Successor { .. } | Request::Predecessor { .. } => {
            matches!(reply, Reply::NoMemory)
        }
        _ => false,
    }
}

/// Whether a range may give a reply in place of a first step.
fn is_range_at_once(low: u64, high: u64, most: u32, reply: &Reply<u64, u128>) -> bool
    ensures { IsTrue result → RangeAtOnce low high most (MapAnswer reply.now) }
{
    match reply {
        Reply::Pairs(pairs) => takes_nothing(low, high, most) && pairs.is_empty(),
        Reply::NoMemory => !takes_nothing(low, high, most),
        _ => false,
    }
}

/// Whether a call may give an answer after a step.
pub(crate) fn may_answer_after_step(command: &Command, answer: &Answer) -> bool
    ensures { IsTrue result → MayAnswerAfterStep command.now answer.now }
{
    match command {
        Command::Llx { cell: _ } => is_of_llx(answer),
        Command::Scx(_) => matches!(answer, Answer::Done | Answer::Lost { .. }),
        Command::Vlx { cells: _ } => matches!(answer, Answer::Same | Answer::Changed { .. }),
        Command::Set { field: _, value: _ } => is_of_set(answer),
        Command::Map(request) => match answer {
            Answer::Map(reply) => may_reply_after_step(request, reply),
            _ => false,
        },
    }
}

/// Whether a call of the map may give a reply after a step.
fn may_reply_after_step(request: &Request<u64, u128>, reply: &Reply<u64, u128>) -> bool
    ensures { IsTrue result → MayAnswerAfterStep (MapCommand request.now) (MapAnswer reply.now) }
{
    if let Some((goal, _)) = request.edit() {
        return goal.may_reply(reply);
    }
    match request {
        Request::Get { key: _ } => matches!(reply, Reply::Value(_)),
        Request::Successor { .. } | Request::Predecessor { .. } => is_of_neighbour(reply),
        Request::Range { .. } => is_of_range(reply),
        _ => false,
    }
}

fn is_of_llx(answer: &Answer) -> bool
    ensures { IsTrue result → LlxAfterStep answer.now }
{
    match answer {
        Answer::Snapshot { .. } | Answer::Finalized | Answer::Fail { .. } => true,
        _ => false,
    }
}

fn is_of_set(answer: &Answer) -> bool
    ensures { IsTrue result → SetAfterStep answer.now }
{
    match answer {
        Answer::Finalized | Answer::Fail { .. } | Answer::Full { .. } => true,
        Answer::Done | Answer::Lost { .. } => true,
        _ => false,
    }
}

fn is_of_neighbour(reply: &Reply<u64, u128>) -> bool
    ensures { IsTrue result → IsFormOfNeighbour (form_of reply.now) }
{
    match reply {
        Reply::Pair(_) | Reply::Contended { .. } | Reply::NoMemory => true,
        _ => false,
    }
}

fn is_of_range(reply: &Reply<u64, u128>) -> bool
    ensures { IsTrue result → IsFormOfRange (form_of reply.now) }
{
    match reply {
        Reply::Pairs(_) | Reply::Contended { .. } | Reply::NoMemory => true,
        _ => false,
    }
}

/// Whether an answer says that an update of the call is in the log.
pub(crate) fn enters(command: &Command, answer: &Answer) -> bool
    ensures { result ≡ enters command.now answer.now }
{
    match command {
        Command::Scx(_) | Command::Set { .. } => matches!(answer, Answer::Done),
        Command::Map(request) => match answer {
            Answer::Map(reply) => request.changes(reply),
            _ => false,
        },
        _ => false,
    }
}

/// How many nodes of its client's share a call may take at most for each SCX-record that it takes.
pub(crate) fn nodes_each(command: &Command) -> u32
    ensures { result ≡ (rules command.now).nodes_each }
{
    match command {
        Command::Scx(_) | Command::Set { .. } => 1,
        Command::Map(request) => match request.edit() {
            Some((_, rule)) => rule.nodes_in_try(),
            None => 0,
        },
        _ => 0,
    }
}

/// How many SCX-records of it a call may take at most.
pub(crate) fn most_scx(command: &Command, limits: &Limits) -> u32
    ensures { result ≤ (rules command.now).most_scx limits.now.tries }
{
    match command {
        Command::Scx(_) | Command::Set { .. } => 1,
        Command::Map(request) if request.edit().is_some() => limits.tries,
        _ => 0,
    }
}
