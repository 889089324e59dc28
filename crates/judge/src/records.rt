//! What the words of nodes and of SCX-records say after some rows.
ghost use Rattle.std.specs.Prelude.{◌≡◌, ◌≤◌, ◌↔◌, IsTrue};
ghost use Rattle.arena.specs.History.{value};
ghost use Rattle.arena.specs.Lawful.{AreFrozen};
ghost use Rattle.arena.specs.ScxRecords.{plan, member, count, field};
ghost use Rattle.arena.specs.Words.{node, scx};
ghost use Rattle.judge.specs.Histories.{seen_history};

use crate::facts::{frozen_count, value_of};
use crate::judge::Judge;
use arena::{NodeNo, NodeWord, Plan, ScxNo, ScxWord, Word};

/// Whether two words are the same.
pub fn is_same(one: Word, other: Word) -> bool
    ensures { IsTrue result ↔ (one ≡ other) }
{
    one == other
}

/// What a word of a node holds.
pub fn of_node(judge: &Judge, number: u64, part: NodeWord) -> u64
    ensures { result ≡ value (seen_history judge.now) (node number part) }
{
    value_of(judge, Word::Node(NodeNo(number), part))
}

/// What a word of an SCX-record holds.
pub fn of_scx(judge: &Judge, number: u64, part: ScxWord) -> u64
    ensures { result ≡ value (seen_history judge.now) (scx number part) }
{
    value_of(judge, Word::Scx(ScxNo(number), part))
}

/// The plan word of an SCX-record.
pub fn plan(judge: &Judge, scx: u64) -> Plan
    ensures { result.0 ≡ plan (seen_history judge.now) scx }
{
    Plan(of_scx(judge, scx, ScxWord::Plan))
}

/// How many nodes an SCX-record covers.
pub fn count(judge: &Judge, scx: u64) -> u8
    ensures count { result ≡ count (seen_history judge.now) scx }
    ensures few { result ≤ 4 }
{
    plan(judge, scx).count()
}

/// The node that an SCX-record covers at a place.
pub fn member(judge: &Judge, scx: u64, place: u8) -> u64
    ensures { result ≡ member (seen_history judge.now) scx place }
{
    of_scx(judge, scx, ScxWord::Member(place))
}

/// The word that an SCX-record changes.
pub fn field(judge: &Judge, scx: u64) -> Word
    ensures { result ≡ field (seen_history judge.now) scx }
{
    let plan = plan(judge, scx);
    let node = member(judge, scx, plan.at().number());
    Word::Node(NodeNo(node), NodeWord::Child(plan.side()))
}

/// Whether the nodes before a place have been frozen for an SCX-record.
pub fn are_frozen(judge: &Judge, scx: u64, place: u8) -> bool
    requires { place ≤ count (seen_history judge.now) scx }
    ensures { IsTrue result ↔ AreFrozen (seen_history judge.now) scx place }
{
    place <= frozen_count(judge, scx)
}
