//! Whether levels rise from each fork that a field has ever held to its children.
ghost use Rattle.std.specs.Prelude.{◌≡◌, ◌≢◌, ◌<◌, ◌⊎◌, false, true, IsTrue};
ghost use Rattle.record.specs.Common.{HasRisingLevels, is_leaf};
ghost use Rattle.histories.specs.Common.{◌⊳◌, value, IsLawful, child as child_of, Head as HeadWord, Side as SideOf};
ghost use Rattle.ordered_map.specs.FillOrder.{HasStoodInField};
ghost use Rattle.ordered_map.specs.TreeWords.{level};
ghost use Rattle.judge.specs.Histories.{seen_history};

use crate::leaves::head;
use arena::{NodeNo, NodeWord, Row, SettledPart, Side, Word};
use judge::Judge;

/// Whether levels still rise after a lawful row that is to be made: where it stores a node into a
/// field. The head of a node that a field has held is not filled any more.
pub(crate) fn do_levels_rise(judge: &Judge, row: &Row) -> bool
    requires { row.now.before ≡ value (seen_history judge.now) row.now.word }
    ensures { IsTrue result → HasRisingLevels (seen_history judge.now) →
        HasRisingLevels (row.now ⊳ seen_history judge.now) }
{
    if row.before == row.after {
        return true;
    }
    match row.word {
        Word::Node(node, NodeWord::Child(_)) => may_hold(judge, node.0, row.after),
        Word::Node(node, NodeWord::Settled(part)) => may_fill(judge, node.0, part),
        Word::Node(_, NodeWord::Info) => true,
        Word::Node(_, NodeWord::Marked) => true,
        Word::Scx(_, _) => true,
    }
}

/// Whether a settled word of a node may be filled: not the head of one that a field has held.
fn may_fill(judge: &Judge, node: u64, part: SettledPart) -> bool
    ensures { IsTrue result → part ≡ HeadWord → HasStoodInField (seen_history judge.now) node → ⊥ }
{
    match part {
        SettledPart::Head => !stands(judge, node),
        _ => true,
    }
}

/// Whether a node may be stored into a field of another: levels rise over it and below it.
fn may_hold(judge: &Judge, node: u64, child: u64) -> bool
    ensures apart { IsTrue result → node ≢ child }
    ensures over { IsTrue result → HasStoodInField (seen_history judge.now) node →
        is_leaf (value (seen_history judge.now)) node ≡ false →
        level (value (seen_history judge.now)) node < level (value (seen_history judge.now)) child }
    ensures below { IsTrue result → (side : SideOf) →
        is_leaf (value (seen_history judge.now)) child ≡ false →
        level (value (seen_history judge.now)) child < level (value (seen_history judge.now))
        (value (seen_history judge.now) (child_of child side)) }
{
    node != child && rises_to(judge, node, child) && rises(judge, child)
}

/// Whether a node was there from the start, or a field may have held it.
fn stands(judge: &Judge, node: u64) -> bool
    ensures { HasStoodInField (seen_history judge.now) node → IsTrue result }
{
    node < 3 || judge.is_in_field(NodeNo(node))
}

/// Whether the level of a fork's child is above its own, if a field has ever held the fork.
fn rises_to(judge: &Judge, fork: u64, child: u64) -> bool
    ensures { IsTrue result → HasStoodInField (seen_history judge.now) fork →
        is_leaf (value (seen_history judge.now)) fork ≡ false →
        level (value (seen_history judge.now)) fork < level (value (seen_history judge.now)) child }
{
    !stands(judge, fork)
        || head(judge, fork).leaf
        || head(judge, fork).level < head(judge, child).level
}

/// Whether the levels of a node's children are above its own, if it is a fork.
pub(crate) fn rises(judge: &Judge, node: u64) -> bool
    ensures { IsTrue result → (side : SideOf) →
        is_leaf (value (seen_history judge.now)) node ≡ false →
        level (value (seen_history judge.now)) node < level (value (seen_history judge.now))
        (value (seen_history judge.now) (child_of node side)) }
{
    let of = head(judge, node);
    of.leaf
        || (of.level < child_level(judge, node, Side::Left)
            && of.level < child_level(judge, node, Side::Right))
}

fn child_level(judge: &Judge, node: u64, side: Side) -> u64
    ensures { result ≡ level (value (seen_history judge.now))
        (value (seen_history judge.now) (child_of node side)) }
{
    head(
        judge,
        judge.get(Word::Node(NodeNo(node), NodeWord::Child(side))),
    )
    .level
}
