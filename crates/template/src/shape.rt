//! The shape of the tree.
ghost use Rattle.ordered_map.specs.TreeShape.{TreeAllows};
ghost use Rattle.arena.specs.declared.limits.Mode.TheVariants.{Tree as TreeMode};
ghost use Rattle.template.specs.Laws.TreeKept.{IsTreeThere, tree_opens, tree_stays};

use arena::{Mode, Shape};

/// The shape of tree mode: each SCX-record that begins makes an edit of the tree.
#[derive(Debug, Drop)]
pub struct Tree;

impl Shape for Tree {
    ghost mode = { TreeMode };

    ghost allows = { TreeAllows };

    ghost holds = { IsTreeThere };

    ghost opens = { tree_opens };

    ghost stays = { tree_stays };

    #[inline(always)]
    fn node_size() -> usize {
        Mode::Tree.node_size()
    }
}
