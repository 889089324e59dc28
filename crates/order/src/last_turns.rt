//! The forks at which a walk has turned.
ghost use Rattle.std.specs.Prelude.{◌≡◌};
ghost use Rattle.order.specs.LastTurns.{first_children, no_turns, turn_to, with_last_turn};

use crate::read::Children;
use arena::{NodeNo, Side};

/// The last forks at which a walk has turned to the left and to the right; the root where it has at
/// none.
#[derive(Clone, Copy, Debug, PartialEq, Eq)]
pub struct LastTurns {
    pub left: NodeNo,
    pub right: NodeNo,
}

impl LastTurns {
    /// Those of a walk that has not turned.
    #[inline(always)]
    pub fn none() -> LastTurns
        ensures { result ≡ no_turns }
    {
        let (left, right) = (NodeNo(0), NodeNo(0));
        LastTurns { left, right }
    }

    /// With a turn to this side at the fork `node`.
    #[inline(always)]
    pub fn with(self, side: Side, node: NodeNo) -> LastTurns
        ensures { result ≡ with_last_turn side node self }
    {
        match side {
            Side::Left => LastTurns { left: node, ..self },
            Side::Right => LastTurns {
                right: node,
                ..self
            },
        }
    }

    /// The last to this side.
    #[inline(always)]
    pub fn to(self, side: Side) -> NodeNo
        ensures { result ≡ turn_to side self }
    {
        match side {
            Side::Left => self.left,
            Side::Right => self.right,
        }
    }

    /// Which children of that are to be visited: both; or of the root, where a walk never turns to the
    /// right, the left one alone.
    #[inline(always)]
    pub fn children(self, side: Side) -> Children
        ensures { result ≡ first_children side (turn_to side self).0 }
    {
        match side {
            Side::Left => Children::Both,
            Side::Right => {
                if self.right.0 == 0 {
                    Children::Left
                } else {
                    Children::Both
                }
            }
        }
    }
}
