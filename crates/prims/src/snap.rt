//! Snapshots.
ghost use Rattle.std.specs.Prelude.{◌≡◌};

use arena::{NodeNo, ScxNo, Side};

/// What an LLX of a node found: its info and its fields at one moment.
#[derive(Clone, Copy, Debug, Default, PartialEq, Eq)]
pub struct Snap {
    /// The node that was looked at.
    pub node: NodeNo,
    /// The SCX-record that its info named, which was finished.
    pub scx: ScxNo,
    /// Its left field: the number of a node, 0 for none.
    pub left: NodeNo,
    /// Its right field.
    pub right: NodeNo,
}

impl Snap {
    ghost use Rattle.prims.specs.Snap.{child_of};

    /// A field of the node.
    pub fn child(&self, side: Side) -> NodeNo
        ensures { result ≡ child_of self.now side }
    {
        match side {
            Side::Left => self.left,
            Side::Right => self.right,
        }
    }
}
