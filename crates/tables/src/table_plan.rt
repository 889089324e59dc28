//! Where the words of a table are, as a step reckons it.
ghost use Rattle.std.specs.Prelude.{◌≡◌, ◌-◌, ◌^◌, ◌≤◌};

use crate::rule::Turns;
use arena::Layout;

/// The layout of a table, and by which bits of its name a record has a slot.
#[derive(Clone, Copy)]
pub struct TablePlan {
    /// How its words lie.
    pub layout: Layout,
    /// Where its records come back: the bits of a node's name that say its slot.
    pub node_mask: u64,
    /// The same of SCX-records.
    pub scx_mask: u64,
}

impl TablePlan {
    /// That of a table in which no record comes back.
    pub fn once(layout: Layout) -> TablePlan
        ensures { result ≡ record { layout = layout; node_mask = 0; scx_mask = 0 } }
    {
        TablePlan {
            layout,
            node_mask: 0,
            scx_mask: 0,
        }
    }

    /// That of a table whose records come back.
    pub fn in_turns(layout: Layout, turns: Turns) -> TablePlan
        requires { (turns.node_bits ≤ 29) × (turns.scx_bits ≤ 29) }
        ensures { result ≡ record {
          layout = layout;
          node_mask = 2 ^ turns.node_bits - 1;
          scx_mask = 2 ^ turns.scx_bits - 1;
        } }
    {
        TablePlan {
            layout,
            node_mask: (1 << turns.node_bits) - 1,
            scx_mask: (1 << turns.scx_bits) - 1,
        }
    }
}
