//! Room for what is planted.
ghost use Rattle.std.specs.Prelude.{◌≡◌, ◌+◌, ◌*◌, ◌<◌, ◌≤◌, IfSome, IsNone};
ghost use Rattle.arena.specs.Layout.{IsMap};

use arena::Layout;

/// The most nodes that a map has beside the three of an empty one.
pub const MOST_NODES: u32 = 1048576;

/// This layout with room for so many planted nodes: none, if there were more than 1,048,576 nodes
/// beside the three of an empty map.
pub fn with_room(layout: &Layout, planted: u32) -> Option<Layout>
    requires fits { planted ≤ 67108864 }
    requires scx { layout.now.scx ≤ 32768 }
    ensures planted { IfSome result (λ l. l.planted ≡ planted) }
    ensures mode { IfSome result (λ l. l.mode ≡ layout.now.mode) }
    ensures shares { IfSome result (λ l. (l.passes ≡ layout.now.passes)
        × (l.nodes ≡ layout.now.nodes) × (l.scx ≡ layout.now.scx)) }
    ensures full { IsNone result → 1048576 < planted + layout.now.passes * layout.now.nodes }
{
    let shares = layout.all_nodes() - layout.opening();
    if planted + shares > MOST_NODES {
        return None;
    }
    Some(layout.with_planted(planted))
}
