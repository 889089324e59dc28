//! Whether pairs are in order.
ghost use Rattle.std.specs.Prelude.{◌≡◌, ◌↔◌, IsNone, IfSome};
ghost use Rattle.ordered_map.specs.OrderedMap.{IsRising};
ghost use Rattle.planting.specs.Orders.{FallsFirstAt};

use ordered_map::Pair;

/// The first place, counted from 0, at which a key is not above the one before it: none, if the
/// keys rise, so that none is there twice.
pub fn first_fall(pairs: &[Pair]) -> Option<usize>
    ensures none { IsNone result ↔ IsRising pairs.now }
    ensures place { IfSome result (FallsFirstAt pairs.now) }
{
    for at in 1..pairs.len() {
        if pairs[at].key <= pairs[at - 1].key {
            return Some(at);
        }
    }
    None
}
