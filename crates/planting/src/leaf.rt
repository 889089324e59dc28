//! The pairs of a leaf.
ghost use Rattle.std.specs.Prelude.{◌≡◌, ◌≤◌, length};

use arena::Slot;
use edits::Pairs;
use ordered_map::Pair;

/// Up to four pairs as those of a leaf.
pub(crate) fn few(pairs: &[Pair]) -> Pairs
    requires { length pairs.now ≤ 4 }
    ensures { result ≡ pairs.now }
{
    let mut few = Pairs::new();
    if let [first, ..] = *pairs {
        few.push(Slot::First, first);
    }
    if let [_, second, ..] = *pairs {
        few.push(Slot::Second, second);
    }
    if let [_, _, third, ..] = *pairs {
        few.push(Slot::Third, third);
    }
    if let [_, _, _, fourth, ..] = *pairs {
        few.push(Slot::Fourth, fourth);
    }
    few
}
