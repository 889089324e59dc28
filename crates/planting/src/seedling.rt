//! The nodes that are planted, each in few bytes.
ghost use Rattle.std.specs.Prelude.{◌≡◌, ◌≤◌, drop, length, min, take};
ghost use Rattle.planting.specs.Seedlings.{piece_of};

use crate::leaf::few;
use arena::NodeNo;
use edits::Piece;
use ordered_map::Pair;

/// A node that is planted. A leaf names its pairs by their places among all pairs: with pairs of its
/// own each node would take five times the memory, and memory that is fresh is most of a load.
#[derive(Clone, Copy, Debug)]
pub(crate) enum Seedling {
    Leaf {
        level: u64,
        first: u32,
        count: u32,
    },
    Fork {
        level: u64,
        class: u8,
        key: u64,
        left: u32,
        right: u32,
    },
}

impl Seedling {
    /// What it stands for among these pairs.
    #[inline(always)]
    pub(crate) fn piece(self, pairs: &[Pair]) -> Piece
        ensures { result ≡ piece_of pairs.now self }
    {
        match self {
            Seedling::Leaf {
                level,
                first,
                count,
            } => Piece::Leaf {
                level,
                class: 0,
                pairs: few(up_to_four(pairs, first as usize, count as usize)),
            },
            Seedling::Fork {
                level,
                class,
                key,
                left,
                right,
            } => Piece::Fork {
                level,
                class,
                key,
                left: NodeNo(u64::from(left)),
                right: NodeNo(u64::from(right)),
            },
        }
    }
}

/// So many pairs from a place on, but not more than four.
fn up_to_four(pairs: &[Pair], first: usize, count: usize) -> &[Pair]
    ensures pairs { result.now ≡ take (min count 4) (drop first pairs.now) }
    ensures few { length result.now ≤ 4 }
{
    let rest = &pairs[first.min(pairs.len())..];
    &rest[..count.min(4).min(rest.len())]
}
