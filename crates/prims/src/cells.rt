//! The shape of cells.
ghost use Rattle.arena.specs.declared.limits.Mode.TheVariants.{Records};
ghost use Rattle.prims.specs.Cells.{AllowsAll};

use arena::{Mode, Shape};

/// The shape of records mode: every SCX-record may begin, and nothing more is known of a run.
#[derive(Debug, Drop)]
pub struct Cells;

impl Shape for Cells {
    ghost mode = { Records };

    ghost allows = { AllowsAll };

    ghost holds = { λ lay h. Unit {0} };

    ghost opens = { λ lay o run. tt };

    ghost stays = { λ lay h r run held. tt };

    #[inline(always)]
    fn node_size() -> usize {
        Mode::Records.node_size()
    }
}
