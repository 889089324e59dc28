//! Which turns of a run are drawn.

/// The turns from one number to another, both included.
#[derive(Clone, Copy, Debug)]
pub struct Window {
    pub from: u64,
    pub to: u64,
}

impl Window {
    /// All turns.
    pub const ALL: Window = Window {
        from: 1,
        to: u64::MAX,
    };

    /// Whether it has this turn.
    pub(crate) fn has(self, turn: u64) -> bool {
        self.from <= turn && turn <= self.to
    }

    /// The part of a call from one turn to another that it has, if there is one.
    pub(crate) fn part(self, begin: u64, end: u64) -> Option<(u64, u64)> {
        let (first, last) = (begin.max(self.from), end.min(self.to));
        if first <= last {
            Some((first, last))
        } else {
            None
        }
    }
}
