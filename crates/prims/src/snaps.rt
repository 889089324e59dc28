//! Lists of snapshots.
ghost use Rattle.std.specs.Prelude.{◌≡◌, ◌≤◌, List, length};
ghost use Rattle.arena.specs.MemberIndex.{member_index};
ghost use Rattle.prims.specs.Snap.{snap_at};
ghost use Rattle.prims.specs.declared.snap.Snap.{Snap};

use crate::snap::Snap;
use arena::MemberIndex;
use std::marker::Model;

/// A list of snapshots, in whatever holds it.
pub trait SnapList {
    /// The snapshots as a list, in their order.
    ghost list: { Self → List Snap };

    /// How many snapshots there are.
    fn len(&self) -> usize
        ensures { result ≡ length (list self.now) };

    /// The snapshot at an index, which is blank after the last.
    fn get(&self, index: usize) -> Snap
        ensures { result ≡ snap_at (list self.now) index };
}

/// Up to four snapshots as a plain value, so that an update is copied and passed on as one. Slots
/// after the last are blank.
#[derive(Clone, Copy, Debug)]
pub struct Snaps {
    slots: [Snap; 4],
    count: usize,
}

impl Model for Snaps {
    ghost use Rattle.std.specs.Prelude.{◌≡◌, ◌≤◌, List, length, take};
    ghost use Rattle.prims.specs.declared.snap.Snap.{Snap};

    ghost Value = { List Snap };

    ghost use Rattle.prims.specs.Laws.Slots.{slots_of, slots_back};

    ghost view = { λ s. take s.count s.slots };

    ghost invariant = { λ s. (s.count ≤ 4) × (s.slots ≡ slots_of (take s.count s.slots)) };

    ghost inverse = { λ snaps. record { slots = slots_of snaps; count = length snaps } };

    ghost inverse_ok = { λ s i. slots_back s i };
}

impl Snaps {
    /// These snapshots, at most four.
    #[inline(always)]
    pub fn new(snaps: &[Snap]) -> Snaps
        requires { length snaps.now ≤ 4 }
        ensures { result ≡ snaps.now }
    {
        Snaps {
            slots: [
                slot(snaps, 0),
                slot(snaps, 1),
                slot(snaps, 2),
                slot(snaps, 3),
            ],
            count: snaps.len(),
        }
    }

    /// The snapshot at a place, which is blank after the last.
    #[inline(always)]
    pub fn at(&self, place: MemberIndex) -> Snap
        ensures { result ≡ snap_at self.now (member_index place) }
    {
        self.slots[place.index()]
    }
}

impl SnapList for Snaps {
    ghost list = { λ snaps. snaps };

    #[inline(always)]
    fn len(&self) -> usize {
        self.count
    }

    #[inline(always)]
    fn get(&self, index: usize) -> Snap {
        if index < self.count {
            self.slots[index]
        } else {
            Snap::default()
        }
    }
}

impl SnapList for Vec<Snap> {
    ghost list = { λ snaps. snaps.items };

    #[inline(always)]
    fn len(&self) -> usize {
        Vec::len(self)
    }

    #[inline(always)]
    fn get(&self, index: usize) -> Snap {
        slot(self, index)
    }
}

impl SnapList for &[Snap] {
    ghost list = { λ snaps. snaps.now };

    #[inline(always)]
    fn len(&self) -> usize {
        (*self).len()
    }

    #[inline(always)]
    fn get(&self, index: usize) -> Snap {
        slot(*self, index)
    }
}

/// A snapshot of a slice, which is blank after the last.
#[inline(always)]
fn slot(snaps: &[Snap], index: usize) -> Snap
    ensures { result ≡ snap_at snaps.now index }
{
    match snaps.get(index) {
        Some(snap) => *snap,
        None => Snap::default(),
    }
}
