//! How two passes come to know what both knew.
ghost use Rattle.std.specs.Prelude.{◌≡◌, []};
ghost use Rattle.tables.specs.Seats.{IsSeatAt};
ghost use Rattle.tables.specs.TablePlans.{IsTableOnce};
ghost use Rattle.tables.specs.TableRule.{Met, IsAlone};

use arena::{Layout, Shape};
use atomic_table::Seat;
use std::mem::replace;
use tables::view::SeatView;
use tables::words::Words;

/// Each of two passes looks at the table. Before that the first knows what both knew, with the
/// other's look.
pub(crate) fn meet<S: Shape>(
    words: &Words<S>,
    layout: &Layout,
    one: &mut Seat<u8, SeatView>,
    other: &mut Seat<u8, SeatView>,
)
    requires table { IsTableOnce words.now.table.shared.table_id words.now.table.shared.key layout.now }
    requires seats { IsSeatAt words.now one.old × IsSeatAt words.now other.old }
    requires bare { (one.old.me.1 ≡ []) × (other.old.me.1 ≡ []) }
    requires first { IsAlone layout.now one.old.me.0.passes }
    requires second { IsAlone layout.now other.old.me.0.passes }
    ensures table { (one.new.table_id ≡ one.old.table_id) × (other.new.table_id ≡ other.old.table_id) }
    ensures bare { (one.new.me.1 ≡ []) × (other.new.me.1 ≡ []) }
    ensures met { Met S.allows one.old.me.0.passes other.old.me.0.passes one.new.me.0.passes other.new.me.0.passes }
{
    let mine = words.deal(one);
    words.take_in(other, mine);
    words.look(layout, other);
    words.look(layout, other);
    let theirs = words.deal(other);
    *one = replace(other, theirs);
}
