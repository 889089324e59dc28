//! Which rows are lawful after those before.
ghost use Rattle.std.specs.Prelude.{◌≡◌, ◌<◌, ◌↔◌, IsTrue};
ghost use Rattle.arena.specs.History.{value};
ghost use Rattle.arena.specs.Lawful.{Obeys, IsLawful};
ghost use Rattle.judge.specs.Histories.{seen_history};

use crate::exchanges::{
    is_some_abort, is_some_commit, is_some_freeze, is_some_mark, is_some_set_frozen, is_some_update,
};
use crate::facts::value_of;
use crate::filling::may_fill;
use crate::judge::Judge;
use crate::loads::{
    is_load_of_all_frozen, is_load_of_field, is_load_of_info, is_load_of_marked,
    is_load_of_settled, is_load_of_state,
};
use arena::{Kind, Row};

/// Whether a row does what its kind allows after the rows before it.
fn obeys(judge: &Judge, row: &Row) -> bool
    requires pass { row.now.pass.0 < judge.now.layout.passes }
    requires before { row.now.before ≡ value (seen_history judge.now) row.now.word }
    ensures { IsTrue result ↔ Obeys judge.now.layout (seen_history judge.now) row.now row.now.kind }
{
    match row.kind {
        Kind::Fill => may_fill(judge, row),
        Kind::LoadSettled => is_load_of_settled(row),
        Kind::LoadInfo => is_load_of_info(row),
        Kind::LoadState => is_load_of_state(row),
        Kind::LoadMarked => is_load_of_marked(row),
        Kind::LoadAllFrozen => is_load_of_all_frozen(row),
        Kind::LoadChild => is_load_of_field(row),
        Kind::Freeze => is_some_freeze(judge, row),
        Kind::SetFrozen => is_some_set_frozen(judge, row),
        Kind::Mark => is_some_mark(judge, row),
        Kind::Update => is_some_update(judge, row),
        Kind::Commit => is_some_commit(judge, row),
        Kind::Abort => is_some_abort(judge, row),
    }
}

/// Whether a row is lawful after the rows before it.
pub fn is_lawful(judge: &Judge, row: &Row) -> bool
    ensures { IsTrue result ↔ IsLawful judge.now.layout (seen_history judge.now) row.now }
{
    row.pass.0 < judge.layout().passes
        && judge.layout().has(row.word)
        && row.before == value_of(judge, row.word)
        && obeys(judge, row)
}
