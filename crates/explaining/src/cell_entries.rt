//! Entries of calls of cells.
use crate::begins::field_of;
use crate::breach::Objection;
use crate::details::Detail::{Call, Node, Number, Scx};
use crate::lines_before::LinesBefore;
use crate::stores::finalizes;
use arena::{NodeWord, ScxWord, SettledPart, Side, Slot, Word};
use record::Entry;
use script::{Cell, Command};

const SCX: usize = 3;

/// It covers and finalizes what the script says, and puts a fresh cell of the script's value into
/// the script's field. What is asked last is that each cell is as its snapshot found it.
pub(crate) fn check_cell_entry(before: &LinesBefore<'_>, entry: &Entry) -> Result<(), Objection> {
    let call = Call(entry.client);
    match before.next(entry.client) {
        Some(Command::Scx(update)) => {
            check_cells(before, entry, update.cells(), update.finalize())?;
            check_put(before, entry, update.field(), update.value())?;
        }
        Some(Command::Set { field, value }) => {
            check_cells(before, entry, &[field.0], &[])?;
            check_put(before, entry, field, value)?;
        }
        _ => return Err(before.object(SCX, "#, makes no entry", &[call])),
    }
    let text = "# wins for #, though a cell has changed since its snapshot, or is final";
    Err(before.object(SCX, text, &[Scx(entry.scx.0), call]))
}

/// It covers these cells, and finalizes those.
fn check_cells(
    before: &LinesBefore<'_>,
    entry: &Entry,
    cells: &[Cell],
    finalized: &[Cell],
) -> Result<(), Objection> {
    let (scx, call) = (entry.scx.0, Call(entry.client));
    let count = usize::from(before.plan(scx).count());
    let mut covers = count == cells.len();
    let mut keeps = true;
    for (place, cell) in (0u8..4).zip(cells.iter()) {
        covers = covers && before.member(scx, place) == cell.node().0;
        keeps = keeps && finalizes(before, scx, place) == finalized.contains(cell);
    }
    let text = "# covers other cells than #";
    before.demand(covers, SCX, text, &[Scx(scx), call])?;
    let text = "# finalizes other cells than #";
    before.demand(keeps, SCX, text, &[Scx(scx), call])
}

/// It puts a fresh cell of this value into this field.
fn check_put(
    before: &LinesBefore<'_>,
    entry: &Entry,
    field: (Cell, Side),
    value: u64,
) -> Result<(), Objection> {
    let scx = entry.scx.0;
    let text = "# changes another field than #";
    let (cell, side) = field;
    let wanted = Word::Node(cell.node(), NodeWord::Child(side));
    let details = [Scx(scx), Call(entry.client)];
    before.demand(field_of(before, scx) == wanted, SCX, text, &details)?;
    let new = before.scx_word(scx, ScxWord::New);
    let stored = before.node_word(new, NodeWord::Settled(SettledPart::Value(Slot::First)));
    let text = "#, which # puts there, has the value # in place of #";
    let details = [Node(new), Scx(scx), Number(stored), Number(value)];
    before.demand(stored == value, SCX, text, &details)?;
    check_fresh(before, entry, new)
}

/// A fresh cell is of the client's share, and its fields are 0.
fn check_fresh(before: &LinesBefore<'_>, entry: &Entry, new: u64) -> Result<(), Objection> {
    let is_own = before.owns_node(entry.client, new);
    let left = before.node_word(new, NodeWord::Child(Side::Left));
    let right = before.node_word(new, NodeWord::Child(Side::Right));
    let text = "#, which # puts there, is no cell of the client's share with two empty fields";
    let details = [Node(new), Scx(entry.scx.0)];
    before.demand(is_own && left == 0 && right == 0, SCX, text, &details)
}
