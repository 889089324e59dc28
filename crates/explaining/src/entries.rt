//! Entries of the log.
use crate::breach::Objection;
use crate::cell_entries::check_cell_entry;
use crate::details::Detail::{Call, Client, Number, Scx};
use crate::lines_before::LinesBefore;
use arena::Mode;
use record::Entry;

const PLACE: usize = 1;

const STEP: usize = 2;

const SCX: usize = 3;

const CLIENT: usize = 4;

const CALL: usize = 5;

/// An entry comes after each update that wins, and is the only one of its call.
pub(crate) fn check_entry(before: &LinesBefore<'_>, entry: &Entry) -> Result<(), Objection> {
    let Some(owed) = &before.owed else {
        let text = "an entry comes only after an update that wins, and the row before is none";
        return Err(before.object(0, text, &[]));
    };
    check_fields(before, entry, owed)?;
    check_owner(before, entry)?;
    check_made(before, entry)
}

/// Each field is that of the update.
fn check_fields(before: &LinesBefore<'_>, entry: &Entry, owed: &Entry) -> Result<(), Objection> {
    let (place, step) = ("the next place in the log", "the turn of the update");
    before.demand_same(PLACE, entry.place, owed.place, place)?;
    before.demand_same(STEP, entry.step, owed.step, step)?;
    check_named(before, entry, owed)?;
    let call = "the word call of the SCX-record";
    before.demand_same(CALL, entry.call, owed.call, call)
}

/// The SCX-record and its owner.
fn check_named(before: &LinesBefore<'_>, entry: &Entry, owed: &Entry) -> Result<(), Objection> {
    let (scx, owner) = (
        "the SCX-record that the node's info names",
        "the owner of the SCX-record",
    );
    let (client, wanted) = (u64::from(entry.client.0), u64::from(owed.client.0));
    before.demand_same(SCX, entry.scx.0, owed.scx.0, scx)?;
    before.demand_same(CLIENT, client, wanted, owner)
}

/// It is of the call that the owner is making, and the first of it.
fn check_owner(before: &LinesBefore<'_>, entry: &Entry) -> Result<(), Objection> {
    let (owner, client) = (entry.client, before.client(entry.client));
    let has_begun = client.begun.is_some() && before.next(owner).is_some();
    let text = "# is making no call, so it has no entry";
    before.demand(has_begun, CLIENT, text, &[Client(owner)])?;
    let text = "# in place of #, the call that # is making";
    let details = [Number(entry.call), Number(client.answered), Client(owner)];
    before.demand(entry.call == client.answered, CALL, text, &details)?;
    check_first(before, entry)
}

fn check_first(before: &LinesBefore<'_>, entry: &Entry) -> Result<(), Objection> {
    let mut is_first = true;
    for past in before.entries.iter() {
        if past.client == entry.client {
            is_first = past.call != entry.call;
        }
    }
    let text = "#, has an entry already";
    before.demand(is_first, CALL, text, &[Call(entry.client)])
}

/// It is one that the call makes. This is asked last, so it is what is broken.
fn check_made(before: &LinesBefore<'_>, entry: &Entry) -> Result<(), Objection> {
    if before.record.script.layout.mode == Mode::Records {
        check_cell_entry(before, entry)?;
    }
    let text = "# does not make the edit of #";
    Err(before.object(SCX, text, &[Scx(entry.scx.0), Call(entry.client)]))
}
