//! Loads.
use crate::breach::Objection;
use crate::details::Detail::{Named, Text};
use crate::lines_before::LinesBefore;
use crate::steps::{AFTER, WORD};
use crate::words::name_of;
use arena::{Kind, NodeWord, Row, ScxWord, Word};

/// A load is of a word of its kind, and changes nothing.
pub(crate) fn check_load(before: &LinesBefore<'_>, row: &Row) -> Result<(), Objection> {
    let text = "# in place of #, which # loads";
    let details = [
        Named(row.word),
        Text(loaded_by(row.kind)),
        Text(name_of(row.kind)),
    ];
    before.demand(is_loaded_by(row.kind, row.word), WORD, text, &details)?;
    let why = "since a load changes nothing";
    before.demand_same(AFTER, row.after, row.before, why)
}

fn is_loaded_by(kind: Kind, word: Word) -> bool {
    match kind {
        Kind::LoadInfo => matches!(word, Word::Node(_, NodeWord::Info)),
        Kind::LoadState => matches!(word, Word::Scx(_, ScxWord::State)),
        Kind::LoadMarked => matches!(word, Word::Node(_, NodeWord::Marked)),
        Kind::LoadAllFrozen => matches!(word, Word::Scx(_, ScxWord::AllFrozen)),
        Kind::LoadChild => matches!(word, Word::Node(_, NodeWord::Child(_))),
        _ => is_settled(word),
    }
}

fn is_settled(word: Word) -> bool {
    match word {
        Word::Node(_, NodeWord::Settled(_)) => true,
        Word::Node(_, _) | Word::Scx(_, ScxWord::State | ScxWord::AllFrozen) => false,
        Word::Scx(_, _) => true,
    }
}

fn loaded_by(kind: Kind) -> &'static str {
    match kind {
        Kind::LoadInfo => "the info of a node",
        Kind::LoadState => "the state of an SCX-record",
        Kind::LoadMarked => "the mark of a node",
        Kind::LoadAllFrozen => "allfrozen of an SCX-record",
        Kind::LoadChild => "a field of a node",
        _ => "a settled word of a node, or plan to call of an SCX-record",
    }
}
