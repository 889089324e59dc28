//! Loads, each of its own words.
ghost use Rattle.std.specs.Prelude.{◌↔◌, IsTrue};
ghost use Rattle.arena.specs.Lawful.{IsLoad, IsSettled, IsInfo, IsState, IsMarked, IsAllFrozen, IsField};

use arena::{NodeWord, Row, ScxWord, Word};

/// Whether a row loads a settled word: `head`, `key`, `value`, or one of `plan` to `call`.
pub fn is_load_of_settled(row: &Row) -> bool
    ensures { IsTrue result ↔ IsLoad IsSettled row.now }
{
    let settled = match row.word {
        Word::Node(_, NodeWord::Settled(_)) => true,
        Word::Node(_, _) => false,
        Word::Scx(_, ScxWord::State | ScxWord::AllFrozen) => false,
        Word::Scx(_, _) => true,
    };
    settled && row.after == row.before
}

/// Whether a row loads the info of a node.
pub fn is_load_of_info(row: &Row) -> bool
    ensures { IsTrue result ↔ IsLoad IsInfo row.now }
{
    matches!(row.word, Word::Node(_, NodeWord::Info)) && row.after == row.before
}

/// Whether a row loads the state of an SCX-record.
pub fn is_load_of_state(row: &Row) -> bool
    ensures { IsTrue result ↔ IsLoad IsState row.now }
{
    matches!(row.word, Word::Scx(_, ScxWord::State)) && row.after == row.before
}

/// Whether a row loads the mark of a node.
pub fn is_load_of_marked(row: &Row) -> bool
    ensures { IsTrue result ↔ IsLoad IsMarked row.now }
{
    matches!(row.word, Word::Node(_, NodeWord::Marked)) && row.after == row.before
}

/// Whether a row loads `allfrozen` of an SCX-record.
pub fn is_load_of_all_frozen(row: &Row) -> bool
    ensures { IsTrue result ↔ IsLoad IsAllFrozen row.now }
{
    matches!(row.word, Word::Scx(_, ScxWord::AllFrozen)) && row.after == row.before
}

/// Whether a row loads a field of a node.
pub fn is_load_of_field(row: &Row) -> bool
    ensures { IsTrue result ↔ IsLoad IsField row.now }
{
    matches!(row.word, Word::Node(_, NodeWord::Child(_))) && row.after == row.before
}
