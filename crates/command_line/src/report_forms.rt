//! How the rows of reports are made up, field by field, after the rows before them.
use crate::field::{Field, Wanted};
use crate::forms::{
    CALLS, CELL_CALLS, WORD, arguments, client, nothing, one_of, script_fields, text, word,
};
use crate::sheet_rows::rows_of;
use crate::source::Source;
use arena::Mode;
use csv::StringRecord;
use std::alloc::Global;
use texts::number_of;

/// The calls of version 1.
const OLD_CALLS: &str = "insert delete pop_first replace_if get successor range";

const STEP_KINDS: &str =
    "fill settled info state marked allfrozen child freeze frozen mark update commit abort idle";

/// What the rows before a row of a report say of it.
#[derive(Clone, Copy)]
pub(crate) struct ReportSoFar {
    row: u64,
    is_old: bool,
    mode: Mode,
    passes: u128,
    /// How many rows of each kind there were, and how many calls of this row's client.
    pub(crate) calls: u64,
    own: u64,
    steps: u64,
    replies: u64,
    logs: u64,
}

impl ReportSoFar {
    /// The rows before this one.
    pub(crate) fn of(
        alloc: Global,
        source: &Source<'_>,
        row: u64,
        found: &StringRecord,
    ) -> ReportSoFar {
        let mut so_far = ReportSoFar::before_all(row);
        let own = found.get(1).unwrap_or("");
        let mut rows = rows_of(alloc, source);
        let mut before = StringRecord::new(alloc);
        for _ in 1..row {
            if !matches!(rows.read_record(&mut before), Ok(true)) {
                break;
            }
            so_far.add(&before, own);
        }
        so_far
    }

    /// Before the rows before this one are gone through.
    fn before_all(row: u64) -> ReportSoFar {
        ReportSoFar {
            row,
            is_old: false,
            mode: Mode::Tree,
            passes: 0,
            calls: 0,
            own: 0,
            steps: 0,
            replies: 0,
            logs: 0,
        }
    }

    fn add(&mut self, row: &StringRecord, own: &str) {
        let second = row.get(1).unwrap_or("");
        match row.get(0) {
            Some("report") => {
                self.is_old = second == "1";
                self.mode = mode_of(row.get(2).unwrap_or(""));
            }
            Some("limits") => self.passes = number_of::<u128>(second).unwrap_or(0),
            kind => self.count(kind, second == own),
        }
    }

    /// One more row of a kind, which a call of this row's client may be.
    fn count(&mut self, kind: Option<&str>, is_own: bool) {
        let count = match kind {
            Some("call") => {
                self.own = self.own.saturating_add(u64::from(is_own));
                &mut self.calls
            }
            Some("step") => &mut self.steps,
            Some("reply") => &mut self.replies,
            _ => &mut self.logs,
        };
        *count = count.saturating_add(1);
    }

    fn has_lines(&self) -> bool {
        self.steps > 0 || self.replies > 0 || self.logs > 0
    }

    /// The fields of the row that begins so, and is of this kind or command.
    pub(crate) fn fields(&self, first: &str, kind: &str) -> [Field; 7] {
        let rest = nothing("what follows");
        match (self.row, first) {
            (1, _) => [
                one_of("first field", "report"),
                one_of("version", "1 2"),
                one_of("mode", "records tree trie"),
                rest,
                rest,
                rest,
                rest,
            ],
            (2, _) => {
                let [head, passes, nodes, scx, tries] = script_fields(1, "", Mode::Tree, 0);
                [head, passes, nodes, scx, tries, rest, rest]
            }
            (_, "call") if !self.has_lines() => self.call_fields(kind),
            _ => self.line_fields(first, kind),
        }
    }

    fn call_fields(&self, command: &str) -> [Field; 7] {
        let (commands, most) = match (self.mode, self.is_old) {
            (Mode::Records, _) => (CELL_CALLS, WORD),
            (Mode::Tree | Mode::Trie, true) => (OLD_CALLS, WORD),
            (Mode::Tree | Mode::Trie, false) => (CALLS, u128::MAX),
        };
        let [a, b, c] = arguments(command, most);
        [
            one_of("first field", "call"),
            client(self.passes),
            Field::number("number", u128::from(self.own), u128::from(self.own)),
            one_of("command", commands),
            a,
            b,
            c,
        ]
    }

    /// How the row may begin, if it is no call.
    fn line_names(&self) -> &'static str {
        if self.has_lines() {
            "step log reply end"
        } else {
            "call step log reply end"
        }
    }

    fn line_fields(&self, first: &str, kind: &str) -> [Field; 7] {
        let rest = nothing("what follows");
        let head = one_of("first field", self.line_names());
        let client = Field::number("client", 0, u128::from(u32::MAX));
        let (number, call) = (word("number"), word("call"));
        match first {
            "step" => {
                let [kind, table_word, before, after] = step_fields(kind, !self.is_old);
                [head, number, client, kind, table_word, before, after]
            }
            "log" => [head, word("place"), word("step"), scx(), client, call, rest],
            "reply" => {
                let (begin, end, answer) = (word("begin"), word("end"), text("answer"));
                [head, client, number, begin, end, moment(), answer]
            }
            "end" => self.end_fields(),
            _ => [head, rest, rest, rest, rest, rest, rest],
        }
    }

    /// The last row counts right.
    fn end_fields(&self) -> [Field; 7] {
        let rest = nothing("what follows");
        let count = |name, count: u64| Field::number(name, u128::from(count), u128::from(count));
        [
            one_of("first field", "end"),
            count("steps", self.steps),
            count("replies", self.replies),
            count("logs", self.logs),
            rest,
            rest,
            rest,
        ]
    }
}

/// The mode of this name.
fn mode_of(name: &str) -> Mode {
    match name {
        "records" => Mode::Records,
        "trie" => Mode::Trie,
        _ => Mode::Tree,
    }
}

/// The fields of a step from its kind on.
fn step_fields(kind: &str, has_high: bool) -> [Field; 4] {
    let kinds = one_of("kind", STEP_KINDS);
    if kind == "idle" {
        let rest = nothing("what follows");
        return [kinds, rest, rest, rest];
    }
    let table_word = Field {
        name: "word",
        wanted: Wanted::TableWord { has_high },
    };
    [kinds, table_word, word("before"), word("after")]
}

fn scx() -> Field {
    Field {
        name: "SCX-record",
        wanted: Wanted::Scx,
    }
}

fn moment() -> Field {
    Field {
        name: "moment",
        wanted: Wanted::NumberOrNothing { most: WORD },
    }
}
