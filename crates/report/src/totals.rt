//! How many lines of each kind a run has.
ghost use Rattle.std.specs.Prelude.{◌≡◌, ◌↔◌, ◌+◌, ◌-◌, ◌^◌, ◌<◌, ◌∷◌, [], IsTrue, min};
ghost use Rattle.report.specs.Report.{report_end_row, entries_in, replies_in, steps_in, seven};
ghost use Rattle.script.specs.Commands.{texts};

use record::Line;
use texts::is_number;

/// What the end row of a report counts.
#[derive(Clone, Copy)]
pub struct Totals {
    /// How many turns there were, idle ones too.
    pub steps: u64,
    /// How many calls were answered.
    pub replies: u64,
    /// How many updates have won.
    pub entries: u64,
}

impl Totals {
    /// The counts of no lines.
    pub fn none() -> Totals
        ensures { result ≡ record { steps = 0; replies = 0; entries = 0 } }
    {
        Totals {
            steps: 0,
            replies: 0,
            entries: 0,
        }
    }

    /// Counts these lines too. A count that would be too large stays at the largest `u64`.
    pub fn count(&mut self, lines: &[Line])
        ensures steps { self.new.steps ≡ min (self.old.steps + steps_in lines.now) (2 ^ 64 - 1) }
        ensures replies { self.new.replies ≡ min (self.old.replies + replies_in lines.now) (2 ^ 64 - 1) }
        ensures entries { self.new.entries ≡ min (self.old.entries + entries_in lines.now) (2 ^ 64 - 1) }
    {
        let more = Totals::of(lines);
        self.steps = self.steps.saturating_add(more.steps);
        self.replies = self.replies.saturating_add(more.replies);
        self.entries = self.entries.saturating_add(more.entries);
    }

    /// The counts of these lines.
    pub fn of(lines: &[Line]) -> Totals
        ensures steps { result.steps ≡ steps_in lines.now }
        ensures replies { result.replies ≡ replies_in lines.now }
        ensures entries { result.entries ≡ entries_in lines.now }
    {
        let mut totals = Totals::none();
        for line in lines {
            totals.add(line);
        }
        totals
    }

    /// Counts one line more, where no count is at its largest.
    fn add(&mut self, line: &Line)
        requires steps { self.old.steps < 2 ^ 64 - 1 }
        requires replies { self.old.replies < 2 ^ 64 - 1 }
        requires entries { self.old.entries < 2 ^ 64 - 1 }
        ensures steps { self.new.steps ≡ self.old.steps + steps_in (line.now ∷ []) }
        ensures replies { self.new.replies ≡ self.old.replies + replies_in (line.now ∷ []) }
        ensures entries { self.new.entries ≡ self.old.entries + entries_in (line.now ∷ []) }
    {
        match line {
            Line::Step(_) => self.steps += 1,
            Line::Reply(_) => self.replies += 1,
            Line::Log(_) => self.entries += 1,
        }
    }
}

/// Whether a row is the end row of these lines.
pub fn is_end_of(fields: [&str; 7], lines: &[Line]) -> bool
    ensures { IsTrue result ↔ (texts fields.entry ≡ seven (report_end_row lines.now)) }
{
    let ["end", steps, replies, entries, "", "", ""] = fields else {
        return false;
    };
    let totals = Totals::of(lines);
    is_number(steps, totals.steps)
        && is_number(replies, totals.replies)
        && is_number(entries, totals.entries)
}
