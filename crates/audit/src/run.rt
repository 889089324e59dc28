//! A run, judged line by line.
ghost use Rattle.std.specs.Prelude.{◌≡◌, ℕ, ◌≤◌, ◌∷◌, [], Some, length, IfOk, OnOk, IsTrue};
ghost use Rattle.audit.specs.After.{lines_of, IsAfter, Remembers, AreClientsAfter};
ghost use Rattle.linearization.specs.Places.{changes};

use crate::client::{ClientState, has_begun, note_win};
use crate::commands::{enters, may_answer_after_step, may_answer_at_once, may_make, most_steps};
use crate::edits::{BegunEdit, begun_for, covers_the_right_leaf, is_begun_for, note_begun};
use crate::fault::{LineFault, require};
use crate::found::{FoundLeaves, found_by, note_found};
use crate::levels::do_levels_rise;
use crate::steps::{Steps, says_its_call};
use crate::{cells, map};
use arena::{Kind, NoMemory, NodeWord, PassNo, ScxNo, ScxWord, Word};
use linearization::{Change, Places};
use record::{Entry, Finished, Line, Record, TurnRow};
use script::{Call, Command, Script};
use std::alloc::Global;

/// What the lines so far say.
#[derive(Drop)]
pub(crate) struct Replay<'a> {
    pub(crate) record: &'a Record,
    /// How many lines there were.
    pub(crate) at: usize,
    pub(crate) steps: Steps,
    pub(crate) places: Places,
    /// In a map, by the numbers of SCX-records: those that have begun.
    pub(crate) edits: Vec<Option<BegunEdit>>,
    /// Which leaves each client has found.
    pub(crate) found: Vec<FoundLeaves>,
    pub(crate) clients: Vec<ClientState>,
    /// How many turns there were.
    pub(crate) turn: u64,
    /// How many entries there were.
    pub(crate) entries: u64,
    /// Who made the last turn.
    pub(crate) last: Option<PassNo>,
    /// The entry that has to follow the last line.
    pub(crate) owed: Option<Entry>,
    /// Whether that entry is one that its client's call makes.
    pub(crate) fits: bool,
    /// Whether the last line is an idle turn.
    pub(crate) idle: bool,
    /// Whether it is the whole of a call, whose reply has to follow it.
    pub(crate) awaits: bool,
}

impl<'a> Replay<'a> {
    ghost use Rattle.std.specs.Prelude.{◌≡◌, ℕ, suc, ◌+◌, ◌<◌, ◌∷◌, [], Some, None, true, false, IsTrue, IfOk, IfSome, OnOk, slice_get, vec_len, length, reverse, Option};
    ghost use Rattle.record.specs.Common.{next_command, IsWinOf, OwesNothing, IsLawfulRun, clients, entry_of, entry_owed, HasRisingLevels, IsEntryFor, IsPlaced, linked, IsFitting, enters, start};
    ghost use Rattle.histories.specs.Common.{Row as RowOf, IsLawful, Side, IsWin, entry as entered, child, ◌⊳◌, value, IsBegin};
    ghost use Rattle.arena.specs.Opening.{IsMap, is_map};
    ghost use Rattle.record.specs.declared.record.Line.{Line};
    ghost use Rattle.record.specs.declared.record.Entry.{Entry as EntryOf};
    ghost use Rattle.record.specs.declared.record.TurnRow.{TurnRow};
    ghost use Rattle.record.specs.Steps.{IsStep, IsIdleTurn};
    ghost use Rattle.record.specs.Replies.{IsReply};
    ghost use Rattle.linearization.specs.Places.{changes};
    ghost use Rattle.audit.specs.Trees.{HasChangedBy, IsChangeBegun, IsReadyFor};
    ghost use Rattle.audit.specs.Edits.{MayMakeEdit, ShowsTree};
    ghost use Rattle.audit.specs.declared.edits.BegunEdit.{BegunEdit as BegunOf};
    ghost use Rattle.judge.specs.Histories.{seen_history};
    ghost use Rattle.audit.specs.After.{layout_of, tries_of, calls_of, IsClientAfter, IsNextStep, IsReplyToNext, IsRightReply, TookFew};

    /// A run of no line of a record. The only error is want of memory.
    pub(crate) fn new(alloc: Global, judged: &'a Record) -> Result<Replay<'a>, LineFault>
        ensures remembers { IfOk result (λ run. Remembers run []) }
        ensures at { IfOk result (λ run. run.at ≡ 0) }
        ensures record { IfOk result (λ run. run.record.now ≡ judged.now) }
    {
        Ok(Replay {
            record: judged,
            at: 0,
            steps: Steps::new(alloc, &judged.script.layout)?,
            places: Places::new(alloc, judged.script.calls.as_slice())?,
            edits: vec![in alloc; None; judged.script.layout.all_scx() as usize]?,
            found: vec![in alloc; FoundLeaves::NONE; judged.script.layout.passes as usize]?,
            clients: clients(alloc, &judged.script)?,
            turn: 0,
            entries: 0,
            last: None,
            owed: None,
            fits: false,
            idle: false,
            awaits: false,
        })
    }

    /// No other line has to follow the last one.
    pub(crate) fn settled(&self) -> Result<(), LineFault>
        requires { IsAfter self.now (lines_of self.now) }
        ensures { OnOk result
            (OwesNothing (layout_of self.now) (calls_of self.now) (lines_of self.now)) }
    {
        require(self.owed.is_none())?;
        self.require_or_blame_idle(!self.awaits)?;
        Ok(())
    }

    /// Refuses the next line, if this does not hold of it; or, if the next line is to be the reply
    /// that explains the last one, an idle turn, refuses that.
    fn require_or_blame_idle(&self, fits: bool) -> Result<(), LineFault>
        ensures { OnOk result (fits ≡ true) }
    {
        match (fits, self.awaits) {
            (true, _) => Ok(()),
            (false, true) => Err(LineFault::Unexplained),
            (false, false) => Err(LineFault::NotLawful),
        }
    }

    /// The lines are those of a lawful run, if no other line has to follow the last one.
    pub(crate) fn finish(&self) -> Result<(), LineFault>
        requires remembers { Remembers self.now (lines_of self.now) }
        requires all { self.now.at ≡ length self.now.record.now.lines.items }
        ensures { OnOk result
            (IsLawfulRun (layout_of self.now) (tries_of self.now) (calls_of self.now)
            (reverse (clients
            (reverse self.now.record.now.lines.items))) self.now.record.now.lines.items) }
    {
        self.steps.judge.laws_hold();
        self.settled()?;
        Ok(())
    }

    fn calls(&self) -> &[Call]
        ensures { result.now ≡ calls_of self.now }
    {
        self.record.script.calls.as_slice()
    }

    /// The command of the next call of a client, if it has one left.
    fn next(&self, client: &ClientState) -> Option<Command>
        requires after { IsAfter self.now (lines_of self.now) }
        requires client { slice_get self.now.clients.items client.now.pass.0 ≡ Some client.now }
        ensures { result ≡ next_command (calls_of self.now) (lines_of self.now) client.now.pass.0 }
    {
        client.command(self.calls())
    }

    /// The state of a client, if there is one of this number.
    fn client(&self, pass: PassNo) -> Result<ClientState, LineFault>
        requires { IsAfter self.now (lines_of self.now) }
        ensures here { IfOk result (λ c. slice_get self.now.clients.items pass.0 ≡ Some c) }
        ensures there { IfOk result (λ c. slice_get self.now.clients.items c.pass.0 ≡ Some c) }
        ensures pass { IfOk result (λ c. c.pass ≡ pass) }
        ensures after { IfOk result
            (λ c. IsClientAfter (layout_of self.now) (calls_of self.now)
            (lines_of self.now) pass.0 c) }
    {
        match self.clients.get(pass.0 as usize) {
            Some(client) => Ok(*client),
            None => Err(LineFault::NotLawful),
        }
    }

    /// One line more, if it fits those before it.
    pub(crate) fn line(&mut self) -> Result<(), LineFault>
        requires remembers { Remembers self.old (lines_of self.old) }
        requires more { self.old.at < vec_len self.old.record.now.lines }
        ensures remembers { OnOk result (Remembers self.new (lines_of self.new)) }
        ensures at { OnOk result (self.new.at ≡ suc self.old.at) }
        ensures record { self.new.record ≡ self.old.record }
    {
        let record = self.record;
        let line = &record.lines[self.at];
        self.next_line(line)?;
        self.at += 1;
        Ok(())
    }

    /// This line after those so far, if it fits them.
    fn next_line(&mut self, line: &Line) -> Result<(), LineFault>
        requires { Remembers self.old (lines_of self.old) }
        ensures remembers { OnOk result (Remembers self.new (line.now ∷ lines_of self.old)) }
        ensures at { self.new.at ≡ self.old.at }
        ensures record { self.new.record ≡ self.old.record }
    {
        match line {
            Line::Step(TurnRow::Step { number, row }) => self.step(*number, row),
            Line::Step(TurnRow::Idle { number, client }) => self.idle(*number, *client),
            Line::Log(entry) => self.entry(entry),
            Line::Reply(reply) => self.reply(reply),
        }
    }

    /// A turn fits the lines so far that makes this step.
    fn check_step(&self, number: u64, row: &arena::Row) -> Result<(), LineFault>
        requires { IsAfter self.now (lines_of self.now) }
        ensures { OnOk result
            (IsStep (layout_of self.now) (tries_of self.now) (calls_of self.now)
            (lines_of self.now) number row.now) }
    {
        let client = self.client(row.pass)?;
        let Some(command) = self.next(&client) else {
            return Err(LineFault::NotLawful);
        };
        let (limits, mode) = (&self.record.script.limits, self.record.script.layout.mode);
        let most = most_steps(&command, mode, limits, u64::from(self.steps.judge.taken()));
        require(self.turn.checked_add(1) == Some(number))?;
        require(row.call == client.answered)?;
        require(client.steps < most)?;
        require(may_make(&command, row.kind))?;
        require(says_its_call(row))?;
        require(self.steps.judge.is_lawful(row))?;
        Ok(())
    }

    /// A turn fits the lines so far that makes no step.
    fn check_idle(&self, number: u64, pass: PassNo) -> Result<(), LineFault>
        requires { IsAfter self.now (lines_of self.now) }
        ensures { OnOk result
            (IsIdleTurn (layout_of self.now) (calls_of self.now)
            (lines_of self.now) number pass.0) }
    {
        let client = self.client(pass)?;
        require(self.turn.checked_add(1) == Some(number))?;
        require(pass.0 < self.record.script.layout.passes)?;
        require(client.begun.is_none() || self.next(&client).is_none())?;
        Ok(())
    }

    /// A turn without a step: of a client with no call left, or the whole of a call.
    fn idle(&mut self, number: u64, pass: PassNo) -> Result<(), LineFault>
        requires { Remembers self.old (lines_of self.old) }
        ensures remembers { OnOk result (Remembers self.new
            (Line.Step (TurnRow.Idle number pass) ∷ lines_of self.old)) }
        ensures at { self.new.at ≡ self.old.at }
        ensures record { self.new.record ≡ self.old.record }
    {
        self.settled()?;
        self.check_idle(number, pass)?;
        let client = self.client(pass)?;
        let awaits = self.next(&client).is_some();
        self.steps
            .begin(&client, self.record.script.calls.as_slice());
        self.clients[pass.0 as usize] = client.turned(number);
        self.turn = number;
        self.last = Some(pass);
        self.idle = true;
        self.awaits = awaits;
        Ok(())
    }

    /// A turn that makes a lawful step of a client's next call.
    fn step(&mut self, number: u64, row: &arena::Row) -> Result<(), LineFault>
        requires { Remembers self.old (lines_of self.old) }
        ensures remembers { OnOk result (Remembers self.new
            (Line.Step (TurnRow.Step number row.now) ∷ lines_of self.old)) }
        ensures at { self.new.at ≡ self.old.at }
        ensures record { self.new.record ≡ self.old.record }
    {
        self.settled()?;
        self.check_step(number, row)?;
        self.check_levels(row)?;
        self.check_begun(row)?;
        let owed = self.owed_by(number, row)?;
        let fits = self.fits_with(row, &owed);
        self.make(number, row, owed, fits)
    }

    /// Whether a step wins with this entry, if there is one.
    fn fits_with(&self, row: &arena::Row, owed: &Option<Entry>) -> bool
        requires remembers { Remembers self.now (lines_of self.now) }
        requires lawful { IsLawful self.now.steps.judge.layout
            (seen_history self.now.steps.judge) row.now }
        ensures { (number : ℕ) → (e : EntryOf) → IsTrue result → owed.now ≡ Some e →
            entry_of (layout_of self.now) (lines_of self.now) number row.now ≡ Some e →
            IsWinOf (layout_of self.now) (calls_of self.now) (lines_of self.now) row.now e }
    {
        match owed {
            Some(entry) => self.check_win(row, entry).is_ok(),
            None => false,
        }
    }

    /// The entry that a step of this turn asks for, if it is an update which changes its field: of
    /// the SCX-record that holds the field's node.
    fn owed_by(&self, number: u64, row: &arena::Row) -> Result<Option<Entry>, LineFault>
        requires { IsAfter self.now (lines_of self.now) }
        ensures owed { IfOk result
            (λ owed. entry_of (layout_of self.now) (lines_of self.now) number row.now ≡ owed) }
        ensures client { IfOk result
            (λ owed. IfSome owed (λ e. e.client.0 < (layout_of self.now).passes)) }
    {
        if row.kind != Kind::Update || row.before == row.after {
            return Ok(None);
        }
        let Word::Node(node, NodeWord::Child(_)) = row.word else {
            return Ok(None);
        };
        let scx = ScxNo(self.steps.judge.get(Word::Node(node, NodeWord::Info)));
        let call = self.steps.judge.get(Word::Scx(scx, ScxWord::Call));
        match (
            self.record.script.layout.owner(scx),
            self.entries.checked_add(1),
        ) {
            (Some(client), Some(place)) => Ok(Some(Entry {
                place,
                step: number,
                scx,
                client,
                call,
            })),
            _ => Err(LineFault::NotLawful),
        }
    }

    /// A step wins with this entry: the first one of its client's call that runs.
    fn check_win(&self, row: &arena::Row, entry: &Entry) -> Result<(), LineFault>
        requires remembers { Remembers self.now (lines_of self.now) }
        requires lawful { IsLawful self.now.steps.judge.layout
            (seen_history self.now.steps.judge) row.now }
        ensures { (number : ℕ) →
            entry_of (layout_of self.now) (lines_of self.now) number row.now ≡ Some entry.now →
            OnOk result (IsWinOf (layout_of self.now) (calls_of self.now)
            (lines_of self.now) row.now entry.now) }
    {
        let client = self.client(entry.client)?;
        let Some(command) = self.next(&client) else {
            return Err(LineFault::NotLawful);
        };
        require(self.steps.judge.winner(row) == Some(entry.scx))?;
        require(client.won.is_none())?;
        require(entry.call == client.answered)?;
        require(has_begun(&client, row.pass))?;
        self.check_entry(&client, &command, entry.scx)?;
        Ok(())
    }

    /// An entry of this SCX-record is one that the client's call makes.
    fn check_entry(
        &self,
        client: &ClientState,
        command: &Command,
        scx: ScxNo,
    ) -> Result<(), LineFault>
        requires remembers { Remembers self.now (lines_of self.now) }
        requires client { slice_get self.now.clients.items client.now.pass.0 ≡ Some client.now }
        requires command { next_command (calls_of self.now)
            (lines_of self.now) client.now.pass.0 ≡ Some command.now }
        ensures { OnOk result ((row : RowOf) (n : ℕ) (side : Side) →
            IsLawful self.now.steps.judge.layout (seen_history self.now.steps.judge) row →
            IsWin (seen_history self.now.steps.judge) row scx.0 → row.word ≡ child n side →
            IsEntryFor (layout_of self.now) client.now.pass.0 (seen_history self.now.steps.judge)
            (start (layout_of self.now).mode (lines_of self.now) client.now.pass.0)
            (linked (calls_of self.now) (layout_of self.now).mode
            (lines_of self.now) client.now.pass.0)
            (entered (layout_of self.now)
            (seen_history self.now.steps.judge) scx.0 n side row.after) command.now) }
    {
        match command {
            Command::Map(_) => {
                require(self.is_ready(command, scx))?;
                Ok(())
            }
            _ => {
                require(cells::is_entry_for(&self.steps, client, command, scx))?;
                Ok(())
            }
        }
    }

    /// In a map levels still rise after a step.
    fn check_levels(&self, row: &arena::Row) -> Result<(), LineFault>
        requires after { IsAfter self.now (lines_of self.now) }
        requires found { row.now.before ≡ value (seen_history self.now.steps.judge) row.now.word }
        ensures { OnOk result (IsMap (layout_of self.now).mode →
            HasRisingLevels (seen_history self.now.steps.judge) →
            HasRisingLevels (row.now ⊳ seen_history self.now.steps.judge)) }
    {
        if !self.record.script.layout.mode.is_map() {
            return Ok(());
        }
        require(do_levels_rise(&self.steps.judge, row))?;
        Ok(())
    }

    /// In a map the SCX-record that a step begins, if it begins one, makes an edit for its
    /// client's call.
    fn check_begun(&self, row: &arena::Row) -> Result<(), LineFault>
        requires { Remembers self.now (lines_of self.now) }
        ensures { OnOk result (IsMap (layout_of self.now).mode →
            IsBegin (seen_history self.now.steps.judge) row.now row.now.after →
            (begun : BegunOf)
            × MayMakeEdit (layout_of self.now)
            (seen_history self.now.steps.judge) row.now.after begun) }
    {
        if !self.begins(row) {
            return Ok(());
        }
        match self.begun_by(row) {
            Some(_begun) => Ok(()),
            None => Err(LineFault::NotLawful),
        }
    }

    /// Whether a step in a map begins an SCX-record.
    fn begins(&self, row: &arena::Row) -> bool
        requires { IsAfter self.now (lines_of self.now) }
        ensures tree { IsTrue result → IsMap (layout_of self.now).mode }
        ensures begins { IsTrue result →
            IsBegin (seen_history self.now.steps.judge) row.now row.now.after }
        ensures none { result ≡ false → IsMap (layout_of self.now).mode →
            IsBegin (seen_history self.now.steps.judge) row.now row.now.after → ⊥ }
    {
        self.record.script.layout.mode.is_map() && self.steps.judge.is_begin(row)
    }

    /// The SCX-record that a step in a map begins, if it begins one, with the edit that it makes
    /// for its client's call.
    fn begun_by(&self, row: &arena::Row) -> Option<BegunEdit>
        requires { Remembers self.now (lines_of self.now) }
        ensures begins { IfSome result
            (λ begun. IsBegin (seen_history self.now.steps.judge) row.now row.now.after) }
        ensures edit { IfSome result
            (MayMakeEdit (layout_of self.now) (seen_history self.now.steps.judge) row.now.after) }
    {
        if !self.begins(row) {
            return None;
        }
        let Ok(client) = self.client(row.pass) else {
            return None;
        };
        match self.next(&client) {
            Some(command) => {
                let found = found_by(self.found.as_slice(), row.pass);
                begun_for(&self.steps.judge, row.after, &command, found)
            }
            None => None,
        }
    }

    /// Whether an SCX-record that wins has begun for a call with this command, and fits it.
    fn is_ready(&self, command: &Command, scx: ScxNo) -> bool
        requires { ShowsTree (seen_history self.now.steps.judge) }
        ensures { IsTrue result →
            IsReadyFor self.now.edits.items (seen_history self.now.steps.judge) scx.0 command.now }
    {
        match self.begun_of(scx) {
            Some(begun) => is_begun_for(&begun, command)
                && covers_the_right_leaf(&self.steps.judge, scx.0, &begun),
            None => false,
        }
    }

    /// The SCX-record of this number, if one has begun.
    fn begun_of(&self, scx: ScxNo) -> Option<BegunEdit>
        ensures { IfSome result
            (λ begun. slice_get self.now.edits.items scx.0 ≡ Some (Some begun)) }
    {
        match self.edits.get(scx.0 as usize) {
            Some(begun) => *begun,
            None => None,
        }
    }

    /// Makes a lawful step, which asks for this entry.
    fn make(
        &mut self,
        number: u64,
        row: &arena::Row,
        owed: Option<Entry>,
        fits: bool,
    ) -> Result<(), LineFault>
        requires remembers { Remembers self.old (lines_of self.old) }
        requires next { IsNextStep self.old number row.now owed fits }
        ensures remembers { OnOk result (Remembers self.new
            (Line.Step (TurnRow.Step number row.now) ∷ lines_of self.old)) }
        ensures at { self.new.at ≡ self.old.at }
        ensures record { self.new.record ≡ self.old.record }
    {
        let client = self.client(row.pass)?;
        require(client.steps < u64::MAX)?;
        let begun = self.begun_by(row);
        self.steps
            .begin(&client, self.record.script.calls.as_slice());
        self.steps.make(row)?;
        note_begun(&mut self.edits, row.after, begun);
        note_found(&mut self.found, row);
        self.clients[row.pass.0 as usize] = client.stepped(number);
        note_win(&mut self.clients, number, &owed);
        self.turn = number;
        self.last = Some(row.pass);
        self.owed = owed;
        self.fits = fits;
        self.idle = false;
        self.awaits = false;
        Ok(())
    }

    /// The entry that the step before it asks for.
    fn entry(&mut self, entry: &Entry) -> Result<(), LineFault>
        requires { Remembers self.old (lines_of self.old) }
        ensures remembers { OnOk result (Remembers self.new
            (Line.Log entry.now ∷ lines_of self.old)) }
        ensures at { self.new.at ≡ self.old.at }
        ensures record { self.new.record ≡ self.old.record }
    {
        self.require_or_blame_idle(self.owed == Some(*entry))?;
        require(self.fits)?;
        self.change(entry)?;
        self.owed = None;
        self.fits = false;
        self.idle = false;
        self.awaits = false;
        self.entries = entry.place;
        Ok(())
    }

    /// In a map's table the map is changed by the SCX-record of an entry.
    fn change(&mut self, entry: &Entry) -> Result<(), LineFault>
        requires { IsAfter self.old (lines_of self.old) }
        ensures rest { self.new ≡ record self.old { places = self.new.places } }
        ensures change { OnOk result (IsMap (layout_of self.old).mode →
            HasChangedBy (calls_of self.old) (lines_of self.old) entry.now
            self.old.edits.items (changes self.old.places) (changes self.new.places)) }
    {
        if !self.record.script.layout.mode.is_map() {
            return Ok(());
        }
        let change = self.change_of(entry)?;
        push(&mut self.places, change)
    }

    /// The change of the map that the SCX-record of an entry makes.
    fn change_of(&self, entry: &Entry) -> Result<Change, LineFault>
        requires { IsAfter self.now (lines_of self.now) }
        ensures { IfOk result
            (IsChangeBegun (calls_of self.now) (lines_of self.now) entry.now self.now.edits.items) }
    {
        match self.begun_for_entry(entry) {
            Some(begun) => Ok(Change {
                turn: entry.step,
                key: begun.key,
                value: begun.value,
            }),
            None => Err(LineFault::NotLawful),
        }
    }

    /// The SCX-record of an entry, if it has begun for the next call of the entry's client.
    fn begun_for_entry(&self, entry: &Entry) -> Option<BegunEdit>
        requires { IsAfter self.now (lines_of self.now) }
        ensures known { IfSome result
            (λ begun. slice_get self.now.edits.items entry.now.scx.0 ≡ Some (Some begun)) }
        ensures own { IfSome result (λ begun.
            next_command (calls_of self.now)
            (lines_of self.now) entry.now.client.0 ≡ Some begun.command) }
    {
        let Ok(client) = self.client(entry.client) else {
            return None;
        };
        let Some(command) = self.next(&client) else {
            return None;
        };
        let Some(begun) = self.begun_of(entry.scx) else {
            return None;
        };
        if is_begun_for(&begun, &command) {
            Some(begun)
        } else {
            None
        }
    }

    /// The reply to the call whose last turn is the newest one.
    fn reply(&mut self, reply: &Finished) -> Result<(), LineFault>
        requires { Remembers self.old (lines_of self.old) }
        ensures remembers { OnOk result (Remembers self.new
            (Line.Reply reply.now ∷ lines_of self.old)) }
        ensures at { self.new.at ≡ self.old.at }
        ensures record { self.new.record ≡ self.old.record }
    {
        require(self.owed.is_none())?;
        self.require_or_blame_idle(self.last == Some(reply.client))?;
        let client = self.client(reply.client)?;
        self.check_reply(&client, reply)?;
        require(client.answered < u64::MAX)?;
        self.steps.keep_after(&client, self.record.script.calls.as_slice(), &reply.answer);
        let after = client.ended(self.calls());
        self.clients[reply.client.0 as usize] = after;
        self.idle = false;
        self.awaits = false;
        Ok(())
    }

    /// A reply is that to a client's next call.
    fn check_reply(&self, client: &ClientState, reply: &Finished) -> Result<(), LineFault>
        requires remembers { Remembers self.now (lines_of self.now) }
        requires owed { entry_owed (layout_of self.now) (lines_of self.now) ≡ None }
        requires client { slice_get self.now.clients.items client.now.pass.0 ≡ Some client.now }
        requires own { client.now.pass ≡ reply.now.client }
        requires last { self.now.last ≡ Some reply.now.client }
        ensures { OnOk result
            (IsReply (layout_of self.now) (tries_of self.now) (calls_of self.now)
            (lines_of self.now) reply.now) }
    {
        let Some(command) = self.next(client) else {
            return Err(LineFault::NotLawful);
        };
        require(reply.call == client.answered)?;
        require(client.begun == Some(reply.begin))?;
        require(reply.end == self.turn)?;
        self.require_or_blame_idle(self.may_answer(&command, reply))?;
        require(enters(&command, &reply.answer) == client.won.is_some())?;
        require(is_within(reply))?;
        self.check_answer(client, &command, reply)?;
        Ok(())
    }

    /// Whether a call may give the answer of a reply after the newest line.
    fn may_answer(&self, command: &Command, reply: &Finished) -> bool
        requires { IsAfter self.now (lines_of self.now) }
        ensures { IsTrue result → IsFitting (lines_of self.now) command.now reply.now.answer }
    {
        if self.idle {
            may_answer_at_once(command, &reply.answer)
        } else {
            may_answer_after_step(command, &reply.answer)
        }
    }

    /// The answer to a client's call is right, and the call took place where the reply says.
    fn check_answer(
        &self,
        client: &ClientState,
        command: &Command,
        reply: &Finished,
    ) -> Result<(), LineFault>
        requires remembers { Remembers self.now (lines_of self.now) }
        requires next { IsReplyToNext self.now client.now command.now reply.now }
        ensures right { OnOk result (IsRightReply self.now reply.now command.now) }
        ensures took { OnOk result (TookFew self.now reply.now command.now) }
        ensures placed { OnOk result
            (IsPlaced (layout_of self.now) (calls_of self.now) (lines_of self.now)
            reply.now command.now) }
    {
        let limits = &self.record.script.limits;
        require(self.steps.has_taken_few(client.pass, command, limits))?;
        if self.record.script.layout.mode.is_map() {
            self.check_map_answer(client, command, reply)
        } else {
            self.check_cells_answer(client, command, reply)
        }
    }

    /// The same, for a call of the map.
    fn check_map_answer(
        &self,
        client: &ClientState,
        command: &Command,
        reply: &Finished,
    ) -> Result<(), LineFault>
        requires remembers { Remembers self.now (lines_of self.now) }
        requires mode { IsMap (layout_of self.now).mode }
        requires next { IsReplyToNext self.now client.now command.now reply.now }
        ensures right { OnOk result (IsRightReply self.now reply.now command.now) }
        ensures placed { OnOk result
            (IsPlaced (layout_of self.now) (calls_of self.now) (lines_of self.now)
            reply.now command.now) }
    {
        let tries = self.record.script.limits.tries;
        require(map::is_right(&self.steps, &self.places, client, tries, command, reply))?;
        Ok(())
    }

    /// The same, for a call of cells.
    fn check_cells_answer(
        &self,
        client: &ClientState,
        command: &Command,
        reply: &Finished,
    ) -> Result<(), LineFault>
        requires remembers { Remembers self.now (lines_of self.now) }
        requires mode { is_map (layout_of self.now).mode ≡ false }
        requires next { IsReplyToNext self.now client.now command.now reply.now }
        ensures right { OnOk result (IsRightReply self.now reply.now command.now) }
        ensures placed { OnOk result
            (IsPlaced (layout_of self.now) (calls_of self.now) (lines_of self.now)
            reply.now command.now) }
    {
        require(cells::is_right(&self.steps, client, command, reply))?;
        Ok(())
    }
}

/// The key of a change gets its value; refused if no call names that key.
fn push(places: &mut Places, change: Change) -> Result<(), LineFault>
    ensures { OnOk result (changes places.new ≡ change ∷ changes places.old) }
{
    require(places.knows(change.key))?;
    places.reserve()?;
    places.push(change);
    Ok(())
}

/// The clients of a script, which have made no turn.
fn clients(alloc: Global, script: &Script) -> Result<Vec<ClientState>, NoMemory>
    ensures all { IfOk result (λ v. length v.items ≡ script.now.layout.passes) }
    ensures clients { IfOk result
        (λ v. AreClientsAfter script.now.layout script.now.calls.items [] v.items) }
{
    let mut clients = Vec::new(alloc);
    for number in 0..script.layout.passes {
        clients.push(ClientState::new(PassNo(number), script.calls.as_slice()))?;
    }
    Ok(clients)
}

/// Whether the moment of a reply, if there is one, is within the call.
fn is_within(reply: &Finished) -> bool
    ensures { IsTrue result → (m : ℕ) → reply.now.moment ≡ Some m → (reply.now.begin ≤ m)
        × (m ≤ reply.now.end) }
{
    match reply.moment {
        Some(moment) => reply.begin <= moment && moment <= reply.end,
        None => true,
    }
}
