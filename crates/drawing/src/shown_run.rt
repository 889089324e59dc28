//! A run as a picture shows it.
use crate::shown_call::{ShownCall, call_text};
use arena::{Kind, Layout, PassNo, ScxNo, Word};
use record::{Entry, Finished, Line, Record, TurnRow};
use script::Call;
use std::alloc::{AllocError, Global};

/// A turn. Its number is its place among all turns, counted from 1.
#[derive(Clone, Copy)]
pub(crate) struct ShownTurn {
    pub(crate) client: PassNo,
    /// Its step; none where it is idle.
    pub(crate) step: Option<arena::Row>,
    /// The client of whose SCX-record it is a step, if it has a sign.
    pub(crate) owner: Option<PassNo>,
    /// The update that it has won.
    pub(crate) entry: Option<Entry>,
    /// Whether it ends a call.
    pub(crate) is_last: bool,
}

/// An entry or a reading, in the legal order.
#[derive(Clone, Copy)]
pub(crate) struct ShownMoment {
    pub(crate) turn: u64,
    /// Whether it only reads.
    pub(crate) reads: bool,
    /// The place of its call among those that have begun.
    pub(crate) call: usize,
}

/// What is known of a client so far.
#[derive(Drop)]
pub(crate) struct ShownClient {
    /// The texts of its calls.
    pub(crate) calls: Vec<String>,
    /// The places of those that have begun.
    places: Vec<usize>,
    /// The first and the newest turn of the call that it is in.
    open: Option<(u64, u64)>,
    /// The SCX-record that it works for.
    scx: ScxNo,
}

/// The turns, the calls that have begun, and the legal order.
#[derive(Drop)]
pub(crate) struct ShownRun {
    pub(crate) layout: Layout,
    pub(crate) clients: Vec<ShownClient>,
    pub(crate) turns: Vec<ShownTurn>,
    pub(crate) calls: Vec<ShownCall>,
    pub(crate) moments: Vec<ShownMoment>,
    /// The updates that have won.
    pub(crate) entries: Vec<Entry>,
}

impl ShownRun {
    /// That of a record.
    pub(crate) fn of(alloc: Global, record: &Record) -> Result<ShownRun, AllocError> {
        let layout = record.script.layout;
        let mut run = ShownRun {
            layout,
            clients: clients_of(alloc, record.script.calls.as_slice(), layout.passes)?,
            turns: Vec::new(alloc),
            calls: Vec::new(alloc),
            moments: Vec::new(alloc),
            entries: Vec::new(alloc),
        };
        for line in record.lines.iter() {
            run.add(alloc, line)?;
        }
        run.add_open_calls(alloc)?;
        run.order()?;
        Ok(run)
    }

    fn add(&mut self, alloc: Global, line: &Line) -> Result<(), AllocError> {
        match line {
            Line::Step(TurnRow::Step { number: _, row }) => self.add_step(row),
            Line::Step(TurnRow::Idle { number: _, client }) => self.add_turn(*client, None, None),
            Line::Log(entry) => self.add_entry(*entry),
            Line::Reply(reply) => self.add_reply(alloc, reply),
        }
    }

    fn add_turn(
        &mut self,
        client: PassNo,
        step: Option<arena::Row>,
        owner: Option<PassNo>,
    ) -> Result<(), AllocError> {
        self.turns.push(ShownTurn {
            client,
            step,
            owner,
            entry: None,
            is_last: false,
        })?;
        Ok(())
    }

    fn add_step(&mut self, row: &arena::Row) -> Result<(), AllocError> {
        let number = (self.turns.len() as u64).saturating_add(1);
        let mut owner = None;
        if let Some(client) = self.clients.get_mut(row.pass.0 as usize) {
            client.open = Some(match client.open {
                Some((begin, _)) => (begin, number),
                None => (number, number),
            });
            client.note(row);
            if has_sign(row.kind) {
                owner = self.layout.owner(client.scx);
            }
        }
        self.add_turn(row.pass, Some(*row), owner)
    }

    fn add_entry(&mut self, entry: Entry) -> Result<(), AllocError> {
        if let Some(turn) = self.turns.last_mut() {
            turn.entry = Some(entry);
        }
        self.entries.push(entry)?;
        Ok(())
    }

    fn add_reply(&mut self, alloc: Global, reply: &Finished) -> Result<(), AllocError> {
        if let Some(turn) = self.turns.last_mut() {
            turn.is_last = true;
        }
        let place = self.calls.len();
        if let Some(client) = self.clients.get_mut(reply.client.0 as usize) {
            client.open = None;
            let call = client.begun(place)?;
            self.calls.push(ShownCall::answered(alloc, reply, call)?)?;
        }
        Ok(())
    }

    /// Adds the calls that are not answered.
    fn add_open_calls(&mut self, alloc: Global) -> Result<(), AllocError> {
        for (number, client) in self.clients.iter_mut().enumerate() {
            if let Some(turns) = client.open {
                let caller = PassNo(u32::try_from(number).unwrap_or(u32::MAX));
                let call = client.begun(self.calls.len())?;
                self.calls
                    .push(ShownCall::open(alloc, caller, turns, call)?)?;
            }
        }
        Ok(())
    }

    /// Puts entries and readings into their order.
    fn order(&mut self) -> Result<(), AllocError> {
        for place in 0..self.entries.len() {
            if let Some(entry) = self.entries.get(place).copied() {
                self.order_entry(entry)?;
            }
        }
        self.add_readings()?;
        self.moments
            .sort_by_key(|moment| (moment.turn, moment.reads))?;
        Ok(())
    }

    fn order_entry(&mut self, entry: Entry) -> Result<(), AllocError> {
        let Some(call) = self.place_of(entry.client, entry.call) else {
            return Ok(());
        };
        if let Some(shown) = self.calls.get_mut(call) {
            shown.has_entry = true;
        }
        self.moments.push(ShownMoment {
            turn: entry.step,
            reads: false,
            call,
        })?;
        Ok(())
    }

    fn add_readings(&mut self) -> Result<(), AllocError> {
        for (call, shown) in self.calls.iter().enumerate() {
            if let Some(turn) = shown.moment
                && !shown.has_entry
            {
                self.moments.push(ShownMoment {
                    turn,
                    reads: true,
                    call,
                })?;
            }
        }
        Ok(())
    }

    /// The place of a client's call of this number among those that have begun.
    fn place_of(&self, client: PassNo, call: u64) -> Option<usize> {
        let client = self.clients.get(client.0 as usize)?;
        client.places.get(call as usize).copied()
    }
}

impl ShownClient {
    /// It has no call.
    fn new(alloc: Global) -> ShownClient {
        ShownClient {
            calls: Vec::new(alloc),
            places: Vec::new(alloc),
            open: None,
            scx: ScxNo(0),
        }
    }

    /// Notes which SCX-record a step works for: the owner fills it, and a helper loads its words.
    fn note(&mut self, row: &arena::Row) {
        if let Word::Scx(scx, _) = row.word
            && row.kind != Kind::LoadState
        {
            self.scx = scx;
        }
    }

    /// The text of its next call, which has this place among those that have begun.
    fn begun(&mut self, place: usize) -> Result<&str, AllocError> {
        let number = self.places.len();
        self.places.push(place)?;
        Ok(match self.calls.get(number) {
            Some(call) => call.as_str(),
            None => "",
        })
    }
}

/// Whether a step of this kind is drawn as a sign; the others are ticks.
pub(crate) fn has_sign(kind: Kind) -> bool {
    matches!(
        kind,
        Kind::Freeze | Kind::SetFrozen | Kind::Mark | Kind::Update | Kind::Commit | Kind::Abort
    )
}

/// This many clients, with their calls.
fn clients_of(alloc: Global, calls: &[Call], passes: u32) -> Result<Vec<ShownClient>, AllocError> {
    let mut clients = Vec::new(alloc);
    for _ in 0..passes {
        clients.push(ShownClient::new(alloc))?;
    }
    for call in calls {
        if let Some(client) = clients.get_mut(call.client.0 as usize) {
            client.calls.push(call_text(alloc, &call.command)?)?;
        }
    }
    Ok(clients)
}
