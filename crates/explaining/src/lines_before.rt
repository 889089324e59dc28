//! The lines before the one that is refused.
use crate::begins::field_of;
use crate::breach::Objection;
use crate::client_so_far::ClientSoFar;
use arena::{Kind, NodeNo, NodeWord, PassNo, Plan, Row, ScxNo, ScxWord, Word};
use judge::{Judge, is_own_node, is_own_scx};
use record::{Entry, Line, Record, TurnRow};
use script::Command;
use std::alloc::{AllocError, Global};

/// These lines, which are lawful, and what they leave.
#[derive(Drop)]
pub(crate) struct LinesBefore<'a> {
    pub(crate) alloc: Global,
    pub(crate) record: &'a Record,
    pub(crate) judge: Judge,
    /// The steps.
    pub(crate) rows: Vec<Row>,
    pub(crate) clients: Vec<ClientSoFar>,
    /// How many turns there were, and who made the last of them.
    pub(crate) turn: u64,
    pub(crate) last: Option<PassNo>,
    /// Whether the last line is a turn without a step.
    pub(crate) is_idle: bool,
    /// The entries, and the one that has to follow the last line.
    pub(crate) entries: Vec<Entry>,
    pub(crate) owed: Option<Entry>,
}

impl<'a> LinesBefore<'a> {
    /// The first lines of a record.
    pub(crate) fn of(
        alloc: Global,
        record: &'a Record,
        many: usize,
    ) -> Result<LinesBefore<'a>, Objection> {
        let layout = &record.script.layout;
        let mut before = LinesBefore {
            alloc,
            record,
            judge: Judge::new(alloc, layout)?,
            rows: Vec::new(alloc),
            clients: vec![in alloc; ClientSoFar::after(0); layout.passes as usize]?,
            turn: 0,
            last: None,
            is_idle: false,
            entries: Vec::new(alloc),
            owed: None,
        };
        for line in record.lines.iter().take(many) {
            before.add(line)?;
        }
        Ok(before)
    }

    fn add(&mut self, line: &Line) -> Result<(), Objection> {
        self.is_idle = false;
        match line {
            Line::Step(TurnRow::Step { number: _, row }) => self.add_step(row)?,
            Line::Step(TurnRow::Idle { number: _, client }) => {
                self.add_turn(*client, 0);
                self.is_idle = true;
            }
            Line::Log(entry) => {
                self.owed = None;
                self.add_entry(*entry)?;
            }
            Line::Reply(reply) => {
                if let Some(client) = self.clients.get_mut(reply.client.0 as usize) {
                    *client = ClientSoFar::after(client.answered.saturating_add(1));
                }
            }
        }
        Ok(())
    }

    fn add_row(&mut self, row: Row) -> Result<(), AllocError> {
        self.rows.push(row)?;
        Ok(())
    }

    fn add_entry(&mut self, entry: Entry) -> Result<(), AllocError> {
        self.entries.push(entry)?;
        Ok(())
    }

    /// A turn of a client, with so many steps.
    fn add_turn(&mut self, pass: PassNo, steps: u64) {
        self.turn = self.turn.saturating_add(1);
        self.last = Some(pass);
        let taken = self.taken(pass);
        if let Some(client) = self.clients.get_mut(pass.0 as usize) {
            if client.begun.is_none() {
                client.begun = Some(self.turn);
                client.first = self.rows.len();
                (client.nodes, client.scx) = taken;
            }
            client.steps = client.steps.saturating_add(steps);
        }
    }

    fn add_step(&mut self, row: &Row) -> Result<(), Objection> {
        self.add_turn(row.pass, 1);
        self.add_row(*row)?;
        self.owed = self.owed_by(row);
        if let Some(entry) = self.owed
            && let Some(client) = self.clients.get_mut(entry.client.0 as usize)
        {
            client.won = Some(self.turn);
        }
        if self.judge.is_lawful(row) {
            self.judge.make(row)?;
        }
        Ok(())
    }

    /// The entry that the step of the newest turn asks for, if it is an update that wins.
    fn owed_by(&self, row: &Row) -> Option<Entry> {
        if row.kind != Kind::Update || row.before == row.after {
            return None;
        }
        let Word::Node(node, _) = row.word else {
            return None;
        };
        let scx = ScxNo(self.node_word(node.0, NodeWord::Info));
        Some(Entry {
            place: (self.entries.len() as u64).saturating_add(1),
            step: self.turn,
            scx,
            client: self.judge.layout().owner(scx)?,
            call: self.scx_word(scx.0, ScxWord::Call),
        })
    }

    /// Whether a node is of a client's share.
    pub(crate) fn owns_node(&self, pass: PassNo, node: u64) -> bool {
        let layout = self.judge.layout();
        pass.0 < layout.passes && is_own_node(layout, pass, node)
    }

    /// Whether an SCX-record is of a client's share.
    pub(crate) fn owns_scx(&self, pass: PassNo, scx: u64) -> bool {
        let layout = self.judge.layout();
        pass.0 < layout.passes && is_own_scx(layout, pass, scx)
    }

    /// How many nodes and SCX-records of its share a client has taken.
    pub(crate) fn taken(&self, pass: PassNo) -> (u32, u32) {
        if pass.0 < self.judge.layout().passes {
            (self.judge.nodes_taken(pass), self.judge.scx_taken(pass))
        } else {
            (0, 0)
        }
    }

    /// What is known of a client.
    pub(crate) fn client(&self, pass: PassNo) -> ClientSoFar {
        match self.clients.get(pass.0 as usize) {
            Some(client) => *client,
            None => ClientSoFar::after(0),
        }
    }

    /// The command of a client's next call, if it has one left.
    pub(crate) fn next(&self, pass: PassNo) -> Option<Command> {
        self.command_of(pass, self.client(pass).answered)
    }

    /// The command of a client's call of this number.
    pub(crate) fn command_of(&self, client: PassNo, number: u64) -> Option<Command> {
        let calls = self.record.script.calls.as_slice();
        let mut own = calls.iter().filter(|call| call.client == client);
        Some(own.nth(number as usize)?.command)
    }

    /// What a word of a node holds; 0 if there is no such node.
    pub(crate) fn node_word(&self, node: u64, part: NodeWord) -> u64 {
        self.judge.get(Word::Node(NodeNo(node), part))
    }

    /// What a word of an SCX-record holds.
    pub(crate) fn scx_word(&self, scx: u64, part: ScxWord) -> u64 {
        self.judge.get(Word::Scx(ScxNo(scx), part))
    }

    pub(crate) fn plan(&self, scx: u64) -> Plan {
        Plan(self.scx_word(scx, ScxWord::Plan))
    }

    /// The node that an SCX-record covers at a place.
    pub(crate) fn member(&self, scx: u64, place: u8) -> u64 {
        self.scx_word(scx, ScxWord::Member(place))
    }

    /// At which place an SCX-record covers a node, if it does.
    pub(crate) fn place_of(&self, scx: u64, node: u64) -> Option<u8> {
        (0..self.plan(scx).count()).find(|place| self.member(scx, *place) == node)
    }

    /// Whether the info of the node at a place is as the SCX-record's owner has seen it.
    pub(crate) fn is_as_seen(&self, scx: u64, place: u8) -> bool {
        self.node_word(self.member(scx, place), NodeWord::Info)
            == self.scx_word(scx, ScxWord::Seen(place))
    }

    /// Whether a node has been frozen for an SCX-record.
    pub(crate) fn was_frozen(&self, node: u64, scx: u64) -> bool {
        let info = Word::Node(NodeNo(node), NodeWord::Info);
        self.rows.iter().any(|row| row.kind == Kind::Freeze && row.word == info && row.after == scx)
    }

    /// The last step of this kind that the call of a client has made.
    pub(crate) fn last_of(&self, pass: PassNo, kind: Kind) -> Option<Row> {
        let own = self.rows.iter().skip(self.client(pass).first);
        own.filter(|row| row.pass == pass && row.kind == kind)
            .last()
            .copied()
    }

    /// The first place at which an SCX-record covers a node that was never frozen for it, up to
    /// this one.
    pub(crate) fn first_unfrozen(&self, scx: u64, places: u8) -> Option<u8> {
        (0..places).find(|place| !self.was_frozen(self.member(scx, *place), scx))
    }

    /// The SCX-record for which a client probably exchanges a word, of those that could: the one that
    /// it has looked at last, or else the first.
    pub(crate) fn probable_scx(&self, pass: PassNo, word: Word) -> Option<u64> {
        let looked_at = self.rows.iter().rev().find_map(|row| match row.word {
            Word::Scx(scx, _) if row.pass == pass && self.may_exchange(scx.0, word) => Some(scx.0),
            _ => None,
        });
        let all = u64::from(self.judge.layout().all_scx());
        looked_at.or((0..all).find(|scx| self.may_exchange(*scx, word)))
    }

    /// Whether an SCX-record has this field, or covers the node of this info.
    fn may_exchange(&self, scx: u64, word: Word) -> bool {
        match word {
            Word::Node(node, NodeWord::Info) => self.place_of(scx, node.0).is_some(),
            _ => field_of(self, scx) == word,
        }
    }

    /// How many steps there were up to the last one after which an SCX-record was in progress.
    pub(crate) fn in_progress_until(&self, scx: ScxNo) -> usize {
        if self.judge.is_in_progress(scx) {
            return self.rows.len();
        }
        let state = Word::Scx(scx, ScxWord::State);
        let ends = |row: &Row| row.word == state && row.before == 0 && row.after != 0;
        self.rows.iter().position(ends).unwrap_or(0)
    }

    /// Whether an update of an SCX-record has won.
    pub(crate) fn has_won(&self, scx: u64) -> bool {
        self.entries.iter().any(|entry| entry.scx.0 == scx)
    }
}
