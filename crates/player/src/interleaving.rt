//! An interleaving of a script's calls.
ghost use Rattle.std.specs.Prelude.{◌≡◌, ◌≢◌, ℕ, ◌≤◌, [], Some, vec_len, slice_get, IfOk};
ghost use Rattle.player.specs.declared.client.Client.{Client};
ghost use Rattle.player.specs.ClientView.{client_view, Rests};

use crate::client::{Client, NextAction};
use crate::lines::{Lines, begin};
use arena::{Kind, NoMemory, NodeNo, NodeWord, PassNo, PlainWords, ScxNo, ScxWord, Step, Word};
use linearization::{Change, Places};
use record::{Answer, Entry, Finished, Line, TurnRow};
use script::Script;
use std::alloc::Global;

/// A script, and what the turns of its clients have left so far, except for their lines.
#[derive(Drop)]
pub(crate) struct Interleaving {
    script: Script,
    words: PlainWords,
    clients: Vec<Client>,
    /// The turn of each client's last update that won.
    wins: Vec<Option<u64>>,
    /// The changes of the map so far.
    places: Places,
    /// How many turns were made.
    turns: u64,
    /// How many entries the log has.
    entries: u64,
    ghost all_clients: { vec_len clients ≡ script.layout.passes },
    ghost all_wins: { vec_len wins ≡ script.layout.passes },
    ghost same_layout: { words.layout ≡ script.layout },
}

impl Interleaving {
    ghost use Rattle.std.specs.Prelude.{◌≡◌, ℕ, suc, ◌+◌, ◌-◌, ◌<◌, ◌≤◌, ◌^◌, List, ◌∷◌, [], Some, is_some, IfOk, IfSome, OnErr, OnOk, slice_get};
    ghost use Rattle.record.specs.declared.record.Line.{Line};
    ghost use Rattle.record.specs.Commands.{next_command};
    ghost use Rattle.record.specs.Turns.{entry_owed};
    ghost use Rattle.ordered_map.specs.OrderedMap.{MapEdit, value_left};
    ghost use Rattle.linearization.specs.Places.{changes, room_for_changes, Knows};
    ghost use Rattle.ordered_map.specs.OrderedMap.{edit_key};
    ghost use Rattle.player.specs.Player.{script_view};
    ghost use Rattle.player.specs.BetweenTurns.{IsBetweenTurns, HasMadeTurn, IsStepAsked, IsMade, IsEntryDue, HasLogged, IsReplied, HasSameClients, HasOtherClients, owners_edit};

    /// An interleaving of a copy of the script, with no turn made. The only error is want of
    /// memory.
    pub(crate) fn new(alloc: Global, script: &Script) -> Result<Interleaving, NoMemory>
        ensures script { IfOk result (λ t. script_view t.script ≡ script_view script.now) }
        ensures no_turns { IfOk result (λ t. IsBetweenTurns t []) }
    {
        let script = script.copy(alloc)?;
        let words = PlainWords::new(alloc, &script.layout)?;
        let clients = clients(alloc, &script)?;
        let wins = vec![in alloc; None; script.layout.passes as usize]?;
        Ok(Interleaving {
            places: Places::new(alloc, &script.calls)?,
            script,
            words,
            clients,
            wins,
            turns: 0,
            entries: 0,
        })
    }

    /// One turn of a client: its next atomic step, or a row of kind idle where it has no call left
    /// or its call answers without a step. Its lines replace what is in `more`. A
    /// refusal leaves all as it was, and the same turn can be asked again.
    pub(crate) fn step(&mut self, client: PassNo, more: &mut Lines) -> Result<(), NoMemory>
        requires client { client.0 < self.old.script.layout.passes }
        requires turns { self.old.turns < 2 ^ 64 - 1 }
        requires played { (lines : List Line) × IsBetweenTurns self.old lines }
        ensures script { script_view self.new.script ≡ script_view self.old.script }
        ensures turn { OnOk result ((lines : List Line) → IsBetweenTurns self.old lines →
            HasMadeTurn self.old self.new lines client.0 more.new.items) }
        ensures refused { OnErr result ((lines : List Line) → IsBetweenTurns self.old lines →
            IsBetweenTurns self.new lines) }
    {
        self.places.reserve()?;
        let number = self.turns + 1;
        match self.clients[client.0 as usize].next_action(&self.script.calls, number) {
            NextAction::Asks(step) => {
                self.make(client, number, step, more);
                Ok(())
            }
            NextAction::Answers(answer) => {
                begin(more, self.idle(client, number), None);
                more.push(Line::Reply(self.reply(client, number, answer)));
                Ok(())
            }
            NextAction::Finished => {
                begin(more, self.idle(client, number), None);
                Ok(())
            }
        }
    }

    /// Makes a turn without a step.
    fn idle(&mut self, client: PassNo, number: u64) -> TurnRow
        requires { number ≡ suc self.old.turns }
        ensures same { self.new ≡ record self.old { turns = number } }
        ensures row { result ≡ TurnRow.Idle number client }
    {
        self.turns = number;
        TurnRow::Idle { number, client }
    }

    /// Makes the step that a client has asked for, and puts the lines of its turn.
    fn make(&mut self, client: PassNo, number: u64, step: Step, more: &mut Lines)
        requires places { 1 ≤ room_for_changes self.old.places }
        requires client { client.0 < self.old.script.layout.passes }
        requires next { number ≡ suc self.old.turns }
        requires asked { (lines : List Line) × IsStepAsked self.old lines client.0 number step }
        ensures script { script_view self.new.script ≡ script_view self.old.script }
        ensures turn { (lines : List Line) → IsStepAsked self.old lines client.0 number step →
            HasMadeTurn self.old self.new lines client.0 more.new.items }
    {
        let before = self.words.apply(step);
        let row = arena::Row {
            pass: client,
            call: self.clients[client.0 as usize].number(),
            kind: step.kind,
            word: step.word,
            before,
            after: self.words.get(step.word),
        };
        self.turns = number;
        let entry = self.log(number, &row);
        begin(more, TurnRow::Step { number, row }, entry);
        match self.clients[client.0 as usize].tell(before) {
            Some(answer) => more.push(Line::Reply(self.reply(client, number, answer))),
            None => {}
        }
    }

    /// Writes down what the step of this turn enters into the log.
    fn log(&mut self, number: u64, row: &arena::Row) -> Option<Entry>
        requires due { (lines : List Line) × IsEntryDue self.old lines number row.now }
        requires roomy { 1 ≤ room_for_changes self.old.places }
        ensures same { HasSameClients self.old self.new }
        ensures logged { (lines : List Line) → IsEntryDue self.old lines number row.now →
            HasLogged self.old self.new lines number result }
    {
        let Some(entry) = self.entry(number, row) else {
            return None;
        };
        self.entries = entry.place;
        self.wins[entry.client.0 as usize] = Some(number);
        self.place(&entry);
        Some(entry)
    }

    /// Keeps the change of the map that an entry makes, if it is of an edit: the one that its
    /// client's machine has in hand.
    fn place(&mut self, entry: &Entry)
        requires room { 1 ≤ room_for_changes self.old.places }
        requires client { entry.now.client.0 < self.old.script.layout.passes }
        requires key { IfSome (owners_edit self.old.clients.items entry.now.client.0) (λ e. Knows self.old.places (edit_key e)) }
        ensures same { self.new ≡ record self.old { places = self.new.places } }
        ensures keys { (key : ℕ) → Knows self.old.places key → Knows self.new.places key }
        ensures change { (e : MapEdit) → owners_edit self.old.clients.items entry.now.client.0 ≡ Some e →
            changes self.new.places ≡
            record { turn = entry.now.step; key = edit_key e; value = value_left e } ∷ changes self.old.places }
    {
        if let Some((key, value)) = self.clients[entry.client.0 as usize].change() {
            let turn = entry.step;
            self.places.push(Change { turn, key, value });
        }
    }

    /// The entry of a step, if that is an update that has won: that of the SCX-record that holds
    /// the field's node.
    fn entry(&self, number: u64, row: &arena::Row) -> Option<Entry>
        requires { (lines : List Line) × IsMade self.now lines number row.now }
        ensures owed { (lines : List Line) → IsMade self.now lines number row.now →
            result ≡ entry_owed self.now.script.layout lines }
        ensures owner { IfSome result (λ e. e.client.0 < self.now.script.layout.passes) }
        ensures place { IfSome result (λ e. e.place ≡ suc self.now.entries) }
    {
        if row.kind != Kind::Update || row.before == row.after {
            return None;
        }
        let Word::Node(node, NodeWord::Child(_)) = row.word else {
            return None;
        };
        let scx = ScxNo(self.words.get(Word::Node(node, NodeWord::Info)));
        Some(Entry {
            place: self.entries + 1,
            step: number,
            scx,
            client: self.script.layout.owner(scx)?,
            call: self.words.get(Word::Scx(scx, ScxWord::Call)),
        })
    }

    /// The reply to the call that a client ends in this turn.
    fn reply(&mut self, client: PassNo, number: u64, answer: Answer) -> Finished
        requires client { client.0 < self.old.script.layout.passes }
        requires begun { (c : Client) → slice_get self.old.clients.items client.0 ≡ Some c →
            c.begin ≤ number }
        ensures same { HasOtherClients self.old self.new }
        ensures replied { (c : Client) → slice_get self.old.clients.items client.0 ≡ Some c → c.pass.0 ≡ client.0 →
            IsReplied self.old self.new number answer c result }
    {
        let at = client.0 as usize;
        let won = self.wins[at];
        let moment = self.clients[at].moment(
            &self.script.calls,
            number,
            &answer,
            won,
            &self.places,
        );
        self.clients[at].end(&self.script.calls, number, answer, moment)
    }

    /// How many turns were made.
    pub(crate) fn turns(&self) -> u64
        ensures { result ≡ self.now.turns }
    {
        self.turns
    }

    /// Whether a client has a call left.
    pub(crate) fn has_call(&self, client: PassNo) -> bool
        requires client { client.0 < self.now.script.layout.passes }
        ensures { (lines : List Line) → IsBetweenTurns self.now lines →
            result ≡ is_some (next_command (self.now.script.calls.items) lines client.0) }
    {
        self.clients[client.0 as usize].has_call()
    }

    /// The script.
    pub(crate) fn into_script(self) -> Script
        ensures { result ≡ self.script }
    {
        self.script
    }
}

/// The clients of a script before their first turns.
fn clients(alloc: Global, script: &Script) -> Result<Vec<Client>, NoMemory>
    ensures count { IfOk result (λ c. vec_len c ≡ script.now.layout.passes) }
    ensures each { IfOk result (λ c. (j : ℕ) (d : Client) → slice_get c.items j ≡ Some d →
        (d.pass.0 ≡ j) × Rests (client_view script.now.layout script.now.limits.tries script.now.calls.items [] j) d) }
{
    let mut clients = Vec::new(alloc);
    for pass in 0..script.layout.passes {
        clients.push(Client::new(
            alloc,
            &script.layout,
            script.limits.tries,
            PassNo(pass),
            &script.calls,
        ))?;
    }
    Ok(clients)
}
