//! Which nodes fields have held, and `new` words of SCX-records.
use arena::{Layout, Mode, NoMemory, NodeWord, Row, ScxWord, Word};
use std::alloc::Global;

/// Which SCX-records have had a node in `new`.
#[derive(Clone, Copy, Debug, PartialEq, Eq)]
pub(crate) enum Users {
    Nobody,
    One(u64),
    Several,
}

/// Of each node, whether any field has held it, and which SCX-records have had it in `new`.
#[derive(Drop)]
pub(crate) struct Uses {
    pub(crate) in_field: Vec<bool>,
    pub(crate) users: Vec<Users>,
}

impl Uses {
    ghost use Rattle.arena.specs.History.{Start};

    /// What the opening words hold. The only error is want of memory.
    pub(crate) fn new(alloc: Global, layout: &Layout) -> Result<Uses, NoMemory>
        ensures { IfOk result (UsesStand layout.now (Start layout.now.mode)) }
    {
        let size = layout.all_nodes() as usize;
        let mut in_field = vec![in alloc; false; size]?;
        for node in 0..held_at_start(layout.mode) {
            in_field[node] = true;
        }
        let mut users = vec![in alloc; Users::Nobody; size]?;
        users[0] = Users::Several;
        Ok(Uses { in_field, users })
    }

    /// Whether a field has held a node.
    pub(crate) fn was_in_field(&self, node: u64) -> bool
        requires { node < length self.now.in_field.items }
        ensures { result ≡ slice_index_or self.now.in_field.items node false }
    {
        self.in_field[node as usize]
    }

    /// Whether `new` of another SCX-record has held a node.
    pub(crate) fn was_in_other_new(&self, scx: u64, node: u64) -> bool
        requires { node < length self.now.users.items }
        ensures { result ≡ has_other (users_of self.now.users.items node) scx }
    {
        match self.users[node as usize] {
            Users::Nobody => false,
            Users::One(user) => user != scx,
            Users::Several => true,
        }
    }

    /// Takes in a row.
    pub(crate) fn note(&mut self, row: &Row)
        ensures fields { self.new.in_field.items ≡ fields_after row.now.word row.now.after self.old.in_field.items }
        ensures users { self.new.users.items ≡ users_after row.now.word row.now.after self.old.users.items }
    {
        match row.word {
            Word::Node(_, NodeWord::Child(_)) => self.note_field(row.after),
            Word::Scx(scx, ScxWord::New) => self.note_new(scx.0, row.after),
            _ => {}
        }
    }

    fn note_field(&mut self, node: u64)
        ensures fields { self.new.in_field.items ≡ slice_set self.old.in_field.items node true }
        ensures users { self.new.users.items ≡ self.old.users.items }
    {
        if node < self.in_field.len() as u64 {
            self.in_field[node as usize] = true;
        }
    }

    fn note_new(&mut self, scx: u64, node: u64)
        ensures fields { self.new.in_field.items ≡ self.old.in_field.items }
        ensures users { self.new.users.items ≡
            slice_set self.old.users.items node (with_user (users_of self.old.users.items node) scx) }
    {
        if node < self.users.len() as u64 {
            self.users[node as usize] = joined(self.users[node as usize], scx);
        }
    }
}

ghost use Rattle.std.specs.Prelude.{◌≡◌, ◌<◌, true, false, IfOk, length, slice_index_or, slice_set};
ghost use Rattle.judge.specs.Uses.{UsesStand, has_other, users_of, with_user, fields_after, users_after, held_nodes};

/// How many nodes fields hold at the start: the first ones.
fn held_at_start(mode: Mode) -> usize
    ensures { result ≡ held_nodes mode }
{
    if mode.is_map() { 3 } else { 1 }
}

/// The users with one more.
fn joined(users: Users, scx: u64) -> Users
    ensures { result ≡ with_user users scx }
{
    match users {
        Users::Nobody => Users::One(scx),
        Users::One(user) if user == scx => Users::One(user),
        _ => Users::Several,
    }
}
