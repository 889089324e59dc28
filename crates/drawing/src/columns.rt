//! Where each turn is drawn, from left to right.
use crate::canvas::SMALL_LETTER;
use crate::parts::digits_of;
use crate::shown_run::{ShownTurn, has_sign};
use crate::window::Window;
use arena::{Kind, PassNo, Word};
use std::alloc::{AllocError, Global};
use std::num::nearest_usize_to_f64;

/// Where the first turn begins.
pub(crate) const LEFT: f64 = 84.0;

/// With more turns than these, loads and fills that follow each other are one bar.
const MOST_TICKS: u64 = 600;

/// Some turns that are drawn as one: a turn, or loads or fills of a call without another step
/// between them.
#[derive(Clone, Copy)]
pub(crate) struct Group {
    /// The number of its first turn, and how many it has.
    pub(crate) first: u64,
    pub(crate) count: u64,
    pub(crate) turn: ShownTurn,
    left: f64,
    right: f64,
    /// Whether its last turn ends a call.
    is_last: bool,
}

/// The turns of a window.
#[derive(Drop)]
pub(crate) struct Columns {
    pub(crate) window: Window,
    pub(crate) groups: Vec<Group>,
    /// The group of each turn.
    of_turns: Vec<usize>,
    /// Whether loads and fills are gathered.
    gathers: bool,
}

impl Group {
    /// One turn, which has no place yet.
    fn of(number: u64, turn: &ShownTurn) -> Group {
        Group {
            first: number,
            count: 1,
            turn: *turn,
            left: 0.0,
            right: 0.0,
            is_last: turn.is_last,
        }
    }

    pub(crate) fn left(&self) -> f64 {
        self.left
    }

    pub(crate) fn middle(&self) -> f64 {
        (self.left + self.right) / 2.0
    }

    pub(crate) fn width(&self) -> f64 {
        self.right - self.left
    }

    /// Whether it can continue with one more turn of it.
    fn takes(&self, turn: &ShownTurn) -> bool {
        match (self.turn.step, turn.step) {
            (Some(row), Some(next)) => {
                !self.is_last
                    && row.pass == next.pass
                    && !has_sign(row.kind)
                    && !has_sign(next.kind)
                    && (row.kind == Kind::Fill) == (next.kind == Kind::Fill)
            }
            _ => false,
        }
    }
}

impl Columns {
    /// Those of the turns of a window.
    pub(crate) fn of(
        alloc: Global,
        turns: &[ShownTurn],
        window: Window,
    ) -> Result<Columns, AllocError> {
        let last = window.to.min(turns.len() as u64);
        let mut columns = Columns {
            window,
            groups: Vec::new(alloc),
            of_turns: Vec::new(alloc),
            gathers: MOST_TICKS < last.saturating_sub(window.from),
        };
        for (place, turn) in turns.iter().enumerate() {
            let number = (place as u64).saturating_add(1);
            if window.has(number) {
                columns.add(number, turn)?;
            }
        }
        columns.spread();
        Ok(columns)
    }

    fn add(&mut self, number: u64, turn: &ShownTurn) -> Result<(), AllocError> {
        let count = self.groups.len();
        if self.gathers
            && let Some(group) = self.groups.last_mut()
            && group.takes(turn)
        {
            group.count = group.count.saturating_add(1);
            group.is_last = turn.is_last;
            self.of_turns.push(count.saturating_sub(1))?;
            return Ok(());
        }
        self.groups.push(Group::of(number, turn))?;
        self.of_turns.push(count)?;
        Ok(())
    }

    /// Gives each group its place.
    fn spread(&mut self) {
        let mut x = LEFT;
        for group in self.groups.iter_mut() {
            group.left = x;
            x += width_of_group(group);
            group.right = x;
        }
    }

    /// The group of a turn of this number, if it is drawn.
    pub(crate) fn group(&self, turn: u64) -> Option<&Group> {
        let place = turn.checked_sub(self.window.from)? as usize;
        self.groups.get(*self.of_turns.get(place)?)
    }

    /// From where to where a call reaches in the window, if it does.
    pub(crate) fn reach(&self, begin: u64, end: u64) -> Option<(f64, f64)> {
        let (first, last) = self.window.part(begin, end)?;
        Some((self.group(first)?.left, self.group(last)?.right))
    }
}

/// How wide a group is drawn.
fn width_of_group(group: &Group) -> f64 {
    if group.count > 1 {
        return small_width(digits_of(group.count)).max(12.0);
    }
    match group.turn.step {
        None => 10.0,
        Some(row) if has_sign(row.kind) => small_width(letters_of(row.word)).max(17.0),
        Some(row) if row.kind == Kind::Fill => 4.0,
        Some(_) => 3.0,
    }
}

/// How wide this many small letters are, with what is left free beside them.
fn small_width(letters: usize) -> f64 {
    SMALL_LETTER * nearest_usize_to_f64(letters) + 3.0
}

/// How many letters the name of the node has that a word is of; none if it is of an SCX-record.
fn letters_of(word: Word) -> usize {
    match word {
        Word::Node(node, _) => digits_of(node.0).saturating_add(1),
        Word::Scx(_, _) => 0,
    }
}

/// The classes of the clients' colours.
const COLOURS: [&str; 7] = ["c0", "c1", "c2", "c3", "c4", "c5", "c6"];

/// The class of a client's colour.
pub(crate) fn colour_of(client: PassNo) -> &'static str {
    COLOURS[(client.0 % 7) as usize]
}
