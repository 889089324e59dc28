//! What there is after each update.
use crate::canvas::{Canvas, Spot};
use crate::cells::{CellRow, cells_of};
use crate::columns::LEFT;
use crate::flow::Flow;
use crate::node_table::NodeTable;
use crate::parts::TextPart::{Number, Text};
use crate::parts::joined;
use crate::shown_run::{ShownRun, ShownTurn};
use crate::trees::draw_tree;
use crate::window::Window;
use arena::{Mode, Word};
use record::{Entry, Record};
use std::alloc::{AllocError, Global};

/// How many updates are drawn at most.
const MOST: u64 = 12;

/// How wide the rows of drawings are, if the picture is not wider.
const WIDTH: f64 = 1000.0;

/// The drawings so far.
#[derive(Drop)]
struct Updates {
    flow: Flow,
    table: NodeTable,
    cells: CellRow,
    /// The nodes of the newest tree.
    earlier: Vec<u64>,
    count: u64,
}

/// Draws the tree, or the cells that the script names, at the window's begin and after each of its
/// first updates.
pub(crate) fn draw_updates(
    canvas: &mut Canvas,
    run: &ShownRun,
    record: &Record,
    window: Window,
) -> Result<(), AllocError> {
    let mut updates = Updates::new(canvas, run, record)?;
    if window.from <= 1 {
        updates.draw(canvas, None, "at the start")?;
    }
    for (place, turn) in run.turns.iter().enumerate() {
        let number = (place as u64).saturating_add(1);
        updates.turn(canvas, turn, number, window)?;
    }
    Ok(())
}

impl Updates {
    /// Nothing is drawn, and nothing is stored yet.
    fn new(canvas: &Canvas, run: &ShownRun, record: &Record) -> Result<Updates, AllocError> {
        let corner = Spot::at(LEFT, canvas.bottom + 30.0);
        Ok(Updates {
            flow: Flow::new(corner, canvas.right.max(WIDTH)),
            table: NodeTable::new(canvas.alloc, run.layout)?,
            cells: cells_of(record.script.calls.as_slice()),
            earlier: Vec::new(canvas.alloc),
            count: 0,
        })
    }

    /// Continues with a turn.
    fn turn(
        &mut self,
        canvas: &mut Canvas,
        turn: &ShownTurn,
        number: u64,
        window: Window,
    ) -> Result<(), AllocError> {
        if let Some(row) = turn.step {
            self.table.note(row.word, row.after)?;
        }
        if number.saturating_add(1) == window.from {
            self.draw(canvas, None, "before these turns")?;
        }
        if let Some(entry) = turn.entry
            && window.has(number)
            && self.count < MOST
        {
            self.count = self.count.saturating_add(1);
            let caption = caption_of(canvas.alloc, &entry, number)?;
            let changed = turn.step.map(|row| row.word);
            self.draw(canvas, changed, caption.as_str())?;
        }
        Ok(())
    }

    /// Draws what there is now, after an update of this word.
    fn draw(
        &mut self,
        canvas: &mut Canvas,
        changed: Option<Word>,
        caption: &str,
    ) -> Result<(), AllocError> {
        match self.table.mode() {
            Mode::Tree | Mode::Trie => {
                let earlier = self.earlier.as_slice();
                let flow = &mut self.flow;
                self.earlier = draw_tree(canvas, flow, &self.table, earlier, caption)?;
                Ok(())
            }
            Mode::Records => {
                self.cells
                    .draw(canvas, &mut self.flow, &self.table, changed, caption)
            }
        }
    }
}

/// What is said of the drawing after an update, in the turn of this number.
fn caption_of(alloc: Global, entry: &Entry, number: u64) -> Result<String, AllocError> {
    let (place, turn) = (Number(entry.place), Number(number));
    joined(
        alloc,
        &[Text("after update "), place, Text(", turn "), turn],
    )
}
