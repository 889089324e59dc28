//! The cells of a script at some turn.
use crate::canvas::{Canvas, Spot, width_of};
use crate::flow::Flow;
use crate::node_table::NodeTable;
use crate::parts::TextPart::{Number, Short, Text};
use crate::parts::joined;
use arena::{NodeNo, NodeWord, Side, Word};
use script::{Call, Command};
use std::alloc::AllocError;
use std::num::nearest_usize_to_f64;

/// How many nodes a script may name, counted from node 0.
const NODES: usize = 9;

/// How wide a field of a cell is, and how high.
const WIDE: f64 = 62.0;

const HIGH: f64 = 18.0;

/// From where a cell begins to where the next one does.
const STEP: f64 = 2.0 * WIDE + 12.0;

/// Which nodes the calls of a script name.
#[derive(Clone, Copy)]
pub(crate) struct CellRow {
    named: [bool; NODES],
}

/// The cells that some calls name.
pub(crate) fn cells_of(calls: &[Call]) -> CellRow {
    let mut row = CellRow::EMPTY;
    for call in calls {
        match &call.command {
            Command::Llx { cell } => row.name(cell.node()),
            Command::Set { field, value: _ } => row.name(field.0.node()),
            Command::Vlx { cells } => row.name_all(cells.as_slice()),
            Command::Scx(update) => row.name_all(update.cells()),
            Command::Map(_) => {}
        }
    }
    row
}

impl CellRow {
    /// No node is named.
    const EMPTY: CellRow = CellRow {
        named: [false; NODES],
    };

    fn name(&mut self, node: NodeNo) {
        if let Some(named) = self.named.get_mut(node.0 as usize) {
            *named = true;
        }
    }

    fn name_all(&mut self, cells: &[script::Cell]) {
        for cell in cells {
            self.name(cell.node());
        }
    }

    /// Draws the cells under a caption, with the word that has changed tinted.
    pub(crate) fn draw(
        &self,
        canvas: &mut Canvas,
        flow: &mut Flow,
        table: &NodeTable,
        changed: Option<Word>,
        caption: &str,
    ) -> Result<(), AllocError> {
        let count = self.named.iter().filter(|named| **named).count();
        let wide = STEP * nearest_usize_to_f64(count) + 20.0;
        let corner = flow.place(Spot::at(wide.max(width_of(caption) + 30.0), 70.0));
        canvas.words(corner, "quiet", caption);
        let mut at = corner.moved(0.0, 20.0);
        for (number, named) in self.named.iter().enumerate() {
            if *named {
                draw_cell(canvas, table, number as u64, changed, at)?;
                at = at.moved(STEP, 0.0);
            }
        }
        Ok(())
    }
}

/// Draws a cell: its name, and its two fields side by side.
fn draw_cell(
    canvas: &mut Canvas,
    table: &NodeTable,
    node: u64,
    changed: Option<Word>,
    corner: Spot,
) -> Result<(), AllocError> {
    let shown = table.get(node);
    name_cell(canvas, node, shown.is_marked, corner)?;
    let beside = corner.moved(WIDE, 0.0);
    for (side, held, at) in [
        (Side::Left, shown.left, corner),
        (Side::Right, shown.right, beside),
    ] {
        let word = Word::Node(NodeNo(node), NodeWord::Child(side));
        let class = class_of(changed == Some(word), shown.is_marked);
        draw_field(canvas, table, held, class, at);
    }
    Ok(())
}

/// The class of a field, which has just changed or not, of a cell that is finalized or not.
fn class_of(is_changed: bool, is_finalized: bool) -> &'static str {
    match (is_changed, is_finalized) {
        (true, _) => "new",
        (false, true) => "final",
        (false, false) => "node",
    }
}

/// Writes the name of a cell above it, and whether it is finalized.
fn name_cell(
    canvas: &mut Canvas,
    node: u64,
    is_finalized: bool,
    corner: Spot,
) -> Result<(), AllocError> {
    let finalized = if is_finalized { " final" } else { "" };
    let name = joined(canvas.alloc, &[Text("n"), Number(node), Text(finalized)])?;
    canvas.words(corner.moved(0.0, -3.0), "small quiet", name.as_str());
    Ok(())
}

/// Draws a field: the node that it holds, and what that node holds.
fn draw_field(canvas: &mut Canvas, table: &NodeTable, held: u64, class: &str, corner: Spot) {
    let value = table.get(held).first().low;
    let told = [Text("node "), Number(held), Text(", value "), Number(value)];
    canvas.rectangle(corner, Spot { x: WIDE, y: HIGH }, &[Text(class)], &told);
    let middle = corner.moved(WIDE / 2.0, 12.0);
    if held == 0 {
        canvas.middle_words(middle, &[Text("small")], &[Number(0)]);
        return;
    }
    let parts = [Text("n"), Number(held), Text(": "), Short(value.into())];
    canvas.middle_words(middle, &[Text("small")], &parts);
}
