//! A lane for each client: its calls as boxes, and its steps in them.
use crate::canvas::{Canvas, Spot, hollow_class, width_of};
use crate::columns::{Columns, Group, LEFT, colour_of};
use crate::labels::{LabelRows, shortened};
use crate::parts::TextPart::{Number, Text};
use crate::parts::{TextPart, joined};
use crate::shown_call::ShownCall;
use crate::shown_run::{ShownRun, ShownTurn, has_sign};
use arena::{Kind, PassNo, Word};
use report::word_text;
use script::kind_name;
use std::alloc::{AllocError, Global};
use std::num::nearest_usize_to_f64;

/// How high a row of labels is, the box of a call, and what is below it.
const ROW: f64 = 13.0;

const BOX: f64 = 22.0;

const BELOW: f64 = 26.0;

/// A client's lane: where its boxes begin and end.
#[derive(Clone, Copy)]
pub(crate) struct Lane {
    client: PassNo,
    top: f64,
    pub(crate) bottom: f64,
}

/// The label of a call.
#[derive(Clone, Copy)]
struct Label {
    call: usize,
    row: usize,
}

/// The lanes of the clients that have a call or make a turn.
#[derive(Drop)]
pub(crate) struct Lanes {
    lanes: Vec<Lane>,
}

impl Lanes {
    /// Draws the lanes from there on downwards.
    pub(crate) fn draw(
        canvas: &mut Canvas,
        run: &ShownRun,
        columns: &Columns,
    ) -> Result<Lanes, AllocError> {
        let mut lanes = Lanes {
            lanes: Vec::new(canvas.alloc),
        };
        for (number, client) in run.clients.iter().enumerate() {
            let client_number = PassNo(u32::try_from(number).unwrap_or(u32::MAX));
            let is_there = |turn: &ShownTurn| turn.client == client_number;
            if !client.calls.is_empty() || run.turns.iter().any(is_there) {
                lanes.add(canvas, run, columns, client_number)?;
            }
        }
        for group in columns.groups.iter() {
            if let Some(lane) = lanes.of(group.turn.client) {
                draw_group(canvas, group, lane)?;
            }
        }
        Ok(lanes)
    }

    /// The lane of a client.
    pub(crate) fn of(&self, client: PassNo) -> Option<Lane> {
        self.lanes
            .iter()
            .find(|lane| lane.client == client)
            .copied()
    }

    /// Draws a client's lane below the others, with its calls.
    fn add(
        &mut self,
        canvas: &mut Canvas,
        run: &ShownRun,
        columns: &Columns,
        client: PassNo,
    ) -> Result<(), AllocError> {
        let (labels, rows) = labels_of(canvas.alloc, run, columns, client)?;
        let above = canvas.bottom;
        let top = above + 8.0 + ROW * nearest_usize_to_f64(rows);
        let bottom = top + BOX;
        let lane = Lane {
            client,
            top,
            bottom,
        };
        canvas.band(above + 2.0, bottom + BELOW - above - 2.0);
        name_lane(canvas, lane)?;
        for label in labels.iter() {
            if let Some(call) = run.calls.get(label.call) {
                draw_call(canvas, columns, lane, call, label.row)?;
            }
        }
        self.lanes.push(lane)?;
        Ok(())
    }
}

/// The labels of a client's calls, and how many rows they need.
fn labels_of(
    alloc: Global,
    run: &ShownRun,
    columns: &Columns,
    client: PassNo,
) -> Result<(Vec<Label>, usize), AllocError> {
    let (mut labels, mut rows) = (Vec::new(alloc), LabelRows::new(alloc));
    for (place, call) in run.calls.iter().enumerate().rev() {
        if call.client == client
            && let Some((left, _)) = columns.reach(call.begin, call.end)
        {
            let row = row_of(alloc, &mut rows, call, left + 3.0)?;
            labels.push(Label { call: place, row })?;
        }
    }
    Ok((labels, rows.count()))
}

/// The row of a call's label that begins there.
fn row_of(
    alloc: Global,
    rows: &mut LabelRows,
    call: &ShownCall,
    left: f64,
) -> Result<usize, AllocError> {
    let text = shortened(alloc, call.text.as_str())?;
    rows.place(left, left + width_of(text.as_str()))
}

/// Writes whose lane it is.
fn name_lane(canvas: &mut Canvas, lane: Lane) -> Result<(), AllocError> {
    let name = [Text("client "), Number(u64::from(lane.client.0))];
    let (corner, size) = (Spot::at(6.0, lane.top), Spot::at(8.0, BOX));
    canvas.rectangle(corner, size, &[Text(colour_of(lane.client))], &name);
    let shown = joined(canvas.alloc, &name)?;
    canvas.words(Spot::at(18.0, lane.top + 15.0), "", shown.as_str());
    Ok(())
}

/// Draws the box of a call, with its label in this row above it.
fn draw_call(
    canvas: &mut Canvas,
    columns: &Columns,
    lane: Lane,
    call: &ShownCall,
    row: usize,
) -> Result<(), AllocError> {
    let Some((left, right)) = columns.reach(call.begin, call.end) else {
        return Ok(());
    };
    let colour = colour_of(call.client);
    draw_box(canvas, lane, call, left, right);
    let label = Spot::at(left, lane.top - 4.0 - ROW * nearest_usize_to_f64(row));
    if row > 0 {
        let (high, low) = (label.moved(1.0, -8.0), Spot::at(left + 1.0, lane.top));
        canvas.line(high, low, &[Text(colour), Text(" thin")]);
    }
    let text = shortened(canvas.alloc, call.text.as_str())?;
    canvas.words(label.moved(3.0, 0.0), colour, text.as_str());
    Ok(())
}

fn draw_box(canvas: &mut Canvas, lane: Lane, call: &ShownCall, left: f64, right: f64) {
    let colour = Text(colour_of(call.client));
    let open = Text(if call.is_answered { "" } else { " open" });
    let (begin, end) = (Number(call.begin), Number(call.end));
    let text = Text(call.text.as_str());
    let told = [text, Text(", turns "), begin, Text(" to "), end];
    let (corner, size) = (Spot::at(left, lane.top), Spot::at(right - left, BOX));
    canvas.rectangle(corner, size, &[colour, Text(" call"), open], &told);
}

/// Draws the turns of a group.
fn draw_group(canvas: &mut Canvas, group: &Group, lane: Lane) -> Result<(), AllocError> {
    let at = Spot::at(group.middle(), lane.top + BOX / 2.0);
    match group.turn.step {
        None => canvas.sign("idle", at, &[Text("quiet")], &[Text("idle")]),
        Some(row) if has_sign(row.kind) => draw_sign(canvas, group, &row, at)?,
        Some(row) if group.count > 1 => draw_bar(canvas, group, &row, at),
        Some(row) if row.kind == Kind::Fill => canvas.mark("fill", at, "fill"),
        Some(_) => canvas.mark("load", at, "tick"),
    }
    Ok(())
}

/// Draws loads or fills as one bar, with their number below it.
fn draw_bar(canvas: &mut Canvas, group: &Group, row: &arena::Row, at: Spot) {
    let (first, count) = (Number(group.first), Number(group.count));
    let (name, high) = if row.kind == Kind::Fill {
        (" fills", 8.0)
    } else {
        (" loads", 4.0)
    };
    let told = [count, Text(name), Text(" from turn "), first, Text(" on")];
    let corner = Spot::at(group.left() + 1.0, at.y - high / 2.0);
    let size = Spot::at(group.width() - 2.0, high);
    canvas.rectangle(corner, size, &[Text("bar")], &told);
    draw_below(canvas, at, &[count]);
}

/// Draws a step of an SCX in the colour of the client whose SCX-record it is.
fn draw_sign(
    canvas: &mut Canvas,
    group: &Group,
    row: &arena::Row,
    at: Spot,
) -> Result<(), AllocError> {
    let owner = group.turn.owner.unwrap_or(row.pass);
    if owner != row.pass {
        draw_help(canvas, group, owner, at);
    }
    let word = word_text(canvas.alloc, row.word)?;
    let name = kind_name(row.kind);
    draw_step(canvas, group, row, name, word.as_str(), at);
    if let Word::Node(node, _) = row.word
        && (row.kind == Kind::Freeze || row.kind == Kind::Mark)
    {
        draw_below(canvas, at, &[Text("n"), Number(node.0)]);
    }
    Ok(())
}

/// Writes what is to be known of a sign or a bar below it.
fn draw_below(canvas: &mut Canvas, at: Spot, words: &[TextPart]) {
    canvas.middle_words(at.moved(0.0, 20.0), &[Text("small quiet")], words);
}

/// Draws the sign of a step of this kind and word.
fn draw_step<'a>(
    canvas: &mut Canvas,
    group: &Group,
    row: &arena::Row,
    kind: &'a str,
    word: &'a str,
    at: Spot,
) {
    let owner = group.turn.owner.unwrap_or(row.pass);
    let hollow = Text(hollow_class(row.before == row.after));
    let told = [
        Text("turn "),
        Number(group.first),
        Text(": "),
        Text(kind),
        Text(" "),
        Text(word),
        Text(", "),
        Number(row.before),
        Text(" to "),
        Number(row.after),
    ];
    canvas.sign(kind, at, &[Text(colour_of(owner)), hollow], &told);
}

/// Tints the place of a step that helps this client, and writes its number below.
fn draw_help(canvas: &mut Canvas, group: &Group, owner: PassNo, at: Spot) {
    let colour = colour_of(owner);
    let number = u64::from(owner.0);
    tint(canvas, group, colour, number, at.y - BOX / 2.0);
    let (class, words) = ([Text("small "), Text(colour)], [Text("c"), Number(number)]);
    canvas.middle_words(at.moved(0.0, 29.0), &class, &words);
}

/// Tints the place of a step that helps the client of this number, from there downwards.
fn tint(canvas: &mut Canvas, group: &Group, colour: &str, number: u64, top: f64) {
    let corner = Spot::at(group.left(), top);
    let size = Spot::at(group.width(), BOX);
    let told = [Text("helps client "), Number(number)];
    canvas.rectangle(corner, size, &[Text(colour), Text(" help")], &told);
}

/// Draws the numbers of some turns above all lanes.
pub(crate) fn draw_numbers(canvas: &mut Canvas, columns: &Columns) {
    let (y, mut free) = (canvas.bottom + 10.0, LEFT);
    canvas.words(Spot { x: 18.0, y }, "small quiet", "turn");
    for group in columns.groups.iter() {
        let at = Spot::at(group.middle(), y);
        if group.first != 1 && group.first % 10 != 0 {
            continue;
        }
        canvas.line(at.moved(0.0, 2.0), at.moved(0.0, 5.0), &[Text("tick")]);
        if at.x >= free {
            canvas.middle_words(at, &[Text("small quiet")], &[Number(group.first)]);
            free = at.x + 36.0;
        }
    }
    canvas.reach(0.0, y + 4.0);
}
