//! The entries and the readings of a run in their order, below the lanes.
use crate::canvas::{Canvas, Spot, hollow_class, width_of};
use crate::columns::{Columns, colour_of};
use crate::labels::{LabelRows, shortened};
use crate::lanes::{Lane, Lanes};
use crate::parts::TextPart::{Number, Text};
use crate::parts::joined;
use crate::shown_call::ShownCall;
use crate::shown_run::{ShownMoment, ShownRun};
use std::alloc::{AllocError, Global};
use std::num::nearest_usize_to_f64;

/// How high a row of labels is.
const ROW: f64 = 14.0;

/// Draws the legal order, with a dotted line to each place in it from the turn where it was taken.
pub(crate) fn draw_legal_order(
    canvas: &mut Canvas,
    run: &ShownRun,
    columns: &Columns,
    lanes: &Lanes,
) -> Result<(), AllocError> {
    let top = canvas.bottom + 18.0;
    let mut rows = LabelRows::new(canvas.alloc);
    canvas.words(Spot { x: 6.0, y: top }, "", "legal order");
    for (place, moment) in run.moments.iter().enumerate().rev() {
        let group = columns.group(moment.turn);
        let (Some(call), Some(group)) = (run.calls.get(moment.call), group) else {
            continue;
        };
        let text = text_of(canvas.alloc, place, call)?;
        let x = group.middle();
        let row = rows.place(x - 4.0, x + 6.0 + width_of(text.as_str()))?;
        let y = top + ROW * nearest_usize_to_f64(row);
        draw_moment(canvas, lanes, moment, call, Spot { x, y });
        canvas.words(Spot { x: x + 6.0, y }, "", text.as_str());
    }
    Ok(())
}

/// The place of a call in the order, counted from 1, and the call.
fn text_of(alloc: Global, place: usize, call: &ShownCall) -> Result<String, AllocError> {
    let text = shortened(alloc, call.text.as_str())?;
    let number = (place as u64).saturating_add(1);
    joined(alloc, &[Number(number), Text(" "), Text(text.as_str())])
}

/// Draws the dot of a moment, and the line that leads to it from its call.
fn draw_moment(
    canvas: &mut Canvas,
    lanes: &Lanes,
    moment: &ShownMoment,
    call: &ShownCall,
    at: Spot,
) {
    let colour = colour_of(call.client);
    if let Some(lane) = lanes.of(call.client) {
        draw_lead(canvas, lane, colour, at);
    }
    draw_dot(canvas, moment, colour, at);
}

/// Draws the dotted line from a lane down to a moment.
fn draw_lead(canvas: &mut Canvas, lane: Lane, colour: &str, at: Spot) {
    let (x, y) = (at.x, at.y - 6.0);
    let (high, low) = (Spot { x, y: lane.bottom }, Spot { x, y });
    canvas.line(high, low, &[Text(colour), Text(" dots")]);
}

fn draw_dot(canvas: &mut Canvas, moment: &ShownMoment, colour: &str, at: Spot) {
    let class = [Text(colour), Text(hollow_class(moment.reads))];
    let told = [Text("at turn "), Number(moment.turn)];
    canvas.sign("moment", at.moved(0.0, -3.0), &class, &told);
}
