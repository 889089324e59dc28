//! The whole picture.
use crate::canvas::Canvas;
use crate::columns::Columns;
use crate::head::draw_head;
use crate::lanes::{Lanes, draw_numbers};
use crate::legal_order::draw_legal_order;
use crate::shown_run::ShownRun;
use crate::updates::draw_updates;
use crate::window::Window;
use arena::NoMemory;
use record::Record;
use std::alloc::Global;

/// The picture of those turns of a run that a window has, as the text of an SVG: a lane for each
/// client with its calls and steps, the legal order below, and what there is after each update.
/// Whether the run is lawful is not asked. The only error is want of memory.
pub fn picture_of(alloc: Global, record: &Record, window: Window) -> Result<String, NoMemory> {
    let window = Window {
        from: window.from.max(1),
        to: window.to,
    };
    let run = ShownRun::of(alloc, record)?;
    let columns = Columns::of(alloc, run.turns.as_slice(), window)?;
    let mut canvas = Canvas::new(alloc);
    draw_head(&mut canvas, &run, window)?;
    draw_numbers(&mut canvas, &columns);
    let lanes = Lanes::draw(&mut canvas, &run, &columns)?;
    draw_legal_order(&mut canvas, &run, &columns, &lanes)?;
    draw_updates(&mut canvas, &run, record, window)?;
    canvas.into_svg()
}
