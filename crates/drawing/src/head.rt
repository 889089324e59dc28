//! The first lines of a picture: what was run, and what the signs mean.
use crate::canvas::{Canvas, Spot, width_of};
use crate::columns::LEFT;
use crate::parts::TextPart::{Number, Text};
use crate::parts::{add, joined};
use crate::shown_run::ShownRun;
use crate::window::Window;
use arena::Mode;
use std::alloc::{AllocError, Global};

/// The signs of steps, and their meanings.
const SIGNS: [(&str, &str); 8] = [
    ("load", "load"),
    ("fill", "fill"),
    ("freeze", "freeze"),
    ("frozen", "all frozen"),
    ("mark", "mark"),
    ("update", "update"),
    ("commit", "commit"),
    ("abort", "abort"),
];

/// What else is to be known.
const REMARKS: [&str; 3] = [
    "A hollow sign has changed nothing. Its colour is that of the client whose SCX-record the step is of; where it helps another client, that one is named below.",
    "Below a freeze or a mark: its node. A dashed call is not answered. In the legal order a full dot is an update and a hollow one a reading.",
    "With more than 600 turns a bar stands for loads, and a thick one for fills, their number below it.",
];

/// Draws the head.
pub(crate) fn draw_head(
    canvas: &mut Canvas,
    run: &ShownRun,
    window: Window,
) -> Result<(), AllocError> {
    let title = title_of(canvas.alloc, run, window)?;
    canvas.words(Spot { x: 6.0, y: 20.0 }, "head", title.as_str());
    canvas.reach(1.5 * width_of(title.as_str()), 0.0);
    draw_signs(canvas);
    draw_remarks(canvas);
    Ok(())
}

/// Draws the signs, each with what it means.
fn draw_signs(canvas: &mut Canvas) {
    let mut x = 12.0;
    for (sign, meaning) in SIGNS {
        let class = match sign {
            "load" => "tick",
            "fill" => "fill",
            _ => "c0",
        };
        canvas.mark(sign, Spot { x, y: 38.0 }, class);
        canvas.words(Spot::at(x + 10.0, 41.0), "quiet", meaning);
        x += width_of(meaning) + 36.0;
    }
}

fn draw_remarks(canvas: &mut Canvas) {
    let mut y = 55.0;
    for remark in REMARKS {
        canvas.words(Spot { x: 6.0, y }, "small quiet", remark);
        y += 11.0;
    }
}

/// What was run, in numbers.
fn title_of(alloc: Global, run: &ShownRun, window: Window) -> Result<String, AllocError> {
    let mut title = joined(alloc, &[Text(mode_of(run))])?;
    for (name, number) in counts_of(run) {
        add(&mut title, &[Text(name), Number(number)])?;
    }
    let steps = run.turns.len() as u64;
    if window.from > 1 || window.to < steps {
        let (from, to) = (Number(window.from), Number(window.to.min(steps)));
        let here = [Text(" · here: turns "), from, Text(" to "), to];
        add(&mut title, &here)?;
    }
    Ok(title)
}

/// What there is of a run, each number after its name.
fn counts_of(run: &ShownRun) -> [(&'static str, u64); 5] {
    let (clients, calls) = callers_of(run);
    let answered = run.calls.iter().filter(|call| call.is_answered).count();
    [
        (" · clients: ", clients as u64),
        (" · calls answered: ", answered as u64),
        (" of ", calls as u64),
        (" · turns: ", run.turns.len() as u64),
        (" · updates: ", run.entries.len() as u64),
    ]
}

fn mode_of(run: &ShownRun) -> &'static str {
    match run.layout.mode {
        Mode::Tree => "tree",
        Mode::Trie => "trie",
        Mode::Records => "cells",
    }
}

/// How many clients have calls, and how many calls these are.
fn callers_of(run: &ShownRun) -> (usize, usize) {
    let (mut clients, mut calls) = (0usize, 0usize);
    for client in run.clients.iter() {
        clients = clients.saturating_add(usize::from(!client.calls.is_empty()));
        calls = calls.saturating_add(client.calls.len());
    }
    (clients, calls)
}
