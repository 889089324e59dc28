//! The text of a picture, element by element. All that is drawn is made from numbers and names of
//! this program, so no text has a sign that XML reads otherwise.
use crate::parts::TextPart::{Length, Rounded, Text};
use crate::parts::{TextPart, add, joined};
use crate::style::{SIGNS, STYLE};
use arena::NoMemory;
use std::alloc::Global;
use std::num::nearest_usize_to_f64;

/// How wide a letter is, and a small one.
const LETTER: f64 = 6.1;

pub(crate) const SMALL_LETTER: f64 = 5.0;

/// What is left free on the right and below.
const MARGIN: f64 = 12.0;

/// How a picture begins, up to its width.
const SVG: &str = "<svg xmlns=\"http://www.w3.org/2000/svg\" width=\"";

/// A place in the picture: how far from its left edge, and from its upper one.
#[derive(Clone, Copy)]
pub(crate) struct Spot {
    pub(crate) x: f64,
    pub(crate) y: f64,
}

/// The elements so far, and how far they reach. If memory is refused nothing more is drawn, and
/// `into_svg` reports it.
#[derive(Drop)]
pub(crate) struct Canvas {
    /// Where all that is drawn on it takes its memory.
    pub(crate) alloc: Global,
    text: String,
    is_refused: bool,
    pub(crate) right: f64,
    pub(crate) bottom: f64,
}

impl Spot {
    /// The place this far from the left edge, and that far from the upper one.
    pub(crate) fn at(x: f64, y: f64) -> Spot {
        Spot { x, y }
    }

    /// The place so far to the right of it, and so far below.
    pub(crate) fn moved(self, right: f64, down: f64) -> Spot {
        Spot::at(self.x + right, self.y + down)
    }
}

impl Canvas {
    /// Nothing is drawn yet.
    pub(crate) fn new(alloc: Global) -> Canvas {
        Canvas {
            alloc,
            text: String::new(alloc),
            is_refused: false,
            right: 0.0,
            bottom: 0.0,
        }
    }

    /// Something is drawn as far as this.
    pub(crate) fn reach(&mut self, right: f64, bottom: f64) {
        self.right = self.right.max(right);
        self.bottom = self.bottom.max(bottom);
    }

    /// Puts some parts after what is drawn.
    fn add(&mut self, parts: &[TextPart]) {
        if !self.is_refused {
            self.is_refused = add(&mut self.text, parts).is_err();
        }
    }

    /// Puts two lengths, each with what stands before it.
    fn lengths<'a>(&mut self, before: &'a str, first: f64, between: &'a str, second: f64) {
        self.add(&[Text(before), Length(first), Text(between), Length(second)]);
    }

    /// Ends the class of an element that shows this when one points at it.
    fn tell(&mut self, told: &[TextPart], end: &str) {
        self.add(&[Text("\"><title>")]);
        self.add(told);
        self.add(&[Text(end)]);
    }

    /// Begins an element at a spot, up to its class.
    fn open(&mut self, element: &str, at: Spot) {
        self.add(&[Text("<"), Text(element)]);
        self.lengths(" x=\"", at.x, "\" y=\"", at.y);
        self.add(&[Text("\" class=\"")]);
    }

    /// Words that begin at a spot.
    pub(crate) fn words<'a>(&mut self, at: Spot, class: &'a str, words: &'a str) {
        self.reach(at.x + width_of(words), at.y);
        self.open("text", at);
        self.add(&[Text(class), Text("\">"), Text(words), Text("</text>\n")]);
    }

    /// Words around a spot.
    pub(crate) fn middle_words(&mut self, at: Spot, class: &[TextPart], words: &[TextPart]) {
        self.reach(at.x, at.y);
        self.open("text", at);
        self.add(&[Text("middle ")]);
        self.add(class);
        self.add(&[Text("\">")]);
        self.add(words);
        self.add(&[Text("</text>\n")]);
    }

    /// A box with its left upper corner there, which shows this when one points at it.
    pub(crate) fn rectangle(
        &mut self,
        corner: Spot,
        size: Spot,
        class: &[TextPart],
        told: &[TextPart],
    ) {
        self.reach(corner.x + size.x, corner.y + size.y);
        self.lengths("<rect x=\"", corner.x, "\" y=\"", corner.y);
        self.lengths("\" width=\"", size.x, "\" height=\"", size.y);
        self.add(&[Text("\" rx=\"4\" class=\"")]);
        self.add(class);
        self.tell(told, "</title></rect>\n");
    }

    /// A band over the whole width.
    pub(crate) fn band(&mut self, top: f64, high: f64) {
        self.reach(0.0, top + high);
        self.lengths("<rect y=\"", top, "\" width=\"100%\" height=\"", high);
        self.add(&[Text("\" class=\"lane\"/>\n")]);
    }

    /// A line between two spots.
    pub(crate) fn line(&mut self, from: Spot, to: Spot, class: &[TextPart]) {
        self.lengths("<path d=\"M", from.x, " ", from.y);
        self.lengths("L", to.x, " ", to.y);
        self.add(&[Text("\" class=\"")]);
        self.add(class);
        self.add(&[Text("\"/>\n")]);
    }

    /// A sign around a spot, which shows this when one points at it.
    pub(crate) fn sign(&mut self, name: &str, at: Spot, class: &[TextPart], told: &[TextPart]) {
        self.reach(at.x, at.y);
        self.use_of(name, at, class);
        self.tell(told, "</title></use>\n");
    }

    /// A sign around a spot that shows nothing.
    pub(crate) fn mark(&mut self, name: &str, at: Spot, class: &str) {
        self.use_of(name, at, &[Text(class)]);
        self.add(&[Text("\"/>\n")]);
    }

    /// Begins a sign, up to the end of its class.
    fn use_of(&mut self, name: &str, at: Spot, class: &[TextPart]) {
        self.add(&[Text("<use href=\"#"), Text(name)]);
        self.lengths("\" x=\"", at.x, "\" y=\"", at.y);
        self.add(&[Text("\" class=\"")]);
        self.add(class);
    }

    /// The whole picture.
    pub(crate) fn into_svg(self) -> Result<String, NoMemory> {
        if self.is_refused {
            return Err(NoMemory);
        }
        let (wide, high) = (Rounded(self.right + MARGIN), Rounded(self.bottom + MARGIN));
        let mut svg = joined(self.alloc, &[Text(SVG), wide, Text("\" height=\""), high])?;
        for part in ["\">\n", STYLE, SIGNS, self.text.as_str(), "</svg>\n"] {
            svg.push_str(part)?;
        }
        Ok(svg)
    }
}

/// How wide some words are.
pub(crate) fn width_of(words: &str) -> f64 {
    LETTER * nearest_usize_to_f64(words.chars().count())
}

/// What is added to the class of a sign that is hollow.
pub(crate) fn hollow_class(is_hollow: bool) -> &'static str {
    if is_hollow { " hollow" } else { "" }
}
