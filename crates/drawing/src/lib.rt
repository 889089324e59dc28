//! Pictures of runs: a record as the text of an SVG, or as a page of a browser.
#![tactic(auto)]

mod canvas;
mod cells;
mod columns;
mod flow;
mod head;
mod labels;
mod lanes;
mod legal_order;
mod node_table;
mod page;
mod page_script;
mod page_template;
mod parts;
mod picture;
mod shown_call;
mod shown_run;
mod style;
mod trees;
mod updates;
mod window;

pub use page::write_page;
pub use picture::picture_of;
pub use window::Window;
