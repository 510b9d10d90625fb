//! Pictures as texts: what happened to a group of daemons, drawn from a plain list of happenings, as SVG or as a Mermaid sequence
//! diagram.
#![tactic(auto)]

mod escaping;
mod flights;
mod happenings;
mod lanes;
mod legend;
mod lengths;
mod mermaid;
mod notes;
mod strokes;
mod style;
mod svg;

pub use happenings::{
    Beginning, Change, End, Happening, Message, Outcome, Party, Row, ScriptLine, Story, Topic,
};
pub use mermaid::mermaid_of;
pub use svg::svg_of;
