//! Pictures of scripts: what happens to a group of the script's world, drawn.
//!
//! A script is replayed line by line in a world of its own. What each event does to the group becomes a list of
//! happenings, and `picture_text` draws that list alone. `group_story` reports which messages a step took and sent.
//!
//! # What contracts see
//!
//! A picture is drawn of a `Story`: rows of `Happening`s, from the top to the bottom, and the messages that they name. In
//! `replay_picture` the module `watching` has a world and makes each event's happenings, and `replaying` makes the rows of a
//! script's bytes. In `picture_text`, which knows nothing of worlds, `lanes` and `flights` say where everything stands, and `svg`
//! and `mermaid` write it. Before a step `hold_wire` of `group_story` keeps the message at the event's place and how many others
//! there are, and after it `tell_step` tells that message and those behind the others; `step_and_tell` of `group_story` has them
//! hold and tell the messages of one group of a world, before and after an event.
//!
//! # Costs
//!
//! A script is replayed three times: to choose the group, to count the rows, and to make at most 2,000 of them. A step costs the
//! messages that it takes and sends. A decision is known by the reply that follows it. Only where a daemon may have become active
//! are all entries compared with those before, which copies them. Layout takes time by the rows, the messages, and the lanes times
//! the messages.
//!
//! # Design
//!
//! The script has run and printed before, so `run_script` and its world stay as they are, and the replay asks only what is public
//! of a world and of a script: `read_line` reads the lines of both. A message goes across in a row of its own and waits beside
//! its sender's lane, and its name stands in the room between the tracks of one lane and the next lane, which is as wide as the
//! longest name there: so no arrow goes through a name, whatever the script does.
#![tactic(auto)]

mod choosing;
mod naming;
mod outcomes;
mod peering;
mod picture;
mod replaying;
mod rights;
mod selection;
mod watching;

pub use picture::{Drawing, Format, Picture, Wanted, draw_part, draw_script};
