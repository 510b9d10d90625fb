//! The commands `audit`, what each entity of a cluster reaches of each pool, and `reach`, the same of one entity.
//!
//! Its arguments become a struct (`arguments`), its files become values (`inputs`), grants are looked at (`findings`), and the
//! answer is rendered in a format (`rendering`). The last two read nothing. Where the answer is written is left to the caller.
#![tactic(auto)]

mod arguments;
mod auditing;
mod findings;
mod inputs;
mod reach_command;
mod reach_text;
mod reached_pools;
mod rendering;

pub use arguments::output_of;
pub use auditing::audit;
pub use reach_command::reach;
