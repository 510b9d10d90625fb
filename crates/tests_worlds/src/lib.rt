//! The worked examples of worlds, of the text of scripts, of pictures and of the command line, as tests. Each calls only what is public.
//! `sessions/` has what else a command line prints.
//!
//! They stand here and not beside the code, since a crate with tests is proved a second time with them.
#![tactic(auto)]

#[cfg(test)]
mod answers;
#[cfg(test)]
mod commands;
#[cfg(test)]
mod expecting;
#[cfg(test)]
mod failover;
#[cfg(test)]
mod files;
#[cfg(test)]
mod group_refusals;
#[cfg(test)]
mod limits;
#[cfg(test)]
mod lines;
#[cfg(test)]
mod looks;
#[cfg(test)]
mod no_texts;
#[cfg(test)]
mod pictures;
#[cfg(test)]
mod refusals;
#[cfg(test)]
mod script_texts;
#[cfg(test)]
mod stories;
#[cfg(test)]
mod users;
