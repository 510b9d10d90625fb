//! The worked examples of texts, verdicts, users, objects, placement, maps, printed texts, tables of times, logs, copies and groups, as tests.
//! Each calls only what is public.
//!
//! They stand here and not beside the code, since a crate with tests is proved a second time with them.
#![tactic(auto)]

#[cfg(test)]
mod alphabets;
#[cfg(test)]
mod capability_texts;
#[cfg(test)]
mod comparisons_by_force;
#[cfg(test)]
mod copies;
#[cfg(test)]
mod drawing;
#[cfg(test)]
mod fits;
#[cfg(test)]
mod flows_by_force;
#[cfg(test)]
mod groups;
#[cfg(test)]
mod linting_by_force;
#[cfg(test)]
mod logs;
#[cfg(test)]
mod looks;
#[cfg(test)]
mod maps;
#[cfg(test)]
mod objects;
#[cfg(test)]
mod operations;
#[cfg(test)]
mod pieces;
#[cfg(test)]
mod placement;
#[cfg(test)]
mod printed_texts;
#[cfg(test)]
mod profiles;
#[cfg(test)]
mod sets;
#[cfg(test)]
mod sharing_by_force;
#[cfg(test)]
mod sharing_by_pools;
#[cfg(test)]
mod sharing_in_pools;
#[cfg(test)]
mod tickets;
#[cfg(test)]
mod times;
#[cfg(test)]
mod users;
#[cfg(test)]
mod verdicts;
