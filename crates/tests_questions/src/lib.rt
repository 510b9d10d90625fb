//! Tests of the questions and of their commands: addresses and networks, Ceph's texts and classes, rights, logs, rules, audits and lines
//! of `ceph auth caps`. Each calls only what is public.
//!
//! They are in a crate of their own, since a crate with tests is proved a second time with them.
#![tactic(auto)]

#[cfg(test)]
mod audits;
#[cfg(test)]
mod caps_commands;
#[cfg(test)]
mod ceph_texts;
#[cfg(test)]
mod checks;
#[cfg(test)]
mod classes;
#[cfg(test)]
mod networks;
#[cfg(test)]
mod osd_logs;
#[cfg(test)]
mod rights;
#[cfg(test)]
mod rules;
