//! The files of `osdgate audit`, read into values.

use crate::arguments::AuditArguments;
use crate::reached_pools::sorted_pools;
use clap::ArgMatches;
use command_steps::{NoAnswer, auth_in, or_bad_file, refuse_unmatched, text_in};
use common_types::OutOfMemory;
use gate_files::{Choice, Chosen, InputFiles, Purpose, keep_chosen, pools_of};
use share_core::Pool;
use std::alloc::Global;
use std::io::Read;
use verdict_text::{Entity, Reader};

/// The entities that are chosen and the pools, each sorted by their names.
pub(crate) struct AuditInputs {
    pub(crate) chosen: Chosen,
    pub(crate) pools: Vec<Pool>,
}

impl Drop for AuditInputs {
    fn drop(self) {
        let AuditInputs {
            chosen: _,
            pools: _,
        } = self;
    }
}

/// Copies of entities, sorted by their names.
fn sorted_entities(alloc: Global, entities: &[Entity]) -> Result<Vec<Entity>, OutOfMemory> {
    let mut order = Vec::with_capacity(alloc, entities.len())?;
    for (index, entity) in entities.iter().enumerate() {
        order.push((entity.name.as_str(), index))?;
    }
    order.sort()?;
    let mut sorted = Vec::with_capacity(alloc, entities.len())?;
    for (_, index) in &order {
        if let Some(entity) = entities.get(*index) {
            let name = entity.name.clone()?;
            let osd = entity.osd.clone()?;
            sorted.push(Entity { name, osd })?;
        }
    }
    Ok(sorted)
}

/// The entities of the file that are chosen. Those that cannot be checked stay, also where that is accepted, so that each
/// answer names them.
fn chosen_of<F: InputFiles, R: Read>(
    alloc: Global,
    arguments: &AuditArguments<'_>,
    matches: &ArgMatches<'_>,
    files: &F,
    reader: &mut R,
) -> Result<Chosen, NoAnswer> {
    let mut file = auth_in(alloc, files, reader, Purpose::Entities, arguments.auth)?;
    refuse_unmatched(alloc, matches, &[file.entities.as_slice()])?;
    keep_chosen(arguments.choice, &mut file.entities);
    let entities = sorted_entities(alloc, file.entities.as_slice())?;
    let rules = Reader::of(alloc, arguments.rules)?;
    let all = Choice {
        known: &[],
        ..arguments.choice
    };
    Ok(Chosen::of(alloc, &rules, all, entities)?)
}

/// The pools of the file.
fn pools_in<F: InputFiles, R: Read>(
    alloc: Global,
    arguments: &AuditArguments<'_>,
    files: &F,
    reader: &mut R,
) -> Result<Vec<Pool>, NoAnswer> {
    let text = text_in(alloc, files, reader, Purpose::Pools, arguments.pools)?;
    let pools = pools_of(alloc, text.as_str());
    let pools = or_bad_file(alloc, Purpose::Pools, arguments.pools, pools)?;
    Ok(sorted_pools(alloc, pools.as_slice())?)
}

impl AuditInputs {
    /// Reads both files. The answer is the same in whatever order they list entities and pools.
    pub(crate) fn read<F: InputFiles, R: Read>(
        alloc: Global,
        arguments: &AuditArguments<'_>,
        matches: &ArgMatches<'_>,
        files: &F,
        reader: &mut R,
    ) -> Result<AuditInputs, NoAnswer> {
        let pools = pools_in(alloc, arguments, files, reader)?;
        let chosen = chosen_of(alloc, arguments, matches, files, reader)?;
        Ok(AuditInputs { chosen, pools })
    }

    /// Whether an entity could not be checked and that is not accepted.
    pub(crate) fn fails(&self, choice: Choice<'_>) -> bool {
        let unchecked = self.chosen.unchecked();
        unchecked.iter().any(|it| !choice.accepts(it.name.as_str()))
    }
}
