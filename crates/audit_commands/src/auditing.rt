//! `osdgate audit`.

use crate::arguments::{AuditArguments, AuditFormat};
use crate::findings::{Finding, findings_of};
use crate::inputs::AuditInputs;
use crate::rendering::rendered;
use clap::ArgMatches;
use command_steps::{Answered, NoAnswer, rules_note};
use common_types::OutOfMemory;
use gate_files::InputFiles;
use std::alloc::Global;
use std::io::Read;
use verdict_text::Printed;

/// What is found of the grants, which a table has no place for.
fn findings<'a>(
    alloc: Global,
    arguments: &AuditArguments<'_>,
    inputs: &'a AuditInputs,
) -> Result<Vec<Finding<'a>>, OutOfMemory> {
    let entities = inputs.chosen.entities();
    if arguments.format == AuditFormat::Csv {
        return Ok(Vec::new(alloc));
    }
    findings_of(alloc, entities, inputs.pools.as_slice())
}

/// The answer on entities and pools: it fails if an entity could not be checked, unless that is accepted.
fn audited(
    alloc: Global,
    arguments: &AuditArguments<'_>,
    inputs: &AuditInputs,
    width: usize,
) -> Result<Answered, OutOfMemory> {
    let mut note = inputs.chosen.notes(alloc)?;
    note.push_str(rules_note(arguments.rules))?;
    let findings = findings(alloc, arguments, inputs)?;
    let printed = Printed {
        text: rendered(
            alloc,
            arguments,
            inputs,
            width,
            findings.as_slice(),
            note.as_str(),
        )?,
        fails: inputs.fails(arguments.choice),
    };
    Ok(Answered::noted(alloc, printed, note))
}

/// `osdgate audit`: what each entity of a file reaches of each pool of another file, under which rules, who could not be checked,
/// and what is wrong with grants. The caller writes the answer.
pub fn audit<F: InputFiles, R: Read>(
    alloc: Global,
    matches: &ArgMatches<'_>,
    files: &F,
    reader: &mut R,
) -> Result<Answered, NoAnswer> {
    let arguments = AuditArguments::of(matches)?;
    let inputs = AuditInputs::read(alloc, &arguments, matches, files, reader)?;
    Ok(audited(alloc, &arguments, &inputs, files.screen().width)?)
}
