//! The files that options name, read into values.

use crate::known::{KnownNames, choice_knowing};
use crate::no_answer::NoAnswer;
use crate::options::{choice_of, reader_of, value_of};
use clap::ArgMatches;
use common_types::OutOfMemory;
use gate_files::{
    AuthFile, Choice, Chosen, FileFault, InputFiles, Purpose, ServiceText, auth_of, keep_chosen,
    keep_chosen_services, pools_of, read_text, unmatched_line,
};
use share_core::Pool;
use std::alloc::Global;
use std::io::Read;
use verdict_text::{Entity, Reader, push_name};

/// What is read of a file, or why it cannot be used.
pub fn or_bad_file<T: Drop>(
    alloc: Global,
    purpose: Purpose,
    path: &str,
    read: Result<T, FileFault>,
) -> Result<T, NoAnswer> {
    match read {
        Ok(value) => Ok(value),
        Err(fault) => Err(NoAnswer::of_file(alloc, purpose, path, fault)),
    }
}

/// The text of a file, or of standard input if the path is `-`.
pub fn text_in<F: InputFiles, R: Read>(
    alloc: Global,
    files: &F,
    reader: &mut R,
    purpose: Purpose,
    path: &str,
) -> Result<String, NoAnswer> {
    or_bad_file(alloc, purpose, path, read_text(alloc, files, reader, path))
}

/// The entities of a file, and their texts for other services.
pub fn auth_in<F: InputFiles, R: Read>(
    alloc: Global,
    files: &F,
    reader: &mut R,
    purpose: Purpose,
    path: &str,
) -> Result<AuthFile, NoAnswer> {
    let text = text_in(alloc, files, reader, purpose, path)?;
    or_bad_file(alloc, purpose, path, auth_of(alloc, text.as_str()))
}

/// That a file lacks an entity.
fn lacking_line(alloc: Global, name: &str) -> Result<String, OutOfMemory> {
    let mut line = String::from_str(alloc, "the file has no entity ")?;
    push_name(&mut line, name)?;
    Ok(line)
}

/// The text for object stores of an entity of a file.
pub fn caps_of<F: InputFiles, R: Read>(
    alloc: Global,
    files: &F,
    reader: &mut R,
    path: &str,
    name: &str,
) -> Result<String, NoAnswer> {
    let file = auth_in(alloc, files, reader, Purpose::Entities, path)?;
    match file.entities.iter().find(|it| it.name.as_str() == name) {
        Some(entity) => Ok(entity.osd.clone()?),
        None => Err(NoAnswer::Told(lacking_line(alloc, name)?)),
    }
}

/// The pools of the file of `--pools`, if it is given.
pub fn pools_given<F: InputFiles, R: Read>(
    alloc: Global,
    files: &F,
    reader: &mut R,
    matches: &ArgMatches<'_>,
) -> Result<Option<Vec<Pool>>, NoAnswer> {
    let Some(path) = matches.get_str("pools") else {
        return Ok(None);
    };
    let text = text_in(alloc, files, reader, Purpose::Pools, path)?;
    let pools = pools_of(alloc, text.as_str());
    Ok(Some(or_bad_file(alloc, Purpose::Pools, path, pools)?))
}

/// Refuses a pattern of `--only` or `--without` that matches no entity of these files.
pub fn refuse_unmatched(
    alloc: Global,
    matches: &ArgMatches<'_>,
    files: &[&[Entity]],
) -> Result<(), NoAnswer> {
    match unmatched_line(alloc, choice_of(matches), files)? {
        Some(line) => Err(NoAnswer::Told(line)),
        None => Ok(()),
    }
}

/// The entities that are chosen of a file, what has read them, and their texts for other services.
pub struct ChosenFile {
    pub chosen: Chosen,
    pub rules: Reader,
    pub services: Vec<ServiceText>,
}

impl Drop for ChosenFile {
    fn drop(self) {
        let ChosenFile {
            chosen: _,
            rules: _,
            services: _,
        } = self;
    }
}

/// The entities of the file of `--auth` that the arguments choose, each read once.
pub fn chosen_in<F: InputFiles, R: Read>(
    alloc: Global,
    files: &F,
    reader: &mut R,
    matches: &ArgMatches<'_>,
) -> Result<Chosen, NoAnswer> {
    let rules = reader_of(alloc, matches)?;
    chosen_read_by(alloc, files, reader, matches, &rules)
}

/// The entities of the file of `--auth` that the arguments choose, each read once by a reader of texts that the command has.
pub fn chosen_read_by<F: InputFiles, R: Read>(
    alloc: Global,
    files: &F,
    reader: &mut R,
    matches: &ArgMatches<'_>,
    rules: &Reader,
) -> Result<Chosen, NoAnswer> {
    let known = KnownNames::of(alloc, files, reader, matches)?;
    let patterns = known.patterns(alloc)?;
    let choice = choice_knowing(matches, patterns.as_slice());
    let (chosen, _) = chosen_with_services(alloc, files, reader, matches, choice, rules)?;
    Ok(chosen)
}

/// The entities of the file of `--auth` that the arguments choose, each read once, with their texts for other services.
pub fn chosen_file_in<F: InputFiles, R: Read>(
    alloc: Global,
    files: &F,
    reader: &mut R,
    matches: &ArgMatches<'_>,
) -> Result<ChosenFile, NoAnswer> {
    let known = KnownNames::of(alloc, files, reader, matches)?;
    let patterns = known.patterns(alloc)?;
    let choice = choice_knowing(matches, patterns.as_slice());
    let rules = reader_of(alloc, matches)?;
    let (chosen, services) = chosen_with_services(alloc, files, reader, matches, choice, &rules)?;
    Ok(ChosenFile {
        chosen,
        rules,
        services,
    })
}

/// The entities of the file of `--auth` that a choice has, each read once.
pub fn chosen_by<F: InputFiles, R: Read>(
    alloc: Global,
    files: &F,
    reader: &mut R,
    matches: &ArgMatches<'_>,
    choice: Choice<'_>,
) -> Result<Chosen, NoAnswer> {
    let rules = reader_of(alloc, matches)?;
    let (chosen, _) = chosen_with_services(alloc, files, reader, matches, choice, &rules)?;
    Ok(chosen)
}

/// The entities of the file of `--auth` that a choice has, each read once, with their texts for other services.
fn chosen_with_services<F: InputFiles, R: Read>(
    alloc: Global,
    files: &F,
    reader: &mut R,
    matches: &ArgMatches<'_>,
    choice: Choice<'_>,
    rules: &Reader,
) -> Result<(Chosen, Vec<ServiceText>), NoAnswer> {
    let path = value_of(matches, "auth");
    let mut file = auth_in(alloc, files, reader, Purpose::Entities, path)?;
    refuse_unmatched(alloc, matches, &[file.entities.as_slice()])?;
    keep_chosen(choice, &mut file.entities);
    keep_chosen_services(choice, &mut file.services);
    let (entities, services) = file.into_parts();
    Ok((Chosen::of(alloc, rules, choice, entities)?, services))
}
