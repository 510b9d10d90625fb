//! What is printed of the entities of a cluster.

ghost use Rattle.std.specs.Prelude.{◌≡◌, ◌++◌, ◌&&◌, [], false, None, codes, length, option_copied, IfOk, string_bytes};
ghost use Rattle.verdict_text.specs.ShownName.{shown_name};
ghost use Rattle.verdict_text.specs.declared.reading.Rules.TheVariants as by;
ghost use Rattle.grant_core.specs.BuiltIn.{built_in};
ghost use Rattle.grant_core.specs.Refusal.{expand_refusal};
ghost use Rattle.lint_text.specs.Linted.{AreLinted, IsEntityListLinted, IsEntityTold, IsNameTold, has_mistake, lines_from};
ghost use Rattle.lint_text.specs.ReadLinted.{AreReadLinted, IsReadEntityTold};

use crate::ceph::told_ceph;
use crate::lines::{is_mistaken, push_lines};
use crate::reading::{Judged, judged_of, list_of, listed};
use cap_text::CapList;
use common_types::OutOfMemory;
use grant_core::ProfileTable;
use lint_core::Pool;
use std::alloc::Global;
use verdict_text::{Entity, Printed, ReadEntity, ReadText, Reader, Rules, push_name};

/// What is printed of an entity whose grants are looked at: their lines, behind its name.
fn linted(
    alloc: Global,
    name: &str,
    list: &CapList,
    judged: &Judged,
    check: bool,
) -> Result<Printed, OutOfMemory>
    requires all { length judged.now.standings.items ≡ length list.now }
    requires each { length judged.now.without.items ≡ length list.now }
    ensures text { IfOk result (λ printed. string_bytes printed.text ≡ lines_from (shown_name name.now ++ codes " ") 1 list.now judged.now.standings.items judged.now.without.items) }
    ensures fails { IfOk result (λ printed. printed.fails ≡ (check && has_mistake judged.now.standings.items judged.now.without.items)) }
{
    let mut before = String::new(alloc);
    push_name(&mut before, name)?;
    before.push_str(" ")?;
    let mut text = String::new(alloc);
    push_lines(
        &mut text,
        before.as_str(),
        list.grants(),
        &judged.standings,
        &judged.without,
    )?;
    let fails = check && is_mistaken(&judged.standings, &judged.without);
    Ok(Printed { text, fails })
}

/// What is printed of an entity with a list that can be expanded.
fn linted_list(
    alloc: Global,
    profiles: &ProfileTable,
    name: &str,
    list: &CapList,
    pools: Option<&[Pool]>,
    check: bool,
) -> Result<Printed, OutOfMemory>
    requires profiles { profiles.now ≡ built_in }
    requires expands { expand_refusal built_in list.now ≡ None }
    ensures { IfOk result (λ printed. IsEntityListLinted (option_copied pools.entry) check name.now list.now (string_bytes printed.text) printed.fails) }
{
    let judged = judged_of(alloc, profiles, list, pools)?;
    linted(alloc, name, list, &judged, check)
}

/// What is printed of an entity that is left out.
fn nothing(alloc: Global) -> Printed
    ensures text { string_bytes result.text ≡ [] }
    ensures fails { result.fails ≡ false }
{
    Printed {
        text: String::new(alloc),
        fails: false,
    }
}

/// What is printed of an entity of a name and a text, which is read. One whose text is refused is left out.
fn told_name(
    alloc: Global,
    profiles: &ProfileTable,
    name: &str,
    caps: &str,
    pools: Option<&[Pool]>,
    check: bool,
) -> Result<Printed, OutOfMemory>
    requires { profiles.now ≡ built_in }
    ensures { IfOk result (λ printed. IsNameTold (option_copied pools.entry) check name.now caps.now (string_bytes printed.text) printed.fails) }
{
    match list_of(alloc, profiles, caps)? {
        Ok(list) => linted_list(alloc, profiles, name, &list, pools, check),
        Err(_) => Ok(nothing(alloc)),
    }
}

/// What is printed of an entity of a name whose text was read by this project's rules.
fn told_project(
    alloc: Global,
    profiles: &ProfileTable,
    name: &str,
    text: &ReadText,
    pools: Option<&[Pool]>,
    check: bool,
) -> Result<Printed, OutOfMemory>
    requires profiles { profiles.now ≡ built_in }
    requires rules { text.now.rules ≡ by.Project }
    ensures { IfOk result (λ printed. IsNameTold (option_copied pools.entry) check name.now text.now.text (string_bytes printed.text) printed.fails) }
{
    if text.read().is_err() {
        return Ok(nothing(alloc));
    }
    match listed(text) {
        Some(list) => linted_list(alloc, profiles, name, list, pools, check),
        None => told_name(alloc, profiles, name, text.text(), pools, check),
    }
}

/// What is printed of an entity by this project's rules.
fn told(
    alloc: Global,
    profiles: &ProfileTable,
    entity: &Entity,
    pools: Option<&[Pool]>,
    check: bool,
) -> Result<Printed, OutOfMemory>
    requires { profiles.now ≡ built_in }
    ensures { IfOk result (λ printed. IsEntityTold (option_copied pools.entry) check entity.now (string_bytes printed.text) printed.fails) }
{
    let (name, caps) = (entity.name.as_str(), entity.osd.as_str());
    told_name(alloc, profiles, name, caps, pools, check)
}

/// What is printed of an entity that was read.
fn told_read(
    alloc: Global,
    reader: &Reader,
    entity: &ReadEntity,
    pools: Option<&[Pool]>,
    check: bool,
) -> Result<Printed, OutOfMemory>
    ensures { IfOk result (λ printed. IsReadEntityTold (option_copied pools.entry) check entity.now (string_bytes printed.text) printed.fails) }
{
    let (name, text) = (entity.name.as_str(), &entity.osd);
    match text.rules() {
        Rules::Project => told_project(alloc, reader.profiles(), name, text, pools, check),
        Rules::Ceph => told_ceph(alloc, name, text, pools, check),
    }
}

/// What the program prints of the grants of some entities that nobody needs: the lines of each entity's grants, in its
/// text's order, each behind the entity's name and a blank. Names are written by [`verdict_text::push_name`].
/// An entity whose text is refused has no line. With a check it fails if some grant is redundant or
/// matches no pool.
pub fn lint_entities(
    alloc: Global,
    entities: &[Entity],
    pools: Option<&[Pool]>,
    check: bool,
) -> Result<Printed, OutOfMemory>
    ensures { IfOk result (λ printed. AreLinted (option_copied pools.entry) check entities.now (string_bytes printed.text) printed.fails) }
{
    let profiles = ProfileTable::builtin(alloc)?;
    let mut text = String::new(alloc);
    let mut fails = false;
    for entity in entities {
        let told = told(alloc, &profiles, entity, pools, check)?;
        text.push_str(told.text.as_str())?;
        fails = fails || told.fails;
    }
    Ok(Printed { text, fails })
}

/// What the program prints of the grants that nobody needs of some entities that were read: the lines of [`lint_entities`], or
/// those of [`crate::lint_ceph_entities`] of an entity that was read by Ceph's rules. A text is read again only where nothing is kept
/// of what it spells. `reader` lends its profiles.
pub fn lint_read_entities(
    alloc: Global,
    reader: &Reader,
    entities: &[ReadEntity],
    pools: Option<&[Pool]>,
    check: bool,
) -> Result<Printed, OutOfMemory>
    ensures { IfOk result (λ printed. AreReadLinted (option_copied pools.entry) check entities.now (string_bytes printed.text) printed.fails) }
{
    let mut text = String::new(alloc);
    let mut fails = false;
    for entity in entities {
        let told = told_read(alloc, reader, entity, pools, check)?;
        text.push_str(told.text.as_str())?;
        fails = fails || told.fails;
    }
    Ok(Printed { text, fails })
}
