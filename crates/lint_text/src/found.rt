//! What is found of the grants of a text, as values: those that the lines of a text are made of.

ghost use Rattle.std.specs.Prelude.{◌≡◌, None};
ghost use Rattle.grant_core.specs.BuiltIn.{built_in};
ghost use Rattle.grant_core.specs.Refusal.{expand_refusal};
ghost use Rattle.verdict_text.specs.declared.reading.Rules.TheVariants as by;

use crate::ceph::found_read;
use crate::lines::is_everywhere;
use crate::reading::{Judged, judged_of, list_of, listed};
use cap_text::CapList;
use common_types::OutOfMemory;
use grant_core::ProfileTable;
use lint_core::{GrantLint, Pool, Reach};
use std::alloc::Global;
use verdict_text::{ReadText, Reader, Rules, TextFault};

/// What is found of each grant of a list. By this project's rules each expands to something, at every address.
fn judged_lints(
    alloc: Global,
    list: &CapList,
    judged: &Judged,
) -> Result<Vec<GrantLint>, OutOfMemory> {
    let found = judged.standings.iter().zip(judged.without.iter());
    let mut all = Vec::new(alloc);
    for (grant, (standing, without)) in list.grants().iter().zip(found) {
        let reach = if is_everywhere(grant) {
            Reach::EveryPool
        } else {
            Reach::Bounded
        };
        all.push(GrantLint {
            standing: *standing,
            nothing: false,
            dead: false,
            reach,
            without_pool: *without,
        })?;
    }
    Ok(all)
}

/// What is found of each grant of a list that can be expanded.
fn list_lints(
    alloc: Global,
    profiles: &ProfileTable,
    list: &CapList,
    pools: Option<&[Pool]>,
) -> Result<Vec<GrantLint>, OutOfMemory>
    requires profiles { profiles.now ≡ built_in }
    requires expands { expand_refusal built_in list.now ≡ None }
{
    let judged = judged_of(alloc, profiles, list, pools)?;
    judged_lints(alloc, list, &judged)
}

/// What is found of each grant of a text, which is read by this project's rules.
fn found_caps(
    alloc: Global,
    profiles: &ProfileTable,
    caps: &str,
    pools: Option<&[Pool]>,
) -> Result<Result<Vec<GrantLint>, TextFault>, OutOfMemory>
    requires { profiles.now ≡ built_in }
{
    match list_of(alloc, profiles, caps)? {
        Ok(list) => Ok(Ok(list_lints(alloc, profiles, &list, pools)?)),
        Err(fault) => Ok(Err(fault)),
    }
}

/// What is found of each grant of a text that was read by this project's rules.
fn found_project(
    alloc: Global,
    profiles: &ProfileTable,
    text: &ReadText,
    pools: Option<&[Pool]>,
) -> Result<Result<Vec<GrantLint>, TextFault>, OutOfMemory>
    requires profiles { profiles.now ≡ built_in }
    requires rules { text.now.rules ≡ by.Project }
{
    if let Err(fault) = text.read() {
        return Ok(Err(*fault));
    }
    match listed(text) {
        Some(list) => Ok(Ok(list_lints(alloc, profiles, list, pools)?)),
        None => found_caps(alloc, profiles, text.text(), pools),
    }
}

/// What is found of each grant of a capability text that was read, or why the text is refused: what [`crate::lint_read`] prints.
/// `reader` lends its profiles. An `Err` is out of memory alone.
pub fn found_read_grants(
    alloc: Global,
    reader: &Reader,
    text: &ReadText,
    pools: Option<&[Pool]>,
) -> Result<Result<Vec<GrantLint>, TextFault>, OutOfMemory> {
    match text.rules() {
        Rules::Project => found_project(alloc, reader.profiles(), text, pools),
        Rules::Ceph => found_read(alloc, text, pools),
    }
}

/// What is found of each grant of a capability text, or why the text is refused: what [`crate::lint_caps`] prints, or by
/// Ceph's rules [`crate::lint_ceph_caps`]. An `Err` is out of memory alone.
pub fn found_grants(
    alloc: Global,
    rules: Rules,
    caps: &str,
    pools: Option<&[Pool]>,
) -> Result<Result<Vec<GrantLint>, TextFault>, OutOfMemory> {
    let reader = Reader::of(alloc, rules)?;
    let text = ReadText::of(alloc, &reader, String::from_str(alloc, caps)?, None)?;
    found_read_grants(alloc, &reader, &text, pools)
}
