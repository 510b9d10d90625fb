//! A script's bytes as a picture.

use crate::replaying::{row_counts, scout, story_of};
use crate::selection::Selection;
use common_types::{OutOfMemory, TryClone};
use entry_core::{GroupId, Id};
use picture_text::{mermaid_of, svg_of};
use std::alloc::Global;

/// The largest number of rows of a picture, the last ones. They include those of messages on their way at the end.
const MAX_ROWS: usize = 2_000;

/// What a picture is written as.
#[derive(Clone, Copy)]
pub enum Format {
    Svg,
    /// A Mermaid sequence diagram.
    Mermaid,
}

/// A picture, and the group that it shows: none where the script makes no group.
pub struct Picture {
    pub group: Option<GroupId>,
    pub text: String,
}

impl Drop for Picture {
    fn drop(self) {
        let Picture { group: _, text: _ } = self;
    }
}

/// What a picture is to show.
#[derive(Drop)]
pub struct Wanted {
    /// The group. If it is not named, it is that of the request, or else the one with most messages.
    pub group: Option<GroupId>,
    /// The first and the last line of the script, counted from 1. The steps of other lines are left out.
    pub lines: Option<(usize, usize)>,
    /// The request. The steps of other requests are left out.
    pub request: Option<Id>,
}

/// What became of a picture.
#[derive(Drop)]
pub enum Drawing {
    Drawn(Picture),
    /// The script makes no group of that name.
    NoGroup,
    /// The script makes no such request.
    NoRequest,
    /// The script has no such line, or a line before it is no command.
    NoLine,
}

fn copy_group(group: &Option<GroupId>) -> Result<Option<GroupId>, OutOfMemory> {
    match group {
        None => Ok(None),
        Some(group) => Ok(Some(group.copy()?)),
    }
}

/// The picture of a group, or nothing where the selected lines are not there.
fn drawn(
    alloc: Global,
    script: &[u8],
    group: &Option<GroupId>,
    selection: Selection,
    format: Format,
) -> Result<Option<String>, OutOfMemory> {
    let counts = row_counts(alloc, script, copy_group(group)?, selection)?;
    let before = match (selection.lines, counts.before_lines) {
        (None, _) => 0,
        (Some(_), Some(before)) => before,
        (Some(_), None) => return Ok(None),
    };
    let all = counts.steps.saturating_add(counts.waiting);
    let first = all.saturating_sub(MAX_ROWS).max(before);
    let story = story_of(alloc, script, copy_group(group)?, selection, first)?;
    match format {
        Format::Svg => Ok(Some(svg_of(alloc, &story)?)),
        Format::Mermaid => Ok(Some(mermaid_of(alloc, &story)?)),
    }
}

/// Draws what a script does to a group: to the named one, or else to the one with most messages.
///
/// The lines up to the first that is no command are drawn. Of more than 2,000 rows the last ones are drawn. Nothing is drawn where
/// the script has no group of that name.
///
/// The script is replayed in worlds of its own, line by line.
pub fn draw_script(
    alloc: Global,
    script: &[u8],
    named: Option<GroupId>,
    format: Format,
) -> Result<Option<Picture>, OutOfMemory> {
    let wanted = Wanted {
        group: named,
        lines: None,
        request: None,
    };
    match draw_part(alloc, script, wanted, format)? {
        Drawing::Drawn(picture) => Ok(Some(picture)),
        Drawing::NoGroup | Drawing::NoRequest | Drawing::NoLine => Ok(None),
    }
}

/// Draws a part of what a script does to a group, as `draw_script` draws all of it.
pub fn draw_part(
    alloc: Global,
    script: &[u8],
    wanted: Wanted,
    format: Format,
) -> Result<Drawing, OutOfMemory> {
    let mut scouted = scout(alloc, script, &wanted.group, wanted.request)?;
    if wanted.group.is_some() && !scouted.has_named {
        return Ok(Drawing::NoGroup);
    }
    if wanted.request.is_some() && scouted.of_request.is_none() {
        return Ok(Drawing::NoRequest);
    }
    let selection = Selection {
        lines: wanted.lines,
        request: wanted.request,
    };
    let group = wanted
        .group
        .or(scouted.of_request.take())
        .or(scouted.busiest.take());
    match drawn(alloc, script, &group, selection, format)? {
        None => Ok(Drawing::NoLine),
        Some(text) => Ok(Drawing::Drawn(Picture { group, text })),
    }
}
