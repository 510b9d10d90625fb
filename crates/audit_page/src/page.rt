//! A page.

use crate::grants::push_entities;
use crate::lists::push_lists;
use crate::matrix::push_matrix;
use crate::rows::rows_of;
use crate::script::SCRIPT;
use crate::style::STYLE;
use audit_text::{Reached, reached_by};
use common_types::OutOfMemory;
use share_core::Pool;
use std::alloc::Global;
use std::fmt::Write;
use verdict_text::{ReadEntity, Rules};

/// What was found of grants, a line each, below a title.
#[derive(Debug)]
pub struct NoteList {
    /// Words without `<`, `>`, `&` and quotes.
    pub title: &'static str,
    pub lines: Vec<String>,
}

impl Drop for NoteList {
    fn drop(self) {
        let NoteList { title: _, lines: _ } = self;
    }
}

/// The head up to the style. No other file is loaded, also if a browser is asked to.
const HEAD: &str =
    "<!DOCTYPE html>\n<html lang=\"en\"><head><meta charset=\"utf-8\">\n<meta name=\"viewport\" content=\"width=device-width, initial-scale=1\">\n<meta http-equiv=\"Content-Security-Policy\" content=\"default-src 'none'; style-src 'unsafe-inline'; script-src 'unsafe-inline'; base-uri 'none'; form-action 'none'\">\n<title>What entities reach</title>\n<style>\n";

/// What the letters mean.
const LEGEND: &str =
    "<dl class=\"legend\"><dt>r</dt><dd>reads</dd><dt>w</dt><dd>writes</dd><dt>l</dt><dd>lists names</dd><dt>x</dt><dd>calls methods of listed classes</dd><dt>rw</dt><dd>every object of every namespace, from every address</dd><dt>(rw)</dt><dd>only some of these</dd><dt>*</dt><dd>every request</dd><dt>-</dt><dd>nothing</dd></dl>\n<p>These are osd capabilities alone. What an entity may request of mon, mgr and mds is not checked.</p>\n";

/// The controls, which the script shows.
const CONTROLS: &str =
    "<form id=\"controls\" hidden><label>Entities <input id=\"find-entity\" type=\"search\" placeholder=\"client.*\" autocomplete=\"off\"></label>\n<label>Pools <input id=\"find-pool\" type=\"search\" placeholder=\"rbd*\" autocomplete=\"off\"></label>\n<label>Order <select id=\"order\"><option value=\"name\">name</option><option value=\"reach\">most pools first</option></select></label>\n<output id=\"count\" role=\"status\"></output></form>\n";

/// Where the script explains a cell.
const CELL: &str =
    "<section id=\"cell\" role=\"region\" aria-live=\"polite\" aria-label=\"Cell\" hidden></section>\n";

fn rules_words(rules: Rules) -> &'static str {
    match rules {
        Rules::Ceph => "By the rules of Ceph 16.2.15.",
        Rules::Project => "By this project&#39;s rules, which are not those of Ceph.",
    }
}

/// Adds under which rules the page holds, and how much it shows.
fn push_summary(
    text: &mut String,
    rules: Rules,
    entities: &[ReadEntity],
    pools: &[Pool],
    all: &[Reached<'_>],
    rows: usize,
) -> Result<(), OutOfMemory> {
    let rules = rules_words(rules);
    let count = entities.len();
    let checked = all.len();
    let columns = pools.len();
    write!(
        text,
        "<p><b>{rules}</b> Of {count} entities {checked} are checked, in {rows} rows of equal texts. {columns} pools.</p>\n"
    )
}

/// Adds what the page is made of.
fn push_body(
    text: &mut String,
    alloc: Global,
    rules: Rules,
    entities: &[ReadEntity],
    pools: &[Pool],
    all: &[Reached<'_>],
    notes: &[NoteList],
) -> Result<(), OutOfMemory> {
    let rows = rows_of(alloc, all)?;
    let rows = rows.as_slice();
    text.push_str("<main><h1>What entities reach</h1>\n")?;
    push_summary(text, rules, entities, pools, all, rows.len())?;
    text.push_str(LEGEND)?;
    text.push_str(CONTROLS)?;
    text.push_str(CELL)?;
    push_matrix(text, alloc, pools, rows)?;
    push_lists(text, alloc, entities, pools, all, rows, notes)?;
    push_entities(text, alloc, pools, all, rows)?;
    text.push_str("</main>\n")
}

/// What entities reach of some pools, as an HTML document that needs no other file: under which rules it holds, a matrix with a
/// row for each text of entities and a column for each pool, lists below it, among them these on grants, and each row in words
/// with its grants. Each grant has a request that it allows, as an example.
///
/// An entity whose text is refused has no row and is in a list of its own. The only error is out of memory.
pub fn audit_page(
    alloc: Global,
    rules: Rules,
    entities: &[ReadEntity],
    pools: &[Pool],
    notes: &[NoteList],
) -> Result<String, OutOfMemory> {
    let all = reached_by(alloc, entities, pools)?;
    let mut text = String::from_str(alloc, HEAD)?;
    text.push_str(STYLE)?;
    text.push_str("</style></head>\n<body>\n")?;
    push_body(
        &mut text,
        alloc,
        rules,
        entities,
        pools,
        all.as_slice(),
        notes,
    )?;
    text.push_str("<script>\n")?;
    text.push_str(SCRIPT)?;
    text.push_str("</script></body></html>\n")?;
    Ok(text)
}
