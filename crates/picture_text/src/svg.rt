//! A picture as SVG.

use crate::escaping::push_xml;
use crate::happenings::{Change, Happening, Party, Row, ScriptLine, Story};
use crate::lanes::{
    FIRST_ROW, INTERVALS, LINE_BYTES, LINE_PIECES, Lane, Layout, Place, SCRIPT, TEXT_LINE,
    layout_of, party_name,
};
use crate::legend::push_legend;
use crate::lengths::Px;
use crate::notes::{About, Note};
use crate::strokes::{
    push_disc, push_flight, push_line, push_mark, push_rect, push_restart, push_text,
};
use crate::style::STYLE;
use place_core::{ActingSet, OutOfMemory};
use std::alloc::Global;
use std::fmt::Write;

/// The left edge of the bands.
const BANDS: Px = Px(422);
/// The left edge of the lines' texts, behind their numbers.
const LINES: Px = Px(64);

/// The margin of a printed page.
const MARGIN: Px = Px(24);

/// What is said of a line whose first rows are left out.
const CONTINUED: &[u8] = b"(continued)";

/// The size of a printed page, in the picture's style. Rows are placed so that none is on two pages.
fn push_page(out: &mut String, layout: &Layout) -> Result<(), OutOfMemory> {
    let (width, height) = (layout.width + MARGIN * 2, layout.page + MARGIN * 2);
    write!(
        out,
        "@page {{ size: {width}px {height}px; margin: {MARGIN}px; }}\n"
    )
}

/// How the picture begins: its size, its title and its style.
fn push_opening(
    alloc: Global,
    out: &mut String,
    story: &Story,
    layout: &Layout,
) -> Result<(), OutOfMemory> {
    let (width, height) = (layout.width, layout.height);
    write!(
        out,
        "<svg xmlns=\"http://www.w3.org/2000/svg\" width=\"{width}\" height=\"{height}\" "
    )?;
    write!(
        out,
        "viewBox=\"0 0 {width} {height}\" role=\"img\">\n<title>"
    )?;
    push_xml(out, story.title.as_bytes())?;
    out.push_str("</title>\n<style>\n")?;
    out.push_str(STYLE)?;
    push_page(out, layout)?;
    out.push_str("</style>\n")?;
    push_rect(out, "paper", Px(0), Px(0), width, height)?;
    push_text(out, "title", SCRIPT, Px(30), story.title.as_bytes())?;
    if story.left_out > 0 {
        let left_out = story.left_out;
        let text = format!(in alloc; "{left_out} steps before these are left out")?;
        push_text(out, "quiet", SCRIPT, Px(50), text.as_bytes())?;
    }
    Ok(())
}

/// The heads of the columns and of the lanes.
fn push_heads(alloc: Global, out: &mut String, layout: &Layout) -> Result<(), OutOfMemory> {
    push_text(out, "quiet", SCRIPT, Px(77), b"script")?;
    push_text(out, "quiet", INTERVALS, Px(77), b"interval")?;
    let notes = layout.notes_x + Px(8);
    push_text(out, "quiet", notes, Px(77), b"decided and answered")?;
    for lane in &layout.lanes {
        push_rect(out, "box", lane.x - Px(30), Px(60), Px(60), Px(24))?;
        let name = party_name(alloc, lane.party)?;
        push_text(out, "head", lane.x, Px(76), name.as_bytes())?;
    }
    Ok(())
}

/// The names of the lanes once more, at the top of each page and after each 40 rows.
fn push_names(alloc: Global, out: &mut String, layout: &Layout) -> Result<(), OutOfMemory> {
    for top in &layout.names {
        for lane in &layout.lanes {
            let name = party_name(alloc, lane.party)?;
            push_text(out, "head quiet", lane.x, *top + Px(16), name.as_bytes())?;
        }
    }
    Ok(())
}

/// One interval's band.
#[derive(Drop)]
struct Band {
    number: usize,
    acting: ActingSet,
    top: Px,
}

fn push_band(
    alloc: Global,
    out: &mut String,
    layout: &Layout,
    band: &Band,
    bottom: Px,
) -> Result<(), OutOfMemory> {
    if band.number == 0 {
        return Ok(());
    }
    let class = if band.number % 2 == 0 {
        "band"
    } else {
        "band odd"
    };
    let width = layout.notes_x - BANDS;
    push_rect(out, class, BANDS, band.top, width, bottom - band.top)?;
    let number = band.number;
    let text = format!(in alloc; "interval {number}")?;
    push_text(out, "quiet", INTERVALS, band.top + Px(18), text.as_bytes())?;
    let mut text = String::from_str(alloc, "acting")?;
    if band.acting.as_slice().is_empty() {
        text.push_str(" nobody")?;
    }
    for member in band.acting.as_slice() {
        write!(text, " {member}")?;
    }
    push_text(out, "quiet", INTERVALS, band.top + Px(32), text.as_bytes())
}

/// The bands of the intervals, one below the other.
fn push_bands(
    alloc: Global,
    out: &mut String,
    story: &Story,
    layout: &Layout,
) -> Result<(), OutOfMemory> {
    let mut band = Band {
        number: story.beginning.interval,
        acting: story.beginning.acting,
        top: FIRST_ROW,
    };
    for (row, place) in story.rows.iter().zip(&layout.places) {
        for happening in &row.happenings {
            if let Happening::Interval { number, acting } = happening {
                push_band(alloc, out, layout, &band, place.top)?;
                band = Band {
                    number: *number,
                    acting: *acting,
                    top: place.top,
                };
            }
        }
    }
    push_band(alloc, out, layout, &band, layout.bottom)
}

/// A lane where its daemon is down.
fn push_down(out: &mut String, lane: &Lane, from: Px, to: Px) -> Result<(), OutOfMemory> {
    push_line(out, "down", lane.x, from, lane.x, to)
}

/// The stretches of a lane in which its daemon is down.
fn push_downs(
    out: &mut String,
    story: &Story,
    layout: &Layout,
    lane: &Lane,
    number: u8,
) -> Result<(), OutOfMemory> {
    let mut down_from = if story.beginning.up.has(number) {
        None
    } else {
        Some(FIRST_ROW)
    };
    for (row, place) in story.rows.iter().zip(&layout.places) {
        for happening in &row.happenings {
            let Happening::Daemon { daemon, change } = happening else {
                continue;
            };
            if *daemon != number {
                continue;
            }
            let now = place.top + Px(14);
            match change {
                Change::Down => down_from = Some(now),
                Change::Up => {
                    if let Some(from) = down_from {
                        push_down(out, lane, from, now)?;
                    }
                    down_from = None;
                }
                Change::Restarted => (),
            }
        }
    }
    match down_from {
        None => Ok(()),
        Some(from) => push_down(out, lane, from, layout.bottom),
    }
}

fn push_lanes(out: &mut String, story: &Story, layout: &Layout) -> Result<(), OutOfMemory> {
    for lane in &layout.lanes {
        push_line(out, "lane", lane.x, Px(84), lane.x, layout.bottom)?;
        if let Party::Osd(number) = lane.party {
            push_downs(out, story, layout, lane, number)?;
        }
    }
    Ok(())
}

/// Who leads and who follows, where an interval begins; and who restarts.
fn push_roles(
    out: &mut String,
    layout: &Layout,
    row: &Row,
    place: &Place,
) -> Result<(), OutOfMemory> {
    for happening in &row.happenings {
        for lane in &layout.lanes {
            let Party::Osd(number) = lane.party else {
                continue;
            };
            match happening {
                Happening::Interval { acting, .. } if acting.has(number) => {
                    let leads = acting.as_slice().first() == Some(&number);
                    let class = if leads { "leads" } else { "follows" };
                    push_disc(out, class, lane.x, place.top + Px(24))?;
                }
                Happening::Daemon {
                    daemon,
                    change: Change::Restarted,
                } if *daemon == number => push_restart(out, lane.x, place.top + Px(9))?,
                _ => (),
            }
        }
    }
    Ok(())
}

/// A line of the script, with its number.
fn push_script_line(
    alloc: Global,
    out: &mut String,
    line: &ScriptLine,
    top: Px,
) -> Result<(), OutOfMemory> {
    let number = line.number;
    let text = format!(in alloc; "{number}")?;
    let y = top + Px(18);
    push_text(out, "mono quiet", SCRIPT, y, text.as_bytes())?;
    if line.continues {
        push_text(out, "mono quiet", LINES, y, CONTINUED)?;
        return push_pieces(alloc, out, line, y + TEXT_LINE);
    }
    push_pieces(alloc, out, line, y)
}

/// The text of a line, in pieces one below another.
fn push_pieces(
    alloc: Global,
    out: &mut String,
    line: &ScriptLine,
    y: Px,
) -> Result<(), OutOfMemory> {
    let mut y = y;
    for (place, piece) in line.text.as_slice().chunks(LINE_BYTES).enumerate() {
        if place == LINE_PIECES - 1 && line.text.len() > LINE_BYTES * LINE_PIECES {
            let shown = piece.len().saturating_sub(3);
            let mut text = Vec::from_slice(alloc, &piece[..shown])?;
            text.extend_from_slice(b" ..")?;
            return push_text(out, "mono", LINES, y, text.as_slice());
        }
        push_text(out, "mono", LINES, y, piece)?;
        y = y + TEXT_LINE;
    }
    Ok(())
}

fn push_notes(
    out: &mut String,
    layout: &Layout,
    notes: &[Note],
    top: Px,
) -> Result<(), OutOfMemory> {
    let x = layout.notes_x + Px(8);
    let mut y = top + Px(18);
    for note in notes {
        let class = match note.about {
            About::Decided => "decided",
            About::Answered => "answered",
            About::Denied => "denied",
            About::Printed => "mono",
            About::Chosen => "chosen",
            About::Daemon | About::Rest => "quiet",
            About::Refused => "refused",
        };
        push_text(out, class, x, y, note.text.as_bytes())?;
        y = y + TEXT_LINE;
    }
    Ok(())
}

/// The lane at which a row's message ended.
fn reached(layout: &Layout, row: usize) -> Option<Px> {
    let lane = (*layout.reached.get(row)?)?;
    Some(layout.lanes.get(lane)?.x)
}

/// A mark at the lane where a request was decided, or was answered.
fn push_marks(
    out: &mut String,
    layout: &Layout,
    row: usize,
    told: &Row,
    top: Px,
) -> Result<(), OutOfMemory> {
    for happening in &told.happenings {
        let (answers, outcome) = match happening {
            Happening::Decided(outcome) => (false, outcome),
            Happening::Answered(outcome) => (true, outcome),
            _ => continue,
        };
        if let Some(x) = reached(layout, row) {
            let class = if outcome.is_denied { " denied" } else { "" };
            push_mark(out, class, answers, x, top + Px(7))?;
        }
    }
    Ok(())
}

/// A rule across the picture.
fn push_rule(out: &mut String, layout: &Layout, y: Px) -> Result<(), OutOfMemory> {
    push_line(out, "rule", SCRIPT, y, layout.width - SCRIPT, y)
}

/// What stands in the rows beside the messages.
fn push_rows(
    alloc: Global,
    out: &mut String,
    story: &Story,
    layout: &Layout,
) -> Result<(), OutOfMemory> {
    let rows = story.rows.iter().zip(&layout.places).zip(&layout.notes);
    for (number, ((row, place), notes)) in rows.enumerate() {
        if let Some(line) = &row.line {
            push_rule(out, layout, place.top)?;
            push_script_line(alloc, out, line, place.top)?;
        }
        push_roles(out, layout, row, place)?;
        push_marks(out, layout, number, row, place.top)?;
        push_notes(out, layout, notes.as_slice(), place.top)?;
    }
    Ok(())
}

/// What stands beside the messages that are on their way, of which some may be left out.
fn rest_text(alloc: Global, story: &Story) -> Result<String, OutOfMemory> {
    match story.waiting_left_out {
        0 => String::from_str(alloc, "still on their way"),
        count => format!(in alloc; "still on their way, and {count} more"),
    }
}

/// Where the script ended, above the messages that are on their way.
fn push_rest(
    alloc: Global,
    out: &mut String,
    story: &Story,
    layout: &Layout,
) -> Result<(), OutOfMemory> {
    if story.waiting.is_empty() {
        return Ok(());
    }
    let Some(place) = layout.places.get(story.rows.len()) else {
        return Ok(());
    };
    push_rule(out, layout, place.top)?;
    let text = rest_text(alloc, story)?;
    push_text(out, "quiet", LINES, place.top + Px(18), text.as_bytes())
}

/// A story as a picture.
pub fn svg_of(alloc: Global, story: &Story) -> Result<String, OutOfMemory> {
    let layout = layout_of(alloc, story)?;
    let mut out = String::new(alloc);
    push_opening(alloc, &mut out, story, &layout)?;
    push_bands(alloc, &mut out, story, &layout)?;
    push_lanes(&mut out, story, &layout)?;
    push_heads(alloc, &mut out, &layout)?;
    push_names(alloc, &mut out, &layout)?;
    for flight in &layout.flights {
        push_flight(alloc, &mut out, story, &layout, flight)?;
    }
    push_rows(alloc, &mut out, story, &layout)?;
    push_rest(alloc, &mut out, story, &layout)?;
    push_legend(&mut out, layout.foot)?;
    out.push_str("</svg>\n")?;
    Ok(out)
}
