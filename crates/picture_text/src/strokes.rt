//! The strokes and texts of a picture.

use crate::escaping::push_xml;
use crate::flights::Flight;
use crate::happenings::{End, Story, Topic};
use crate::lanes::{ASIDE, FIRST_ROW, Lane, Layout, TRACK, label_of};
use crate::lengths::Px;
use place_core::OutOfMemory;
use std::alloc::Global;
use std::fmt::Write;

/// Adds a text, whose foot stands at a height.
pub(crate) fn push_text(
    out: &mut String,
    class: &str,
    x: Px,
    y: Px,
    bytes: &[u8],
) -> Result<(), OutOfMemory> {
    write!(out, "<text class=\"{class}\" x=\"{x}\" y=\"{y}\">")?;
    push_xml(out, bytes)?;
    out.push_str("</text>\n")
}

pub(crate) fn push_rect(
    out: &mut String,
    class: &str,
    x: Px,
    y: Px,
    width: Px,
    height: Px,
) -> Result<(), OutOfMemory> {
    write!(out, "<rect class=\"{class}\" x=\"{x}\" y=\"{y}\" ")?;
    write!(out, "width=\"{width}\" height=\"{height}\"/>\n")
}

pub(crate) fn push_line(
    out: &mut String,
    class: &str,
    x: Px,
    y: Px,
    to_x: Px,
    to_y: Px,
) -> Result<(), OutOfMemory> {
    write!(out, "<line class=\"{class}\" x1=\"{x}\" y1=\"{y}\" ")?;
    write!(out, "x2=\"{to_x}\" y2=\"{to_y}\"/>\n")
}

/// Adds the disc of a daemon that leads or follows.
pub(crate) fn push_disc(out: &mut String, class: &str, x: Px, y: Px) -> Result<(), OutOfMemory> {
    write!(
        out,
        "<circle class=\"{class}\" cx=\"{x}\" cy=\"{y}\" r=\"5\"/>\n"
    )
}

/// Adds the break in the lane of a daemon that restarts.
pub(crate) fn push_restart(out: &mut String, x: Px, y: Px) -> Result<(), OutOfMemory> {
    let (left, below) = (x - Px(7), y + Px(4));
    write!(
        out,
        "<path class=\"restart\" d=\"M{left} {y}h14M{left} {below}h14\"/>\n"
    )
}

/// Adds a square where a request is answered, and a lozenge where it is decided.
pub(crate) fn push_mark(
    out: &mut String,
    class: &str,
    answers: bool,
    x: Px,
    y: Px,
) -> Result<(), OutOfMemory> {
    if answers {
        let (left, top) = (x - Px(4), y - Px(4));
        return write!(
            out,
            "<path class=\"mark{class}\" d=\"M{left} {top}h8v8h-8z\"/>\n"
        );
    }
    let top = y - Px(6);
    write!(
        out,
        "<path class=\"mark{class}\" d=\"M{x} {top}l6 6l-6 6l-6 -6z\"/>\n"
    )
}

/// Adds a cross.
pub(crate) fn push_cross(out: &mut String, x: Px, y: Px) -> Result<(), OutOfMemory> {
    let (left, top, bottom) = (x - Px(5), y - Px(5), y + Px(5));
    write!(
        out,
        "<path class=\"cross\" d=\"M{left} {top}l10 10M{left} {bottom}l10 -10\"/>\n"
    )
}

/// Adds a bar across an arrow's end.
pub(crate) fn push_bar(out: &mut String, x: Px, y: Px) -> Result<(), OutOfMemory> {
    let top = y - Px(6);
    write!(out, "<path class=\"bar\" d=\"M{x} {top}v12\"/>\n")
}

/// Which way an arrow goes.
#[derive(Clone, Copy)]
pub(crate) enum Way {
    Right,
    Left,
}

/// Adds an arrow's tip.
pub(crate) fn push_tip(
    out: &mut String,
    class: &str,
    way: Way,
    x: Px,
    y: Px,
) -> Result<(), OutOfMemory> {
    let top = y - Px(4);
    match way {
        Way::Right => {
            let back = x - Px(8);
            write!(
                out,
                "<path class=\"tip{class}\" d=\"M{back} {top}l8 4l-8 4z\"/>\n"
            )
        }
        Way::Left => {
            let back = x + Px(8);
            write!(
                out,
                "<path class=\"tip{class}\" d=\"M{back} {top}l-8 4l8 4z\"/>\n"
            )
        }
    }
}

/// The class of what a message is about, behind others.
fn topic_class(topic: Topic) -> &'static str {
    match topic {
        Topic::Peering => " moves",
        Topic::Entries => "",
        Topic::Requests => " asks",
    }
}

/// Where a message's arrow goes.
#[derive(Drop)]
struct Course {
    /// The lane that it leaves, the track beside it, and where the arrow ends.
    start: Px,
    track: Px,
    target: Px,
    begins: Px,
    ends: Px,
    way: Way,
    /// Where its name stands, and whether the name ends there.
    label: Px,
    label_y: Px,
    label_ends: bool,
}

fn way_of(flight: &Flight) -> Way {
    match flight.end {
        End::Lost | End::OnItsWay => Way::Right,
        End::Delivered | End::Unreachable if flight.from < flight.to => Way::Right,
        End::Delivered | End::Unreachable => Way::Left,
    }
}

/// The height at which a message leaves its lane.
fn height_sent(layout: &Layout, flight: &Flight) -> Px {
    match flight.begins {
        None => FIRST_ROW,
        Some(row) => match layout.places.get(row) {
            None => FIRST_ROW,
            Some(place) => place.top + place.height - Px(4),
        },
    }
}

fn course_of(layout: &Layout, flight: &Flight, from: &Lane, to: &Lane) -> Course {
    let ends = match layout.places.get(flight.ends) {
        None => layout.bottom,
        Some(place) => place.top + Px(19),
    };
    let way = way_of(flight);
    let is_short = matches!(flight.end, End::Lost | End::OnItsWay);
    let (target, label) = match way {
        Way::Right if is_short => (from.labels + Px(14), from.labels + Px(28)),
        Way::Right => (to.x - Px(2), to.x - Px(14)),
        Way::Left => (to.x + Px(2), to.labels + Px(2)),
    };
    Course {
        start: from.x,
        track: from.x + ASIDE + TRACK * flight.track,
        target,
        begins: height_sent(layout, flight),
        ends,
        way,
        label,
        label_y: if is_short { ends + Px(4) } else { ends - Px(4) },
        label_ends: way == Way::Right && !is_short,
    }
}

/// Adds the stroke of an arrow: from its lane to its track, down beside the lane, and across.
fn push_stroke(
    out: &mut String,
    class: &str,
    again: &str,
    course: &Course,
) -> Result<(), OutOfMemory> {
    let (start, track, target) = (course.start, course.track, course.target);
    let (begins, ends) = (course.begins, course.ends);
    write!(out, "<path class=\"flight{class}{again}\" ")?;
    write!(out, "d=\"M{start} {begins}H{track}V{ends}H{target}\"/>\n")
}

/// Adds what stands at an arrow's end.
fn push_end(out: &mut String, class: &str, end: End, course: &Course) -> Result<(), OutOfMemory> {
    let (x, y) = (course.target, course.ends);
    match end {
        End::Delivered => push_tip(out, class, course.way, x, y),
        End::OnItsWay => push_tip(out, class, Way::Right, x + Px(6), y),
        End::Lost => push_cross(out, x + Px(5), y),
        End::Unreachable => match course.way {
            Way::Right => push_bar(out, x - Px(4), y),
            Way::Left => push_bar(out, x + Px(4), y),
        },
    }
}

/// Adds a message's arrow and its name.
pub(crate) fn push_flight(
    alloc: Global,
    out: &mut String,
    story: &Story,
    layout: &Layout,
    flight: &Flight,
) -> Result<(), OutOfMemory> {
    let (Some(from), Some(to), Some(message)) = (
        layout.lanes.get(flight.from),
        layout.lanes.get(flight.to),
        story.messages.get(flight.message),
    ) else {
        return Ok(());
    };
    let course = course_of(layout, flight, from, to);
    let class = topic_class(message.topic);
    let again = if message.repeated { " again" } else { "" };
    push_stroke(out, class, again, &course)?;
    if flight.begins.is_some() {
        let (x, y) = (course.start, course.begins);
        write!(
            out,
            "<circle class=\"dot{class}\" cx=\"{x}\" cy=\"{y}\" r=\"2.5\"/>\n"
        )?;
    }
    push_end(out, class, flight.end, &course)?;
    let label = label_of(alloc, story, flight)?;
    let text = if course.label_ends {
        "label end"
    } else {
        "label"
    };
    push_text(out, text, course.label, course.label_y, label.as_bytes())
}
