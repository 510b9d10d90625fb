//! What the marks of a picture mean, at its foot.

use crate::lengths::Px;
use crate::strokes::{
    Way, push_bar, push_cross, push_disc, push_line, push_mark, push_restart, push_text, push_tip,
};
use place_core::OutOfMemory;

/// The marks that are explained.
#[derive(Clone, Copy)]
enum Mark {
    Delivered,
    Again,
    Lost,
    Unreachable,
    Leads,
    Follows,
    Down,
    Restarts,
    Decided,
    Answered,
    Waits,
    Peering,
    Entries,
    Requests,
    Denied,
}

use Mark::{
    Again, Answered, Decided, Delivered, Denied, Down, Entries, Follows, Leads, Lost, Peering,
    Requests, Restarts, Unreachable, Waits,
};

const UPPER: [(Mark, &str); 5] = [
    (Delivered, "a message that arrives"),
    (Again, "one that was sent once more"),
    (Lost, "one that is lost"),
    (Unreachable, "one to a daemon that is down"),
    (Down, "a daemon that is down"),
];

const LOWER: [(Mark, &str); 5] = [
    (Leads, "a daemon that leads the interval"),
    (Follows, "one that follows"),
    (Restarts, "one that restarts"),
    (Decided, "a request is decided"),
    (Answered, "a request is answered"),
];

const LAST: [(Mark, &str); 5] = [
    (Waits, "one that is on its way at the end"),
    (Peering, "messages of peering"),
    (Entries, "messages of the log"),
    (Requests, "requests and replies"),
    (Denied, "a request is denied"),
];

fn push_arrow(out: &mut String, class: &str, x: Px, y: Px) -> Result<(), OutOfMemory> {
    push_line(out, class, x, y, x + Px(22), y)
}

/// An arrow in the colour of a kind of messages.
fn push_kind(out: &mut String, class: &str, x: Px, y: Px) -> Result<(), OutOfMemory> {
    match class {
        " moves" => push_arrow(out, "flight moves", x, y)?,
        " asks" => push_arrow(out, "flight asks", x, y)?,
        _ => push_arrow(out, "flight", x, y)?,
    }
    push_tip(out, class, Way::Right, x + Px(26), y)
}

/// A mark, left of what it means.
fn push_sample(out: &mut String, mark: Mark, x: Px, y: Px) -> Result<(), OutOfMemory> {
    match mark {
        Delivered => {
            push_arrow(out, "flight", x, y)?;
            push_tip(out, "", Way::Right, x + Px(26), y)
        }
        Again => {
            push_arrow(out, "flight again", x, y)?;
            push_tip(out, "", Way::Right, x + Px(26), y)
        }
        Lost => {
            push_arrow(out, "flight", x, y)?;
            push_cross(out, x + Px(24), y)
        }
        Unreachable => {
            push_arrow(out, "flight", x, y)?;
            push_bar(out, x + Px(24), y)
        }
        Leads => push_disc(out, "leads", x + Px(20), y),
        Follows => push_disc(out, "follows", x + Px(20), y),
        Down => push_line(out, "down", x + Px(20), y - Px(8), x + Px(20), y + Px(8)),
        Restarts => push_restart(out, x + Px(20), y - Px(2)),
        Decided => push_mark(out, "", false, x + Px(20), y),
        Answered => push_mark(out, "", true, x + Px(20), y),
        Waits => {
            push_arrow(out, "flight", x, y)?;
            push_tip(out, "", Way::Right, x + Px(28), y)
        }
        Peering => push_kind(out, " moves", x, y),
        Entries => push_kind(out, "", x, y),
        Requests => push_kind(out, " asks", x, y),
        Denied => push_mark(out, " denied", false, x + Px(20), y),
    }
}

fn push_row(out: &mut String, marks: &[(Mark, &str)], y: Px) -> Result<(), OutOfMemory> {
    let mut x = Px(16);
    for (mark, text) in marks {
        push_sample(out, *mark, x, y)?;
        push_text(out, "quiet", x + Px(36), y + Px(4), text.as_bytes())?;
        x = x + Px(254);
    }
    Ok(())
}

/// Adds what the marks mean, below the last row.
pub(crate) fn push_legend(out: &mut String, top: Px) -> Result<(), OutOfMemory> {
    push_row(out, &UPPER, top + Px(22))?;
    push_row(out, &LOWER, top + Px(46))?;
    push_row(out, &LAST, top + Px(70))
}
