//! What lines for people are shown on.

use std::alloc::Global;
use std::env::{Env, FillError};
use std::io::IsTerminal;

/// The columns of a line where nothing says how wide the terminal is.
const USUAL_WIDTH: usize = 80;

/// What lines for people are shown on.
#[derive(Clone, Copy)]
pub struct Screen {
    /// The columns of a line.
    pub width: usize,
    /// Whether standard error is a terminal, whose lines are cut.
    pub cuts: bool,
    /// Whether standard output is coloured where the arguments do not say it.
    pub colours_out: bool,
    /// Whether standard error is.
    pub colours_err: bool,
}

impl Screen {
    /// No terminal.
    pub fn none() -> Screen {
        Screen {
            width: USUAL_WIDTH,
            cuts: false,
            colours_out: false,
            colours_err: false,
        }
    }
}

/// The width that the variable `COLUMNS` gives, if it is one from 20 to 999.
fn columns<R: Env>(rt: &R, alloc: Global) -> Option<usize> {
    let mut room = vec![in alloc; 0u8; 3].ok()?;
    let length = rt.var("COLUMNS", room.as_mut_slice()).ok()?;
    room.truncate(length);
    let text = String::from_utf8(room).ok()?;
    let width = text.as_str().parse::<usize>().ok()?;
    if width < 20 {
        return None;
    }
    Some(width)
}

/// Whether the variable `NO_COLOR` is set, and not to the empty text.
fn has_no_colour<R: Env>(rt: &R, alloc: Global) -> bool {
    let Ok(mut room) = vec![in alloc; 0u8; 1] else {
        return true;
    };
    match rt.var("NO_COLOR", room.as_mut_slice()) {
        Ok(length) => length > 0,
        Err(FillError::TooLong) => true,
        Err(FillError::NotPresent) => false,
    }
}

/// The screen of the program's host.
pub(crate) fn host_screen(rt: &HostRuntime) -> Screen {
    let colours = !has_no_colour(rt, rt.alloc());
    let cuts = rt.stderr().is_terminal();
    Screen {
        width: columns(rt, rt.alloc()).unwrap_or(USUAL_WIDTH),
        cuts,
        colours_out: colours && rt.stdout().is_terminal(),
        colours_err: colours && cuts,
    }
}
