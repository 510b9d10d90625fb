//! How far long work is, for people at a terminal.

use gate_files::InputFiles;
use std::io::Write;
use std::time::Duration;

/// How many seconds work takes until it is shown how far it is, and until that is shown again.
const STEP: u64 = 1;

/// How far a piece of work is. It is shown on standard error, on one line, if that is a terminal and the work takes longer than a
/// second. Nothing else is written.
pub struct Progress<'a, F, E> {
    files: &'a F,
    err: &'a mut E,
    /// When it is shown next, if it is shown at all.
    next: Option<Duration>,
    /// Whether a line of it is on the terminal.
    is_shown: bool,
}

impl<F, E> Drop for Progress<'_, F, E> {
    fn drop(self) {
        let Progress {
            files: _,
            err: _,
            next: _,
            is_shown: _,
        } = self;
    }
}

/// A second from now, if there is a clock.
fn in_a_second<F: InputFiles>(files: &F) -> Option<Duration> {
    files.now()?.checked_add(Duration::from_secs(STEP))
}

impl<'a, F: InputFiles, E: Write> Progress<'a, F, E> {
    /// Work begins.
    pub fn begin(files: &'a F, err: &'a mut E) -> Self {
        let next = if files.screen().cuts {
            in_a_second(files)
        } else {
            None
        };
        Progress {
            files,
            err,
            next,
            is_shown: false,
        }
    }

    /// Whether it is time to show how far the work is.
    fn is_due(&self) -> bool {
        match (self.next, self.files.now()) {
            (Some(next), Some(now)) => next <= now,
            _ => false,
        }
    }

    /// So much is done, in these words.
    pub fn show(&mut self, done: u64, words: &str) {
        if self.is_due() {
            let _ = write!(self.err, "\rosdgate: {done} {words}");
            self.is_shown = true;
            self.next = in_a_second(self.files);
        }
    }

    /// Work ends. Its line is removed.
    pub fn end(&mut self) {
        if self.is_shown {
            let _ = self.err.write_all(b"\r\x1b[K");
        }
        self.is_shown = false;
        self.next = None;
    }
}
