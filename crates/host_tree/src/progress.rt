//! How far a command has come, and the line that shows it.
use std::fmt;
use std::fmt::{Display, Formatter, Write};
use std::rt::Clock;
use std::time::Instant;

/// How many seconds the work takes before its progress is shown.
const PATIENCE: u64 = 1;

/// What a command is at, and how much of it is done.
#[derive(Clone, Copy, PartialEq, Eq, Drop)]
pub enum Progress {
    /// So many files of the input were read.
    Input { read: u64, of: u64 },
    /// So many files of the library were read.
    Library { read: u64, of: u64 },
    /// So many classes of the input are about to be linked with so many of the library.
    Linking { classes: u64, library: u64 },
    /// So many classes of the input were linked.
    Linked { linked: u64, of: u64 },
    /// So many classes of the input were verified.
    Verified { verified: u64, of: u64 },
}

impl Display for Progress {
    fn fmt<W: Write>(&self, f: &mut Formatter<W>) -> fmt::Result {
        match self {
            Progress::Input { read, of } => write!(f, "{read} of {of} files of IN are read"),
            Progress::Library { read, of } => write!(f, "{read} of {of} files of LIB are read"),
            Progress::Linking { classes, library } => {
                write!(f, "linking {classes} classes of IN with {library} of LIB")
            }
            Progress::Linked { linked, of } => {
                write!(f, "{linked} of {of} classes of IN are linked")
            }
            Progress::Verified { verified, of } => {
                write!(f, "{verified} of {of} classes of IN are verified")
            }
        }
    }
}

/// A line of progress on standard error, which is rewritten in place. It is shown where standard error is a terminal and the work
/// has taken longer than a second.
#[derive(Drop)]
pub(crate) struct ProgressLine {
    /// When the work began; `None` where nothing is to be shown.
    begun: Option<Instant>,
    is_shown: bool,
}

impl ProgressLine {
    /// The line of work that begins now.
    pub(crate) fn new<R: Clock>(rt: &R, is_terminal: bool) -> ProgressLine {
        let begun = if is_terminal {
            Instant::now(rt).ok()
        } else {
            None
        };
        ProgressLine {
            begun,
            is_shown: false,
        }
    }

    /// Shows the progress in the place of what stands there.
    pub(crate) fn show<R: Clock + Eprint>(&mut self, rt: &R, progress: Progress) {
        if self.is_due(rt) {
            self.is_shown = true;
            let _ = eprint!(rt; "\r\x1b[Kpea: {progress}");
        }
    }

    /// Erases the line, where it is shown.
    pub(crate) fn erase<R: Eprint>(&mut self, rt: &R) {
        if self.is_shown {
            self.is_shown = false;
            let _ = eprint!(rt; "\r\x1b[K");
        }
    }

    /// Whether the work has taken long enough.
    fn is_due<R: Clock>(&self, rt: &R) -> bool {
        match self.begun {
            Some(begun) => match begun.elapsed(rt) {
                Ok(time) => time.as_secs() >= PATIENCE,
                Err(_) => false,
            },
            None => false,
        }
    }
}
