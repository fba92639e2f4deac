//! What a record answered to a run, and whether the run ended as that says.

use job_rows::{Command, Entry, RecordRefusal};
use run_core::{Note, NoteKind, Outcome, Report, RunFault};

/// What a record answered to a run.
#[derive(Clone, Copy)]
pub struct Came {
    /// How many Puts were done.
    done: usize,
    /// How many Puts were refused.
    refused: usize,
    /// How many Touches were refused.
    refused_touches: usize,
    /// Whether a Find was refused.
    pub refused_find: bool,
    /// Whether the run ended as these answers say, and no Put was done after one that was refused.
    pub ends_as_told: bool,
}

/// A record that could not be opened, so that there was no run.
pub const UNASKED: Came = Came {
    done: 0,
    refused: 0,
    refused_touches: 0,
    refused_find: false,
    ends_as_told: true,
};

impl Came {
    /// Whether nothing was refused, and the run ended so.
    pub fn is_whole(self) -> bool {
        self.ends_as_told && self.noted() == 0 && !self.refused_find
    }

    pub fn has_refused_put_alone(self) -> bool {
        self.refused > 0 && !self.refused_find
    }

    pub fn has_refused_touch_alone(self) -> bool {
        self.refused_touches > 0 && !self.refused_find
    }

    // How many refusals are notes.
    fn noted(self) -> usize {
        self.refused.saturating_add(self.refused_touches)
    }

    /// Whether the record has to hold a row: that of a Put that was done, or one that was there before.
    pub fn has_to_hold(self, place: Option<usize>) -> bool {
        match place {
            None => true,
            Some(place) => place < self.done,
        }
    }

    /// Whether the record may hold a row: one that it has to hold, or that of the first Put that was refused.
    pub fn may_hold(self, place: Option<usize>) -> bool {
        self.has_to_hold(place) || self.refused > 0 && place == Some(self.done)
    }

    fn with(self, entry: &Entry) -> Came {
        match (entry.command, entry.answer.is_ok()) {
            (Command::Put, true) => Came {
                done: self.done.saturating_add(1),
                ends_as_told: self.ends_as_told && self.refused == 0,
                ..self
            },
            (Command::Put, false) => Came {
                refused: self.refused.saturating_add(1),
                ..self
            },
            (Command::Touch, false) => Came {
                refused_touches: self.refused_touches.saturating_add(1),
                ..self
            },
            (Command::Find, false) => Came {
                refused_find: true,
                ..self
            },
            _ => self,
        }
    }
}

/// What the record with this log answered to a run that ended so.
pub fn came_of(log: &[Entry], end: &Result<Report, RunFault>) -> Came {
    let mut came = UNASKED;
    for entry in log {
        came = came.with(entry);
    }
    let ends_so = match end {
        Ok(report) => !came.refused_find && succeeds(report, came.noted()),
        Err(RunFault::Record(RecordRefusal::Store)) => came.refused_find,
        Err(_) => false,
    };
    Came {
        ends_as_told: came.ends_as_told && ends_so,
        ..came
    }
}

/// Whether a run succeeded with so many notes, each of a Put or a Touch that the store refused.
fn succeeds(report: &Report, refused: usize) -> bool {
    matches!(report.outcome, Outcome::Success(_))
        && report.notes.len() == refused
        && are_refusals(report.notes.as_slice())
}

fn are_refusals(notes: &[Note]) -> bool {
    for note in notes {
        let is_refusal = matches!(
            &note.kind,
            NoteKind::Put(RecordRefusal::Store) | NoteKind::Touch(RecordRefusal::Store)
        );
        if !is_refusal {
            return false;
        }
    }
    true
}
